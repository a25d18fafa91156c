//! Rows: the numbers of the machine and of its groups, for a line of a scenario and its rounds.

use crate::measures::Moved;
use crate::places::Place;
use machine::amount::Amount;
use machine::text::Text;

/// The numbers of the machine, in pages.
#[derive(Clone, Copy)]
pub struct Machine {
    /// Frames with a page.
    pub used: u64,
    /// Frames without one.
    pub free: u64,
    /// Swap blocks with a page.
    pub swap: u64,
    /// Pages that were moved since the run began.
    pub moved: Moved,
}

/// How often a charge of a group was refused at its max, and how many of its tasks were killed.
#[derive(Clone, Copy, Default)]
pub struct Counts {
    /// Charges.
    pub refused: u64,
    /// Tasks.
    pub killed: u64,
}

impl Counts {
    /// What was counted since another moment.
    pub fn since(self, then: Counts) -> Counts {
        Counts {
            refused: self.refused.saturating_sub(then.refused),
            killed: self.killed.saturating_sub(then.killed),
        }
    }
}

/// The numbers of a group at a moment. Sizes are in pages.
#[derive(Clone, Copy)]
pub struct Stats {
    /// What it is charged with (`memory.current`).
    pub current: u64,
    /// The anonymous pages among these (`memory.stat`).
    pub anon: u64,
    /// The pages of files among these (`memory.stat`).
    pub file: u64,
    /// `memory.max`
    pub max: Amount,
    /// `memory.min`
    pub min: Amount,
    /// `memory.low`
    pub low: Amount,
    /// The counts of the group itself (`memory.events.local`).
    pub counts: Counts,
}

/// A group of a row.
#[derive(Clone, Copy)]
pub struct Group<'r> {
    /// Its true path.
    pub path: &'r str,
    /// Its numbers after the line.
    pub stats: Stats,
}

/// The numbers that are shown for a line and its rounds.
#[derive(Drop)]
pub struct Row<'r> {
    /// The line and its rounds.
    pub place: &'r Place,
    /// The name of the phase.
    pub phase: &'r str,
    /// The numbers of the machine after the line.
    pub machine: Machine,
    /// The groups, in the order in which they were made.
    pub groups: Vec<Group<'r>>,
    /// The names of the tasks that were killed since the last row.
    pub died: &'r [String],
}

/// A group that rows are of.
#[derive(Drop)]
pub struct Chosen {
    /// The path by which the machine knows it.
    pub script: Text,
    /// The true path.
    pub path: String,
    /// The most pages that it was charged with since the last row.
    pub peak: u64,
}

/// A setting in pages. `None` if it is `max`.
pub fn finite(amount: Amount) -> Option<u64> {
    match amount {
        Amount::Max => None,
        Amount::Pages(pages) => Some(pages),
    }
}
