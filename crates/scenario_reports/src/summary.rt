//! What came of a run, in a few numbers.

use scenario_pictures::Moved;
use scenario_words::amount::PageSize;

/// What came of a run.
#[derive(Drop)]
pub struct Summary {
    pub page: PageSize,
    /// What the machine moved in the last phase.
    pub moved: Moved,
    /// All was as expected.
    pub well: bool,
    /// How many tasks were killed.
    pub killed: usize,
    /// The names of those that were killed first.
    pub first: Vec<String>,
}

impl Summary {
    /// How many tasks were killed after those that have names here.
    pub fn others(&self) -> usize {
        self.killed.saturating_sub(self.first.len())
    }
}
