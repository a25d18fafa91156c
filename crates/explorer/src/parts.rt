//! What is explored.

ghost use Rattle.std.specs.Prelude.{◌≡◌};
ghost use Rattle.explorer.specs.Outcome.{no_call_fails, choice_in};

use crate::choice::Choice;
use machine::command::{Actor, Step};
use machine::config::Config;

/// An actor, and what it begins in the work, one command after another.
#[derive(Drop)]
pub struct Row {
    pub actor: Actor,
    /// The steps that begin its commands.
    pub lines: Vec<Step>,
    /// The numbers of these lines in the script.
    pub numbers: Vec<usize>,
}

/// What is explored: a machine over a device in memory, and what is done with it.
#[derive(Drop)]
pub struct Parts {
    pub config: Config,
    /// Which reads of the device fail, counted from 1.
    pub read_faults: Vec<u64>,
    /// Which writes.
    pub write_faults: Vec<u64>,
    /// What is done before the work, in sequence.
    pub setup: Vec<Step>,
    /// The work. Different rows have different actors.
    pub rows: Vec<Row>,
    /// What is done after the work, in sequence.
    pub looks: Vec<Step>,
}

impl Parts {
    /// Whether no call of the device fails.
    fn no_call_fails(&self) -> bool
        ensures { result ≡ no_call_fails self.now }
    {
        self.read_faults.is_empty() && self.write_faults.is_empty()
    }

    /// Who can take the next turn, if this was asked for. If a call of the device can fail, the order of the calls says
    /// which one does. Then device calls don't come first.
    pub fn choice(&self, asked: Choice) -> Choice
        ensures { result ≡ choice_in self.now asked }
    {
        if self.no_call_fails() {
            asked
        } else {
            Choice::Any
        }
    }
}
