//! Lines of a scenario in their rounds.

use std::alloc::{AllocError, Global};

/// A line of the scenario, in these rounds.
#[derive(Drop)]
pub struct Place {
    /// The number of the line.
    pub line: usize,
    /// The outermost round first.
    pub rounds: Vec<u32>,
}

impl Place {
    /// The place of the line with this number.
    pub fn new(alloc: Global, line: usize, rounds: &[u32]) -> Result<Place, AllocError> {
        Ok(Place {
            line,
            rounds: Vec::from_slice(alloc, rounds)?,
        })
    }

    /// Whether it is this line, in these rounds.
    pub fn is(&self, line: usize, rounds: &[u32]) -> bool {
        self.line == line && self.rounds.as_slice() == rounds
    }
}
