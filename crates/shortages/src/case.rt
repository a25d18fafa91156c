//! What one run is to do.

use crate::tour::Plan;

/// A part of the tour. One run goes through one part.
#[derive(Clone, Copy)]
pub enum Part {
    /// The steps of a machine.
    Machine(Plan),
    /// A book is opened, its passes are made, and their room.
    Openings,
    /// Marks of frames are opened.
    Marks,
    /// A script is run.
    Run,
    /// A machine that workers share is opened, asked, and ended.
    Live,
}

/// A step, and where memory is refused: after this number of allocations, which the program makes before the first step
/// of the part.
#[derive(Clone, Copy)]
pub struct Case<'a> {
    pub ahead: u32,
    pub step: &'a str,
}

impl<'a> Case<'a> {
    /// The case of a line: a number, a space, and the name of a step.
    pub fn of(line: &'a str) -> Option<Case<'a>> {
        let (ahead, step) = line.trim().split_once(' ')?;
        let ahead = ahead.parse::<u32>().ok()?;
        Some(Case { ahead, step })
    }

    /// The part of the tour that has the step.
    pub fn part(self) -> Part {
        match self.step {
            "mkdir among nine" => Part::Machine(Plan::Many),
            "open" | "first pass" | "reserve" | "fifth pass" => Part::Openings,
            "marks" => Part::Marks,
            "run" => Part::Run,
            "live history" | "live open" | "list of passes" | "live pass" | "live command" => {
                Part::Live
            }
            _ => Part::Machine(Plan::Few),
        }
    }
}
