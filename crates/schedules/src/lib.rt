//! The steps of a schedule, kept line by line.
//!
//! A line that begins a command and finishes it is one entry of the table, and not two steps. The table gives the list
//! of steps, and the line of each step. A step's place is its place in that list.
#![tactic(auto)]

mod schedule;
mod steps;

pub use schedule::{Entry, Line, Schedule};
pub use steps::Steps;
