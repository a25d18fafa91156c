//! The sink of a run. It prints the answers as they come, and writes what the options ask for to a second writer.
//!
//! [`print_run`] runs a schedule into it. [`write_bytes`] and [`write_line`] hand bytes to a writer.
#![tactic(auto)]

mod amounts;
mod begun;
mod failure;
mod judged;
mod killing;
mod metered;
mod observed;
mod options;
mod output;
mod printer;
mod source;
mod stopped;
mod tally;

pub use amounts::Amounts;
pub use options::Options;
pub use output::{write_bytes, write_line};
pub use printer::{ERASE, Ended, print_run};
pub use source::{Source, paths_of};
pub use stopped::Stopped;
