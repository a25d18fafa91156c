//! What each group is charged with after each step of a run, and what the machine has in use, as a table.
//!
//! [`watch`] runs a schedule and keeps what a look at the book shows between the steps. It adds no command, so the run
//! is the same as without it. [`table`] lists it. [`phases`] are named in the script.
#![tactic(auto)]

mod kills;
mod listing;
mod phased;
mod watching;

pub use kills::Kill;
pub use listing::table;
pub use phased::phases;
pub use watching::{Machine, Row, Shown, Sizes, Watched, watch};
