//! The machine that a scenario asks for, and its lines `raw` as scripts.
#![tactic(auto)]

mod machines;

pub use machines::{config_of, failing_of, schedule_of};
