//! Runs of scenarios: each item of a scenario is carried out on a machine, and an [`Observer`] sees what comes of it.
#![tactic(auto)]

mod carrying;
mod observer;

pub use carrying::carry_out;
pub use observer::{Course, Observer};
