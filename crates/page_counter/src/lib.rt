//! Page counters: how many pages are charged to each group and below it, at most its max (kernel:
//! mm/page_counter.c).
//!
//! A charge adds one page to a group and to each group above it, or changes nothing. It is a value
//! that must be given back.
#![tactic(auto)]

pub use charge::{Charge, Over};
pub use counters::Counters;

mod charge;
mod child_sums;
mod counters;
mod guard_sums;
