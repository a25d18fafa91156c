//! A new youngest generation (mm/multigen_lru: "Aging").
#![tactic(auto)]

mod mark_set;
mod promotion;

pub use mark_set::MarkSet;
pub use promotion::{age, to_youngest};
