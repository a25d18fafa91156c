//! What a run on threads shows of groups at its end, and what it did, in numbers.
#![tactic(auto)]

pub use shown::{Missing, Shows, write_looks};
pub use summary::Summary;

mod shown;
mod summary;
