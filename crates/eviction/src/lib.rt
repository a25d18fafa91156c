//! Which page of a group is evicted next (mm/multigen_lru: "Eviction").
#![tactic(auto)]

mod choice;
mod files;
mod found;
mod search;

pub use choice::pick;
pub use files::has_old_file;
pub use found::Pick;
