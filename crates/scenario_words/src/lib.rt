//! What the words of a scenario's line mean: sizes, paths, names of tasks, the header, and lines of a script after `raw`.
#![tactic(auto)]

pub mod amount;
pub mod fault;
pub mod header;
pub mod names;
pub mod paths;
pub mod raw;
pub mod task_names;
pub mod word;
