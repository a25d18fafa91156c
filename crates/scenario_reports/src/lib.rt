//! What a run of a scenario is asked for, what is known of its tasks and groups, and what is said of it.
#![tactic(auto)]

pub mod asked;
pub mod by_group;
pub mod causes;
pub mod changes;
pub mod checked;
pub mod choice;
pub mod commands;
pub mod confirming;
pub mod levels;
pub mod notes;
pub mod pace;
pub mod refusals;
pub mod said;
pub mod summary;
pub mod tasks;
pub mod telling;
pub mod values;
pub mod vary_rows;
pub mod verdicts;
