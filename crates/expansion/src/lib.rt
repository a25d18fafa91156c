//! What a scenario stands for: the entries of a schedule, each with its line and its rounds.
#![tactic(auto)]

pub mod expansion;
pub mod frames;
pub mod merge;
pub mod text;
pub mod together;
