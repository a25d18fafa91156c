//! Forms of words: names of groups and files, paths, and numbers in decimal.
//!
//! The script reader, the tree of groups and the control files use only these functions to read
//! words.
#![tactic(auto)]

pub mod name;
pub mod number;
