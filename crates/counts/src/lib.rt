//! Counting: how often events were counted, at a group and in sums over groups, and how often a number occurs in a
//! list.
//!
//! The crate has no code. It has lemmas of the counts in `machine` and of lists of numbers. They are for the crates
//! that keep counts and those that reason about whole histories.
#![tactic(auto)]
