//! How the generation lists of pages change: when a page comes or goes, when lists age or are handed over, and when pages
//! are hit. Also which pages a reclaim may take, and how its cursors change.
//!
//! The crate has no code. It has lemmas of the definitions in `machine`. They are for the crates that keep the lists and
//! those that reason about whole histories.
#![tactic(auto)]
