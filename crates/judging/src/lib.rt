//! The first turn of a command: its paths are looked up in a book, and then the command is judged.
#![tactic(auto)]

pub mod judge;
