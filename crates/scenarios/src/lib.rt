//! The text of a scenario: its lines, their words, and the blocks that they form.
//!
//! A hole `{NAME}` may be in any word, also in a size or a task's name. So this crate reads words and forms of words, and
//! gives none a meaning. An expander fills the holes of a line first.
#![tactic(auto)]

pub mod draws;
pub mod fault;
pub mod holes;
pub mod lines;
pub mod nearest;
pub mod parts;
pub mod pieces;
pub mod scenario;
pub mod size_faults;
pub mod sizes;
pub mod unknown;
pub mod words;
