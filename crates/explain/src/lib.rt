//! More about a faulty line of a script: which word is wrong, and what its place requires. It also says why a command
//! of a line without a fault ended with a word.
//!
//! It judges nothing again: the reader and the machine gave the line, the cause and the word. No clause speaks of its
//! texts, so they can be worded for people.
#![tactic(auto)]

mod amounts;
mod explanation;
mod meant;
mod reason;
mod refused;
mod sentence;
mod shown;
mod why;

pub use explanation::explain;
pub use reason::Reason;
pub use refused::{Told, reason_of};
pub use shown::{Words, write_out};
