//! All that can happen: every outcome of some commands at once, over every order of their turns.
//!
//! A script has three parts. The lines before its first `go` are the setup. Those after it are the work: each actor has
//! its lines, in their order, and the turns of the actors can come in any order. Those after a second `go` are the looks,
//! which are carried out when the work is over. [`explore_script`] runs the machine once for each order, or for each order of a
//! sample, and counts the outcomes.
#![tactic(auto)]

mod asked;
mod listing;
mod report;
mod shown;

pub use asked::{Asked, Sample};
pub use division::{Fault, MOST_ACTORS};
pub use explorer::Choice;
pub use report::{Verdict, explore_script};
