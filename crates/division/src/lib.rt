//! How a script that is explored divides: the setup, the work of each actor, and the looks.
//!
//! The lines before its first `go` are the setup. Those after it are the work: each actor has its lines, in their order. Those
//! after a second `go` are the looks, which are carried out when the work is over.
#![tactic(auto)]

mod fault;
mod rows;
mod said;
mod script;
mod trial;

/// The most actors of a script that is explored.
pub const MOST_ACTORS: usize = 1000;

pub use fault::Fault;
pub use said::Said;
pub use script::{Goes, parts_of};
pub use trial::{carry_line, try_setup};
