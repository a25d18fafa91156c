//! Runs workers on threads: tasks, a shell and the daemon work at the same time. They share one book under one
//! lock, and a device that is called outside the lock.
//!
//! Each worker has a [`Pass`], which keeps what the worker asked and what the book answered. The table of turns,
//! the same as in a schedule, ties what the worker answers to what its pass keeps. At the end, [`Live::finish`]
//! returns the trace of all that the workers did, with its audit.
//!
//! One run of the machine led to this trace. Each pass keeps what that run gave its worker, in order, including
//! refusals and paths. A history over all passes says so, and exists only in the proofs.
//!
//! Nothing is promised about waiting: a contract of a call that waits holds if the call returns.
#![tactic(auto)]

mod crew;
mod hand;
mod history;
mod live;
mod looks;
mod opened;
mod pass;
mod report;
mod roll;
mod shared_book;
mod shares;
mod worker;

pub use crew::{Worker, work_together};
pub use history::Unnamed;
pub use live::Live;
pub use looks::EndLook;
pub use opened::Opened;
pub use pass::Pass;
pub use report::{EndedPass, Report, Unfinished};
pub use roll::Roll;
