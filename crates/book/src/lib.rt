//! The book: one event in each call, each a proved step of the plain machine, and the history of
//! events and replies.
//!
//! [`Book::call`] is the only place where a machine changes. What an event will do is decided once,
//! before anything changes, and then applied to the joined parts.
#![tactic(auto)]

pub use book::Book;
pub use book_events::{Event, InTicket, OutTicket, Reply};
pub use kept::{Asked, Kept};
pub use looks::{GroupLook, Mapping, PageLook, Tally, Victim};
pub use pass::Pass;

mod apply;
mod book;
mod decide;
mod decision;
mod kept;
mod looks;
mod pass;
