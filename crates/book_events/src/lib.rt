//! What a book is asked and what it answers: the events and replies of its calls, with the tickets of transfers by value.
//!
//! The crate has no code. It is apart from `book`, so that a crate that only asks and is answered needs no book.
#![tactic(auto)]

pub use event::{Event, Reply};
pub use pages::{InTicket, OutTicket};

mod event;
