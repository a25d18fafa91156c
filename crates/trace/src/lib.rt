//! The trace of a machine: its events and replies in entries, and the audit that finds the first wrong entry.
//!
//! For each read, and for each byte that arrived from the device, an audit checks what was last written there. A
//! search entry by entry would walk through the trace for each of them. Each access therefore has a link to the entry
//! that determines its page before it, and a walk visits only the writes to one page. A walk ends where an honest
//! arrival had all bytes of the page. A link is 8 bytes, and the place of an arrival 4. The memory for them is allocated
//! at the opening, as the entry's is.
#![tactic(auto)]

pub use auditing::{First, audit};
pub use entries::Trace;

mod arrival;
mod auditing;
mod effect;
mod entries;
mod fetch;
mod first_arrivals;
mod found;
mod heads;
mod last_written;
mod link;
mod page;
mod row;
mod step;
