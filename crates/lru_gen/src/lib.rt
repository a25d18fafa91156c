//! The generation lists of all groups (mm/vmscan.c, mm/multigen_lru: "Generations").
//!
//! Each type of each group has four lists of the crate `rings`. Its two to four generations use them in turn: a
//! sequence number's list is the remainder after division by 4. A group takes 90 bytes, and up to twice that while
//! vectors keep spare room. A page number takes 12.
#![tactic(auto)]

pub use gens::Gens;
pub use numbers::list_of;
pub use rings::{Link, ListId, RingNode};

mod filled;
mod gens;
mod moving;
mod numbers;
mod search;
