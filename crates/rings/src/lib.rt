//! Lists of pages, any number of them over one table of links. A page's link has its neighbours'
//! numbers, so a page leaves the middle of a list without a walk (kernel: `struct list_head`,
//! `include/linux/list.h`).
//!
//! Each list is a ring: it leads from its head through its pages back to the head. A page is in at
//! most one list. From the opening on, the links take 12 bytes for each page number and 8 bytes for
//! each list. There are fewer than 2^31 page numbers, and fewer than 2^31 lists.
#![tactic(auto)]

pub use ring_node::{Link, ListId, RingNode};
pub use table::Rings;

mod end;
mod links;
mod ring_node;
mod table;
