//! Marks of the page frames that were used. Any number of threads set and clear them at once, without
//! a lock. (Kernel: the accessed bits of page table entries, which the processor sets and
//! `ptep_test_and_clear_young` clears.)
//!
//! Frame f has bit `f % 64` of word `f / 64`. A user of a frame sets its mark. A search for frames
//! that are not in use harvests the marks, 64 frames at a time. Each `set` and each `harvest` is one
//! step on one word, so no mark between them is lost, and none is harvested twice. No call waits, and
//! only `Marks::open` allocates memory.
#![tactic(auto)]

pub use log::{Found, Harvest, Log, Setting};
pub use marks::Marks;
pub use seat::Seat;
pub use words::Words;

mod log;
mod marks;
mod seat;
mod words;
