//! Page frames: the machine's memory, in frames of 4,096 bytes, and the pool of the free frames.
//!
//! A frame is a value that must be spent. Code that takes one must give it back to the pool, and the
//! pool is closed with all of its frames.
#![tactic(auto)]

pub use frame::{FRAME_BYTES, Frame};
pub use pool::Pool;
pub use spare::Spare;

mod frame;
mod pool;
mod spare;
