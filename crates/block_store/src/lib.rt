//! Block devices, whose calls may fail, a device in memory, and the swap slots.
//!
//! A block has the 4,096 bytes of a page. [`BlockDevice`] describes the contents and the failures of
//! a device of any type. A swap slot is a value that must be spent. Code that takes one must give it
//! back, and the slots are closed with all of them.
#![tactic(auto)]

pub use device::{BLOCK_BYTES, BlockDevice, Fault};
pub use memory::MemDevice;
pub use shared::{Locked, SharedDevice};
pub use slots::{Slot, Slots};

mod blocks;
mod device;
mod memory;
mod shared;
mod slots;
