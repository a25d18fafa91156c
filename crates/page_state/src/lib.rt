//! The joined parts of a machine. Each call makes one change of the machine's tables, in all parts at once, so
//! the parts agree between calls.
//!
//! Each part keeps one of the machine's tables. The tables are the groups with their limits, flags and counts,
//! the pages with their bytes, and the files. There are also the generation lists of the pages in frames, the
//! tasks with what they map, the free frames and swap slots, the transfers in flight, and how often events were
//! counted.
#![tactic(auto)]

pub use joined::State;
pub use room::NoRoom;

mod accesses;
mod endings;
mod groups;
mod joined;
mod kills;
mod lookup;
mod merging;
mod parts;
mod queue;
mod reclaims;
mod release;
mod removal;
mod room;
mod settle;
mod tasks;
mod unmap;
