//! The history of a seat.

use std::collections::LinkedList;

/// What a set found: the frame's mark just before it.
#[derive(Clone, Copy, PartialEq, Eq, Debug, Drop)]
pub enum Found {
    /// The frame was not marked. This set marked it.
    Clear,
    /// The frame was marked already.
    Marked,
}

/// One set, and what it found.
pub struct Setting {
    pub frame: u32,
    pub found: Found,
}

/// One harvest, and the marks that it cleared: bit b belongs to frame `64 * word + b`.
pub struct Harvest {
    pub word: u32,
    pub bits: u64,
}

/// All sets and all harvests with a seat, the oldest first, and the seat's parts. No value of this type
/// ever exists in a run: only contracts use it.
pub struct Log {
    pub parts: u64,
    pub sets: LinkedList<Setting>,
    pub harvests: LinkedList<Harvest>,
}
