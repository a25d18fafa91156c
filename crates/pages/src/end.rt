//! How a transfer ends.

use block_store::Slot;
use frames::Frame;
use machine::id::GroupId;
use machine::record::Kind;
use page_counter::Charge;

/// Where a page is after its transfer. A read-in that succeeds and a write-out that fails end in its
/// frame, the other two on its block.
#[derive(Clone, Copy)]
pub enum End {
    /// In its frame.
    InFrame,
    /// Only on its block. A page of a file no longer exists then.
    OnBlock,
}

/// A transfer that has ended.
#[must_use]
pub struct Settled<B> {
    /// The page's group.
    pub group: GroupId,
    /// The type of the page.
    pub kind: Kind,
    /// What the page no longer owns.
    pub freed: Freed,
    /// What the ticket carried.
    pub carried: B,
}

/// What a page no longer owns after its transfer. Each part of it must be spent.
#[must_use]
pub enum Freed {
    /// The slot, if memory of tasks is in its frame.
    Slot(Slot),
    /// The frame and its charge, if the page is on its block.
    Room(Frame, Charge),
    /// Nothing, if a page of a file is in its frame: a home block has no owner.
    Nothing,
}
