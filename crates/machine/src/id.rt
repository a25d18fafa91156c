//! The numbers that identify things.

/// A group. The number is its place in the order of making: the root is 0, and no number is used
/// again.
#[derive(Clone, Copy, Debug, Default, PartialEq, Eq)]
pub struct GroupId(pub u32);

impl GroupId {
    /// The group that is above all others.
    pub const ROOT: GroupId = GroupId(0);
}

/// A task. Existing tasks have numbers from 1 to 65,535, each used once.
#[derive(Clone, Copy, Debug, PartialEq, Eq)]
pub struct TaskId(pub u32);

/// A page. The opening determines how many numbers there are: at least the number of frames plus
/// swap blocks. A number is used again once its page is gone.
#[derive(Clone, Copy, Debug, PartialEq, Eq)]
pub struct PageId(pub u32);

/// A page frame: 4,096 bytes of memory (kernel: a page frame number).
#[derive(Clone, Copy, Debug, PartialEq, Eq)]
pub struct FrameId(pub u32);

/// A transfer in flight.
#[derive(Clone, Copy, Debug, PartialEq, Eq)]
pub struct TicketId(pub u32);

/// A worker. Its number comes from its pass.
#[derive(Clone, Copy, PartialEq, Eq)]
pub struct WorkerId(pub u32);
