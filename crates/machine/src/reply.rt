//! The machine's replies, as a history contains them.

use crate::amount::Amount;
use crate::id::{FrameId, GroupId, TaskId, TicketId};
use crate::record::{EventCounts, MemoryStat, OomGroup};
use crate::refusal::Refusal;

/// What a control file shows: pages, an amount, a flag, how often each key was counted, or pages by
/// type.
#[derive(Clone, Copy, Debug, PartialEq, Eq)]
pub enum Shown {
    Pages(u64),
    Amount(Amount),
    Flag(OomGroup),
    Events(EventCounts),
    Stat(MemoryStat),
}

/// The answer to one event.
#[derive(Clone, Copy, Debug, PartialEq, Eq)]
pub enum Reply {
    /// The byte read or written, and the frame that was hit.
    Done {
        byte: u8,
        hit: Option<FrameId>,
    },
    /// The page is now being read in, under this ticket.
    Fetch(TicketId),
    /// No charge: this is the lowest group without room.
    Over(GroupId),
    /// No charge: no frame is free.
    NoFrame,
    /// The page is in transfer.
    Busy,
    /// The task itself was killed before.
    Killed,
    Ok,
    /// There is room.
    Room,
    /// A clean file page was dropped.
    Dropped,
    /// A page is now being written out, under this ticket.
    Out(TicketId),
    /// A page is in transfer, and may become free.
    Wait,
    /// No page can be reclaimed, and none is in transfer.
    Nothing,
    /// Relief killed this task alone.
    KilledTask(TaskId),
    /// Relief chose this victim, and killed all tasks in and below this group. The number includes the
    /// victim.
    KilledAll {
        victim: TaskId,
        group: GroupId,
        tasks: u32,
    },
    /// Relief found no task to kill.
    NoVictim,
    Shown(Shown),
    /// Nothing changed, for this reason.
    Refused(Refusal),
}
