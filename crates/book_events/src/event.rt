//! The events and replies of a book, with the tickets of transfers by value.

use machine::event::{Cause, Op, Place, Query, Setting};
use machine::id::{FrameId, GroupId, TaskId};
use machine::refusal::Refusal;
use machine::reply::Shown;
use machine::text::Text;
use pages::{InTicket, OutTicket};

/// One event. It is a [`machine::event::Event`], with the ticket itself in place of the ticket's
/// number.
#[must_use]
pub enum Event {
    /// A task reads or writes a byte.
    Access { task: TaskId, place: Place, op: Op },
    /// The ticket's block was read into it.
    Arrived(InTicket),
    /// The ticket's block could not be read.
    FetchFailed(InTicket),
    /// The ticket's block was written.
    Left(OutTicket),
    /// The ticket's block could not be written.
    LeaveFailed(OutTicket),
    /// Room is needed.
    Relieve(Cause),
    /// Reclaims a page of the group or of a group below it, on request.
    ReclaimOne(GroupId),
    /// A new task of a group.
    Spawn { task: TaskId, group: GroupId },
    /// A new task in the group of another, which maps what the other maps.
    Fork { task: TaskId, child: TaskId },
    /// A task ends by itself.
    Exit(TaskId),
    /// A virtual page of a task maps nothing from then on.
    Free { task: TaskId, page: u32 },
    /// A task moves to another group.
    Attach { task: TaskId, group: GroupId },
    /// A new group, by its path.
    Mkdir(Text),
    /// A group is removed, and its pages become its parent's.
    Rmdir(GroupId),
    /// A control file is written.
    Set { group: GroupId, setting: Setting },
    /// The numbers of a control file are requested.
    Show(Query),
    /// The pages that are held in the frames of these bits were used.
    MergeMarks { word: u32, bits: u64 },
}

/// The answer to one event. It is a [`machine::reply::Reply`], with the ticket itself in place of the
/// ticket's number. A ticket that is not one of the caller's is handed back.
#[must_use]
pub enum Reply {
    /// The byte read or written, and the frame that was hit.
    Done {
        byte: u8,
        hit: Option<FrameId>,
    },
    /// The page is now being read in: the caller reads the ticket's block, and ends the transfer.
    Fetch(InTicket),
    /// No charge: this is the lowest group without room.
    Over(GroupId),
    /// No charge: no frame is free.
    NoFrame,
    /// The page is in transfer.
    Busy,
    /// The task itself was killed before.
    Killed,
    Ok,
    /// There is room.
    Room,
    /// A clean page of a file was dropped.
    Dropped,
    /// A page is now being written out: the caller writes the ticket's block, and ends the transfer.
    Out(OutTicket),
    /// A page is in transfer, and may become free.
    Wait,
    /// No page can be reclaimed, and none is in transfer.
    Nothing,
    /// Relief killed only this task.
    KilledTask(TaskId),
    /// Relief chose this victim, and killed all tasks in and below this group. The number includes the
    /// victim.
    KilledAll {
        victim: TaskId,
        group: GroupId,
        tasks: u32,
    },
    /// Relief found no task to kill.
    NoVictim,
    Shown(Shown),
    /// Nothing changed, for this reason.
    Refused(Refusal),
    /// `Stranger`: the ticket does not belong to any of the caller's transfers in flight.
    StrangeIn(InTicket),
    /// `Stranger`, as above.
    StrangeOut(OutTicket),
}
