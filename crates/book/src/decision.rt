//! What an event without a ticket will do, decided before anything changes.

ghost use Rattle.std.specs.Prelude.{◌≡◌};
ghost use Rattle.book.specs.Decisions.{offset_at, entries_for};

use machine::event::{Goal, Op, Place, Query, Setting};
use machine::id::{FrameId, GroupId, PageId, TaskId};
use page_state::NoRoom;
use pages::Source;
use reclaim::Served;

/// A live task's access to a byte (kernel: `struct vm_fault`).
#[derive(Clone, Copy)]
pub struct PageFault {
    pub task: TaskId,
    /// The task's group.
    pub group: GroupId,
    pub place: Place,
    pub op: Op,
}

impl PageFault {
    /// The offset of the byte in its page.
    pub fn offset(self) -> u32
        ensures { result ≡ offset_at self }
    {
        match self.place {
            Place::Virtual { page: _, offset } => offset,
            Place::File {
                file: _,
                page: _,
                offset,
            } => offset,
        }
    }
}

/// What an access meets. A page that it needs must be charged first.
#[derive(Clone, Copy)]
pub enum Meeting {
    /// A read of a virtual page that maps nothing.
    Unmapped,
    /// A page in this frame, which the access may use as it is.
    Hits(PageId, FrameId),
    /// A page in transfer.
    Transferring,
    /// A write of this byte to a virtual page that maps nothing: a page is made for it.
    NeedsPage { at: u32, byte: u8 },
    /// A write of this byte to memory in a frame that other virtual pages map too: the virtual page gets a copy.
    NeedsCopy { at: u32, page: PageId, byte: u8 },
    /// A page is read in, and charged to this group. Memory on its block is charged to its own group, or by Linux's
    /// placement, if that is the root, to the task's. A page of a file that no page holds is charged to the task's group.
    NeedsFetch(Source, GroupId),
}

/// What an event will do.
#[derive(Clone, Copy)]
pub enum Decision<'e> {
    /// The task was killed before, and the reply says so.
    Killed,
    /// An access by a live task. If it needs a charge, there is room for it.
    Access(PageFault, Meeting),
    /// An access by a live task that needs a charge for which there is no room.
    Lacks(PageFault, NoRoom),
    /// Room is not needed any more.
    Room,
    /// A reclaim of the target evicts the next page of this group.
    Take {
        goal: Goal,
        target: GroupId,
        served: Served,
    },
    /// No page can be reclaimed, but one in transfer may become free.
    Wait,
    /// No page can be reclaimed, none is in transfer, and no task is killed for it.
    Nothing,
    /// No page can be reclaimed, none is in transfer, and only this task is killed.
    Kill {
        limit: GroupId,
        task: TaskId,
    },
    /// No page can be reclaimed, none is in transfer, and all tasks in and below this group are killed, since the
    /// victim is one of them.
    KillAll {
        limit: GroupId,
        victim: TaskId,
        group: GroupId,
    },
    /// No page can be reclaimed, none is in transfer, and there is no task to kill.
    NoVictim(GroupId),
    /// A task starts.
    Spawn {
        task: TaskId,
        group: GroupId,
    },
    /// A task starts that maps what this live one maps.
    Fork {
        task: TaskId,
        child: TaskId,
    },
    /// A virtual page of a live task is unmapped.
    Free {
        task: TaskId,
        at: u32,
    },
    /// A live task moves to another group.
    Attach {
        task: TaskId,
        group: GroupId,
    },
    /// A live task ends by itself.
    Exit(TaskId),
    /// A group is made below this one.
    Mkdir {
        parent: GroupId,
        path: &'e str,
    },
    /// A group is removed, and its pages become its parent's.
    Rmdir(GroupId),
    /// A setting of a group changes.
    Set {
        group: GroupId,
        setting: Setting,
    },
    /// Numbers are shown.
    Show(Query),
}

impl Decision<'_> {
    /// How many entries of the trace the decision needs. It needs two if a page is dropped, or if a transfer begins:
    /// one of them is for its end.
    pub fn entries(&self) -> usize
        ensures { result ≡ entries_for self.now }
    {
        match self {
            Decision::Access(_, Meeting::NeedsFetch(_, _)) => 2,
            Decision::Take {
                goal: _,
                target: _,
                served: _,
            } => 2,
            _ => 1,
        }
    }
}
