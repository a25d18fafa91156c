//! Requests to the machine: the events that a history contains, and the merge of marks, which no history
//! contains.

use crate::amount::Amount;
use crate::bytes::PageBytes;
use crate::id::{GroupId, TaskId, TicketId};
use crate::record::{Guard, OomGroup};
use crate::text::Text;

/// The place that an access reads or writes.
#[derive(Clone, Copy, PartialEq, Eq)]
pub enum Place {
    /// A byte of a virtual page of the task.
    Virtual { page: u32, offset: u32 },
    /// A byte of a file, for any task. A file's number is its place in the opening's list (kernel:
    /// `filemap_read` and `generic_perform_write`).
    File { file: u32, page: u32, offset: u32 },
}

/// What an access does to its byte.
#[derive(Clone, Copy, PartialEq, Eq)]
pub enum Op {
    Read,
    Write(u8),
}

/// Why room is needed.
#[derive(Clone, Copy, Debug, PartialEq, Eq)]
pub enum Cause {
    /// The group had no room for a charge.
    Charge(GroupId),
    /// The group's max was set, and its count may be above it.
    Lower(GroupId),
    /// No frame was free.
    Frame,
}

/// How many pages a reclaim is asked for.
#[derive(Clone, Copy, Debug, PartialEq, Eq)]
pub enum Goal {
    /// One page: a charge found no room, or no frame was free.
    OnePage,
    /// An amount: a request, the daemon, or a lowered max.
    Amount,
}

/// A new value for a setting of a group.
#[derive(Clone, Copy, PartialEq, Eq)]
pub enum Setting {
    /// `memory.max`
    Max(Amount),
    /// `memory.min` or `memory.low`
    Guard(Guard, Amount),
    /// `memory.oom.group`
    OomGroup(OomGroup),
}

/// Which numbers are requested: a control file of a group, or a group's protection.
#[derive(Clone, Copy, PartialEq, Eq)]
pub enum Query {
    /// `memory.current`
    Current(GroupId),
    /// `memory.max`
    Max(GroupId),
    /// `memory.min` or `memory.low`
    Guard(Guard, GroupId),
    /// `memory.oom.group`
    OomGroup(GroupId),
    /// `memory.events`
    Events(GroupId),
    /// `memory.events.local`
    EventsLocal(GroupId),
    /// `memory.stat`
    Stat(GroupId),
    /// The effective `memory.min`, or `memory.low`, of a group below the target, for a reclaim of the
    /// target (kernel: `emin` and `elow` of a `struct page_counter`).
    Protection {
        guard: Guard,
        target: GroupId,
        group: GroupId,
    },
}

/// One event of the machine.
#[derive(Drop)]
pub enum Event {
    /// A task reads or writes a byte (kernel: `handle_mm_fault` and the access that is tried again).
    Access { task: TaskId, place: Place, op: Op },
    /// A page was read in, with these bytes (kernel: the end of `swap_readpage`).
    Arrived { ticket: TicketId, bytes: PageBytes },
    /// A page could not be read.
    FetchFailed(TicketId),
    /// A page was written out (kernel: `end_swap_bio_write`).
    Left(TicketId),
    /// A page could not be written.
    LeaveFailed(TicketId),
    /// Room is needed (kernel: a turn of `try_to_free_mem_cgroup_pages`, or `mem_cgroup_out_of_memory`).
    Relieve(Cause),
    /// Reclaims a page of the group or of a group below it, on request (kernel: memory_reclaim, and a turn
    /// of kswapd).
    ReclaimOne(GroupId),
    /// A new task of a group.
    Spawn { task: TaskId, group: GroupId },
    /// A new task in the group of another. Its virtual pages map the same pages (kernel: `copy_process`,
    /// `dup_mmap`).
    Fork { task: TaskId, child: TaskId },
    /// A task ends by itself (kernel: `do_exit`, `exit_mmap`).
    Exit(TaskId),
    /// A virtual page of a task maps nothing from then on (kernel: `madvise` with MADV_DONTNEED).
    Free { task: TaskId, page: u32 },
    /// A task moves to this group. Its earlier charges stay where they are (kernel: `cgroup_attach_task`).
    Attach { task: TaskId, group: GroupId },
    /// A new group, by its path.
    Mkdir(Text),
    /// A group is removed. Its pages become its parent's, which is charged for them from then on (kernel:
    /// `cgroup_rmdir`, `mem_cgroup_css_offline`).
    Rmdir(GroupId),
    /// A control file is written.
    Set { group: GroupId, setting: Setting },
    /// The numbers of a control file are requested.
    Show(Query),
    /// Marks pages as used: those that are held in the frames of this word whose bit is set. Bit
    /// `frame % 64` of word `frame / 64` belongs to the frame (kernel: a walk over the accessed bits,
    /// `walk_mm`). This is a hint and leaves no entry, so no history contains it.
    MergeMarks { word: u32, bits: u64 },
}
