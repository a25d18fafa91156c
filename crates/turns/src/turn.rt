//! A command under way, row by row of the table of turns.

ghost use Rattle.std.specs.Prelude.{◌≡◌};
ghost use Rattle.turns.specs.Turns.{is_of_file, kill_answer, marks_by, marks_hit};

use book_events::{Event, InTicket, OutTicket};
use machine::amount::Amount;
use machine::command::Answer;
use machine::config::Placement;
use machine::event::{Cause, Op, Place, Query};
use machine::id::{GroupId, TaskId};
use machine::record::{Guard, OomGroup};
use machine::text::Text;

/// A task's access to a byte.
#[derive(Clone, Copy)]
pub struct Access {
    pub task: TaskId,
    pub place: Place,
    pub op: Op,
    /// Its page was read in for it.
    pub fetched: bool,
}

impl Access {
    /// Whether the page that it hits is marked. (Kernel: the accessed bit of a page table. A page of a file that is
    /// read in for a `read` or a `write` has none.)
    pub fn marks(self, placement: Placement) -> bool
        ensures { result ≡ marks_by placement self }
    {
        match placement {
            Placement::Own => true,
            Placement::Linux => !(self.fetched && self.is_of_file()),
        }
    }

    fn is_of_file(self) -> bool
        ensures { result ≡ is_of_file self.place }
    {
        match self.place {
            Place::Virtual { page: _, offset: _ } => false,
            Place::File { .. } => true,
        }
    }
}

/// A state that holds no ticket. A command continues in it after a transfer has ended: its own or another command's.
#[derive(Clone, Copy)]
pub enum Resume {
    /// The access is tried again.
    Try(Access),
    /// Room is made for the access.
    MakeRoom(Access, Cause),
    /// Room is made under the max that was set for the group.
    Lower(GroupId),
    /// `left` more pages are evicted from the group or from below it.
    Reclaim { group: GroupId, left: u64 },
    /// The daemon evicts pages.
    Balance,
}

/// The state of a command after its paths are found and its texts read: what it asks of the book or of the device next.
/// A ticket in it has to be spent.
#[must_use]
pub enum Stage {
    /// The access is tried.
    Try(Access),
    /// Room is made for the access.
    MakeRoom(Access, Cause),
    /// The group's max is set.
    SetMax {
        group: GroupId,
        max: Amount,
    },
    /// Room is made under the max that was set for the group.
    Lower(GroupId),
    /// The group's min, or low, is set.
    SetGuard {
        group: GroupId,
        guard: Guard,
        amount: Amount,
    },
    /// The group's flag is set: whether an OOM kill kills all its tasks.
    SetOomGroup {
        group: GroupId,
        flag: OomGroup,
    },
    /// This number of further pages is evicted from the group or from below it.
    Reclaim {
        group: GroupId,
        left: u64,
    },
    /// The daemon checks whether it has to run (kernel: a kswapd that sleeps).
    Watch,
    /// The daemon evicts pages (kernel: balance_pgdat).
    Balance,
    Spawn {
        task: TaskId,
        group: GroupId,
    },
    Fork {
        task: TaskId,
        child: TaskId,
    },
    Exit(TaskId),
    Free {
        task: TaskId,
        page: u32,
    },
    Attach {
        task: TaskId,
        group: GroupId,
    },
    Mkdir(Text),
    Rmdir(GroupId),
    Show(Query),
    /// The ticket's block is read, for the access.
    Read(Access, InTicket),
    /// It was read, and the next event reports this to the book.
    Arrive(Access, InTicket),
    /// It could not be read, and the next event reports this to the book.
    FetchFail(InTicket),
    /// The ticket's block is written.
    Write(Resume, OutTicket),
    /// It was written, and the next event reports this to the book.
    Leave(Resume, OutTicket),
    /// It could not be written, and the next event reports this to the book.
    LeaveFail(OutTicket),
}

/// What a command remembers while its event is with the book.
#[derive(Clone, Copy)]
pub enum Pending {
    Try(Access),
    MakeRoom(Access, Cause),
    SetMax(GroupId),
    Lower(GroupId),
    /// `left` pages are to be evicted, including the one that was asked for.
    Reclaim { group: GroupId, left: u64 },
    /// A page is evicted for the daemon.
    Balance,
    /// A task or a group is made, a task is moved, a group is removed, or a min is set.
    Make,
    /// A task forks, frees a page or ends by itself.
    OfTask,
    /// A control file is shown.
    Show,
    Arrive(Access),
    FetchFail,
    Leave(Resume),
    LeaveFail,
}

impl Pending {
    /// Whether the page that the event hits is marked.
    pub fn marks_hit(self, placement: Placement) -> bool
        ensures { result ≡ marks_hit placement self }
    {
        match self {
            Pending::Try(access) => access.marks(placement),
            Pending::MakeRoom(_, _) | Pending::SetMax(_) | Pending::Lower(_) => true,
            Pending::Reclaim { group: _, left: _ } | Pending::Balance => true,
            Pending::Make | Pending::OfTask | Pending::Show => true,
            Pending::Arrive(_) | Pending::FetchFail => true,
            Pending::Leave(_) | Pending::LeaveFail => true,
        }
    }
}

/// What an actor asks for in one turn.
#[must_use]
pub enum Want {
    /// This event of the book, and what the command remembers of it.
    Call(Pending, Event),
    /// The ticket's block, read from the device.
    Read(Access, InTicket),
    /// The ticket's block, written to the device.
    Write(Resume, OutTicket),
    /// Nothing more: the command ends with this answer.
    End(Answer),
}

/// The tasks that were killed.
#[derive(Clone, Copy)]
pub enum Kill {
    /// A task, alone.
    One(TaskId),
    /// A victim, with all tasks of a group and of those below it. `tasks` is their number, with the victim.
    Group { victim: TaskId, tasks: u32 },
}

impl Kill {
    /// The answer that reports it.
    pub fn answer(self) -> Answer
        ensures { result ≡ kill_answer self }
    {
        match self {
            Kill::One(task) => Answer::Kill(task),
            Kill::Group { victim, tasks } => Answer::KillAll { victim, tasks },
        }
    }
}

/// The result of a turn for a command.
#[must_use]
pub enum Transition {
    Goes(Stage),
    /// One task was killed, or all tasks of a group were. The command continues.
    Kills(Kill, Resume),
    /// A page in transfer is in the way. A schedule answers `busy`. A worker waits until a transfer has ended, and
    /// continues here.
    Waits(Resume),
    Ends(Answer),
}
