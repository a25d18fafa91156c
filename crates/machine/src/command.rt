//! The commands of an actor, and their answers.

ghost use Rattle.std.specs.Prelude.{◌≡◌, IfOk};

use crate::event::{Op, Place};
use crate::id::TaskId;
use crate::record::Guard;
use crate::refusal::Refusal;
use crate::text::Text;
use std::alloc::{AllocError, Global};

/// The source of a command.
#[derive(Clone, Copy, Debug)]
pub enum Actor {
    /// The task of this number, whether it exists or not.
    Task(u32),
    /// Makes groups and tasks, and reads and writes control files.
    Shell,
    /// Does what the shell does, as an actor of its own.
    Control,
    /// Evicts pages of all groups when few frames are free (kernel: kswapd).
    Daemon,
}

/// A command of an actor: `Access`, `Fork`, `Free` and `Exit` are for a task, `Daemon` for the daemon, all
/// others for the shell and for control.
#[derive(Drop)]
pub enum Command {
    Access {
        place: Place,
        op: Op,
    },
    /// The task forks a child of this number.
    Fork {
        child: u32,
    },
    /// The task frees a virtual page.
    Free {
        page: u32,
    },
    /// The task ends.
    Exit,
    /// Makes the group with this path.
    Group(Text),
    /// Removes the group with this path.
    Rmdir(Text),
    /// Starts a task in the group with this path.
    Task {
        task: u32,
        path: Text,
    },
    /// Moves a task to the group with this path.
    Attach {
        task: u32,
        path: Text,
    },
    /// Writes a text to a control file of the group with this path.
    Set {
        path: Text,
        file: Text,
        text: Text,
    },
    /// Prints a control file of the group with this path.
    Cat {
        path: Text,
        file: Text,
    },
    /// Prints the effective `memory.min`, or `memory.low`, of the group with this path, for a reclaim of
    /// the target.
    Protection {
        guard: Guard,
        target: Text,
        path: Text,
    },
    /// Runs the daemon once.
    Daemon,
}

impl Command {
    /// A copy. It fails only if memory runs out.
    pub fn copy(&self, alloc: Global) -> Result<Command, AllocError>
        ensures { IfOk result (λ c. c ≡ self.now) }
    {
        match self {
            Command::Access { place, op } => Ok(Command::Access {
                place: *place,
                op: *op,
            }),
            Command::Fork { child } => Ok(Command::Fork { child: *child }),
            Command::Free { page } => Ok(Command::Free { page: *page }),
            Command::Exit => Ok(Command::Exit),
            Command::Group(path) => Ok(Command::Group(path.copy(alloc)?)),
            Command::Rmdir(path) => Ok(Command::Rmdir(path.copy(alloc)?)),
            Command::Task { task, path } => Ok(Command::Task {
                task: *task,
                path: path.copy(alloc)?,
            }),
            Command::Attach { task, path } => Ok(Command::Attach {
                task: *task,
                path: path.copy(alloc)?,
            }),
            Command::Set { path, file, text } => Ok(Command::Set {
                path: path.copy(alloc)?,
                file: file.copy(alloc)?,
                text: text.copy(alloc)?,
            }),
            Command::Cat { path, file } => Ok(Command::Cat {
                path: path.copy(alloc)?,
                file: file.copy(alloc)?,
            }),
            Command::Protection {
                guard,
                target,
                path,
            } => Ok(Command::Protection {
                guard: *guard,
                target: target.copy(alloc)?,
                path: path.copy(alloc)?,
            }),
            Command::Daemon => Ok(Command::Daemon),
        }
    }
}

/// A line of a schedule.
#[derive(Drop)]
pub enum Step {
    /// The actor starts this command, unless its last one is not answered yet.
    Begin(Actor, Command),
    /// Runs one turn of the actor's command.
    Advance(Actor),
    /// Runs turns of the actor's command until it is answered, at most 1,000.
    Finish(Actor),
}

/// The answers that are single words.
#[derive(Clone, Copy, Debug, PartialEq, Eq)]
pub enum Word {
    /// The task was killed before.
    Killed,
    /// The actor has no command.
    Idle,
    /// `busy`: the page is in transfer; or a page of the group, or of one below it, is in transfer and may
    /// become free.
    Busy,
    /// `EIO`: a call of the device failed.
    Io,
    /// `ENOMEM`: nothing can be reclaimed and there is no task to kill.
    OutOfMemory,
    /// `EAGAIN`: fewer pages were reclaimed than the command requested.
    Again,
    /// The command got no answer in 1,000 turns. It stays in progress.
    TurnLimit,
    /// The actor's command is not answered yet.
    Underway,
    Refused(Refusal),
}

/// One answer: what a turn shows, or why a step of the schedule showed nothing.
#[derive(Debug, Drop)]
pub enum Answer {
    /// The byte that was read.
    Byte(u8),
    /// The contents of a control file.
    Text(Text),
    /// The command is done, and prints nothing.
    Done,
    /// A kill of one task, at the moment of the kill. The command continues.
    Kill(TaskId),
    /// A kill of all tasks in and below a group, at the moment of the kill. The number of tasks includes
    /// the victim. The command continues.
    KillAll { victim: TaskId, tasks: u32 },
    Word(Word),
}

/// An answer, and the actor whose command it answers.
#[derive(Debug, Drop)]
pub struct Reply {
    pub actor: Actor,
    pub answer: Answer,
}
