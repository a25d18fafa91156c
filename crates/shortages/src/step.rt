//! What a machine is asked, step by step, as plain data: so it can be asked again.

use machine::amount::Amount;
use machine::event::{Op, Place, Query};
use machine::id::{GroupId, TaskId};
use machine::record::{Guard, OomGroup};

/// A command, in the state in which its turns begin: its group is found, and its texts are read.
#[derive(Clone, Copy)]
pub enum Command {
    /// An access of a task to the first byte of a page.
    Access(TaskId, Place, Op),
    Mkdir(&'static str),
    Rmdir(GroupId),
    SetMax(GroupId, Amount),
    SetGuard(GroupId, Guard, Amount),
    SetOomGroup(GroupId, OomGroup),
    /// Reclaims one page of the group or below it.
    Reclaim(GroupId),
    Spawn(TaskId, GroupId),
    Fork(TaskId, TaskId),
    Exit(TaskId),
    Free(TaskId, u32),
    Attach(TaskId, GroupId),
}

/// What one step asks.
#[derive(Clone, Copy)]
pub enum Ask {
    /// A command, from its first turn to its last.
    Command(Command),
    /// The numbers of a control file. A command would also make their text, which needs memory.
    Show(Query),
    /// Pages in these frames of a word were used. No command asks this.
    MergeMarks { word: u32, bits: u64 },
}

/// What is asked, with the name that reports give it.
#[derive(Clone, Copy)]
pub struct Step {
    pub name: &'static str,
    pub ask: Ask,
}

pub fn asks(name: &'static str, command: Command) -> Step {
    Step {
        name,
        ask: Ask::Command(command),
    }
}

/// An access to the first byte of a task's virtual page.
pub fn touch(name: &'static str, task: u32, page: u32, op: Op) -> Step {
    let place = Place::Virtual { page, offset: 0 };
    asks(name, Command::Access(TaskId(task), place, op))
}

/// An access of task 2 to the first byte of a page of the file.
pub fn reach(name: &'static str, page: u32, op: Op) -> Step {
    let place = Place::File {
        file: 0,
        page,
        offset: 0,
    };
    asks(name, Command::Access(TaskId(2), place, op))
}

/// Reclaims a page of the group or below it.
pub fn reclaim(group: u32) -> Step {
    asks("reclaim one", Command::Reclaim(GroupId(group)))
}

pub fn mkdir(name: &'static str, path: &'static str) -> Step {
    asks(name, Command::Mkdir(path))
}

pub fn set_max(name: &'static str, group: u32, max: u64) -> Step {
    asks(name, Command::SetMax(GroupId(group), Amount::Pages(max)))
}

pub fn spawn(name: &'static str, task: u32, group: u32) -> Step {
    asks(name, Command::Spawn(TaskId(task), GroupId(group)))
}

pub fn fork(name: &'static str, task: u32, child: u32) -> Step {
    asks(name, Command::Fork(TaskId(task), TaskId(child)))
}

/// Shows a control file.
pub fn show(name: &'static str, query: Query) -> Step {
    Step {
        name,
        ask: Ask::Show(query),
    }
}

/// Pages in these frames of a word were used.
pub fn merge(name: &'static str, word: u32, bits: u64) -> Step {
    Step {
        name,
        ask: Ask::MergeMarks { word, bits },
    }
}
