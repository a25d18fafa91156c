//! The steps of the walk: how the machine is set up, each event, and what is asked at the end. The commands that may
//! need memory are asked in a state in which they do.

use crate::step::{
    Command, Step, asks, fork, merge, mkdir, reach, reclaim, set_max, show, spawn, touch,
};
use machine::amount::Amount;
use machine::event::{Op, Query};
use machine::id::{GroupId, TaskId};
use machine::record::{Guard, OomGroup};
use std::alloc::{AllocError, Global};

/// A machine, and what it is asked.
#[derive(Clone, Copy, PartialEq, Eq)]
pub enum Plan {
    /// Four groups with the root, so that what is kept by group is just full. Each event is asked.
    Few,
    /// Nine groups, so that the table of their paths is just full too.
    Many,
}

impl Plan {
    /// How the machine is set up.
    pub fn start(self, alloc: Global) -> Result<Vec<Step>, AllocError> {
        match self {
            Plan::Few => Ok(Vec::from_array(alloc, few())?),
            Plan::Many => Ok(Vec::from_array(alloc, many())?),
        }
    }

    /// What it is asked after that.
    pub fn steps(self, alloc: Global) -> Result<Vec<Step>, AllocError> {
        match self {
            Plan::Few => {
                let mut steps = Vec::from_array(alloc, wanting())?;
                steps.extend_from_slice(&touching())?;
                steps.extend_from_slice(&grouped())?;
                steps.extend_from_slice(&leaving())?;
                Ok(steps)
            }
            Plan::Many => Ok(Vec::from_array(alloc, [mkdir("mkdir among nine", "/d")])?),
        }
    }
}

/// Three tasks; two pages of task 1 are on swap.
fn few() -> [Step; 13] {
    [
        mkdir("mkdir", "/a"),
        mkdir("mkdir", "/b"),
        mkdir("mkdir", "/c"),
        spawn("spawn", 1, 1),
        spawn("spawn", 2, 2),
        spawn("spawn", 3, 3),
        touch("write", 1, 0, Op::Write(10)),
        touch("write", 1, 1, Op::Write(11)),
        touch("write", 1, 2, Op::Write(12)),
        touch("write", 2, 0, Op::Write(20)),
        touch("write", 3, 0, Op::Write(30)),
        reclaim(1),
        reclaim(1),
    ]
}

/// A task in one of the groups.
fn many() -> [Step; 9] {
    [
        mkdir("mkdir", "/a"),
        mkdir("mkdir", "/b"),
        mkdir("mkdir", "/c"),
        mkdir("mkdir", "/a/a"),
        mkdir("mkdir", "/a/b"),
        mkdir("mkdir", "/a/c"),
        mkdir("mkdir", "/a/d"),
        mkdir("mkdir", "/a/e"),
        spawn("spawn", 2, 2),
    ]
}

/// Commands that may need memory. The numbers of the tasks are beyond all tables. The device cannot read the page that
/// is to be written.
fn wanting() -> [Step; 6] {
    [
        mkdir("mkdir", "/d"),
        spawn("spawn", 9, 4),
        fork("fork", 1, 40),
        touch("read from swap", 1, 0, Op::Read),
        reach("read a file", 0, Op::Read),
        reach("write a file", 1, Op::Write(70)),
    ]
}

/// Accesses that find or make a page without a read of the device, and marks of pages that were used.
fn touching() -> [Step; 11] {
    [
        touch("read what came from swap", 1, 0, Op::Read),
        reach("read what came of the file", 0, Op::Read),
        touch("make a page", 9, 0, Op::Write(90)),
        touch("copy a page", 40, 2, Op::Write(42)),
        touch("read the copy", 40, 2, Op::Read),
        touch("read what was copied", 1, 2, Op::Read),
        touch("write to a page", 3, 0, Op::Write(31)),
        touch("read it", 3, 0, Op::Read),
        touch("read nothing", 3, 7, Op::Read),
        reach("write to a file", 0, Op::Write(71)),
        merge("merge marks", 0, 255),
    ]
}

/// Changes of groups, and what is shown of them.
fn grouped() -> [Step; 10] {
    let min = Command::SetGuard(GroupId(2), Guard::Min, Amount::Pages(1));
    let low = Command::SetGuard(GroupId(2), Guard::Low, Amount::Pages(2));
    let flag = Command::SetOomGroup(GroupId(3), OomGroup::Whole);
    [
        asks("attach", Command::Attach(TaskId(9), GroupId(3))),
        asks("rmdir", Command::Rmdir(GroupId(4))),
        set_max("set max", 3, 5),
        asks("set min", min),
        asks("set low", low),
        asks("set the flag", flag),
        show("show current", Query::Current(GroupId(1))),
        show("show max", Query::Max(GroupId(3))),
        show("show the flag", Query::OomGroup(GroupId(3))),
        show("show stat", Query::Stat(GroupId(1))),
    ]
}

/// Pages are evicted, a task is killed, another ends. The device cannot write the first page that is to be evicted.
fn leaving() -> [Step; 12] {
    [
        reclaim(0),
        reclaim(0),
        set_max("set max to its pages", 1, 2),
        touch("write over the limit", 40, 5, Op::Write(45)),
        touch("fill the frames", 2, 1, Op::Write(21)),
        touch("fill the frames", 2, 2, Op::Write(22)),
        touch("write without a frame", 2, 3, Op::Write(23)),
        set_max("set max to nothing", 1, 0),
        touch("read when killed", 40, 2, Op::Read),
        set_max("set max to more", 1, 8),
        asks("free", Command::Free(TaskId(2), 0)),
        asks("exit", Command::Exit(TaskId(3))),
    ]
}

/// What every machine is asked at the end: another group, another task, a byte of each page, and evictions of
/// pages.
pub fn end(alloc: Global) -> Result<Vec<Step>, AllocError> {
    let mut steps = Vec::from_array(
        alloc,
        [
            mkdir("mkdir", "/e"),
            spawn("spawn", 50, 2),
            touch("write", 50, 0, Op::Write(50)),
        ],
    )?;
    read_all(&mut steps)?;
    read_all(&mut steps)?;
    for _turn in 0..6 {
        steps.push(reclaim(0))?;
    }
    read_all(&mut steps)?;
    Ok(steps)
}

fn read_all(steps: &mut Vec<Step>) -> Result<(), AllocError> {
    for task in [1, 2, 9, 40, 50] {
        for page in 0..3 {
            steps.push(touch("read", task, page, Op::Read))?;
        }
    }
    for page in 0..2 {
        steps.push(reach("read a file", page, Op::Read))?;
    }
    Ok(())
}
