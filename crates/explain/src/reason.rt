//! The texts that say why a command ended with a word.

use crate::amounts::tip_for;
use crate::sentence::{Sentence, fixed, with_one, with_two};
use machine::command::Actor;
use machine::limit::{LAST_TASK, MOST_TASKS, TASK_PAGES};
use std::fmt;
use std::fmt::{Formatter, Write};

/// The most groups at one time, with the root.
const MOST_GROUPS: u32 = 256;

/// The most levels below the root.
const MOST_LEVELS: usize = 16;

/// The last offset of a page.
const LAST_OFFSET: usize = machine::bytes::PAGE_BYTES - 1;

/// An actor, in words.
#[derive(Clone, Copy)]
struct Named(Actor);

impl fmt::Display for Named {
    fn fmt<W: Write>(&self, f: &mut Formatter<W>) -> fmt::Result {
        match self.0 {
            Actor::Task(task) => write!(f, "task {task}"),
            Actor::Shell => f.write_str("the shell"),
            Actor::Control => f.write_str("control"),
            Actor::Daemon => f.write_str("the daemon"),
        }
    }
}

/// Why a command ended with a word that says that it did not do what it was asked for, or why it did not begin. Each
/// reason is known from the command and the word, or says what it can be.
#[derive(Clone, Copy)]
pub enum Reason<'a> {
    /// The actor has no command under way.
    Idle(Actor),
    /// The actor's command of this line is not answered yet.
    Underway { actor: Actor, line: usize },
    /// This number of turns brought no answer, and a line takes no more.
    TurnLimit(u32),
    /// The page that an access needs is in transfer, or a page that might be evicted for it is.
    PageOnItsWay,
    /// No page under the group can be reclaimed, and one is in transfer.
    RoomOnItsWay(&'a str),
    /// A page could not be read in, or none could be written out for it.
    AccessFailed,
    /// A page could not be written out.
    WriteFailed,
    /// There is no room, and no task that could be killed for it.
    NobodyLeft,
    /// No page under the group can be reclaimed any more, and none is in transfer.
    NothingLeft(&'a str),
    /// There is a group of this path.
    GroupThere(&'a str),
    /// No group has this path.
    NoGroup(&'a str),
    /// The same, or it was removed while the command was under way.
    NoGroupNow(&'a str),
    /// No group has this path, which is the parent's.
    NoParent(&'a str),
    /// Linux has a control file of this name, which is not modelled.
    NotModelled(&'a str),
    /// No group has a control file of this name, on Linux neither.
    NoControlFile(&'a str),
    /// The same, and the second may be meant.
    NearFile(&'a str, &'static str),
    /// The root has no control file of this name, but other groups have.
    RootLacks(&'a str),
    /// By their paths, the second group could not be below the first.
    NotBelow { target: &'a str, path: &'a str },
    /// The group has live tasks, so it can have no children.
    HasTasks(&'a str),
    /// The group has children, so it can have no tasks.
    HasGroups(&'a str),
    /// The group has children or live tasks, so it can't be removed.
    InUse(&'a str),
    /// The root can't be removed.
    RootStays,
    /// The path has more levels than there can be.
    TooDeep(usize),
    /// The number of groups is the largest possible.
    GroupsFull,
    /// The number of live tasks is the largest possible.
    TasksFull,
    /// No task can have this number.
    NoTaskNumber(u32),
    /// A task had this number before.
    NumberUsed(u32),
    /// No task has this number, or it ended by itself.
    NoTask(u32),
    /// The same, or it was killed.
    NoLiveTask(u32),
    /// A task has no such virtual page.
    PagePast(u32),
    /// A page has no such offset.
    OffsetPast(u32),
    /// No file has this name.
    NoFile(&'a str),
    /// The file has no such page.
    FilePagePast { name: &'a str, page: u32 },
    /// The text is not an amount.
    NoAmount(&'a str),
    /// The text is more bytes than an amount can be.
    AmountTooLarge(&'a str),
    /// The text is not a flag.
    NoFlag(&'a str),
    /// `max` is written to `memory.reclaim`.
    MaxReclaimed,
    /// The control file of this name can only be read.
    NotWritten(&'a str),
    /// The control file of this name can only be written.
    NotRead(&'a str),
    /// The text is not a path of a group.
    NoPath(&'a str),
    /// The trace has no room for what the command does.
    TraceFull,
    /// The program itself got no memory.
    NoMemory,
}

/// What a sentence has besides its fixed words.
#[derive(Clone, Copy)]
enum Part<'a> {
    Text(&'a str),
    /// In quotes, with its control characters written out.
    Quoted(&'a str),
    /// The name of a control file.
    File(&'a str),
    Number(u64),
    Actor(Actor),
    /// What to write in place of this amount.
    Tip(&'a str),
}

impl fmt::Display for Part<'_> {
    fn fmt<W: Write>(&self, f: &mut Formatter<W>) -> fmt::Result {
        match self {
            Part::Text(text) => f.write_str(text),
            Part::Quoted(text) => write!(f, "{text:?}"),
            Part::File(name) => write_name(f, name),
            Part::Number(number) => write!(f, "{number}"),
            Part::Actor(actor) => write!(f, "{}", Named(*actor)),
            Part::Tip(text) => write!(f, "{}", tip_for(text)),
        }
    }
}

fn number<'a>(number: u32) -> Part<'a> {
    Part::Number(u64::from(number))
}

impl<'a> Reason<'a> {
    fn sentence(self) -> Sentence<Part<'a>> {
        match self {
            Reason::Idle(actor) => with_one("", Part::Actor(actor), " has no command in progress"),
            Reason::Underway { actor, line } => with_two(
                "",
                Part::Actor(actor),
                " is still busy with the command of line ",
                Part::Number(line as u64),
                "",
            ),
            Reason::TurnLimit(turns) => with_one(
                "no answer after ",
                number(turns),
                " turns; the command stays in progress, and the actor's next line continues it (--turns 0 sets no limit)",
            ),
            Reason::PageOnItsWay => fixed(
                "the page is in transfer, or room for it depends on a page in transfer",
            ),
            Reason::RoomOnItsWay(path) => with_one(
                "a page of ",
                Part::Text(path),
                " or below is in transfer, and no other page there can be reclaimed",
            ),
            Reason::AccessFailed => fixed(
                "the device failed: the page could not be read in, or no page could be written out to make room",
            ),
            Reason::WriteFailed => fixed("the device failed: a page could not be written out"),
            Reason::NobodyLeft => fixed(
                "there is no room, no page can be reclaimed, and no task is left to kill",
            ),
            Reason::NothingLeft(path) => with_one(
                "no page of ",
                Part::Text(path),
                " or below can be reclaimed any more",
            ),
            Reason::GroupThere(path) => with_one("the group ", Part::Text(path), " already exists"),
            Reason::NoGroup(path) => with_one("there is no group ", Part::Text(path), ""),
            Reason::NoGroupNow(path) => with_one(
                "there is no group ",
                Part::Text(path),
                ", or it was removed during the command",
            ),
            Reason::NoParent(path) => with_one(
                "the parent group ",
                Part::Text(path),
                " does not exist",
            ),
            Reason::NotModelled(file) => with_one("", Part::File(file), " is not modelled"),
            Reason::NoControlFile(file) => with_one(
                "there is no control file ",
                Part::File(file),
                "",
            ),
            Reason::NearFile(file, near) => with_two(
                "there is no control file ",
                Part::File(file),
                "; did you mean ",
                Part::Text(near),
                "?",
            ),
            Reason::RootLacks(file) => with_one(
                "the root has no ",
                Part::Text(file),
                "; its only control file is memory.reclaim",
            ),
            Reason::NotBelow { target, path } => with_two(
                "",
                Part::Text(path),
                " is not below ",
                Part::Text(target),
                "",
            ),
            Reason::HasTasks(path) => with_one(
                "",
                Part::Text(path),
                " has live tasks, so it cannot have child groups",
            ),
            Reason::HasGroups(path) => with_one(
                "",
                Part::Text(path),
                " has child groups, so it cannot have tasks",
            ),
            Reason::InUse(path) => with_one(
                "",
                Part::Text(path),
                " has child groups or live tasks",
            ),
            Reason::RootStays => fixed("the root cannot be removed"),
            Reason::TooDeep(levels) => with_two(
                "the group would be ",
                Part::Number(levels as u64),
                " levels below the root; at most ",
                Part::Number(MOST_LEVELS as u64),
                " are allowed",
            ),
            Reason::GroupsFull => with_one(
                "the machine has ",
                number(MOST_GROUPS),
                " groups already, the root included; no more are possible",
            ),
            Reason::TasksFull => with_one(
                "",
                Part::Number(MOST_TASKS as u64),
                " tasks are alive already; no more are possible",
            ),
            Reason::NoTaskNumber(task) => with_two(
                "",
                number(task),
                " is not a task's number; use 1 to ",
                number(LAST_TASK),
                "",
            ),
            Reason::NumberUsed(task) => with_one(
                "an earlier task had the number ",
                number(task),
                "; use another number",
            ),
            Reason::NoTask(task) => with_one(
                "task ",
                number(task),
                " was never started, or has exited",
            ),
            Reason::NoLiveTask(task) => with_one(
                "task ",
                number(task),
                " was never started, has exited, or was killed",
            ),
            Reason::PagePast(page) => with_two(
                "page ",
                number(page),
                " is above ",
                number(TASK_PAGES - 1),
                ", the last page of a task",
            ),
            Reason::OffsetPast(offset) => with_two(
                "offset ",
                number(offset),
                " is above ",
                Part::Number(LAST_OFFSET as u64),
                ", the last byte of a page",
            ),
            Reason::NoFile(name) => with_one("there is no file ", Part::Text(name), ""),
            Reason::FilePagePast { name, page } => with_two(
                "the file ",
                Part::Text(name),
                " has no page ",
                number(page),
                "",
            ),
            Reason::NoAmount(text) => with_two(
                "",
                Part::Quoted(text),
                " is not an amount; ",
                Part::Tip(text),
                "",
            ),
            Reason::AmountTooLarge(text) => with_two(
                "",
                Part::Text(text),
                " is too large; the largest amount is ",
                Part::Number(u64::MAX),
                " bytes",
            ),
            Reason::NoFlag(text) => with_one(
                "",
                Part::Quoted(text),
                " is not a flag; write 0 or 1",
            ),
            Reason::MaxReclaimed => fixed(
                "memory.reclaim does not take max; write a number of bytes",
            ),
            Reason::NotWritten(file) => with_one("", Part::Text(file), " is read-only"),
            Reason::NotRead(file) => with_one("", Part::Text(file), " is write-only"),
            Reason::NoPath(path) => with_one("", Part::Quoted(path), " is not a group's path"),
            Reason::TraceFull => fixed(
                "the trace is full; put \"trace N\" at the top of the script to make room for N entries",
            ),
            Reason::NoMemory => fixed("the program itself is out of memory"),
        }
    }
}

impl fmt::Display for Reason<'_> {
    fn fmt<W: Write>(&self, f: &mut Formatter<W>) -> fmt::Result {
        write!(f, "{}", self.sentence())
    }
}

/// A name of a control file, in quotes if it is not a valid name.
fn write_name<W: Write>(f: &mut Formatter<W>, name: &str) -> fmt::Result {
    if text_forms::name::is_name(name) {
        return f.write_str(name);
    }
    write!(f, "{name:?}")
}
