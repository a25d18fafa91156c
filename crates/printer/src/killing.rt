//! Why a task was killed, in words for people.

use book::Victim;
use driver::Answer;
use machine::amount::Amount;
use machine::event::Cause;
use machine::id::TaskId;
use machine::page_size::PageSize;
use pictures::Size;
use std::fmt;
use std::fmt::{Formatter, Write};

/// Page frames of a machine whose script has no line `frames`.
const DEFAULT_FRAMES: u32 = 64;

/// Who died, as an answer reports it.
#[derive(Clone, Copy)]
pub struct Killed {
    pub victim: TaskId,
    /// How many died with a group that was killed as one, including the victim. `None` if the victim died alone.
    pub with_group: Option<u32>,
}

/// The kill that an answer reports, if it reports one.
pub fn killed_in(answer: &Answer) -> Option<Killed> {
    match answer {
        Answer::Kill(task) => Some(Killed {
            victim: *task,
            with_group: None,
        }),
        Answer::KillAll { victim, tasks } => Some(Killed {
            victim: *victim,
            with_group: Some(*tasks),
        }),
        _ => None,
    }
}

impl fmt::Display for Killed {
    fn fmt<W: Write>(&self, f: &mut Formatter<W>) -> fmt::Result {
        let victim = self.victim.0;
        match self.with_group {
            Some(tasks) => write!(f, "killed group {victim} {tasks}"),
            None => write!(f, "killed {victim}"),
        }
    }
}

/// A task that is killed to make room, and the group under which room is needed, as they were before.
#[derive(Clone, Copy)]
pub struct Killing<'s> {
    pub victim: Victim,
    /// Why room is needed.
    pub cause: Cause,
    /// The path of the group under which room is needed.
    pub path: &'s str,
    pub max: Amount,
    /// Pages that are charged to it and below it.
    pub usage: u64,
    /// The path of the victim's group.
    pub home: Option<&'s str>,
    /// The path of the group that dies with the task. `None` if the task dies alone.
    pub group: Option<&'s str>,
    /// How many died with that group.
    pub dead: u32,
    /// Page frames of the machine.
    pub frames: u32,
    /// How many bytes a page stands for.
    pub page_size: PageSize,
    /// The first two of the other tasks that were as large.
    pub first_tied: Option<TaskId>,
    pub second_tied: Option<TaskId>,
}

/// Writes that no frame is free. The number of a script without a line `frames` comes with the name of that line.
fn write_frames<W: Write>(f: &mut Formatter<W>, frames: u32, size: Size) -> fmt::Result {
    write!(f, "at or below /: no frame is free of {frames} ({size}")?;
    if frames == DEFAULT_FRAMES {
        f.write_str(r#"; a line "frames" sets another number"#)?;
    }
    f.write_str(") and")
}

/// A number of pages, in words.
#[derive(Clone, Copy)]
struct Pages(usize);

impl fmt::Display for Pages {
    fn fmt<W: Write>(&self, f: &mut Formatter<W>) -> fmt::Result {
        match self.0 {
            1 => f.write_str("1 page"),
            pages => write!(f, "{pages} pages"),
        }
    }
}

/// What a labelled answer adds to `killed group`: which group died, and of which group the victim was. Nothing if the
/// victim died alone.
#[derive(Clone, Copy)]
pub struct GroupKill<'k, 's>(pub &'k Killing<'s>);

impl fmt::Display for GroupKill<'_, '_> {
    fn fmt<W: Write>(&self, f: &mut Formatter<W>) -> fmt::Result {
        let killing = self.0;
        let Some(path) = killing.group else {
            return Ok(());
        };
        match killing.dead {
            1 => write!(f, " (the only task of {path}: ")?,
            dead => write!(f, " (all {dead} tasks of {path}; the victim: ")?,
        }
        let pages = Pages(killing.victim.pages);
        let task = killing.victim.task.0;
        match killing.home {
            Some(home) => write!(f, "task {task} of {home}, {pages})"),
            None => write!(f, "task {task}, {pages})"),
        }
    }
}

impl Killing<'_> {
    /// So many pages.
    fn size(&self, pages: u64) -> Size {
        Size {
            pages,
            page_size: self.page_size,
        }
    }

    /// Writes how large the task was, and among how many tasks.
    fn write_choice<W: Write>(&self, f: &mut Formatter<W>) -> fmt::Result {
        let pages = Pages(self.victim.pages);
        match self.victim.tasks {
            1 => write!(f, "{pages} of the only task"),
            tasks => write!(f, "{pages}, the most of {tasks} tasks"),
        }
    }

    /// Writes where the task was, and why room is needed there.
    fn write_limit<W: Write>(&self, f: &mut Formatter<W>) -> fmt::Result {
        let path = self.path;
        match (self.cause, self.max) {
            (Cause::Frame, _) => write_frames(f, self.frames, self.size(u64::from(self.frames))),
            // Not reached: a group without a max has room.
            (_, Amount::Max) => write!(f, "at or below {path}:"),
            (Cause::Charge(_), Amount::Pages(max)) => {
                let max = self.size(max);
                write!(f, "at or below {path}, whose memory.max {max} is reached:")
            }
            (Cause::Lower(_), Amount::Pages(max)) => {
                let max = self.size(max);
                let usage = self.size(self.usage);
                write!(
                    f,
                    "at or below {path}, whose {usage} are more than its new memory.max {max}:"
                )
            }
        }
    }

    /// Writes which other tasks were as large, and how the choice was made.
    fn write_ties<W: Write>(&self, f: &mut Formatter<W>) -> fmt::Result {
        let Some(first) = self.first_tied else {
            return Ok(());
        };
        match (self.second_tied, self.victim.as_large) {
            (None, _) => write!(f, "; task {} is", first.0)?,
            (Some(second), 2) => write!(f, "; tasks {} and {} are", first.0, second.0)?,
            (Some(second), others) => {
                let more = others.saturating_sub(2);
                write!(f, "; tasks {}, {} and {more} more are", first.0, second.0)?
            }
        }
        f.write_str(
            " equally large, and the lowest number is chosen (Linux does not promise which)",
        )
    }

    /// Writes that a group dies as one.
    fn write_group<W: Write>(&self, f: &mut Formatter<W>, path: &str) -> fmt::Result {
        match self.dead {
            1 => write!(
                f,
                "; it is the only task of {path}, whose memory.oom.group is 1"
            ),
            dead => write!(
                f,
                "; all {dead} tasks of {path} are killed, since its memory.oom.group is 1"
            ),
        }
    }

    /// Writes of which group the victim is, if that is not the group that dies.
    fn write_home<W: Write>(&self, f: &mut Formatter<W>, path: &str) -> fmt::Result {
        match self.home {
            Some(home) => self.write_home_in(f, home, path),
            None => Ok(()),
        }
    }

    fn write_home_in<W: Write>(&self, f: &mut Formatter<W>, home: &str, path: &str) -> fmt::Result {
        if home == path {
            return Ok(());
        }
        let task = self.victim.task.0;
        write!(f, "; task {task} is in {home}")
    }
}

impl fmt::Display for Killing<'_> {
    fn fmt<W: Write>(&self, f: &mut Formatter<W>) -> fmt::Result {
        self.write_choice(f)?;
        f.write_str(" ")?;
        self.write_limit(f)?;
        f.write_str(" nothing can be reclaimed")?;
        self.write_ties(f)?;
        match self.group {
            Some(path) => {
                self.write_group(f, path)?;
                self.write_home(f, path)
            }
            None => Ok(()),
        }
    }
}
