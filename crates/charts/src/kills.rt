//! Who is killed in a run, and in which group.

use book::{Book, GroupLook};
use driver::Answer;
use machine::id::TaskId;
use std::alloc::{AllocError, Global};

/// A task was killed in the step at this place.
#[derive(Clone, Copy)]
pub struct Kill<'p> {
    pub step: usize,
    pub task: TaskId,
    /// How many tasks died with a group that was killed as one, this task among them. `None` if it died alone.
    pub with_group: Option<u32>,
    /// The path of the group that was killed as one, or else of the task's group. It is `/` if none of the known paths
    /// is.
    pub path: &'p str,
}

/// What was counted at a group of some path: how many of its tasks were killed, and how often it was killed as one.
#[derive(Clone, Copy)]
struct Count {
    /// The group's number.
    group: u32,
    tasks: u64,
    groups: u64,
}

/// The kills so far.
#[derive(Drop)]
pub struct Kills<'p> {
    pub all: Vec<Kill<'p>>,
    /// For each of the paths, what was counted at its group when the last kill was found. `None` if no group had the
    /// path.
    counts: Vec<Option<Count>>,
    /// The group of the last kill is not known yet.
    is_open: bool,
}

/// The kill that an answer of the step reports. Its group is not known yet.
fn kill_of<'p>(step: usize, answer: &Answer) -> Option<Kill<'p>> {
    match answer {
        Answer::Kill(task) => Some(Kill {
            step,
            task: *task,
            with_group: None,
            path: "/",
        }),
        Answer::KillAll { victim, tasks } => Some(Kill {
            step,
            task: *victim,
            with_group: Some(*tasks),
            path: "/",
        }),
        _ => None,
    }
}

impl Count {
    fn of(look: GroupLook) -> Count {
        Count {
            group: look.number,
            tasks: look.local.oom_kill,
            groups: look.local.oom_group_kill,
        }
    }

    /// Whether more was counted than at another time: groups that were killed as one, or else tasks.
    fn is_above(self, then: Option<Count>, as_group: bool) -> bool {
        let (tasks, groups) = match then {
            Some(then) if then.group == self.group => (then.tasks, then.groups),
            _ => (0, 0),
        };
        if as_group {
            self.groups > groups
        } else {
            self.tasks > tasks
        }
    }
}

impl<'p> Kills<'p> {
    pub fn new(alloc: Global) -> Kills<'p> {
        Kills {
            all: Vec::new(alloc),
            counts: Vec::new(alloc),
            is_open: false,
        }
    }

    /// Takes an answer of the step at this place.
    pub fn take(&mut self, step: usize, answer: &Answer) -> Result<(), AllocError> {
        if let Some(kill) = kill_of(step, answer) {
            self.all.push(kill)?;
            self.is_open = true;
        }
        Ok(())
    }

    /// Keeps what is counted at the group of the path at this place. The result is what was kept before.
    fn keep(&mut self, place: usize, now: Option<Count>) -> Result<Option<Count>, AllocError> {
        match self.counts.get_mut(place) {
            None => {
                self.counts.push(now)?;
                Ok(None)
            }
            Some(count) => {
                let then = *count;
                *count = now;
                Ok(then)
            }
        }
    }

    /// The first of the paths at whose group more is counted than when the last kill was found.
    fn counted(
        &mut self,
        book: &Book,
        paths: &'p [&'p str],
        as_group: bool,
    ) -> Result<Option<&'p str>, AllocError> {
        let mut found = None;
        for (place, path) in paths.iter().enumerate() {
            let now = book.look(*path).map(Count::of);
            let then = self.keep(place, now)?;
            match (found, now) {
                (None, Some(now)) if now.is_above(then, as_group) => found = Some(*path),
                _ => {}
            }
        }
        Ok(found)
    }

    /// Finds the group of the last kill, if it is not known yet. Between two kills the book has to be shown once.
    pub fn find(&mut self, book: &Book, paths: &'p [&'p str]) -> Result<(), AllocError> {
        if !self.is_open {
            return Ok(());
        }
        self.is_open = false;
        let Some(kill) = self.all.pop() else {
            return Ok(());
        };
        let path = self.counted(book, paths, kill.with_group.is_some())?;
        self.all.push(Kill {
            path: path.unwrap_or("/"),
            ..kill
        })?;
        Ok(())
    }
}
