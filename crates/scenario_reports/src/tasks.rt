//! Tasks of the machine, by what their lines were answered.

ghost use Rattle.std.specs.Prelude.{◌≡◌, ◌||◌, [], ◌∷◌, ◌++◌, OnOk};
ghost use Rattle.scenario_reports.specs.Tasks.{is_gone};

use crate::levels::levels_below;
use machine::text::Text;
use std::alloc::{AllocError, AllocFailed, Global};
use std::collections::BTreeMap;
use std::marker::Model;

/// A task that was started.
#[derive(Drop)]
struct Known {
    /// The script's path of its group.
    path: Text,
    alive: bool,
    killed: bool,
    /// It has a line `exit`.
    exits: bool,
    /// Lines after its death.
    late: u64,
}

impl Known {
    /// Whether it was killed or has a line `exit`.
    fn is_gone(&self) -> bool
        ensures { result ≡ (self.now.killed || self.now.exits) }
    {
        self.killed || self.exits
    }
}

/// The tasks that were started, and those that were killed, in the order of their deaths.
#[derive(Drop)]
pub struct Tasks {
    known: BTreeMap<u32, Known>,
    dead: Vec<u32>,
}

impl Model for Tasks {
    ghost use Rattle.std.specs.Prelude.{map};
    ghost use Rattle.scenario_reports.specs.Tasks.{TasksNow, started_task};

    ghost Value = { TasksNow };

    ghost view = { λ t. record { dead = t.dead.items; started = map started_task t.known.entries } };
}

impl Tasks {
    /// No task.
    pub fn new(alloc: Global) -> Tasks
        ensures { result ≡ record { dead = []; started = [] } }
    {
        Tasks {
            known: BTreeMap::new(alloc),
            dead: Vec::new(alloc),
        }
    }

    /// A task was started in the group of this path.
    pub fn start(&mut self, task: u32, path: Text) -> Result<(), AllocError>
        ensures { self.new.dead ≡ self.old.dead }
    {
        let known = Known {
            path,
            alive: true,
            killed: false,
            exits: false,
            late: 0,
        };
        self.known.insert(task, known).map_err(|_| AllocError)?;
        Ok(())
    }

    /// A task was forked.
    pub fn fork(&mut self, alloc: Global, task: u32, child: u32) -> Result<(), AllocError>
        ensures { self.new.dead ≡ self.old.dead }
    {
        let path = match self.known.get(&task) {
            None => return Ok(()),
            Some(known) => known.path.copy(alloc)?,
        };
        self.start(child, path)
    }

    /// A task was moved to the group of this path.
    pub fn attach(&mut self, task: u32, path: Text)
        ensures { self.new.dead ≡ self.old.dead }
    {
        if let Some(known) = self.known.get_mut(&task) {
            known.path = path;
        }
    }

    /// A task has ended by itself.
    pub fn end(&mut self, task: u32)
        ensures { self.new.dead ≡ self.old.dead }
    {
        if let Some(known) = self.known.get_mut(&task) {
            known.alive = false;
        }
    }

    /// A line `exit` of the task comes.
    pub fn note_exit(&mut self, task: u32)
        ensures { self.new.dead ≡ self.old.dead }
    {
        if let Some(known) = self.known.get_mut(&task) {
            known.exits = true;
        }
    }

    /// The live tasks of a group and of those below it, except one, by their numbers.
    pub fn others_in(
        &self,
        alloc: Global,
        group: &str,
        except: u32,
    ) -> Result<Vec<u32>, AllocError> {
        let mut others = Vec::new(alloc);
        for (task, known) in self.known.iter() {
            if known.alive
                && *task != except
                && levels_below(known.path.as_str(), group).is_some()
            {
                others.push(*task)?;
            }
        }
        Ok(others)
    }

    /// A task was killed.
    pub fn kill(&mut self, task: u32) -> Result<(), AllocError>
        ensures { OnOk result (self.new.dead ≡ self.old.dead ++ task ∷ []) }
    {
        if let Some(known) = self.known.get_mut(&task) {
            known.alive = false;
            known.killed = true;
        }
        self.dead.push(task)?;
        Ok(())
    }

    /// The tasks that were killed, in the order of their deaths.
    pub fn dead(&self) -> &[u32]
        ensures { result.now ≡ self.now.dead }
    {
        self.dead.as_slice()
    }

    pub fn is_dead(&self, task: u32) -> bool {
        match self.known.get(&task) {
            None => false,
            Some(known) => known.killed,
        }
    }

    /// Whether a task was killed or has a line `exit`.
    pub fn is_gone(&self, task: u32) -> bool
        ensures { result ≡ is_gone self.now.started task }
    {
        match self.known.get(&task) {
            None => false,
            Some(known) => known.is_gone(),
        }
    }

    /// A line of a task was answered `killed`. It counts if the task was killed before it.
    pub fn count_late(&mut self, task: u32)
        ensures { self.new.dead ≡ self.old.dead }
    {
        if let Some(known) = self.known.get_mut(&task) {
            if !known.alive {
                known.late = known.late.saturating_add(1);
            }
        }
    }

    /// The tasks with lines after their deaths, and how many.
    pub fn late(&self, alloc: Global) -> Result<Vec<(u32, u64)>, AllocError> {
        let mut late = Vec::new(alloc);
        for (task, known) in self.known.iter() {
            if known.late > 0 {
                late.push((*task, known.late))?;
            }
        }
        Ok(late)
    }
}
