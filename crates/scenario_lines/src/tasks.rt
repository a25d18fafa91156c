//! The tasks that a scenario has started, with the mark of each and its places in files.

ghost use Rattle.std.specs.Prelude.{◌≡◌, ◌+◌, ◌<◌, ◌≤◌, List, [], ◌∷◌, ◌++◌, length, map, None, IfOk, OnOk, OnErr};
ghost use Rattle.std.specs.List.{list_any};
ghost use Rattle.std.specs.Option.{option_map};
ghost use Rattle.std.specs.String.{string_bytes};
ghost use Rattle.scenario_lines.specs.Tasks.{StartedTask, StandingNow, TasksNow, started_task, has_name, task_named, tasks_named, task_numbered, with_task, nothing_written, mark_of, place_in, padded, with_at, with_mark, with_place};

use indexmap::IndexSet;
use std::alloc::{AllocError, Global};
use std::marker::Model;

/// Tasks that a scenario may start, at most.
pub const MOST_TASKS: u32 = 65_535;

/// A task's mark, which is the page after the last one that a line let it write, and its place in each file.
#[derive(Drop)]
pub struct Standing {
    pub mark: u32,
    pub places: Vec<u32>,
}

impl Model for Standing {
    ghost use Rattle.scenario_lines.specs.Tasks.{StandingNow};

    ghost Value = { StandingNow };

    ghost view = { λ s. record { mark = s.mark; places = s.places.items } };
}

/// A task's name, and its number among those of the name, if it has one.
#[derive(PartialEq, Eq, Hash, Drop)]
struct Started {
    name: String,
    index: Option<u64>,
}

/// Tasks by their names, with the numbers that they have in the script: 1, 2 and so on.
#[derive(Drop)]
pub struct Tasks {
    alloc: Global,
    /// In the order of their start.
    started: IndexSet<Started>,
    /// By a task's number less one. A task past the end has written nothing.
    standings: Vec<Standing>,
}

impl Model for Tasks {
    ghost use Rattle.std.specs.Prelude.{◌≤◌, length, map};
    ghost use Rattle.scenario_lines.specs.Tasks.{TasksNow, started_task};

    ghost Value = { TasksNow };

    ghost view = { λ t. record { started = map started_task t.started.keys; standings = t.standings.items } };

    ghost invariant = { λ t. length t.started.keys ≤ 65535 };
}

/// The standings, copied.
pub fn copy_standings(alloc: Global, standings: &[Standing]) -> Result<Vec<Standing>, AllocError>
    ensures { IfOk result (λ copies. copies.items ≡ standings.now) }
{
    let mut copies = Vec::new(alloc);
    for standing in standings {
        copies.push(Standing {
            mark: standing.mark,
            places: Vec::from_slice(alloc, standing.places.as_slice())?,
        })?;
    }
    Ok(copies)
}

impl Tasks {
    /// No task.
    pub fn new(alloc: Global) -> Tasks
        ensures { result ≡ record { started = []; standings = [] } }
    {
        Tasks {
            alloc,
            started: IndexSet::new(alloc),
            standings: Vec::new(alloc),
        }
    }

    /// How many were started.
    pub fn count(&self) -> u32
        ensures count { result ≡ length self.now.started }
        ensures most { result ≤ 65535 }
    {
        self.started.len() as u32
    }

    /// The number of the task of this name and index. It fails only if memory runs out.
    pub fn named(&self, name: &str, index: Option<u64>) -> Result<Option<u32>, AllocError>
        ensures { IfOk result (λ task. task ≡ task_named self.now.started name.now index) }
    {
        let task = Started {
            name: String::from_str(self.alloc, name)?,
            index,
        };
        match self.started.get_index_of(&task) {
            None => Ok(None),
            Some(place) => Ok(Some(place as u32 + 1)),
        }
    }

    /// Whether a task has this name.
    pub fn has_name(&self, name: &str) -> bool
        ensures { result ≡ list_any (has_name name.now) self.now.started }
    {
        has_name(self.started.as_slice(), name)
    }

    /// The numbers of all of this name, in the order of their start. It fails only if memory runs out.
    pub fn all_named(&self, name: &str) -> Result<Vec<u32>, AllocError>
        ensures { IfOk result (λ tasks. tasks.items ≡ tasks_named self.now.started name.now) }
    {
        all_named(self.alloc, self.started.as_slice(), name)
    }

    /// The name of the task with this number, and its own number among those of the name.
    pub fn name_of(&self, task: u32) -> Option<(&str, Option<u64>)>
        ensures { option_map (λ p. record { name = p.0.now; index = p.1 }) result ≡ task_numbered self.now.started task }
    {
        let place = task.checked_sub(1)?;
        let task = self.started.get_index(place as usize)?;
        Some((task.name.as_str(), task.index))
    }

    /// One more task. It has the next number. It fails only if memory runs out.
    pub fn add(&mut self, name: &str, index: Option<u64>) -> Result<u32, AllocError>
        requires new { task_named self.old.started name.now index ≡ None }
        requires room { length self.old.started < 65535 }
        ensures number { IfOk result (λ task. task ≡ length self.old.started + 1) }
        ensures added { OnOk result (self.new ≡ with_task self.old name.now index) }
    {
        let name = String::from_str(self.alloc, name)?;
        add(&mut self.started, Started { name, index })?;
        Ok(self.started.len() as u32)
    }

    /// The marks and places of all tasks.
    pub fn standings(&self) -> &[Standing]
        ensures { result.now ≡ self.now.standings }
    {
        self.standings.as_slice()
    }

    /// The tasks get these marks and places.
    pub fn stand(&mut self, standings: Vec<Standing>)
        ensures { self.new ≡ record self.old { standings = standings.items } }
    {
        self.standings = standings;
    }

    /// The page after the last one that a line let the task write: 0, if it wrote none.
    pub fn mark(&self, task: u32) -> u32
        ensures { result ≡ mark_of self.now.standings task }
    {
        match self.standings.get((task as usize).saturating_sub(1)) {
            None => 0,
            Some(standing) => standing.mark,
        }
    }

    /// The task has this mark from here on. It fails only if memory runs out.
    pub fn set_mark(&mut self, task: u32, mark: u32) -> Result<(), AllocError>
        ensures { OnOk result (self.new ≡ record self.old { standings = with_mark self.old.standings task mark }) }
    {
        set_mark(self.alloc, &mut self.standings, task, mark)
    }

    /// The task's place in a file.
    pub fn place_in(&self, task: u32, file: u32) -> u32
        ensures { result ≡ place_in self.now.standings task file }
    {
        match self.standings.get((task as usize).saturating_sub(1)) {
            None => 0,
            Some(standing) => standing.places.get(file as usize).copied().unwrap_or(0),
        }
    }

    /// The task has this place in a file from here on. It fails only if memory runs out.
    pub fn set_place(&mut self, task: u32, file: u32, place: u32) -> Result<(), AllocError>
        ensures { OnOk result (self.new ≡ record self.old { standings = with_place self.old.standings task file place }) }
    {
        set_place(self.alloc, &mut self.standings, task, file, place)
    }
}

/// Whether one of these has this name.
fn has_name(started: &[Started], name: &str) -> bool
    ensures { result ≡ list_any (has_name name.now) (map started_task started.now) }
{
    for task in started {
        if name == task.name.as_str() {
            return true;
        }
    }
    false
}

/// The numbers of those that have this name.
fn all_named(alloc: Global, started: &[Started], name: &str) -> Result<Vec<u32>, AllocError>
    requires { length started.now ≤ 65535 }
    ensures { IfOk result (λ tasks. tasks.items ≡ tasks_named (map started_task started.now) name.now) }
{
    let mut tasks = Vec::new(alloc);
    for (place, task) in started.iter().enumerate() {
        if name == task.name.as_str() {
            tasks.push(place as u32 + 1)?;
        }
    }
    Ok(tasks)
}

/// Adds a task that is not among them. It is the last one.
fn add(started: &mut IndexSet<Started>, task: Started) -> Result<(), AllocError>
    requires { task_named (map started_task started.old.keys) (string_bytes task.name) task.index ≡ None }
    ensures added { OnOk result (started.new.keys ≡ started.old.keys ++ task ∷ []) }
    ensures same { OnErr result (started.new.keys ≡ started.old.keys) }
{
    started.insert(task)?;
    Ok(())
}

/// Adds standings of tasks that have written nothing, until there are `many`.
fn reserve(alloc: Global, standings: &mut Vec<Standing>, many: usize) -> Result<(), AllocError>
    ensures { OnOk result (standings.new.items ≡ padded nothing_written many standings.old.items) }
{
    for _ in standings.len()..many {
        standings.push(Standing {
            mark: 0,
            places: Vec::new(alloc),
        })?;
    }
    Ok(())
}

/// Adds zeros, until there are `many` numbers.
fn fill(places: &mut Vec<u32>, many: usize) -> Result<(), AllocError>
    ensures { OnOk result (places.new.items ≡ padded 0 many places.old.items) }
{
    for _ in places.len()..many {
        places.push(0)?;
    }
    Ok(())
}

/// Sets the number of this place. Those before it that are missing become 0.
fn set_at(places: &mut Vec<u32>, file: u32, place: u32) -> Result<(), AllocError>
    ensures { OnOk result (places.new.items ≡ with_at places.old.items file place) }
{
    let at = file as usize;
    fill(places, at + 1)?;
    if at < places.len() {
        places[at] = place;
    }
    Ok(())
}

fn set_mark(
    alloc: Global,
    standings: &mut Vec<Standing>,
    task: u32,
    mark: u32,
) -> Result<(), AllocError>
    ensures { OnOk result (standings.new.items ≡ with_mark standings.old.items task mark) }
{
    reserve(alloc, standings, task as usize)?;
    let at = (task as usize).saturating_sub(1);
    if at < standings.len() {
        let standing = &mut standings[at];
        standing.mark = mark;
    }
    Ok(())
}

fn set_place(
    alloc: Global,
    standings: &mut Vec<Standing>,
    task: u32,
    file: u32,
    place: u32,
) -> Result<(), AllocError>
    ensures { OnOk result (standings.new.items ≡ with_place standings.old.items task file place) }
{
    reserve(alloc, standings, task as usize)?;
    let at = (task as usize).saturating_sub(1);
    if at < standings.len() {
        let standing = &mut standings[at];
        set_at(&mut standing.places, file, place)?;
    }
    Ok(())
}
