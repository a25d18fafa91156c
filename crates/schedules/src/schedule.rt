//! Schedules.

ghost use Rattle.std.specs.Prelude.{◌≡◌, ◌++◌, [], replicate, length, IfOk, OnOk};
ghost use Rattle.schedules.specs.Schedule.{steps_of_entry, steps_of};

use machine::command::{Actor, Command, Step};
use std::alloc::{AllocError, Global};
use std::marker::Model;

/// What a line asks for.
#[derive(Drop)]
pub enum Entry {
    /// A command of the actor from its beginning to its end.
    Whole(Actor, Command),
    /// One step.
    Step(Step),
}

/// A line of a schedule.
#[derive(Drop)]
pub struct Line {
    /// The place of its first step in the list of all steps.
    pub first: usize,
    /// Its number.
    pub number: usize,
    pub entry: Entry,
}

/// The lines of a schedule that ask for something, in their order.
#[derive(Drop)]
pub struct Schedule {
    table: Vec<Line>,
}

impl Model for Schedule {
    ghost use Rattle.schedules.specs.Schedule.{ScheduleOf, steps_of, numbers_of};

    ghost Value = { ScheduleOf };

    ghost view = { λ s. record { steps = steps_of s.table.items; numbers = numbers_of s.table.items } };
}

impl Entry {
    /// The actor that begins a command in it, and that command.
    pub fn begins(&self) -> Option<(Actor, &Command)> {
        match self {
            Entry::Whole(actor, command) | Entry::Step(Step::Begin(actor, command)) => {
                Some((*actor, command))
            }
            Entry::Step(_) => None,
        }
    }

    /// The number of its steps.
    fn width(&self) -> usize
        ensures { result ≡ length (steps_of_entry self.now) }
    {
        match self {
            Entry::Whole(_, _) => 2,
            Entry::Step(_) => 1,
        }
    }
}

impl Schedule {
    /// A schedule without lines.
    pub fn new(alloc: Global) -> Schedule
        ensures steps { result.steps ≡ [] }
        ensures numbers { result.numbers ≡ [] }
    {
        Schedule {
            table: Vec::new(alloc),
        }
    }

    /// Adds a line with this number.
    pub fn add(&mut self, number: usize, entry: Entry) -> Result<(), AllocError>
        ensures steps { OnOk result (self.new.steps ≡ self.old.steps ++ steps_of_entry entry) }
        ensures numbers { OnOk result (self.new.numbers ≡ self.old.numbers ++ replicate (length (steps_of_entry entry)) number) }
    {
        let first = self.len();
        self.table.push(Line {
            first,
            number,
            entry,
        })?;
        Ok(())
    }

    /// The lines.
    pub fn lines(&self) -> &[Line]
        ensures { steps_of result.now ≡ self.now.steps }
    {
        self.table.as_slice()
    }

    /// The number of steps.
    pub fn len(&self) -> usize {
        match self.table.last() {
            Some(line) => line.first.saturating_add(line.entry.width()),
            None => 0,
        }
    }

    /// The line of the step at this place.
    pub fn line_at(&self, step: usize) -> Option<&Line> {
        let behind = self.table.partition_point(|line| line.first <= step);
        let line = self.table.get(behind.checked_sub(1)?)?;
        if step.checked_sub(line.first)? < line.entry.width() {
            Some(line)
        } else {
            None
        }
    }

    /// The actor that begins a command in the step at this place, and that command.
    pub fn begun_at(&self, step: usize) -> Option<(Actor, &Command)> {
        let line = self.line_at(step)?;
        if line.first == step {
            line.entry.begins()
        } else {
            None
        }
    }

    /// For each step, the number of its line.
    pub fn numbers(&self, alloc: Global) -> Result<Vec<usize>, AllocError>
        ensures { IfOk result (λ numbers. numbers.items ≡ self.now.numbers) }
    {
        let mut numbers = Vec::new(alloc);
        for line in &self.table {
            numbers.push(line.number)?;
            if let Entry::Whole(_, _) = line.entry {
                numbers.push(line.number)?;
            }
        }
        Ok(numbers)
    }
}
