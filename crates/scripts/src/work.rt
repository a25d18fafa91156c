//! What each actor is asked for after a script's first `go`.

ghost use Rattle.std.specs.Prelude.{◌≡◌, [], List, IfOk, OnOk};
ghost use Rattle.machine.specs.declared.command.Actor.{Actor};
ghost use Rattle.machine.specs.declared.command.Command.{Command};
ghost use Rattle.scripts.specs.Work.{number_of, shown_rows, work_of, IsWork};
ghost use Rattle.scripts.specs.Rows.{with_command};

use machine::command::{Actor, Command};
use std::alloc::{AllocError, Global};
use std::collections::BTreeMap;
use std::marker::Model;

/// The actors that are asked for something, and what, under their numbers.
///
/// A contract sees them as the list of the actors with their commands, by rising number.
#[derive(Drop)]
pub struct Work {
    rows: BTreeMap<u64, (Actor, Vec<Command>)>,
}

impl Model for Work {
    ghost use Rattle.std.specs.Prelude.{◌≡◌, List};
    ghost use Rattle.std.specs.BTreeMap.{keys, values};
    ghost use Rattle.machine.specs.declared.command.Actor.{Actor};
    ghost use Rattle.machine.specs.declared.command.Command.{Command};
    ghost use Rattle.scripts.specs.Work.{numbers_of, shown_rows};

    ghost Value = { List (Actor × List Command) };

    ghost view = { λ w. shown_rows (values w.rows) };

    ghost invariant = { λ w. keys w.rows ≡ numbers_of (shown_rows (values w.rows)) };
}

/// An actor's number, by which rows of a run on threads are ordered. Different actors have different numbers.
pub fn number_of(actor: Actor) -> u64
    ensures { result ≡ number_of actor }
{
    match actor {
        Actor::Shell => 0,
        Actor::Control => 1,
        Actor::Daemon => 2,
        Actor::Task(task) => u64::from(task) + 3,
    }
}

impl Work {
    pub fn new(alloc: Global) -> Self
        ensures { result ≡ [] }
    {
        Work {
            rows: BTreeMap::new(alloc),
        }
    }

    /// Another command of the actor, after its others.
    pub fn add(&mut self, alloc: Global, actor: Actor, command: Command) -> Result<(), AllocError>
        ensures { OnOk result (self.new ≡ with_command self.old (actor, command)) }
    {
        let number = number_of(actor);
        match self.rows.get_mut(&number) {
            Some(row) => row.1.push(command)?,
            None => {
                let commands = vec![in alloc; command]?;
                self.rows.insert(number, (actor, commands))?;
            }
        }
        Ok(())
    }

    /// A row for each actor.
    pub fn into_rows(self, alloc: Global) -> Result<Vec<(Actor, Vec<Command>)>, AllocError>
        ensures { IfOk result (λ rows. shown_rows rows.items ≡ self) }
    {
        let Work { rows } = self;
        rows.into_values().collect(alloc)
    }
}

/// A law: the rows of any commands are those of their actors. Each actor has one row, by rising number, with all that
/// it is asked for, in order.
pub fn each_actor_has_its_row()
    ensures { (ps : List (Actor × Command)) → IsWork ps (work_of ps) }
{}
