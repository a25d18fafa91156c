//! Commands that start, move or end tasks, until they are answered.

use crate::tasks::Tasks;
use machine::command::{Actor, Answer, Command, Reply, Word};
use machine::text::Text;
use scripts::number_of;
use std::alloc::{AllocError, Global};
use std::collections::BTreeMap;

/// What a command does to tasks if it is done.
#[derive(Drop)]
enum Change {
    Start { task: u32, path: Text },
    Fork { task: u32, child: u32 },
    Attach { task: u32, path: Text },
    End { task: u32 },
}

/// The changes that wait for their answers, by the numbers of their actors.
#[derive(Drop)]
pub struct Changes {
    waiting: BTreeMap<u64, Change>,
}

/// What a command of an actor does to tasks.
fn change_of(alloc: Global, actor: Actor, command: &Command) -> Result<Option<Change>, AllocError> {
    match (actor, command) {
        (_, Command::Task { task, path }) => Ok(Some(Change::Start {
            task: *task,
            path: path.copy(alloc)?,
        })),
        (_, Command::Attach { task, path }) => Ok(Some(Change::Attach {
            task: *task,
            path: path.copy(alloc)?,
        })),
        (Actor::Task(task), Command::Fork { child }) => Ok(Some(Change::Fork {
            task,
            child: *child,
        })),
        (Actor::Task(task), Command::Exit) => Ok(Some(Change::End { task })),
        _ => Ok(None),
    }
}

/// Whether an answer ends a command.
fn is_end(answer: &Answer) -> bool {
    match answer {
        Answer::Word(Word::Idle | Word::Underway | Word::TurnLimit) => false,
        Answer::Kill(_)
        | Answer::KillAll {
            victim: _,
            tasks: _,
        } => false,
        _ => true,
    }
}

impl Changes {
    pub fn new(alloc: Global) -> Changes {
        Changes {
            waiting: BTreeMap::new(alloc),
        }
    }

    /// An actor begins a command.
    pub fn begin(
        &mut self,
        alloc: Global,
        actor: Actor,
        command: &Command,
    ) -> Result<(), AllocError> {
        let number = number_of(actor);
        match change_of(alloc, actor, command)? {
            None => {}
            Some(change) => {
                self.waiting.insert(number, change).map_err(|_| AllocError)?;
            }
        }
        Ok(())
    }

    /// An answer came: the change of its actor is made, if the command is done.
    pub fn answer(
        &mut self,
        alloc: Global,
        tasks: &mut Tasks,
        reply: &Reply,
    ) -> Result<(), AllocError> {
        if !is_end(&reply.answer) {
            return Ok(());
        }
        let Some(change) = self.waiting.remove(&number_of(reply.actor)) else {
            return Ok(());
        };
        match &reply.answer {
            Answer::Done => make(alloc, tasks, change),
            _ => Ok(()),
        }
    }
}

fn make(alloc: Global, tasks: &mut Tasks, change: Change) -> Result<(), AllocError> {
    match change {
        Change::Start { task, path } => tasks.start(task, path),
        Change::Fork { task, child } => tasks.fork(alloc, task, child),
        Change::Attach { task, path } => {
            tasks.attach(task, path);
            Ok(())
        }
        Change::End { task } => {
            tasks.end(task);
            Ok(())
        }
    }
}
