//! What the answers of an entry say.

use machine::command::{Actor, Answer, Reply, Word};
use std::alloc::AllocError;

/// A kill, as an answer reports it.
#[derive(Clone, Copy)]
pub struct Kill {
    pub victim: u32,
    /// A group died as one.
    pub is_group: bool,
}

/// What the answers of an entry say.
#[derive(Drop)]
pub struct Said {
    pub kills: Vec<Kill>,
    /// The words that refused something.
    pub refused: Vec<Word>,
    /// Tasks that had been killed before.
    pub late: Vec<u32>,
}

impl Said {
    /// Adds an answer.
    pub fn add(&mut self, reply: &Reply) -> Result<(), AllocError> {
        match &reply.answer {
            Answer::Kill(task) => self.kills.push(Kill {
                victim: task.0,
                is_group: false,
            })?,
            Answer::KillAll { victim, tasks: _ } => self.kills.push(Kill {
                victim: victim.0,
                is_group: true,
            })?,
            Answer::Word(Word::Killed) => {
                if let Actor::Task(task) = reply.actor {
                    self.late.push(task)?;
                }
            }
            Answer::Word(word) => self.refused.push(*word)?,
            Answer::Byte(_) | Answer::Text(_) | Answer::Done => {}
        }
        Ok(())
    }
}
