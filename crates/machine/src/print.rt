//! The lines that answers print.

ghost use Rattle.std.specs.Prelude.{◌≡◌, ◌++◌, OnOk};
ghost use Rattle.std.specs.String.{string_bytes};
ghost use Rattle.machine.specs.Printed.{actor_text, answer_text, byte_text, group_kill_text, printed};

use crate::command::{Actor, Answer, Reply, Word};
use crate::id::TaskId;
use std::alloc::AllocError;
use std::fmt;

impl fmt::Display for Word {
    ghost use Rattle.std.specs.Prelude.{Some};
    ghost use Rattle.machine.specs.Printed.{word_text};

    ghost output = { λ w. Some (word_text w) };

    fn fmt<W: fmt::Write>(&self, f: &mut fmt::Formatter<W>) -> fmt::Result {
        match self {
            Word::Killed => f.write_str("killed"),
            Word::Idle => f.write_str("idle"),
            Word::Busy => f.write_str("busy"),
            Word::Io => f.write_str("EIO"),
            Word::OutOfMemory => f.write_str("ENOMEM"),
            Word::Again => f.write_str("EAGAIN"),
            Word::TurnLimit => f.write_str("turn limit"),
            Word::Underway => f.write_str("Underway"),
            Word::Refused(refusal) => write!(f, "{refusal}"),
        }
    }
}

/// Adds the beginning of the actor's lines: a task's number, `error`, or `daemon`.
fn add_actor(text: &mut String, actor: Actor) -> Result<(), AllocError>
    ensures { OnOk result (string_bytes text.new ≡ string_bytes text.old ++ actor_text actor) }
{
    match actor {
        Actor::Task(task) => write!(text, "{task}"),
        Actor::Shell | Actor::Control => text.push_str("error"),
        Actor::Daemon => text.push_str("daemon"),
    }
}

/// Adds the line of a byte that the actor read.
fn add_byte(text: &mut String, actor: Actor, byte: u8) -> Result<(), AllocError>
    ensures { OnOk result (string_bytes text.new ≡ string_bytes text.old ++ byte_text actor byte) }
{
    match actor {
        Actor::Task(task) => writeln!(text, "{task} {byte}"),
        Actor::Shell | Actor::Control | Actor::Daemon => writeln!(text, "{byte}"),
    }
}

/// Adds the line of a group kill, with its victim and the number of tasks that died.
fn add_group_kill(text: &mut String, victim: TaskId, tasks: u32) -> Result<(), AllocError>
    ensures { OnOk result (string_bytes text.new ≡ string_bytes text.old ++ group_kill_text victim.0 tasks) }
{
    writeln!(text, "killed group {} {tasks}", victim.0)
}

/// Adds the line of a word for the actor.
fn add_word(text: &mut String, actor: Actor, word: Word) -> Result<(), AllocError>
    ensures { OnOk result (string_bytes text.new ≡ string_bytes text.old ++ answer_text actor (Answer.Word word)) }
{
    add_actor(text, actor)?;
    writeln!(text, " {word}")
}

impl Reply {
    /// Adds the line of the answer. A task's byte or word follows the task's number. A control
    /// file's text is added as it is. A word of the shell or of control follows `error`, and one of
    /// the daemon follows `daemon`. A kill is `killed N`, and a group kill is
    /// `killed group N TASKS`. `Done` prints nothing.
    pub fn print(&self, text: &mut String) -> Result<(), AllocError>
        ensures { OnOk result (string_bytes text.new ≡ string_bytes text.old ++ printed self.now) }
    {
        match &self.answer {
            Answer::Done => Ok(()),
            Answer::Text(said) => text.push_str(said.as_str()),
            Answer::Kill(task) => writeln!(text, "killed {}", task.0),
            Answer::KillAll { victim, tasks } => add_group_kill(text, *victim, *tasks),
            Answer::Byte(byte) => add_byte(text, self.actor, *byte),
            Answer::Word(word) => add_word(text, self.actor, *word),
        }
    }
}
