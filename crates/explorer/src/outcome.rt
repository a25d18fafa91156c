//! The outcome of an order: what is printed of it.

ghost use Rattle.std.specs.Prelude.{◌≡◌, ◌++◌, ◌↔◌, ◌&&◌, filter, flat_map, IsTrue, Some, None, IfOk, OnOk, if◌then◌else◌};
ghost use Rattle.std.specs.Option.{option_map};
ghost use Rattle.std.specs.List.{list_any};
ghost use Rattle.std.specs.String.{string_bytes};
ghost use Rattle.explorer.specs.Lines.{is_kill, tells_busy, answers_to, tells_kill, lines_of, lines_for, outcome_text};

use crate::parts::Row;
use machine::command::{Actor, Answer, Reply, Word};
use scripts::number_of;
use std::alloc::{AllocError, Global};

/// Whether the answer reports a kill.
fn is_kill(answer: &Answer) -> bool
    ensures { result ≡ is_kill answer.now }
{
    match answer {
        Answer::Kill(_) | Answer::KillAll { .. } => true,
        Answer::Byte(_) | Answer::Text(_) | Answer::Done | Answer::Word(_) => false,
    }
}

/// Whether the answer is that its command meets a page in transfer.
fn tells_busy(reply: &Reply) -> bool
    ensures { result ≡ tells_busy reply.now }
{
    match &reply.answer {
        Answer::Word(Word::Busy) => true,
        Answer::Word(_)
        | Answer::Byte(_)
        | Answer::Text(_)
        | Answer::Done
        | Answer::Kill(_)
        | Answer::KillAll { .. } => false,
    }
}

/// Whether this is an answer to a command of the actor. A kill is not.
fn is_answer_to(actor: Actor, reply: &Reply) -> bool
    ensures { result ≡ answers_to actor reply.now }
{
    number_of(reply.actor) == number_of(actor) && !is_kill(&reply.answer)
}

/// Adds the lines of the answers to the actor's commands.
fn add_answers(text: &mut String, actor: Actor, said: &[Reply]) -> Result<(), AllocError>
    ensures { OnOk result (string_bytes text.new ≡ string_bytes text.old ++ lines_of (filter (answers_to actor) said.now)) }
{
    for reply in said {
        if is_answer_to(actor, reply) {
            reply.print(text)?;
        }
    }
    Ok(())
}

/// Adds the lines of the kills.
fn add_kills(text: &mut String, said: &[Reply]) -> Result<(), AllocError>
    ensures { OnOk result (string_bytes text.new ≡ string_bytes text.old ++ lines_of (filter tells_kill said.now)) }
{
    for reply in said {
        if is_kill(&reply.answer) {
            reply.print(text)?;
        }
    }
    Ok(())
}

/// Adds the lines of all these answers.
fn add_all(text: &mut String, said: &[Reply]) -> Result<(), AllocError>
    ensures { OnOk result (string_bytes text.new ≡ string_bytes text.old ++ lines_of said.now) }
{
    for reply in said {
        reply.print(text)?;
    }
    Ok(())
}

/// Adds each actor's lines.
fn add_rows(text: &mut String, rows: &[Row], said: &[Reply]) -> Result<(), AllocError>
    ensures { OnOk result (string_bytes text.new ≡ string_bytes text.old ++ flat_map (lines_for said.now) rows.now) }
{
    for row in rows {
        add_answers(text, row.actor, said)?;
    }
    Ok(())
}

/// The lines of an outcome: each actor's answers in their order, then the kills, then what the looks show.
fn outcome_of(
    alloc: Global,
    rows: &[Row],
    said: &[Reply],
    looked: &[Reply],
) -> Result<String, AllocError>
    ensures { IfOk result (λ text. string_bytes text ≡ outcome_text rows.now said.now looked.now) }
{
    let mut text = String::new(alloc);
    add_rows(&mut text, rows, said)?;
    add_kills(&mut text, said)?;
    add_all(&mut text, looked)?;
    Ok(text)
}

/// Whether a command meets a page in transfer.
fn any_busy(said: &[Reply]) -> bool
    ensures { result ≡ list_any tells_busy said.now }
{
    said.iter().any(tells_busy)
}

/// The lines of an outcome, if the order is not left out: commands wait for the end of a transfer, and in this order one
/// did not.
pub fn kept_outcome(
    alloc: Global,
    waits: bool,
    rows: &[Row],
    said: &[Reply],
    looked: &[Reply],
) -> Result<Option<String>, AllocError>
    ensures { IfOk result (λ kept. option_map string_bytes kept ≡ (if waits && list_any tells_busy said.now then None else Some (outcome_text rows.now said.now looked.now))) }
{
    if waits && any_busy(said) {
        return Ok(None);
    }
    Ok(Some(outcome_of(alloc, rows, said, looked)?))
}
