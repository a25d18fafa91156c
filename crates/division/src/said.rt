//! What each line of a script asks for.

ghost use Rattle.std.specs.Prelude.{◌≡◌, ◌++◌, ◌&&◌, ◌≤◌, ◌+◌, List, drop, map, length, IfOk, OnOk};
ghost use Rattle.std.specs.Str.{is_utf8};
ghost use Rattle.std.specs.Str.Lines.{lines};
ghost use Rattle.machine.specs.declared.config.File.{File};
ghost use Rattle.scripts.specs.declared.meaning.Item.{Item};
ghost use Rattle.scripts.specs.Meaning.{meaning};
ghost use Rattle.scripts.specs.Script.{steps_of, lines_of};
ghost use Rattle.scripts.specs.Words.{words_of};
ghost use Rattle.scripts.specs.Work.{is_go};
ghost use Rattle.schedules.specs.Schedule.{steps_of_entry};
ghost use Rattle.division.specs.Said.{names_go, bare_go, words_go, is_go_line, width, said_by, said_of_item, IsRead};

use explorer::copy_of_step;
use machine::command::{Actor, Command, Step};
use schedules::{Entry, Schedule};
use scripts::forms::{takes_line, word_named};
use scripts::lines::{as_text, first_line};
use scripts::words::{Token, words_of};
use scripts::{Speaker, Word};
use std::alloc::{AllocError, Global};

/// What a line of a script asks for.
#[derive(Drop)]
pub enum Said {
    /// No step.
    Nothing,
    /// The next part of the script.
    Go,
    /// A command of the actor, from its beginning to its end.
    Does(Actor, Command),
    /// One step.
    Step(Step),
}

fn is_go(word: Option<Word>) -> bool
    ensures { result ≡ names_go word }
{
    match word {
        Some(Word::Go) => true,
        _ => false,
    }
}

/// Whether these words, without their `begin`, are those of a line `go`.
fn bare_go(words: &[Token<'_>]) -> bool
    ensures { result ≡ bare_go words.now }
{
    let Some((first, more)) = words.split_first() else {
        return false;
    };
    if !first.is_digits() {
        return is_go(word_named(Speaker::Shell, first.text()));
    }
    match more.first() {
        Some(word) => is_go(word_named(Speaker::Task, word.text())),
        None => false,
    }
}

/// Whether these are the words of a line `go`.
fn words_go(words: &[Token<'_>]) -> bool
    ensures { result ≡ words_go words.now }
{
    let Some((first, more)) = words.split_first() else {
        return false;
    };
    if first.text().starts_with('#') {
        return false;
    }
    if takes_line(word_named(Speaker::Shell, first.text())) {
        return bare_go(more);
    }
    bare_go(words)
}

/// Whether the line is `go`.
fn line_goes(line: &[u8]) -> bool
    ensures { result ≡ is_go_line line.now }
{
    let Some(text) = as_text(line) else {
        return false;
    };
    let words = words_of(text);
    words_go(words.as_slice())
}

/// How many of the first two steps belong to the line with this number.
fn width(numbers: &[usize], number: usize) -> usize
    ensures is { result ≡ width numbers.now number }
    ensures within { result ≤ length numbers.now }
{
    match numbers {
        [first, second, ..] if *first == number && *second == number => 2,
        [first, ..] if *first == number => 1,
        _ => 0,
    }
}

/// The list without its first items.
fn rest_of<T>(items: &[T], skipped: usize) -> &[T]
    ensures { result.now ≡ drop skipped items.now }
{
    if skipped <= items.len() {
        &items[skipped..]
    } else {
        &[]
    }
}

/// What a line asks for. The first `width` steps are its own.
fn said_by(alloc: Global, goes: bool, width: usize, steps: &[Step]) -> Result<Said, AllocError>
    ensures { IfOk result (λ said. said ≡ said_by goes width steps.now) }
{
    if goes {
        return Ok(Said::Go);
    }
    let Some(first) = steps.first() else {
        return Ok(Said::Nothing);
    };
    if width == 0 {
        return Ok(Said::Nothing);
    }
    if width == 2 {
        if let Step::Begin(actor, command) = first {
            return Ok(Said::Does(*actor, command.copy(alloc)?));
        }
    }
    Ok(Said::Step(copy_of_step(alloc, first)?))
}

/// Adds the steps of an entry.
fn add_steps(alloc: Global, steps: &mut Vec<Step>, entry: &Entry) -> Result<(), AllocError>
    ensures { OnOk result (steps.new.items ≡ steps.old.items ++ steps_of_entry entry.now) }
{
    match entry {
        Entry::Whole(actor, command) => {
            steps.push(Step::Begin(*actor, command.copy(alloc)?))?;
            steps.push(Step::Finish(*actor))?;
        }
        Entry::Step(step) => steps.push(copy_of_step(alloc, step)?)?,
    }
    Ok(())
}

/// All steps of a schedule.
fn all_steps(alloc: Global, schedule: &Schedule) -> Result<Vec<Step>, AllocError>
    ensures { IfOk result (λ steps. steps.items ≡ schedule.now.steps) }
{
    let mut steps = Vec::new(alloc);
    let lines = schedule.lines();
    for line in lines {
        add_steps(alloc, &mut steps, &line.entry)?;
    }
    Ok(steps)
}

/// What each line of the script asks for, if this is its schedule.
pub fn said_in(alloc: Global, script: &[u8], schedule: &Schedule) -> Result<Vec<Said>, AllocError>
    ensures { (is : List Item) → IsRead is (lines script.now) schedule.now → IfOk result (λ said. said.items ≡ map said_of_item is) }
{
    let all = all_steps(alloc, schedule)?;
    let all_numbers = schedule.numbers(alloc)?;
    let mut said = Vec::new(alloc);
    let mut steps = all.as_slice();
    let mut numbers = all_numbers.as_slice();
    let mut rest = script;
    let mut number = 1;
    while !rest.is_empty() {
        let (line, after) = first_line(rest);
        let goes = line_goes(line);
        let width = width(numbers, number);
        said.push(said_by(alloc, goes, width, steps)?)?;
        steps = rest_of(steps, width);
        numbers = rest_of(numbers, width);
        number += 1;
        rest = after;
    }
    Ok(said)
}
