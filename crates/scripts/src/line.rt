//! What a line says, or its first fault.

ghost use Rattle.std.specs.Prelude.{◌≡◌};
ghost use Rattle.std.specs.Option.{option_map};
ghost use Rattle.scripts.specs.declared.forms.Manner.TheVariants.{Begun};
ghost use Rattle.scripts.specs.Words.{words_of};
ghost use Rattle.scripts.specs.Context.{around};
ghost use Rattle.scripts.specs.Faults.{now, first_of, named_faults, task_faults, bare_faults, line_faults, fault};
ghost use Rattle.scripts.specs.Meaning.{named_means, task_means, bare_means, only_begun, meaning};
ghost use Rattle.scripts.specs.Lines.{Reads, as_it_stands, IsHead};

use crate::check::fault_of_word;
use crate::context::Context;
use crate::fault::{Cause, LineError};
use crate::forms::{Manner, Speaker, Word, takes_line, word_named};
use crate::lines::as_text;
use crate::meaning::{Item, item_of_word};
use crate::words::{Token, Words, add_words};
use std::alloc::Global;

/// What the first words of a line say of it, before any later word is looked at.
#[derive(Clone, Copy)]
enum Head<'w, 't> {
    /// The line is skipped.
    Nothing,
    /// It ends before the word that says what it does.
    Missing,
    /// How the line is written, the task's number before the word, the word if there is one of this name, and what
    /// follows it.
    Word(Manner, Option<&'w Token<'t>>, Option<Word>, &'w [Token<'t>]),
}

/// The head of a line that begins with a task's number.
fn head_of_task<'w, 't>(manner: Manner, task: &'w Token<'t>, words: &'w [Token<'t>]) -> Head<'w, 't>
    ensures { IsHead result (λ mode around. task_faults mode around manner task.now words.now) (λ files. as_it_stands manner (task_means files task.now words.now)) }
{
    match words.split_first() {
        Some((first, arguments)) => {
            let word = word_named(Speaker::Task, first.text());
            Head::Word(manner, Some(task), word, arguments)
        }
        None => Head::Missing,
    }
}

/// The head of the words after `begin`.
fn head_of_begun<'w, 't>(words: &'w [Token<'t>]) -> Head<'w, 't>
    ensures { IsHead result (λ mode around. bare_faults mode around Begun words.now) (λ files. only_begun (bare_means files words.now)) }
{
    let Some((first, more)) = words.split_first() else {
        return Head::Missing;
    };
    if first.is_digits() {
        return head_of_task(Manner::Begun, first, more);
    }
    let word = word_named(Speaker::Shell, first.text());
    Head::Word(Manner::Begun, None, word, more)
}

#[tactic(auto, using(crate::proofs::NumeralLemmas::no_line))]
fn head_of<'w, 't>(words: &'w [Token<'t>]) -> Head<'w, 't>
    ensures { IsHead result (λ mode around. line_faults mode around words.now) (λ files. meaning files words.now) }
{
    let Some((first, more)) = words.split_first() else {
        return Head::Nothing;
    };
    if first.text().starts_with('#') {
        return Head::Nothing;
    }
    // Most lines are a task's. They begin with a number, which is not looked up as a word.
    if first.is_digits() {
        return head_of_task(Manner::Whole, first, more);
    }
    let word = word_named(Speaker::Shell, first.text());
    if takes_line(word) {
        return head_of_begun(more);
    }
    Head::Word(Manner::Whole, None, word, more)
}

fn read_named(
    alloc: Global,
    context: &Context,
    manner: Manner,
    task: Option<&Token<'_>>,
    word: Option<Word>,
    arguments: &[Token<'_>],
) -> Result<Item, LineError>
    ensures { Reads result
        (first_of (named_faults context.now.mode (around context.now) manner (option_map now task.entry) word arguments.now))
        (as_it_stands manner (named_means (around context.now).config.files (option_map now task.entry) word arguments.now)) }
{
    let Some(word) = word else {
        return Err(LineError::Fault(Cause::UnknownWord));
    };
    if let Some(cause) = fault_of_word(context, manner, task, word, arguments) {
        return Err(LineError::Fault(cause));
    }
    let files = context.config.files.as_slice();
    item_of_word(alloc, files, manner, task, word, arguments)
}

fn read_words(alloc: Global, context: &Context, words: &[Token<'_>]) -> Result<Item, LineError>
    ensures { Reads result
        (first_of (line_faults context.now.mode (around context.now) words.now))
        (meaning (around context.now).config.files words.now) }
{
    match head_of(words) {
        Head::Nothing => Ok(Item::Nothing),
        Head::Missing => Err(LineError::Fault(Cause::MissingArgument)),
        Head::Word(manner, task, word, arguments) => {
            read_named(alloc, context, manner, task, word, arguments)
        }
    }
}

/// What a line says, in the context of the other lines.
pub fn read_line(alloc: Global, context: &Context, line: &[u8]) -> Result<Item, LineError>
    ensures { Reads result (fault context.now.mode (around context.now) line.now) (meaning (around context.now).config.files (words_of line.now)) }
{
    let Some(text) = as_text(line) else {
        return Err(LineError::Fault(Cause::NotText));
    };
    let mut words = Words::new();
    add_words(&mut words, text);
    read_words(alloc, context, words.as_slice())
}
