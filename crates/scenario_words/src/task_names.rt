//! Names of tasks.

ghost use Rattle.std.specs.Prelude.{◌≡◌, false, [], IfOk};
ghost use Rattle.std.specs.String.{string_bytes};
ghost use Rattle.scenarios.specs.Words.{is_quote};
ghost use Rattle.scenario_words.specs.declared.task_names.Place.TheVariants.{Before, Inside};
ghost use Rattle.scenario_words.specs.BracketReading.{reading, read_on, Reads, Adds};
ghost use Rattle.scenario_words.specs.Faults.{Gives};
ghost use Rattle.scenario_words.specs.TaskNames.{names_text, short_number, number_behind_point, range_of, index_of, is_task_name, names_by, if_name, indexed, only_one, task_names_in, task_name_in};
ghost use Rattle.scenario_words.specs.Words.{FilledWord};

use crate::fault::{Cause, ExpandError};
use crate::word::{Filled, is_language};
use std::alloc::{AllocError, Global};
use text_forms::number::long_number_of;

/// Which of those of a name.
#[derive(Clone, Copy, Debug, PartialEq, Eq)]
pub enum Index {
    /// The one of the name alone.
    Plain,
    /// The one of this number.
    One(u64),
    /// Those of the numbers from the first to the last.
    Range(u64, u64),
    /// All that there are.
    All,
}

/// A name, and which of its tasks.
#[derive(Drop)]
pub struct TaskNames {
    pub name: String,
    pub index: Index,
}

/// Where in a word a character is.
#[derive(Clone, Copy, Debug, PartialEq, Eq)]
enum Place {
    /// Before the brackets, if there are some.
    Before,
    Inside,
    Behind,
}

/// A name and what is in its brackets, while it is read.
#[derive(Drop)]
struct Brackets {
    name: String,
    inner: String,
    /// A quote is open.
    quoted: bool,
    place: Place,
}

impl Brackets {
    /// Adds a character that is no quote to the name, or begins the brackets, and says whether it is allowed there.
    fn add_before(&mut self, character: char) -> Result<bool, AllocError>
        requires place { self.old.place ≡ Before }
        requires no_quote { is_quote character ≡ false }
        ensures { IfOk result (λ fits. Adds (reading self.old) character (reading self.new) fits) }
    {
        if !self.quoted && character == '[' {
            self.place = Place::Inside;
            return Ok(true);
        }
        if !self.quoted && character == ']' {
            return Ok(false);
        }
        self.name.push(character)?;
        Ok(true)
    }

    /// Adds a character that is no quote to what is in the brackets, or ends them, and says whether it is allowed there.
    fn add_inside(&mut self, character: char) -> Result<bool, AllocError>
        requires place { self.old.place ≡ Inside }
        requires no_quote { is_quote character ≡ false }
        ensures { IfOk result (λ fits. Adds (reading self.old) character (reading self.new) fits) }
    {
        if !self.quoted && character == '[' {
            return Ok(false);
        }
        if !self.quoted && character == ']' {
            self.place = Place::Behind;
            return Ok(true);
        }
        self.inner.push(character)?;
        Ok(true)
    }

    /// Adds a character, and says whether it is allowed there.
    fn add(&mut self, character: char) -> Result<bool, AllocError>
        ensures { IfOk result (λ fits. Adds (reading self.old) character (reading self.new) fits) }
    {
        if character == '"' {
            self.quoted = !self.quoted;
            return Ok(true);
        }
        match self.place {
            Place::Before => self.add_before(character),
            Place::Inside => self.add_inside(character),
            Place::Behind => Ok(false),
        }
    }
}

/// The number of up to 10 digits.
fn short_number(digits: &str) -> Option<u64>
    ensures { result ≡ short_number digits.now }
{
    if digits.len() <= 10 {
        long_number_of(digits)
    } else {
        None
    }
}

/// The number after a second point.
fn number_behind_point(rest: &str) -> Option<u64>
    ensures { result ≡ number_behind_point rest.now }
{
    match rest.strip_prefix('.') {
        None => None,
        Some(digits) => short_number(digits),
    }
}

fn range_of(first: Option<u64>, last: Option<u64>) -> Option<Index>
    ensures { result ≡ range_of first last }
{
    let first = first?;
    let last = last?;
    if first <= last {
        Some(Index::Range(first, last))
    } else {
        None
    }
}

fn index_of(inner: &str) -> Option<Index>
    ensures { result ≡ index_of inner.now }
{
    if inner == "*" {
        return Some(Index::All);
    }
    match inner.split_once('.') {
        None => match short_number(inner) {
            None => None,
            Some(number) => Some(Index::One(number)),
        },
        Some((first, rest)) => range_of(short_number(first), number_behind_point(rest)),
    }
}

/// The name that a word is, and what is in its brackets.
fn brackets_of(alloc: Global, word: &Filled) -> Result<Brackets, ExpandError>
    ensures { Reads word.now result }
{
    let mut brackets = Brackets {
        name: String::new(alloc),
        inner: String::new(alloc),
        quoted: false,
        place: Place::Before,
    };
    for character in word.source().chars() {
        if !brackets.add(character)? {
            return Err(word.fault(Cause::Name));
        }
    }
    Ok(brackets)
}

/// What its brackets say; nothing, if they are not closed.
fn index_in(brackets: &Brackets) -> Option<Index>
    ensures { (w : FilledWord) → names_by w (read_on (reading brackets.now) []) ≡ indexed w (string_bytes brackets.now.name) result }
{
    match brackets.place {
        Place::Before => Some(Index::Plain),
        Place::Inside => None,
        Place::Behind => index_of(brackets.inner.as_str()),
    }
}

fn is_task_name(quoted: bool, name: &str) -> bool
    ensures { result ≡ is_task_name quoted name.now }
{
    !(name.is_empty() || (!quoted && is_language(name)))
}

/// A word has this name and this index.
fn named(word: &Filled, name: String, index: Index) -> Result<TaskNames, ExpandError>
    ensures { Gives names_text result (if_name word.now (string_bytes name) index) }
{
    if is_task_name(word.is_quoted(), name.as_str()) {
        Ok(TaskNames { name, index })
    } else {
        Err(word.fault(Cause::Name))
    }
}

/// The tasks that a word names: `NAME`, `NAME[I]`, `NAME[I..J]` or `NAME[*]`.
#[tactic(auto, unfolding(crate::specs::TaskNames::task_names_in))]
pub fn task_names(alloc: Global, word: &Filled) -> Result<TaskNames, ExpandError>
    ensures { Gives names_text result (task_names_in word.now) }
{
    let brackets = brackets_of(alloc, word)?;
    match index_in(&brackets) {
        None => Err(word.fault(Cause::Name)),
        Some(index) => named(word, brackets.name, index),
    }
}

fn only_one(word: &Filled, names: TaskNames) -> Result<TaskNames, ExpandError>
    ensures { Gives names_text result (only_one word.now (names_text names) names.index) }
{
    match names.index {
        Index::Plain => Ok(names),
        Index::One(_) => Ok(names),
        Index::Range(_, _) => Err(word.fault(Cause::Name)),
        Index::All => Err(word.fault(Cause::Name)),
    }
}

/// The one task that a word names: `NAME` or `NAME[I]`.
#[tactic(auto, unfolding(crate::specs::TaskNames::task_name_in))]
pub fn task_name(alloc: Global, word: &Filled) -> Result<TaskNames, ExpandError>
    ensures { Gives names_text result (task_name_in word.now) }
{
    let names = task_names(alloc, word)?;
    only_one(word, names)
}
