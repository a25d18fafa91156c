//! What is wrong with a scenario, and where.

ghost use Rattle.std.specs.Prelude.{◌≡◌};
ghost use Rattle.scenario_words.specs.declared.fault.ExpandError.TheVariants.{Memory, Faulty};
ghost use Rattle.scenario_words.specs.Faults.{text_cause, text_error};

use scenarios::fault::{Cause as TextCause, ReadError};
use std::alloc::{AllocError, AllocFailed};

/// What is wrong at a word.
#[derive(Clone, Copy, Debug, PartialEq, Eq)]
pub enum Cause {
    /// The line is not UTF-8.
    NotText,
    /// A quote has no second one in its line.
    OpenQuote,
    /// No block is open.
    EndAlone,
    /// The block has no `end`.
    NoEnd,
    /// A word is missing after the last one.
    Missing,
    /// One word too many.
    TooMany,
    /// A brace belongs to no `{NAME}`.
    Brace,
    /// Nothing is named so here.
    Unknown,
    /// Another word of the language is expected here.
    NotExpected,
    /// No line begins with this word.
    NoLine,
    /// Not a number, or one that is out of its bounds.
    Number,
    /// Not a size.
    Size,
    /// A size that is out of its bounds.
    SizeBounds,
    /// Not a part, as `0..5M`.
    Part,
    /// A part without a page.
    EmptyPart,
    /// A page after the last one that there can be.
    PastEnd,
    /// More pages than the task has.
    NotSoMany,
    /// Not a path.
    Path,
    /// The group is there.
    GroupThere,
    /// There is no such group.
    NoGroup,
    /// The group has others below it.
    GroupsBelow,
    /// Not for the root.
    Root,
    /// Not a name.
    Name,
    /// There is a task of this name.
    TaskThere,
    /// There is no task of this name.
    NoTask,
    /// More tasks than there can be.
    TooManyTasks,
    /// There is a file of this name.
    FileThere,
    /// There is no such file.
    NoFile,
    /// More files than there can be.
    TooManyFiles,
    /// The header has this line already.
    Again,
    /// The header comes before all other lines.
    HeaderBelow,
    /// The watermarks are not in order, or above the memory.
    Watermarks,
    /// This is not allowed inside of `together`.
    Together,
    /// An `until` inside of another, or of `together`.
    Until,
    /// No line that could be refused is right above.
    NothingAbove,
    /// Not a line of a script.
    Raw,
}

/// A faulty word: its line and its column, from 1, and what is wrong.
#[derive(Clone, Copy, Debug, PartialEq, Eq)]
pub struct Fault {
    pub line: usize,
    pub column: usize,
    pub cause: Cause,
}

/// Why a scenario could not be expanded.
#[derive(Clone, Copy, Debug, PartialEq, Eq)]
pub enum ExpandError {
    Memory,
    Faulty(Fault),
}

impl From<AllocError> for ExpandError {
    ghost from_gives = { λ _ e. e ≡ Memory };

    fn from(_e: AllocError) -> ExpandError {
        ExpandError::Memory
    }
}

impl<T: Drop> From<AllocFailed<T>> for ExpandError {
    ghost from_gives = { λ _ e. e ≡ Memory };

    fn from(_e: AllocFailed<T>) -> ExpandError {
        ExpandError::Memory
    }
}

/// A fault of the text, as one of the expansion.
impl From<ReadError> for ExpandError {
    ghost from_gives = { λ error e. e ≡ text_error error };

    fn from(error: ReadError) -> ExpandError {
        match error {
            ReadError::Memory => ExpandError::Memory,
            ReadError::Faulty(fault) => fault_at(fault.line, fault.column, text_cause(fault.cause)),
        }
    }
}

fn text_cause(cause: TextCause) -> Cause
    ensures { result ≡ text_cause cause }
{
    match cause {
        TextCause::NotText => Cause::NotText,
        TextCause::OpenQuote => Cause::OpenQuote,
        TextCause::EndAlone => Cause::EndAlone,
        TextCause::BehindEnd => Cause::TooMany,
        TextCause::NoEnd => Cause::NoEnd,
    }
}

/// This is wrong there.
pub fn fault_at(line: usize, column: usize, cause: Cause) -> ExpandError
    ensures { result ≡ Faulty (record { line = line; column = column; cause = cause }) }
{
    ExpandError::Faulty(Fault {
        line,
        column,
        cause,
    })
}
