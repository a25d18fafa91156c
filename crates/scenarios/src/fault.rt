//! Why a scenario could not be read.

ghost use Rattle.std.specs.Prelude.{◌≡◌};
ghost use Rattle.scenarios.specs.declared.fault.ReadError.TheVariants.{Memory};

use std::alloc::{AllocError, AllocFailed};
use std::fmt;
use thiserror::Error;

/// What is wrong with a line.
#[derive(Clone, Copy, Debug, PartialEq, Eq)]
pub enum Cause {
    /// The line is not UTF-8.
    NotText,
    /// A quote has no second one in its line.
    OpenQuote,
    /// An `end` while no block is open.
    EndAlone,
    /// A word follows `end`.
    BehindEnd,
    /// A block has no `end`.
    NoEnd,
}

/// What is wrong, then what to do.
impl fmt::Display for Cause {
    ghost use Rattle.std.specs.Prelude.{Some};
    ghost use Rattle.scenarios.specs.FaultTexts.{cause_text};

    ghost output = { λ c. Some (cause_text c) };

    fn fmt<W: fmt::Write>(&self, f: &mut fmt::Formatter<W>) -> fmt::Result {
        f.write_str(match self {
            Cause::NotText => "the line is not UTF-8; save the file as UTF-8",
            Cause::OpenQuote => "a quote is not closed; write the second quote on this line",
            Cause::EndAlone => "no block is open here; remove this \"end\"",
            Cause::BehindEnd => "nothing may follow \"end\"; remove this word",
            Cause::NoEnd => "the block has no end; write \"end\" below its last line",
        })
    }
}

/// A faulty line, by its number, from 1, with the column of the word that is wrong, in characters from 1.
#[derive(Clone, Copy, Debug, PartialEq, Eq)]
pub struct Fault {
    pub line: usize,
    pub column: usize,
    pub cause: Cause,
}

impl Fault {
    /// The line to print, for a file of this name.
    pub fn text<'a>(self, file: &'a str) -> FaultText<'a>
        ensures file { result.file.now ≡ file.now }
        ensures fault { result.fault ≡ self }
    {
        FaultText { file, fault: self }
    }
}

/// The line to print for a fault, without its line feed.
#[derive(Clone, Copy)]
pub struct FaultText<'a> {
    pub file: &'a str,
    pub fault: Fault,
}

impl fmt::Display for FaultText<'_> {
    ghost use Rattle.std.specs.Prelude.{Some};
    ghost use Rattle.scenarios.specs.FaultTexts.{fault_text};

    ghost output = { λ t. Some (fault_text t.file.now t.fault) };

    fn fmt<W: fmt::Write>(&self, f: &mut fmt::Formatter<W>) -> fmt::Result {
        let Fault {
            line,
            column,
            cause,
        } = self.fault;
        write!(f, "{}:{line}:{column}: {cause}", self.file)
    }
}

/// Why a scenario could not be read.
#[derive(Clone, Copy, Debug, PartialEq, Eq, Error)]
pub enum ReadError {
    #[error("out of memory")]
    Memory,
    #[error("{}", .0.text("scenario"))]
    Faulty(Fault),
}

impl From<AllocError> for ReadError {
    ghost from_gives = { λ _ e. e ≡ Memory };

    fn from(_e: AllocError) -> ReadError {
        ReadError::Memory
    }
}

impl<T: Drop> From<AllocFailed<T>> for ReadError {
    ghost from_gives = { λ _ e. e ≡ Memory };

    fn from(_e: AllocFailed<T>) -> ReadError {
        ReadError::Memory
    }
}
