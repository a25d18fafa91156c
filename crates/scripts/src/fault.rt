//! Why a script could not be read.

ghost use Rattle.std.specs.Prelude.{◌≡◌};
ghost use Rattle.scripts.specs.declared.fault.LineError.TheVariants.{Memory};

use std::alloc::{AllocError, AllocFailed};
use std::fmt;
use thiserror::Error;

/// What is wrong with a line. If there are several causes, it is the first of them in this order.
#[derive(Clone, Copy, Debug, PartialEq, Eq)]
pub enum Cause {
    /// The line is not UTF-8.
    NotText,
    /// No line begins with the word, or none has it after a task's number or after `begin`. Or a word that has to be an
    /// actor, or a call of the device, is not one.
    UnknownWord,
    /// Fewer words than the first word of the line requires.
    MissingArgument,
    /// More words than the first word of the line allows.
    ExtraArgument,
    /// A number has a character that is not a decimal digit, or is out of its limits.
    BadNumber,
    /// A page size is not an amount that a page may stand for.
    BadPageSize,
    /// A path of a group, or a name of a file, is not valid.
    BadName,
    /// A line of the header comes after one that is not.
    HeaderAfterCommands,
    /// A word that comes at most once came before, or a file with this name did.
    HeaderTwice,
    /// The most files that there can be came before.
    TooManyFiles,
    /// With this line, swap and the files ask for more blocks than there can be.
    TooManyBlocks,
    /// The script is read to be run on threads, and the line is only for a schedule.
    OnlyInSchedule,
}

/// The words that are printed.
impl fmt::Display for Cause {
    ghost use Rattle.std.specs.Prelude.{Some};
    ghost use Rattle.scripts.specs.FaultTexts.{cause_text};

    ghost output = { λ c. Some (cause_text c) };

    fn fmt<W: fmt::Write>(&self, f: &mut fmt::Formatter<W>) -> fmt::Result {
        f.write_str(match self {
            Cause::NotText => "not text",
            Cause::UnknownWord => "unknown word",
            Cause::MissingArgument => "missing argument",
            Cause::ExtraArgument => "extra argument",
            Cause::BadNumber => "bad number",
            Cause::BadPageSize => "bad page size",
            Cause::BadName => "bad name",
            Cause::HeaderAfterCommands => "header after commands",
            Cause::HeaderTwice => "header twice",
            Cause::TooManyFiles => "too many files",
            Cause::TooManyBlocks => "too many blocks",
            Cause::OnlyInSchedule => "only in schedule",
        })
    }
}

/// Why a line could not be read.
#[derive(Drop)]
pub enum LineError {
    Memory,
    Fault(Cause),
}

impl From<AllocError> for LineError {
    ghost from_gives = { λ _ e. e ≡ Memory };

    fn from(_e: AllocError) -> LineError {
        LineError::Memory
    }
}

impl<T: Drop> From<AllocFailed<T>> for LineError {
    ghost from_gives = { λ _ e. e ≡ Memory };

    fn from(_e: AllocFailed<T>) -> LineError {
        LineError::Memory
    }
}

/// Why a script could not be read.
#[derive(Clone, Copy, Debug, Error)]
#[error("{}", self.text())]
pub enum ScriptFault {
    /// The first faulty line, counted from 1, and what is wrong with it.
    At { line: usize, cause: Cause },
    /// There was no memory for what the script says.
    Memory,
}

impl ScriptFault {
    /// The line that is printed, without its end.
    pub fn text(self) -> FaultText
        ensures { result.fault ≡ self }
    {
        FaultText { fault: self }
    }
}

/// The text of a fault. Its bytes are known, unlike those of a derived message.
#[derive(Clone, Copy)]
pub struct FaultText {
    pub fault: ScriptFault,
}

impl fmt::Display for FaultText {
    ghost use Rattle.std.specs.Prelude.{Some};
    ghost use Rattle.scripts.specs.FaultTexts.{fault_text};

    ghost output = { λ t. Some (fault_text t.fault) };

    fn fmt<W: fmt::Write>(&self, f: &mut fmt::Formatter<W>) -> fmt::Result {
        match self.fault {
            ScriptFault::At { line, cause } => write!(f, "line {line}: {cause}"),
            ScriptFault::Memory => f.write_str("out of memory"),
        }
    }
}
