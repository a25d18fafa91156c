//! Why a scenario was not expanded or run to its end.

ghost use Rattle.std.specs.Prelude.{◌≡◌, ◌≢◌, Ok, Err, IsErr, IfOk, IfErr, OnOk, MatchResult};
ghost use Rattle.scenarios.specs.Scenario.{scenario_of};
ghost use Rattle.scenario_faults.specs.Failures.{failure_of, problem_of};
ghost use Rattle.scenario_words.specs.Faults.{text_error};
ghost use Rattle.scenario_faults.specs.declared.fault.Failure.TheVariants.{Faulty, Misasked};
ghost use Rattle.scenario_faults.specs.declared.fault.Problem.TheVariants.{Memory};

use crate::fault_text::fault_text;
use crate::written::{line_at, place_at, source_at};
use scenario_lines::scene::Scene;
use scenario_words::fault::{Cause, ExpandError, Fault};
use scenarios::fault::ReadError;
use scenarios::scenario::{Scenario, read};
use std::alloc::{AllocError, AllocFailed, Global};
use std::io;
use std::io::{ErrorKind, Write};

/// Why a scenario was not expanded or run to its end.
#[derive(Drop)]
pub enum Problem {
    /// Memory ran out.
    Memory,
    /// A word is faulty. The text is what is said of it, if it is known.
    Faulty(Fault, Option<String>),
    /// No `let` has the name that this option gives.
    Setting(&'static str, String),
    /// No group had this path.
    Group(String),
    /// So many more lengths were given than the scenario has lists with `until`.
    Lengths(usize),
    /// What is to be said could not be written.
    Unwritable(io::Error),
}

/// Why a scenario was not expanded or run to its end, for a caller.
#[derive(Clone, Copy, Debug, PartialEq, Eq)]
pub enum Failure {
    /// A word of the scenario is faulty.
    Faulty,
    /// What was asked for names nothing in the scenario.
    Misasked,
    /// Memory ran out.
    Memory,
    /// What is printed could not be written.
    Unwritable,
}

impl From<AllocError> for Problem {
    ghost from_gives = { λ _ problem. problem ≡ Memory };

    fn from(_: AllocError) -> Problem {
        Problem::Memory
    }
}

impl<T: Drop> From<AllocFailed<T>> for Problem {
    ghost from_gives = { λ _ problem. problem ≡ Memory };

    fn from(_: AllocFailed<T>) -> Problem {
        Problem::Memory
    }
}

impl From<io::Error> for Problem {
    fn from(error: io::Error) -> Problem {
        if error.kind() == ErrorKind::OutOfMemory {
            Problem::Memory
        } else {
            Problem::Unwritable(error)
        }
    }
}

impl From<ExpandError> for Problem {
    ghost from_gives = { λ error problem. problem ≡ problem_of error };

    fn from(error: ExpandError) -> Problem {
        match error {
            ExpandError::Memory => Problem::Memory,
            ExpandError::Faulty(fault) => Problem::Faulty(fault, None),
        }
    }
}

impl From<ReadError> for Problem {
    ghost from_gives = { λ error problem. problem ≡ problem_of (text_error error) };

    fn from(error: ReadError) -> Problem {
        Problem::from(ExpandError::from(error))
    }
}

/// What is wrong, in words that need nothing but the cause.
pub fn text_of(cause: Cause) -> &'static str {
    match cause {
        Cause::NotText => "the line is not UTF-8",
        Cause::OpenQuote => "a quote is not closed",
        Cause::EndAlone => "no block is open",
        Cause::NoEnd => "this block has no end",
        Cause::Missing => "a word is missing",
        Cause::TooMany => "one word too many",
        Cause::Brace => "a brace that belongs to no {NAME}",
        Cause::Unknown => "nothing has this name here",
        Cause::NotExpected => "not expected here",
        Cause::NoLine => "no line begins with this word",
        Cause::Number => "not a number, or out of its bounds",
        Cause::Size => "not a size",
        Cause::SizeBounds => "this size is out of its bounds",
        Cause::Part => "not a part; write FROM..TO, as 0..5M",
        Cause::EmptyPart => "an empty part",
        Cause::PastEnd => "there are not so many pages; take a larger page, or more tasks",
        Cause::NotSoMany => "the task has not so many pages",
        Cause::Path => "not a path; write one like /a/b",
        Cause::GroupThere => "the group is already there",
        Cause::NoGroup => "there is no such group",
        Cause::GroupsBelow => "there are groups below it",
        Cause::Root => "not allowed for the root group",
        Cause::Name => "not a name",
        Cause::TaskThere => "there is already a task of this name",
        Cause::NoTask => "there is no such task",
        Cause::TooManyTasks => "more tasks than there can be",
        Cause::FileThere => "there is already a file of this name",
        Cause::NoFile => "there is no such file",
        Cause::TooManyFiles => "more files than there can be",
        Cause::Again => "the header already has this line",
        Cause::HeaderBelow => "the header comes before all other lines",
        Cause::Watermarks => "the watermarks are not in order, or above the memory",
        Cause::Together => "not allowed inside together",
        Cause::Until => "no until inside together or another until",
        Cause::NothingAbove => "no line that could be refused is right above",
        Cause::Raw => "not a line of a script",
    }
}

/// The word at the place of a fault, as it is written.
fn word_at<'p>(scenario: Option<&'p Scenario>, fault: Fault) -> Option<&'p str> {
    let line = line_at(scenario?, fault.line)?;
    Some(source_at(line, place_at(line, fault.column)?))
}

/// The problem of an expansion, with what is said of its fault. `scene` is what the lines before the fault say. Without
/// one, it is a fault of the header.
pub fn problem_of(
    alloc: Global,
    scenario: &Scenario,
    settings: &[&str],
    scene: Option<&Scene>,
    error: ExpandError,
) -> Problem
    ensures { failure_of result ≡ failure_of (problem_of error) }
{
    match error {
        ExpandError::Memory => Problem::Memory,
        ExpandError::Faulty(fault) => {
            let text = fault_text(alloc, scenario, settings, scene, fault);
            Problem::Faulty(fault, text.ok())
        }
    }
}

/// Reads the lines of the scenario with this name. After a fault `err` gets a line that says what is wrong.
pub fn read_scenario<E: Write>(
    alloc: Global,
    name: &str,
    text: &[u8],
    err: &mut E,
) -> Result<Scenario, Failure>
    // `err` gets nothing but a fault.
    ensures silent { OnOk result (E.contents err.new ≡ E.contents err.old) }
    // A text with a fault is no scenario.
    ensures reads { IfOk result (λ scenario. scenario_of text.now ≡ Ok scenario.lines.items) }
    ensures faulty { IfErr result (λ why. why ≡ Faulty → IsErr (scenario_of text.now)) }
    ensures asked { IfErr result (λ why. why ≢ Misasked) }
{
    match read(alloc, text) {
        Ok(scenario) => Ok(scenario),
        Err(error) => {
            let problem = Problem::from(error);
            problem.report(name, None, err);
            Err(problem.failure())
        }
    }
}

/// The result of a run of the scenario with this name. After a problem `err` gets a line that says what it is.
pub fn reported<T: Drop, E: Write>(
    ran: Result<T, Problem>,
    name: &str,
    scenario: &Scenario,
    err: &mut E,
) -> Result<T, Failure>
    // `err` gets nothing but a problem.
    ensures silent { OnOk result (E.contents err.new ≡ E.contents err.old) }
    ensures same { MatchResult ran (λ value. result ≡ Ok value) (λ problem. result ≡ Err (failure_of problem)) }
{
    match ran {
        Ok(value) => Ok(value),
        Err(problem) => {
            problem.report(name, Some(scenario), err);
            Err(problem.failure())
        }
    }
}

/// A name and the word that a run had for it.
pub type Given<'a> = (&'a str, &'a str);

/// Ends a line, with the word that the run had.
fn write_end<E: Write>(given: Option<Given<'_>>, err: &mut E) -> io::Result<()> {
    match given {
        None => writeln!(err, ""),
        Some((name, word)) => writeln!(err, " ({name}={word})"),
    }
}

/// Writes the word of a fault, if the scenario has it there, and what is wrong.
fn write_cause<E: Write>(scenario: Option<&Scenario>, fault: Fault, err: &mut E) -> io::Result<()> {
    if let Some(word) = word_at(scenario, fault) {
        write!(err, "{word}: ")?;
    }
    write!(err, "{}", text_of(fault.cause))
}

/// Writes the place of a fault, and what is said of it.
fn write_fault<E: Write>(
    name: &str,
    scenario: Option<&Scenario>,
    fault: Fault,
    text: &Option<String>,
    err: &mut E,
) -> io::Result<()> {
    write!(err, "{name}:{}:{}: ", fault.line, fault.column)?;
    match text {
        Some(text) => write!(err, "{text}"),
        None => write_cause(scenario, fault, err),
    }
}

impl Problem {
    /// Its kind, for a caller.
    pub fn failure(&self) -> Failure
        ensures { result ≡ failure_of self.now }
    {
        match self {
            Problem::Memory => Failure::Memory,
            Problem::Faulty(_, _) => Failure::Faulty,
            Problem::Setting(_, _) | Problem::Group(_) | Problem::Lengths(_) => Failure::Misasked,
            Problem::Unwritable(_) => Failure::Unwritable,
        }
    }

    /// Writes what the problem is.
    fn write_text<E: Write>(
        &self,
        name: &str,
        scenario: Option<&Scenario>,
        err: &mut E,
    ) -> io::Result<()> {
        match self {
            Problem::Memory => write!(err, "{name}: out of memory"),
            Problem::Setting(option, word) => {
                write!(err, "{name}: {option} {word}: no let has this name")
            }
            Problem::Group(path) => write!(err, "{name}: --groups {path}: no group has this path"),
            Problem::Lengths(more) => write!(
                err,
                "{name}: --cuts: {more} more lengths than the scenario has lists with until"
            ),
            Problem::Unwritable(error) => write!(err, "the answers can't be written: {error}"),
            Problem::Faulty(fault, text) => write_fault(name, scenario, *fault, text, err),
        }
    }

    /// Writes the line of the problem. A broken pipe has no line.
    fn write<E: Write>(
        &self,
        name: &str,
        scenario: Option<&Scenario>,
        given: Option<Given<'_>>,
        err: &mut E,
    ) -> io::Result<()> {
        if let Problem::Unwritable(error) = self {
            if error.kind() == ErrorKind::BrokenPipe {
                return Ok(());
            }
        }
        self.write_text(name, scenario, err)?;
        write_end(given, err)
    }

    /// Writes a line that says what the problem is. The status is reported even if the line can't be written.
    pub fn report<E: Write>(&self, name: &str, scenario: Option<&Scenario>, err: &mut E) {
        let _ = self.write(name, scenario, None, err);
    }

    /// The same, for a run with this word for a name.
    pub fn report_with<E: Write>(
        &self,
        name: &str,
        scenario: Option<&Scenario>,
        given: Given<'_>,
        err: &mut E,
    ) {
        let _ = self.write(name, scenario, Some(given), err);
    }
}
