//! The words of the command line.

use crate::explore_args::{Exploration, exploration_of};
use crate::forms::{
    AS_LINUX, AUDIT, CSV, EXPLAIN, FORMS, HUMAN, LABELS, LINES, PAGES, PROGRESS, QUIET, SHOW,
    STRICT, SUMMARY, TURNS, UNBUFFERED,
};
use crate::options::{FILE, with_subcommands};
use crate::scenario_args::{Purpose, Scenario, lengths_of, scenario_of, wish_of};
use clap::error::ErrorKind;
use clap::{ArgMatches, Command, Error};
use machine::config::Placement;
use printer::{Amounts, Options};
use std::alloc::{AllocError, Global};

/// The program's version, and the logic in which it is proved, which `rt version` prints for a toolchain. What is
/// proved depends on the logic, and not on the toolchain's number. `docs/check_commands` compares the logic.
const VERSION: &str = "0.2.0 (logic dac8208d650f15bf)";

/// What the words ask for.
#[derive(Clone, Copy, Debug, PartialEq, Eq)]
pub enum Subcommand {
    /// Runs a script, one turn after another.
    Schedule,
    /// Runs a script on threads.
    Run,
    /// Runs a script, and draws or lists what its groups are charged with.
    Chart(ChartForm),
}

/// How `chart` shows what groups are charged with.
#[derive(Clone, Copy, Debug, PartialEq, Eq)]
pub enum ChartForm {
    Picture,
    Table,
}

/// What is asked for.
#[derive(Drop)]
pub enum Asked<'a> {
    /// To run a script. The paths are those whose groups are shown at the end of a run on threads. An empty path means
    /// all groups.
    Script(Request<'a>, Vec<&'a str>),
    /// To check the scripts of these paths.
    Check(Options, Vec<&'a str>),
    /// To list all outcomes of a script.
    Explore(Exploration<'a>),
    /// To expand or simulate a scenario.
    Scenario(Scenario<'a>),
}

/// A subcommand and the path of its script.
#[derive(Clone, Copy)]
pub struct Request<'a> {
    pub subcommand: Subcommand,
    pub file: &'a str,
    pub options: Options,
    /// Each answer is written as it comes, wherever the answers are written to.
    pub is_unbuffered: bool,
}

/// Why there is no request.
#[derive(Drop)]
pub enum Refused {
    /// The text for the user: the answer to a request for help or the version, or what is wrong, with a usage line. It
    /// knows itself which of the two it is.
    Text(Error),
    Memory,
}

impl From<Error> for Refused {
    fn from(error: Error) -> Refused {
        if error.kind() == ErrorKind::OutOfMemory {
            Refused::Memory
        } else {
            Refused::Text(error)
        }
    }
}

impl From<AllocError> for Refused {
    fn from(_error: AllocError) -> Refused {
        Refused::Memory
    }
}

pub fn placement_of(matches: &ArgMatches<'_>) -> Placement {
    if matches.get_flag(AS_LINUX) {
        Placement::Linux
    } else {
        Placement::Own
    }
}

/// How amounts are printed. The parser has taken one of the two options at most.
fn amounts_of(matches: &ArgMatches<'_>) -> Amounts {
    if matches.get_flag(HUMAN) {
        Amounts::Human
    } else if matches.get_flag(PAGES) {
        Amounts::Pages
    } else {
        Amounts::Bytes
    }
}

/// The most turns of a line. A machine needs less than 2^32 turns for any line, so that number is no limit.
fn turns_of(matches: &ArgMatches<'_>) -> u32 {
    match matches.get_one(TURNS) {
        None => Options::default().turns,
        Some(0) => u32::MAX,
        Some(turns) => turns,
    }
}

/// The options of a subcommand's words. Those that the subcommand does not have are not given.
fn options_of(matches: &ArgMatches<'_>) -> Options {
    Options {
        amounts: amounts_of(matches),
        audit: matches.get_flag(AUDIT),
        explain: matches.get_flag(EXPLAIN),
        labels: matches.get_flag(LABELS),
        lines: matches.get_flag(LINES),
        placement: placement_of(matches),
        progress: matches.get_flag(PROGRESS),
        quiet: matches.get_flag(QUIET),
        strict: matches.get_flag(STRICT),
        summary: matches.get_flag(SUMMARY),
        turns: turns_of(matches),
        ..Options::default()
    }
}

fn request_of<'a>(subcommand: Subcommand, matches: &ArgMatches<'a>) -> Request<'a> {
    Request {
        subcommand,
        file: matches.get_str(FILE).unwrap_or(""),
        options: options_of(matches),
        is_unbuffered: matches.get_flag(UNBUFFERED),
    }
}

/// What a chart's words ask for.
fn chart_of(matches: &ArgMatches<'_>) -> ChartForm {
    if matches.get_flag(CSV) {
        ChartForm::Table
    } else {
        ChartForm::Picture
    }
}

fn command<'a>(alloc: Global) -> Result<Command<'a>, AllocError> {
    let command = Command::new(alloc, "memcgrun")
        .about("Simulate the memory controller of Linux cgroup v2")
        .version(VERSION)
        .subcommand_required(true);
    with_subcommands(alloc, command, &FORMS)
}

/// Begins the line of a tip to name a script as an option is named. Scripts have no such names.
const NAMED_SO: &str = "  tip: to pass '";

/// The text for the user about words that ask for nothing, without such a tip.
pub fn text_about(alloc: Global, error: &Error) -> Result<String, AllocError> {
    let whole = format!(in alloc; "{error}")?;
    let mut text = String::new(alloc);
    let mut is_left_out = false;
    for line in whole.lines() {
        if line.starts_with(NAMED_SO) {
            is_left_out = true;
            continue;
        }
        // One of the blank lines around the tip is enough.
        if is_left_out && line.is_empty() && text.ends_with("\n\n") {
            continue;
        }
        text.push_str(line)?;
        text.push('\n')?;
    }
    Ok(text)
}

/// What is asked for by the words of a subcommand.
fn asked_of<'a>(
    alloc: Global,
    subcommand: &str,
    matches: &ArgMatches<'a>,
) -> Result<Asked<'a>, AllocError> {
    Ok(match subcommand {
        "check" => {
            let files = matches.get_strs(FILE).unwrap_or(&[]);
            Asked::Check(options_of(matches), Vec::from_slice(alloc, files)?)
        }
        "explore" => Asked::Explore(exploration_of(matches)),
        "simulate" => {
            let wish = wish_of(alloc, matches)?;
            Asked::Scenario(scenario_of(alloc, matches, Purpose::Simulate(wish))?)
        }
        "expand" => {
            let lengths = lengths_of(alloc, matches)?;
            Asked::Scenario(scenario_of(alloc, matches, Purpose::Expand(lengths))?)
        }
        "run" => {
            let shown = matches.get_strs(SHOW).unwrap_or(&[]);
            let shown = Vec::from_slice(alloc, shown)?;
            Asked::Script(request_of(Subcommand::Run, matches), shown)
        }
        "chart" => {
            let request = request_of(Subcommand::Chart(chart_of(matches)), matches);
            Asked::Script(request, Vec::new(alloc))
        }
        _ => {
            let request = request_of(Subcommand::Schedule, matches);
            Asked::Script(request, Vec::new(alloc))
        }
    })
}

/// Reads the words, the program's own name first. Words that ask for help or for the version are refused too. The text
/// is the help or the version then.
pub fn read_words<'a>(alloc: Global, words: &'a [String]) -> Result<Asked<'a>, Refused> {
    let matches = command(alloc)?.try_get_matches_from(words)?;
    // A subcommand and its FILE are required, so clap has found both.
    let asked = match matches.subcommand() {
        Some((subcommand, found)) => asked_of(alloc, subcommand, found)?,
        None => asked_of(alloc, "schedule", &matches)?,
    };
    Ok(asked)
}
