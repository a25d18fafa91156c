//! The words of `simulate` and `expand`.

use crate::forms::{CHART, CSV, CUTS, DEPTH, EVERY, GO_ON, GROUPS, JSON, SET, VARY};
use crate::options::FILE;
use clap::ArgMatches;
use scenario_reports::asked::Prints;
use std::alloc::{AllocError, Global};

/// A scenario, and what to do with it.
#[derive(Drop)]
pub struct Scenario<'a> {
    pub file: &'a str,
    /// Texts `NAME=WORD`.
    pub settings: Vec<&'a str>,
    pub purpose: Purpose<'a>,
}

/// What is done with a scenario.
#[derive(Drop)]
pub enum Purpose<'a> {
    /// Its script is printed, with these lengths of lists with `until`.
    Expand(Vec<u64>),
    /// It is run.
    Simulate(Wish<'a>),
}

/// What is wished of a scenario's run.
#[derive(Drop)]
pub struct Wish<'a> {
    /// The run goes on after a line that is refused.
    pub go_on: bool,
    pub prints: Prints,
    /// Each row of this number is printed.
    pub every: u32,
    /// The paths of the groups that rows are of.
    pub groups: Vec<&'a str>,
    /// How many levels below the root those groups are, at most.
    pub depth: Option<u32>,
    /// A text `NAME=VALUES`. The scenario is run once for each value.
    pub vary: Option<&'a str>,
}

/// The scenario that is asked for.
pub fn scenario_of<'a>(
    alloc: Global,
    matches: &ArgMatches<'a>,
    purpose: Purpose<'a>,
) -> Result<Scenario<'a>, AllocError> {
    let settings = matches.get_strs(SET).unwrap_or(&[]);
    Ok(Scenario {
        file: matches.get_str(FILE).unwrap_or(""),
        settings: Vec::from_slice(alloc, settings)?,
        purpose,
    })
}

/// What is wished of a scenario's run.
pub fn wish_of<'a>(alloc: Global, matches: &ArgMatches<'a>) -> Result<Wish<'a>, AllocError> {
    let groups = matches.get_strs(GROUPS).unwrap_or(&[]);
    Ok(Wish {
        go_on: matches.get_flag(GO_ON),
        prints: prints_of(matches),
        every: matches.get_one(EVERY).unwrap_or(1),
        groups: Vec::from_slice(alloc, groups)?,
        depth: matches.get_one(DEPTH),
        vary: matches.get_str(VARY),
    })
}

/// What `simulate` prints.
fn prints_of(matches: &ArgMatches<'_>) -> Prints {
    if matches.get_flag(CHART) {
        Prints::Chart
    } else if matches.get_flag(CSV) {
        Prints::Csv
    } else if matches.get_flag(JSON) {
        Prints::Json
    } else {
        Prints::Report
    }
}

/// The lengths of lists with `until`.
pub fn lengths_of(alloc: Global, matches: &ArgMatches<'_>) -> Result<Vec<u64>, AllocError> {
    let mut lengths = Vec::new(alloc);
    for text in matches.get_strs(CUTS).unwrap_or(&[]) {
        // The parser has taken numbers only.
        lengths.push(text.parse().unwrap_or(0))?;
    }
    Ok(lengths)
}
