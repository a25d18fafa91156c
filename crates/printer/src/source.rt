//! Where the steps of a run come from.

ghost use Rattle.std.specs.Prelude.{◌≡◌, ◌∷◌, [], map, IfOk, IfSome, IfNone};
ghost use Rattle.std.specs.List.{filter_map};
ghost use Rattle.schedules.specs.Schedule.{steps_of_entry};
ghost use Rattle.printer.specs.Paths.{path_begun, paths_in};

use crate::options::Options;
use driver::{Command, Entry, Schedule, Step};
use indexmap::IndexSet;
use std::alloc::{AllocError, Global};
use std::str;

/// The steps of a run, and their script.
#[derive(Clone, Copy)]
pub struct Source<'s> {
    /// The name of the script's file.
    pub name: &'s str,
    /// All bytes of the script.
    pub script: &'s [u8],
    pub schedule: &'s Schedule,
    /// The most turns of a line.
    pub turns: u32,
}

impl<'s> Source<'s> {
    /// The number of the line of this step, or 0 if there is no such line.
    pub fn line_of(&self, step: usize) -> usize {
        match self.schedule.line_at(step) {
            Some(line) => line.number,
            None => 0,
        }
    }

    /// The number of the last line.
    pub fn last_line(&self) -> usize {
        match self.schedule.lines().last() {
            Some(line) => line.number,
            None => 0,
        }
    }

    /// The command that begins with this step.
    pub fn command_at(&self, step: usize) -> Option<&'s Command> {
        let (_, command) = self.schedule.begun_at(step)?;
        Some(command)
    }
}

/// A line of a script, without its end.
#[derive(Clone, Copy)]
pub struct Line<'s> {
    text: &'s str,
}

/// The lines of a script, if something asks for them.
#[derive(Clone, Copy)]
pub struct Texts<'t, 's> {
    pub lines: &'t [Line<'s>],
}

impl<'t, 's> Texts<'t, 's> {
    /// The text of the line with this number, counted from 1.
    pub fn of(&self, number: usize) -> &'s str {
        match self.lines.get(number.saturating_sub(1)) {
            Some(line) => line.text,
            None => "",
        }
    }
}

/// The lines of a script, if the options ask for them.
pub fn lines_for(
    alloc: Global,
    options: Options,
    script: &[u8],
) -> Result<Vec<Line<'_>>, AllocError> {
    if !options.shows_lines() {
        return Ok(Vec::new(alloc));
    }
    lines_of(alloc, script)
}

/// The lines of a script, in their order. A line that is not text is empty here. No script with such a line can be
/// run.
fn lines_of(alloc: Global, script: &[u8]) -> Result<Vec<Line<'_>>, AllocError> {
    let mut lines = Vec::new(alloc);
    let mut rest = script;
    while !rest.is_empty() {
        let (line, after) = scripts::lines::first_line(rest);
        let text = str::from_utf8(line).unwrap_or("");
        lines.push(Line { text })?;
        rest = after;
    }
    Ok(lines)
}

/// The path of the group that the line makes, if it makes one.
fn path_made(entry: &Entry) -> Option<&str>
    ensures made { IfSome result (λ path. filter_map path_begun (steps_of_entry entry.now) ≡ path.now ∷ []) }
    ensures other { IfNone result (filter_map path_begun (steps_of_entry entry.now) ≡ []) }
{
    match entry {
        Entry::Whole(_, Command::Group(path)) | Entry::Step(Step::Begin(_, Command::Group(path))) =>
            Some(path.as_str()),
        _ => None,
    }
}

/// The paths of all groups that the steps make, each once, in the order in which they are first made.
pub fn paths_of(alloc: Global, schedule: &Schedule) -> Result<Vec<&str>, AllocError>
    ensures { IfOk result (λ paths. map (λ p. p.now) paths.items ≡ paths_in schedule.now.steps) }
{
    let mut known = IndexSet::new(alloc);
    let mut paths = Vec::new(alloc);
    for line in schedule.lines() {
        if let Some(path) = path_made(&line.entry) {
            if known.insert(path)? {
                paths.push(path)?;
            }
        }
    }
    Ok(paths)
}
