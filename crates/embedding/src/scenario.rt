//! Scenarios: their runs, and their scripts.

ghost use Rattle.std.specs.Prelude.{◌≡◌, ◌≢◌, ◌⊎◌, ◌≤◌, [], map, IsUtf8, IsOk, IfOk, IfErr, OnOk, OnErr};
ghost use Rattle.std.specs.Str.Lines.{lines};
ghost use Rattle.scenarios.specs.Scenario.{scenario_of};
ghost use Rattle.scenario_reports.specs.Faulty.{IsFaulty};
ghost use Rattle.call_buffers.specs.declared.status.TheConstants.{OK, BAD_SCRIPT, NO_MEMORY, DIFFERS, BAD_OPTIONS};
ghost use Rattle.embedding.specs.Scenarios.{filled_lines};
ghost use Rattle.embedding.specs.declared.scenario.Misuse.TheVariants.{Memory};

use call_buffers::Said;
use call_buffers::status::{BAD_OPTIONS, BAD_SCRIPT, DIFFERS, NO_MEMORY, OK};
use simulation::{Asked, Failure, Prints, is_setting, try_expand, try_simulate};
use std::alloc::{AllocError, Global};
use std::io::Write;
use std::str;

/// The name that is used for the scenario's file.
const NAME: &str = "scenario";

/// What a caller asks of the run of a scenario, by the program's options of these names.
#[repr(C)]
#[derive(Clone, Copy)]
pub struct ScenarioAsked {
    /// What is printed: 1 is the picture, 2 the comma-separated values, 3 the JSON, and any other number the report.
    pub prints: u32,
    /// Each row of this number is printed; 0 means 1.
    pub every: u32,
    /// Rows are of groups at most this many levels below the root; 0 means any.
    pub depth: u32,
    /// The run goes on after a line that is refused.
    pub go_on: bool,
}

/// Why options are not taken.
#[derive(Clone, Copy)]
enum Misuse {
    Memory,
    /// The text of settings is not UTF-8.
    SettingsNotText,
    /// The text of paths is not UTF-8.
    GroupsNotText,
    /// The setting of this number, counted from 1, is not `NAME=WORD`.
    NotSetting(usize),
}

impl From<AllocError> for Misuse {
    ghost from_gives = { λ _ why. why ≡ Memory };

    fn from(_: AllocError) -> Misuse {
        Misuse::Memory
    }
}

fn lines_of<'a>(alloc: Global, text: &'a str) -> Result<Vec<&'a str>, AllocError>
    ensures { IfOk result (λ all. map (λ l. l.now) all.items ≡ lines text.now) }
{
    text.lines().collect(alloc)
}

/// The lines of a text that are not empty.
fn filled_lines<'a>(alloc: Global, text: &'a str) -> Result<Vec<&'a str>, AllocError>
    ensures { IfOk result (λ filled. map (λ l. l.now) filled.items ≡ filled_lines text.now) }
{
    let all = lines_of(alloc, text)?;
    let mut filled = Vec::new(alloc);
    for line in &all {
        if !line.is_empty() {
            filled.push(*line)?;
        }
    }
    Ok(filled)
}

/// Reads texts `NAME=WORD`, one a line.
fn read_settings<'a>(alloc: Global, bytes: &'a [u8]) -> Result<Vec<&'a str>, Misuse>
    ensures texts { OnOk result (IsUtf8 bytes.now) }
    ensures settings { IfOk result (λ settings. map (λ l. l.now) settings.items ≡ filled_lines bytes.now) }
    ensures misused { IfErr result (λ why. why ≢ Misuse.Memory → bytes.now ≢ []) }
{
    let Ok(text) = str::from_utf8(bytes) else {
        return Err(Misuse::SettingsNotText);
    };
    let settings = filled_lines(alloc, text)?;
    for (place, setting) in settings.iter().enumerate() {
        if !is_setting(setting) {
            return Err(Misuse::NotSetting(place.saturating_add(1)));
        }
    }
    Ok(settings)
}

/// Reads paths, one a line.
fn read_groups<'a>(alloc: Global, bytes: &'a [u8]) -> Result<Vec<&'a str>, Misuse>
    ensures texts { OnOk result (IsUtf8 bytes.now) }
    ensures groups { IfOk result (λ groups. map (λ l. l.now) groups.items ≡ filled_lines bytes.now) }
    ensures misused { IfErr result (λ why. why ≢ Misuse.Memory → bytes.now ≢ []) }
{
    let Ok(text) = str::from_utf8(bytes) else {
        return Err(Misuse::GroupsNotText);
    };
    Ok(filled_lines(alloc, text)?)
}

/// Adds the line that says why options are not taken, and returns the status.
fn refuse(why: Misuse, said: &mut Said) -> u8
    ensures known { (result ≡ NO_MEMORY) ⊎ (result ≡ BAD_OPTIONS) }
    ensures misused { result ≡ BAD_OPTIONS → why ≢ Misuse.Memory }
{
    let written = match why {
        Misuse::Memory => return NO_MEMORY,
        Misuse::SettingsNotText => writeln!(said, "options: settings is not UTF-8"),
        Misuse::GroupsNotText => writeln!(said, "options: groups is not UTF-8"),
        Misuse::NotSetting(number) => {
            writeln!(said, "options: settings: text {number} is not NAME=WORD")
        }
    };
    match written {
        Ok(()) => BAD_OPTIONS,
        Err(_) => NO_MEMORY,
    }
}

/// The status of a failure. If its line could not be kept, the status says so.
fn status_of(failure: Failure, said: &Said) -> u8
    ensures known { (result ≤ NO_MEMORY) ⊎ (result ≡ BAD_OPTIONS) }
    ensures failed { result ≢ OK }
    ensures faulty { result ≡ BAD_SCRIPT → failure ≡ Failure.Faulty }
    ensures misasked { result ≡ BAD_OPTIONS → failure ≡ Failure.Misasked }
{
    match failure {
        Failure::Faulty if !said.is_cut => BAD_SCRIPT,
        Failure::Misasked if !said.is_cut => BAD_OPTIONS,
        _ => NO_MEMORY,
    }
}

fn prints_of(number: u32) -> Prints {
    match number {
        1 => Prints::Chart,
        2 => Prints::Csv,
        3 => Prints::Json,
        _ => Prints::Report,
    }
}

fn depth_of(depth: u32) -> Option<u32> {
    if depth == 0 { None } else { Some(depth) }
}

/// Carries out a scenario and returns the status. `settings` has texts `NAME=WORD`, and `groups` paths, each one a line.
/// If the scenario is faulty or what is asked can't be used, the messages get a line that says why. In the second case
/// nothing is printed.
pub fn carry_out(
    alloc: Global,
    text: &[u8],
    settings: &[u8],
    groups: &[u8],
    asked: ScenarioAsked,
    printed: &mut Vec<u8>,
    said: &mut Said,
) -> u8
    requires empty { printed.old.items ≡ [] }
    requires unsaid { said.old.bytes.items ≡ [] }
    ensures known { (result ≤ NO_MEMORY) ⊎ (result ≡ DIFFERS) ⊎ (result ≡ BAD_OPTIONS) }
    ensures unprinted { result ≡ BAD_OPTIONS → printed.new.items ≡ [] }
    ensures texts { (result ≡ OK) ⊎ (result ≡ DIFFERS) → IsUtf8 settings.now × IsUtf8 groups.now }
    ensures reads { (result ≡ OK) ⊎ (result ≡ DIFFERS) → IsOk (scenario_of text.now) }
    ensures silent { (result ≡ OK) ⊎ (result ≡ DIFFERS) → said.new.bytes.items ≡ [] }
    ensures faulty { result ≡ BAD_SCRIPT → IsFaulty text.now (filled_lines settings.now) }
    ensures misasked { result ≡ BAD_OPTIONS → (settings.now ≢ []) ⊎ (groups.now ≢ []) }
{
    let named = match read_settings(alloc, settings) {
        Ok(named) => named,
        Err(why) => return refuse(why, said),
    };
    let paths = match read_groups(alloc, groups) {
        Ok(paths) => paths,
        Err(why) => return refuse(why, said),
    };
    let asked = Asked {
        name: NAME,
        settings: named.as_slice(),
        go_on: asked.go_on,
        prints: prints_of(asked.prints),
        every: asked.every.max(1),
        groups: paths.as_slice(),
        depth: depth_of(asked.depth),
    };
    match try_simulate(alloc, &asked, text, printed, said) {
        Ok(true) => OK,
        Ok(false) => DIFFERS,
        Err(Failure::Misasked) => {
            // That no group has a path is known only at the end of the run.
            printed.clear();
            status_of(Failure::Misasked, said)
        }
        Err(failure) => status_of(failure, said),
    }
}

/// Expands a scenario and returns the status. If it is faulty or what is asked can't be used, nothing is printed, and
/// the messages get a line that says why.
pub fn print_script(
    alloc: Global,
    text: &[u8],
    settings: &[u8],
    cuts: &[u64],
    script: &mut Vec<u8>,
    said: &mut Said,
) -> u8
    requires empty { script.old.items ≡ [] }
    requires unsaid { said.old.bytes.items ≡ [] }
    ensures known { (result ≤ NO_MEMORY) ⊎ (result ≡ BAD_OPTIONS) }
    ensures silent { result ≡ OK → said.new.bytes.items ≡ [] }
    ensures unprinted { result ≢ OK → script.new.items ≡ [] }
    ensures texts { result ≡ OK → IsUtf8 settings.now }
    ensures reads { result ≡ OK → IsOk (scenario_of text.now) }
    ensures faulty { result ≡ BAD_SCRIPT → IsFaulty text.now (filled_lines settings.now) }
    ensures misasked { result ≡ BAD_OPTIONS → (settings.now ≢ []) ⊎ (cuts.now ≢ []) }
{
    let named = match read_settings(alloc, settings) {
        Ok(named) => named,
        Err(why) => return refuse(why, said),
    };
    match try_expand(alloc, NAME, text, named.as_slice(), cuts, script, said) {
        Ok(()) => OK,
        Err(failure) => {
            script.clear();
            status_of(failure, said)
        }
    }
}
