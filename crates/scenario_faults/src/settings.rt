//! Words in place of those that `let` lines give.

ghost use Rattle.std.specs.Prelude.{◌≡◌, ◌≢◌, true, false, map, IfOk, IfErr, OnErr};
ghost use Rattle.std.specs.List.{before_first};
ghost use Rattle.scenario_faults.specs.Failures.{failure_of};
ghost use Rattle.scenario_faults.specs.Settings.{is_equals, setting_of, settings_of, names, is_named, has_unnamed};
ghost use Rattle.scenario_faults.specs.declared.fault.Failure.TheVariants.{Faulty};

use crate::fault::Problem;
use scenarios::holes::Named;
use scenarios::lines::{Line, LineKind};
use scenarios::scenario::Scenario;
use std::alloc::{AllocError, Global};

/// Whether a text is one word of a scenario.
pub fn is_word(text: &str) -> bool {
    let mut inside = false;
    for byte in text.bytes() {
        if byte == b'"' {
            inside = !inside;
        } else if !inside && (byte == b' ' || byte == b'\t' || byte == b'#') {
            return false;
        }
    }
    !inside && !text.is_empty()
}

/// Whether a text is `NAME=WORD`.
pub fn is_setting(text: &str) -> bool {
    match text.split_once('=') {
        None => false,
        Some((_, word)) => is_word(word),
    }
}

/// The name and the word of a setting.
fn setting_of(alloc: Global, text: &str) -> Result<Option<Named>, AllocError>
    ensures { IfOk result (λ setting. setting ≡ setting_of text.now) }
{
    let Some((name, word)) = text.split_once('=') else {
        return Ok(None);
    };
    let name = String::from_str(alloc, name)?;
    let word = String::from_str(alloc, word)?;
    Ok(Some(Named::new(name, word)))
}

/// The names and words of settings. The last one of a name counts, so it comes first.
pub fn settings_of(alloc: Global, texts: &[&str]) -> Result<Vec<Named>, AllocError>
    ensures { IfOk result (λ settings. settings.items ≡ settings_of (map (λ t. t.now) texts.now)) }
{
    let mut settings = Vec::new(alloc);
    for text in texts {
        if let Some(setting) = setting_of(alloc, text)? {
            settings.insert(0, setting)?;
        }
    }
    Ok(settings)
}

/// Whether a line is `let` with this name.
fn names(line: &Line, name: &str) -> bool
    ensures { result ≡ names name.now line.now }
{
    if line.kind() != LineKind::Let {
        return false;
    }
    match line.words().get(1) {
        None => false,
        Some(word) => word.source() == name,
    }
}

/// Whether a `let` of the scenario has this name.
fn is_named(scenario: &Scenario, name: &str) -> bool
    ensures { result ≡ is_named scenario.now.lines.items name.now }
{
    scenario.lines.iter().any(|line| names(line, name))
}

/// No `let` has the name that this option gives.
fn unnamed(alloc: Global, option: &'static str, name: &str) -> Problem
    ensures { failure_of result ≢ Faulty }
{
    match String::from_str(alloc, name) {
        Ok(name) => Problem::Setting(option, name),
        Err(AllocError) => Problem::Memory,
    }
}

/// A `let` has the name that this option gives.
pub fn check_named(
    alloc: Global,
    scenario: &Scenario,
    option: &'static str,
    name: &str,
) -> Result<(), Problem>
    // Memory runs out only if a name is not accepted, too.
    ensures unnamed { OnErr result (is_named scenario.now.lines.items name.now ≡ false) }
    ensures faultless { IfErr result (λ problem. failure_of problem ≢ Faulty) }
{
    if is_named(scenario, name) {
        return Ok(());
    }
    Err(unnamed(alloc, option, name))
}

/// What precedes the first `=`, or all of the text.
fn name_of(text: &str) -> &str
    ensures { result.now ≡ before_first is_equals text.now }
{
    match text.split_once('=') {
        None => text,
        Some((name, _)) => name,
    }
}

/// Each setting is of a name that some `let` has.
pub fn check_settings(alloc: Global, scenario: &Scenario, texts: &[&str]) -> Result<(), Problem>
    ensures unnamed { OnErr result (has_unnamed scenario.now.lines.items (map (λ t. t.now) texts.now) ≡ true) }
    ensures faultless { IfErr result (λ problem. failure_of problem ≢ Faulty) }
{
    for text in texts {
        let name = name_of(text);
        if !is_named(scenario, name) {
            return Err(unnamed(alloc, "--set", name));
        }
    }
    Ok(())
}
