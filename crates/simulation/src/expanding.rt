//! The script of a scenario, printed.

ghost use Rattle.std.specs.Prelude.{◌≡◌, ◌≢◌, ◌⊎◌, ◌≤◌, [], true, map, IsOk, OnOk, IfErr};
ghost use Rattle.scenarios.specs.Scenario.{scenario_of};
ghost use Rattle.scenario_faults.specs.Failures.{failure_of};
ghost use Rattle.scenario_faults.specs.Settings.{settings_of, has_unnamed};
ghost use Rattle.scenario_faults.specs.declared.fault.Failure.TheVariants.{Faulty, Misasked};
ghost use Rattle.scenario_reports.specs.Faulty.{AreFaulty, IsFaulty, LacksName};

use expansion::expansion::{Cuts, Expansion};
use expansion::text::expand_text;
use scenario_faults::{
    Failure, Problem, check_settings, problem_of, read_scenario, reported, settings_of,
};
use scenario_reports::confirming::confirmed;
use scenarios::scenario::Scenario;
use std::alloc::Global;
use std::io::Write;

/// No more lengths are given than the scenario has lists with `until`.
fn check_lengths(
    alloc: Global,
    scenario: &Scenario,
    settings: &[&str],
    lengths: &[u64],
) -> Result<(), Problem> {
    if lengths.is_empty() {
        return Ok(());
    }
    let settings = settings_of(alloc, settings)?;
    let cuts = Cuts::Given(Vec::from_slice(alloc, lengths)?);
    let mut expansion = Expansion::new(alloc, scenario, settings, cuts)?;
    for _ in 0..u64::MAX {
        if expansion.next()?.is_none() {
            break;
        }
    }
    match expansion.unused_cuts() {
        0 => Ok(()),
        more => Err(Problem::Lengths(more)),
    }
}

/// Expands a scenario again up to its fault, for what is known there.
fn expand_to_fault(
    alloc: Global,
    scenario: &Scenario,
    settings: &[&str],
    lengths: &[u64],
) -> Result<(), Problem> {
    let named = settings_of(alloc, settings)?;
    let cuts = Cuts::Given(Vec::from_slice(alloc, lengths)?);
    let mut expansion = match Expansion::new(alloc, scenario, named, cuts) {
        Ok(expansion) => expansion,
        Err(error) => return Err(problem_of(alloc, scenario, settings, None, error)),
    };
    for _ in 0..u64::MAX {
        match expansion.next() {
            Ok(None) => break,
            Ok(Some(_)) => {}
            Err(error) => {
                let scene = Some(expansion.scene());
                return Err(problem_of(alloc, scenario, settings, scene, error));
            }
        }
    }
    Ok(())
}

/// The script of a scenario whose lines were read.
fn script_of(
    alloc: Global,
    scenario: &Scenario,
    settings: &[&str],
    lengths: &[u64],
) -> Result<String, Problem> {
    let named = settings_of(alloc, settings)?;
    let cuts = Vec::from_slice(alloc, lengths)?;
    match expand_text(alloc, scenario, named, cuts) {
        Ok(text) => {
            check_lengths(alloc, scenario, settings, lengths)?;
            Ok(text)
        }
        Err(error) => match expand_to_fault(alloc, scenario, settings, lengths) {
            Err(problem) => Err(problem),
            Ok(()) => Err(problem_of(alloc, scenario, settings, None, error)),
        },
    }
}

/// Expands a scenario, and writes its script.
fn write_script<O: Write>(
    alloc: Global,
    scenario: &Scenario,
    settings: &[&str],
    lengths: &[u64],
    out: &mut O,
) -> Result<(), Problem> {
    let text = script_of(alloc, scenario, settings, lengths)?;
    out.write_all(text.as_bytes())?;
    out.flush()?;
    Ok(())
}

fn print_script<O: Write>(
    alloc: Global,
    scenario: &Scenario,
    settings: &[&str],
    lengths: &[u64],
    out: &mut O,
) -> Result<(), Problem>
    ensures faulty { IfErr result (λ problem. failure_of problem ≡ Faulty → AreFaulty scenario.now.lines.items (settings_of (map (λ t. t.now) settings.now))) }
    ensures misasked { IfErr result (λ problem. failure_of problem ≡ Misasked → (has_unnamed scenario.now.lines.items (map (λ t. t.now) settings.now) ≡ true) ⊎ (lengths.now ≢ [])) }
{
    if let Err(problem) = check_settings(alloc, scenario, settings) {
        return Err(problem);
    }
    match write_script(alloc, scenario, settings, lengths, out) {
        Ok(()) => Ok(()),
        Err(problem) => {
            let is_given = !lengths.is_empty();
            Err(confirmed(alloc, scenario, settings, is_given, problem))
        }
    }
}

/// Prints the script of a scenario. `name` is the name of its file. `settings` are texts `NAME=WORD`: each puts its
/// word in place of the word of each `let NAME`. `lengths` are those of the first lists with `until`. The script ends
/// with the longest list of the first one that has no length.
///
/// After a fault `out` gets nothing, and `err` the line `NAME:LINE:COLUMN: TEXT`.
pub fn try_expand<O: Write, E: Write>(
    alloc: Global,
    name: &str,
    text: &[u8],
    settings: &[&str],
    lengths: &[u64],
    out: &mut O,
    err: &mut E,
) -> Result<(), Failure>
    // `err` gets nothing but faults.
    ensures silent { OnOk result (E.contents err.new ≡ E.contents err.old) }
    // A text with a fault has no script.
    ensures reads { OnOk result (IsOk (scenario_of text.now)) }
    // Only a faulty scenario is said to be faulty.
    ensures faulty { IfErr result (λ why. why ≡ Faulty → IsFaulty text.now (map (λ t. t.now) settings.now)) }
    // Only what is asked for is said to be misasked: a name that no `let` has, or lengths.
    ensures misasked { IfErr result (λ why. why ≡ Misasked → LacksName text.now (map (λ t. t.now) settings.now) ⊎ (lengths.now ≢ [])) }
{
    let scenario = match read_scenario(alloc, name, text, err) {
        Ok(scenario) => scenario,
        Err(why) => return Err(why),
    };
    let printed = print_script(alloc, &scenario, settings, lengths, out);
    reported(printed, name, &scenario, err)
}

/// The same, as a status: 0, or 1 after a fault.
pub fn expand<O: Write, E: Write>(
    alloc: Global,
    name: &str,
    text: &[u8],
    settings: &[&str],
    lengths: &[u64],
    out: &mut O,
    err: &mut E,
) -> u8
    ensures success_or_failure { result ≤ 1 }
    // If it is 0, `err` got nothing.
    ensures silent { result ≡ 0 → E.contents err.new ≡ E.contents err.old }
    // A text with a fault has no script.
    ensures reads { result ≡ 0 → IsOk (scenario_of text.now) }
{
    match try_expand(alloc, name, text, settings, lengths, out, err) {
        Ok(()) => 0,
        Err(_) => 1,
    }
}
