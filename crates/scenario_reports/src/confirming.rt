//! A second look at a scenario that is said to be faulty.

ghost use Rattle.std.specs.Prelude.{◌≡◌, true, map, IfOk};
ghost use Rattle.scenario_words.specs.declared.fault.Fault.{Fault};
ghost use Rattle.scenario_faults.specs.Failures.{failure_of};
ghost use Rattle.scenario_faults.specs.Settings.{settings_of};
ghost use Rattle.scenario_faults.specs.declared.fault.Failure.TheVariants as failure;
ghost use Rattle.expansion.specs.ToCome.{still};
ghost use Rattle.scenario_machines.specs.RawLines.{IsNoLine};
ghost use Rattle.scenario_reports.specs.Faulty.{AreFaulty};
ghost use Rattle.scenario_reports.specs.Confirming.{IsStop, Stops, Sees, SeesItem};

use expansion::expansion::{Cuts, Expansion, Item};
use scenario_faults::{Problem, settings_of};
use scenario_lines::scene::Scene;
use scenario_machines::schedule_of;
use scenario_words::fault::ExpandError;
use scenarios::scenario::Scenario;
use std::alloc::{AllocError, Global};

/// What is seen of a scenario.
#[derive(Clone, Copy)]
enum Seen {
    /// An item, after which the scenario may go on.
    Item,
    /// A fault, a line that a script can't have, or the beginning of a list with `until`.
    Stop,
    /// The end.
    End,
}

/// Whether a script can't have a line.
fn is_no_line(alloc: Global, scene: &Scene, line: &str) -> Result<bool, AllocError>
    ensures { IfOk result (λ no. no ≡ true → IsNoLine scene.now.machine scene.now.names line.now) }
{
    match schedule_of(alloc, &scene.header, &scene.names, line)? {
        Some(_) => Ok(false),
        None => Ok(true),
    }
}

/// Whether the walk stops at an item.
fn is_stop(alloc: Global, scene: &Scene, item: &Item) -> Result<bool, AllocError>
    ensures { IfOk result (λ stops. stops ≡ true → IsStop scene.now item.now) }
{
    match item {
        Item::Opened => Ok(true),
        Item::Raw(line) => is_no_line(alloc, scene, line.as_str()),
        Item::Entry(_, _) | Item::Note(_) | Item::Unreached(_) => Ok(false),
    }
}

/// What is seen at an item, or at the end.
fn seen_of(alloc: Global, scene: &Scene, item: Option<Item>) -> Result<Seen, AllocError>
    ensures { IfOk result (SeesItem scene.now item) }
{
    match item {
        None => Ok(Seen::End),
        Some(item) => {
            if is_stop(alloc, scene, &item)? {
                Ok(Seen::Stop)
            } else {
                Ok(Seen::Item)
            }
        }
    }
}

/// It is a fault, unless memory ran out.
fn check_fault(error: ExpandError) -> Result<(), AllocError>
    ensures { IfOk result (λ _. (fault : Fault) × (error ≡ ExpandError.Faulty fault)) }
{
    match error {
        ExpandError::Memory => Err(AllocError),
        ExpandError::Faulty(_) => Ok(()),
    }
}

/// What is seen next.
fn look(alloc: Global, scene: &Scene, expansion: &mut Expansion<'_>) -> Result<Seen, AllocError>
    ensures { IfOk result (λ seen. Sees scene.now (still expansion.old) seen (still expansion.new)) }
{
    match expansion.next() {
        Ok(item) => seen_of(alloc, scene, item),
        Err(error) => {
            check_fault(error)?;
            Ok(Seen::Stop)
        }
    }
}

/// Goes on until nothing comes, and finds whether the walk stops before.
fn stops(alloc: Global, scene: &Scene, expansion: &mut Expansion<'_>) -> Result<bool, AllocError>
    ensures { IfOk result (λ stops. stops ≡ true → Stops scene.now (still expansion.old)) }
{
    for _ in 0..u64::MAX {
        match look(alloc, scene, expansion)? {
            Seen::Item => {}
            Seen::Stop => return Ok(true),
            Seen::End => return Ok(false),
        }
    }
    // So many items take centuries. The end has not come.
    Err(AllocError)
}

/// Whether a scenario is faulty with these settings, by a walk through all its items.
fn is_faulty(alloc: Global, scenario: &Scenario, texts: &[&str]) -> Result<bool, AllocError>
    ensures { IfOk result (λ faulty. faulty ≡ true → AreFaulty scenario.now.lines.items (settings_of (map (λ t. t.now) texts.now))) }
{
    let mut scene = Scene::new(alloc, settings_of(alloc, texts)?);
    if let Err(error) = scene.read_header(scenario.lines.as_slice()) {
        check_fault(error)?;
        return Ok(true);
    }
    let named = settings_of(alloc, texts)?;
    match Expansion::new(alloc, scenario, named, Cuts::ByRun) {
        Ok(mut expansion) => stops(alloc, &scene, &mut expansion),
        Err(error) => {
            check_fault(error)?;
            Ok(true)
        }
    }
}

/// The problem of a run or of an expansion, after a second look at it. The scenario is at fault only if a walk through
/// all its items also finds a fault, or a list with `until`. What is asked for is at fault only if something was given.
/// Any other problem was never seen, and is reported as a lack of memory.
pub fn confirmed(
    alloc: Global,
    scenario: &Scenario,
    texts: &[&str],
    is_given: bool,
    problem: Problem,
) -> Problem
    ensures faulty { failure_of result ≡ failure.Faulty → AreFaulty scenario.now.lines.items (settings_of (map (λ t. t.now) texts.now)) }
    ensures misasked { failure_of result ≡ failure.Misasked → is_given ≡ true }
{
    match problem {
        Problem::Faulty(fault, text) => match is_faulty(alloc, scenario, texts) {
            Ok(true) => Problem::Faulty(fault, text),
            Ok(false) | Err(AllocError) => Problem::Memory,
        },
        Problem::Setting(_, _) | Problem::Group(_) | Problem::Lengths(_) => {
            if is_given { problem } else { Problem::Memory }
        }
        Problem::Memory | Problem::Unwritable(_) => problem,
    }
}
