//! What is known of a scenario before it is run.

use crate::asked::{Asked, Prints};
use expansion::expansion::{Cuts, Expansion, Item};
use scenario_faults::{Problem, problem_of, settings_of};
use scenario_lines::rounded::Rounded;
use scenario_lines::scene::Scene;
use scenario_machines::schedule_of;
use scenario_pictures::Object;
use scenario_words::fault::{Cause, fault_at};
use scenarios::scenario::Scenario;
use std::alloc::{AllocError, Global};

/// What an expansion of the whole scenario gives, as long as no run has cut its lists with `until`.
#[derive(Drop)]
pub struct Checked {
    /// A line for each size that was rounded, if there are lines of such.
    pub rounded: Vec<u8>,
    /// How many groups and tasks there are at the end.
    pub groups: usize,
    pub tasks: u32,
}

/// The line of a size that was rounded.
fn rounded_text(alloc: Global, size: &Rounded) -> Result<String, AllocError> {
    let mut text = String::new(alloc);
    writeln!(
        text,
        "line {}: {} is no whole page: taken as {}p",
        size.line,
        size.text.as_str(),
        size.pages
    )?;
    Ok(text)
}

/// The same as JSON.
fn rounded_object(alloc: Global, size: &Rounded) -> Result<Vec<u8>, AllocError> {
    let mut object = Object::new(alloc, "rounded");
    object.number("line", size.line as u64);
    object.text("size", size.text.as_str());
    object.number("pages", size.pages);
    object.line()
}

/// The lines of all sizes that were rounded.
fn rounded_lines(alloc: Global, scene: &Scene, prints: Prints) -> Result<Vec<u8>, AllocError> {
    let mut lines = Vec::new(alloc);
    for size in scene.rounded() {
        match prints {
            Prints::Report => {
                let text = rounded_text(alloc, size)?;
                lines.extend_from_slice(text.as_bytes())?;
            }
            Prints::Json => {
                let bytes = rounded_object(alloc, size)?;
                lines.extend_from_slice(bytes.as_slice())?;
            }
            Prints::Chart | Prints::Csv | Prints::Unmet => {}
        }
    }
    Ok(lines)
}

/// A line of the script is one that a script can have.
fn check_item(alloc: Global, expansion: &Expansion<'_>, item: &Item) -> Result<(), Problem> {
    let Item::Raw(words) = item else {
        return Ok(());
    };
    let header = expansion.header();
    match schedule_of(alloc, header, expansion.names(), words.as_str())? {
        Some(_) => Ok(()),
        None => Err(Problem::from(fault_at(expansion.line(), 1, Cause::Raw))),
    }
}

/// Checks an item. The other entries of its list differ from it by their page alone, so they are left out.
fn check_list(alloc: Global, expansion: &mut Expansion<'_>, item: &Item) -> Result<(), Problem> {
    check_item(alloc, expansion, item)?;
    expansion.pass_over()?;
    Ok(())
}

/// Goes on to the end. The problem is the first fault.
fn check_rest(
    alloc: Global,
    scenario: &Scenario,
    asked: &Asked<'_>,
    expansion: &mut Expansion<'_>,
) -> Result<(), Problem> {
    for _ in 0..u64::MAX {
        match expansion.next() {
            Ok(None) => break,
            Ok(Some(item)) => check_list(alloc, expansion, &item)?,
            Err(error) => {
                let scene = Some(expansion.scene());
                return Err(problem_of(alloc, scenario, asked.settings, scene, error));
            }
        }
    }
    Ok(())
}

/// What is known of a scene at its end.
fn checked_of(alloc: Global, scene: &Scene, prints: Prints) -> Result<Checked, AllocError> {
    Ok(Checked {
        rounded: rounded_lines(alloc, scene, prints)?,
        groups: scene.groups().len(),
        tasks: scene.tasks.count(),
    })
}

/// Expands the whole scenario. The problem is its first fault.
pub fn check(alloc: Global, scenario: &Scenario, asked: &Asked<'_>) -> Result<Checked, Problem> {
    let settings = settings_of(alloc, asked.settings)?;
    let cuts = Cuts::Given(Vec::new(alloc));
    let mut expansion = match Expansion::new(alloc, scenario, settings, cuts) {
        Ok(expansion) => expansion,
        Err(error) => return Err(problem_of(alloc, scenario, asked.settings, None, error)),
    };
    check_rest(alloc, scenario, asked, &mut expansion)?;
    Ok(checked_of(alloc, expansion.scene(), asked.prints)?)
}
