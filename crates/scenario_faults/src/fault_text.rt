//! What is said of a faulty word: what is wrong, and what to write.

use crate::bounds::add_bounds;
use crate::expected::add_expected;
use crate::fault::text_of;
use crate::near::{near_group, near_task};
use crate::script_like::{SCRIPT_HINT, looks_like_script};
use crate::settings::settings_of;
use crate::size_texts::add_size_fault;
use crate::written::{line_at, place_at, source_at};
use scenario_lines::scene::Scene;
use scenario_words::fault::{Cause, ExpandError, Fault};
use scenario_words::word::{Filled, is_at, is_language};
use scenarios::lines::Line;
use scenarios::scenario::Scenario;
use std::alloc::{AllocError, Global};

/// What was gained, or nothing after a fault. Only memory may be missing.
fn unless_faulty<T: Drop>(gained: Result<T, ExpandError>) -> Result<Option<T>, AllocError> {
    match gained {
        Ok(value) => Ok(Some(value)),
        Err(ExpandError::Faulty(_)) => Ok(None),
        Err(ExpandError::Memory) => Err(AllocError),
    }
}

/// Gives a name to a word, if a line is a `let` without a fault.
fn take_let(scene: &mut Scene, line: &Line) -> Result<(), AllocError> {
    if source_at(line, 0) != "let" {
        return Ok(());
    }
    if let Some(words) = unless_faulty(scene.words_of(line))? {
        let _fault = unless_faulty(scene.name_word(words.as_slice()))?;
    }
    Ok(())
}

/// The words of a line of the header, or none if they are faulty.
fn words_below_lets(
    alloc: Global,
    scenario: &Scenario,
    settings: &[&str],
    line: &Line,
) -> Result<Option<Vec<Filled>>, AllocError> {
    let mut scene = Scene::new(alloc, settings_of(alloc, settings)?);
    for other in &scenario.lines {
        if other.number() >= line.number() {
            break;
        }
        take_let(&mut scene, other)?;
    }
    unless_faulty(scene.words_of(line))
}

/// What the header says up to its fault.
fn scene_of_header(
    alloc: Global,
    scenario: &Scenario,
    settings: &[&str],
) -> Result<Scene, AllocError> {
    let mut scene = Scene::new(alloc, settings_of(alloc, settings)?);
    let _fault = unless_faulty(scene.read_header(scenario.lines.as_slice()))?;
    Ok(scene)
}

/// A group that isn't there, or a new one whose parent isn't.
fn add_no_group(
    alloc: Global,
    text: &mut String,
    scene: &Scene,
    words: &[Filled],
    word: &Filled,
) -> Result<(), AllocError> {
    let path = word.text();
    if !is_at(words, 0, "group") {
        text.push_str("there is no such group")?;
        return add_near(text, near_group(alloc, scene, path)?);
    }
    let parent = match path.rsplit_once('/') {
        None => path,
        Some((parent, _)) => parent,
    };
    write!(text, "its parent {parent} is not there; ")?;
    match near_group(alloc, scene, parent)? {
        None => write!(text, "put \"group {parent}\" above this line"),
        Some(near) => write!(text, "did you mean {near}?"),
    }
}

/// Whether a part may be at this place: after what a task does, except after `next`.
fn may_be_part(words: &[Filled], place: usize) -> bool {
    match words.first() {
        None => false,
        Some(first) => {
            (first.is_quoted() || !is_language(first.text()))
                && !is_at(words, place.saturating_sub(1), "next")
        }
    }
}

fn add_near(text: &mut String, near: Option<String>) -> Result<(), AllocError> {
    match near {
        None => Ok(()),
        Some(near) => write!(text, "; did you mean {near}?"),
    }
}

/// Adds what is wrong with the word at this place, and what to write.
fn add_cause(
    alloc: Global,
    text: &mut String,
    scene: &Scene,
    words: &[Filled],
    place: usize,
    word: &Filled,
    cause: Cause,
) -> Result<(), AllocError> {
    match cause {
        Cause::NotExpected => add_expected(alloc, text, words, place, word),
        Cause::Size => add_size_fault(alloc, text, word.text(), may_be_part(words, place)),
        Cause::SizeBounds => add_bounds(alloc, text, &scene.header, words, word),
        Cause::NoGroup => add_no_group(alloc, text, scene, words, word),
        Cause::NoTask => {
            text.push_str("there is no such task")?;
            add_near(text, near_task(alloc, scene, word.source(), place == 0)?)
        }
        _ => text.push_str(text_of(cause)),
    }
}

/// Adds the faulty word of a line, as it is written and with its holes filled, and what is wrong with it.
fn add_fault(
    alloc: Global,
    text: &mut String,
    scene: &Scene,
    line: &Line,
    words: Option<&[Filled]>,
    fault: Fault,
) -> Result<(), AllocError> {
    let Some(place) = place_at(line, fault.column) else {
        return text.push_str(text_of(fault.cause));
    };
    let written = source_at(line, place);
    text.push_str(written)?;
    let words = words.unwrap_or(&[]);
    let Some(word) = words.get(place) else {
        return write!(text, ": {}", text_of(fault.cause));
    };
    if word.source() != written {
        write!(text, " ({})", word.source())?;
    }
    text.push_str(": ")?;
    add_cause(alloc, text, scene, words, place, word, fault.cause)
}

fn add_fault_at(
    alloc: Global,
    text: &mut String,
    scenario: &Scenario,
    settings: &[&str],
    scene: Option<&Scene>,
    line: &Line,
    fault: Fault,
) -> Result<(), AllocError> {
    match scene {
        Some(scene) => {
            let words = unless_faulty(scene.words_of(line))?;
            add_fault(alloc, text, scene, line, words.as_deref(), fault)
        }
        None => {
            let words = words_below_lets(alloc, scenario, settings, line)?;
            let scene = scene_of_header(alloc, scenario, settings)?;
            add_fault(alloc, text, &scene, line, words.as_deref(), fault)
        }
    }
}

/// What is said of a fault after its line and its column. `scene` is what the lines before it say. Without one, it is a
/// fault of the header.
pub fn fault_text(
    alloc: Global,
    scenario: &Scenario,
    settings: &[&str],
    scene: Option<&Scene>,
    fault: Fault,
) -> Result<String, AllocError> {
    let mut text = String::new(alloc);
    match line_at(scenario, fault.line) {
        None => text.push_str(text_of(fault.cause))?,
        Some(line) => add_fault_at(alloc, &mut text, scenario, settings, scene, line, fault)?,
    }
    if looks_like_script(scenario, fault) {
        text.push_str(SCRIPT_HINT)?;
    }
    Ok(text)
}
