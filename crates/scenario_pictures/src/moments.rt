//! What happened at a row, above the curves: phases that begin, and deaths.

use crate::printing::{add_names, add_place};
use crate::sheet::Across;
use crate::story::{Story, Told};
use drafts::Draft;
use pictures::{Moments, Sign, add_escaped};
use std::alloc::{AllocError, Global};

/// The most tasks that the text of a cross names.
const MOST_NAMED: usize = 3;

/// The phases that begin.
pub fn phases_of(alloc: Global, story: &Story, across: Across) -> Result<Moments, AllocError> {
    let mut phases = Moments::new(alloc, Sign::Line, 3);
    for mark in story.marks.iter() {
        let name = mark.name.as_str();
        let mut title = Draft::new(alloc);
        add_escaped(&mut title, name);
        phases.add(alloc, across.begin(mark.row), name, title)?;
    }
    Ok(phases)
}

/// The names of the first of those who died, and how many more there are.
fn named(alloc: Global, died: &[String]) -> Result<String, AllocError> {
    let mut text = Draft::new(alloc);
    add_names(&mut text, died.get(..MOST_NAMED).unwrap_or(died));
    let more = died.len().saturating_sub(MOST_NAMED);
    if more > 0 {
        write!(text, " and {more} more");
    }
    text.finish()
}

/// The place of a row in which tasks died, and all of their names, as markup.
fn title_of(alloc: Global, told: &Told) -> Draft {
    let mut title = Draft::new(alloc);
    add_place(&mut title, told.place.line, told.place.rounds.as_slice());
    title.text(": killed ");
    for (place, name) in told.died.iter().enumerate() {
        if place > 0 {
            title.text(", ");
        }
        add_escaped(&mut title, name.as_str());
    }
    title
}

/// The rows in which tasks died.
pub fn deaths_of(alloc: Global, story: &Story, across: Across) -> Result<Moments, AllocError> {
    let mut deaths = Moments::new(alloc, Sign::Cross, 5);
    for (row, told) in story.rows.iter().enumerate() {
        if !told.died.is_empty() {
            let text = named(alloc, told.died.as_slice())?;
            let title = title_of(alloc, told);
            deaths.add(alloc, across.middle(row), text.as_str(), title)?;
        }
    }
    Ok(deaths)
}
