//! Curves of what groups are charged with.

use crate::rows::Chosen;
use crate::sheet::Sheet;
use crate::story::Story;
use drafts::Draft;
use pictures::{
    Label, Pen, RIGHT, add_attribute, add_escaped, add_label, add_last_part, draw_labels,
};
use scenario_amounts::add_size_in_unit;
use std::alloc::AllocError;

/// How many groups are drawn as curves, at most.
pub const MOST_CURVES: usize = 8;

/// The colours of the curves.
const COLOURS: [&str; 8] = [
    "#1f77b4", "#d95f02", "#1b9e3a", "#7b4fb5", "#8c564b", "#d6318e", "#0f9aa8", "#8a8d00",
];

/// The dashes of the curves. A later curve has wider gaps, in which those below it are seen.
const DASHES: [&str; 8] = [
    "none",
    "13 6",
    "8 8",
    "5 9",
    "14 4 4 10",
    "3 8",
    "8 14",
    "2 12",
];

/// The most characters of a path that the name of its curve has.
const MOST_CHARACTERS: usize = 24;

/// How many pages high a picture of these groups is. It has room for each peak, and for each max that is no more than
/// twice the highest peak.
pub fn height_of(story: &Story, groups: usize) -> u64 {
    let mut peak = 1u64;
    for group in 0..groups {
        peak = story.peak(group).max(peak);
    }
    let most = peak.saturating_mul(2);
    let mut height = peak;
    for group in 0..groups {
        if let Some(max) = story.greatest_max(group, most) {
            height = max.max(height);
        }
    }
    height
}

/// The colour of the group at this place.
fn colour_of(group: usize) -> &'static str {
    COLOURS[group % COLOURS.len()]
}

/// The path of a curve of the group at this place: of its charge, or of its max. It changes in the middle of a row, and
/// goes up to the peak there.
fn path_of(sheet: Sheet, story: &Story, group: usize, is_max: bool) -> Draft {
    let mut pen = Pen::new(sheet.alloc);
    for (row, told) in story.rows.iter().enumerate() {
        let x = sheet.across.middle(row);
        let (pages, peak) = match told.level(group) {
            None => (None, 0),
            Some(level) if is_max => (level.max, 0),
            Some(level) => (Some(level.current), level.peak),
        };
        match pages {
            Some(pages) if pages <= sheet.most => {
                pen.go(x, sheet.down(peak.max(pages)));
                pen.go(x, sheet.down(pages));
            }
            _ => pen.lift(x),
        }
    }
    pen.lift(RIGHT);
    pen.path
}

/// Draws the curve of a group's max.
fn draw_max(out: &mut Draft, sheet: Sheet, story: &Story, group: usize) {
    let path = path_of(sheet, story, group, true);
    if path.is_empty() {
        return;
    }
    out.text("<path d=\"");
    out.add(&path);
    out.text("\" fill=\"none\"");
    add_attribute(out, "stroke", colour_of(group));
    out.text(" stroke-dasharray=\"1 3\" opacity=\"0.7\"/>\n");
}

/// Draws the curve of a group's charge.
fn draw_current(out: &mut Draft, sheet: Sheet, story: &Story, chosen: &Chosen, group: usize) {
    let path = path_of(sheet, story, group, false);
    if path.is_empty() {
        return;
    }
    out.text("<path d=\"");
    out.add(&path);
    out.text("\" fill=\"none\"");
    add_attribute(out, "stroke", colour_of(group));
    add_attribute(out, "stroke-width", "2.5");
    add_attribute(out, "stroke-dasharray", DASHES[group % DASHES.len()]);
    out.text("><title>");
    add_escaped(out, chosen.path.as_str());
    out.text(", peak ");
    add_size_in_unit(out, sheet.page, story.peak(group));
    out.text("</title></path>\n");
}

/// The last level of the group at this place, and whether it is that of the last row.
fn last_current(story: &Story, group: usize) -> Option<(u64, bool)> {
    let mut last = None;
    for told in story.rows.iter() {
        last = match (told.level(group), last) {
            (Some(level), _) => Some((level.current, true)),
            (None, None) => None,
            (None, Some((current, _))) => Some((current, false)),
        };
    }
    last
}

/// The label of the group at this place, if it was there.
fn label_of(sheet: Sheet, story: &Story, chosen: &Chosen, group: usize) -> Option<Label> {
    let (pages, is_last) = last_current(story, group)?;
    let mut text = Draft::new(sheet.alloc);
    add_last_part(&mut text, chosen.path.as_str(), MOST_CHARACTERS);
    if is_last {
        text.text(" ");
        add_size_in_unit(&mut text, sheet.page, pages);
    } else {
        text.text(" (removed)");
    }
    Some(Label::new(sheet.down(pages), colour_of(group), text))
}

/// Draws a curve for each group, with its name at its right end.
pub fn draw_curves(
    out: &mut Draft,
    sheet: Sheet,
    story: &Story,
    groups: &[Chosen],
) -> Result<(), AllocError> {
    sheet.add_sizes(out)?;
    sheet.add_border(out, story.rows.as_slice());
    let mut labels = Vec::new(sheet.alloc);
    for group in 0..groups.len() {
        draw_max(out, sheet, story, group);
    }
    for (group, chosen) in groups.iter().enumerate() {
        draw_current(out, sheet, story, chosen, group);
        if let Some(label) = label_of(sheet, story, chosen, group) {
            add_label(&mut labels, label)?;
        }
    }
    draw_labels(out, labels, sheet.bottom);
    Ok(())
}
