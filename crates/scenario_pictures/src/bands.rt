//! A heat map: a band for each group.

use crate::rows::Chosen;
use crate::sheet::Sheet;
use crate::story::Story;
use drafts::Draft;
use pictures::{
    BAND, LEFT, RIGHT, add_escaped, add_last_part, add_length, degree, draw_key, draw_part,
};
use scenario_amounts::{Unit, add_size, add_size_in_unit};

/// The most characters of a path that its band shows.
const MOST_CHARACTERS: usize = 34;

/// Draws the band of the group at this place.
fn draw_band(out: &mut Draft, sheet: Sheet, story: &Story, group: usize, band: u64, whole: u64) {
    let mut from = LEFT;
    let mut dark = 0u64;
    for (row, told) in story.rows.iter().enumerate() {
        let now = match told.level(group) {
            None => 0,
            Some(level) => degree(level.current, whole),
        };
        if now != dark {
            let to = sheet.across.begin(row);
            draw_part(out, band, from, to, dark);
            from = to;
            dark = now;
        }
    }
    draw_part(out, band, from, RIGHT, dark);
}

/// Draws the size of a full band at its left. `y` is how low its middle is.
fn draw_whole(out: &mut Draft, sheet: Sheet, y: u64, whole: u64) {
    out.text("<text");
    add_length(out, "x", LEFT.saturating_sub(60));
    add_length(out, "y", y);
    out.text(" dy=\"4\" text-anchor=\"end\">");
    add_size(out, sheet.page, whole);
    out.text("</text>");
}

/// Draws the path of a band's group at its right. `y` is how low its middle is.
fn draw_name(out: &mut Draft, sheet: Sheet, path: &str, y: u64, peak: u64) {
    out.text("<text");
    add_length(out, "x", RIGHT.saturating_add(60));
    add_length(out, "y", y);
    out.text(" dy=\"4\">");
    add_last_part(out, path, MOST_CHARACTERS);
    out.text("<title>");
    add_escaped(out, path);
    out.text(", peak ");
    add_size_in_unit(out, sheet.page, peak);
    out.text("</title></text>\n");
}

/// Draws the unit of the sizes at the left, above them.
fn draw_unit(out: &mut Draft, sheet: Sheet) {
    out.text("<text");
    add_length(out, "x", LEFT.saturating_sub(60));
    add_length(out, "y", sheet.top.saturating_sub(50));
    out.text(" text-anchor=\"end\">");
    out.text(Unit::of(sheet.page).name());
    out.text("</text>\n");
}

/// Draws a band for each group. It is the darker the more of its max is used, or of the machine if that is smaller.
/// `memory` is how many pages the machine has.
pub fn draw_bands(out: &mut Draft, sheet: Sheet, story: &Story, groups: &[Chosen], memory: u64) {
    sheet.add_border(out, story.rows.as_slice());
    draw_unit(out, sheet);
    out.text("<g fill=\"#12468f\">\n");
    let mut band = sheet.top;
    for group in 0..groups.len() {
        let whole = story.greatest_max(group, memory).unwrap_or(memory);
        draw_band(out, sheet, story, group, band, whole);
        band = band.saturating_add(BAND);
    }
    draw_key(out, sheet.top.saturating_sub(BAND).saturating_sub(40));
    out.text("</g>\n");
    draw_names(out, sheet, story, groups, memory);
}

/// Draws the names of all bands.
fn draw_names(out: &mut Draft, sheet: Sheet, story: &Story, groups: &[Chosen], memory: u64) {
    let mut band = sheet.top;
    for (group, chosen) in groups.iter().enumerate() {
        let whole = story.greatest_max(group, memory).unwrap_or(memory);
        let y = band.saturating_add(BAND / 2);
        draw_whole(out, sheet, y, whole);
        draw_name(out, sheet, chosen.path.as_str(), y, story.peak(group));
        band = band.saturating_add(BAND);
    }
}
