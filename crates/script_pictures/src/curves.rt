//! Curves of what groups are charged with.

use crate::axis::{Place, Ticks};
use crate::look::{Setting, look_of, peak_of, setting_of};
use crate::refusals::{Triangles, draw_refusals};
use crate::sheet::Sheet;
use charts::Row;
use drafts::Draft;
use pictures::{
    Label, Pen, RIGHT, add_attribute, add_escaped, add_label, add_last_part, draw_labels,
};
use std::alloc::AllocError;

/// How many groups are drawn as curves, at most.
pub const MOST_CURVES: usize = 8;

/// The colours of the curves.
const COLOURS: [&str; 8] = [
    "#1f77b4", "#d95f02", "#1b9e3a", "#7b4fb5", "#8c564b", "#d6318e", "#0f9aa8", "#8a8d00",
];

/// The dashes of the curves. A later curve has wider gaps, in which those below it are seen.
const DASHES: [&str; 8] = [
    "none",
    "13 6",
    "8 8",
    "5 9",
    "14 4 4 10",
    "3 8",
    "8 14",
    "2 12",
];

/// The settings that are drawn.
const SETTINGS: [Setting; 3] = [Setting::Max, Setting::Min, Setting::Low];

/// The most characters of a path that the name of its curve has.
const MOST_CHARACTERS: usize = 24;

impl Setting {
    fn dashes(self) -> &'static str {
        match self {
            Setting::Max => "8 4",
            Setting::Min => "2 3",
            Setting::Low => "8 3 2 3",
        }
    }
}

/// How many pages the picture is high. It has room for all that a group was charged with, and for each setting that is
/// no more than twice that.
pub fn height_of(rows: &[Row], groups: usize) -> u64 {
    let mut peak = 1;
    for place in 0..groups {
        peak = peak_of(rows, place).max(peak);
    }
    let most = peak.saturating_mul(2);
    let mut height = peak;
    for place in 0..groups {
        let setting = setting_of(rows, place, &SETTINGS, most);
        height = setting.unwrap_or(0).max(height);
    }
    height
}

/// The colour of the group at this place.
fn colour_of(group: usize) -> &'static str {
    COLOURS[group % COLOURS.len()]
}

/// The rows of a run, and the place of the line of each.
#[derive(Clone, Copy)]
pub struct Columns<'r> {
    pub rows: &'r [Row],
    pub places: &'r [Place],
}

impl Columns<'_> {
    /// The path of a curve of the group at this place: of a setting, or of its charge.
    fn path(self, sheet: Sheet, group: usize, setting: Option<Setting>) -> Draft {
        let mut pen = Pen::new(sheet.alloc);
        for (row, place) in self.rows.iter().zip(self.places.iter()) {
            let pages = match (look_of(row, group), setting) {
                (None, _) => None,
                (Some(look), None) => Some(look.usage),
                (Some(look), Some(setting)) => setting.pages(&look),
            };
            match pages {
                Some(pages) if pages <= sheet.most => pen.go(place.across, sheet.down(pages)),
                _ => pen.lift(place.across),
            }
        }
        pen.lift(RIGHT);
        pen.path
    }

    /// Draws the curve of a group's setting.
    fn draw_setting(self, out: &mut Draft, sheet: Sheet, group: usize, setting: Setting) {
        let path = self.path(sheet, group, Some(setting));
        if path.is_empty() {
            return;
        }
        out.text("<path d=\"");
        out.add(&path);
        out.text("\" fill=\"none\"");
        add_attribute(out, "stroke", colour_of(group));
        add_attribute(out, "stroke-dasharray", setting.dashes());
        out.text(" opacity=\"0.7\"/>\n");
    }

    /// Draws the curve of a group's charge.
    fn draw_current(self, out: &mut Draft, sheet: Sheet, group: usize, name: &str) {
        let path = self.path(sheet, group, None);
        if path.is_empty() {
            return;
        }
        out.text("<path d=\"");
        out.add(&path);
        out.text("\" fill=\"none\"");
        add_attribute(out, "stroke", colour_of(group));
        add_attribute(out, "stroke-width", "2.5");
        add_attribute(out, "stroke-dasharray", DASHES[group % DASHES.len()]);
        out.text("><title>");
        add_escaped(out, name);
        out.text(", peak ");
        out.write_fmt(sheet.size(peak_of(self.rows, group)));
        out.text("</title></path>\n");
    }

    /// The last charge of the group at this place, and whether it is that of the last row.
    fn last_current(self, group: usize) -> Option<(u64, bool)> {
        let mut last = None;
        for row in self.rows {
            last = match (look_of(row, group), last) {
                (Some(look), _) => Some((look.usage, true)),
                (None, None) => None,
                (None, Some((usage, _))) => Some((usage, false)),
            };
        }
        last
    }

    /// The label of the group at this place, if it was there.
    fn label(self, sheet: Sheet, group: usize, name: &str) -> Option<Label> {
        let (pages, is_last) = self.last_current(group)?;
        let mut text = Draft::new(sheet.alloc);
        add_last_part(&mut text, name, MOST_CHARACTERS);
        if is_last {
            text.text(" ");
            text.write_fmt(sheet.size(pages));
        } else {
            text.text(" (removed)");
        }
        Some(Label::new(sheet.down(pages), colour_of(group), text))
    }

    /// Draws a curve for each group, with its name at its right end.
    pub fn draw_curves(
        self,
        out: &mut Draft,
        sheet: Sheet,
        ticks: &Ticks,
        paths: &[&str],
    ) -> Result<(), AllocError> {
        sheet.add_sizes(out)?;
        sheet.add_border(out, ticks);
        let mut labels = Vec::new(sheet.alloc);
        for group in 0..paths.len() {
            for setting in SETTINGS {
                self.draw_setting(out, sheet, group, setting);
            }
        }
        for (group, path) in paths.iter().enumerate() {
            self.draw_current(out, sheet, group, *path);
            let form = Triangles {
                bottom: sheet.bottom,
                high: 10,
                half: 4,
                colour: colour_of(group),
            };
            draw_refusals(out, self, group, *path, form);
            if let Some(label) = self.label(sheet, group, *path) {
                add_label(&mut labels, label)?;
            }
        }
        draw_labels(out, labels, sheet.bottom);
        Ok(())
    }
}
