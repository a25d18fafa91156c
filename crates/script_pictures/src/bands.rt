//! A heat map: a band for each group.

use crate::axis::Ticks;
use crate::curves::Columns;
use crate::look::{Setting, look_of, peak_of, setting_of};
use crate::refusals::{Triangles, draw_refusals};
use crate::sheet::Sheet;
use drafts::Draft;
use pictures::{
    BAND, LEFT, RIGHT, add_escaped, add_last_part, add_length, degree, draw_key, draw_part,
};

/// The most characters of a path that its band shows.
const MOST_CHARACTERS: usize = 34;

impl Columns<'_> {
    /// What is a full band of the group at this place: its greatest max, or the machine if that is smaller. `memory` is
    /// how many pages the machine has.
    fn whole(self, group: usize, memory: u64) -> u64 {
        setting_of(self.rows, group, &[Setting::Max], memory).unwrap_or(memory)
    }

    /// Draws the band of the group at this place.
    fn draw_band(self, out: &mut Draft, group: usize, band: u64, whole: u64) {
        let mut from = LEFT;
        let mut dark = 0u64;
        for (row, place) in self.rows.iter().zip(self.places.iter()) {
            let now = match look_of(row, group) {
                None => 0,
                Some(look) => degree(look.usage, whole),
            };
            if now != dark {
                draw_part(out, band, from, place.across, dark);
                from = place.across;
                dark = now;
            }
        }
        draw_part(out, band, from, RIGHT, dark);
    }

    /// Draws the name of a band's group at its right, and the size of a full band at its left.
    fn draw_name(
        self,
        out: &mut Draft,
        sheet: Sheet,
        group: usize,
        path: &str,
        band: u64,
        whole: u64,
    ) {
        let y = band.saturating_add(BAND / 2);
        out.text("<text");
        add_length(out, "x", LEFT.saturating_sub(60));
        add_length(out, "y", y);
        out.text(" dy=\"4\" text-anchor=\"end\">");
        out.write_fmt(sheet.size(whole));
        out.text("</text><text");
        add_length(out, "x", RIGHT.saturating_add(60));
        add_length(out, "y", y);
        out.text(" dy=\"4\">");
        add_last_part(out, path, MOST_CHARACTERS);
        out.text("<title>");
        add_escaped(out, path);
        out.text(", peak ");
        out.write_fmt(sheet.size(peak_of(self.rows, group)));
        out.text("</title></text>\n");
    }

    /// Draws the names of all bands, and what was refused.
    fn draw_names(self, out: &mut Draft, sheet: Sheet, paths: &[&str], memory: u64) {
        let mut band = sheet.top;
        for (group, path) in paths.iter().enumerate() {
            self.draw_name(out, sheet, group, *path, band, self.whole(group, memory));
            band = band.saturating_add(BAND);
            let form = Triangles {
                bottom: band,
                high: 5,
                half: 2,
                colour: "#d95f02",
            };
            draw_refusals(out, self, group, *path, form);
        }
    }

    /// Draws a band for each group. It is the darker the more of its max is used, or of the machine if that is smaller.
    /// `memory` is how many pages the machine has.
    pub fn draw_bands(
        self,
        out: &mut Draft,
        sheet: Sheet,
        ticks: &Ticks,
        paths: &[&str],
        memory: u64,
    ) {
        sheet.add_border(out, ticks);
        out.text("<g fill=\"#12468f\">\n");
        let mut band = sheet.top;
        for group in 0..paths.len() {
            self.draw_band(out, group, band, self.whole(group, memory));
            band = band.saturating_add(BAND);
        }
        draw_key(out, sheet.top.saturating_sub(BAND).saturating_sub(40));
        out.text("</g>\n");
        self.draw_names(out, sheet, paths, memory);
    }
}
