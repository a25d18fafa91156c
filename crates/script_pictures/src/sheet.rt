//! A part of the picture: lines from left to right, and pages upwards. Places are in tenths of a pixel.

use crate::axis::{Place, Ticks};
use drafts::Draft;
use machine::page_size::PageSize;
use pictures::{
    LEFT, RIGHT, Scale, Size, add_attribute, add_length, add_pixels, add_point, page_marks,
};
use std::alloc::{AllocError, Global};

/// The height that the name of a size takes.
const NAME_HEIGHT: u64 = 200;

#[derive(Clone, Copy)]
pub struct Sheet {
    pub alloc: Global,
    pub top: u64,
    pub bottom: u64,
    /// How many pages its height is.
    pub most: u64,
    /// How many bytes a page stands for.
    pub page_size: PageSize,
}

impl Sheet {
    /// So many pages, as their sizes are written.
    pub fn size(self, pages: u64) -> Size {
        Size {
            pages,
            page_size: self.page_size,
        }
    }

    /// How low the place of this number of pages is.
    pub fn down(self, pages: u64) -> u64 {
        let scale = Scale {
            least: 0,
            greatest: self.most,
            length: self.bottom.saturating_sub(self.top),
        };
        self.bottom.saturating_sub(scale.place(pages))
    }

    /// The line of a size, and its name.
    fn add_size(self, out: &mut Draft, pages: u64) {
        let y = self.down(pages);
        out.text("<path d=\"");
        add_point(out, "M", LEFT, y);
        out.text("H");
        add_pixels(out, RIGHT);
        out.text("\" stroke=\"#e4e4e4\"/><text");
        add_length(out, "x", LEFT.saturating_sub(60));
        add_length(out, "y", y);
        out.text(" dy=\"4\" text-anchor=\"end\">");
        out.write_fmt(self.size(pages));
        out.text("</text>\n");
    }

    /// The lines of round sizes, and their names.
    pub fn add_sizes(self, out: &mut Draft) -> Result<(), AllocError> {
        let scale = Scale {
            least: 0,
            greatest: self.most,
            length: 0,
        };
        let marks = page_marks(self.alloc, scale)?;
        let room = self.bottom.saturating_sub(self.top) / NAME_HEIGHT;
        let step = if marks.len() as u64 > room { 2 } else { 1 };
        for (place, pages) in marks.as_slice().iter().enumerate() {
            if place.checked_rem(step).unwrap_or(0) == 0 {
                self.add_size(out, *pages);
            }
        }
        Ok(())
    }

    /// The tick of a line, and its number below it.
    fn add_tick(self, out: &mut Draft, tick: Place, anchor: &str) {
        out.text("<path d=\"");
        add_point(out, "M", tick.across, self.bottom);
        out.text("v4\" stroke=\"#888\"/><text");
        add_length(out, "x", tick.across);
        add_length(out, "y", self.bottom.saturating_add(170));
        out.text(" dx=\"2\"");
        add_attribute(out, "text-anchor", anchor);
        out.text(">");
        out.number(tick.line);
        out.text("</text>\n");
    }

    /// The border, and the numbers of lines below it.
    pub fn add_border(self, out: &mut Draft, ticks: &Ticks) {
        out.text("<path d=\"");
        add_point(out, "M", LEFT, self.top);
        out.text("V");
        add_pixels(out, self.bottom);
        out.text("H");
        add_pixels(out, RIGHT);
        out.text("\" fill=\"none\" stroke=\"#888\"/>\n");
        for tick in ticks.places.iter() {
            self.add_tick(out, *tick, ticks.anchor);
        }
    }
}
