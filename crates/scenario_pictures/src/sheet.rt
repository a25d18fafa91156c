//! The places of rows and of pages in a picture, in tenths of a pixel.

use crate::printing::add_rounds;
use crate::story::Told;
use drafts::Draft;
use pictures::{LEFT, RIGHT, Scale, add_length, add_pixels, add_point, page_marks};
use scenario_amounts::add_size_in_unit;
use scenario_words::amount::PageSize;
use std::alloc::{AllocError, Global};

/// How many rows are named below, at most.
const MOST_NAMES: usize = 12;

/// The height that the name of a size takes.
const NAME_HEIGHT: u64 = 200;

/// The places of rows.
#[derive(Clone, Copy)]
pub struct Across {
    rows: usize,
}

impl Across {
    pub fn new(rows: usize) -> Across {
        Across { rows }
    }

    /// The place of so many halves of rows.
    fn halves(self, halves: u64) -> u64 {
        let scale = Scale {
            least: 0,
            greatest: (self.rows as u64).saturating_mul(2),
            length: RIGHT - LEFT,
        };
        LEFT.saturating_add(scale.place(halves))
    }

    /// The left end of a row.
    pub fn begin(self, row: usize) -> u64 {
        self.halves((row as u64).saturating_mul(2))
    }

    /// The middle of a row.
    pub fn middle(self, row: usize) -> u64 {
        self.halves((row as u64).saturating_mul(2).saturating_add(1))
    }
}

/// A part of the picture: rows from left to right, and pages upwards.
#[derive(Clone, Copy)]
pub struct Sheet {
    pub alloc: Global,
    pub page: PageSize,
    pub across: Across,
    pub top: u64,
    pub bottom: u64,
    /// How many pages its height is.
    pub most: u64,
}

impl Sheet {
    /// How low the place of this number of pages is.
    pub fn down(self, pages: u64) -> u64 {
        let scale = Scale {
            least: 0,
            greatest: self.most,
            length: self.bottom.saturating_sub(self.top),
        };
        self.bottom.saturating_sub(scale.place(pages))
    }

    /// The line of a size, and its name.
    fn add_size(self, out: &mut Draft, pages: u64) {
        let y = self.down(pages);
        out.text("<path d=\"");
        add_point(out, "M", LEFT, y);
        out.text("H");
        add_pixels(out, RIGHT);
        out.text("\" stroke=\"#e4e4e4\"/><text");
        add_length(out, "x", LEFT.saturating_sub(60));
        add_length(out, "y", y);
        out.text(" dy=\"4\" text-anchor=\"end\">");
        add_size_in_unit(out, self.page, pages);
        out.text("</text>\n");
    }

    /// The lines of round sizes, and their names.
    pub fn add_sizes(self, out: &mut Draft) -> Result<(), AllocError> {
        let scale = Scale {
            least: 0,
            greatest: self.most,
            length: 0,
        };
        let marks = page_marks(self.alloc, scale)?;
        let room = self.bottom.saturating_sub(self.top) / NAME_HEIGHT;
        let step = if marks.len() as u64 > room { 2 } else { 1 };
        for (place, pages) in marks.as_slice().iter().enumerate() {
            if place.checked_rem(step).unwrap_or(0) == 0 {
                self.add_size(out, *pages);
            }
        }
        Ok(())
    }

    /// The tick of a row, and its name below it.
    fn add_row(self, out: &mut Draft, row: usize, told: &Told) {
        let x = self.across.middle(row);
        out.text("<path d=\"");
        add_point(out, "M", x, self.bottom);
        out.text("v4\" stroke=\"#888\"/><text");
        add_length(out, "x", x);
        add_length(out, "y", self.bottom.saturating_add(170));
        out.text(" text-anchor=\"middle\">");
        add_name(out, told);
        out.text("</text>\n");
    }

    /// The border, and the names of rows below it.
    pub fn add_border(self, out: &mut Draft, rows: &[Told]) {
        out.text("<path d=\"");
        add_point(out, "M", LEFT, self.top);
        out.text("V");
        add_pixels(out, self.bottom);
        out.text("H");
        add_pixels(out, RIGHT);
        out.text("\" fill=\"none\" stroke=\"#888\"/>\n");
        let step = rows.len().div_ceil(MOST_NAMES).max(1);
        for (row, told) in rows.iter().enumerate() {
            if row.checked_rem(step).unwrap_or(1) == 0 {
                self.add_row(out, row, told);
            }
        }
    }
}

/// Adds the line of a row, and its rounds.
fn add_name(out: &mut Draft, told: &Told) {
    out.number(told.place.line as u64);
    let rounds = told.place.rounds.as_slice();
    if !rounds.is_empty() {
        out.text("/");
        add_rounds(out, rounds);
    }
}
