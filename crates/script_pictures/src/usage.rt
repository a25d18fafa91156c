//! The smaller picture: frames and swap of the machine.

use crate::axis::Ticks;
use crate::curves::Columns;
use crate::sheet::Sheet;
use charts::{Machine, Sizes};
use drafts::Draft;
use pictures::{
    LEFT, Label, Pen, RIGHT, add_attribute, add_label, add_pixels, add_point, draw_labels,
};
use std::alloc::AllocError;

/// A curve of the machine.
#[derive(Clone, Copy)]
enum Curve {
    Used,
    Free,
    Swap,
}

impl Curve {
    fn pages(self, machine: Machine) -> u64 {
        match self {
            Curve::Used => machine.used,
            Curve::Free => machine.free,
            Curve::Swap => machine.swap,
        }
    }

    fn name(self) -> &'static str {
        match self {
            Curve::Used => "memory in use",
            Curve::Free => "free memory",
            Curve::Swap => "swap in use",
        }
    }

    fn colour(self) -> &'static str {
        match self {
            Curve::Used => "#333",
            Curve::Free => "#1b9e3a",
            Curve::Swap => "#d95f02",
        }
    }

    fn dashes(self) -> &'static str {
        match self {
            Curve::Used => "none",
            Curve::Free => "10 4",
            Curve::Swap => "4 4",
        }
    }

    /// Draws it, and adds its label.
    fn draw(
        self,
        out: &mut Draft,
        sheet: Sheet,
        columns: Columns<'_>,
        labels: &mut Vec<Label>,
    ) -> Result<(), AllocError> {
        let mut pen = Pen::new(sheet.alloc);
        let mut last = 0u64;
        for (row, place) in columns.rows.iter().zip(columns.places.iter()) {
            last = self.pages(row.machine);
            pen.go(place.across, sheet.down(last));
        }
        pen.lift(RIGHT);
        out.text("<path d=\"");
        out.add(&pen.path);
        out.text("\" fill=\"none\"");
        add_attribute(out, "stroke", self.colour());
        out.text(" stroke-width=\"2\"");
        add_attribute(out, "stroke-dasharray", self.dashes());
        out.text("/>\n");
        add_named(sheet, labels, self.name(), last, self.colour())
    }
}

/// Adds a label with the name and the size of something.
fn add_named(
    sheet: Sheet,
    labels: &mut Vec<Label>,
    name: &str,
    pages: u64,
    colour: &'static str,
) -> Result<(), AllocError> {
    let mut text = Draft::new(sheet.alloc);
    text.text(name);
    text.text(" ");
    text.write_fmt(sheet.size(pages));
    add_label(labels, Label::new(sheet.down(pages), colour, text))
}

/// Draws a watermark, and adds its label.
fn draw_watermark(
    out: &mut Draft,
    sheet: Sheet,
    labels: &mut Vec<Label>,
    name: &str,
    pages: u64,
) -> Result<(), AllocError> {
    out.text("<path d=\"");
    add_point(out, "M", LEFT, sheet.down(pages));
    out.text("H");
    add_pixels(out, RIGHT);
    out.text("\" stroke=\"#7b4fb5\" stroke-dasharray=\"2 3\"/>\n");
    add_named(sheet, labels, name, pages, "#7b4fb5")
}

/// Draws the frames in use, the free ones with the watermarks, and the swap in use.
pub fn draw_machine(
    out: &mut Draft,
    sheet: Sheet,
    ticks: &Ticks,
    columns: Columns<'_>,
    sizes: Sizes,
) -> Result<(), AllocError> {
    sheet.add_sizes(out)?;
    sheet.add_border(out, ticks);
    if columns.rows.is_empty() {
        return Ok(());
    }
    let mut labels = Vec::new(sheet.alloc);
    let marks = sizes.watermarks;
    if marks.high > 0 {
        draw_watermark(out, sheet, &mut labels, "low mark", u64::from(marks.low))?;
        draw_watermark(out, sheet, &mut labels, "high mark", u64::from(marks.high))?;
    }
    Curve::Used.draw(out, sheet, columns, &mut labels)?;
    Curve::Free.draw(out, sheet, columns, &mut labels)?;
    if sizes.swap > 0 {
        Curve::Swap.draw(out, sheet, columns, &mut labels)?;
    }
    draw_labels(out, labels, sheet.bottom);
    Ok(())
}
