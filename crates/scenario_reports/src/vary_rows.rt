//! What came of runs with several values: a row for each.

use crate::asked::Prints;
use crate::summary::Summary;
use crate::values::Values;
use drafts::Draft;
use scenario_amounts::{
    add_cell, add_drafted_cell, add_gap, add_number, add_size_in_unit, bytes_of,
};
use scenario_pictures::{Object, add_csv_cell, add_csv_names, add_moved, add_names};
use scenario_words::amount::PageSize;
use std::alloc::{AllocError, Global};

/// The width of the columns of sizes.
const SIZE_COLUMN: usize = 14;

/// The rows of the runs, and how they are printed.
#[derive(Clone, Copy)]
pub struct VaryRows<'v> {
    values: &'v Values<'v>,
    prints: Prints,
    /// The width of the first column of a table.
    width: usize,
}

fn characters(text: &str) -> usize {
    text.chars().count()
}

fn longest(values: &Values<'_>) -> usize {
    let mut width = characters(values.name);
    for word in &values.words {
        width = width.max(characters(word.as_str()));
    }
    width
}

fn add_size_cell(alloc: Global, text: &mut Draft, page: PageSize, pages: u64) {
    let mut cell = Draft::new(alloc);
    add_size_in_unit(&mut cell, page, pages);
    add_drafted_cell(text, SIZE_COLUMN, &cell);
}

fn yes_or_no(holds: bool) -> &'static str {
    if holds { "yes" } else { "no" }
}

/// Adds who was killed.
fn add_killed(text: &mut Draft, summary: &Summary) {
    if summary.killed == 0 {
        text.text("nobody");
        return;
    }
    add_names(text, summary.first.as_slice());
    if summary.others() > 0 {
        text.text(" and ");
        add_number(text, summary.others() as u64);
        text.text(" more");
    }
}

fn add_table_row(alloc: Global, text: &mut Draft, width: usize, value: &str, summary: &Summary) {
    text.text(value);
    add_gap(text, width, characters(value));
    let page = summary.page;
    let moved = summary.moved;
    add_size_cell(alloc, text, page, moved.read);
    add_size_cell(alloc, text, page, moved.written);
    add_size_cell(alloc, text, page, moved.dropped);
    add_cell(text, SIZE_COLUMN, yes_or_no(summary.well));
    text.text("  ");
    add_killed(text, summary);
}

fn add_csv_row(
    alloc: Global,
    text: &mut Draft,
    value: &str,
    summary: &Summary,
) -> Result<(), AllocError> {
    add_csv_cell(text, value);
    let moved = summary.moved;
    for pages in [moved.read, moved.written, moved.dropped] {
        text.text(",");
        text.number(bytes_of(summary.page, pages));
    }
    text.text(",");
    text.text(yes_or_no(summary.well));
    text.text(",");
    text.number(summary.killed as u64);
    text.text(",");
    add_csv_names(text, alloc, summary.first.as_slice())
}

/// The object of a row, in a line of its own.
fn row_object(
    alloc: Global,
    name: &str,
    value: &str,
    summary: &Summary,
) -> Result<Vec<u8>, AllocError> {
    let mut object = Object::new(alloc, "value");
    object.text("name", name);
    object.text("value", value);
    add_moved(&mut object, summary.page, summary.moved);
    object.boolean("as_expected", summary.well);
    object.number("killed", summary.killed as u64);
    object.texts("first_killed", summary.first.as_slice());
    object.line()
}

impl<'v> VaryRows<'v> {
    pub fn new(values: &'v Values<'v>, prints: Prints) -> VaryRows<'v> {
        VaryRows {
            values,
            prints,
            width: longest(values),
        }
    }

    /// The line above the rows. JSON has none.
    pub fn heading(self, alloc: Global) -> Result<String, AllocError> {
        let mut text = Draft::new(alloc);
        let name = self.values.name;
        match self.prints {
            Prints::Json => return text.finish(),
            Prints::Csv => {
                add_csv_cell(&mut text, name);
                text.text(",read_in,written_out,dropped,as_expected,killed,first_killed");
            }
            Prints::Report | Prints::Chart | Prints::Unmet => {
                text.text(name);
                add_gap(&mut text, self.width, characters(name));
                for title in ["read in", "written out", "dropped", "as expected"] {
                    add_cell(&mut text, SIZE_COLUMN, title);
                }
                text.text("  killed");
            }
        }
        text.text("\n");
        text.finish()
    }

    /// The row of a run with this value.
    pub fn row(self, alloc: Global, value: &str, summary: &Summary) -> Result<Vec<u8>, AllocError> {
        let mut text = Draft::new(alloc);
        match self.prints {
            Prints::Json => return row_object(alloc, self.values.name, value, summary),
            Prints::Csv => add_csv_row(alloc, &mut text, value, summary)?,
            Prints::Report | Prints::Chart | Prints::Unmet => {
                add_table_row(alloc, &mut text, self.width, value, summary)
            }
        }
        text.text("\n");
        Ok(text.finish()?.into_bytes())
    }
}
