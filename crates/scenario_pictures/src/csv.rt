//! Rows as comma-separated values.

use crate::places::Place;
use crate::printing::{add_names, add_rounds};
use crate::rows::{Group, Machine, Row, finite};
use drafts::Draft;
use machine::amount::Amount;
use scenario_amounts::bytes_of;
use scenario_words::amount::PageSize;
use std::alloc::{AllocError, Global};

/// The names of the columns that all groups of a row have.
const COMMON: &str = "line,rounds,phase,used,free,swap,read_in,written_out,dropped,died";

/// The names of the columns of a group.
const OF_GROUP: &str = "group,current,anon,file,max,min,low,refused,killed";

/// The first line.
pub fn csv_head(alloc: Global) -> Result<String, AllocError> {
    format!(in alloc; "{COMMON},{OF_GROUP}\n")
}

/// Adds a cell. It is quoted if it has a comma, a quote or the end of a line.
pub fn add_csv_cell(text: &mut Draft, cell: &str) {
    let is_plain = cell.bytes().all(|byte| byte != b','
        && byte != b'"'
        && byte != b'\n'
        && byte != b'\r');
    if is_plain {
        text.text(cell);
        return;
    }
    text.text("\"");
    for character in cell.chars() {
        if character == '"' {
            text.text("\"");
        }
        text.character(character);
    }
    text.text("\"");
}

/// Adds a cell with names.
pub fn add_csv_names(text: &mut Draft, alloc: Global, names: &[String]) -> Result<(), AllocError> {
    let mut cell = Draft::new(alloc);
    add_names(&mut cell, names);
    add_csv_cell(text, cell.finish()?.as_str());
    Ok(())
}

/// Adds a comma, and the bytes of so many pages.
fn add_size(text: &mut Draft, page: PageSize, pages: u64) {
    text.text(",");
    text.number(bytes_of(page, pages));
}

/// Adds a comma, and a setting.
fn add_amount(text: &mut Draft, page: PageSize, amount: Amount) {
    match finite(amount) {
        None => text.text(",max"),
        Some(pages) => add_size(text, page, pages),
    }
}

/// Adds the line, and the rounds with points between them.
fn add_place(text: &mut Draft, place: &Place) {
    text.number(place.line as u64);
    text.text(",");
    add_rounds(text, place.rounds.as_slice());
}

/// Adds the cells of the machine, each after a comma.
fn add_machine(text: &mut Draft, page: PageSize, machine: Machine) {
    add_size(text, page, machine.used);
    add_size(text, page, machine.free);
    add_size(text, page, machine.swap);
    add_size(text, page, machine.moved.read);
    add_size(text, page, machine.moved.written);
    add_size(text, page, machine.moved.dropped);
}

/// The cells that all groups of a row have.
fn common_cells(alloc: Global, page: PageSize, row: &Row<'_>) -> Result<String, AllocError> {
    let mut text = Draft::new(alloc);
    let place = row.place;
    add_place(&mut text, place);
    text.text(",");
    add_csv_cell(&mut text, row.phase);
    add_machine(&mut text, page, row.machine);
    text.text(",");
    add_csv_names(&mut text, alloc, row.died)?;
    text.text(",");
    text.finish()
}

/// Adds the cells of a group, and the end of the line.
fn add_group(text: &mut Draft, page: PageSize, group: &Group<'_>) {
    add_csv_cell(text, group.path);
    let stats = group.stats;
    add_size(text, page, stats.current);
    add_size(text, page, stats.anon);
    add_size(text, page, stats.file);
    add_amount(text, page, stats.max);
    add_amount(text, page, stats.min);
    add_amount(text, page, stats.low);
    text.text(",");
    text.number(stats.counts.refused);
    text.text(",");
    text.number(stats.counts.killed);
    text.text("\n");
}

/// A line for each group of a row.
pub fn csv_row(alloc: Global, page: PageSize, row: &Row<'_>) -> Result<String, AllocError> {
    let common = common_cells(alloc, page, row)?;
    let mut text = Draft::new(alloc);
    for group in row.groups.iter() {
        text.text(common.as_str());
        add_group(&mut text, page, group);
    }
    text.finish()
}
