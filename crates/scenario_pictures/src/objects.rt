//! Rows and groups as JSON.

use crate::measures::Moved;
use crate::object::Object;
use crate::rows::{Counts, Group, Machine, Row, finite};
use machine::amount::Amount;
use scenario_amounts::bytes_of;
use scenario_words::amount::PageSize;
use std::alloc::{AllocError, Global};

/// Adds a size in bytes.
fn add_size(object: &mut Object, key: &str, page: PageSize, pages: u64) {
    object.number(key, bytes_of(page, pages));
}

/// Adds a setting in bytes. `null` is no limit.
fn add_amount(object: &mut Object, key: &str, page: PageSize, amount: Amount) {
    let bytes = match finite(amount) {
        None => None,
        Some(pages) => Some(bytes_of(page, pages)),
    };
    object.perhaps(key, bytes);
}

/// Adds what was moved, in bytes.
pub fn add_moved(object: &mut Object, page: PageSize, moved: Moved) {
    add_size(object, "read_in", page, moved.read);
    add_size(object, "written_out", page, moved.written);
    add_size(object, "dropped", page, moved.dropped);
}

/// Begins the object of a group. The counts are those since `then`.
pub fn open_group(object: &mut Object, page: PageSize, group: &Group<'_>, then: Counts) {
    let stats = group.stats;
    let counts = stats.counts.since(then);
    object.open();
    object.text("path", group.path);
    add_size(object, "current", page, stats.current);
    add_size(object, "anon", page, stats.anon);
    add_size(object, "file", page, stats.file);
    add_amount(object, "max", page, stats.max);
    add_amount(object, "min", page, stats.min);
    add_amount(object, "low", page, stats.low);
    object.number("refused", counts.refused);
    object.number("killed", counts.killed);
}

/// Adds the numbers of the machine.
fn add_machine(object: &mut Object, page: PageSize, machine: Machine) {
    add_size(object, "used", page, machine.used);
    add_size(object, "free", page, machine.free);
    add_size(object, "swap", page, machine.swap);
    add_moved(object, page, machine.moved);
}

/// The object of a row, in a line of its own.
pub fn row_object(alloc: Global, page: PageSize, row: &Row<'_>) -> Result<Vec<u8>, AllocError> {
    let mut object = Object::new(alloc, "row");
    let place = row.place;
    object.place(place.line, place.rounds.as_slice());
    object.text("phase", row.phase);
    add_machine(&mut object, page, row.machine);
    object.texts("died", row.died);
    object.begin("groups");
    for group in row.groups.iter() {
        open_group(&mut object, page, group, Counts::default());
        object.close();
    }
    object.end();
    object.line()
}
