//! What is said of a run: names, kills, tables and the last line.

use crate::causes::{Doomed, Unmoved, path_at};
use crate::tasks::Tasks;
use book::{Book, GroupLook};
use drafts::Draft;
use machine::amount::Amount;
use machine::event::Cause;
use machine::record::{Direction, Kind};
use machine::text::Text;
use scenario_amounts::{
    add_cell, add_drafted_cell, add_gap, add_number, add_size, add_size_in_unit,
};
use scenario_lines::scene::Scene;
use scenario_pictures::{Counts, Moved, Stats};
use scenario_words::amount::PageSize;
use scenario_words::header::Header;
use scenario_words::names::Names;
use std::alloc::{AllocError, Global};

/// The width of the first column of a table.
const FIRST_COLUMN: usize = 26;

/// Adds the name of a task, or its number if the scenario has none for it.
pub fn add_task(text: &mut Draft, scene: &Scene, task: u32) {
    match scene.tasks.name_of(task) {
        None => text.number(u64::from(task)),
        Some((name, None)) => text.text(name),
        Some((name, Some(index))) => write!(text, "{name}[{index}]"),
    }
}

/// Adds the names of tasks, with commas between them.
pub fn add_tasks(text: &mut Draft, scene: &Scene, tasks: &[u32]) {
    for (place, task) in tasks.iter().enumerate() {
        if place > 0 {
            text.text(", ");
        }
        add_task(text, scene, *task);
    }
}

/// Adds the true path of a script's path.
pub fn add_true_path(text: &mut Draft, names: &Names, path: &str) {
    for (place, name) in path.split('/').enumerate() {
        if place > 0 {
            text.text("/");
        }
        text.text(names.true_name(name));
    }
}

/// What follows the first word of a line. Quotes hide spaces.
fn after_first(line: &str) -> &str {
    let mut inside = false;
    for (place, byte) in line.as_bytes().iter().enumerate() {
        if *byte == b'"' {
            inside = !inside;
        } else if *byte == b' ' && !inside {
            return match line.split_at_checked(place) {
                None => "",
                Some((_, rest)) => rest,
            };
        }
    }
    ""
}

/// Adds the words of a scenario's line. If it is of tasks, the first word is the name of the one that it is of here.
pub fn add_line(text: &mut Draft, scene: &Scene, line: &str, task: Option<u32>) {
    match task {
        None => text.text(line),
        Some(task) => {
            add_task(text, scene, task);
            text.text(after_first(line));
        }
    }
}

/// Adds why room was needed, and where.
fn add_limit(text: &mut Draft, names: &Names, page: PageSize, paths: &[Text], doomed: Doomed) {
    if let Cause::Frame = doomed.cause {
        text.text("on the machine: no frame is free and");
        return;
    }
    text.text("at or below ");
    if let Some(place) = doomed.limit {
        add_true_path(text, names, path_at(paths, place));
    }
    match (doomed.cause, doomed.max) {
        (Cause::Charge(_), Amount::Pages(max)) => {
            text.text(", whose memory.max ");
            add_size_in_unit(text, page, max);
            text.text(" is reached:");
        }
        (Cause::Lower(_), Amount::Pages(max)) => {
            text.text(", whose ");
            add_size_in_unit(text, page, doomed.usage);
            text.text(" are more than its new memory.max ");
            add_size_in_unit(text, page, max);
            text.text(":");
        }
        _ => text.text(":"),
    }
}

/// Adds which other tasks were as large, and how the choice was made.
fn add_ties(text: &mut Draft, scene: &Scene, doomed: Doomed) {
    let Some(first) = doomed.first_tied else {
        return;
    };
    text.text("; ");
    add_task(text, scene, first.0);
    match (doomed.second_tied, doomed.victim.as_large) {
        (None, _) => text.text(" is"),
        (Some(second), 2) => {
            text.text(" and ");
            add_task(text, scene, second.0);
            text.text(" are");
        }
        (Some(second), others) => {
            text.text(", ");
            add_task(text, scene, second.0);
            write!(text, " and {} more are", others.saturating_sub(2));
        }
    }
    text.text(
        " equally large, and the first in the scenario is chosen (Linux does not promise which)",
    );
}

/// Adds the page of a file that has this block of the device. The swap blocks are the first ones.
fn add_file_page(text: &mut Draft, header: &Header, block: u32) {
    let mut page = block.saturating_sub(header.swap);
    for file in header.files.iter() {
        if page < file.pages {
            text.text("the page at ");
            add_size_in_unit(text, header.page, u64::from(page));
            text.text(" of file ");
            text.text(file.name.as_str());
            return;
        }
        page = page.saturating_sub(file.pages);
    }
    text.text("a page of a file");
}

/// Adds which page the device could not move, and which group is charged for it. `makes_room` says whether the page was
/// to leave its frame so that an access gets room.
pub fn add_unmoved(
    text: &mut Draft,
    scene: &Scene,
    paths: &[Text],
    unmoved: Unmoved,
    makes_room: bool,
) {
    text.text("the device failed: ");
    match (unmoved.page.kind, unmoved.page.mapping) {
        (Kind::File, _) => add_file_page(text, &scene.header, unmoved.block),
        (Kind::Anon, None) => text.text("a page that no task maps any more"),
        (Kind::Anon, Some(mapping)) => {
            text.text("the page at ");
            add_size_in_unit(text, scene.page(), u64::from(mapping.page));
            text.text(" of ");
            add_task(text, scene, mapping.task.0);
        }
    }
    if let Some(place) = unmoved.group {
        text.text(" (charged to ");
        add_true_path(text, &scene.names, path_at(paths, place));
        text.text(")");
    }
    match unmoved.direction {
        Direction::In => text.text(" could not be read in"),
        Direction::Out if makes_room => text.text(" could not be written out to make room"),
        Direction::Out => text.text(" could not be written out"),
    }
}

/// Adds how large the task was, among how many, and why room was needed.
pub fn add_reason(
    text: &mut Draft,
    scene: &Scene,
    names: &Names,
    page: PageSize,
    paths: &[Text],
    doomed: Doomed,
) {
    add_size_in_unit(text, page, doomed.victim.pages as u64);
    if doomed.victim.tasks == 1 {
        text.text(", the only task ");
    } else {
        write!(text, ", the largest of {} tasks ", doomed.victim.tasks);
    }
    add_limit(text, names, page, paths, doomed);
    text.text(" nothing can be reclaimed");
    add_ties(text, scene, doomed);
}

/// Adds the first line of a table, after its place.
pub fn add_head(text: &mut Draft, characters: usize) {
    add_gap(text, FIRST_COLUMN, characters);
    add_cell(text, 10, "current");
    add_cell(text, 10, "anon");
    add_cell(text, 10, "file");
    add_cell(text, 9, "at max");
    add_cell(text, 7, "killed");
    add_cell(text, 10, "in");
    add_cell(text, 10, "out");
    add_cell(text, 10, "dropped");
    text.text("\n");
}

/// Adds the cell of a size.
fn add_size_cell(alloc: Global, text: &mut Draft, page: PageSize, pages: u64) {
    let mut cell = Draft::new(alloc);
    add_size(&mut cell, page, pages);
    add_drafted_cell(text, 10, &cell);
}

fn add_count_cell(alloc: Global, text: &mut Draft, width: usize, count: u64) {
    let mut cell = Draft::new(alloc);
    cell.number(count);
    add_drafted_cell(text, width, &cell);
}

/// Adds the row of a group.
pub fn add_row(
    alloc: Global,
    text: &mut Draft,
    page: PageSize,
    path: &str,
    stats: Stats,
    then: Counts,
    moved: Moved,
) {
    text.text("  ");
    text.text(path);
    add_gap(text, FIRST_COLUMN, path.chars().count().saturating_add(2));
    add_size_cell(alloc, text, page, stats.current);
    add_size_cell(alloc, text, page, stats.anon);
    add_size_cell(alloc, text, page, stats.file);
    let counts = stats.counts.since(then);
    add_count_cell(alloc, text, 9, counts.refused);
    add_count_cell(alloc, text, 7, counts.killed);
    add_size_cell(alloc, text, page, moved.read);
    add_size_cell(alloc, text, page, moved.written);
    add_size_cell(alloc, text, page, moved.dropped);
    text.text("\n");
}

/// Adds a line for each task that has lines after its death.
pub fn add_late(
    alloc: Global,
    text: &mut Draft,
    scene: &Scene,
    tasks: &Tasks,
) -> Result<(), AllocError> {
    let late = tasks.late(alloc)?;
    for (task, count) in late.as_slice() {
        add_task(text, scene, *task);
        text.text(": ");
        add_number(text, *count);
        let lines = if *count == 1 { "line" } else { "lines" };
        writeln!(text, " {lines} after its death");
    }
    Ok(())
}

/// Adds a number of things, each of which is called so.
fn add_count(text: &mut Draft, number: u64, name: &str) {
    text.number(number);
    text.text(" ");
    text.text(name);
    if number != 1 {
        text.text("s");
    }
}

/// Adds the last line.
pub fn add_totals(
    text: &mut Draft,
    scene: &Scene,
    groups: usize,
    tasks: u32,
    killed: usize,
    moved: Moved,
) {
    let page = scene.page();
    add_size_in_unit(text, page, u64::from(scene.header.frames));
    text.text(" of memory, ");
    if scene.header.swap == 0 {
        text.text("no swap");
    } else {
        add_size(text, page, u64::from(scene.header.swap));
        text.text(" swap");
    }
    text.text(", ");
    add_count(text, groups as u64, "group");
    text.text(", ");
    add_count(text, u64::from(tasks), "task");
    write!(text, "; {killed} killed; ");
    moved.add(text, page);
    text.text("\n");
}

/// The counts of a group so far.
pub fn counts_of(look: GroupLook) -> Counts {
    Counts {
        refused: look.local.max,
        killed: look.local.oom_kill,
    }
}

/// The group of this script's path as it is now: its number among all groups that were ever made, and its numbers.
pub fn stats_of(book: &Book, path: &str) -> Option<(u32, Stats)> {
    let look = book.look(path)?;
    let stat = book.stat(path)?;
    let stats = Stats {
        current: look.usage,
        anon: stat.anon,
        file: stat.file,
        max: look.max,
        min: look.min,
        low: look.low,
        counts: counts_of(look),
    };
    Some((look.number, stats))
}
