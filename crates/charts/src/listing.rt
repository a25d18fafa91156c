//! The table: a line for each line of the script and each group.

ghost use Rattle.std.specs.Prelude.{◌≡◌, ℕ, ◌+◌, ◌<◌, ◌++◌, ◌∷◌, [], List, map, drop, get_or, length, replicate, true, IfOk, OnOk, decimal, string_bytes};
ghost use Rattle.std.specs.List.{list_any, flat_map};
ghost use Rattle.charts.specs.Watched.{Seen, seen_of, expanded};
ghost use Rattle.charts.specs.Listed.{cell, amount_text, charges_text, settings_text, counts_text, machine_text, is_special, doubled, text_cell, end_text, cells_text, line_text, look_text, stat_or_none, groups_text, is_last, phase_of, steps_text, table_text};

use crate::watching::{Machine, Row, Shown, Watched};
use book::GroupLook;
use machine::amount::Amount;
use machine::page_size::PageSize;
use machine::record::{EventCounts, MemoryStat};
use std::alloc::{AllocError, Global};

const HEAD: &[u8] =
    b"line,group,current,anon,file,max,min,low,refused,oom,oom_kill,used,free,swap,phase\n";

/// What all groups have in common after a line.
#[derive(Clone, Copy)]
struct Common<'t> {
    line: usize,
    /// The name of the phase.
    phase: &'t [u8],
    machine: Machine,
    page_size: PageSize,
}

/// A setting in bytes, or `max`.
fn amount_text(alloc: Global, page_size: PageSize, amount: Amount) -> Result<String, AllocError>
    ensures { IfOk result (λ s. string_bytes s ≡ amount_text page_size.bytes amount) }
{
    match amount {
        Amount::Max => String::from_str(alloc, "max"),
        Amount::Pages(pages) => {
            let bytes = page_size.bytes_of(pages);
            format!(in alloc; "{bytes}")
        }
    }
}

/// Adds a cell, with its comma.
fn add_cell(text: &mut Vec<u8>, value: &[u8]) -> Result<(), AllocError>
    ensures { OnOk result (text.new.items ≡ text.old.items ++ cell value.now) }
{
    text.extend_from_slice(value)?;
    text.extend_from_slice(b",")
}

/// Adds the cell of a number.
fn add_number(alloc: Global, text: &mut Vec<u8>, number: u128) -> Result<(), AllocError>
    ensures { OnOk result (text.new.items ≡ text.old.items ++ cell (decimal number)) }
{
    let digits = format!(in alloc; "{number}")?;
    add_cell(text, digits.as_bytes())
}

/// Adds the cell of a setting.
fn add_amount(
    alloc: Global,
    text: &mut Vec<u8>,
    page_size: PageSize,
    amount: Amount,
) -> Result<(), AllocError>
    ensures { OnOk result (text.new.items ≡ text.old.items ++ cell (amount_text page_size.bytes amount)) }
{
    let digits = amount_text(alloc, page_size, amount)?;
    add_cell(text, digits.as_bytes())
}

/// Adds the cells of what was counted.
fn add_counts(alloc: Global, text: &mut Vec<u8>, counts: EventCounts) -> Result<(), AllocError>
    ensures { OnOk result (text.new.items ≡ text.old.items ++ counts_text counts) }
{
    add_number(alloc, text, u128::from(counts.max))?;
    add_number(alloc, text, u128::from(counts.oom))?;
    add_number(alloc, text, u128::from(counts.oom_kill))
}

/// Adds the cells of what is charged.
fn add_charges(
    alloc: Global,
    text: &mut Vec<u8>,
    page_size: PageSize,
    usage: u64,
    stat: MemoryStat,
) -> Result<(), AllocError>
    ensures { OnOk result (text.new.items ≡ text.old.items ++ charges_text page_size.bytes usage stat) }
{
    add_number(alloc, text, page_size.bytes_of(usage))?;
    add_number(alloc, text, page_size.bytes_of(stat.anon))?;
    add_number(alloc, text, page_size.bytes_of(stat.file))
}

/// Adds the cells of its settings.
fn add_settings(
    alloc: Global,
    text: &mut Vec<u8>,
    page_size: PageSize,
    look: GroupLook,
) -> Result<(), AllocError>
    ensures { OnOk result (text.new.items ≡ text.old.items ++ settings_text page_size.bytes look) }
{
    add_amount(alloc, text, page_size, look.max)?;
    add_amount(alloc, text, page_size, look.min)?;
    add_amount(alloc, text, page_size, look.low)
}

/// Adds the cells of the machine.
fn add_machine(
    alloc: Global,
    text: &mut Vec<u8>,
    page_size: PageSize,
    machine: Machine,
) -> Result<(), AllocError>
    ensures { OnOk result (text.new.items ≡ text.old.items ++ machine_text page_size.bytes machine) }
{
    add_number(alloc, text, page_size.bytes_of(machine.used))?;
    add_number(alloc, text, page_size.bytes_of(machine.free))?;
    add_number(alloc, text, page_size.bytes_of(machine.swap))
}

/// Whether a text with this byte has to be in quotes.
fn is_special(byte: u8) -> bool
    ensures { result ≡ is_special byte }
{
    byte == b',' || byte == b'"' || byte == b'\r'
}

fn has_special(value: &[u8]) -> bool
    ensures { result ≡ list_any is_special value.now }
{
    value.iter().any(|byte| is_special(*byte))
}

/// Adds a byte of a text in quotes. A quote is doubled.
fn add_doubled(text: &mut Vec<u8>, byte: u8) -> Result<(), AllocError>
    ensures { OnOk result (text.new.items ≡ text.old.items ++ doubled byte) }
{
    if byte == b'"' {
        text.extend_from_slice(b"\"\"")
    } else {
        text.extend_from_slice(&[byte])
    }
}

/// Adds the bytes of a text in quotes.
fn add_all_doubled(text: &mut Vec<u8>, value: &[u8]) -> Result<(), AllocError>
    ensures { OnOk result (text.new.items ≡ text.old.items ++ flat_map doubled value.now) }
{
    for at in 0..value.len() {
        add_doubled(text, value[at])?;
    }
    Ok(())
}

/// Adds a text without its comma, in quotes if it needs them.
fn add_text(text: &mut Vec<u8>, value: &[u8]) -> Result<(), AllocError>
    ensures { OnOk result (text.new.items ≡ text.old.items ++ text_cell value.now) }
{
    if !has_special(value) {
        return text.extend_from_slice(value);
    }
    text.extend_from_slice(b"\"")?;
    add_all_doubled(text, value)?;
    text.extend_from_slice(b"\"")
}

/// Adds the last cell, and the end of the line.
fn add_phase(text: &mut Vec<u8>, phase: &[u8]) -> Result<(), AllocError>
    ensures { OnOk result (text.new.items ≡ text.old.items ++ end_text phase.now) }
{
    add_text(text, phase)?;
    text.extend_from_slice(b"\n")
}

/// Adds the cells of a group.
fn add_cells(
    alloc: Global,
    text: &mut Vec<u8>,
    page_size: PageSize,
    line: usize,
    path: &str,
    look: GroupLook,
    stat: MemoryStat,
) -> Result<(), AllocError>
    ensures { OnOk result (text.new.items ≡ text.old.items ++ cells_text page_size.bytes line path.now look stat) }
{
    add_number(alloc, text, line as u128)?;
    add_cell(text, path.as_bytes())?;
    add_charges(alloc, text, page_size, look.usage, stat)?;
    add_settings(alloc, text, page_size, look)?;
    add_counts(alloc, text, look.local)
}

/// Adds the line of a group.
fn add_look(
    alloc: Global,
    text: &mut Vec<u8>,
    common: Common<'_>,
    path: &str,
    look: GroupLook,
    stat: MemoryStat,
) -> Result<(), AllocError>
    ensures { OnOk result (text.new.items ≡ text.old.items ++ line_text common.entry.page_size.bytes common.entry.line common.entry.phase.now common.entry.machine path.now look stat) }
{
    add_cells(alloc, text, common.page_size, common.line, path, look, stat)?;
    add_machine(alloc, text, common.page_size, common.machine)?;
    add_phase(text, common.phase)
}

/// What the pages of a group hold; zeros if it was not looked at.
fn stat_or_none(stat: Option<MemoryStat>) -> MemoryStat
    ensures { result ≡ stat_or_none stat }
{
    match stat {
        None => MemoryStat { anon: 0, file: 0 },
        Some(stat) => stat,
    }
}

/// Adds the line of a group, if it exists.
fn add_line(
    alloc: Global,
    text: &mut Vec<u8>,
    common: Common<'_>,
    path: &str,
    shown: &Shown,
) -> Result<(), AllocError>
    ensures { OnOk result (text.new.items ≡ text.old.items ++ look_text common.entry.page_size.bytes common.entry.line common.entry.phase.now common.entry.machine path.now shown.now.stat shown.now.look) }
{
    match shown.look {
        None => Ok(()),
        Some(look) => add_look(alloc, text, common, path, look, stat_or_none(shown.stat)),
    }
}

/// Adds the lines of all groups after one step.
fn add_groups(
    alloc: Global,
    text: &mut Vec<u8>,
    common: Common<'_>,
    paths: &[&str],
    groups: &[Shown],
) -> Result<(), AllocError>
    ensures { OnOk result (text.new.items ≡ text.old.items ++ groups_text common.entry.page_size.bytes common.entry.line common.entry.phase.now common.entry.machine (map (λ p. p.now) paths.now) groups.now) }
{
    for at in 0..paths.len() {
        if at >= groups.len() {
            return Ok(());
        }
        add_line(alloc, text, common, paths[at], &groups[at])?;
    }
    Ok(())
}

/// Whether the step at this place is the last of its line.
fn is_last(lines: &[usize], step: usize) -> bool
    requires { step < length lines.now }
    ensures { result ≡ is_last (get_or lines.now step 0) (drop (step + 1) lines.now) }
{
    match lines.get(step + 1) {
        None => true,
        Some(next) => *next != lines[step],
    }
}

/// The phase of the line of this number. It has no name if there is no such line.
fn phase_of<'t>(phases: &[&'t [u8]], line: usize) -> &'t [u8]
    ensures { result.now ≡ phase_of (map (λ p. p.now) phases.now) line }
{
    match phases.get(line.saturating_sub(1)) {
        None => b"",
        Some(phase) => *phase,
    }
}

/// Adds the table's lines for the row's steps, the first of which is `step`. The result is the step after the last of
/// them.
fn add_row(
    alloc: Global,
    text: &mut Vec<u8>,
    page_size: PageSize,
    lines: &[usize],
    phases: &[&[u8]],
    paths: &[&str],
    row: &Row,
    step: usize,
) -> Result<usize, AllocError>
    ensures { IfOk result (λ next. (rest : List Seen) →
        text.old.items ++ steps_text page_size.bytes (drop step lines.now) (map (λ p. p.now) phases.now) (map (λ p. p.now) paths.now) (replicate row.now.steps (seen_of row.now) ++ rest)
        ≡ text.new.items ++ steps_text page_size.bytes (drop next lines.now) (map (λ p. p.now) phases.now) (map (λ p. p.now) paths.now) rest) }
{
    let mut next = step;
    for _left in 0..row.steps {
        if next >= lines.len() {
            return Ok(next);
        }
        if is_last(lines, next) {
            let line = lines[next];
            let common = Common {
                line,
                phase: phase_of(phases, line),
                machine: row.machine,
                page_size,
            };
            add_groups(alloc, text, common, paths, &row.groups)?;
        }
        next += 1;
    }
    Ok(next)
}

/// The table of these rows.
fn table_of(
    alloc: Global,
    page_size: PageSize,
    lines: &[usize],
    phases: &[&[u8]],
    paths: &[&str],
    rows: &[Row],
) -> Result<Vec<u8>, AllocError>
    ensures { IfOk result (λ text. text.items ≡ table_text page_size.bytes lines.now (map (λ p. p.now) phases.now) (map (λ p. p.now) paths.now) (expanded rows.now)) }
{
    let mut text = Vec::from_slice(alloc, HEAD)?;
    let mut step = 0;
    for at in 0..rows.len() {
        step = add_row(
            alloc, &mut text, page_size, lines, phases, paths, &rows[at], step,
        )?;
    }
    Ok(text)
}

/// The table of what was watched (comma-separated values), with a head. `lines` has for each step the number of its
/// line of the script, and `phases` for each line of the script the name of its phase. If a line has several steps, the
/// last counts. A group that does not exist has no line. Amounts are bytes, of pages of this size.
///
/// `refused`, `oom` and `oom_kill` are what was counted at the group itself so far. They count charges that were
/// refused at its max; reliefs that killed, or found no task to kill; and tasks of it that were killed. `used`, `free`
/// and `swap` are of the whole machine: frames with and without a page, and swap blocks with one.
pub fn table(
    alloc: Global,
    page_size: PageSize,
    lines: &[usize],
    phases: &[&[u8]],
    paths: &[&str],
    watched: &Watched<'_>,
) -> Result<Vec<u8>, AllocError>
    ensures { IfOk result (λ text. text.items ≡ table_text page_size.bytes lines.now (map (λ p. p.now) phases.now) (map (λ p. p.now) paths.now) (expanded watched.now.rows.items)) }
{
    table_of(alloc, page_size, lines, phases, paths, &watched.rows)
}
