//! The list of outcomes.

ghost use Rattle.std.specs.Prelude.{◌≡◌, ◌++◌, ◌+◌, map, length, IfOk, OnOk};
ghost use Rattle.std.specs.String.{string_bytes};
ghost use Rattle.std.specs.List.{position};
ghost use Rattle.explorer.specs.Explored.{findings};
ghost use Rattle.explore.specs.Listing.{many, how_far, which, turns_text, has, have, doubt, without_busy, whose, kept_in, first_line, with_ranked, ranked, row_text, rows_text, orders_in, list_text};
ghost use Rattle.explore.specs.Listed.{shown, shown_rows, is_fewer, list_by};

use explorer::{Choice, Exploration, Found, Table};
use std::alloc::{AllocError, Global};
use walks::Walk;

/// An outcome, and the orders that give it.
#[derive(Clone, Copy)]
pub struct Listed<'t> {
    pub outcome: &'t str,
    /// How many orders give it.
    pub orders: u64,
    /// The path of the first of them.
    pub first: &'t [u32],
}

/// Adds a number of things.
fn add_many(text: &mut String, count: u64, what: &str) -> Result<(), AllocError>
    ensures { OnOk result (string_bytes text.new ≡ string_bytes text.old ++ many count what.now) }
{
    if count == 1 {
        text.push_str("1 ")?;
        return text.push_str(what);
    }
    write!(text, "{count} ")?;
    text.push_str(what)?;
    text.push_str("s")
}

/// Adds whether all orders were run.
fn add_how_far(text: &mut String, walk: Walk) -> Result<(), AllocError>
    ensures { OnOk result (string_bytes text.new ≡ string_bytes text.old ++ how_far walk) }
{
    match walk {
        Walk::All(_) => Ok(()),
        Walk::Stopped | Walk::TooDeep => text.push_str("not all: "),
        Walk::Sample(_) => text.push_str("a sample of "),
    }
}

/// Adds which orders were run.
fn add_which(text: &mut String, choice: Choice) -> Result<(), AllocError>
    ensures { OnOk result (string_bytes text.new ≡ string_bytes text.old ++ which choice) }
{
    match choice {
        Choice::Any => Ok(()),
        Choice::DeviceFirst => text.push_str(" (device calls first)"),
    }
}

/// Adds how many turns the orders have.
fn add_turns(text: &mut String, shortest: usize, longest: usize) -> Result<(), AllocError>
    ensures { OnOk result (string_bytes text.new ≡ string_bytes text.old ++ turns_text shortest longest) }
{
    if shortest < longest {
        write!(text, "{shortest} to ")?;
    }
    add_many(text, longest as u64, "turn")
}

/// Adds `has` or `have`.
fn add_has(text: &mut String, orders: u64) -> Result<(), AllocError>
    ensures { OnOk result (string_bytes text.new ≡ string_bytes text.old ++ has orders) }
{
    if orders == 1 {
        text.push_str("has ")
    } else {
        text.push_str("have ")
    }
}

/// Adds that the orders have outcomes, or that a sample shows some.
fn add_have(text: &mut String, walk: Walk, orders: u64) -> Result<(), AllocError>
    ensures { OnOk result (string_bytes text.new ≡ string_bytes text.old ++ have walk orders) }
{
    match walk {
        Walk::Sample(_) => text.push_str("shows "),
        Walk::All(_) | Walk::Stopped | Walk::TooDeep => add_has(text, orders),
    }
}

/// Adds that orders outside of a sample may have other outcomes.
fn add_doubt(text: &mut String, walk: Walk) -> Result<(), AllocError>
    ensures { OnOk result (string_bytes text.new ≡ string_bytes text.old ++ doubt walk) }
{
    match walk {
        Walk::Sample(_) => text.push_str("; there may be others"),
        Walk::All(_) | Walk::Stopped | Walk::TooDeep => Ok(()),
    }
}

/// What a walk has found.
#[derive(Clone, Copy)]
struct Summary {
    pub walk: Walk,
    /// How many orders were run to their end.
    pub orders: u64,
    /// How many of them are counted.
    pub kept: u64,
    /// The number of turns of the shortest order.
    pub shortest: usize,
    /// That of the longest.
    pub longest: usize,
    /// How many outcomes there are.
    pub outcomes: usize,
}

/// Adds that orders have no answer `busy`.
fn add_without_busy(text: &mut String, kept: u64) -> Result<(), AllocError>
    ensures { OnOk result (string_bytes text.new ≡ string_bytes text.old ++ without_busy kept) }
{
    if kept == 1 {
        text.push_str(" without `busy` has ")
    } else {
        text.push_str(" without `busy` have ")
    }
}

/// Adds of which orders the outcomes are.
fn add_whose(text: &mut String, waits: bool, found: Summary) -> Result<(), AllocError>
    ensures { OnOk result (string_bytes text.new ≡ string_bytes text.old ++ whose waits found.walk found.orders found.kept) }
{
    if waits {
        text.push_str("; ")?;
        add_many(text, found.kept, "order")?;
        return add_without_busy(text, found.kept);
    }
    text.push_str(", ")?;
    add_have(text, found.walk, found.orders)
}

/// Adds the first line: how many orders were run, and which, how long they are, and how many outcomes they have.
fn add_first_line(
    text: &mut String,
    choice: Choice,
    waits: bool,
    found: Summary,
) -> Result<(), AllocError>
    ensures { OnOk result (string_bytes text.new ≡ string_bytes text.old ++ first_line choice waits found.walk found.orders found.kept found.shortest found.longest found.outcomes) }
{
    add_how_far(text, found.walk)?;
    add_many(text, found.orders, "order")?;
    add_which(text, choice)?;
    text.push_str(", of ")?;
    add_turns(text, found.shortest, found.longest)?;
    add_whose(text, waits, found)?;
    add_many(text, found.outcomes as u64, "outcome")?;
    add_doubt(text, found.walk)?;
    text.push_str("\n")
}

/// Adds an outcome with its number.
fn add_row(text: &mut String, number: usize, row: &Listed<'_>) -> Result<(), AllocError>
    ensures { OnOk result (string_bytes text.new ≡ string_bytes text.old ++ row_text number (shown row.now)) }
{
    write!(text, "outcome {number}: ")?;
    add_many(text, row.orders, "order")?;
    text.push_str("\n")?;
    text.push_str(row.outcome)
}

/// Adds the outcomes, numbered from 1.
fn add_rows(text: &mut String, rows: &[Listed<'_>]) -> Result<(), AllocError>
    ensures { OnOk result (string_bytes text.new ≡ string_bytes text.old ++ rows_text 1 (shown_rows rows.now)) }
{
    for (place, row) in rows.iter().enumerate() {
        add_row(text, place + 1, row)?;
    }
    Ok(())
}

fn row_with<'t>(outcome: &'t String, found: &'t Found) -> Listed<'t>
    ensures { shown result ≡ record { outcome = string_bytes outcome.now; orders = found.now.orders; first = found.now.first.items } }
{
    Listed {
        outcome: outcome.as_str(),
        orders: found.orders,
        first: found.first.as_slice(),
    }
}

/// The outcomes of a table, by first appearance.
pub fn rows_of<'t>(alloc: Global, table: &'t Table) -> Result<Vec<Listed<'t>>, AllocError>
    ensures { IfOk result (λ rows. shown_rows rows.items ≡ table.now) }
{
    let mut rows = Vec::new(alloc);
    for place in 0..table.len() {
        if let Some((outcome, found)) = table.get(place) {
            rows.push(row_with(outcome, found))?;
        }
    }
    Ok(rows)
}

fn is_fewer(orders: u64, row: &Listed<'_>) -> bool
    ensures { result ≡ is_fewer orders (shown row.now) }
{
    row.orders < orders
}

/// The place of the first row with fewer orders than this.
fn fewer_in(rows: &[Listed<'_>], orders: u64) -> Option<usize>
    ensures { result ≡ position (λ row. is_fewer orders (shown row)) rows.now }
{
    rows.iter().position(|row| is_fewer(orders, row))
}

/// Adds the row after those with at least its number of orders.
fn add_ranked<'t>(rows: &mut Vec<Listed<'t>>, row: Listed<'t>) -> Result<(), AllocError>
    ensures { OnOk result (shown_rows rows.new.items ≡ with_ranked (shown_rows rows.old.items) (shown row.entry)) }
{
    match fewer_in(rows, row.orders) {
        Some(place) => rows.insert(place, row)?,
        None => rows.push(row)?,
    }
    Ok(())
}

/// These outcomes: those that more orders give come first, and of two with the same count the one that appeared first.
pub fn ranked<'t>(alloc: Global, found: &[Listed<'t>]) -> Result<Vec<Listed<'t>>, AllocError>
    ensures { IfOk result (λ rows. shown_rows rows.items ≡ ranked (shown_rows found.now)) }
{
    let mut rows = Vec::new(alloc);
    for row in found {
        add_ranked(&mut rows, *row)?;
    }
    Ok(rows)
}

/// How many orders give these outcomes.
fn kept_in(rows: &[Listed<'_>]) -> Result<u64, AllocError>
    ensures { IfOk result (λ orders. orders ≡ kept_in (shown_rows rows.now)) }
{
    let mut orders: u64 = 0;
    for row in rows {
        // No exploration has 2^64 orders.
        let Some(more) = orders.checked_add(row.orders) else {
            return Err(AllocError);
        };
        orders = more;
    }
    Ok(orders)
}

/// How many orders were run to their end, by a walk that runs at most this number: those that are counted, and those that
/// are left out.
fn orders_in(walk: Walk, most: u64, kept: u64, left_out: u64) -> Result<u64, AllocError>
    ensures { IfOk result (λ orders. orders ≡ orders_in walk most kept left_out) }
{
    match walk {
        Walk::All(orders) | Walk::Sample(orders) => Ok(orders),
        Walk::Stopped => Ok(most),
        Walk::TooDeep => match kept.checked_add(left_out) {
            Some(orders) => Ok(orders),
            // No exploration has 2^64 orders.
            None => Err(AllocError),
        },
    }
}

/// The list of these outcomes.
#[tactic(auto, using(crate::proofs::ListingLemmas::many_rows))]
fn list_of(
    alloc: Global,
    choice: Choice,
    waits: bool,
    found: Summary,
    rows: &[Listed<'_>],
) -> Result<String, AllocError>
    requires { found.outcomes ≡ length rows.now }
    ensures { IfOk result (λ text. string_bytes text ≡ list_by choice waits found (shown_rows rows.now)) }
{
    let mut text = String::new(alloc);
    if found.orders == 0 {
        text.push_str("no order was run to its end\n")?;
        return Ok(text);
    }
    let rows = ranked(alloc, rows)?;
    add_first_line(&mut text, choice, waits, found)?;
    add_rows(&mut text, &rows)?;
    Ok(text)
}

/// The list of the outcomes that were found by a walk that runs at most this number of orders. These are its outcomes.
pub fn list(
    alloc: Global,
    choice: Choice,
    waits: bool,
    most: u64,
    found: &Exploration,
    rows: &[Listed<'_>],
) -> Result<String, AllocError>
    requires { shown_rows rows.now ≡ found.now.table }
    ensures { IfOk result (λ text. string_bytes text ≡ list_text choice waits found.now.walk (orders_in found.now.walk most (kept_in found.now.table) found.now.left_out) (findings found.now)) }
{
    let kept = kept_in(rows)?;
    let found = Summary {
        walk: found.walk,
        orders: orders_in(found.walk, most, kept, found.left_out)?,
        kept,
        shortest: found.shortest,
        longest: found.longest,
        outcomes: rows.len(),
    };
    list_of(alloc, choice, waits, found, rows)
}
