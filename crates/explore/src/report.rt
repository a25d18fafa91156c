//! An exploration, from the bytes of a script to those of the list.

ghost use Rattle.std.specs.Prelude.{◌≡◌, ◌<◌, ◌^◌, true, None, Some, length, IfOk, IfErr};
ghost use Rattle.std.specs.String.{string_bytes};
ghost use Rattle.machine.specs.State.{is_config};
ghost use Rattle.explorer.specs.Explored.{findings};
ghost use Rattle.explore.specs.Explores.{verdict_of, list_for, IsFound, Explores, Explains};
ghost use Rattle.division.specs.Faults.{IsOfRun, IsUnshown};

use crate::asked::Asked;
use crate::listing::{Listed, list, ranked, rows_of};
use crate::shown::shown;
use division::{Fault, Goes, Said, parts_of, try_setup};
use explorer::{Exploration, Parts, explore, sample};
use scripts::Mode;
use std::alloc::Global;
use std::io::Write;
use walks::Walk;

/// How an exploration ended.
#[derive(Clone, Copy, Debug, PartialEq, Eq)]
pub enum Verdict {
    /// All orders were run. There is this number of outcomes.
    All(usize),
    /// There are more orders than were asked for. The outcomes are those of this number.
    MoreOrders(u64),
    /// An order has more turns than this. The outcomes are those of the orders that were run before it.
    MoreTurns(u32),
    /// A sample of the orders was run. It has this number of outcomes, and there may be others.
    Sample(usize),
}

/// The path of the first order with the outcome of this number, from 1.
fn path_of<'t>(rows: &[Listed<'t>], number: u64) -> Result<&'t [u32], Fault>
    ensures why { IfErr result (IsUnshown (Some number) (length rows.now)) }
{
    if number == 0 || number > rows.len() as u64 {
        return Err(Fault::NoOutcome(number, rows.len()));
    }
    Ok(rows[number as usize - 1].first)
}

/// The first order with the outcome of this number, as a script.
fn shown_order(
    alloc: Global,
    script: &[u8],
    goes: Goes,
    parts: &Parts,
    lines: &[Said],
    found: &[Listed<'_>],
    number: u64,
) -> Result<String, Fault>
    requires { is_config parts.now.config ≡ true }
    ensures why { IfErr result (IsUnshown (Some number) (length found.now)) }
{
    let rows = ranked(alloc, found)?;
    let path = path_of(&rows, number)?;
    Ok(shown(alloc, script, goes, parts, lines, path)?)
}

/// The text that is written: the list of outcomes, or an order with one of them.
fn text_of(
    alloc: Global,
    asked: Asked,
    script: &[u8],
    goes: Goes,
    parts: &Parts,
    lines: &[Said],
    found: &Exploration,
) -> Result<String, Fault>
    requires { is_config parts.now.config ≡ true }
    ensures list { asked.show ≡ None → IfOk result (λ text. string_bytes text ≡ list_for asked parts.now found.now.walk (findings found.now)) }
    ensures why { IfErr result (IsUnshown asked.show (length found.now.table)) }
{
    let rows = rows_of(alloc, &found.table)?;
    match asked.show {
        None => {
            let choice = parts.choice(asked.choice);
            Ok(list(alloc, choice, asked.waits, asked.orders, found, &rows)?)
        }
        Some(number) => shown_order(alloc, script, goes, parts, lines, &rows, number),
    }
}

/// How the exploration ended.
fn verdict_of(asked: Asked, found: &Exploration) -> Verdict
    ensures { result ≡ verdict_of asked found.now.walk (length found.now.table) }
{
    match found.walk {
        Walk::All(_) => Verdict::All(found.table.len()),
        Walk::Stopped => Verdict::MoreOrders(asked.orders),
        Walk::TooDeep => Verdict::MoreTurns(asked.turns),
        Walk::Sample(_) => Verdict::Sample(found.table.len()),
    }
}

/// Runs the work in each order of its actors' turns, or in those of a sample.
fn found_of(alloc: Global, parts: &Parts, asked: Asked) -> Result<Exploration, Fault>
    requires limits { is_config parts.now.config ≡ true }
    requires few { length parts.now.rows.items < 2 ^ 32 }
    ensures found { IfOk result (λ found. IsFound asked parts.now found.walk (findings found)) }
    ensures why { IfErr result IsOfRun }
{
    match asked.sample {
        None => Ok(explore(
            alloc,
            parts,
            asked.choice,
            asked.waits,
            asked.turns,
            asked.orders,
        )?),
        Some(drawn) => Ok(sample(
            alloc,
            parts,
            asked.choice,
            asked.waits,
            asked.turns,
            drawn.orders,
            drawn.seed,
        )?),
    }
}

/// Runs a script's work in every order of its actors' turns, or in those of a sample. Writes which outcomes there are, and
/// how many orders give each.
pub fn explore_script<O: Write>(
    alloc: Global,
    asked: Asked,
    script: &[u8],
    out: &mut O,
) -> Result<Verdict, Fault>
    ensures explores { IfOk result (λ verdict. Explores asked script.now verdict (O.contents out.old) (O.contents out.new)) }
    ensures why { IfErr result (Explains asked script.now) }
{
    let mut read = match scripts::read(alloc, script, Mode::Schedule) {
        Ok(read) => read,
        Err(fault) => return Err(Fault::Script(fault)),
    };
    read.config.placement = asked.placement;
    let (parts, lines, goes) = parts_of(alloc, script, read)?;
    try_setup(alloc, &parts, &lines)?;
    let found = found_of(alloc, &parts, asked)?;
    let text = text_of(alloc, asked, script, goes, &parts, &lines, &found)?;
    match out.write_all(text.as_bytes()) {
        Ok(()) => Ok(verdict_of(asked, &found)),
        Err(error) => Err(Fault::Unwritable(error)),
    }
}
