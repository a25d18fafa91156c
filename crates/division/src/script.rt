//! The parts of a script.

ghost use Rattle.std.specs.Prelude.{◌≡◌, ◌++◌, ◌+◌, ◌<◌, ◌≤◌, ◌^◌, List, fold, map, length, false, [], IfSome, IfOk, IfErr, OnOk};
ghost use Rattle.std.specs.List.{filter_map, flat_map, list_any, position, before_first, after_first};
ghost use Rattle.std.specs.Str.Lines.{lines};
ghost use Rattle.scripts.specs.declared.meaning.Item.{Item};
ghost use Rattle.scripts.specs.Work.{with_actor};
ghost use Rattle.division.specs.Division.{shown_row, IsDivided};
ghost use Rattle.division.specs.Faults.{IsUnsorted, IsUndivided};
ghost use Rattle.division.specs.Said.{said_of_item, IsRead};
ghost use Rattle.division.specs.Sorting.{goes, steps_asked, is_apart, left, worker, begun, AreSorted};

use crate::fault::Fault;
use crate::rows::{actors_of, rows_of};
use crate::said::{Said, said_in};
use explorer::{Parts, Row, copy_of_step};
use machine::command::Step;
use scripts::Script;
use std::alloc::{AllocError, Global};

/// The numbers of the first two `go` lines of a script, from 1. A `go` that is missing has a number above all lines.
#[derive(Clone, Copy, Debug, PartialEq, Eq)]
pub struct Goes {
    pub first: usize,
    pub second: usize,
}

fn is_go(said: &Said) -> bool
    ensures { result ≡ goes said.now }
{
    match said {
        Said::Go => true,
        Said::Nothing | Said::Does(_, _) | Said::Step(_) => false,
    }
}

fn is_apart(said: &Said) -> bool
    ensures { result ≡ is_apart said.now }
{
    match said {
        Said::Step(_) => true,
        Said::Nothing | Said::Go | Said::Does(_, _) => false,
    }
}

fn go_in(said: &[Said]) -> Option<usize>
    ensures { result ≡ position goes said.now }
{
    said.iter().position(|line| is_go(line))
}

/// The first line that takes a command apart.
fn apart_in(said: &[Said]) -> Option<usize>
    ensures first { result ≡ position is_apart said.now }
    ensures within { IfSome result (λ place. place < length said.now) }
{
    said.iter().position(|line| is_apart(line))
}

/// The lines before the first `go`, and those after it.
pub fn divided(said: &[Said]) -> (&[Said], &[Said])
    ensures before { result.0.now ≡ before_first goes said.now }
    ensures behind { result.1.now ≡ after_first goes said.now }
    ensures within { length result.0.now + length result.1.now ≤ length said.now }
{
    match go_in(said) {
        Some(place) => (&said[..place], &said[place + 1..]),
        None => (said, &[]),
    }
}

/// Adds the steps of a line.
fn add_asked(alloc: Global, steps: &mut Vec<Step>, line: &Said) -> Result<(), AllocError>
    ensures { OnOk result (steps.new.items ≡ steps.old.items ++ steps_asked line.now) }
{
    match line {
        Said::Nothing | Said::Go => {}
        Said::Does(actor, command) => {
            steps.push(Step::Begin(*actor, command.copy(alloc)?))?;
            steps.push(Step::Finish(*actor))?;
        }
        Said::Step(step) => steps.push(copy_of_step(alloc, step)?)?,
    }
    Ok(())
}

/// The steps of these lines.
fn steps_of(alloc: Global, said: &[Said]) -> Result<Vec<Step>, AllocError>
    ensures { IfOk result (λ steps. steps.items ≡ flat_map steps_asked said.now) }
{
    let mut steps = Vec::new(alloc);
    for line in said {
        add_asked(alloc, &mut steps, line)?;
    }
    Ok(steps)
}

/// The work of each actor. The first line of the work has the number `first`.
fn work_of(alloc: Global, setup: &[Said], work: &[Said], first: usize) -> Result<Vec<Row>, Fault>
    requires { first + length work.now < 2 ^ 64 }
    ensures whole { OnOk result (list_any is_apart work.now ≡ false) }
    ensures rows { IfOk result (λ rows. map shown_row rows.items ≡ map (λ who. (who, filter_map (begun who) work.now)) (fold with_actor (fold with_actor [] (filter_map left setup.now)) (filter_map worker work.now))) }
    ensures few { IfOk result (λ rows. length rows.items < 2 ^ 32) }
    ensures why { IfErr result (IsUnsorted setup.now work.now first) }
{
    if let Some(place) = apart_in(work) {
        return Err(Fault::TakesApart(first + place));
    }
    let actors = actors_of(alloc, setup, work)?;
    if actors.is_empty() {
        return Err(Fault::NoWork);
    }
    if actors.len() > crate::MOST_ACTORS {
        return Err(Fault::TooManyActors(actors.len()));
    }
    Ok(rows_of(alloc, &actors, work, first)?)
}

/// The parts of a script, and where they end.
#[derive(Drop)]
struct Sorted {
    setup: Vec<Step>,
    rows: Vec<Row>,
    looks: Vec<Step>,
    goes: Goes,
}

/// Divides the lines into the parts of the script.
fn sort_lines(alloc: Global, said: &[Said]) -> Result<Sorted, Fault>
    ensures sorted { IfOk result (AreSorted said.now) }
    ensures few { IfOk result (λ parts. length parts.rows.items < 2 ^ 32) }
    ensures why { IfErr result (IsUnsorted (before_first goes said.now) (before_first goes (after_first goes said.now)) (length (before_first goes said.now) + 2)) }
{
    let (setup, behind) = divided(said);
    let (work, looks) = divided(behind);
    let first = setup.len() + 1;
    let second = first + work.len() + 1;
    Ok(Sorted {
        setup: steps_of(alloc, setup)?,
        rows: work_of(alloc, setup, work, first + 1)?,
        looks: steps_of(alloc, looks)?,
        goes: Goes { first, second },
    })
}

/// The parts of a script, what each of its lines asks for, and the lines at which its parts end.
pub fn parts_of(
    alloc: Global,
    text: &[u8],
    script: Script,
) -> Result<(Parts, Vec<Said>, Goes), Fault>
    ensures config { IfOk result (λ read. read.0.config ≡ script.config) }
    ensures read_faults { IfOk result (λ read. read.0.read_faults ≡ script.read_faults) }
    ensures write_faults { IfOk result (λ read. read.0.write_faults ≡ script.write_faults) }
    ensures divided { (is : List Item) → IsRead is (lines text.now) script.schedule → IfOk result (λ read. IsDivided is read.0) }
    ensures lines { (is : List Item) → IsRead is (lines text.now) script.schedule → IfOk result (λ read. read.1.items ≡ map said_of_item is) }
    ensures few { IfOk result (λ read. length read.0.rows.items < 2 ^ 32) }
    ensures why { (is : List Item) → IsRead is (lines text.now) script.schedule → IfErr result (IsUndivided is) }
{
    let Script {
        config,
        read_faults,
        write_faults,
        schedule,
        ..
    } = script;
    let said = said_in(alloc, text, &schedule)?;
    let Sorted {
        setup,
        rows,
        looks,
        goes,
    } = sort_lines(alloc, &said)?;
    let parts = Parts {
        config,
        read_faults,
        write_faults,
        setup,
        rows,
        looks,
    };
    Ok((parts, said, goes))
}
