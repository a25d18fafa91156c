//! The steps of one order.

ghost use Rattle.std.specs.Prelude.{◌≡◌, ◌+◌, ◌++◌, ◌∷◌, ◌<◌, ◌^◌, [], length, IfOk, OnOk, IsSome, if◌then◌else◌};
ghost use Rattle.std.specs.Option.{option_copied};
ghost use Rattle.std.specs.List.{position};
ghost use Rattle.std.specs.List.Sorted.{IsStrictlyIncreasing};
ghost use Rattle.explorer.specs.Work.{is_ready, next_of, ready_in, caller_in, eligible_in};
ghost use Rattle.explorer.specs.Carried.{Carries, Goes, GoesAll, Turns};

use crate::choice::Choice;
use crate::parts::Row;
use block_store::MemDevice;
use driver::Stepper;
use machine::command::{Actor, Answer, Reply, Step, Word};
use machine::refusal::Refusal;
use std::alloc::{AllocError, Global};

/// Whether the last answer is that memory ran out for the command.
fn lacks_memory(said: &[Reply]) -> bool {
    match said.last() {
        Some(reply) => match &reply.answer {
            Answer::Word(Word::Refused(Refusal::NoMemory)) => true,
            _ => false,
        },
        None => false,
    }
}

/// Carries out one step. It fails if memory runs out, also for the command alone: an order has no such outcome.
pub fn carry_one(
    run: &mut Stepper<MemDevice>,
    step: &Step,
    said: &mut Vec<Reply>,
) -> Result<(), AllocError>
    ensures { OnOk result (Carries run.old (step.now ∷ []) said.old.items said.new.items run.new) }
{
    match run.step(0, step, said) {
        Ok(()) if lacks_memory(said) => Err(AllocError),
        Ok(()) => Ok(()),
        // The list of answers is closed only if memory ran out.
        Err(_) => Err(AllocError),
    }
}

/// A turn of the actor.
fn advance(
    run: &mut Stepper<MemDevice>,
    actor: Actor,
    said: &mut Vec<Reply>,
) -> Result<(), AllocError>
    ensures { OnOk result (Carries run.old (Step.Advance actor ∷ []) said.old.items said.new.items run.new) }
{
    let step = Step::Advance(actor);
    carry_one(run, &step, said)
}

/// Carries out steps, in sequence.
pub fn carry_out(
    run: &mut Stepper<MemDevice>,
    steps: &[Step],
    said: &mut Vec<Reply>,
) -> Result<(), AllocError>
    ensures { OnOk result (Carries run.old steps.now said.old.items said.new.items run.new) }
{
    for step in steps {
        carry_one(run, step, said)?;
    }
    Ok(())
}

/// What the actor of the row begins next, if it has begun this many of its lines: nothing while a command is under way,
/// and nothing after the last line.
pub fn next_line<'p>(run: &Stepper<MemDevice>, row: &'p Row, begun: usize) -> Option<&'p Step>
    ensures next { option_copied result ≡ next_of row.now begun run.now.seats }
    ensures room { IsSome result → begun + 1 < 2 ^ 64 }
{
    if run.is_under_way(row.actor) {
        return None;
    }
    if begun < row.lines.len() {
        return Some(&row.lines[begun]);
    }
    None
}

/// The actor at this place begins its next line, if no command of it is under way and it has one left.
fn go_on(
    run: &mut Stepper<MemDevice>,
    rows: &[Row],
    begun: &mut Vec<usize>,
    place: usize,
    said: &mut Vec<Reply>,
) -> Result<(), AllocError>
    requires within { place < length rows.now }
    requires counted { length begun.old.items ≡ length rows.now }
    ensures goes { OnOk result (Goes rows.now place run.old begun.old.items said.old.items run.new begun.new.items said.new.items) }
    ensures counted { length begun.new.items ≡ length begun.old.items }
{
    let next = begun[place];
    let Some(line) = next_line(run, &rows[place], next) else {
        return Ok(());
    };
    carry_one(run, line, said)?;
    begun[place] = next + 1;
    Ok(())
}

/// Each actor begins its first line.
pub fn all_go_on(
    run: &mut Stepper<MemDevice>,
    rows: &[Row],
    begun: &mut Vec<usize>,
    said: &mut Vec<Reply>,
) -> Result<(), AllocError>
    requires { length begun.old.items ≡ length rows.now }
    ensures goes { OnOk result (GoesAll rows.now (length rows.now) run.old begun.old.items said.old.items run.new begun.new.items said.new.items) }
    ensures counted { length begun.new.items ≡ length begun.old.items }
{
    for place in 0..rows.len() {
        go_on(run, rows, begun, place, said)?;
    }
    Ok(())
}

/// A turn of the actor at this place. If that ends its command, it begins the next one.
pub fn take_turn(
    run: &mut Stepper<MemDevice>,
    rows: &[Row],
    begun: &mut Vec<usize>,
    place: usize,
    said: &mut Vec<Reply>,
) -> Result<(), AllocError>
    requires within { place < length rows.now }
    requires counted { length begun.old.items ≡ length rows.now }
    ensures turns { OnOk result (Turns rows.now place run.old begun.old.items said.old.items run.new begun.new.items said.new.items) }
    ensures counted { length begun.new.items ≡ length begun.old.items }
{
    let actor = rows[place].actor;
    advance(run, actor, said)?;
    go_on(run, rows, begun, place, said)
}

/// Adds the row's place, if its actor has a command under way.
fn add_if_ready(
    run: &Stepper<MemDevice>,
    row: &Row,
    place: u32,
    ready: &mut Vec<u32>,
) -> Result<(), AllocError>
    ensures { OnOk result (ready.new.items ≡ ready.old.items ++ (if is_ready run.now.seats row.now then place ∷ [] else [])) }
{
    if run.is_under_way(row.actor) {
        ready.push(place)?;
    }
    Ok(())
}

/// The places of the actors that have a command under way.
fn ready_of(alloc: Global, run: &Stepper<MemDevice>, rows: &[Row]) -> Result<Vec<u32>, AllocError>
    requires { length rows.now < 2 ^ 32 }
    ensures ready { IfOk result (λ ready. ready.items ≡ ready_in rows.now run.now) }
    ensures rising { IfOk result (λ ready. IsStrictlyIncreasing ready.items) }
{
    let mut ready = Vec::new(alloc);
    for (place, row) in rows.iter().enumerate() {
        add_if_ready(run, row, place as u32, &mut ready)?;
    }
    Ok(ready)
}

/// The place of the first actor whose next turn is a call of the device.
fn caller_of(run: &Stepper<MemDevice>, rows: &[Row]) -> Option<usize>
    ensures { result ≡ caller_in rows.now run.now }
{
    rows.iter().position(|row| run.calls_device(row.actor))
}

/// This place alone.
fn alone(alloc: Global, place: u32) -> Result<Vec<u32>, AllocError>
    ensures { IfOk result (λ places. places.items ≡ place ∷ []) }
{
    let mut places = Vec::new(alloc);
    places.push(place)?;
    Ok(places)
}

/// The places of the actors that can take the next turn.
pub fn eligible_of(
    alloc: Global,
    choice: Choice,
    run: &Stepper<MemDevice>,
    rows: &[Row],
) -> Result<Vec<u32>, AllocError>
    requires { length rows.now < 2 ^ 32 }
    ensures eligible { IfOk result (λ places. places.items ≡ eligible_in choice rows.now run.now) }
    ensures rising { IfOk result (λ places. IsStrictlyIncreasing places.items) }
{
    match choice {
        Choice::Any => ready_of(alloc, run, rows),
        Choice::DeviceFirst => match caller_of(run, rows) {
            Some(place) => alone(alloc, place as u32),
            None => ready_of(alloc, run, rows),
        },
    }
}
