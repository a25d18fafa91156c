//! A machine that is refused one allocation, at any place that needs memory.
//!
//! The tour has parts: the events of two books, openings, a run. The argument is a number and the name of a step. The
//! program sets up the part that has the step, makes that number of allocations, and then takes the part's steps. A
//! step in which an allocation is refused has to say so. Then everything has to be as it was before. What follows has
//! to be as with ample memory.
//!
//! The program prints the step in which the allocation was refused, or what is wrong. Without an argument no allocation
//! is to be refused. Then it goes through all parts, and prints the answers to the events.
#![tactic(auto)]

mod asking;
mod case;
mod crew;
mod hunt;
mod openings;
mod runs;
mod shows;
mod step;
mod tour;
mod walk;

use case::{Case, Part};
use hunt::{Hunt, Met, Told};
use machine::reply::Reply;
use std::alloc::Global;
use std::io::{ErrorKind, Write};
use std::process::ExitCode;
use std::rt::Env;
use std::sync::Wait;
use std::{io, str};
use tour::Plan;
use walk::Machine;

/// The longest argument, in bytes.
const LONGEST: usize = 80;

/// Takes the steps of the plan, from the named one on. If memory is refused in one of them, compares what follows.
fn hunt_from(hunt: &mut Hunt, plan: Plan, step: &str) {
    let Ok(mut machine) = Machine::open(hunt.alloc(), plan) else {
        hunt.demand(false, "there is no machine");
        return;
    };
    if hunt.begins() {
        machine.lead_to(hunt, step);
        machine.walk(hunt);
    }
    if let Some(Met::In(_)) = hunt.met() {
        match Machine::open(hunt.alloc(), plan) {
            Ok(mut other) => {
                compare(hunt, &mut machine, &mut other);
                other.close();
            }
            Err(_) => hunt.demand(false, "there is no other machine"),
        }
    }
    machine.close();
}

/// The machine continues as the other one does, which is refused no memory.
fn compare(hunt: &mut Hunt, machine: &mut Machine, other: &mut Machine) {
    let mut none = Hunt::none(hunt.alloc());
    other.follow(machine);
    other.walk(&mut none);
    other.end(&mut none);
    machine.end(hunt);
    hunt.demand(
        machine.told() == other.told(),
        "what follows is answered otherwise than with ample memory",
    );
    hunt.demand(none.wrong().is_none(), "ample memory is refused");
}

fn print_told<O: Write>(out: &mut O, told: &[Told]) -> io::Result<()> {
    for Told { name, reply } in told {
        match reply {
            Reply::Done { byte, hit: _ } => writeln!(out, "{name}: {byte}")?,
            Reply::Fetch(_) => writeln!(out, "{name}: fetch")?,
            Reply::Out(_) => writeln!(out, "{name}: out")?,
            other => writeln!(out, "{name}: {other:?}")?,
        }
    }
    Ok(())
}

/// Prints where the refusal was met, or what is wrong.
fn print_met<O: Write>(out: &mut O, hunt: &Hunt) -> io::Result<()> {
    match (hunt.wrong(), hunt.met()) {
        (Some(why), Some(Met::In(name))) => writeln!(out, "wrong in {name}: {why}"),
        (Some(why), _) => writeln!(out, "wrong: {why}"),
        (None, Some(Met::Before(made))) => writeln!(out, "before {made}"),
        (None, Some(Met::In(name))) => writeln!(out, "in {name}"),
        (None, Some(Met::After)) => writeln!(out, "after"),
        (None, None) => writeln!(out, "nobody is told that memory is refused"),
    }
}

/// Goes through the part of the tour that has the step. An allocation is to be refused in it.
fn hunt_for<R: Wait, O: Write>(
    rt: &R,
    alloc: Global,
    case: Case<'_>,
    out: &mut O,
) -> io::Result<()> {
    let mut hunt = Hunt::new(alloc, case.ahead);
    match case.part() {
        Part::Machine(plan) => hunt_from(&mut hunt, plan, case.step),
        Part::Openings => openings::open(&mut hunt),
        Part::Marks => openings::open_marks(&mut hunt),
        Part::Run => runs::run_twice(&mut hunt),
        Part::Live => crew::work(rt, &mut hunt),
    }
    hunt.burn_after();
    print_met(out, &hunt)
}

/// Takes all steps of the plan with ample memory, and prints the answers.
fn walk_through<O: Write>(none: &mut Hunt, plan: Plan, out: &mut O) -> io::Result<()> {
    let Ok(mut machine) = Machine::open(none.alloc(), plan) else {
        return Err(ErrorKind::OutOfMemory.into());
    };
    machine.walk(none);
    machine.end(none);
    let printed = print_told(out, machine.told());
    machine.close();
    printed
}

/// Goes through the whole tour with ample memory.
fn go_through<R: Wait, O: Write>(rt: &R, alloc: Global, out: &mut O) -> io::Result<()> {
    let mut none = Hunt::none(alloc);
    walk_through(&mut none, Plan::Few, out)?;
    walk_through(&mut none, Plan::Many, out)?;
    openings::open(&mut none);
    openings::open_marks(&mut none);
    runs::run_twice(&mut none);
    crew::work(rt, &mut none);
    match none.wrong() {
        Some(why) => writeln!(out, "wrong: {why}"),
        None => Ok(()),
    }
}

/// Does what the first argument says. Without one, no allocation is refused. The argument is read without an
/// allocation.
fn serve<R: Env + AllocGlobal + Wait, O: Write>(rt: &R, out: &mut O) -> io::Result<()> {
    let mut buffer = [0; LONGEST];
    let words = match rt.arg(1, &mut buffer) {
        Ok(length) => buffer.get(..length).and_then(|it| str::from_utf8(it).ok()),
        Err(_) => None,
    };
    match words.and_then(Case::of) {
        Some(case) => hunt_for(rt, rt.alloc(), case, out),
        None => go_through(rt, rt.alloc(), out),
    }
}

fn main(rt: HostRuntime) -> ExitCode {
    let Err(fault) = serve(&rt, &mut rt.stdout()) else {
        return ExitCode::SUCCESS;
    };
    // The status reports the failure even if its line can't be written.
    let _ = writeln!(rt.stderr(), "shortages: {fault}");
    ExitCode::FAILURE
}
