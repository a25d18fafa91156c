//! A machine that workers share, on one thread: it is opened, asked, and ended.

ghost use Rattle.std.specs.Prelude.{◌≡◌, ◌≤◌};
ghost use Rattle.machine.specs.State.{opening_of};
ghost use Rattle.turns.specs.Tickets.{blocks_in};

use crate::hunt::Hunt;
use block_store::{Locked, MemDevice, SharedDevice};
use driver::{Answer, Command, Config, Reply};
use files::blocks_for;
use live::{Live, Opened, Pass, Roll, Unnamed};
use machine::refusal::Refusal;
use std::alloc::Global;
use std::marker::Brand;
use std::sync::Wait;

/// How many entries the commands make: one, for the group that is made.
const ENTRIES: usize = 1;

/// What a machine is opened with, and what it is asked.
#[derive(Drop)]
struct Crew {
    config: Config,
    device: MemDevice,
    commands: Vec<Command>,
}

impl Crew {
    fn new(alloc: Global) -> Option<Crew> {
        let config = crate::walk::config(alloc).ok()?;
        let path = crate::walk::text(alloc, "/a").ok()?;
        Some(Crew {
            device: MemDevice::new(alloc, 5, &[], &[]).ok()?,
            config,
            commands: Vec::from_array(alloc, [Command::Group(path)]).ok()?,
        })
    }
}

/// Opens the machine, asks it, and ends it.
pub fn work<R: Wait>(rt: &R, hunt: &mut Hunt) {
    match Crew::new(hunt.alloc()) {
        Some(crew) if hunt.begins() => work_with(rt, hunt, crew),
        Some(_) => {}
        None => hunt.demand(false, "there is nothing to open"),
    }
}

fn work_with<R: Wait>(rt: &R, hunt: &mut Hunt, crew: Crew) {
    if !try_work(rt, hunt, crew) {
        hunt.refused("live open");
        match Crew::new(hunt.alloc()) {
            Some(crew) => {
                let opened = try_work(rt, hunt, crew);
                hunt.demand(opened, "a machine is not opened");
            }
            None => hunt.demand(false, "there is nothing to open"),
        }
    }
}

/// Whether it could be opened.
fn try_work<R: Wait>(rt: &R, hunt: &mut Hunt, crew: Crew) -> bool {
    let Crew {
        config,
        device,
        commands,
    } = crew;
    let device = Locked::new(device);
    match blocks_for(&config) {
        Some(blocks) if blocks <= device.blocks() => {
            match history(hunt) {
                Some(unnamed) => {
                    open::<Brand, Locked<MemDevice>, R>(
                        rt, hunt, config, device, &commands, unnamed,
                    )
                }
                None => false,
            }
        }
        _ => false,
    }
}

/// The history of the machine's workers.
fn history(hunt: &mut Hunt) -> Option<Unnamed> {
    match Unnamed::new(hunt.alloc()) {
        Ok(unnamed) => Some(unnamed),
        Err(_) => {
            hunt.refused("live history");
            Unnamed::new(hunt.alloc()).ok()
        }
    }
}

fn open<L: Opened, D: SharedDevice + Drop, R: Wait>(
    rt: &R,
    hunt: &mut Hunt,
    config: Config,
    device: D,
    commands: &[Command],
    unnamed: Unnamed,
) -> bool
    requires named { unnamed ≡ L.table }
    requires opened { opening_of config ≡ L.opening }
    requires fits { blocks_in L.opening ≤ D.extent device }
{
    match Live::<L, D>::open(hunt.alloc(), config, device, unnamed) {
        Err((_, cause)) => {
            hunt.demand(cause == Refusal::NoMemory, "an opening has another cause");
            false
        }
        Ok((live, mut roll)) => {
            let passes = ask(rt, hunt, &live, &mut roll, commands);
            finish(hunt, live, passes, roll);
            true
        }
    }
}

/// Makes a pass for the shell, and asks the commands with it. Returns all passes.
fn ask<L: Opened, D: SharedDevice + Drop, R: Wait>(
    rt: &R,
    hunt: &mut Hunt,
    live: &Live<L, D>,
    roll: &mut Roll<L>,
    commands: &[Command],
) -> Vec<Pass<L>> {
    let mut passes = list(hunt);
    let given = match live.pass(rt, roll) {
        Ok(pass) => Ok(pass),
        Err(_) => {
            hunt.refused("live pass");
            live.pass(rt, roll)
        }
    };
    if let Ok(mut pass) = given {
        if !is_done(rt, live, &mut pass, commands) {
            hunt.refused("live command");
            let done = is_done(rt, live, &mut pass, commands);
            hunt.demand(done, "a command is refused again");
        }
        let kept = passes.push(pass);
        hunt.demand(kept.is_ok(), "a pass is lost");
    }
    passes
}

/// Room for the pass.
fn list<L: Opened>(hunt: &mut Hunt) -> Vec<Pass<L>> {
    let mut passes = Vec::new(hunt.alloc());
    if passes.reserve(1).is_err() {
        hunt.refused("list of passes");
        let again = passes.reserve(1);
        hunt.demand(again.is_ok(), "a pass has no room");
    }
    passes
}

/// Whether each reply says that its command is done, so that nothing is printed.
fn are_done(replies: &[Reply]) -> bool {
    for reply in replies {
        match reply.answer {
            Answer::Done => {}
            _ => return false,
        }
    }
    true
}

/// Whether each command is done.
fn is_done<L: Opened, D: SharedDevice + Drop, R: Wait>(
    rt: &R,
    live: &Live<L, D>,
    pass: &mut Pass<L>,
    commands: &[Command],
) -> bool {
    match live.control(rt, pass, commands) {
        Ok(answers) => are_done(&answers),
        Err(_) => false,
    }
}

/// Ends the run. The trace has to be what the pass keeps, and its audit has to find nothing wrong.
fn finish<L: Opened, D: SharedDevice + Drop>(
    hunt: &mut Hunt,
    live: Live<L, D>,
    passes: Vec<Pass<L>>,
    roll: Roll<L>,
) {
    match live.finish(passes, roll) {
        Ok(report) => {
            let is_whole = report.replies_match
                && report.audit.is_ok()
                && report.trace.len() == ENTRIES;
            hunt.demand(is_whole, "a report is not of what was done");
        }
        Err((live, _, _, roll)) => {
            live.give_up(roll);
            hunt.demand(false, "an end is refused");
        }
    }
}
