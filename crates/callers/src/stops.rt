//! How a test stops the daemon.

ghost use Rattle.std.specs.Prelude.{◌≡◌, ◌≤◌};
ghost use Rattle.machine.specs.State.{opening_of};
ghost use Rattle.turns.specs.Tickets.{blocks_in};

use crate::crowd::{asked, finish, in_turn};
use crate::gate::{Gate, Manner, Signals};
use files::blocks_for;
use live::{Live, Opened, Pass, Report, Roll, Unnamed};
use machine::command::{Actor, Command};
use machine::config::Config;
use scripts::{Mode, Script, read};
use std::alloc::Global;
use std::marker::Brand;
use std::process::Abort;
use std::sync::Wait;
use std::thread;
use std::thread::Threads;

/// Three of four frames are used. The daemon begins below two free ones, and continues up to three.
const USED: &str =
    "frames 4\nswap 4\nwatermarks 2 3\ngroup /a\ntask 1 /a\n1 write 0 0 1\n1 write 1 0 1\n1 write 2 0 1\n";

/// When the test stops the daemon.
#[derive(Clone, Copy, PartialEq, Eq)]
enum When {
    /// Before it begins.
    Before,
    /// While a page that it evicts is being written out.
    During,
}

/// Runs the daemon until it has ended. Returns whether it was stopped when it had to be.
fn run_daemon<L: Opened + Send + Sync, R: Threads + Wait + Sync>(
    rt: &R,
    live: &Live<L, Gate>,
    signals: &Signals,
    when: When,
    daemon: Pass<L>,
) -> (Pass<L>, bool) {
    let mut daemon = daemon;
    if when == When::Before {
        live.stop(rt);
        live.daemon(rt, &mut daemon);
        return (daemon, true);
    }
    let balance = move || -> Pass<L> {
        let mut daemon = daemon;
        live.daemon(rt, &mut daemon);
        daemon
    };
    let tell = move || -> bool {
        let is_held = signals.wait_for_write();
        live.stop(rt);
        signals.let_go();
        is_held
    };
    thread::join(rt, balance, tell)
}

/// Runs the lines before, the daemon and the lines after it. Returns what the last ones are answered, and the
/// passes.
fn work<L: Opened + Send + Sync, R: Threads + Wait + Sync>(
    rt: &R,
    alloc: Global,
    live: &Live<L, Gate>,
    roll: &mut Roll<L>,
    signals: &Signals,
    when: When,
    before: Vec<(Actor, Command)>,
    behind: Vec<(Actor, Command)>,
) -> Option<(String, Vec<Pass<L>>)> {
    let mut shell = live.pass(rt, roll).ok()?;
    let daemon = live.pass(rt, roll).ok()?;
    in_turn(rt, alloc, live, &mut shell, before)?;
    let (daemon, is_told) = run_daemon(rt, live, signals, when, daemon);
    if !is_told {
        return None;
    }
    let answers = in_turn(rt, alloc, live, &mut shell, behind)?;
    let mut passes = Vec::new(alloc);
    passes.push(shell).ok()?;
    passes.push(daemon).ok()?;
    Some((answers, passes))
}

fn run_over<L: Opened + Send + Sync, R: Threads + Wait + Sync>(
    rt: &R,
    alloc: Global,
    config: Config,
    gate: Gate,
    unnamed: Unnamed,
    when: When,
    before: Vec<(Actor, Command)>,
    behind: Vec<(Actor, Command)>,
) -> Option<String>
    requires named { unnamed ≡ L.table }
    requires opened { opening_of config ≡ L.opening }
    requires fits { blocks_in L.opening ≤ gate.count }
{
    let signals = gate.signals().ok()?;
    let Ok((live, mut roll)) = Live::<L, Gate>::open(alloc, config, gate, unnamed) else {
        return None;
    };
    match work(rt, alloc, &live, &mut roll, &signals, when, before, behind) {
        None => {
            live.give_up(roll);
            None
        }
        Some((answers, passes)) => {
            let (_given, report) = finish(live, passes, roll)?;
            let Report {
                trace: _,
                replies_match,
                audit,
                passes: _,
                device: _,
            } = report;
            (replies_match && audit.is_ok()).then_some(answers)
        }
    }
}

/// Runs the lines before, runs the daemon until it is stopped, and then runs the lines after it.
fn stopped<R: Threads + Wait + Sync>(
    rt: &R,
    alloc: Global,
    manner: Manner,
    when: When,
    behind: &str,
) -> Option<String> {
    let Ok(script) = read(alloc, USED.as_bytes(), Mode::Run) else {
        return None;
    };
    let Script { config, setup, .. } = script;
    let Some(blocks) = blocks_for(&config) else {
        return None;
    };
    let gate = Gate::new(alloc, blocks, manner).ok()?;
    let behind = asked(alloc, behind)?;
    let unnamed = Unnamed::new(alloc).ok()?;
    run_over::<Brand, R>(rt, alloc, config, gate, unnamed, when, setup, behind)
}

/// The daemon runs until it is stopped. The lines after that are answered so.
fn leaves<R: Abort + AllocGlobal + Threads + Wait + Sync>(
    rt: &R,
    manner: Manner,
    when: When,
    answers: &str,
) {
    let behind = "cat /a memory.current\n1 read 0 0\n";
    let Some(found) = stopped(rt, rt.alloc(), manner, when, behind) else {
        panic!(rt; "no run")
    };
    assert_eq!(rt; found.as_str(), answers);
}

#[test]
fn the_daemon_runs_once_where_it_is_told_before(rt: HostRuntime) {
    leaves(&rt, Manner::Plain, When::Before, "4096\n1 1\n");
}

#[test]
fn the_daemon_ends_its_work_where_it_is_told_meanwhile(rt: HostRuntime) {
    leaves(&rt, Manner::HoldsUntilLetGo, When::During, "4096\n1 1\n");
}

#[test]
fn the_daemon_ends_its_run_where_a_write_fails(rt: HostRuntime) {
    leaves(&rt, Manner::FailsAll, When::Before, "12288\n1 1\n");
}
