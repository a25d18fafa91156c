//! Runs lines with workers of one machine.

ghost use Rattle.std.specs.Prelude.{◌≡◌, ◌≤◌};
ghost use Rattle.machine.specs.State.{opening_of};
ghost use Rattle.turns.specs.Tickets.{blocks_in};

use crate::gate::{Gate, Manner};
use files::blocks_for;
use live::{Live, Opened, Pass, Report, Roll, Unfinished, Unnamed, Worker, work_together};
use machine::command::{Actor, Command, Reply};
use machine::config::Config;
use scripts::{Mode, Script, read};
use std::alloc::{AllocError, Global};
use std::marker::Brand;
use std::process::Abort;
use std::sync::Wait;
use std::thread::Threads;
use trace::First;

/// The result of such a run.
#[derive(Drop)]
pub struct Ended {
    /// The answers before the workers worked at the same time. `rows` has the answers of each worker, and `behind`
    /// the answers after that.
    pub before: String,
    pub rows: Vec<String>,
    pub behind: String,
    /// How many passes were given out. The run says so if one of them is not handed in.
    pub given: u32,
    pub replies_match: bool,
    pub audit: Result<(), First>,
}

impl Ended {
    /// All answers: those before, those to each worker, and those behind, with a line `--` between.
    pub fn told(&self, alloc: Global) -> Result<String, AllocError> {
        let mut text = String::new(alloc);
        text.push_str(&self.before)?;
        for row in &self.rows {
            text.push_str("--\n")?;
            text.push_str(row)?;
        }
        text.push_str("--\n")?;
        text.push_str(&self.behind)?;
        Ok(text)
    }
}

/// Whether the answers are those of the trace, and the audit finds nothing wrong.
pub fn is_fine(ended: &Ended) -> bool {
    ended.replies_match && ended.audit == Ok(())
}

/// What these lines ask for, without header lines.
pub fn asked(alloc: Global, lines: &str) -> Option<Vec<(Actor, Command)>> {
    match read(alloc, lines.as_bytes(), Mode::Run) {
        Ok(script) => Some(script.setup),
        Err(_) => None,
    }
}

fn print_all(text: &mut String, answers: &[Reply]) -> Option<()> {
    for reply in answers {
        reply.print(text).ok()?;
    }
    Some(())
}

/// Runs each command, one after the other, with one pass. Returns the answers.
pub fn in_turn<L: Opened, R: Wait>(
    rt: &R,
    alloc: Global,
    live: &Live<L, Gate>,
    pass: &mut Pass<L>,
    asked: Vec<(Actor, Command)>,
) -> Option<String> {
    let mut text = String::new(alloc);
    for (actor, command) in asked {
        let answers = match actor {
            Actor::Task(task) => live.task(rt, pass, task, &[command]),
            _ => live.control(rt, pass, &[command]),
        };
        print_all(&mut text, &answers.ok()?)?;
    }
    Some(text)
}

/// A worker for commands of one actor.
fn worker<L: Opened, R: Wait>(
    rt: &R,
    alloc: Global,
    live: &Live<L, Gate>,
    roll: &mut Roll<L>,
    asked: Vec<(Actor, Command)>,
) -> Option<Worker<L>> {
    let mut who = Actor::Control;
    let mut commands = Vec::new(alloc);
    for (actor, command) in asked {
        if let Actor::Task(_) = actor {
            who = actor;
        }
        commands.push(command).ok()?;
    }
    let pass = live.pass(rt, roll).ok()?;
    Some(Worker::new(alloc, who, pass, commands))
}

/// A worker for each row.
fn hire<L: Opened, R: Wait>(
    rt: &R,
    alloc: Global,
    live: &Live<L, Gate>,
    roll: &mut Roll<L>,
    rows: Vec<Vec<(Actor, Command)>>,
) -> Option<Vec<Worker<L>>> {
    let mut workers = Vec::new(alloc);
    for asked in rows {
        workers.push(worker(rt, alloc, live, roll, asked)?).ok()?;
    }
    Some(workers)
}

fn answers_to<L: Opened>(alloc: Global, worker: &Worker<L>) -> Option<String> {
    let mut text = String::new(alloc);
    print_all(&mut text, worker.answers().ok()?)?;
    Some(text)
}

fn answers_to_each<L: Opened>(alloc: Global, workers: &[Worker<L>]) -> Option<Vec<String>> {
    let mut rows = Vec::new(alloc);
    for worker in workers {
        rows.push(answers_to(alloc, worker)?).ok()?;
    }
    Some(rows)
}

/// The passes of the workers and the daemon.
fn all_passes<L: Opened>(
    alloc: Global,
    workers: Vec<Worker<L>>,
    daemon: Pass<L>,
) -> Option<Vec<Pass<L>>> {
    let mut passes = Vec::new(alloc);
    for worker in workers {
        passes.push(worker.into_pass()).ok()?;
    }
    passes.push(daemon).ok()?;
    Some(passes)
}

/// Each row is run by a worker of its own, all at once, with the daemon.
fn together<L: Opened + Send + Sync, R: Threads + Wait + Sync>(
    rt: &R,
    alloc: Global,
    live: &Live<L, Gate>,
    roll: &mut Roll<L>,
    rows: Vec<Vec<(Actor, Command)>>,
) -> Option<(Vec<String>, Vec<Pass<L>>)> {
    let daemon = live.pass(rt, roll).ok()?;
    let workers = hire(rt, alloc, live, roll, rows)?;
    let (workers, daemon) = work_together(rt, live, workers, daemon);
    let answers = answers_to_each(alloc, &workers)?;
    Some((answers, all_passes(alloc, workers, daemon)?))
}

/// What is known before the end.
#[derive(Drop)]
struct Worked<L: Opened> {
    before: String,
    rows: Vec<String>,
    behind: String,
    passes: Vec<Pass<L>>,
}

fn work<L: Opened + Send + Sync, R: Threads + Wait + Sync>(
    rt: &R,
    alloc: Global,
    live: &Live<L, Gate>,
    roll: &mut Roll<L>,
    before: Vec<(Actor, Command)>,
    rows: Vec<Vec<(Actor, Command)>>,
    behind: Vec<(Actor, Command)>,
) -> Option<Worked<L>> {
    let mut shell = live.pass(rt, roll).ok()?;
    let before = in_turn(rt, alloc, live, &mut shell, before)?;
    let (rows, mut passes) = together(rt, alloc, live, roll, rows)?;
    let behind = in_turn(rt, alloc, live, &mut shell, behind)?;
    passes.push(shell).ok()?;
    Some(Worked {
        before,
        rows,
        behind,
        passes,
    })
}

/// Ends a run. First it tries without one of the passes. This is refused, with the number of passes. Then it ends
/// the run with all of them.
pub fn finish<L: Opened>(
    live: Live<L, Gate>,
    passes: Vec<Pass<L>>,
    roll: Roll<L>,
) -> Option<(u32, Report<Gate>)> {
    let mut passes = passes;
    let last = passes.pop();
    match live.finish(passes, roll) {
        Ok(_) => None,
        Err((live, mut passes, cause, roll)) => {
            let Unfinished::PassMissing(given) = cause;
            let pushed = match last {
                Some(pass) => passes.push(pass).is_ok(),
                None => false,
            };
            if !pushed {
                live.give_up(roll);
                return None;
            }
            match live.finish(passes, roll) {
                Ok(report) => Some((given, report)),
                Err((live, _passes, _cause, roll)) => {
                    live.give_up(roll);
                    None
                }
            }
        }
    }
}

fn run_over<L: Opened + Send + Sync, R: Threads + Wait + Sync>(
    rt: &R,
    alloc: Global,
    config: Config,
    gate: Gate,
    unnamed: Unnamed,
    before: Vec<(Actor, Command)>,
    rows: Vec<Vec<(Actor, Command)>>,
    behind: Vec<(Actor, Command)>,
) -> Option<Ended>
    requires named { unnamed ≡ L.table }
    requires opened { opening_of config ≡ L.opening }
    requires fits { blocks_in L.opening ≤ gate.count }
{
    let Ok((live, mut roll)) = Live::<L, Gate>::open(alloc, config, gate, unnamed) else {
        return None;
    };
    match work(rt, alloc, &live, &mut roll, before, rows, behind) {
        None => {
            live.give_up(roll);
            None
        }
        Some(worked) => {
            let Worked {
                before,
                rows,
                behind,
                passes,
            } = worked;
            let (given, report) = finish(live, passes, roll)?;
            let Report {
                trace: _,
                replies_match,
                audit,
                passes: _,
                device: _,
            } = report;
            Some(Ended {
                before,
                rows,
                behind,
                given,
                replies_match,
                audit,
            })
        }
    }
}

/// Runs the lines before, with their header, one after the other. Then each row is run by a worker of its own, all
/// at once, with the daemon. Then the lines `behind` are run. There is no result if a line is faulty, a call is refused, or
/// memory runs out.
pub fn crowd<R: Threads + Wait + Sync>(
    rt: &R,
    alloc: Global,
    manner: Manner,
    before: &str,
    rows: &[&str],
    behind: &str,
) -> Option<Ended> {
    let Ok(script) = read(alloc, before.as_bytes(), Mode::Run) else {
        return None;
    };
    let Script { config, setup, .. } = script;
    let Some(blocks) = blocks_for(&config) else {
        return None;
    };
    let gate = Gate::new(alloc, blocks, manner).ok()?;
    let mut workers = Vec::new(alloc);
    for lines in rows {
        workers.push(asked(alloc, lines)?).ok()?;
    }
    let behind = asked(alloc, behind)?;
    let unnamed = Unnamed::new(alloc).ok()?;
    run_over::<Brand, R>(rt, alloc, config, gate, unnamed, setup, workers, behind)
}

fn is_one_of(text: &str, wanted: &[&str]) -> bool {
    for one in wanted {
        if *one == text {
            return true;
        }
    }
    false
}

/// The answers are one of these texts: those before, those to each worker, and those behind, with a line `--` between. They
/// are those of the trace, and the audit finds nothing wrong. There was a pass for the lines before and behind, one for the
/// daemon, and one for each row.
pub fn answers<R: Abort + AllocGlobal + Threads + Wait + Sync>(
    rt: &R,
    manner: Manner,
    before: &str,
    rows: &[&str],
    behind: &str,
    wanted: &[&str],
) {
    let Some(ended) = crowd(rt, rt.alloc(), manner, before, rows, behind) else {
        panic!(rt; "no run")
    };
    let text = ended.told(rt.alloc()).expect(rt, "no memory");
    assert!(rt; is_one_of(&text, wanted), "{text}");
    assert_eq!(rt;
        (ended.given as usize, is_fine(&ended)),
        (rows.len() + 2, true)
    );
}
