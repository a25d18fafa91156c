//! Runs of a scenario with several values of a name, one for each value.

ghost use Rattle.std.specs.Prelude.{◌≡◌, ◌≤◌, IsOk};
ghost use Rattle.scenarios.specs.Scenario.{scenario_of};

use crate::run::say;
use crate::simulating::open;
use crate::simulation::Simulation;
use block_store::MemDevice;
use driver::Stepper;
use expansion::expansion::{Cuts, Expansion};
use scenario_faults::{Problem, check_named, check_settings, read_scenario, settings_of};
use scenario_reports::asked::{Asked, Prints};
use scenario_reports::checked::check;
use scenario_reports::summary::Summary;
use scenario_reports::values::Values;
use scenario_reports::vary_rows::VaryRows;
use scenarios::scenario::Scenario;
use std::alloc::{AllocError, Global};
use std::io::Write;
use std::thread::{Threads, available_parallelism};
use std::{io, thread};

/// How many runs go on at a time if the number of processors is unknown.
const SOME_PROCESSORS: usize = 4;

/// Why the runs stopped: a problem, and the place of the value whose run has it. `None` if it is a problem of all runs.
#[derive(Drop)]
struct Stopped {
    problem: Problem,
    place: Option<usize>,
}

impl From<Problem> for Stopped {
    fn from(problem: Problem) -> Stopped {
        Stopped {
            problem,
            place: None,
        }
    }
}

impl From<AllocError> for Stopped {
    fn from(error: AllocError) -> Stopped {
        Stopped::from(Problem::from(error))
    }
}

impl From<io::Error> for Stopped {
    fn from(error: io::Error) -> Stopped {
        Stopped::from(Problem::from(error))
    }
}

impl Stopped {
    fn report<E: Write>(&self, sweep: Sweep<'_>, err: &mut E) {
        let name = sweep.asked.name;
        match self.place {
            None => self.problem.report(name, Some(sweep.scenario), err),
            Some(place) => {
                let value = (sweep.values.name, sweep.word_at(place));
                self.problem
                    .report_with(name, Some(sweep.scenario), value, err)
            }
        }
    }
}

/// Carries out what an expansion gives, and discards what it prints.
fn run_silently<'a>(
    alloc: Global,
    scenario: &'a Scenario,
    asked: &Asked<'a>,
    expansion: &mut Expansion<'_>,
    stepper: &mut Stepper<MemDevice>,
) -> Result<Summary, Problem> {
    let page = expansion.header().page;
    let mut simulation = Simulation::new(alloc, scenario, *asked, page)?;
    simulation.run_silently(alloc, expansion, stepper, &mut io::sink())
}

/// Runs the scenario once.
fn run_once<'a>(
    alloc: Global,
    scenario: &'a Scenario,
    asked: &Asked<'a>,
) -> Result<Summary, Problem> {
    check(alloc, scenario, asked)?;
    let named = settings_of(alloc, asked.settings)?;
    let mut expansion = Expansion::new(alloc, scenario, named, Cuts::ByRun)?;
    let mut stepper = open(alloc, &expansion)?;
    let ran = run_silently(alloc, scenario, asked, &mut expansion, &mut stepper);
    let _ = stepper.close();
    ran
}

/// How many runs go on at a time.
fn processors<R: Threads>(rt: &R) -> usize {
    match available_parallelism(rt) {
        Ok(count) => count.get(),
        Err(_) => SOME_PROCESSORS,
    }
}

/// A scenario, and the values that it is run with.
#[derive(Clone, Copy)]
struct Sweep<'a> {
    scenario: &'a Scenario,
    asked: &'a Asked<'a>,
    values: &'a Values<'a>,
    rows: VaryRows<'a>,
}

impl<'a> Sweep<'a> {
    fn word_at(self, place: usize) -> &'a str {
        let values = self.values;
        match values.words.get(place) {
            None => "",
            Some(word) => word.as_str(),
        }
    }

    /// Runs the scenario with the value at this place, and discards what it prints.
    fn run(self, alloc: Global, place: usize) -> Result<Summary, Problem> {
        let setting = format!(in alloc; "{}={}", self.values.name, self.word_at(place))?;
        let asked = self.asked;
        let mut settings = Vec::from_slice(alloc, asked.settings)?;
        settings.push(setting.as_str())?;
        let silent = Asked {
            name: asked.name,
            settings: settings.as_slice(),
            go_on: asked.go_on,
            prints: Prints::Report,
            every: 1,
            groups: &[],
            depth: None,
        };
        run_once(alloc, self.scenario, &silent)
    }

    /// Runs the scenario with `many` values, beginning with the one at `first`. Each run has its own thread.
    fn run_some<R: Threads + Sync>(
        self,
        rt: &R,
        alloc: Global,
        first: usize,
        many: usize,
    ) -> Result<Vec<Result<Summary, Problem>>, AllocError> {
        thread::map_indices(
            rt,
            alloc,
            many,
            &|at: usize| self.run(alloc, first.saturating_add(at)),
        )
    }

    /// Prints the row of the run with the value at this place.
    fn tell<O: Write>(
        self,
        alloc: Global,
        place: usize,
        summary: &Summary,
        out: &mut O,
    ) -> Result<(), Problem> {
        if place == 0 {
            let heading = self.rows.heading(alloc)?;
            say(out, heading.as_str())?;
        }
        let row = self.rows.row(alloc, self.word_at(place), summary)?;
        out.write_all(row.as_slice())?;
        Ok(())
    }

    /// Runs the scenario with all values, on each processor one at a time. Prints the rows in the order of the values, and
    /// stops at the first value whose run has a problem.
    fn run_all<R: Threads + Sync, O: Write>(
        self,
        rt: &R,
        alloc: Global,
        out: &mut O,
    ) -> Result<(), Stopped> {
        let all = self.values.words.len();
        let processors = processors(rt);
        let mut place = 0usize;
        for _ in 0..all {
            if place >= all {
                break;
            }
            let many = processors.min(all.saturating_sub(place));
            for ran in self.run_some(rt, alloc, place, many)? {
                let summary = match ran {
                    Ok(summary) => summary,
                    Err(problem) => return Err(Stopped {
                        problem,
                        place: Some(place),
                    }),
                };
                self.tell(alloc, place, &summary, out)?;
                place = place.saturating_add(1);
            }
        }
        out.flush()?;
        Ok(())
    }
}

/// Checks the names of the settings and of the values, and runs the scenario with all values.
fn vary_program<R: Threads + Sync, O: Write>(
    rt: &R,
    alloc: Global,
    sweep: Sweep<'_>,
    out: &mut O,
) -> Result<(), Stopped> {
    check_settings(alloc, sweep.scenario, sweep.asked.settings)?;
    check_named(alloc, sweep.scenario, "--vary", sweep.values.name)?;
    sweep.run_all(rt, alloc, out)
}

/// Carries out the scenario of `text` once for each of the values, on all processors. It prints a row for each value, in
/// the form of `asked.prints`: what the machine moved in the last phase, whether all was as expected, and who was killed.
/// `asked` also has the settings, and says whether a run goes on after a refused line.
///
/// The status is 0. It is 1 if a run has a problem: `err` then gets a line for the first such value, and `out` has the rows
/// of the values before it.
pub fn vary<R: Threads + Sync, O: Write, E: Write>(
    rt: &R,
    alloc: Global,
    asked: &Asked<'_>,
    values: &Values<'_>,
    text: &[u8],
    out: &mut O,
    err: &mut E,
) -> u8
    ensures success_or_failure { result ≤ 1 }
    // If it is 0, `err` got nothing.
    ensures silent { result ≡ 0 → E.contents err.new ≡ E.contents err.old }
    // A text with a fault is not run.
    ensures reads { result ≡ 0 → IsOk (scenario_of text.now) }
{
    let scenario = match read_scenario(alloc, asked.name, text, err) {
        Ok(scenario) => scenario,
        Err(_) => return 1,
    };
    let sweep = Sweep {
        scenario: &scenario,
        asked,
        values,
        rows: VaryRows::new(values, asked.prints),
    };
    match vary_program(rt, alloc, sweep, out) {
        Ok(()) => 0,
        Err(stopped) => {
            stopped.report(sweep, err);
            1
        }
    }
}
