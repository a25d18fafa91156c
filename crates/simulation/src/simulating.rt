//! The run of a scenario.

ghost use Rattle.std.specs.Prelude.{◌≡◌, ◌≢◌, ◌⊎◌, ◌≤◌, [], true, map, IsOk, OnOk, IfOk, IfErr};
ghost use Rattle.scenarios.specs.Scenario.{scenario_of};
ghost use Rattle.scenario_faults.specs.Failures.{failure_of};
ghost use Rattle.scenario_faults.specs.Settings.{settings_of, has_unnamed};
ghost use Rattle.scenario_faults.specs.declared.fault.Failure.TheVariants.{Faulty, Misasked};
ghost use Rattle.driver.specs.Schedule.{World};
ghost use Rattle.expansion.specs.ToCome.{known, still};
ghost use Rattle.expansion.specs.Walk.{ends};
ghost use Rattle.scenario_reports.specs.Faulty.{AreFaulty, IsFaulty, LacksName};
ghost use Rattle.simulation.specs.Met.{Opens, MeetsItems, MeetsLines, IsAsExpected};

use crate::outcomes::MOST_KILLS_TOLD;
use crate::run::{Run, say};
use crate::simulation::{Count, Simulation};
use block_store::MemDevice;
use drafts::Draft;
use driver::Stepper;
use expansion::expansion::{Cuts, Expansion};
use files::blocks_for;
use scenario_faults::{Failure, Problem, check_settings, read_scenario, reported, settings_of};
use scenario_machines::{config_of, failing_of};
use scenario_pictures::{Moved, Object, csv_head, picture_of};
use scenario_reports::asked::{Asked, Prints};
use scenario_reports::checked::{Checked, check};
use scenario_reports::confirming::confirmed;
use scenario_reports::telling::{add_late, add_totals};
use scenario_words::header::DeviceCall;
use scenarios::scenario::Scenario;
use std::alloc::{AllocError, Global};
use std::io::Write;

impl<'p> Run<'p> {
    /// Tells that no cut was made in a list with `until` of the line with this number.
    pub fn tell_unreached<O: Write>(&self, line: usize, out: &mut O) -> Result<(), Problem> {
        match self.asked.prints {
            Prints::Report => {
                let text = format!(in self.alloc; "line {line}: until is not reached\n")?;
                say(out, text.as_str())
            }
            Prints::Json => {
                let mut object = Object::new(self.alloc, "unreached");
                object.number("line", line as u64);
                let bytes = object.line()?;
                out.write_all(bytes.as_slice())?;
                Ok(())
            }
            Prints::Chart | Prints::Csv | Prints::Unmet => Ok(()),
        }
    }

    /// Prints what comes last.
    pub fn end<O: Write>(
        &mut self,
        expansion: &Expansion<'_>,
        stepper: &Stepper<MemDevice>,
        checked: &Checked,
        count: Count,
        out: &mut O,
    ) -> Result<(), Problem> {
        self.row_before_note(expansion, stepper, out)?;
        self.last_row(expansion, stepper, out)?;
        match self.asked.prints {
            Prints::Report => self.end_report(expansion, stepper, checked, out),
            Prints::Json => {
                let moved = self.moved(stepper);
                let bytes = self.end_object(expansion, checked, moved, count.well)?;
                out.write_all(bytes.as_slice())?;
                Ok(())
            }
            Prints::Csv => Ok(()),
            Prints::Unmet => self.end_check(count, out),
            Prints::Chart => {
                let header = expansion.header();
                let groups = self.choice.all.as_slice();
                let text = picture_of(self.alloc, self.asked.name, header, groups, &self.story)?;
                say(out, text.as_str())
            }
        }
    }

    /// The last line of a check, if all was as expected.
    fn end_check<O: Write>(&self, count: Count, out: &mut O) -> Result<(), Problem> {
        if !count.well {
            return Ok(());
        }
        let name = self.asked.name;
        let text = match count.judged {
            1 => format!(in self.alloc; "{name}: ok, 1 expectation\n")?,
            judged => format!(in self.alloc; "{name}: ok, {judged} expectations\n")?,
        };
        say(out, text.as_str())
    }

    /// Each group that rows were asked for was made.
    pub fn check_groups(&mut self, expansion: &Expansion<'_>) -> Result<(), Problem> {
        if !self.has_rows() {
            return Ok(());
        }
        self.look_at_groups(expansion)?;
        match self.choice.missing(&self.asked) {
            None => Ok(()),
            Some(path) => Err(Problem::Group(String::from_str(self.alloc, path)?)),
        }
    }

    /// The last lines of the report.
    fn last_lines(
        &self,
        expansion: &Expansion<'_>,
        checked: &Checked,
        moved: Moved,
    ) -> Result<String, AllocError> {
        let scene = expansion.scene();
        let mut text = Draft::new(self.alloc);
        if self.kills > MOST_KILLS_TOLD {
            text.number(self.kills - MOST_KILLS_TOLD);
            text.text(" more kills\n");
        }
        add_late(self.alloc, &mut text, scene, &self.tasks)?;
        let killed = self.tasks.dead().len();
        add_totals(
            &mut text,
            scene,
            checked.groups,
            checked.tasks,
            killed,
            moved,
        );
        text.finish()
    }

    /// Prints the last lines of the report.
    fn end_report<O: Write>(
        &mut self,
        expansion: &Expansion<'_>,
        stepper: &Stepper<MemDevice>,
        checked: &Checked,
        out: &mut O,
    ) -> Result<(), Problem> {
        let moved = self.moved(stepper);
        let text = self.last_lines(expansion, checked, moved)?;
        say(out, text.as_str())
    }
}

/// Opens the machine of a scenario.
pub fn open(alloc: Global, expansion: &Expansion<'_>) -> Result<Stepper<MemDevice>, Problem>
    ensures opens { IfOk result (Opens (known expansion.now)) }
{
    let header = expansion.header();
    let config = config_of(alloc, header, expansion.names())?;
    let read_faults = failing_of(alloc, header, DeviceCall::Read)?;
    let write_faults = failing_of(alloc, header, DeviceCall::Write)?;
    let Some(blocks) = blocks_for(&config) else {
        return Err(Problem::Memory);
    };
    let device = MemDevice::new(alloc, blocks, &read_faults, &write_faults)?;
    match Stepper::open(alloc, config, device) {
        Ok(stepper) => Ok(stepper),
        Err(_) => Err(Problem::Memory),
    }
}

/// Carries out what an expansion gives, on a new machine. The result says whether all was as expected.
fn run_machine<'a, O: Write>(
    alloc: Global,
    scenario: &'a Scenario,
    checked: &Checked,
    asked: &Asked<'a>,
    expansion: &mut Expansion<'_>,
    stepper: &mut Stepper<MemDevice>,
    out: &mut O,
) -> Result<bool, Problem>
    ensures met { ends (still expansion.old).ending ≡ true → IfOk result (λ well. well ≡ true → (end : World) × MeetsItems (known expansion.old).machine.page stepper.old (still expansion.old).outs end) }
{
    let page = expansion.header().page;
    let mut simulation = Simulation::new(alloc, scenario, *asked, page)?;
    let well = simulation.run_to_end(alloc, expansion, stepper, checked, out)?;
    Ok(well)
}

/// Carries out a scenario without a fault. The result says whether all was as expected.
fn carry_out<'a, O: Write>(
    alloc: Global,
    scenario: &'a Scenario,
    checked: &Checked,
    asked: &Asked<'a>,
    out: &mut O,
) -> Result<bool, Problem>
    ensures met { IfOk result (λ well. well ≡ true → MeetsLines scenario.now.lines.items (settings_of (map (λ t. t.now) asked.now.settings.now))) }
{
    let settings = settings_of(alloc, asked.settings)?;
    let mut expansion = Expansion::new(alloc, scenario, settings, Cuts::ByRun)?;
    let mut stepper = open(alloc, &expansion)?;
    let ran = run_machine(
        alloc,
        scenario,
        checked,
        asked,
        &mut expansion,
        &mut stepper,
        out,
    );
    let _ = stepper.close();
    ran
}

/// Checks a scenario, and carries it out.
fn check_and_run<O: Write>(
    alloc: Global,
    scenario: &Scenario,
    asked: &Asked<'_>,
    out: &mut O,
) -> Result<bool, Problem>
    ensures met { IfOk result (λ well. well ≡ true → MeetsLines scenario.now.lines.items (settings_of (map (λ t. t.now) asked.now.settings.now))) }
{
    let checked = check(alloc, scenario, asked)?;
    out.write_all(checked.rounded.as_slice())?;
    if asked.prints == Prints::Csv {
        say(out, csv_head(alloc)?.as_str())?;
    }
    let well = carry_out(alloc, scenario, &checked, asked, out)?;
    out.flush()?;
    Ok(well)
}

fn run_program<O: Write>(
    alloc: Global,
    scenario: &Scenario,
    asked: &Asked<'_>,
    out: &mut O,
) -> Result<bool, Problem>
    ensures met { IfOk result (λ well. well ≡ true → MeetsLines scenario.now.lines.items (settings_of (map (λ t. t.now) asked.now.settings.now))) }
    ensures faulty { IfErr result (λ problem. failure_of problem ≡ Faulty → AreFaulty scenario.now.lines.items (settings_of (map (λ t. t.now) asked.now.settings.now))) }
    ensures misasked { IfErr result (λ problem. failure_of problem ≡ Misasked → (has_unnamed scenario.now.lines.items (map (λ t. t.now) asked.now.settings.now) ≡ true) ⊎ (asked.now.groups.now ≢ [])) }
{
    if let Err(problem) = check_settings(alloc, scenario, asked.settings) {
        return Err(problem);
    }
    match check_and_run(alloc, scenario, asked, out) {
        Ok(well) => Ok(well),
        Err(problem) => {
            let is_given = !asked.groups.is_empty();
            Err(confirmed(alloc, scenario, asked.settings, is_given, problem))
        }
    }
}

/// Carries out the scenario of `text`, and prints what `asked` says. A refused line ends the run unless it is expected
/// or `asked.go_on` is set. The result says whether all was as expected: nothing was refused, and each expectation is
/// met.
///
/// `err` gets a line for a fault, `NAME:LINE:COLUMN: TEXT`, and nothing is run then. Only the size of a page that a list
/// with `until` leaves open may be found faulty later.
pub fn try_simulate<O: Write, E: Write>(
    alloc: Global,
    asked: &Asked<'_>,
    text: &[u8],
    out: &mut O,
    err: &mut E,
) -> Result<bool, Failure>
    // `err` gets nothing but faults.
    ensures silent { OnOk result (E.contents err.new ≡ E.contents err.old) }
    // A text with a fault is not run.
    ensures reads { OnOk result (IsOk (scenario_of text.now)) }
    // All is as expected only if each `expect` of what a group is charged with holds where it stands.
    ensures met { IfOk result (λ well. well ≡ true → IsAsExpected text.now (map (λ t. t.now) asked.now.settings.now)) }
    // Only a faulty scenario is said to be faulty.
    ensures faulty { IfErr result (λ why. why ≡ Faulty → IsFaulty text.now (map (λ t. t.now) asked.now.settings.now)) }
    // Only what is asked for is said to be misasked: a name that no `let` has, or paths of groups.
    ensures misasked { IfErr result (λ why. why ≡ Misasked → LacksName text.now (map (λ t. t.now) asked.now.settings.now) ⊎ (asked.now.groups.now ≢ [])) }
{
    let scenario = match read_scenario(alloc, asked.name, text, err) {
        Ok(scenario) => scenario,
        Err(why) => return Err(why),
    };
    let ran = run_program(alloc, &scenario, asked, out);
    reported(ran, asked.name, &scenario, err)
}

/// Writes a line that says that not all was as expected, if what is printed doesn't say so.
fn report_unexpected<E: Write>(name: &str, err: &mut E) {
    let _ = writeln!(
        err,
        "{name}: a line was refused, or an expectation is not met; run it without --chart and --csv to see which"
    );
}

/// The same, as a status: 0 if all was as expected, and 1 otherwise. `err` also gets a line if not all was as expected
/// and what is printed doesn't say so.
pub fn simulate<O: Write, E: Write>(
    alloc: Global,
    asked: &Asked<'_>,
    text: &[u8],
    out: &mut O,
    err: &mut E,
) -> u8
    ensures success_or_failure { result ≤ 1 }
    // If it is 0, `err` got nothing.
    ensures silent { result ≡ 0 → E.contents err.new ≡ E.contents err.old }
    // A text with a fault is not run.
    ensures reads { result ≡ 0 → IsOk (scenario_of text.now) }
    // And each `expect` of what a group is charged with holds where it stands.
    ensures met { result ≡ 0 → IsAsExpected text.now (map (λ t. t.now) asked.now.settings.now) }
{
    match try_simulate(alloc, asked, text, out, err) {
        Ok(true) => 0,
        Ok(false) => {
            match asked.prints {
                Prints::Chart | Prints::Csv => report_unexpected(asked.name, err),
                Prints::Report | Prints::Json | Prints::Unmet => {}
            }
            1
        }
        Err(_) => 1,
    }
}
