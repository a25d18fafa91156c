//! The run of a scenario, and whether all is as expected.

ghost use Rattle.std.specs.Prelude.{◌≡◌, true, IfOk};
ghost use Rattle.driver.specs.Schedule.{World};
ghost use Rattle.expansion.specs.ToCome.{still};
ghost use Rattle.expansion.specs.Walk.{ends};
ghost use Rattle.simulation.specs.Met.{MeetsItems};

use crate::run::Run;
use block_store::MemDevice;
use book::Book;
use driver::{Actor, Closed, Command, FailedCall, Reply, Sink, Stepper};
use expansion::expansion::Expansion;
use machine::event::Cause;
use machine::text::Text;
use scenario_faults::{Problem, problem_of};
use scenario_reports::asked::Asked;
use scenario_reports::checked::Checked;
use scenario_reports::summary::Summary;
use scenario_runs::{Course, Observer, carry_out};
use scenario_words::amount::PageSize;
use scenario_words::fault::ExpandError;
use scenarios::scenario::Scenario;
use std::alloc::{AllocError, Global};
use std::io::Write;

/// Whether all is as expected so far, how many expectations were judged, and the page that sizes are counted in.
#[derive(Clone, Copy)]
pub struct Count {
    pub page: PageSize,
    pub well: bool,
    pub judged: u64,
}

/// The run of a scenario.
#[derive(Drop)]
pub struct Simulation<'p> {
    run: Run<'p>,
    count: Count,
}

/// The answers go to what is kept of the run.
impl<'p> Sink for Simulation<'p> {
    ghost use Rattle.std.specs.Prelude.{◌≡◌};
    ghost use Rattle.std.proofs.Common.{refl, ◌∙◌};

    ghost took = { λ a b xs. b.count ≡ a.count };

    ghost failed = { λ a b begun. b.count ≡ a.count };

    ghost saw = { λ a b pasts. b.count ≡ a.count };

    fn take(&mut self, step: usize, reply: Reply) -> Result<(), Closed> {
        self.run.watch.take(step, reply)
    }

    fn look(&mut self, step: usize, book: &Book) {
        self.run.watch.look(step, book);
    }

    fn see_relief(&mut self, step: usize, book: &Book, cause: Cause) {
        self.run.watch.see_relief(step, book, cause);
    }

    fn see_failure(&mut self, step: usize, book: &Book, call: FailedCall) {
        self.run.watch.see_failure(step, book, call);
    }

    ghost nothing = { λ s. refl };

    ghost more = { λ a b c xs ys first second. second ∙ first };

    ghost stays = { λ s. refl };

    ghost unseen = { λ s. refl };

    ghost further = { λ a b c ps qs first second. second ∙ first };
}

impl<'p, O: Write> Observer<O> for Simulation<'p> {
    ghost use Rattle.std.specs.Prelude.{◌≡◌, false};
    ghost use Rattle.std.proofs.Common.{refl, ◌∙◌};
    ghost use Rattle.simulation.specs.Met.{Keeps, CountsNote};

    ghost goes_on = { λ a b. Keeps a.count b.count };

    ghost judged = { λ a b scene words past. CountsNote a.count b.count scene words past.state };

    ghost ended = { λ a. a.count.well ≡ false };

    fn entry_comes(
        &mut self,
        expansion: &Expansion<'_>,
        stepper: &Stepper<MemDevice>,
        command: Option<(Actor, &Command)>,
        out: &mut O,
    ) -> Result<(), Problem> {
        self.run.entry_comes(expansion, stepper, command, out)
    }

    fn command_comes(
        &mut self,
        stepper: &Stepper<MemDevice>,
        actor: Actor,
        command: &Command,
    ) -> Result<(), AllocError> {
        self.run.note_command(stepper, actor, command)
    }

    fn step_taken(&mut self, book: &Book) -> Result<(), AllocError> {
        let alloc = self.run.alloc;
        self.run.by_group.read(alloc, book)
    }

    fn entry_ended(
        &mut self,
        expansion: &Expansion<'_>,
        stepper: &Stepper<MemDevice>,
        task: Option<u32>,
        out: &mut O,
    ) -> Result<Course, Problem> {
        if self.run.entry_ended(expansion, stepper, task, out)? {
            return Ok(Course::GoesOn);
        }
        self.count.well = false;
        if self.run.asked.go_on {
            Ok(Course::GoesOn)
        } else {
            Ok(Course::Ends)
        }
    }

    fn asks(&self, expansion: &Expansion<'_>, words: &Text) -> Result<Option<Command>, Problem> {
        self.run.asks(expansion, words)
    }

    fn note(
        &mut self,
        expansion: &Expansion<'_>,
        stepper: &Stepper<MemDevice>,
        words: &Text,
        out: &mut O,
    ) -> Result<(), Problem> {
        self.run.row_before_note(expansion, stepper, out)?;
        let page = self.count.page;
        if let Some(met) = self.run.note(expansion, stepper, page, words, out)? {
            self.count.judged = self.count.judged.saturating_add(1);
            self.count.well = self.count.well && met;
        }
        Ok(())
    }

    fn unreached(
        &mut self,
        expansion: &Expansion<'_>,
        stepper: &Stepper<MemDevice>,
        line: usize,
        out: &mut O,
    ) -> Result<(), Problem> {
        self.run.row_before_note(expansion, stepper, out)?;
        self.run.tell_unreached(line, out)
    }

    fn is_reached(
        &self,
        expansion: &Expansion<'_>,
        stepper: &Stepper<MemDevice>,
    ) -> Result<bool, Problem> {
        self.run.is_reached(expansion, stepper)
    }

    fn problem_of(&self, expansion: &Expansion<'_>, error: ExpandError) -> Problem {
        let scene = Some(expansion.scene());
        let run = &self.run;
        problem_of(run.alloc, run.scenario, run.asked.settings, scene, error)
    }

    ghost unchanged = { λ s. (refl, λ is. is) };

    ghost longer = { λ a b c first second. (second.0 ∙ first.0, λ is. first.1 (second.1 is)) };
}

impl<'p> Simulation<'p> {
    pub fn new(
        alloc: Global,
        scenario: &'p Scenario,
        asked: Asked<'p>,
        page: PageSize,
    ) -> Result<Simulation<'p>, AllocError>
        ensures { IfOk result (λ simulation. (simulation.count.page ≡ page) × (simulation.count.well ≡ true)) }
    {
        let run = Run::new(alloc, scenario, asked)?;
        let count = Count {
            page,
            well: true,
            judged: 0,
        };
        Ok(Simulation { run, count })
    }

    /// Carries out all items, and prints what comes last. The result says whether all was as expected.
    pub fn run_to_end<O: Write>(
        &mut self,
        alloc: Global,
        expansion: &mut Expansion<'_>,
        stepper: &mut Stepper<MemDevice>,
        checked: &Checked,
        out: &mut O,
    ) -> Result<bool, Problem>
        ensures met { ends (still expansion.old).ending ≡ true → IfOk result (λ well. well ≡ true → (end : World) × MeetsItems self.old.count.page.bytes stepper.old (still expansion.old).outs end) }
    {
        let _ = carry_out(alloc, expansion, stepper, self, out)?;
        self.run.end(expansion, stepper, checked, self.count, out)?;
        self.run.check_groups(expansion)?;
        Ok(self.count.well)
    }

    /// Carries out all items, and discards what they print.
    pub fn run_silently<O: Write>(
        &mut self,
        alloc: Global,
        expansion: &mut Expansion<'_>,
        stepper: &mut Stepper<MemDevice>,
        out: &mut O,
    ) -> Result<Summary, Problem> {
        let _ = carry_out(alloc, expansion, stepper, self, out)?;
        Ok(self.run.summary(expansion, stepper, self.count.well)?)
    }
}
