//! Who sees the run of a scenario.

ghost use Rattle.std.specs.Prelude.{◌≡◌, ℕ, List, IfOk, OnOk};
ghost use Rattle.machine.specs.Call.{Past};
ghost use Rattle.scenario_lines.specs.Scene.{SceneNow};
ghost use Rattle.expansion.specs.ToCome.{known};
ghost use Rattle.scenario_runs.specs.declared.observer.Course.TheVariants.{Ends};

use block_store::MemDevice;
use book::Book;
use driver::{Actor, Command, Sink, Stepper};
use expansion::expansion::Expansion;
use machine::text::Text;
use scenario_faults::Problem;
use scenario_words::fault::ExpandError;
use std::alloc::AllocError;

/// Whether the run goes on.
#[derive(Clone, Copy, PartialEq, Eq)]
pub enum Course {
    GoesOn,
    Ends,
}

/// Sees the run of a scenario, judges its notes, and writes to `out` what it has to say. As a [`Sink`] it takes the
/// answers of the machine.
pub trait Observer<W>: Sink {
    /// From the first state to the second it went on, and judged no note.
    ghost goes_on: { Self → Self → Type 0 };

    /// From the first state to the second it judged the note with these words, by what the scenario says up to there and
    /// by the book with this past, and no other note.
    ghost judged: { Self → Self → SceneNow → List ℕ → Past → Type 0 };

    /// In this state it ended the run.
    ghost ended: { Self → Type 0 };

    /// An entry comes: a command of an actor, or a line of the script.
    fn entry_comes(
        &mut self,
        expansion: &Expansion<'_>,
        stepper: &Stepper<MemDevice>,
        command: Option<(Actor, &Command)>,
        out: &mut W,
    ) -> Result<(), Problem>
        ensures { OnOk result (goes_on self.old self.new) };

    /// A command of an actor is about to begin.
    fn command_comes(
        &mut self,
        stepper: &Stepper<MemDevice>,
        actor: Actor,
        command: &Command,
    ) -> Result<(), AllocError>
        ensures { OnOk result (goes_on self.old self.new) };

    /// A step was taken.
    fn step_taken(&mut self, book: &Book) -> Result<(), AllocError>
        ensures { OnOk result (goes_on self.old self.new) };

    /// An entry was carried out. It is of a task, or of nobody in particular. The run ends here if the observer says so.
    fn entry_ended(
        &mut self,
        expansion: &Expansion<'_>,
        stepper: &Stepper<MemDevice>,
        task: Option<u32>,
        out: &mut W,
    ) -> Result<Course, Problem>
        ensures goes_on { OnOk result (goes_on self.old self.new) }
        ensures ended { IfOk result (λ course. course ≡ Ends → ended self.new) };

    /// What is to be carried out before the note with these words is judged.
    fn asks(&self, expansion: &Expansion<'_>, words: &Text) -> Result<Option<Command>, Problem>;

    /// Judges a note by its words.
    fn note(
        &mut self,
        expansion: &Expansion<'_>,
        stepper: &Stepper<MemDevice>,
        words: &Text,
        out: &mut W,
    ) -> Result<(), Problem>
        ensures { OnOk result (judged self.old self.new (known expansion.now) words.now stepper.now.past) };

    /// A list with `until`, of the line of this number, has ended without being cut.
    fn unreached(
        &mut self,
        expansion: &Expansion<'_>,
        stepper: &Stepper<MemDevice>,
        line: usize,
        out: &mut W,
    ) -> Result<(), Problem>
        ensures { OnOk result (goes_on self.old self.new) };

    /// Whether the condition of the list with `until` that is at work holds.
    fn is_reached(
        &self,
        expansion: &Expansion<'_>,
        stepper: &Stepper<MemDevice>,
    ) -> Result<bool, Problem>;

    /// The problem of an expansion that can't go on.
    fn problem_of(&self, expansion: &Expansion<'_>, error: ExpandError) -> Problem;

    ghost unchanged: { (s : Self) → goes_on s s };

    ghost longer: { (a b c : Self) → goes_on a b → goes_on b c → goes_on a c };
}
