//! What is kept of a run, for what is printed of it.

use crate::tables::Baseline;
use crate::watch::Watch;
use block_store::MemDevice;
use driver::{Actor, Command, Stepper};
use expansion::expansion::Expansion;
use scenario_faults::Problem;
use scenario_pictures::{Meter, Moved, Story};
use scenario_reports::asked::Asked;
use scenario_reports::by_group::ByGroup;
use scenario_reports::changes::Changes;
use scenario_reports::choice::Choice;
use scenario_reports::pace::Pace;
use scenario_reports::refusals::Refusals;
use scenario_reports::said::Said;
use scenario_reports::tasks::Tasks;
use scenarios::scenario::Scenario;
use std::alloc::{AllocError, Global};
use std::io::Write;

/// What is kept of the run of a scenario.
#[derive(Drop)]
pub struct Run<'p> {
    pub alloc: Global,
    pub scenario: &'p Scenario,
    pub asked: Asked<'p>,
    /// The actor and the command of the last entry. `None` if it is a line `raw`.
    pub done: Option<(Actor, Command)>,
    pub watch: Watch,
    pub tasks: Tasks,
    pub changes: Changes,
    pub refusals: Refusals,
    pub meter: Meter,
    pub by_group: ByGroup,
    /// The name of the phase.
    pub phase: String,
    /// What had been moved when the phase began.
    pub phase_moved: Moved,
    pub baselines: Vec<Baseline>,
    /// How many kills there were. A group that is killed as one counts once.
    pub kills: u64,
    /// When rows are made.
    pub pace: Pace,
    /// The groups that rows are of.
    pub choice: Choice,
    /// What the picture shows.
    pub story: Story,
}

/// Writes a text.
pub fn say<O: Write>(out: &mut O, text: &str) -> Result<(), Problem> {
    out.write_all(text.as_bytes())?;
    Ok(())
}

/// The parts of a new run that need memory.
#[derive(Drop)]
struct Begun {
    watch: Watch,
    by_group: ByGroup,
    phase: String,
    pace: Pace,
}

fn begin(alloc: Global, scenario: &Scenario, every: u32) -> Result<Begun, AllocError> {
    let watch = Watch::new(alloc)?;
    let by_group = ByGroup::new(alloc)?;
    let phase = String::from_str(alloc, "since the beginning")?;
    let pace = Pace::new(alloc, scenario, every)?;
    Ok(Begun {
        watch,
        by_group,
        phase,
        pace,
    })
}

impl<'p> Run<'p> {
    pub fn new(
        alloc: Global,
        scenario: &'p Scenario,
        asked: Asked<'p>,
    ) -> Result<Run<'p>, AllocError> {
        let Begun {
            watch,
            by_group,
            phase,
            pace,
        } = begin(alloc, scenario, asked.every)?;
        Ok(Run {
            alloc,
            scenario,
            asked,
            done: None,
            watch,
            tasks: Tasks::new(alloc),
            changes: Changes::new(alloc),
            refusals: Refusals::new(alloc),
            meter: Meter::default(),
            by_group,
            phase,
            phase_moved: Moved::default(),
            baselines: Vec::new(alloc),
            kills: 0,
            pace,
            choice: Choice::new(alloc),
            story: Story::new(alloc),
        })
    }

    /// Notes what a command may change: the path of a new group, that a task exits, and the changes of tasks. Changes of
    /// tasks are noted only if the actor has no other command under way.
    pub fn note_command(
        &mut self,
        stepper: &Stepper<MemDevice>,
        actor: Actor,
        command: &Command,
    ) -> Result<(), AllocError> {
        match (actor, command) {
            (_, Command::Group(path)) => self.watch.add_path(self.alloc, path)?,
            (Actor::Task(task), Command::Exit) => self.tasks.note_exit(task),
            (_, Command::Access { .. } | Command::Free { .. }) => return Ok(()),
            _ => {}
        }
        if !stepper.is_under_way(actor) {
            self.changes.begin(self.alloc, actor, command)?;
        }
        Ok(())
    }

    /// Reads the answers of the last entry, and makes the changes of tasks that they confirm.
    pub fn said(&mut self) -> Result<Said, AllocError> {
        let alloc = self.alloc;
        let mut said = Said {
            kills: Vec::new(alloc),
            refused: Vec::new(alloc),
            late: Vec::new(alloc),
        };
        for reply in self.watch.answers() {
            said.add(reply)?;
            self.changes.answer(alloc, &mut self.tasks, reply)?;
        }
        self.watch.clear_answers();
        Ok(said)
    }

    /// An entry comes: a command of an actor, or a line of the script.
    pub fn entry_comes<O: Write>(
        &mut self,
        expansion: &Expansion<'_>,
        stepper: &Stepper<MemDevice>,
        command: Option<(Actor, &Command)>,
        out: &mut O,
    ) -> Result<(), Problem> {
        self.watch.clear();
        self.row_before_entry(expansion, stepper, out)?;
        self.done = match command {
            None => None,
            Some((actor, command)) => Some((actor, command.copy(self.alloc)?)),
        };
        Ok(())
    }

    /// An entry was carried out. The result says whether nothing was refused but what is expected.
    pub fn entry_ended<O: Write>(
        &mut self,
        expansion: &Expansion<'_>,
        stepper: &Stepper<MemDevice>,
        task: Option<u32>,
        out: &mut O,
    ) -> Result<bool, Problem> {
        self.note_peaks(expansion, stepper)?;
        self.tell(expansion, task, out)
    }
}
