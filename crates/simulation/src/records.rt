//! What happens in a run, as JSON.

use crate::run::Run;
use block_store::MemDevice;
use drafts::Draft;
use driver::{Stepper, Word};
use expansion::expansion::Expansion;
use machine::event::Cause;
use machine::text::Text;
use scenario_amounts::bytes_of;
use scenario_faults::Problem;
use scenario_pictures::{Group, Moved, Object, add_moved, finite, open_group};
use scenario_reports::causes::Doomed;
use scenario_reports::checked::Checked;
use scenario_reports::telling::{add_task, add_true_path};
use scenario_reports::verdicts::Verdict;
use scenario_words::paths::Path;
use scenario_words::word::Filled;
use std::alloc::AllocError;

/// What needed room when a task was killed, in a word.
fn name_of(cause: Cause) -> &'static str {
    match cause {
        Cause::Charge(_) => "charge",
        Cause::Lower(_) => "lower",
        Cause::Frame => "frame",
    }
}

impl<'p> Run<'p> {
    /// Begins an object with the place of the last item.
    fn object(&self, expansion: &Expansion<'_>, record: &str) -> Object {
        let mut object = Object::new(self.alloc, record);
        object.place(expansion.line(), expansion.rounds());
        object
    }

    /// The name of a task.
    pub fn task_name(&self, expansion: &Expansion<'_>, task: u32) -> Result<String, AllocError> {
        let mut name = Draft::new(self.alloc);
        add_task(&mut name, expansion.scene(), task);
        name.finish()
    }

    /// Adds the words of the last entry.
    fn record_words(
        &self,
        expansion: &Expansion<'_>,
        object: &mut Object,
        task: Option<u32>,
    ) -> Result<(), AllocError> {
        let words = self.words(expansion, task)?;
        object.text("words", words.as_str());
        Ok(())
    }

    /// Adds the name of a task.
    fn record_task(
        &self,
        expansion: &Expansion<'_>,
        object: &mut Object,
        task: u32,
    ) -> Result<(), AllocError> {
        let name = self.task_name(expansion, task)?;
        object.text("task", name.as_str());
        Ok(())
    }

    /// Adds the true path of a group at this place among the paths, or the root's.
    fn record_path(
        &self,
        expansion: &Expansion<'_>,
        object: &mut Object,
        key: &str,
        place: Option<usize>,
    ) -> Result<(), AllocError> {
        let script = match place {
            None => "/",
            Some(place) => self.watch.path_at(place),
        };
        let mut path = Draft::new(self.alloc);
        add_true_path(&mut path, expansion.names(), script);
        object.text(key, path.finish()?.as_str());
        Ok(())
    }

    /// Adds how large the task was, among how many, and why room was needed.
    fn record_doom(
        &self,
        expansion: &Expansion<'_>,
        object: &mut Object,
        doomed: Doomed,
    ) -> Result<(), AllocError> {
        let page = expansion.scene().page();
        object.number("size", bytes_of(page, doomed.victim.pages as u64));
        object.number("tasks", u64::from(doomed.victim.tasks));
        object.text("cause", name_of(doomed.cause));
        self.record_path(expansion, object, "limit", doomed.limit)?;
        let max = match (doomed.cause, finite(doomed.max)) {
            (Cause::Charge(_) | Cause::Lower(_), Some(pages)) => Some(bytes_of(page, pages)),
            _ => None,
        };
        object.perhaps("max", max);
        Ok(())
    }

    /// Adds the tasks that died with a victim.
    fn record_others(
        &self,
        expansion: &Expansion<'_>,
        object: &mut Object,
        victims: &[u32],
    ) -> Result<(), AllocError> {
        let mut others = Vec::new(self.alloc);
        for other in victims.get(1..).unwrap_or(&[]) {
            others.push(self.task_name(expansion, *other)?)?;
        }
        object.texts("with", others.as_slice());
        Ok(())
    }

    /// Adds what is known of a kill.
    fn record_kill(
        &self,
        expansion: &Expansion<'_>,
        object: &mut Object,
        place: usize,
        victims: &[u32],
        task: Option<u32>,
    ) -> Result<(), AllocError> {
        self.record_words(expansion, object, task)?;
        if let Some(victim) = victims.first() {
            self.record_task(expansion, object, *victim)?;
        }
        self.record_others(expansion, object, victims)?;
        match self.watch.kill_at(place) {
            None => Ok(()),
            Some(doomed) => self.record_doom(expansion, object, doomed),
        }
    }

    /// A kill: `with` are the tasks that died with the victim, since its group is killed as one.
    pub fn kill_object(
        &self,
        expansion: &Expansion<'_>,
        place: usize,
        victims: &[u32],
        task: Option<u32>,
    ) -> Result<Vec<u8>, AllocError> {
        let mut object = self.object(expansion, "kill");
        self.record_kill(expansion, &mut object, place, victims, task)?;
        object.line()
    }

    /// Adds the answers to an entry.
    fn record_answers(&self, object: &mut Object, words: &[Word]) -> Result<(), AllocError> {
        let alloc = self.alloc;
        let mut answers = Vec::new(alloc);
        for word in words {
            answers.push(format!(in alloc; "{word}")?)?;
        }
        object.texts("answers", answers.as_slice());
        Ok(())
    }

    /// An entry that was refused.
    pub fn refused_object(
        &self,
        expansion: &Expansion<'_>,
        words: &[Word],
        task: Option<u32>,
        expected: bool,
    ) -> Result<Vec<u8>, AllocError> {
        let mut object = self.object(expansion, "refused");
        self.record_words(expansion, &mut object, task)?;
        self.record_answers(&mut object, words)?;
        object.boolean("expected", expected);
        object.line()
    }

    /// An expectation: `number` is the bytes or the count that was found.
    pub fn expect_object(
        &self,
        expansion: &Expansion<'_>,
        words: &Text,
        verdict: &Verdict,
    ) -> Result<Vec<u8>, AllocError> {
        let mut object = self.object(expansion, "expect");
        object.text("words", words.as_str());
        object.boolean("met", verdict.met);
        object.text("found", verdict.found.as_str());
        object.perhaps("number", verdict.number);
        object.line()
    }

    /// Adds the group of this path, if the machine has it.
    fn record_group(
        &self,
        expansion: &Expansion<'_>,
        object: &mut Object,
        stepper: &Stepper<MemDevice>,
        path: &Path,
    ) -> Result<(), AllocError> {
        let Some((shown, number, stats)) = self.shown_group(expansion, stepper, path)? else {
            return Ok(());
        };
        let page = expansion.scene().page();
        let group = Group {
            path: shown.as_str(),
            stats,
        };
        open_group(object, page, &group, self.baseline_of(number));
        add_moved(object, page, self.by_group.moved_of(number));
        object.close();
        Ok(())
    }

    /// Adds the groups that a `show` names, or all.
    fn record_groups(
        &self,
        expansion: &Expansion<'_>,
        object: &mut Object,
        stepper: &Stepper<MemDevice>,
        words: &[Filled],
    ) -> Result<(), Problem> {
        let paths = self.shown_groups(expansion, words)?;
        for path in paths.iter() {
            self.record_group(expansion, object, stepper, path)?;
        }
        Ok(())
    }

    /// A table: counts of groups, and what was moved, are those of the phase.
    pub fn show_object(
        &self,
        expansion: &Expansion<'_>,
        stepper: &Stepper<MemDevice>,
        words: &[Filled],
        moved: Moved,
    ) -> Result<Vec<u8>, Problem> {
        let mut object = self.object(expansion, "show");
        object.text("phase", self.phase.as_str());
        add_moved(&mut object, expansion.scene().page(), moved);
        object.begin("groups");
        self.record_groups(expansion, &mut object, stepper, words)?;
        object.end();
        Ok(object.line()?)
    }

    /// The phase that begins.
    pub fn mark_object(&self, expansion: &Expansion<'_>) -> Result<Vec<u8>, AllocError> {
        let mut object = self.object(expansion, "mark");
        object.text("phase", self.phase.as_str());
        object.line()
    }

    /// Adds the tasks that have lines after their deaths.
    fn record_late(
        &self,
        expansion: &Expansion<'_>,
        object: &mut Object,
    ) -> Result<(), AllocError> {
        let late = self.tasks.late(self.alloc)?;
        for (task, lines) in late.iter() {
            object.open();
            self.record_task(expansion, object, *task)?;
            object.number("lines", *lines);
            object.close();
        }
        Ok(())
    }

    /// The end of the run.
    pub fn end_object(
        &self,
        expansion: &Expansion<'_>,
        checked: &Checked,
        moved: Moved,
        well: bool,
    ) -> Result<Vec<u8>, AllocError> {
        let scene = expansion.scene();
        let page = scene.page();
        let mut object = Object::new(self.alloc, "end");
        object.boolean("as_expected", well);
        object.number("memory", bytes_of(page, u64::from(scene.header.frames)));
        object.number("swap", bytes_of(page, u64::from(scene.header.swap)));
        object.number("groups", checked.groups as u64);
        object.number("tasks", u64::from(checked.tasks));
        object.number("killed", self.tasks.dead().len() as u64);
        add_moved(&mut object, page, moved);
        object.begin("late");
        self.record_late(expansion, &mut object)?;
        object.end();
        object.line()
    }
}
