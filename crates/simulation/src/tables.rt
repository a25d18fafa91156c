//! Tables of groups, and the phases that they are of.

use crate::run::{Run, say};
use block_store::MemDevice;
use drafts::Draft;
use driver::Stepper;
use expansion::expansion::Expansion;
use scenario_faults::{Problem, add_path};
use scenario_pictures::{Counts, Moved, Stats};
use scenario_reports::asked::Prints;
use scenario_reports::notes::rest_of;
use scenario_reports::telling::{add_head, add_row, counts_of, stats_of};
use scenario_words::paths::Path;
use scenario_words::word::Filled;
use std::alloc::AllocError;
use std::io::Write;

/// What a group had at the last `mark`.
#[derive(Clone, Copy)]
pub struct Baseline {
    /// The group's number.
    pub group: u32,
    pub then: Counts,
}

impl<'p> Run<'p> {
    /// What was moved since the run began.
    pub fn moved(&mut self, stepper: &Stepper<MemDevice>) -> Moved {
        self.meter.read(stepper.book().trace().entries())
    }

    /// What a group had at the last `mark`.
    pub fn baseline_of(&self, group: u32) -> Counts {
        for baseline in self.baselines.iter() {
            if baseline.group == group {
                return baseline.then;
            }
        }
        Counts::default()
    }

    /// The true path of a group, its number and its numbers, if the machine has it.
    pub fn shown_group(
        &self,
        expansion: &Expansion<'_>,
        stepper: &Stepper<MemDevice>,
        path: &Path,
    ) -> Result<Option<(String, u32, Stats)>, AllocError> {
        let script = expansion.scene().script_path(path)?;
        let Some((number, stats)) = stats_of(stepper.book(), script.as_str()) else {
            return Ok(None);
        };
        let mut shown = String::new(self.alloc);
        add_path(&mut shown, path.names.as_slice())?;
        Ok(Some((shown, number, stats)))
    }

    /// Adds the row of a group, if the machine has it.
    fn add_group(
        &self,
        expansion: &Expansion<'_>,
        text: &mut Draft,
        stepper: &Stepper<MemDevice>,
        path: &Path,
    ) -> Result<(), AllocError> {
        let Some((shown, number, stats)) = self.shown_group(expansion, stepper, path)? else {
            return Ok(());
        };
        let then = self.baseline_of(number);
        add_row(
            self.alloc,
            text,
            expansion.scene().page(),
            shown.as_str(),
            stats,
            then,
            self.by_group.moved_of(number),
        );
        Ok(())
    }

    /// The groups that a `show` names, or all.
    pub fn shown_groups(
        &self,
        expansion: &Expansion<'_>,
        words: &[Filled],
    ) -> Result<Vec<Path>, Problem> {
        let scene = expansion.scene();
        let mut paths = Vec::new(self.alloc);
        if words.len() <= 1 {
            for path in scene.groups() {
                paths.push(path.copy(self.alloc)?)?;
            }
        }
        for place in 1..words.len() {
            if let Some(word) = words.get(place) {
                paths.push(scene.group_below_root(word)?)?;
            }
        }
        Ok(paths)
    }

    /// Adds the rows of the groups that a `show` names, or of all.
    fn add_rows(
        &self,
        expansion: &Expansion<'_>,
        text: &mut Draft,
        stepper: &Stepper<MemDevice>,
        words: &[Filled],
    ) -> Result<(), Problem> {
        let paths = self.shown_groups(expansion, words)?;
        for path in paths.iter() {
            self.add_group(expansion, text, stepper, path)?;
        }
        Ok(())
    }

    /// The table of a `show`.
    fn show_text(
        &self,
        expansion: &Expansion<'_>,
        stepper: &Stepper<MemDevice>,
        words: &[Filled],
        moved: Moved,
    ) -> Result<String, Problem> {
        let mut text = self.place(expansion);
        let characters = text.characters();
        add_head(&mut text, characters);
        self.add_rows(expansion, &mut text, stepper, words)?;
        text.text("  ");
        text.text(self.phase.as_str());
        text.text(": ");
        moved.add(&mut text, expansion.scene().page());
        text.text("\n");
        Ok(text.finish()?)
    }

    pub fn show<O: Write>(
        &mut self,
        expansion: &Expansion<'_>,
        stepper: &Stepper<MemDevice>,
        words: &[Filled],
        out: &mut O,
    ) -> Result<(), Problem> {
        let moved = self.moved(stepper).since(self.phase_moved);
        match self.asked.prints {
            Prints::Report => {
                let text = self.show_text(expansion, stepper, words, moved)?;
                say(out, text.as_str())
            }
            Prints::Json => {
                let bytes = self.show_object(expansion, stepper, words, moved)?;
                out.write_all(bytes.as_slice())?;
                Ok(())
            }
            Prints::Chart | Prints::Csv | Prints::Unmet => Ok(()),
        }
    }

    /// What all groups have now.
    fn baselines_now(
        &self,
        expansion: &Expansion<'_>,
        stepper: &Stepper<MemDevice>,
    ) -> Result<Vec<Baseline>, AllocError> {
        let scene = expansion.scene();
        let mut baselines = Vec::new(self.alloc);
        for path in scene.groups() {
            let script = scene.script_path(path)?;
            if let Some(look) = stepper.book().look(script.as_str()) {
                baselines.push(Baseline {
                    group: look.number,
                    then: counts_of(look),
                })?;
            }
        }
        Ok(baselines)
    }

    /// A phase begins.
    pub fn mark<O: Write>(
        &mut self,
        expansion: &Expansion<'_>,
        stepper: &Stepper<MemDevice>,
        words: &[Filled],
        out: &mut O,
    ) -> Result<(), Problem> {
        self.last_row(expansion, stepper, out)?;
        self.baselines = self.baselines_now(expansion, stepper)?;
        self.phase_moved = self.moved(stepper);
        self.by_group.mark();
        let name = rest_of(self.alloc, words)?;
        self.phase = if name.is_empty() {
            format!(in self.alloc; "since line {}", expansion.line())?
        } else {
            name
        };
        match self.asked.prints {
            Prints::Report | Prints::Csv | Prints::Unmet => {}
            Prints::Chart => {
                let name = String::from_str(self.alloc, self.phase.as_str())?;
                self.story.mark(name)?;
            }
            Prints::Json => {
                let bytes = self.mark_object(expansion)?;
                out.write_all(bytes.as_slice())?;
            }
        }
        Ok(())
    }
}
