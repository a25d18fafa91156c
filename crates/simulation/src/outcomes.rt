//! What is printed of an entry.

use crate::run::{Run, say};
use block_store::MemDevice;
use drafts::Draft;
use driver::{Stepper, Word};
use expansion::expansion::Expansion;
use scenario_faults::Problem;
use scenario_lines::burst::Condition;
use scenario_pictures::{add_place, add_rounds};
use scenario_reports::asked::Prints;
use scenario_reports::refusals::{add_words, are_expected};
use scenario_reports::said::{Kill, Said};
use scenario_reports::telling::{add_line, add_reason, add_task, add_tasks, add_true_path};
use std::alloc::AllocError;
use std::io::Write;

/// The most kills that the report prints.
pub const MOST_KILLS_TOLD: u64 = 20;

impl<'p> Run<'p> {
    /// Begins a line with the place of the last item.
    pub fn place(&self, expansion: &Expansion<'_>) -> Draft {
        let mut text = Draft::new(self.alloc);
        let line = expansion.line();
        let rounds = expansion.rounds();
        if self.asked.prints != Prints::Unmet {
            add_place(&mut text, line, rounds);
            return text;
        }
        text.text(self.asked.name);
        write!(text, ":{line}:");
        if !rounds.is_empty() {
            text.text(" round ");
            add_rounds(&mut text, rounds);
        }
        text
    }

    /// Adds the words of the last entry. `task` is the task of an entry that is a task's.
    fn add_entry(
        &self,
        expansion: &Expansion<'_>,
        text: &mut Draft,
        task: Option<u32>,
    ) -> Result<(), AllocError> {
        let words = expansion.words()?;
        add_line(text, expansion.scene(), words.as_str(), task);
        Ok(())
    }

    /// The words of the last entry. `task` is the task of an entry that is a task's.
    pub fn words(
        &self,
        expansion: &Expansion<'_>,
        task: Option<u32>,
    ) -> Result<String, AllocError> {
        let mut text = Draft::new(self.alloc);
        self.add_entry(expansion, &mut text, task)?;
        text.finish()
    }

    /// Begins a line with the place and the words of the last entry.
    fn place_and_words(
        &self,
        expansion: &Expansion<'_>,
        task: Option<u32>,
    ) -> Result<Draft, AllocError> {
        let mut text = self.place(expansion);
        text.text("  ");
        self.add_entry(expansion, &mut text, task)?;
        text.text(": ");
        Ok(text)
    }

    /// The tasks that died with a kill, the victim first. They are noted.
    fn bury(&mut self, place: usize, kill: Kill) -> Result<Vec<u32>, AllocError> {
        let mut victims = vec![in self.alloc; kill.victim]?;
        if kill.is_group {
            if let Some(doomed) = self.watch.kill_at(place) {
                if let Some(group) = doomed.group {
                    let path = self.watch.path_at(group);
                    let others = self.tasks.others_in(self.alloc, path, kill.victim)?;
                    for task in others {
                        victims.push(task)?;
                    }
                }
            }
        }
        for task in victims.as_slice() {
            self.tasks.kill(*task)?;
        }
        Ok(victims)
    }

    /// Adds who died with the victim.
    fn add_others(
        &self,
        expansion: &Expansion<'_>,
        text: &mut Draft,
        place: usize,
        victims: &[u32],
    ) {
        let others = victims.get(1..).unwrap_or(&[]);
        if others.is_empty() {
            return;
        }
        let Some(doomed) = self.watch.kill_at(place) else {
            return;
        };
        let Some(group) = doomed.group else {
            return;
        };
        text.text(", and with it all of ");
        add_true_path(text, expansion.names(), self.watch.path_at(group));
        text.text(": ");
        add_tasks(text, expansion.scene(), others);
    }

    /// Adds who was killed, and why.
    fn add_kill(&self, expansion: &Expansion<'_>, text: &mut Draft, place: usize, victims: &[u32]) {
        let scene = expansion.scene();
        if let Some(victim) = victims.first() {
            add_task(text, scene, *victim);
        }
        text.text(" is killed");
        self.add_others(expansion, text, place, victims);
        if let Some(doomed) = self.watch.kill_at(place) {
            text.text(" (");
            add_reason(
                text,
                scene,
                expansion.names(),
                scene.page(),
                self.watch.paths(),
                doomed,
            );
            text.text(")");
        }
        text.text("\n");
    }

    /// The line of a kill.
    fn kill_text(
        &self,
        expansion: &Expansion<'_>,
        place: usize,
        victims: &[u32],
        task: Option<u32>,
    ) -> Result<String, AllocError> {
        let mut text = self.place_and_words(expansion, task)?;
        self.add_kill(expansion, &mut text, place, victims);
        text.finish()
    }

    /// Tells the kills of an entry, and counts the lines after a task's death.
    fn tell_kills<O: Write>(
        &mut self,
        expansion: &Expansion<'_>,
        said: &Said,
        task: Option<u32>,
        out: &mut O,
    ) -> Result<(), Problem> {
        for late in said.late.as_slice() {
            self.tasks.count_late(*late);
        }
        for (place, kill) in said.kills.iter().enumerate() {
            let victims = self.bury(place, *kill)?;
            self.kills = self.kills.saturating_add(1);
            self.tell_kill(expansion, place, victims.as_slice(), task, out)?;
        }
        Ok(())
    }

    /// Prints a kill, and notes it for the next row.
    fn tell_kill<O: Write>(
        &mut self,
        expansion: &Expansion<'_>,
        place: usize,
        victims: &[u32],
        task: Option<u32>,
        out: &mut O,
    ) -> Result<(), Problem> {
        match self.asked.prints {
            Prints::Report => {
                if self.kills <= MOST_KILLS_TOLD {
                    let text = self.kill_text(expansion, place, victims, task)?;
                    say(out, text.as_str())?;
                }
                return Ok(());
            }
            Prints::Json => {
                let bytes = self.kill_object(expansion, place, victims, task)?;
                out.write_all(bytes.as_slice())?;
            }
            Prints::Unmet => return Ok(()),
            Prints::Chart | Prints::Csv => {}
        }
        for victim in victims {
            let name = self.task_name(expansion, *victim)?;
            self.pace.add_death(name)?;
        }
        Ok(())
    }

    /// Tells that the last entry was refused, unless that is expected. The result says whether nothing was refused but
    /// what is expected.
    fn tell_refusal<O: Write>(
        &mut self,
        expansion: &Expansion<'_>,
        said: &Said,
        task: Option<u32>,
        out: &mut O,
    ) -> Result<bool, Problem> {
        let words = said.refused.as_slice();
        if words.is_empty() {
            return Ok(true);
        }
        let awaited = expansion.awaited()?;
        let line = expansion.line();
        let rounds = expansion.rounds();
        self.refusals
            .add(self.alloc, words, line, rounds, awaited.as_slice())?;
        let expected = are_expected(self.alloc, words, awaited.as_slice())?;
        self.print_refusal(expansion, words, task, expected, out)?;
        Ok(expected)
    }

    /// The line of a refusal.
    fn refusal_text(
        &self,
        expansion: &Expansion<'_>,
        words: &[Word],
        task: Option<u32>,
    ) -> Result<String, AllocError> {
        let mut text = self.place_and_words(expansion, task)?;
        text.text("refused with ");
        add_words(&mut text, words);
        if let (Some((actor, command)), [word]) = (&self.done, words) {
            self.add_why(expansion, &mut text, *actor, command, *word)?;
        }
        text.text("\n");
        text.finish()
    }

    /// Prints a refusal. The report has an expected one at the line that expects it.
    fn print_refusal<O: Write>(
        &self,
        expansion: &Expansion<'_>,
        words: &[Word],
        task: Option<u32>,
        expected: bool,
        out: &mut O,
    ) -> Result<(), Problem> {
        match self.asked.prints {
            Prints::Report | Prints::Unmet if !expected => {
                let text = self.refusal_text(expansion, words, task)?;
                say(out, text.as_str())
            }
            Prints::Json => {
                let bytes = self.refused_object(expansion, words, task, expected)?;
                out.write_all(bytes.as_slice())?;
                Ok(())
            }
            _ => Ok(()),
        }
    }

    /// Tells what came of the last entry. The result says whether nothing was refused but what is expected.
    pub fn tell<O: Write>(
        &mut self,
        expansion: &Expansion<'_>,
        task: Option<u32>,
        out: &mut O,
    ) -> Result<bool, Problem> {
        let said = self.said()?;
        self.tell_kills(expansion, &said, task, out)?;
        self.tell_refusal(expansion, &said, task, out)
    }

    /// Whether the condition of the open list with `until` holds.
    pub fn is_reached(
        &self,
        expansion: &Expansion<'_>,
        stepper: &Stepper<MemDevice>,
    ) -> Result<bool, Problem> {
        match expansion.condition()? {
            None => Ok(false),
            Some(Condition::Killed(task)) => Ok(self.tasks.is_dead(task)),
            Some(Condition::Current { path, pages }) => {
                let path = expansion.scene().script_path(&path)?;
                Ok(match stepper.book().look(path.as_str()) {
                    None => false,
                    Some(look) => look.usage >= pages,
                })
            }
        }
    }
}
