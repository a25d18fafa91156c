//! Rows: the numbers of the machine and of its groups, for each line and round, after it was carried out.

use crate::run::{Run, say};
use block_store::MemDevice;
use driver::Stepper;
use expansion::expansion::Expansion;
use scenario_faults::Problem;
use scenario_pictures::{
    Group, Level, MOST_CURVES, Machine, Place, Row, Told, csv_row, finite, row_object,
};
use scenario_reports::asked::Prints;
use scenario_reports::telling::stats_of;
use std::alloc::AllocError;
use std::io::Write;

impl<'p> Run<'p> {
    /// Whether rows are made.
    pub fn has_rows(&self) -> bool {
        !matches!(self.asked.prints, Prints::Report | Prints::Unmet)
    }

    /// Whether the last item is of a line that starts groups or tasks. Such a line has no row.
    fn only_starts(&self, expansion: &Expansion<'_>) -> Result<bool, AllocError> {
        let words = expansion.words()?;
        let words = words.as_str();
        Ok(words.starts_with("group ") || words.starts_with("task "))
    }

    /// An entry comes. A row is made before it, if another line or round has ended.
    ///
    /// Lines that start groups or tasks, notes and `let` lines have no row. A block whose lines are worked together has
    /// a row at its end, and one for each round in it that ends before. The numbers of a row are those before the next
    /// entry.
    pub fn row_before_entry<O: Write>(
        &mut self,
        expansion: &Expansion<'_>,
        stepper: &Stepper<MemDevice>,
        out: &mut O,
    ) -> Result<(), Problem> {
        if !self.has_rows() {
            return Ok(());
        }
        let line = expansion.line();
        let goes_on = self.pace.goes_on(line, expansion.rounds());
        if !goes_on && self.only_starts(expansion)? {
            return self.row_before_note(expansion, stepper, out);
        }
        match self.pace.meet(self.alloc, line, expansion.rounds())? {
            None => Ok(()),
            Some(place) => self.row(expansion, stepper, place, out),
        }
    }

    /// Something comes that is no entry, or the end. A row is made before it.
    pub fn row_before_note<O: Write>(
        &mut self,
        expansion: &Expansion<'_>,
        stepper: &Stepper<MemDevice>,
        out: &mut O,
    ) -> Result<(), Problem> {
        match self.pace.close() {
            None => Ok(()),
            Some(place) => self.row(expansion, stepper, place, out),
        }
    }

    /// The phase ends. Its last row is shown.
    pub fn last_row<O: Write>(
        &mut self,
        expansion: &Expansion<'_>,
        stepper: &Stepper<MemDevice>,
        out: &mut O,
    ) -> Result<(), Problem> {
        match self.pace.skipped() {
            None => Ok(()),
            Some(place) => self.show_row(expansion, stepper, place, out),
        }
    }

    /// A row is made, and shown if it is kept.
    fn row<O: Write>(
        &mut self,
        expansion: &Expansion<'_>,
        stepper: &Stepper<MemDevice>,
        place: Place,
        out: &mut O,
    ) -> Result<(), Problem> {
        if self.pace.keeps() {
            return self.show_row(expansion, stepper, place, out);
        }
        self.pace.skip(place);
        Ok(())
    }

    /// Finds the groups that are new.
    pub fn look_at_groups(&mut self, expansion: &Expansion<'_>) -> Result<(), AllocError> {
        let names = expansion.names();
        self.choice
            .look(self.alloc, &self.asked, names, self.watch.paths())
    }

    /// An entry was carried out. Curves show the most that a group was charged with since the last row, so each entry
    /// counts.
    pub fn note_peaks(
        &mut self,
        expansion: &Expansion<'_>,
        stepper: &Stepper<MemDevice>,
    ) -> Result<(), AllocError> {
        if self.asked.prints != Prints::Chart {
            return Ok(());
        }
        self.look_at_groups(expansion)?;
        if self.choice.all.len() <= MOST_CURVES {
            self.choice.note_peaks(stepper.book());
        }
        Ok(())
    }

    fn show_row<O: Write>(
        &mut self,
        expansion: &Expansion<'_>,
        stepper: &Stepper<MemDevice>,
        place: Place,
        out: &mut O,
    ) -> Result<(), Problem> {
        self.look_at_groups(expansion)?;
        let machine = self.machine(expansion, stepper);
        match self.asked.prints {
            Prints::Report | Prints::Unmet => {}
            Prints::Chart => {
                let told = self.told(expansion, stepper, place, machine)?;
                self.story.add(told)?;
                self.choice.clear_peaks();
            }
            Prints::Csv => {
                let text = {
                    let row = self.numbers(expansion, stepper, &place, machine)?;
                    csv_row(self.alloc, expansion.scene().page(), &row)?
                };
                say(out, text.as_str())?;
            }
            Prints::Json => {
                let bytes = {
                    let row = self.numbers(expansion, stepper, &place, machine)?;
                    row_object(self.alloc, expansion.scene().page(), &row)?
                };
                out.write_all(bytes.as_slice())?;
            }
        }
        self.pace.clear();
        Ok(())
    }

    /// The numbers of the machine now.
    fn machine(&mut self, expansion: &Expansion<'_>, stepper: &Stepper<MemDevice>) -> Machine {
        let moved = self.moved(stepper);
        let tally = stepper.book().tally();
        let header = expansion.header();
        Machine {
            used: u64::from(header.frames.saturating_sub(tally.free_frames)),
            free: u64::from(tally.free_frames),
            swap: u64::from(header.swap.saturating_sub(tally.free_blocks)),
            moved,
        }
    }

    /// The numbers of a row.
    fn numbers<'r>(
        &'r self,
        expansion: &Expansion<'_>,
        stepper: &Stepper<MemDevice>,
        place: &'r Place,
        machine: Machine,
    ) -> Result<Row<'r>, AllocError> {
        let mut groups = Vec::new(self.alloc);
        for chosen in self.choice.all.iter() {
            let path = chosen.path.as_str();
            if let Some((_number, stats)) = stats_of(stepper.book(), chosen.script.as_str()) {
                groups.push(Group { path, stats })?;
            }
        }
        Ok(Row {
            place,
            phase: self.phase.as_str(),
            machine,
            groups,
            died: self.pace.died(),
        })
    }

    /// The numbers of a row that the picture shows.
    fn told(
        &self,
        expansion: &Expansion<'_>,
        stepper: &Stepper<MemDevice>,
        place: Place,
        machine: Machine,
    ) -> Result<Told, AllocError> {
        let alloc = self.alloc;
        let mut levels = Vec::new(alloc);
        for chosen in self.choice.all.iter() {
            levels.push(match stepper.book().look(chosen.script.as_str()) {
                None => None,
                Some(look) => Some(Level {
                    current: look.usage,
                    peak: chosen.peak.max(look.usage),
                    max: finite(look.max),
                }),
            })?;
        }
        let mut died = Vec::new(alloc);
        for name in self.pace.died() {
            died.push(String::from_str(alloc, name.as_str())?)?;
        }
        Ok(Told {
            place,
            machine,
            levels,
            died,
        })
    }
}
