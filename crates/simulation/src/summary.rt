//! The summary of a run.

use crate::run::Run;
use block_store::MemDevice;
use driver::Stepper;
use expansion::expansion::Expansion;
use scenario_reports::summary::Summary;
use std::alloc::AllocError;

/// Names of killed tasks that are kept, at most.
const MOST_NAMES: usize = 3;

impl<'p> Run<'p> {
    /// What came of the run so far.
    pub fn summary(
        &mut self,
        expansion: &Expansion<'_>,
        stepper: &Stepper<MemDevice>,
        well: bool,
    ) -> Result<Summary, AllocError> {
        let moved = self.moved(stepper).since(self.phase_moved);
        let scene = expansion.scene();
        let mut first = Vec::new(self.alloc);
        for task in self.tasks.dead().iter().take(MOST_NAMES) {
            first.push(self.task_name(expansion, *task)?)?;
        }
        Ok(Summary {
            page: scene.page(),
            moved,
            well,
            killed: self.tasks.dead().len(),
            first,
        })
    }
}
