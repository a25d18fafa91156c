//! Which command each actor is at.

use crate::source::Source;
use driver::Actor;
use indexmap::IndexMap;
use scripts::number_of;
use std::alloc::{AllocError, Global};

/// For each actor, the step that began its latest command, among the steps that were looked at so far.
#[derive(Drop)]
pub struct Begun {
    steps: IndexMap<u64, usize>,
    /// How many steps were looked at.
    seen: usize,
}

impl Begun {
    pub fn new(alloc: Global) -> Begun {
        Begun {
            steps: IndexMap::new(alloc),
            seen: 0,
        }
    }

    /// Looks at the steps before this one. A step that began nothing has to be passed by first.
    pub fn look(&mut self, source: Source<'_>, step: usize) -> Result<(), AllocError> {
        for at in self.seen..step {
            if let Some((actor, _)) = source.schedule.begun_at(at) {
                self.steps.insert(number_of(actor), at)?;
            }
            self.seen = at + 1;
        }
        Ok(())
    }

    /// Notes that the step began nothing.
    pub fn pass_by(&mut self, step: usize) {
        self.seen = self.seen.max(step.saturating_add(1));
    }

    /// The step that began the actor's latest command.
    pub fn of(&self, actor: Actor) -> Option<usize> {
        self.steps.get(&number_of(actor)).copied()
    }
}
