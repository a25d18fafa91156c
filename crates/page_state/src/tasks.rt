//! How tasks begin, move and end.

ghost use Rattle.std.specs.Prelude.{◌≡◌, None, OnOk, OnErr, false, true};
ghost use Rattle.machine.specs.Tree.{is_live};
ghost use Rattle.machine.specs.Tasks.{lives, is_live_life};
ghost use Rattle.machine.specs.Refusals.{number_refusal};
ghost use Rattle.page_state.specs.Changes.{StartsTask, ForksTask, MovesTask, EndsTask};

use crate::joined::State;
use machine::id::{GroupId, TaskId};
use machine::record::Life;
use std::alloc::AllocError;

impl State {
    /// Starts a task of the group. `AllocError` if memory for its page table runs out, and then nothing
    /// changes.
    pub fn spawn(&mut self, task: TaskId, group: GroupId) -> Result<(), AllocError>
        requires number { number_refusal self.old.tables.tasks task.0 ≡ None }
        requires live { is_live self.old.tables.tree group.0 ≡ true }
        ensures starts { OnOk result (StartsTask self.old self.new task.0 group.0) }
        ensures err { OnErr result (self.new ≡ self.old) }
    {
        self.spaces.spawn(task, group)?;
        Ok(())
    }

    /// Starts a task in the group of a live one. It maps the same pages. `AllocError` if memory for its page
    /// table runs out, and then nothing changes.
    pub fn fork(&mut self, parent: TaskId, child: TaskId) -> Result<(), AllocError>
        requires alive { lives self.old.tables.tasks parent.0 ≡ true }
        requires number { number_refusal self.old.tables.tasks child.0 ≡ None }
        ensures forks { OnOk result (ForksTask self.old self.new parent.0 child.0) }
        ensures err { OnErr result (self.new ≡ self.old) }
    {
        self.spaces.owners();
        self.spaces.fork(parent, child)?;
        Ok(())
    }

    /// Moves a live task to another group. The charges of its pages stay where they are. Allocates no memory.
    pub fn attach(&mut self, task: TaskId, group: GroupId)
        requires alive { lives self.old.tables.tasks task.0 ≡ true }
        requires live { is_live self.old.tables.tree group.0 ≡ true }
        ensures { MovesTask self.old self.new task.0 group.0 }
    {
        self.spaces.attach(task, group);
    }

    /// Ends a live task as `life` says. Its virtual pages map nothing any more, and the pages that nothing
    /// else maps are gone, except those in transfer. Allocates no memory.
    pub fn end_task(&mut self, task: TaskId, life: Life)
        requires alive { lives self.old.tables.tasks task.0 ≡ true }
        requires ended { is_live_life life ≡ false }
        ensures { EndsTask self.old self.new task.0 life }
    {
        self.unmap_all(task);
        self.spaces.exit(task, life);
    }
}
