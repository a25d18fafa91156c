//! A kill of a group: what is counted for it, and the end of all of its tasks.

ghost use Rattle.std.specs.Prelude.{◌≡◌, ℕ, ◌+◌, ◌^◌, ◌<◌, ◌==◌, ◌&&◌, ◌∷◌, [], false, true, if◌then◌else◌};
ghost use Rattle.machine.specs.declared.record.Key.TheVariants as key;
ghost use Rattle.machine.specs.Tree.{is_live};
ghost use Rattle.machine.specs.Tasks.{lives, group_of_task, is_live_life};
ghost use Rattle.machine.specs.Counts.{count_of, total};
ghost use Rattle.machine.specs.Victim.{is_candidate, killed_with, counts_of_killed, counts_of_victim, counts_of_group_kill};
ghost use Rattle.page_state.specs.States.{AreAtMost, AreFew};
ghost use Rattle.page_state.specs.Changes.{counts_events, EndsTasks};

use crate::joined::State;
use machine::config::Placement;
use machine::id::{GroupId, TaskId};
use machine::record::{Key, Life};
use oom::is_candidate;

impl State {
    /// Counts a kill of the group with the victim, because there is no room under the limit: `oom` at the limit,
    /// `oom_kill` for each live task at or under the group, at the task's own group, and `oom_group_kill` at the
    /// group. By Linux's placement the victim is counted twice. Returns the number of these tasks. They stay alive.
    /// The call looks at all task numbers.
    pub fn count_group_kill(&mut self, limit: GroupId, victim: TaskId, group: GroupId) -> u32
        requires limit { is_live self.old.tables.tree limit.0 ≡ true }
        requires victim { lives self.old.tables.tasks victim.0 ≡ true }
        requires group { is_live self.old.tables.tree group.0 ≡ true }
        requires few { AreFew self.old.tables }
        ensures tasks { result ≡ killed_with self.old.tables.tree self.old.tables.tasks group.0 }
        ensures counts { self.new ≡ counts_events self.old (counts_of_group_kill self.old.tables.opening.placement self.old.tables.tree self.old.tables.tasks limit.0 victim.0 group.0) }
    {
        self.count(limit, Key::Oom);
        self.count_victim(victim);
        let tasks = self.count_kills(group);
        self.count(group, Key::OomGroupKill);
        tasks
    }

    /// Counts `oom_kill` at the victim's group, by Linux's placement (kernel: oom_kill_process, which calls
    /// __oom_kill_process for the victim before it goes over the group's tasks, and then again as one of these).
    fn count_victim(&mut self, victim: TaskId)
        requires victim { lives self.old.tables.tasks victim.0 ≡ true }
        requires few { AreAtMost self.old.tables (2 ^ 63 + 1) }
        ensures counts { self.new ≡ counts_events self.old (counts_of_victim self.old.tables.opening.placement self.old.tables.tasks victim.0) }
        ensures most { AreAtMost self.new.tables (2 ^ 63 + 2) }
    {
        self.is_joined();
        match self.config.placement {
            Placement::Own => {}
            Placement::Linux => {
                let Some(task) = self.spaces.task(victim) else {
                    unreachable!()
                };
                self.count(task.group, Key::OomKill);
            }
        }
    }

    /// Counts `oom_kill` for each live task at or under the group, at the task's own group. Returns the
    /// number of these tasks.
    fn count_kills(&mut self, group: GroupId) -> u32
        requires few { AreAtMost self.old.tables (2 ^ 63 + 2) }
        ensures tasks { result ≡ killed_with self.old.tables.tree self.old.tables.tasks group.0 }
        ensures counts { self.new ≡ counts_events self.old (counts_of_killed self.old.tables.tree self.old.tables.tasks group.0) }
        ensures most { AreAtMost self.new.tables (2 ^ 63 + 65538) }
    {
        let mut tasks = 0;
        for number in 0..self.spaces.slots() as u32 {
            tasks += self.count_kill(group, TaskId(number));
        }
        tasks
    }

    /// Counts `oom_kill` at the task's group, if the task is live and at or under this group. Returns the
    /// number of such tasks: one or zero.
    fn count_kill(&mut self, group: GroupId, task: TaskId) -> u32
        requires few { total self.old.tables.tree self.old.tables.counted 0 key.OomKill < u64.MAX }
        ensures task { result ≡ (if is_candidate self.old.tables.tree self.old.tables.tasks group.0 task.0 then 1 else 0) }
        ensures counts { self.new ≡ counts_events self.old (if is_candidate self.old.tables.tree self.old.tables.tasks group.0 task.0 then count_of (group_of_task self.old.tables.tasks task.0) key.OomKill ∷ [] else []) }
        ensures most { (n : ℕ) → AreAtMost self.old.tables n → AreAtMost self.new.tables (n + 1) }
    {
        self.is_joined();
        if !is_candidate(&self.tree, &self.spaces, group, task) {
            return 0;
        }
        let Some(known) = self.spaces.task(task) else {
            unreachable!()
        };
        self.count(known.group, Key::OomKill);
        1
    }

    /// Ends all live tasks at or under the group as `life` says. Their virtual pages map nothing any more.
    /// The pages that nothing else maps are gone, except those in transfer. The call looks at all task
    /// numbers. Allocates no memory.
    pub fn end_tasks(&mut self, group: GroupId, life: Life)
        requires { is_live_life life ≡ false }
        ensures { EndsTasks self.old self.new (is_candidate self.old.tables.tree self.old.tables.tasks group.0) life }
    {
        self.is_joined();
        for number in 0..self.spaces.slots() as u32 {
            self.end_task_under(group, TaskId(number), life);
        }
    }

    /// Ends the task as `life` says, if it is live and at or under the group.
    fn end_task_under(&mut self, group: GroupId, task: TaskId, life: Life)
        requires { is_live_life life ≡ false }
        ensures { EndsTasks self.old self.new (λ u. (u == task.0) && is_candidate self.old.tables.tree self.old.tables.tasks group.0 task.0) life }
    {
        self.is_joined();
        if is_candidate(&self.tree, &self.spaces, group, task) {
            self.end_task(task, life);
        }
    }
}
