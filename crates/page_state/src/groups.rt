//! Groups: making and setting them, what they show, and the events that are counted at them.

ghost use Rattle.std.specs.Prelude.{◌≡◌, ◌≢◌, ℕ, ◌+◌, ◌<◌, Some, None, true, false, OnOk, OnErr};
ghost use Rattle.machine.specs.Names.{parent_path};
ghost use Rattle.machine.specs.Tree.{is_live, under, find_group};
ghost use Rattle.machine.specs.Counts.{limits_at, counts_by, total, local};
ghost use Rattle.machine.specs.Generations.{gens_at};
ghost use Rattle.machine.specs.State.{usage, stat_of, effective_in};
ghost use Rattle.machine.specs.Refusals.{mkdir_refusal, rmdir_refusal, bars_children};
ghost use Rattle.page_state.specs.States.{AreAtMost};
ghost use Rattle.page_state.specs.Changes.{counts_event, AddsGroup, RemovesGroup, sets_in};

use crate::joined::State;
use crate::lookup::file_usage;
use crate::removal::reparent;
use machine::amount::Amount;
use machine::event::Setting;
use machine::id::GroupId;
use machine::record::{EventCounts, Guard, Key, Limits, MemoryStat};
use protection::Protection;
use std::alloc::AllocError;

impl State {
    /// The settings of the group.
    pub fn limits(&self, group: GroupId) -> Limits
        requires { is_live self.now.tables.tree group.0 ≡ true }
        ensures { result ≡ limits_at self.now.tables.limits group.0 }
    {
        Limits {
            max: self.parts.counters.max(group),
            min: self.parts.counters.guard(Guard::Min, group),
            low: self.parts.counters.guard(Guard::Low, group),
        }
    }

    /// How many pages are charged to the group or below it.
    pub fn usage(&self, group: GroupId) -> u64
        requires { is_live self.now.tables.tree group.0 ≡ true }
        ensures { result ≡ usage self.now.tables group.0 }
    {
        self.parts.counters.usage(group)
    }

    /// How many of these pages are memory of tasks, and how many are pages of files. The call looks at all page
    /// numbers.
    pub fn stat(&self, group: GroupId) -> MemoryStat
        requires { is_live self.now.tables.tree group.0 ≡ true }
        ensures { result ≡ stat_of self.now.tables group.0 }
    {
        let file = file_usage(&self.parts.pages, &self.tree, group);
        let anon = self.usage(group) - file;
        MemoryStat { anon, file }
    }

    /// The effective `memory.min` or `memory.low` of a group below the target, for a reclaim of the target.
    pub fn protection(&self, guard: Guard, target: GroupId, group: GroupId) -> Amount
        requires live { is_live self.now.tables.tree group.0 ≡ true }
        requires under { under self.now.tables.tree target.0 group.0 ≡ true }
        requires below { target.0 ≢ group.0 }
        ensures { result ≡ effective_in self.now.tables guard target.0 group.0 }
    {
        self.tree.groups_form_a_tree();
        let recursive = self.is_recursive();
        let protection = Protection {
            tree: &self.tree,
            counters: &self.parts.counters,
            recursive,
            target,
        };
        protection.effective(guard, group)
    }

    /// How often each key was counted at the group or anywhere below it.
    pub fn events(&self, group: GroupId) -> EventCounts
        requires { is_live self.now.tables.tree group.0 ≡ true }
        ensures { result ≡ counts_by (total self.now.tables.tree self.now.tables.counted group.0) }
    {
        self.events.totals(group)
    }

    /// How often each key was counted at the group itself.
    pub fn local_events(&self, group: GroupId) -> EventCounts
        requires { is_live self.now.tables.tree group.0 ≡ true }
        ensures { result ≡ counts_by (local self.now.tables.counted group.0) }
    {
        self.events.locals(group)
    }

    /// The number of the group's youngest generation, which begins at 3 and rises by one with each aging (kernel:
    /// `lrugen.max_seq`).
    pub fn max_seq(&self, group: GroupId) -> u64
        requires { is_live self.now.tables.tree group.0 ≡ true }
        ensures { result ≡ (gens_at self.now.order.held.groups group.0).max_seq }
    {
        self.is_joined();
        self.parts.held.gens().max_seq(group)
    }

    /// Counts the key once at the group (kernel: `memcg_memory_event`).
    pub fn count(&mut self, group: GroupId, key: Key)
        requires live { is_live self.old.tables.tree group.0 ≡ true }
        requires few { total self.old.tables.tree self.old.tables.counted 0 key < u64.MAX }
        ensures counts { self.new ≡ counts_event self.old group.0 key }
        ensures most { (n : ℕ) → AreAtMost self.old.tables n → AreAtMost self.new.tables (n + 1) }
    {
        self.events.are_counted();
        self.events.count(group, key);
    }

    /// Sets a new value for a setting of the group. Existing charges remain.
    pub fn set(&mut self, group: GroupId, setting: Setting)
        requires { is_live self.old.tables.tree group.0 ≡ true }
        ensures { self.new ≡ sets_in self.old group.0 setting }
    {
        match setting {
            Setting::Max(max) => self.parts.counters.set_max(group, max),
            Setting::Guard(guard, amount) => self.parts.counters.set_guard(guard, group, amount),
            Setting::OomGroup(flag) => self.flags.set_flag(group, flag),
        }
    }

    /// Makes a group with this path below its parent, which exists. All memory is reserved before anything
    /// changes: `AllocError` if it runs out, and then nothing changes.
    pub fn mkdir(&mut self, parent: GroupId, path: &str) -> Result<(), AllocError>
        requires none { mkdir_refusal self.old.tables.tree (bars_children self.old.tables.tasks) path.now ≡ None }
        requires parent { find_group self.old.tables.tree (parent_path path.now) ≡ Some parent.0 }
        requires live { is_live self.old.tables.tree parent.0 ≡ true }
        ensures adds { OnOk result (AddsGroup self.old self.new path.now) }
        ensures err { OnErr result (self.new ≡ self.old) }
    {
        self.parts.reserve_group()?;
        self.flags.reserve()?;
        self.events.reserve()?;
        self.cursors.reserve()?;
        self.spaces.reserve_group()?;
        let group = self.tree.mkdir(path)?;
        self.parts.add_group(group, parent);
        self.flags.add_reserved();
        self.events.add_reserved(group, parent);
        self.cursors.add_reserved();
        self.spaces.add_group();
        Ok(())
    }

    /// Removes a group that has neither children nor tasks and is not the root. Its pages, including those in
    /// transfer and those on their blocks, become its parent's, and so do their charges (kernel: `cgroup_rmdir`,
    /// `mem_cgroup_css_offline`). By Linux's placement those that are only on their blocks become the root's. Allocates
    /// no memory.
    pub fn rmdir(&mut self, group: GroupId)
        requires { rmdir_refusal self.old.tables group.0 ≡ None }
        ensures { RemovesGroup self.old self.new group.0 }
    {
        self.is_joined();
        self.parts.counters.are_counted();
        let Some(parent) = self.tree.parent(group) else {
            unreachable!()
        };
        reparent(
            &mut self.parts.pages,
            &mut self.parts.counters,
            group,
            parent,
            self.config.placement,
        );
        self.parts.held.take_over(group, parent);
        self.parts.counters.remove(group);
        self.events.remove(group);
        self.cursors.remove(group);
        self.tree.rmdir(group);
    }
}
