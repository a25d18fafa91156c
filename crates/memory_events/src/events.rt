//! The counts of all groups.

ghost use Rattle.std.specs.Prelude.{◌≡◌, ℕ, ◌+◌, ◌<◌, ◌≤◌, ◌==◌, ◌&&◌, ◌++◌, ◌∷◌, [], List, true, false, Some, None, length, slice_set, slice_index_or, if◌then◌else◌, IfOk, OnOk, OnErr, IsOk};
ghost use Rattle.machine.specs.declared.record.Key.{Key};
ghost use Rattle.machine.specs.Counts.{no_counts, is_key, counts_by, with_event, total as total_counted, local as local_counted};
ghost use Rattle.machine.specs.Tree.{node_at, is_live, has_children, under};
ghost use Rattle.group_tree.specs.Lineages.{bare, IsLineage};

use crate::keys::count_once;
use group_tree::Lineage;
use machine::id::GroupId;
use machine::record::{EventCounts, Key};
use std::alloc::{AllocError, Global};
use std::marker::Model;

/// How often each key was counted at each group, and at it or anywhere below it (kernel:
/// `memory_events_local` and `memory_events` of a `struct mem_cgroup`). A removed group keeps its
/// numbers, and the numbers of the groups above it still include them.
#[derive(Drop)]
pub struct Events {
    lineage: Lineage,
    /// By group: the counts of the group and of all groups below it.
    totals: Vec<EventCounts>,
    /// By group: the counts of the group itself.
    locals: Vec<EventCounts>,
}

impl Model for Events {
    ghost use Rattle.std.specs.Prelude.{◌-◌, min, vec_len, vec_capacity};
    ghost use Rattle.memory_events.specs.Tables.{EventTable, AreSums};

    ghost Value = { EventTable };

    ghost view = { λ e. record {
      tree = e.lineage.tree;
      counted = e.locals.items;
      room = min e.lineage.room (min (vec_capacity e.totals - vec_len e.totals) (vec_capacity e.locals - vec_len e.locals));
    } };

    ghost invariant = { λ e. AreSums e.lineage.tree e.totals.items e.locals.items };
}

impl Events {
    /// Only the root, with nothing counted. `AllocError` if there is no memory for it.
    pub fn new(alloc: Global) -> Result<Self, AllocError>
        ensures tree { IfOk result (λ e. e.tree ≡ bare None ∷ []) }
        ensures counted { IfOk result (λ e. e.counted ≡ no_counts ∷ []) }
    {
        let lineage = Lineage::new(alloc)?;
        let mut totals = Vec::with_capacity(alloc, 1)?;
        let mut locals = Vec::with_capacity(alloc, 1)?;
        totals.push_reserved(EventCounts::default());
        locals.push_reserved(EventCounts::default());
        Ok(Events {
            lineage,
            totals,
            locals,
        })
    }

    /// Reserves the memory for another group. `AllocError` if memory runs out. The groups and their
    /// counts do not change in either case.
    pub fn reserve(&mut self) -> Result<(), AllocError>
        ensures room { OnOk result (0 < self.new.room) }
        ensures tree { self.new.tree ≡ self.old.tree }
        ensures counted { self.new.counted ≡ self.old.counted }
        ensures succeeds { 0 < self.old.room → IsOk result }
        ensures kept { self.old.room ≤ self.new.room }
    {
        self.lineage.reserve()?;
        self.totals.reserve(1)?;
        self.locals.reserve(1)
    }

    /// Adds a group below another, with nothing counted. [`Events::reserve`] reserved its memory.
    pub fn add_reserved(&mut self, group: GroupId, parent: GroupId)
        requires room { 0 < self.old.room }
        requires next { group.0 ≡ length self.old.tree }
        requires parent { is_live self.old.tree parent.0 ≡ true }
        ensures tree { self.new.tree ≡ self.old.tree ++ bare (Some parent.0) ∷ [] }
        ensures counted { self.new.counted ≡ self.old.counted ++ no_counts ∷ [] }
        ensures room { self.new.room + 1 ≡ self.old.room }
    {
        self.lineage.is_lineage();
        prove!(group.0 as usize == self.lineage.len());
        self.lineage.add(parent);
        self.totals.push_reserved(EventCounts::default());
        self.locals.push_reserved(EventCounts::default());
    }

    /// Adds a group below another, with nothing counted. `AllocError` if there is no memory for it,
    /// and then nothing changes.
    pub fn add(&mut self, group: GroupId, parent: GroupId) -> Result<(), AllocError>
        requires next { group.0 ≡ length self.old.tree }
        requires parent { is_live self.old.tree parent.0 ≡ true }
        ensures tree { OnOk result (self.new.tree ≡ self.old.tree ++ bare (Some parent.0) ∷ []) }
        ensures counted { OnOk result (self.new.counted ≡ self.old.counted ++ no_counts ∷ []) }
        ensures succeeds { 0 < self.old.room → IsOk result }

        ensures err { OnErr result (self.new.tree ≡ self.old.tree) }
        ensures err_counted { OnErr result (self.new.counted ≡ self.old.counted) }
    {
        self.reserve()?;
        self.add_reserved(group, parent);
        Ok(())
    }

    /// Removes the group. It is not the root and has no children. Its numbers remain.
    pub fn remove(&mut self, group: GroupId)
        requires below { 0 < group.0 }
        requires live { is_live self.old.tree group.0 ≡ true }
        requires childless { has_children self.old.tree group.0 ≡ false }
        ensures tree { self.new.tree ≡ slice_set self.old.tree group.0 (record (node_at self.old.tree group.0) { live = false }) }
        ensures counted { self.new.counted ≡ self.old.counted }
        ensures room { self.new.room ≡ self.old.room }
    {
        self.lineage.remove(group);
    }

    /// Counts the key once, at the group and in the numbers of each group above it (kernel:
    /// `memcg_memory_event`).
    pub fn count(&mut self, group: GroupId, key: Key)
        requires live { is_live self.old.tree group.0 ≡ true }
        requires room { total_counted self.old.tree self.old.counted 0 key < u64.MAX }
        ensures tree { self.new.tree ≡ self.old.tree }
        ensures counted { self.new.counted ≡ with_event self.old.counted group.0 key }
        ensures room { self.new.room ≡ self.old.room }
    {
        self.lineage.is_lineage();
        count_once(&mut self.locals[group.0 as usize], key);
        count_up(&self.lineage, self.totals.as_mut_slice(), group, key);
    }

    /// The counts of all keys at the group or anywhere below it (kernel: the file `memory.events`).
    pub fn totals(&self, group: GroupId) -> EventCounts
        requires { is_live self.now.tree group.0 ≡ true }
        ensures { result ≡ counts_by (total_counted self.now.tree self.now.counted group.0) }
    {
        self.totals[group.0 as usize]
    }

    /// The counts of all keys at the group itself (kernel: the file `memory.events.local`).
    pub fn locals(&self, group: GroupId) -> EventCounts
        requires { is_live self.now.tree group.0 ≡ true }
        ensures { result ≡ counts_by (local_counted self.now.counted group.0) }
    {
        self.locals[group.0 as usize]
    }

    /// Does nothing. The contract states what holds of all counts. Each group has its own.
    pub fn are_counted(&self)
        ensures lineage { IsLineage self.now.tree }
        ensures counted { length self.now.counted ≡ length self.now.tree }
    {
        self.lineage.is_lineage();
    }
}

/// Counts the key once at each group from this one up to the root.
fn count_up(lineage: &Lineage, totals: &mut [EventCounts], group: GroupId, key: Key)
    requires lineage { IsLineage lineage.now.tree }
    requires same_length { length totals.old ≡ length lineage.now.tree }
    requires live { group.0 < length lineage.now.tree }
    requires room { (a : ℕ) → a < length lineage.now.tree → local_counted totals.old a key < u64.MAX }
    ensures { (a : ℕ) (k : Key) → a < length lineage.now.tree
        → local_counted totals.new a k ≡ local_counted totals.old a k + (if under lineage.now.tree a group.0 && is_key key k then 1 else 0) }
{
    let mut at = Some(group);
    while let Some(here) = at {
        count_once(&mut totals[here.0 as usize], key);
        at = lineage.parent(here);
    }
}
