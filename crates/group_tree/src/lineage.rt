//! The parent of each group, for the crates that keep something by group.

ghost use Rattle.std.specs.Prelude.{◌≡◌, ℕ, ◌+◌, ◌<◌, ◌≤◌, ◌++◌, ◌∷◌, [], Some, None, true, false, length, slice_set, IfOk, OnOk, OnErr, IsOk};
ghost use Rattle.std.specs.Option.{option_map};
ghost use Rattle.machine.specs.Tree.{node_at, is_live, is_child, has_children};
ghost use Rattle.group_tree.specs.Lineages.{bare, IsLineage};

use machine::id::GroupId;
use std::alloc::{AllocError, Global};
use std::marker::Model;

/// A group: its parent, and whether it still exists.
#[derive(Clone, Copy)]
struct Group {
    parent: Option<GroupId>,
    live: bool,
}

/// The groups by their numbers, in the order of making. A removed group keeps its number, and its
/// parent stays known.
#[derive(Drop)]
pub struct Lineage {
    groups: Vec<Group>,
}

impl Model for Lineage {
    ghost use Rattle.std.specs.Prelude.{◌-◌, vec_len, vec_capacity};
    ghost use Rattle.group_tree.specs.Lineages.{Kin, nodes_of, IsLineage};

    ghost Value = { Kin };

    ghost view = { λ l. record { tree = nodes_of l.groups.items; room = vec_capacity l.groups - vec_len l.groups } };

    ghost invariant = { λ l. IsLineage (nodes_of l.groups.items) };
}

impl Lineage {
    /// Only the root. `AllocError` if there is no memory for it.
    pub fn new(alloc: Global) -> Result<Self, AllocError>
        ensures { IfOk result (λ l. l.tree ≡ bare None ∷ []) }
    {
        let mut groups = Vec::with_capacity(alloc, 1)?;
        groups.push_reserved(Group {
            parent: None,
            live: true,
        });
        Ok(Lineage { groups })
    }

    /// Reserves the memory for another group. `AllocError` if memory runs out. The groups do not
    /// change in either case.
    pub fn reserve(&mut self) -> Result<(), AllocError>
        ensures room { OnOk result (0 < self.new.room) }
        ensures tree { self.new.tree ≡ self.old.tree }
        ensures succeeds { 0 < self.old.room → IsOk result }
        ensures kept { self.old.room ≤ self.new.room }
    {
        self.groups.reserve(1)
    }

    /// Adds a group below another. [`Lineage::reserve`] reserved its memory.
    pub fn add(&mut self, parent: GroupId)
        requires room { 0 < self.old.room }
        requires parent { is_live self.old.tree parent.0 ≡ true }
        ensures tree { self.new.tree ≡ self.old.tree ++ bare (Some parent.0) ∷ [] }
        ensures room { self.new.room + 1 ≡ self.old.room }
    {
        self.groups.push_reserved(Group {
            parent: Some(parent),
            live: true,
        });
    }

    /// Removes the group. It is not the root and has no children.
    pub fn remove(&mut self, group: GroupId)
        requires below { 0 < group.0 }
        requires live { is_live self.old.tree group.0 ≡ true }
        requires childless { has_children self.old.tree group.0 ≡ false }
        ensures tree { self.new.tree ≡ slice_set self.old.tree group.0 (record (node_at self.old.tree group.0) { live = false }) }
        ensures room { self.new.room ≡ self.old.room }
    {
        self.groups[group.0 as usize].live = false;
    }

    /// How many groups were ever made.
    pub fn len(&self) -> usize
        ensures { result ≡ length self.now.tree }
    {
        self.groups.len()
    }

    /// The parent of a group (kernel: parent_mem_cgroup). `None` for the root and for a number
    /// without a group.
    pub fn parent(&self, group: GroupId) -> Option<GroupId>
        ensures parent { option_map (λ g. g.0) result ≡ (node_at self.now.tree group.0).parent }
        ensures lineage { IsLineage self.now.tree }
    {
        self.groups.get(group.0 as usize)?.parent
    }

    /// Whether this is the number of a live child of the parent.
    pub fn is_child(&self, number: usize, parent: GroupId) -> bool
        ensures { result ≡ is_child parent.0 (node_at self.now.tree number) }
    {
        let Some(group) = self.groups.get(number) else {
            return false;
        };
        group.live && group.parent == Some(parent)
    }

    /// Does nothing. The contract states what holds of every lineage.
    pub fn is_lineage(&self)
        ensures { IsLineage self.now.tree }
    {
        let _ = &self.groups;
    }
}
