//! The live groups in the order of a walk. A walk over a group and all below it is one part of this
//! list (kernel: mem_cgroup_iter).

ghost use Rattle.std.specs.Prelude.{◌≡◌, ℕ, ◌+◌, ◌<◌, ◌≤◌, ◌++◌, ◌∷◌, [], true, false, length, slice_index, Some, IfOk, OnOk};
ghost use Rattle.machine.specs.Tree.{Node, root, is_live, has_children, share, without_group};
ghost use Rattle.group_tree.specs.Groups.{IsGroupTree};
ghost use Rattle.group_tree.specs.Tables.{number, nodes_of};
ghost use Rattle.group_tree.specs.Places.{numbers_of, IsLiveAt, IsOnceEach, ArePlaced, IsWalkOf, HasRoom};

use crate::tree::Group;
use machine::id::GroupId;
use std::alloc::{AllocError, Global};

/// The walk from the root over all live groups, and each group's part of it.
#[derive(Drop)]
pub struct Walk {
    /// The live groups. Each comes before those below it, and children are in order of making.
    pub order: Vec<GroupId>,
    /// By number: the place of a live group in the order. The groups below it follow it.
    pub places: Vec<usize>,
    /// By number: how many groups are at and below a live one.
    pub spans: Vec<usize>,
}

impl Walk {
    /// Only the root. `AllocError` if there is no memory for it.
    pub fn open(alloc: Global) -> Result<Self, AllocError>
        ensures { IfOk result (λ walk. IsWalkOf (root ∷ []) walk) }
    {
        let mut order = Vec::with_capacity(alloc, 1)?;
        let mut places = Vec::with_capacity(alloc, 1)?;
        let mut spans = Vec::with_capacity(alloc, 1)?;
        order.push_reserved(GroupId::ROOT);
        places.push_reserved(0);
        spans.push_reserved(1);
        Ok(Walk {
            order,
            places,
            spans,
        })
    }

    /// Reserves the memory for another group. `AllocError` if memory runs out. The walk does not
    /// change in either case.
    pub fn reserve(&mut self) -> Result<(), AllocError>
        ensures room { OnOk result (HasRoom self.new) }
        ensures order { self.new.order.items ≡ self.old.order.items }
        ensures places { self.new.places.items ≡ self.old.places.items }
        ensures spans { self.new.spans.items ≡ self.old.spans.items }
    {
        self.order.reserve(1)?;
        self.places.reserve(1)?;
        self.spans.reserve(1)
    }

    /// Adds a new group as the last child of its parent, after all groups at and below the parent
    /// (kernel: list_add_tail_rcu). Its memory was reserved.
    pub fn insert(&mut self, groups: &[Group], group: GroupId, parent: GroupId)
        requires tree { IsGroupTree (nodes_of groups.now) }
        requires walk { IsWalkOf (nodes_of groups.now) self.old }
        requires room { HasRoom self.old }
        requires group { group.0 ≡ length groups.now }
        requires parent { is_live (nodes_of groups.now) parent.0 ≡ true }
        ensures { (node : Node) → node.live ≡ true → node.parent ≡ Some parent.0
            → IsWalkOf (nodes_of groups.now ++ node ∷ []) self.new }
    {
        let place = self.places[parent.0 as usize] + self.spans[parent.0 as usize];
        // The memory was reserved, so this cannot fail.
        let _ = self.order.insert(place, group);
        self.places.push_reserved(place);
        self.spans.push_reserved(1);
        place_from(&self.order, &mut self.places, place);
        widen(groups, &mut self.spans, Some(parent));
    }

    /// Removes a group that has no children (kernel: list_del_rcu). It is not the root.
    pub fn remove(&mut self, groups: &[Group], group: GroupId)
        requires tree { IsGroupTree (nodes_of groups.now) }
        requires walk { IsWalkOf (nodes_of groups.now) self.old }
        requires below { 0 < group.0 }
        requires live { is_live (nodes_of groups.now) group.0 ≡ true }
        requires childless { has_children (nodes_of groups.now) group.0 ≡ false }
        ensures { IsWalkOf (without_group (nodes_of groups.now) group.0) self.new }
    {
        let place = self.places[group.0 as usize];
        self.order.remove(place);
        place_from(&self.order, &mut self.places, place);
        narrow(groups, &mut self.spans, groups[group.0 as usize].parent);
    }
}

/// Updates the places of the groups from one place on, which have moved.
fn place_from(order: &[GroupId], places: &mut [usize], from: usize)
    requires from { from ≤ length order.now }
    requires within { (i : ℕ) → i < length order.now → slice_index (numbers_of order.now) i < length places.old }
    requires once { IsOnceEach (numbers_of order.now) }
    requires before { ArePlaced (numbers_of order.now) places.old from }
    ensures placed { ArePlaced (numbers_of order.now) places.new (length order.now) }
    ensures len { length places.new ≡ length places.old }
{
    for place in from..order.len() {
        places[order[place].0 as usize] = place;
    }
}

/// Adds one to the size of a group and of each group above it.
fn widen(groups: &[Group], spans: &mut [usize], from: Option<GroupId>)
    requires tree { IsGroupTree (nodes_of groups.now) }
    requires len { length groups.now ≤ length spans.old }
    requires from { IsLiveAt (nodes_of groups.now) (number from) }
    requires few { (g : ℕ) → is_live (nodes_of groups.now) g ≡ true → slice_index spans.old g ≤ 256 }
    ensures spans { (g : ℕ) → slice_index spans.new g ≡ slice_index spans.old g + share (nodes_of groups.now) g (number from) }
    ensures len { length spans.new ≡ length spans.old }
{
    let mut at = from;
    while let Some(here) = at {
        spans[here.0 as usize] += 1;
        at = groups[here.0 as usize].parent;
    }
}

/// Takes one from the size of a group and of each group above it.
fn narrow(groups: &[Group], spans: &mut [usize], from: Option<GroupId>)
    requires tree { IsGroupTree (nodes_of groups.now) }
    requires len { length groups.now ≤ length spans.old }
    requires from { IsLiveAt (nodes_of groups.now) (number from) }
    requires some { (g : ℕ) → is_live (nodes_of groups.now) g ≡ true → 1 ≤ slice_index spans.old g }
    ensures spans { (g : ℕ) → slice_index spans.new g + share (nodes_of groups.now) g (number from) ≡ slice_index spans.old g }
    ensures len { length spans.new ≡ length spans.old }
{
    let mut at = from;
    while let Some(here) = at {
        spans[here.0 as usize] -= 1;
        at = groups[here.0 as usize].parent;
    }
}
