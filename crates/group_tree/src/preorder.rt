//! A walk over a group and all groups below it.

ghost use Rattle.std.specs.Prelude.{◌≡◌, map, IsTrue};
ghost use Rattle.std.specs.Iterator.{YieldsFirstBy, item_count};
ghost use Rattle.machine.specs.Tree.{is_live, preorder};
ghost use Rattle.group_tree.specs.Walk.{behind};

use crate::Tree;
use machine::id::GroupId;
use std::iter::FusedIterator;
use std::marker::Model;

/// The groups at and below a group. Each comes before those below it, and children are in order of
/// making. It allocates no memory. A contract sees the numbers of the groups that are left.
#[derive(Drop)]
pub struct Preorder<'a> {
    left: &'a [GroupId],
}

impl<'a> Model for Preorder<'a> {
    ghost use Rattle.std.specs.Prelude.{ℕ, List, map};

    ghost Value = { List ℕ };

    ghost view = { λ walk. map (λ g. g.0) walk.left.now };
}

impl<'a> Iterator for Preorder<'a> {
    type Item = GroupId;

    ghost next_gives = { YieldsFirstBy (λ group. group.0) (λ rest. rest) };

    ghost remaining = { item_count (λ rest. rest) };

    fn next(&mut self) -> Option<GroupId> {
        let (&group, left) = self.left.split_first()?;
        self.left = left;
        Some(group)
    }
}

impl<'a> FusedIterator for Preorder<'a> {}

impl Tree {
    /// The group and all below it. Each comes before those below it, and children are in order of
    /// making (kernel: mem_cgroup_iter).
    pub fn preorder(&self, group: GroupId) -> Preorder<'_>
        requires { IsTrue (is_live self.now group.0) }
        ensures { result ≡ preorder self.now group.0 }
    {
        let place = self.walk.places[group.0 as usize];
        let end = place + self.walk.spans[group.0 as usize];
        Preorder {
            left: &self.walk.order[place..end],
        }
    }

    /// The groups that follow this one in a walk over `start` and all below it. The result is empty
    /// if the walk does not visit this one: it was removed, or is not below `start`.
    pub fn preorder_behind(&self, start: GroupId, group: GroupId) -> Preorder<'_>
        requires { IsTrue (is_live self.now start.0) }
        ensures { result ≡ behind (preorder self.now start.0) group.0 }
    {
        let first = self.walk.places[start.0 as usize];
        let end = first + self.walk.spans[start.0 as usize];
        if !self.is_live(group) {
            return Preorder { left: &[] };
        }
        let place = self.walk.places[group.0 as usize];
        if place < first || end <= place {
            return Preorder { left: &[] };
        }
        Preorder {
            left: &self.walk.order[place + 1..end],
        }
    }
}
