//! The sum of the claims of each group's live children.

ghost use Rattle.std.specs.Prelude.{◌≡◌, ◌+◌, ◌<◌, ◌≤◌, ◌++◌, ◌∷◌, ℕ, [], length, slice_index, true, IfOk, OnOk, IsOk};
ghost use Rattle.machine.specs.Tree.{node_at, is_live, is_child};
ghost use Rattle.page_counter.specs.Sums.{Propagates};

use group_tree::Lineage;
use machine::id::GroupId;
use std::alloc::{AllocError, Global};
use std::marker::Model;

/// For each group, the sum of its live children's claims by one of their settings (kernel:
/// `children_min_usage`, or `children_low_usage`, of a `struct page_counter`). The sum is stored, so
/// reading it takes one look, for any number of children.
///
/// A contract sees the sums as a list by the groups' numbers, and for how many further groups there
/// is memory.
#[derive(Drop)]
pub struct ChildSums {
    sums: Vec<u64>,
}

impl Model for ChildSums {
    ghost use Rattle.std.specs.Prelude.{◌-◌, vec_len, vec_capacity};
    ghost use Rattle.page_counter.specs.Sums.{SumsOf};

    ghost Value = { SumsOf };

    ghost view = { λ c. record {
      sums = c.sums.items;
      room = vec_capacity c.sums - vec_len c.sums;
    } };
}

impl ChildSums {
    /// The sum of only the root, which has no child. `AllocError` if there is no memory for it.
    pub fn new(alloc: Global) -> Result<Self, AllocError>
        ensures { IfOk result (λ c. c.sums ≡ 0 ∷ []) }
    {
        let mut sums = Vec::with_capacity(alloc, 1)?;
        sums.push_reserved(0);
        Ok(ChildSums { sums })
    }

    /// Reserves the memory for another group. `AllocError` if memory runs out. The sums do not change
    /// in either case.
    pub fn reserve(&mut self) -> Result<(), AllocError>
        ensures room { OnOk result (0 < self.new.room) }
        ensures sums { self.new.sums ≡ self.old.sums }
        ensures succeeds { 0 < self.old.room → IsOk result }
        ensures kept { self.old.room ≤ self.new.room }
    {
        self.sums.reserve(1)
    }

    /// Adds a group, which has no child.
    pub fn add_reserved(&mut self)
        requires room { 0 < self.old.room }
        ensures sums { self.new.sums ≡ self.old.sums ++ 0 ∷ [] }
        ensures room { self.new.room + 1 ≡ self.old.room }
    {
        self.sums.push_reserved(0);
    }

    /// The sum of the claims of this group's children.
    pub fn of(&self, group: GroupId) -> &u64
        requires { group.0 < length self.now.sums }
        ensures { result.now ≡ slice_index self.now.sums group.0 }
    {
        &self.sums[group.0 as usize]
    }

    /// The group's claim changes from `before` to `after`. Only its parent's sum changes, by the same
    /// amount (kernel: propagate_protected_usage).
    pub fn propagate(&mut self, lineage: &Lineage, group: GroupId, before: u64, after: u64)
        requires live { is_live lineage.now.tree group.0 ≡ true }
        requires sums { length self.old.sums ≡ length lineage.now.tree }
        requires covered { (p : ℕ) → is_child p (node_at lineage.now.tree group.0) ≡ true → before ≤ slice_index self.old.sums p }
        requires fits { (p : ℕ) → is_child p (node_at lineage.now.tree group.0) ≡ true → before < after → slice_index self.old.sums p + after ≤ 18446744073709551615 + before }
        ensures propagates { Propagates lineage.now.tree group.0 before after self.old.sums self.new.sums }
        ensures sums { length self.new.sums ≡ length self.old.sums }
        ensures room { self.new.room ≡ self.old.room }
    {
        if before == after {
            return;
        }
        let Some(parent) = lineage.parent(group) else {
            return;
        };
        let sum = &mut self.sums[parent.0 as usize];
        *sum = *sum - before + after;
    }
}
