//! The sums of the claims of each group's live children, by each of the two settings that protect.

ghost use Rattle.std.specs.Prelude.{◌≡◌, ◌+◌, ◌<◌, ◌≤◌, ◌++◌, ◌∷◌, ℕ, [], length, slice_index, true, IfOk, OnOk, IsOk};
ghost use Rattle.machine.specs.Tree.{node_at, is_live, is_child};
ghost use Rattle.machine.specs.declared.record.Guard.{Guard as Guard_of};
ghost use Rattle.page_counter.specs.Sums.{Propagates};

use crate::child_sums::ChildSums;
use group_tree::Lineage;
use machine::id::GroupId;
use machine::record::Guard;
use std::alloc::{AllocError, Global};
use std::marker::Model;

/// For each group, the sums of its live children's claims by each of the two settings that protect.
///
/// A contract sees the sums of both as lists by the groups' numbers, and for how many further groups
/// there is memory.
#[derive(Drop)]
pub struct GuardSums {
    min: ChildSums,
    low: ChildSums,
}

impl Model for GuardSums {
    ghost use Rattle.page_counter.specs.GuardSums.{GuardSumsOf, both_sums};

    ghost Value = { GuardSumsOf };

    ghost view = { λ s. both_sums s.min s.low };
}

impl GuardSums {
    ghost use Rattle.page_counter.specs.GuardSums.{sums_in, IsOther};

    /// The sums of only the root, which has no child. `AllocError` if there is no memory for them.
    pub fn new(alloc: Global) -> Result<Self, AllocError>
        ensures min { IfOk result (λ s. s.min ≡ 0 ∷ []) }
        ensures low { IfOk result (λ s. s.low ≡ 0 ∷ []) }
    {
        let min = ChildSums::new(alloc)?;
        let low = ChildSums::new(alloc)?;
        Ok(GuardSums { min, low })
    }

    /// Reserves the memory for another group. `AllocError` if memory runs out. The sums do not change
    /// in either case.
    pub fn reserve(&mut self) -> Result<(), AllocError>
        ensures room { OnOk result (0 < self.new.room) }
        ensures min { self.new.min ≡ self.old.min }
        ensures low { self.new.low ≡ self.old.low }
        ensures succeeds { 0 < self.old.room → IsOk result }
        ensures kept { self.old.room ≤ self.new.room }
    {
        self.min.reserve()?;
        self.low.reserve()
    }

    /// Adds a group, which has no child.
    pub fn add_reserved(&mut self)
        requires room { 0 < self.old.room }
        ensures min { self.new.min ≡ self.old.min ++ 0 ∷ [] }
        ensures low { self.new.low ≡ self.old.low ++ 0 ∷ [] }
        ensures room { self.new.room + 1 ≡ self.old.room }
    {
        self.min.add_reserved();
        self.low.add_reserved();
    }

    /// The sum of the claims of this group's children by this setting.
    pub fn of(&self, guard: Guard, group: GroupId) -> &u64
        requires { group.0 < length (sums_in guard self.now) }
        ensures { result.now ≡ slice_index (sums_in guard self.now) group.0 }
    {
        match guard {
            Guard::Min => self.min.of(group),
            Guard::Low => self.low.of(group),
        }
    }

    /// The group's claim by this setting changes from `before` to `after`.
    pub fn propagate(
        &mut self,
        lineage: &Lineage,
        guard: Guard,
        group: GroupId,
        before: u64,
        after: u64,
    )
        requires live { is_live lineage.now.tree group.0 ≡ true }
        requires sums { length (sums_in guard self.old) ≡ length lineage.now.tree }
        requires covered { (p : ℕ) → is_child p (node_at lineage.now.tree group.0) ≡ true → before ≤ slice_index (sums_in guard self.old) p }
        requires fits { (p : ℕ) → is_child p (node_at lineage.now.tree group.0) ≡ true → before < after → slice_index (sums_in guard self.old) p + after ≤ 18446744073709551615 + before }
        ensures propagates { Propagates lineage.now.tree group.0 before after (sums_in guard self.old) (sums_in guard self.new) }
        ensures sums { length (sums_in guard self.new) ≡ length (sums_in guard self.old) }
        ensures others { (other : Guard_of) → IsOther guard other → sums_in other self.new ≡ sums_in other self.old }
        ensures room { self.new.room ≡ self.old.room }
    {
        match guard {
            Guard::Min => self.min.propagate(lineage, group, before, after),
            Guard::Low => self.low.propagate(lineage, group, before, after),
        }
    }
}
