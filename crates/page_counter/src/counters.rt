//! The counters of all groups.

ghost use Rattle.std.specs.Prelude.{◌≡◌, ◌+◌, ◌<◌, ◌≤◌, ◌++◌, ◌∷◌, ℕ, List, [], length, sum_by, slice_index, slice_set, Some, None, true, false, option_map, IfOk, OnOk, IfErr, OnErr, IsOk, IsSome};
ghost use Rattle.machine.specs.declared.record.Guard.{Guard as Guard_of};
ghost use Rattle.machine.specs.Protection.{min_usage, children_min_usage, setting_of};
ghost use Rattle.machine.specs.Counts.{no_limits, limits_at, guard_of, with_guard, over_at};
ghost use Rattle.machine.specs.Tree.{IsTree, IsAbove, node_at, is_live, is_child, children, has_children, share};
ghost use Rattle.group_tree.specs.Lineages.{bare, IsLineage};
ghost use Rattle.group_tree.specs.Tables.{number};
ghost use Rattle.page_counter.specs.Sums.{AreKept, ChildrenFit};
ghost use Rattle.page_counter.specs.GuardSums.{sums_in, IsOther, AreBothKept, GoOnKept};

use crate::charge::{Charge, Over};
use crate::guard_sums::GuardSums;
use group_tree::Lineage;
use machine::amount::Amount;
use machine::id::GroupId;
use machine::record::{Guard, Limits};
use std::alloc::{AllocError, Global};
use std::marker::Model;

/// For each group its limits, and how many pages are charged to it or below it (kernel: a
/// `struct page_counter` for each group).
///
/// A contract sees the groups, the limits and the counts as lists by the groups' numbers, and for how
/// many further groups there is memory.
#[derive(Drop)]
pub struct Counters {
    lineage: Lineage,
    limits: Vec<Limits>,
    usage: Vec<u64>,
    sums: GuardSums,
}

impl Model for Counters {
    ghost use Rattle.page_counter.specs.Counts.{Counts};

    ghost Value = { Counts };

    ghost use Rattle.page_counter.specs.Tables.{counts_of, IsCounters};

    ghost view = { counts_of };

    ghost invariant = { IsCounters };
}

impl Counters {
    ghost use Rattle.page_counter.specs.Counts.{Charges, MovesUp, AreCounts, IsOut, over_in, usage_of};

    /// The counters of only the root: no limit, and no page charged. `AllocError` if there is no memory
    /// for them.
    pub fn new(alloc: Global) -> Result<Self, AllocError>
        ensures tree { IfOk result (λ c. c.tree ≡ bare None ∷ []) }
        ensures limits { IfOk result (λ c. c.limits ≡ no_limits ∷ []) }
        ensures usage { IfOk result (λ c. c.usage ≡ 0 ∷ []) }
        ensures counted { IfOk result (λ c. AreCounts c []) }
    {
        let lineage = Lineage::new(alloc)?;
        let mut limits = Vec::with_capacity(alloc, 1)?;
        let mut usage = Vec::with_capacity(alloc, 1)?;
        let sums = GuardSums::new(alloc)?;
        limits.push_reserved(Limits::NONE);
        usage.push_reserved(0);
        Ok(Counters {
            lineage,
            limits,
            usage,
            sums,
        })
    }

    /// Reserves the memory for another group. `AllocError` if memory runs out. The groups, their limits
    /// and their counts do not change in either case.
    pub fn reserve(&mut self) -> Result<(), AllocError>
        ensures room { OnOk result (0 < self.new.room) }
        ensures tree { self.new.tree ≡ self.old.tree }
        ensures limits { self.new.limits ≡ self.old.limits }
        ensures usage { self.new.usage ≡ self.old.usage }
        ensures succeeds { 0 < self.old.room → IsOk result }
        ensures kept { self.old.room ≤ self.new.room }
        ensures counted { (charges : List ℕ) → AreCounts self.old charges → AreCounts self.new charges }
    {
        self.lineage.reserve()?;
        self.limits.reserve(1)?;
        self.usage.reserve(1)?;
        self.sums.reserve()
    }

    /// Adds a group below another, with no limit and no page charged. [`Counters::reserve`] reserved
    /// its memory.
    pub fn add_reserved(&mut self, group: GroupId, parent: GroupId)
        requires room { 0 < self.old.room }
        requires next { group.0 ≡ length self.old.tree }
        requires parent { is_live self.old.tree parent.0 ≡ true }
        ensures tree { self.new.tree ≡ self.old.tree ++ bare (Some parent.0) ∷ [] }
        ensures limits { self.new.limits ≡ self.old.limits ++ no_limits ∷ [] }
        ensures usage { self.new.usage ≡ self.old.usage ++ 0 ∷ [] }
        ensures room { self.new.room + 1 ≡ self.old.room }
        ensures counted { (charges : List ℕ) → AreCounts self.old charges → AreCounts self.new charges }
    {
        prove!(group.0 as usize == self.usage.len());
        self.lineage.is_lineage();
        self.lineage.add(parent);
        self.limits.push_reserved(Limits::NONE);
        self.usage.push_reserved(0);
        self.sums.add_reserved();
    }

    /// Adds a group below another, with no limit and no page charged. `AllocError` if there is no
    /// memory for it. Then the groups, their limits and their counts do not change.
    pub fn add(&mut self, group: GroupId, parent: GroupId) -> Result<(), AllocError>
        requires next { group.0 ≡ length self.old.tree }
        requires parent { is_live self.old.tree parent.0 ≡ true }
        ensures tree { OnOk result (self.new.tree ≡ self.old.tree ++ bare (Some parent.0) ∷ []) }
        ensures limits { OnOk result (self.new.limits ≡ self.old.limits ++ no_limits ∷ []) }
        ensures usage { OnOk result (self.new.usage ≡ self.old.usage ++ 0 ∷ []) }
        ensures same_tree { OnErr result (self.new.tree ≡ self.old.tree) }
        ensures same_limits { OnErr result (self.new.limits ≡ self.old.limits) }
        ensures same_usage { OnErr result (self.new.usage ≡ self.old.usage) }
        ensures succeeds { 0 < self.old.room → IsOk result }
        ensures counted { (charges : List ℕ) → AreCounts self.old charges → AreCounts self.new charges }
    {
        self.reserve()?;
        self.add_reserved(group, parent);
        Ok(())
    }

    /// Removes the group. It is not the root, it has no children, and no page is charged to it.
    pub fn remove(&mut self, group: GroupId)
        requires below { 0 < group.0 }
        requires live { is_live self.old.tree group.0 ≡ true }
        requires childless { has_children self.old.tree group.0 ≡ false }
        requires uncharged { usage_of self.old group.0 ≡ 0 }
        ensures tree { self.new.tree ≡ slice_set self.old.tree group.0 (record (node_at self.old.tree group.0) { live = false }) }
        ensures limits { self.new.limits ≡ self.old.limits }
        ensures usage { self.new.usage ≡ self.old.usage }
        ensures room { self.new.room ≡ self.old.room }
        ensures counted { (charges : List ℕ) → AreCounts self.old charges → AreCounts self.new charges }
    {
        self.lineage.is_lineage();
        self.lineage.remove(group);
    }

    /// How many pages may be charged to the group and below it, `memory.max`.
    pub fn max(&self, group: GroupId) -> Amount
        requires live { is_live self.now.tree group.0 ≡ true }
        ensures { result ≡ (limits_at self.now.limits group.0).max }
    {
        self.limits[group.0 as usize].max
    }

    /// Sets how many pages may be charged to the group and below it (kernel: page_counter_set_max). The
    /// count may already be above the new max. Then no page is charged until the count falls below it.
    pub fn set_max(&mut self, group: GroupId, max: Amount)
        requires live { is_live self.old.tree group.0 ≡ true }
        ensures limits { self.new.limits ≡ slice_set self.old.limits group.0 (record (limits_at self.old.limits group.0) { max = max }) }
        ensures tree { self.new.tree ≡ self.old.tree }
        ensures usage { self.new.usage ≡ self.old.usage }
        ensures room { self.new.room ≡ self.old.room }
        ensures counted { (charges : List ℕ) → AreCounts self.old charges → AreCounts self.new charges }
    {
        self.limits[group.0 as usize].max = max;
    }

    /// The value of `memory.min` or `memory.low`: the most pages that the group claims to protect, of
    /// those that it and all groups below it use.
    pub fn guard(&self, guard: Guard, group: GroupId) -> Amount
        requires live { is_live self.now.tree group.0 ≡ true }
        ensures { result ≡ guard_of guard (limits_at self.now.limits group.0) }
    {
        self.limits[group.0 as usize].guard(guard)
    }

    /// Sets the most pages that the group claims to protect, of those that it and all groups below it
    /// use (kernel: page_counter_set_min, page_counter_set_low).
    pub fn set_guard(&mut self, guard: Guard, group: GroupId, amount: Amount)
        requires live { is_live self.old.tree group.0 ≡ true }
        ensures limits { self.new.limits ≡ slice_set self.old.limits group.0 (with_guard (limits_at self.old.limits group.0) guard amount) }
        ensures tree { self.new.tree ≡ self.old.tree }
        ensures usage { self.new.usage ≡ self.old.usage }
        ensures room { self.new.room ≡ self.old.room }
        ensures counted { (charges : List ℕ) → AreCounts self.old charges → AreCounts self.new charges }
    {
        self.lineage.is_lineage();
        // The sum of the children's claims fits its type, since no count is too large.
        counts_fit(&self.usage);
        let usage = self.usage[group.0 as usize];
        let limits = self.limits[group.0 as usize];
        let before = limits.guard(guard).at_most(usage);
        let after = amount.at_most(usage);
        self.limits[group.0 as usize] = limits.with_guard(guard, amount);
        self.sums
            .propagate(&self.lineage, guard, group, before, after);
    }

    /// The group's claim: how many of the pages charged to it or below it are to be protected (kernel:
    /// `min_usage` and `low_usage` of a `struct page_counter`).
    pub fn guard_usage(&self, guard: Guard, group: GroupId) -> u64
        requires live { is_live self.now.tree group.0 ≡ true }
        ensures { result ≡ min_usage (setting_of guard self.now.limits) (usage_of self.now) group.0 }
    {
        self.guard(guard, group).at_most(self.usage(group))
    }

    /// The sum of `guard_usage` over the live children of this group (kernel: `children_min_usage` and
    /// `children_low_usage` of a `struct page_counter`).
    pub fn children_guard_usage(&self, guard: Guard, group: GroupId) -> &u64
        requires live { is_live self.now.tree group.0 ≡ true }
        ensures { result.now ≡ children_min_usage self.now.tree (setting_of guard self.now.limits) (usage_of self.now) group.0 }
    {
        self.sums.of(guard, group)
    }

    /// How many pages are charged to the group or below it (kernel: page_counter_read).
    pub fn usage(&self, group: GroupId) -> u64
        requires live { is_live self.now.tree group.0 ≡ true }
        ensures { result ≡ usage_of self.now group.0 }
    {
        self.usage[group.0 as usize]
    }

    /// The lowest group, from this one up, whose max another page would exceed, if there is one. It is
    /// the group that [`Counters::try_charge`] would name (kernel: mem_cgroup_margin).
    pub fn over(&self, group: GroupId) -> Option<GroupId>
        requires live { is_live self.now.tree group.0 ≡ true }
        ensures { option_map (λ g. g.0) result ≡ over_in self.now group.0 }
    {
        self.lineage.is_lineage();
        first_full(&self.lineage, &self.limits, &self.usage, group)
    }

    /// Charges a page to the group and to each group above it (kernel: page_counter_try_charge).
    ///
    /// `Over` if that would exceed a max. It names the lowest group with such a max, and nothing is
    /// charged.
    pub fn try_charge(&mut self, group: GroupId) -> Result<Charge, Over>
        requires live { is_live self.old.tree group.0 ≡ true }
        requires room { usage_of self.old 0 < 18446744073709551615 }
        ensures under { OnOk result (over_in self.old group.0 ≡ None) }
        ensures over { IfErr result (λ limit. over_in self.old group.0 ≡ Some limit.0.0) }
        ensures group { IfOk result (λ charge. charge ≡ group.0) }
        ensures charged { OnOk result (Charges self.old self.new group.0) }
        ensures counted { (charges : List ℕ) → AreCounts self.old charges → OnOk result (AreCounts self.new (group.0 ∷ charges)) }
        ensures err { OnErr result (self.new ≡ self.old) }
    {
        self.lineage.is_lineage();
        let usage = self.usage.as_mut_slice();
        let sums = &mut self.sums;
        add_up(&self.lineage, &self.limits, usage, sums, group)?;
        Ok(Charge::new(group))
    }

    /// Uncharges a page: the counts of its group and of each group above it decrease by one (kernel:
    /// page_counter_uncharge).
    pub fn uncharge(&mut self, charge: Charge)
        requires out { IsOut self.old charge }
        ensures uncharged { Charges self.new self.old charge }
        ensures counted { (rest : List ℕ) → AreCounts self.old (charge ∷ rest) → AreCounts self.new rest }
    {
        self.lineage.is_lineage();
        let group = charge.into_group();
        let usage = self.usage.as_mut_slice();
        let sums = &mut self.sums;
        take_down(&self.lineage, &self.limits, usage, sums, group, None);
    }

    /// Moves a charge to the parent of its group. The group's count decreases by one, and the counts
    /// above it do not change (kernel: a removed group's charges become its parent's).
    pub fn reparent(&mut self, charge: Charge) -> Charge
        requires out { IsOut self.old charge }
        requires below { IsSome (node_at self.old.tree charge).parent }
        ensures parent { (node_at self.old.tree charge).parent ≡ Some result }
        ensures moved { MovesUp self.old self.new charge }
        ensures counted { (rest : List ℕ) → AreCounts self.old (charge ∷ rest) → AreCounts self.new (result ∷ rest) }
    {
        let group = charge.into_group();
        let Some(parent) = self.lineage.parent(group) else {
            unreachable!()
        };
        let usage = self.usage.as_mut_slice();
        let fewer = usage[group.0 as usize] - 1;
        let sums = &mut self.sums;
        set_usage(&self.lineage, &self.limits, usage, sums, group, fewer);
        Charge::new(parent)
    }

    /// Does nothing. The contract states what holds of all counters. The counts are those of some list
    /// of charges, so the children of a group together count no more than the group.
    pub fn are_counted(&self)
        ensures lineage { IsLineage self.now.tree }
        ensures limits { length self.now.limits ≡ length self.now.tree }
        ensures usage { length self.now.usage ≡ length self.now.tree }
        ensures counted { (charges : List ℕ) × AreCounts self.now charges }
        ensures within { (p : ℕ) → is_live self.now.tree p ≡ true → sum_by (usage_of self.now) (children self.now.tree p) ≤ usage_of self.now p }
    {
        self.lineage.is_lineage();
        let _ = &self.limits;
    }
}

/// The lowest group from this one up that is full.
fn first_full(
    lineage: &Lineage,
    limits: &[Limits],
    usage: &[u64],
    group: GroupId,
) -> Option<GroupId>
    requires tree { IsTree lineage.now.tree }
    requires limits { length limits.now ≡ length lineage.now.tree }
    requires usage { length usage.now ≡ length lineage.now.tree }
    requires there { group.0 < length lineage.now.tree }
    ensures { option_map (λ g. g.0) result ≡ over_at lineage.now.tree limits.now (λ a. slice_index usage.now a) (Some group.0) }
{
    let mut at = Some(group);
    while let Some(here) = at {
        if limits[here.0 as usize].max.is_full(usage[here.0 as usize]) {
            return Some(here);
        }
        at = lineage.parent(here);
    }
    None
}

/// Adds one to the count of each group from this one up, or changes nothing if one of them is full.
fn add_up(
    lineage: &Lineage,
    limits: &[Limits],
    usage: &mut [u64],
    sums: &mut GuardSums,
    group: GroupId,
) -> Result<(), Over>
    requires tree { IsLineage lineage.now.tree }
    requires limits { length limits.now ≡ length lineage.now.tree }
    requires usage { length usage.old ≡ length lineage.now.tree }
    requires live { is_live lineage.now.tree group.0 ≡ true }
    requires room { (a : ℕ) → a < length lineage.now.tree → slice_index usage.old a < 18446744073709551615 }
    requires within { (a : ℕ) → a < length lineage.now.tree → sum_by (λ c. slice_index usage.old c) (children lineage.now.tree a) ≤ slice_index usage.old a }
    requires kept { AreBothKept lineage.now.tree limits.now usage.old sums.old }
    ensures under { OnOk result (over_at lineage.now.tree limits.now (λ a. slice_index usage.old a) (Some group.0) ≡ None) }
    ensures over { IfErr result (λ limit. over_at lineage.now.tree limits.now (λ a. slice_index usage.old a) (Some group.0) ≡ Some limit.0.0) }
    ensures charged { OnOk result ((a : ℕ) → a < length lineage.now.tree → slice_index usage.new a ≡ slice_index usage.old a + share lineage.now.tree a (Some group.0)) }
    ensures err { OnErr result (usage.new ≡ usage.old) }
    ensures kept { GoOnKept lineage.now.tree limits.now usage.new sums.old sums.new }
{
    let mut at = Some(group);
    while let Some(here) = at {
        let count = usage[here.0 as usize];
        if limits[here.0 as usize].max.is_full(count) {
            take_down(lineage, limits, usage, sums, group, Some(here));
            return Err(Over(here));
        }
        set_usage(lineage, limits, usage, sums, here, count + 1);
        at = lineage.parent(here);
    }
    Ok(())
}

/// Subtracts one from the count of each group from this one up to `until`. The counts of `until` and of
/// the groups above it do not change.
fn take_down(
    lineage: &Lineage,
    limits: &[Limits],
    usage: &mut [u64],
    sums: &mut GuardSums,
    group: GroupId,
    until: Option<GroupId>,
)
    requires tree { IsLineage lineage.now.tree }
    requires limits { length limits.now ≡ length lineage.now.tree }
    requires usage { length usage.old ≡ length lineage.now.tree }
    requires live { is_live lineage.now.tree group.0 ≡ true }
    requires above { IsAbove lineage.now.tree (number until) (Some group.0) }
    requires counted { (a : ℕ) → a < length lineage.now.tree → share lineage.now.tree a (Some group.0) ≤ slice_index usage.old a + share lineage.now.tree a (number until) }
    requires kept { AreBothKept lineage.now.tree limits.now usage.old sums.old }
    ensures taken { (a : ℕ) → a < length lineage.now.tree → slice_index usage.new a + share lineage.now.tree a (Some group.0) ≡ slice_index usage.old a + share lineage.now.tree a (number until) }
    ensures kept { GoOnKept lineage.now.tree limits.now usage.new sums.old sums.new }
{
    let mut at = Some(group);
    while let Some(here) = at {
        if until == Some(here) {
            return;
        }
        let count = usage[here.0 as usize];
        set_usage(lineage, limits, usage, sums, here, count - 1);
        at = lineage.parent(here);
    }
}

/// Does nothing. The contract states that each count fits its type.
fn counts_fit(usage: &[u64])
    ensures { (a : ℕ) → slice_index usage.now a ≤ 18446744073709551615 }
{
    let _ = usage.len();
}

/// Sets the group's count. Its claims become the parts of the count that its limits protect (kernel:
/// what page_counter_try_charge and page_counter_cancel do at one counter).
fn set_usage(
    lineage: &Lineage,
    limits: &[Limits],
    usage: &mut [u64],
    sums: &mut GuardSums,
    group: GroupId,
    pages: u64,
)
    requires tree { IsLineage lineage.now.tree }
    requires limits { length limits.now ≡ length lineage.now.tree }
    requires usage { length usage.old ≡ length lineage.now.tree }
    requires live { is_live lineage.now.tree group.0 ≡ true }
    requires fits { ChildrenFit lineage.now.tree usage.old group.0 pages }
    requires kept { AreBothKept lineage.now.tree limits.now usage.old sums.old }
    ensures usage { usage.new ≡ slice_set usage.old group.0 pages }
    ensures kept { GoOnKept lineage.now.tree limits.now usage.new sums.old sums.new }
{
    recount(lineage, limits, usage, sums, Guard::Min, group, pages);
    recount(lineage, limits, usage, sums, Guard::Low, group, pages);
    usage[group.0 as usize] = pages;
}

/// Updates the sum of the claims of the parent's children by this setting, for the group's new count of
/// pages (kernel: propagate_protected_usage).
fn recount(
    lineage: &Lineage,
    limits: &[Limits],
    usage: &[u64],
    sums: &mut GuardSums,
    guard: Guard,
    group: GroupId,
    pages: u64,
)
    requires tree { IsLineage lineage.now.tree }
    requires limits { length limits.now ≡ length lineage.now.tree }
    requires usage { length usage.now ≡ length lineage.now.tree }
    requires live { is_live lineage.now.tree group.0 ≡ true }
    requires fits { ChildrenFit lineage.now.tree usage.now group.0 pages }
    requires kept { AreKept lineage.now.tree (setting_of guard limits.now) usage.now (sums_in guard sums.old) }
    ensures kept { AreKept lineage.now.tree (setting_of guard limits.now) (slice_set usage.now group.0 pages) (sums_in guard sums.new) }
    ensures others { (other : Guard_of) → IsOther guard other → sums_in other sums.new ≡ sums_in other sums.old }
    ensures room { sums.new.room ≡ sums.old.room }
{
    let setting = limits[group.0 as usize].guard(guard);
    let before = setting.at_most(usage[group.0 as usize]);
    sums.propagate(lineage, guard, group, before, setting.at_most(pages));
}
