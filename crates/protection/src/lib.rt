//! Effective protection: how much of its memory a group keeps when a group above it is reclaimed
//! (kernel: mm/page_counter.c, effective_protection).
//!
//! 1. The reclaim's target has no protection from itself. Its own `memory.min` does not protect the groups
//!    below it either: a group whose limit is full must find pages there.
//! 2. The effective min of a child of the target is its `memory.min`, since no group is between them.
//! 3. A group further down claims what it uses, at most its `memory.min`. The unused part of the setting
//!    needs no protection, and is left to its siblings.
//! 4. A group gets its full claim if the claims of all children of its parent add up to at most the parent's
//!    effective value. If they add up to more, each child gets a share of that value in
//!    proportion to its claim, rounded down. Together the children never get more than that value.
//! 5. With recursive protection, the part of the parent's value that the children do not claim is shared out
//!    too. A child's share is this part, times the child's unclaimed use, divided by the parent's unclaimed
//!    use, rounded down. The child's unclaimed use is what it uses beyond its claim; the parent's is what it
//!    uses beyond the claims of all its children. A group without a `memory.min` can therefore be protected
//!    too. What the parent uses in no live child takes a share as well, and no group gets that share. If the
//!    parent's value is `max`, and it uses more than its children claim, each child that uses more than its
//!    claim gets `max` too.
//!
//! For `memory.low` the same rules apply to the groups' `memory.low`.
//!
//! For example, for a reclaim of the root, in pages:
//!
//! ```text
//! group   memory.min   uses   claim   effective
//! /p               4      8                   4   (a child of the target: rule 2)
//! /p/a             6      6       6           3   = 6 * 4 / (6 + 2)
//! /p/b             6      2       2           1   = 2 * 4 / (6 + 2)
//! ```
//!
//! The value belongs to a group and a target, not only to the group: for a reclaim of `/p`, both `/p/a`
//! and `/p/b` have 6.
//!
//! With recursive protection, if the parent has more to share than its children claim:
//!
//! ```text
//! group   memory.min   uses   claim   effective
//! /p               8     10                   8
//! /p/a             2      6       2           5   = 2 + (8 - 2) * (6 - 2) / (10 - 2)
//! /p/b             0      4       0           3   = 0 + (8 - 2) * (4 - 0) / (10 - 2)
//! ```
#![tactic(auto)]

ghost use Rattle.std.specs.Prelude.{◌≡◌, ◌+◌, ◌≤◌};
ghost use Rattle.machine.specs.Protection.{below_parent, part_of, with_rest};
ghost use Rattle.group_tree.specs.Kin.{AreKin};

use group_tree::Tree;
use machine::amount::Amount;
use machine::id::GroupId;
use machine::record::Guard;
use page_counter::Counters;

/// What the protection of the groups below the target of a reclaim depends on (kernel: the arguments of
/// mem_cgroup_calculate_protection).
#[derive(Clone, Copy)]
pub struct Protection<'t, 'c> {
    /// The groups.
    pub tree: &'t Tree,
    /// Their limits and counts.
    pub counters: &'c Counters,
    /// Whether a group also gets a share of the protection that its siblings do not claim (kernel:
    /// CGRP_ROOT_MEMORY_RECURSIVE_PROT).
    pub recursive: bool,
    /// The group that is reclaimed, with all groups below it (kernel: target_mem_cgroup).
    pub target: GroupId,
    /// The counters are those of these groups.
    pub ghost kin: { AreKin counters.now.tree tree.now },
}

impl<'t, 'c> Protection<'t, 'c> {
    ghost use Rattle.std.specs.Prelude.{◌≢◌, not, true};
    ghost use Rattle.machine.specs.Tree.{is_live, under};
    ghost use Rattle.protection.specs.Effective.{effective_by, is_beyond_by};

    /// A group's effective `memory.min` or `memory.low`. The group is protected from a reclaim of the
    /// target while it uses, with all groups below it, no more than this (kernel: effective_protection).
    /// The target is above the group.
    pub fn effective(self, guard: Guard, group: GroupId) -> Amount
        requires live { is_live self.tree.now group.0 ≡ true }
        requires under { under self.tree.now self.target.0 group.0 ≡ true }
        requires below { self.target.0 ≢ group.0 }
        ensures { result ≡ effective_by self.entry guard group.0 }
    {
        let Some(parent) = self.tree.parent(group) else {
            unreachable!()
        };
        if parent == self.target {
            return self.counters.guard(guard, group);
        }
        let above = self.effective(guard, parent);
        let siblings = *self.counters.children_guard_usage(guard, parent);
        let parent_usage = self.counters.usage(parent);
        let usage = self.counters.usage(group);
        let own = self.counters.guard_usage(guard, group);
        // The children of a group together count no more than the group.
        self.counters.are_counted();
        below_parent(self.recursive, above, siblings, parent_usage, usage, own)
    }

    /// Whether the group uses no more than its effective `memory.min`, or its effective `memory.low`. In
    /// the first case a reclaim of the target evicts none of its pages. In the second case it does so
    /// only if other groups have no page to evict (kernel: mem_cgroup_below_min, mem_cgroup_below_low).
    /// The target itself is never protected.
    pub fn is_protected(self, guard: Guard, group: GroupId) -> bool
        requires live { is_live self.tree.now group.0 ≡ true }
        requires under { under self.tree.now self.target.0 group.0 ≡ true }
        ensures { result ≡ not (is_beyond_by self.entry guard group.0) }
    {
        if group == self.target {
            return false;
        }
        let kept = self.effective(guard, group);
        !kept.exceeded_by(self.counters.usage(group))
    }
}

/// The effective value of a group. Its parent has the effective value `above` and uses `parent_usage`,
/// and the parent's children together claim `siblings`. The group itself uses `usage`, and claims `own`
/// of that.
fn below_parent(
    recursive: bool,
    above: Amount,
    siblings: u64,
    parent_usage: u64,
    usage: u64,
    own: u64,
) -> Amount
    requires asked { own ≤ siblings }
    requires fits { usage + siblings ≤ parent_usage + own }
    ensures { result ≡ below_parent recursive above siblings parent_usage usage own }
{
    if recursive && !above.exceeded_by(siblings) {
        with_rest(above, siblings, parent_usage, usage, own)
    } else {
        part_of(above, siblings, own)
    }
}

/// A group's share of its parent's effective value, `above`. The group claims `own`, and all children of
/// the parent together claim `siblings`.
fn part_of(above: Amount, siblings: u64, own: u64) -> Amount
    ensures { result ≡ part_of above siblings own }
{
    let Amount::Pages(value) = above else {
        return Amount::Pages(own);
    };
    if value >= siblings {
        return Amount::Pages(own);
    }
    // The product may be larger than any count. The share is at most the claim.
    let part = u128::from(own) * u128::from(value) / u128::from(siblings);
    Amount::Pages(part as u64)
}

/// A group's claim, and its share of the part of the parent's effective value, `above`, that no child of
/// the parent claims.
fn with_rest(above: Amount, siblings: u64, parent_usage: u64, usage: u64, own: u64) -> Amount
    requires asked { own ≤ siblings }
    requires fits { usage + siblings ≤ parent_usage + own }
    ensures { result ≡ with_rest above siblings parent_usage usage own }
{
    if parent_usage <= siblings || usage <= own {
        return Amount::Pages(own);
    }
    let Amount::Pages(value) = above else {
        return Amount::Max;
    };
    if value <= siblings {
        return Amount::Pages(own);
    }
    // The product may be larger than any count. The share is at most the part to be shared, since the
    // group's unclaimed use is at most the parent's.
    let rest = u128::from(value - siblings) * u128::from(usage - own)
        / u128::from(parent_usage - siblings);
    Amount::Pages(own + rest as u64)
}
