//! The cursors of all targets.

ghost use Rattle.std.specs.Prelude.{◌≡◌, ◌+◌, ◌<◌, ◌≤◌, ◌++◌, ◌∷◌, [], true, false, length, slice_set, Some, IfSome, IfNone, IfOk, OnOk, OnErr, IsOk};
ghost use Rattle.machine.specs.Order.{served_first, no_cursor, cursor_at};
ghost use Rattle.reclaim.specs.Pass.{gives_by, asked_by, in_second, cursor_by, IsGiver, GivesNone};

use crate::cursor::Cursor;
use crate::scan_control::ScanControl;
use machine::id::GroupId;
use std::alloc::{AllocError, Global};
use std::marker::Model;

/// The group that a reclaim evicts a page from.
#[derive(Clone, Copy)]
pub struct Served {
    pub group: GroupId,
    /// The group's low protects it, and no reclaimable page belongs to a group that its low does not
    /// protect (kernel: memcg_low_reclaim of a `struct scan_control`).
    pub low_reclaim: bool,
}

/// For each group, as a reclaim's target, the group that was served last for it (kernel:
/// `struct mem_cgroup_reclaim_iter`), and how many pages more that group gives in its turn.
///
/// A contract sees these as a list by the targets' numbers, and for how many further targets there is
/// memory.
#[derive(Drop)]
pub struct Cursors {
    /// By target: whose turn it is.
    turns: Vec<Cursor>,
}

impl Model for Cursors {
    ghost use Rattle.std.specs.Prelude.{◌-◌, map, vec_len, vec_capacity};
    ghost use Rattle.reclaim.specs.Cursors.{CursorsOf, cursor_of};

    ghost Value = { CursorsOf };

    ghost view = { λ c. record {
      cursors = map cursor_of c.turns.items;
      room = vec_capacity c.turns - vec_len c.turns;
    } };
}

impl Cursors {
    /// Only the root, for which none was served. `AllocError` if there is no memory for it.
    pub fn new(alloc: Global) -> Result<Self, AllocError>
        ensures { IfOk result (λ c. c.cursors ≡ no_cursor ∷ []) }
    {
        let mut turns = Vec::with_capacity(alloc, 1)?;
        turns.push_reserved(Cursor::new());
        Ok(Cursors { turns })
    }

    /// Reserves the memory for another target. `AllocError` if memory runs out. The cursors do not
    /// change in either case.
    pub fn reserve(&mut self) -> Result<(), AllocError>
        ensures room { OnOk result (0 < self.new.room) }
        ensures cursors { self.new.cursors ≡ self.old.cursors }
        ensures succeeds { 0 < self.old.room → IsOk result }
        ensures kept { self.old.room ≤ self.new.room }
    {
        self.turns.reserve(1)
    }

    /// Adds a target for which no group was served. [`Cursors::reserve`] reserved its memory.
    pub fn add_reserved(&mut self)
        requires room { 0 < self.old.room }
        ensures cursors { self.new.cursors ≡ self.old.cursors ++ no_cursor ∷ [] }
        ensures room { self.new.room + 1 ≡ self.old.room }
    {
        self.turns.push_reserved(Cursor::new());
    }

    /// Adds a target for which no group was served. `AllocError` if there is no memory for it, and
    /// then the cursors do not change.
    pub fn add(&mut self) -> Result<(), AllocError>
        ensures cursors { OnOk result (self.new.cursors ≡ self.old.cursors ++ no_cursor ∷ []) }
        ensures err { OnErr result (self.new.cursors ≡ self.old.cursors) }
        ensures succeeds { 0 < self.old.room → IsOk result }
    {
        self.reserve()?;
        self.add_reserved();
        Ok(())
    }

    /// Ends the group as a target: the group that was served last for it is forgotten. If it was
    /// itself the last one served for a group above it, the next pass of that target begins at the
    /// target (kernel: invalidate_reclaim_iterators).
    pub fn remove(&mut self, group: GroupId)
        requires { group.0 < length self.old.cursors }
        ensures cursors { self.new.cursors ≡ slice_set self.old.cursors group.0 no_cursor }
        ensures room { self.new.room ≡ self.old.room }
    {
        self.turns[group.0 as usize] = Cursor::new();
    }

    /// The group that the reclaim of the target evicts the next page from. Nothing changes. `None` if
    /// no group at or below the target has a page to evict.
    ///
    /// A first pass skips the groups that are within their low. If it finds no group, a second one
    /// includes them (kernel: memcg_low_skipped, and the retry of do_try_to_free_pages). If age is heeded,
    /// each of them is two: the groups with an old page of a file are asked before the others.
    pub fn next_group(&self, scan: ScanControl<'_, '_, '_>) -> Option<Served>
        requires { scan.protection.target.0 < length self.now.cursors }
        // It is the next group in the order of the pass that finds it.
        ensures group { IfSome result (λ s. served_first scan.entry.heeds_age scan.entry.takes_parts scan.entry.protection.tree.now (asked_by scan.entry true s.low_reclaim) (gives_by scan.entry s.low_reclaim) scan.entry.protection.target.0 (cursor_at self.now.cursors scan.entry.protection.target.0) ≡ Some s.group.0) }
        // Groups within their low are included only if no other group has a page to give.
        ensures spared { IfSome result (λ s. s.low_reclaim ≡ true → GivesNone scan.entry false) }
        // A group is found exactly if one has a page to evict.
        ensures giver { IfSome result (λ s. IsGiver scan.entry s.low_reclaim s.group.0) }
        ensures none { IfNone result (GivesNone scan.entry true) }
    {
        scan.protection.tree.groups_form_a_tree();
        let turn = self.turns[scan.protection.target.0 as usize];
        if let Some(group) = scan.served(false, turn) {
            return Some(Served {
                group,
                low_reclaim: false,
            });
        }
        let group = scan.served(true, turn)?;
        Some(Served {
            group,
            low_reclaim: true,
        })
    }

    /// The reclaim evicts a page of the group that [`Cursors::next_group`] finds. The target's cursor moves to
    /// the group. If the reclaim takes parts, the group's turn goes on or begins. Allocates no memory.
    pub fn serve(&mut self, scan: ScanControl<'_, '_, '_>, group: GroupId)
        requires cursor { scan.protection.target.0 < length self.old.cursors }
        // It is the next group in the order of the pass that finds it.
        requires served { served_first scan.heeds_age scan.takes_parts scan.protection.tree.now (asked_by scan true (in_second scan group.0)) (gives_by scan (in_second scan group.0)) scan.protection.target.0 (cursor_at self.old.cursors scan.protection.target.0) ≡ Some group.0 }
        ensures cursors { self.new.cursors ≡ slice_set self.old.cursors scan.entry.protection.target.0 (cursor_by scan.entry (cursor_at self.old.cursors scan.entry.protection.target.0) group.0) }
        ensures room { self.new.room ≡ self.old.room }
    {
        scan.protection.tree.groups_form_a_tree();
        let target = scan.protection.target.0 as usize;
        self.turns[target] = scan.turn_after(self.turns[target], group);
    }
}
