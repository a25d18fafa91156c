//! What a reclaim evicts, and how the page begins to leave.

ghost use Rattle.std.specs.Prelude.{◌≡◌, Some, true, not, is_some, IfSome};
ghost use Rattle.machine.specs.Tree.{is_live};
ghost use Rattle.machine.specs.State.{is_swap_free};
ghost use Rattle.machine.specs.Reclaim.{has_open, has_takeable, has_transfer};
ghost use Rattle.machine.specs.Lists.{served};
ghost use Rattle.page_state.specs.States.{AreYoung};
ghost use Rattle.page_state.specs.Changes.{TakesPage};

use crate::joined::State;
use crate::lookup::is_any_under;
use machine::event::Goal;
use machine::id::GroupId;
use pages::OutTicket;
use protection::Protection;
use reclaim::{ScanControl, Served};

impl State {
    /// Whether protection is recursive (kernel: memory_recursiveprot).
    pub(crate) fn is_recursive(&self) -> bool
        ensures { result ≡ self.now.tables.opening.recursive }
    {
        self.config.recursive
    }

    /// The group that a reclaim of the target evicts the next page from. There is one exactly if a page is
    /// reclaimable. The reclaim overrides the group's low exactly if no page is open.
    pub fn next_group(&self, goal: Goal, target: GroupId) -> Option<Served>
        requires { is_live self.now.tables.tree target.0 ≡ true }
        ensures next { IfSome result (λ s. served self.now.tables self.now.order goal target.0 ≡ Some s.group.0) }
        ensures live { IfSome result (λ s. is_live self.now.tables.tree s.group.0 ≡ true) }
        ensures low { IfSome result (λ s. s.low_reclaim ≡ not (has_open self.now.tables target.0)) }
        ensures takeable { is_some result ≡ has_takeable self.now.tables target.0 }
    {
        self.is_joined();
        self.tree.groups_form_a_tree();
        let recursive = self.is_recursive();
        let protection = Protection {
            tree: &self.tree,
            counters: &self.parts.counters,
            recursive,
            target,
        };
        let swap_free = self.has_swap();
        let heeds_age = self.config.placement.heeds_age(goal, target);
        let takes_parts = self.config.placement.takes_parts(goal);
        let scan = ScanControl {
            protection,
            gens: self.parts.held.gens(),
            marks: self.parts.held.marks(),
            swap_free,
            heeds_age,
            takes_parts,
        };
        self.cursors.next_group(scan)
    }

    /// Whether a page of a group at or under the target is in transfer, and may become free.
    pub fn has_transfer(&self, target: GroupId) -> bool
        ensures { result ≡ has_transfer self.now.tables target.0 }
    {
        is_any_under(
            self.parts.moving.as_slice(),
            &self.parts.pages,
            &self.tree,
            target,
        )
    }

    /// Evicts the next page of the group that is served. The target's cursor moves to the group, whose turn goes
    /// on or begins if the reclaim takes parts. The page begins to be written out under the ticket. If there is no ticket, it was a clean page of a file, and
    /// is dropped (kernel: shrink_folio_list). Allocates no memory.
    pub fn take_out(&mut self, goal: Goal, target: GroupId, group: GroupId) -> Option<OutTicket>
        requires live { is_live self.old.tables.tree target.0 ≡ true }
        requires next { served self.old.tables self.old.order goal target.0 ≡ Some group.0 }
        requires young { AreYoung self.old.order.held }
        ensures { TakesPage self.old self.new goal target.0 group.0 result }
    {
        self.is_joined();
        self.tree.groups_form_a_tree();
        let recursive = self.is_recursive();
        let swap_free = self.has_swap();
        let heeds_age = self.config.placement.heeds_age(goal, target);
        let takes_parts = self.config.placement.takes_parts(goal);
        let protection = Protection {
            tree: &self.tree,
            counters: &self.parts.counters,
            recursive,
            target,
        };
        let scan = ScanControl {
            protection,
            gens: self.parts.held.gens(),
            marks: self.parts.held.marks(),
            swap_free,
            heeds_age,
            takes_parts,
        };
        self.cursors.serve(scan, group);
        self.parts.held.are_generations();
        let page = self.parts.held.pick(group, swap_free);
        self.parts.take_out(page)
    }

    /// Whether a swap block is free.
    fn has_swap(&self) -> bool
        ensures { result ≡ is_swap_free self.now.tables }
    {
        self.parts.slots.free() > 0
    }
}
