//! One pass over the target and the groups below it.

ghost use Rattle.std.specs.Prelude.{◌≡◌, true};
ghost use Rattle.std.specs.List.{find};
ghost use Rattle.machine.specs.Order.{served_by, served_first};
ghost use Rattle.machine.specs.Tree.{is_live, under, preorder};
ghost use Rattle.group_tree.specs.Tables.{number};
ghost use Rattle.reclaim.specs.Cursors.{cursor_of};
ghost use Rattle.reclaim.specs.Pass.{gives_by, asked_by};
ghost use Rattle.reclaim.specs.Walk.{behind_last, up_to, AreAsked, in_walk};

use crate::cursor::Cursor;
use crate::scan_control::ScanControl;
use eviction::has_old_file;
use group_tree::Preorder;
use machine::id::GroupId;
use machine::record::Guard;

impl<'t, 'c, 'g> ScanControl<'t, 'c, 'g> {
    /// The group that the target evicts a page from, if this is whose turn it is. The passes include the
    /// groups that their low protects (kernel: memcg_low_reclaim), or skip them. If age is heeded, a first
    /// pass asks only the groups with an old page of a file.
    pub(crate) fn served(self, low_reclaim: bool, turn: Cursor) -> Option<GroupId>
        ensures { number result ≡ served_first self.entry.heeds_age self.entry.takes_parts self.entry.protection.tree.now (asked_by self.entry true low_reclaim) (gives_by self.entry low_reclaim) self.entry.protection.target.0 (cursor_of turn) }
    {
        if !self.heeds_age {
            return self.first_asked(false, low_reclaim, turn);
        }
        let found = self.first_asked(true, low_reclaim, turn);
        if found.is_some() {
            return found;
        }
        self.first_asked(false, low_reclaim, turn)
    }

    /// The first group in the order of a pass that is asked and has a page to give.
    fn first_asked(self, old_files: bool, low_reclaim: bool, turn: Cursor) -> Option<GroupId>
        ensures { number result ≡ served_by self.entry.takes_parts self.entry.protection.tree.now (asked_by self.entry old_files low_reclaim) self.entry.protection.target.0 (cursor_of turn) }
    {
        if let Some(group) = self.in_turn(turn) {
            if self.asks(old_files, low_reclaim, group) {
                return Some(group);
            }
        }
        self.first_in_walk(old_files, low_reclaim, turn.group)
    }

    /// The first group with a page to evict in a walk that begins after the group that was served last,
    /// and wraps around.
    fn first_in_walk(
        self,
        old_files: bool,
        low_reclaim: bool,
        last: Option<GroupId>,
    ) -> Option<GroupId>
        ensures { number result ≡ in_walk self.entry.protection.tree.now (asked_by self.entry old_files low_reclaim) self.entry.protection.target.0 (number last) }
    {
        self.protection.tree.groups_form_a_tree();
        let found = self.first_behind(old_files, low_reclaim, last);
        if found.is_some() {
            return found;
        }
        let walk = self.protection.tree.preorder(self.protection.target);
        self.first_to_give(old_files, low_reclaim, walk, last)
    }

    /// The first group with a page to evict after the group that was served last. The walk begins there,
    /// and does not visit the groups before it.
    fn first_behind(
        self,
        old_files: bool,
        low_reclaim: bool,
        last: Option<GroupId>,
    ) -> Option<GroupId>
        ensures { number result ≡ find (asked_by self.entry old_files low_reclaim) (behind_last (preorder self.entry.protection.tree.now self.entry.protection.target.0) (number last)) }
    {
        self.protection.tree.groups_form_a_tree();
        let rest = self
            .protection
            .tree
            .preorder_behind(self.protection.target, last?);
        self.first_to_give(old_files, low_reclaim, rest, None)
    }

    /// The first group of a walk that has a page to evict. The walk ends at the group that was served
    /// last.
    fn first_to_give(
        self,
        old_files: bool,
        low_reclaim: bool,
        walk: Preorder<'_>,
        last: Option<GroupId>,
    ) -> Option<GroupId>
        requires { AreAsked self.protection.tree.now self.protection.target.0 walk }
        ensures { number result ≡ find (asked_by self.entry old_files low_reclaim) (up_to walk.entry (number last)) }
    {
        for group in walk {
            if self.asks(old_files, low_reclaim, group) {
                return Some(group);
            }
            if Some(group) == last {
                return None;
            }
        }
        None
    }

    /// Whether the pass asks the group, and the group has a page to give.
    #[inline(always)]
    fn asks(self, old_files: bool, low_reclaim: bool, group: GroupId) -> bool
        requires live { is_live self.protection.tree.now group.0 ≡ true }
        requires under { under self.protection.tree.now self.protection.target.0 group.0 ≡ true }
        ensures { result ≡ asked_by self.entry old_files low_reclaim group.0 }
    {
        if old_files && !has_old_file(self.gens, self.marks, group) {
            return false;
        }
        self.gives(low_reclaim, group)
    }

    /// Whether the target can evict a page of the group.
    #[inline(always)]
    pub(crate) fn gives(self, low_reclaim: bool, group: GroupId) -> bool
        requires live { is_live self.protection.tree.now group.0 ≡ true }
        requires under { under self.protection.tree.now self.protection.target.0 group.0 ≡ true }
        ensures { result ≡ gives_by self.entry low_reclaim group.0 }
    {
        // The lists cost less than the group's protection, which goes up to the target.
        self.gens.has_usable(group, self.swap_free)
            && !self.protection.is_protected(Guard::Min, group)
            && (low_reclaim || !self.protection.is_protected(Guard::Low, group))
    }
}
