//! The turns of groups, if a reclaim takes parts.

ghost use Rattle.std.specs.Prelude.{◌≡◌, ◌<◌, ◌==◌, ◌&&◌, not, true, false, Some, IfSome};
ghost use Rattle.std.specs.List.{list_any};
ghost use Rattle.machine.specs.Order.{in_turn, served_first, is_behind, least_of, greatest_of, round_unit};
ghost use Rattle.machine.specs.Tree.{is_live, under, preorder};
ghost use Rattle.machine.specs.Eviction.{has_old_file};
ghost use Rattle.aging.specs.Groups.{seen_at};
ghost use Rattle.page_counter.specs.Counts.{usage_of};
ghost use Rattle.group_tree.specs.Tables.{number};
ghost use Rattle.reclaim.specs.Cursors.{cursor_of};
ghost use Rattle.reclaim.specs.Pass.{gives_by, asked_by, in_second, cursor_by};
ghost use Rattle.reclaim.specs.Walk.{ones};

use crate::cursor::Cursor;
use crate::scan_control::ScanControl;
use eviction::has_old_file;
use machine::id::GroupId;
use machine::record::Guard;

impl<'t, 'c, 'g> ScanControl<'t, 'c, 'g> {
    /// The group whose turn goes on, if one's does.
    pub(crate) fn in_turn(self, turn: Cursor) -> Option<GroupId>
        ensures is { ones (number result) ≡ in_turn self.entry.takes_parts self.entry.protection.tree.now self.entry.protection.target.0 (cursor_of turn) }
        ensures live { IfSome result (λ g. is_live self.entry.protection.tree.now g.0 ≡ true) }
        ensures under { IfSome result (λ g. under self.entry.protection.tree.now self.entry.protection.target.0 g.0 ≡ true) }
    {
        if !self.takes_parts || turn.left == 0 {
            return None;
        }
        let group = turn.group?;
        let tree = self.protection.tree;
        if tree.is_live(group) && tree.is_under(self.protection.target, group) {
            Some(group)
        } else {
            None
        }
    }

    /// Whose turn it is, once the group that the passes serve has given a page.
    pub(crate) fn turn_after(self, turn: Cursor, group: GroupId) -> Cursor
        requires live { is_live self.protection.tree.now group.0 ≡ true }
        requires under { under self.protection.tree.now self.protection.target.0 group.0 ≡ true }
        requires served { served_first self.heeds_age self.takes_parts self.protection.tree.now (asked_by self true (in_second self group.0)) (gives_by self (in_second self group.0)) self.protection.target.0 (cursor_of turn) ≡ Some group.0 }
        ensures { cursor_of result ≡ cursor_by self.entry (cursor_of turn) group.0 }
    {
        if !self.takes_parts {
            return Cursor::behind(group);
        }
        if self.in_turn(turn) == Some(group) {
            return Cursor {
                group: Some(group),
                left: turn.left - 1,
                unit: turn.unit,
            };
        }
        let unit = self.round_unit(turn, group);
        Cursor::begin(group, self.protection.counters.usage(group), unit)
    }

    /// The unit of the round in which the group's turn begins: the size of the least group that has a page to
    /// give, and at least a sixteenth of the greatest.
    fn round_unit(self, turn: Cursor, group: GroupId) -> u64
        requires live { is_live self.protection.tree.now group.0 ≡ true }
        requires under { under self.protection.tree.now self.protection.target.0 group.0 ≡ true }
        requires served { served_first self.heeds_age self.takes_parts self.protection.tree.now (asked_by self true (in_second self group.0)) (gives_by self (in_second self group.0)) self.protection.target.0 (cursor_of turn) ≡ Some group.0 }
        requires begins { list_any (λ a. a == group.0) (in_turn self.takes_parts self.protection.tree.now self.protection.target.0 (cursor_of turn)) ≡ false }
        ensures unit { result ≡ round_unit self.entry.protection.tree.now (gives_by self.entry (in_second self.entry group.0)) (usage_of self.entry.protection.counters.now) self.entry.protection.target.0 (cursor_of turn) group.0 }
        ensures some { 0 < result }
    {
        self.protection.tree.groups_form_a_tree();
        let size = self.protection.counters.usage(group);
        // The pass asked all other groups before it came back to this one, and none has a page to give.
        if turn.group == Some(group) && self.asks_all(group) {
            return size.max(1);
        }
        if turn.unit > 0 && self.is_behind(turn.group, group) {
            return turn.unit;
        }
        let low_reclaim = self.protection.is_protected(Guard::Low, group);
        let (least, greatest) = self.sizes_given(low_reclaim, size);
        1.max(least.max(greatest / 16))
    }

    /// Whether the pass that serves the group asks all groups with a page to give. If age is heeded, the first
    /// pass asks only those with an old page of a file.
    fn asks_all(self, group: GroupId) -> bool
        requires live { is_live self.protection.tree.now group.0 ≡ true }
        ensures { result ≡ not (self.entry.heeds_age && has_old_file (seen_at group.0 self.entry.gens.now self.entry.marks.now)) }
    {
        !self.heeds_age || !has_old_file(self.gens, self.marks, group)
    }

    /// Whether the group comes after the one that was served last, in the order of a walk from the target.
    fn is_behind(self, last: Option<GroupId>, group: GroupId) -> bool
        ensures { result ≡ is_behind self.entry.protection.tree.now self.entry.protection.target.0 (number last) group.0 }
    {
        self.protection.tree.groups_form_a_tree();
        let Some(last) = last else {
            return false;
        };
        // A walk comes to each group once.
        if last == group {
            return false;
        }
        for other in self
            .protection
            .tree
            .preorder_behind(self.protection.target, last)
        {
            if other == group {
                return true;
            }
        }
        false
    }

    /// The least and the greatest size of the groups that have a page to give, and of this one.
    fn sizes_given(self, low_reclaim: bool, size: u64) -> (u64, u64)
        ensures least { result.0 ≡ least_of (gives_by self.entry low_reclaim) (usage_of self.entry.protection.counters.now) (preorder self.entry.protection.tree.now self.entry.protection.target.0) size }
        ensures greatest { result.1 ≡ greatest_of (gives_by self.entry low_reclaim) (usage_of self.entry.protection.counters.now) (preorder self.entry.protection.tree.now self.entry.protection.target.0) size }
    {
        self.protection.tree.groups_form_a_tree();
        let mut least = size;
        let mut greatest = size;
        for group in self.protection.tree.preorder(self.protection.target) {
            if self.gives(low_reclaim, group) {
                least = self.protection.counters.usage(group).min(least);
                greatest = self.protection.counters.usage(group).max(greatest);
            }
        }
        (least, greatest)
    }
}
