//! The state that a pass of a reclaim depends on.

ghost use Rattle.std.specs.Prelude.{◌≡◌, ◌≤◌, true, length};
ghost use Rattle.machine.specs.Tree.{is_live};

use aging::MarkSet;
use lru_gen::Gens;
use protection::Protection;

/// What a pass over the groups at and below the target of a reclaim depends on (kernel:
/// `struct scan_control`).
#[derive(Clone, Copy)]
pub struct ScanControl<'t, 'c, 'g> {
    /// The target, and what protects the groups below it.
    pub protection: Protection<'t, 'c>,
    /// The reclaimable pages, by group.
    pub gens: &'g Gens,
    /// Which pages are marked as accessed.
    pub marks: &'g MarkSet,
    /// Whether a swap block is free (kernel: may_swap).
    pub swap_free: bool,
    /// Whether the groups with an old page of a file are asked before all others.
    pub heeds_age: bool,
    /// Whether a group gives a part of its pages in its turn, and not one page.
    pub takes_parts: bool,
    /// The target is live.
    pub ghost live: { is_live protection.tree.now protection.target.0 ≡ true },
    /// Each group has lists.
    pub ghost listed: { length protection.tree.now ≤ length gens.now.groups },
    /// Each page has a mark.
    pub ghost marked: { gens.now.pages ≤ length marks.now },
}
