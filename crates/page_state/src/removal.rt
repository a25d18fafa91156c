//! How the pages of a removed group become its parent's.

ghost use Rattle.std.specs.Prelude.{◌≡◌, ℕ, Some, true, length, option_map};
ghost use Rattle.machine.specs.Tree.{node_at, is_live};
ghost use Rattle.machine.specs.Pages.{page_at};
ghost use Rattle.machine.specs.Step.{regrouped};
ghost use Rattle.page_counter.specs.Counts.{SameGroups};
ghost use Rattle.pages.specs.PagesOf.{byte_in};
ghost use Rattle.page_state.specs.Owned.{IsCounted};

use machine::config::Placement;
use machine::id::GroupId;
use page_counter::Counters;
use pages::Pages;

/// Moves the pages of the group, and their charges, to its parent (kernel: the charges of a memory cgroup that
/// goes offline become its parent's). By Linux's placement the pages that are only on their blocks move to the root.
/// Allocates no memory. The time grows with the number of pages of the group.
pub fn reparent(
    pages: &mut Pages,
    counters: &mut Counters,
    group: GroupId,
    parent: GroupId,
    placement: Placement,
)
    requires below { (node_at counters.old.tree group.0).parent ≡ Some parent.0 }
    requires live { is_live counters.old.tree group.0 ≡ true }
    requires counted { IsCounted counters.old pages.old.pages }
    requires groups { pages.old.groups ≡ length counters.old.tree }
    ensures pages { (p : ℕ) → page_at pages.new.pages p ≡ option_map (regrouped placement group.0 parent.0) (page_at pages.old.pages p) }
    ensures bytes { (q o : ℕ) → byte_in pages.new.bytes q o ≡ byte_in pages.old.bytes q o }
    ensures others { pages.new ≡ record pages.old { pages = pages.new.pages; bytes = pages.new.bytes } }
    ensures counted { IsCounted counters.new pages.new.pages }
    ensures groups { SameGroups counters.old counters.new }
{
    counters.are_counted();
    while let Some(page) = pages.first_of(group) {
        pages.reparent(counters, page, parent, placement);
    }
}
