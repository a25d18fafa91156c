//! What the end of a transfer changes in what pages own, and in the lists of pages.

ghost use Rattle.std.specs.Prelude.{◌≡◌, ◌≢◌, ℕ, ◌<◌, false, length, slice_index};
ghost use Rattle.machine.specs.Generations.{is_listed_in};
ghost use Rattle.machine.specs.Lists.{kind_at};
ghost use Rattle.machine.specs.Pages as residence;
ghost use Rattle.page_counter.specs.Counts.{SameGroups};
ghost use Rattle.machine.specs.declared.record.Direction.{Direction as Direction_of};
ghost use Rattle.pages.specs.PagesOf.{Label, HasResidence, byte_in, moving};
ghost use Rattle.pages.specs.Transfers.{Ends};
ghost use Rattle.page_state.specs.Owned.{AreKept};
ghost use Rattle.page_state.specs.Relists.{JoinsAtEnd, LeavesQueue};

use crate::queue::Queue;
use crate::room::give_room;
use block_store::Slots;
use frames::Pool;
use held_pages::HeldPages;
use machine::config::Placement;
use machine::id::{GroupId, PageId};
use machine::record::{Direction, Kind};
use page_counter::Counters;
use pages::{Carries, End, Freed, InTicket, Pages, Settled, Ticket};

/// Gives the page the bytes that the ticket read, if its read-in ended in its frame.
pub fn fill(pages: &mut Pages, page: PageId, ticket: &InTicket, end: End)
    requires { (label : Label) × (f b : ℕ) × HasResidence pages.old.pages page.0 label (residence.Coming f b ticket.now.number) }
    ensures filled { end ≡ End.InFrame → (o : ℕ) → byte_in pages.new.bytes page.0 o ≡ slice_index ticket.now.bytes o }
    ensures bytes { (q o : ℕ) → q ≢ page.0 → byte_in pages.new.bytes q o ≡ byte_in pages.old.bytes q o }
    ensures others { pages.new ≡ record pages.old { bytes = pages.new.bytes } }
{
    match end {
        End::InFrame => pages.fill(page, ticket),
        End::OnBlock => {}
    }
}

/// Ends the transfer of the page as `end` says, and gives back what the page no longer owns. Returns the
/// page's group and type, and what the ticket carried.
pub fn end_transfer<B: Carries>(
    page: PageId,
    ticket: Ticket<B>,
    end: End,
    pages: &mut Pages,
    counters: &mut Counters,
    pool: &mut Pool,
    slots: &mut Slots,
) -> (GroupId, Kind, B)
    requires stands { (d : Direction_of) × (label : Label) × (f b : ℕ) × HasResidence pages.old.pages page.0 label (moving d f b ticket.number) }
    requires kept { AreKept counters.old pool.old slots.old pages.old.pages }
    ensures ends { (d : Direction_of) (label : Label) (f b : ℕ) → HasResidence pages.old.pages page.0 label (moving d f b ticket.number) → Ends pages.old pages.new page.0 label f b ticket.number end }
    ensures label { (d : Direction_of) (label : Label) (f b : ℕ) → HasResidence pages.old.pages page.0 label (moving d f b ticket.number) → (result.0.0 ≡ label.group) × (result.1 ≡ kind_at label.content) }
    ensures kept { AreKept counters.new pool.new slots.new pages.new.pages }
    ensures groups { SameGroups counters.old counters.new }
    ensures frames { pool.new.frames ≡ pool.old.frames }
    ensures spares { pool.new.spares ≡ pool.old.spares }
    ensures most_spares { pool.new.most_spares ≡ pool.old.most_spares }
    ensures blocks { slots.new.blocks ≡ slots.old.blocks }
    ensures carried { B.bytes result.2 ≡ ticket.bytes }
{
    counters.are_counted();
    let Settled {
        group,
        kind,
        freed,
        carried,
    } = pages.settle(page, ticket, end);
    let told = (group, kind, carried);
    match freed {
        Freed::Slot(slot) => slots.give(slot),
        Freed::Room(frame, charge) => give_room(frame, charge, counters, pool),
        Freed::Nothing => {}
    }
    told
}

/// The page is no longer in transfer in this direction. If it is in its frame, it is added to its list.
pub fn relist(
    held: &mut HeldPages,
    moving: &mut Queue,
    group: GroupId,
    kind: Kind,
    page: PageId,
    direction: Direction,
    placement: Placement,
    end: End,
)
    requires group { group.0 < length held.old.lists.groups }
    requires number { page.0 < held.old.numbers }
    requires unlisted { is_listed_in held.old.lists.groups page.0 ≡ false }
    ensures held { JoinsAtEnd placement direction end held.old held.new group.0 kind page.0 }
    ensures moving { LeavesQueue moving.old moving.new page.0 }
{
    moving.remove(page);
    match end {
        End::InFrame => held.putback(group, kind, page, direction, placement),
        End::OnBlock => {}
    }
}
