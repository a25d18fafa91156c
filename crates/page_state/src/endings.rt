//! How transfers end: the page is in its frame or on its block, or is gone if nothing maps it.

ghost use Rattle.std.specs.Prelude.{◌≡◌, ℕ, Some, true, is_some, slice_index};
ghost use Rattle.machine.specs.Pages as residence;
ghost use Rattle.machine.specs.declared.record.Direction.TheVariants.{In, Out};
ghost use Rattle.machine.specs.Pages.{page_at, is_in_flight};
ghost use Rattle.pages.specs.PagesOf.{Label, labelled, HasResidence, moving, byte_in};
ghost use Rattle.page_state.specs.Changes.{ended_as, EndsTransfer};

use crate::joined::State;
use crate::unmap::drop_unmapped;
use machine::bytes::PageBytes;
use machine::id::{PageId, TicketId};
use machine::record::Direction;
use pages::{End, InTicket, OutTicket, Pages};

impl State {
    /// Ends the read-in of the ticket's page as `end` says. If the page is in its frame, it has the
    /// bytes that the ticket read. Returns those bytes. Allocates no memory.
    pub fn settle_in(&mut self, ticket: InTicket, end: End) -> PageBytes
        requires { is_in_flight In self.old.tables.pages ticket.number ≡ true }
        ensures ends { (p : ℕ) (label : Label) (f b : ℕ) → HasResidence self.old.tables.pages p label (residence.Coming f b ticket.number)
            → EndsTransfer self.old self.new In p ticket.number (ended_as end self.old.tables.page_tables p (labelled label (residence.Coming f b ticket.number)) f b) }
        // What is visible of the page, if it still exists.
        ensures arrives { (p : ℕ) (label : Label) (f b : ℕ) → HasResidence self.old.tables.pages p label (residence.Coming f b ticket.number) → end ≡ End.InFrame
            → is_some (page_at self.new.tables.pages p) ≡ true → (k : ℕ) → byte_in self.new.bytes p k ≡ slice_index ticket.bytes k }
        ensures bytes { result ≡ ticket.bytes }
    {
        self.parts.held.are_generations();
        let page = page_in_flight(&self.parts.pages, Direction::In, ticket.number());
        let bytes = self
            .parts
            .settle_in(page, ticket, end, self.config.placement);
        drop_unmapped(&mut self.parts, &self.spaces, page);
        bytes
    }

    /// Ends the write-out of the ticket's page as `end` says. If the page is in its frame, it is
    /// unchanged. Allocates no memory.
    pub fn settle_out(&mut self, ticket: OutTicket, end: End)
        requires { is_in_flight Out self.old.tables.pages ticket.number ≡ true }
        ensures ends { (p : ℕ) (label : Label) (f b : ℕ) → HasResidence self.old.tables.pages p label (residence.Going f b ticket.number)
            → EndsTransfer self.old self.new Out p ticket.number (ended_as end self.old.tables.page_tables p (labelled label (residence.Going f b ticket.number)) f b) }
        ensures stays { (p : ℕ) (label : Label) (f b : ℕ) → HasResidence self.old.tables.pages p label (residence.Going f b ticket.number) → end ≡ End.InFrame
            → is_some (page_at self.new.tables.pages p) ≡ true → (k : ℕ) → byte_in self.new.bytes p k ≡ byte_in self.old.bytes p k }
    {
        self.parts.held.are_generations();
        let page = page_in_flight(&self.parts.pages, Direction::Out, ticket.number());
        self.parts
            .settle_out(page, ticket, end, self.config.placement);
        drop_unmapped(&mut self.parts, &self.spaces, page);
    }
}

/// The page whose transfer in this direction is in flight under the ticket.
fn page_in_flight(pages: &Pages, direction: Direction, ticket: TicketId) -> PageId
    requires { is_in_flight direction pages.now.pages ticket.0 ≡ true }
    ensures stands { (label : Label) × (f : ℕ) × (b : ℕ) × HasResidence pages.now.pages result.0 label (moving direction f b ticket.0) }
    ensures alone { (p : ℕ) (label : Label) (f b : ℕ) → HasResidence pages.now.pages p label (moving direction f b ticket.0) → result.0 ≡ p }
{
    pages.are_in_flight();
    let Some(flight) = pages.flight(ticket) else {
        unreachable!()
    };
    flight.page
}
