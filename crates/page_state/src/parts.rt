//! The parts that pages own something of, and how they change together.

ghost use Rattle.std.specs.Prelude.{◌≡◌, ◌≢◌, ℕ, ◌+◌, ◌<◌, ◌≤◌, ◌==◌, ◌∷◌, [], true, false, None, Some, IsSome, IfSome, IfOk, OnOk, length, replicate, option_map, slice_index, if◌then◌else◌};
ghost use Rattle.machine.specs.Slots.{Changes};
ghost use Rattle.machine.specs.Tree.{is_live};
ghost use Rattle.machine.specs.Pages as residence;
ghost use Rattle.machine.specs.Pages.{Page, page_at, is_anon, is_held_in, is_frame_taken, used_swap};
ghost use Rattle.machine.specs.Counts.{no_limits};
ghost use Rattle.machine.specs.Access.{page_size};
ghost use Rattle.machine.specs.Step.{new_page};
ghost use Rattle.group_tree.specs.Lineages.{bare};
ghost use Rattle.pages.specs.PagesOf.{pages_there, byte_in, Label, HasResidence, is_moving_in, way_of};
ghost use Rattle.pages.specs.Transfers.{page_after};
ghost use Rattle.machine.specs.declared.record.Direction.TheVariants.{In, Out};
ghost use Rattle.machine.specs.Generations.{new_gens};
ghost use Rattle.page_state.specs.States.{byte_shown};
ghost use Rattle.page_state.specs.Owned.{PartsAgree};
ghost use Rattle.page_state.specs.Parts.{HasGroupRoom, Reserves, TakesGroup, IsGranted, Adds, BeginsOut, LeavesSo, Settles, Drops};

use crate::queue::Queue;
use crate::release::{release, release_last};
use crate::room::{slot_for, take_room, take_spare};
use crate::settle::{end_transfer, fill, relist};
use block_store::Slots;
use files::Files;
use frames::{Frame, Pool};
use held_pages::HeldPages;
use machine::bytes::PageBytes;
use machine::config::Placement;
use machine::id::{GroupId, PageId};
use machine::record::{Direction, Kind};
use page_counter::{Charge, Counters};
use pages::{End, InTicket, OutTicket, Pages, WayOut};
use std::alloc::{AllocError, Global};

/// The parts that pages own something of: the pages, the frames and the swap slots without a page, the lists of
/// the held pages, and the pages in transfer. For each group they also have its settings, and how many pages are
/// charged to it or below it. [`Parts::close`] must spend it.
#[must_use]
pub struct Parts {
    pub pages: Pages,
    pub pool: Pool,
    pub slots: Slots,
    pub counters: Counters,
    /// The pages in frames that are not in transfer, in their lists.
    pub held: HeldPages,
    /// The pages in transfer.
    pub moving: Queue,
}

impl Parts {
    /// No page, all frames and all swap slots free, and only the root, without a limit. The number of page numbers
    /// is that of frames plus slots. The files' home blocks follow the slots.
    pub fn open(alloc: Global, frames: u32, swap: u32, files: Files) -> Result<Parts, AllocError>
        requires numbered { frames + swap ≤ u32.MAX }
        requires homes { files.first ≡ swap }
        ensures agree { IfOk result (λ h. PartsAgree h) }
        ensures files { IfOk result (λ h. h.pages.files.sizes ≡ files.sizes) }
        ensures kin { IfOk result (λ h. h.counters.tree ≡ bare None ∷ []) }
        ensures limits { IfOk result (λ h. h.counters.limits ≡ no_limits ∷ []) }
        ensures pages { IfOk result (λ h. h.pages.pages ≡ []) }
        ensures bytes { IfOk result (λ h. h.pages.bytes ≡ []) }
        ensures flights { IfOk result (λ h. h.pages.flights ≡ []) }
        ensures held { IfOk result (λ h. h.held.lists ≡ record { groups = new_gens ∷ []; marks = replicate (frames + swap) false; hits = replicate (frames + swap) 0 }) }
        ensures frames { IfOk result (λ h. h.pool.frames ≡ frames) }
        ensures swap { IfOk result (λ h. h.slots.blocks ≡ swap) }
        ensures numbers { IfOk result (λ h. h.pages.numbers ≡ frames + swap) }
    {
        let counters = Counters::new(alloc)?;
        let held = HeldPages::open(alloc, frames + swap)?;
        let moving = Queue::open(alloc, frames)?;
        let slots = Slots::open(alloc, swap)?;
        // Each page that is written out has a frame, and a block of its own to write to.
        files.are_numbered();
        let homes = files.pages();
        let spares = frames.min(swap + homes);
        let Ok(pool) = Pool::open(alloc, frames, spares) else {
            slots.close();
            return Err(AllocError);
        };
        let Ok(pages) = Pages::new(alloc, frames + swap, frames, frames, files) else {
            pool.close();
            slots.close();
            return Err(AllocError);
        };
        Ok(Parts {
            pages,
            pool,
            slots,
            counters,
            held,
            moving,
        })
    }

    /// Reserves the memory for another group.
    pub fn reserve_group(&mut self) -> Result<(), AllocError>
        requires { PartsAgree self.old }
        ensures agree { PartsAgree self.new }
        ensures room { OnOk result (HasGroupRoom self.new) }
        ensures same { Reserves self.old self.new }
    {
        self.counters.reserve()?;
        self.held.reserve_group()?;
        self.pages.reserve_group()
    }

    /// Adds a group below another. [`Parts::reserve_group`] reserved its memory.
    pub fn add_group(&mut self, group: GroupId, parent: GroupId)
        requires agree { PartsAgree self.old }
        requires room { HasGroupRoom self.old }
        requires next { group.0 ≡ length self.old.counters.tree }
        requires parent { is_live self.old.counters.tree parent.0 ≡ true }
        ensures agree { PartsAgree self.new }
        ensures adds { TakesGroup self.old self.new parent.0 }
    {
        self.counters.add_reserved(group, parent);
        self.held.add_group();
        self.pages.add_group();
    }

    /// Makes a page of the group, with the bytes of another that is in a frame, or zeros, except for one byte.
    /// There is room for it. Allocates no memory. If a frame is free, so is a page number, since each page has a
    /// frame or a swap slot.
    pub fn hold(&mut self, from: Option<PageId>, group: GroupId, offset: usize, byte: u8) -> PageId
        requires agree { PartsAgree self.old }
        requires held { IfSome from (λ page. is_held_in self.old.pages.pages page.0 ≡ true) }
        requires live { is_live self.old.counters.tree group.0 ≡ true }
        requires granted { IsGranted self.old group.0 }
        requires within { offset < page_size }
        ensures agree { PartsAgree self.new }
        ensures adds { Adds self.old self.new result.0 group.0 (byte_shown self.old.pages.bytes (option_map (λ page. page.0) from)) offset byte }
        ensures inside { result.0 < self.old.pages.numbers }
    {
        self.counters.are_counted();
        self.pages.are_filed();
        self.held.are_generations();
        let (frame, charge) = take_room(&mut self.counters, &mut self.pool, group);
        let page = make_page(&mut self.pages, frame, charge, from, offset, byte);
        self.held.add(group, Kind::Anon, page);
        page
    }

    /// Begins to write out the page, which is in a frame. Memory is written to a swap block, one of which is free
    /// then. A dirty page of a file is written to its home block. If no ticket is returned, the page was a clean
    /// page of a file, and is gone. Allocates no memory.
    pub fn take_out(&mut self, page: PageId) -> Option<OutTicket>
        requires agree { PartsAgree self.old }
        requires held { is_held_in self.old.pages.pages page.0 ≡ true }
        requires swap { (x : Page) → page_at self.old.pages.pages page.0 ≡ Some x → is_anon x.content ≡ true → used_swap self.old.pages.pages < self.old.slots.blocks }
        ensures agree { PartsAgree self.new }
        ensures leaves { (label : Label) (f : ℕ) → HasResidence self.old.pages.pages page.0 label (residence.Held f) → LeavesSo self.old self.new page.0 label f result }
    {
        match self.pages.way_out(page) {
            WayOut::ToSwap | WayOut::ToHome => Some(self.start_out(page)),
            WayOut::Dropped => {
                self.drop_page(page);
                None
            }
        }
    }

    /// Begins to write out a page that is in a frame: memory, if a swap block is free, or a dirty page of a file.
    fn start_out(&mut self, page: PageId) -> OutTicket
        requires agree { PartsAgree self.old }
        requires held { (label : Label) × (f : ℕ) × HasResidence self.old.pages.pages page.0 label (residence.Held f) × (way_of label.content label.dirty ≢ WayOut.Dropped) }
        requires swap { (x : Page) → page_at self.old.pages.pages page.0 ≡ Some x → is_anon x.content ≡ true → used_swap self.old.pages.pages < self.old.slots.blocks }
        ensures agree { PartsAgree self.new }
        ensures begins { (label : Label) (f : ℕ) → HasResidence self.old.pages.pages page.0 label (residence.Held f) → BeginsOut self.old self.new page.0 label f result }
    {
        self.pages.are_in_flight();
        self.pages.are_numbered();
        self.pages.are_filed();
        self.held.are_generations();
        let slot = slot_for(self.pages.way_out(page), &mut self.slots);
        let spare = take_spare(&mut self.pool);
        let ticket = self.pages.start_out(page, slot, spare);
        self.held.isolate(page);
        self.moving.push(page);
        ticket
    }

    /// Ends the read-in of the page as `end` says. If it ends in its frame, the page has the bytes that the ticket
    /// read, and enters the generation that the placement chooses. If it ends on its block, the page is uncharged.
    /// Returns the ticket's bytes. Allocates no memory.
    pub fn settle_in(
        &mut self,
        page: PageId,
        ticket: InTicket,
        end: End,
        placement: Placement,
    ) -> PageBytes
        requires agree { PartsAgree self.old }
        requires stands { (label : Label) × (f b : ℕ) × HasResidence self.old.pages.pages page.0 label (residence.Coming f b ticket.number) }
        ensures agree { PartsAgree self.new }
        ensures settles { (label : Label) (f b : ℕ) → HasResidence self.old.pages.pages page.0 label (residence.Coming f b ticket.number) → Settles self.old self.new placement In page.0 ticket.number (page_after end label f b) }
        ensures arrives { end ≡ End.InFrame → (o : ℕ) → byte_in self.new.pages.bytes page.0 o ≡ slice_index ticket.bytes o }
        ensures bytes { result ≡ ticket.bytes }
    {
        self.pages.are_numbered();
        self.held.are_generations();
        fill(&mut self.pages, page, &ticket, end);
        let (group, kind, buffer) = end_transfer(
            page,
            ticket,
            end,
            &mut self.pages,
            &mut self.counters,
            &mut self.pool,
            &mut self.slots,
        );
        relist(
            &mut self.held,
            &mut self.moving,
            group,
            kind,
            page,
            Direction::In,
            placement,
            end,
        );
        PageBytes::new(buffer)
    }

    /// Ends the write-out of the page as `end` says. If it ends on its block, the page is uncharged. If it ends in
    /// its frame, the page is unchanged, and enters the youngest generation. Allocates no memory.
    pub fn settle_out(&mut self, page: PageId, ticket: OutTicket, end: End, placement: Placement)
        requires agree { PartsAgree self.old }
        requires stands { (label : Label) × (f b : ℕ) × HasResidence self.old.pages.pages page.0 label (residence.Going f b ticket.number) }
        ensures agree { PartsAgree self.new }
        ensures settles { (label : Label) (f b : ℕ) → HasResidence self.old.pages.pages page.0 label (residence.Going f b ticket.number) → Settles self.old self.new placement Out page.0 ticket.number (page_after end label f b) }
        ensures stays { end ≡ End.InFrame → (o : ℕ) → byte_in self.new.pages.bytes page.0 o ≡ byte_in self.old.pages.bytes page.0 o }
    {
        self.pages.are_numbered();
        self.held.are_generations();
        let (group, kind, spare) = end_transfer(
            page,
            ticket,
            end,
            &mut self.pages,
            &mut self.counters,
            &mut self.pool,
            &mut self.slots,
        );
        self.pool.give_spare(spare);
        relist(
            &mut self.held,
            &mut self.moving,
            group,
            kind,
            page,
            Direction::Out,
            placement,
            end,
        );
    }

    /// Removes the page, which is not in transfer. Its frame and its charge, or its slot, go back. Allocates no
    /// memory.
    pub fn drop_page(&mut self, page: PageId)
        requires agree { PartsAgree self.old }
        requires there { IsSome (page_at self.old.pages.pages page.0) }
        requires settled { is_moving_in self.old.pages.pages page.0 ≡ false }
        ensures agree { PartsAgree self.new }
        ensures drops { Drops self.old self.new page.0 }
    {
        self.pages.are_numbered();
        self.held.are_generations();
        let owned = self.pages.drop_page(page);
        release(owned, &mut self.counters, &mut self.pool, &mut self.slots);
        self.held.unlist(page);
    }

    /// Spends them: each frame and each slot goes back, and each charge is uncharged.
    pub fn close(self)
        requires { PartsAgree self }
    {
        let Parts {
            pages,
            mut pool,
            mut slots,
            mut counters,
            held: _,
            moving: _,
        } = self;
        let mut owned = pages.into_owned();
        while release_last(&mut owned, &mut counters, &mut pool, &mut slots) {}
        owned.destroy_empty();
        pool.close();
        slots.close();
    }
}

/// Makes a page in the frame, with the bytes of another that is in a frame, or zeros, except for one byte. A
/// number is free for it.
fn make_page(
    pages: &mut Pages,
    frame: Frame,
    charge: Charge,
    from: Option<PageId>,
    offset: usize,
    byte: u8,
) -> PageId
    requires held { IfSome from (λ page. is_held_in pages.old.pages page.0 ≡ true) }
    requires room { pages_there pages.old.pages < pages.old.numbers }
    requires group { charge < pages.old.groups }
    requires unused { is_frame_taken pages.old.pages frame.number ≡ false }
    requires framed { frame.number < pages.old.frames }
    requires within { offset < page_size }
    ensures within { result.0 < pages.old.numbers }
    ensures free { page_at pages.old.pages result.0 ≡ None }
    ensures placed { Changes pages.old.pages pages.new.pages result.0 (Some (new_page charge frame.number)) }
    ensures bytes { (q o : ℕ) → byte_in pages.new.bytes q o
        ≡ (if q == result.0 then (if offset == o then byte else byte_shown pages.old.bytes (option_map (λ page. page.0) from) o) else byte_in pages.old.bytes q o) }
    ensures others { pages.new ≡ record pages.old { pages = pages.new.pages; bytes = pages.new.bytes } }
{
    match from {
        None => pages.hold(frame, charge, offset, byte),
        Some(from) => pages.copy(frame, charge, offset, byte, from),
    }
}
