//! The existing pages, by their numbers, with what each owns: a frame and a charge, a swap slot, or all three while it
//! is in transfer. The crate also has the tickets of the transfers in flight.
//!
//! Each page is on a list of its group's pages. Finding the pages of a group takes no look at any other page.
//!
//! A page holds memory of tasks, or a page of a file. The file and the place in it identify that page. A page's number
//! is free again once the page is gone, and a ticket's number once its transfer has ended.
//!
//! Finding the page that is held in a frame takes one look, at the entry with the frame's number.
#![tactic(auto)]

ghost use Rattle.std.specs.Prelude.{◌≡◌, ◌≢◌, ℕ, ◌+◌, ◌<◌, ◌≤◌, ◌==◌, ◌&&◌, [], Some, None, OnOk, IsOk, IsSome, IfOk, IfSome, slice_index, true, false, map, option_map, if◌then◌else◌};
ghost use Rattle.machine.specs.Slots.{at, there_and, Changes};
ghost use Rattle.machine.specs.Pages.{Residence as PageResidence, Held, Coming, Away, Page, page_at, file_page, home_block, has_frame, is_frame_taken, is_held_in, is_in_flight, is_number};
ghost use Rattle.machine.specs.Tree.{node_at};
ghost use Rattle.page_counter.specs.Counts.{IsOut, MovesUp, SameGroups};
ghost use Rattle.machine.specs.Access.{page_size};
ghost use Rattle.machine.specs.declared.event.Op.TheVariants.{Write};
ghost use Rattle.machine.specs.Lists.{kind_at};
ghost use Rattle.machine.specs.Step.{new_page, heir, touched};
ghost use Rattle.pages.specs.PagesOf.{is_held_frame, frame_holder, pages_there, byte_in, Label, memory_of, of_file, HasResidence, residence_of, moving, is_moving_in, is_flight_to, IsInTransfer, AreInFlight, AreFiled, way_of};
ghost use Rattle.pages.specs.Transfers.{StartsIn, IsReadable, is_new, StartsFrom, LeavesBy, block_for, StartsOut, Ends, IsFreed};
ghost use Rattle.machine.specs.declared.record.Direction.{Direction};
ghost use Rattle.pages.specs.Records.{page_of};

pub use end::{End, Freed, Settled};
pub use flight::Flight;
pub use owned_page::{Backing, Content, FilePage, OwnedPage, Place};
pub use residence::Residence;
pub use source::Source;
pub use ticket::{Carries, InTicket, OutTicket, Ticket};
pub use way::WayOut;

mod content;
mod end;
mod flight;
mod owned_page;
mod residence;
mod source;
mod table;
mod ticket;
mod way;

use block_store::Slot;
use files::Files;
use frames::{FRAME_BYTES, Frame, Spare};
use machine::config::Placement;
use machine::id::{GroupId, PageId, TicketId};
use machine::record::{Direction, Kind};
use page_counter::{Charge, Counters};
use rings::{ListId, Rings};
use slab::Slab;
use std::alloc::{AllocError, Global};
use std::marker::Model;
use table::{
    backing_for, begin, bytes_at, divide, fill_at, group_of, home, home_place, into_away,
    into_held, into_moving, is_in_frame, land, leave, note, open_members, open_numbers,
    open_places, owned_at, place, read_at, regrouped, residence_of, set_bytes_but, set_zeros_but,
    take_at, told_at, unlist, write_at,
};

// Each group has a list, and the number of lists fits in 31 bits.
const MAX_GROUPS: u32 = (1 << 31) - 1;

/// The pages by their numbers, the transfers in flight by theirs, and the pages of each group. [`Pages::into_owned`]
/// must spend it.
#[must_use]
pub struct Pages {
    // The numbers of pages, and the free numbers.
    numbers: Slab<()>,
    // What each page owns, by its number.
    owned: Vec<Option<OwnedPage>>,
    // The transfers, by their tickets' numbers.
    flights: Slab<Flight>,
    // The pages of each group, by page number. A list's number is its group's.
    members: Rings,
    // The files. Also, by home block from the first on, the page that holds the page with this home.
    files: Files,
    cache: Vec<Option<PageId>>,
    // By frame number: the page that has the frame. If none has it, the entry may name any page.
    by_frame: Vec<Option<PageId>>,
}

impl Model for Pages {
    ghost use Rattle.pages.specs.PagesOf.{PagesOf};

    ghost Value = { PagesOf };

    ghost use Rattle.std.specs.Prelude.{vec_capacity, length, map, option_map};
    ghost use Rattle.pages.specs.Records.{page_of, view_of, ArePages, AreFramed};

    ghost view = { λ s. view_of s.numbers s.owned.items s.flights s.members s.files (length s.by_frame.items) };

    ghost invariant = { λ s. ArePages s.numbers s.owned.items (vec_capacity s.owned) s.flights s.members s.files s.cache.items × AreFramed s.by_frame.items (map (option_map page_of) s.owned.items) };
}

impl Pages {
    /// No page, this many page numbers, the root as the only group, and the files. There is memory for this many
    /// transfers in flight at once, and for this many frame numbers from 0 on. `AllocError` if there is no memory, or
    /// if there are 2^31 page numbers or more.
    pub fn new(
        alloc: Global,
        numbers: u32,
        transfers: u32,
        frames: u32,
        files: Files,
    ) -> Result<Self, AllocError>
        ensures pages { IfOk result (λ t. t.pages ≡ []) }
        ensures bytes { IfOk result (λ t. t.bytes ≡ []) }
        ensures flights { IfOk result (λ t. t.flights ≡ []) }
        ensures numbers { IfOk result (λ t. t.numbers ≡ numbers) }
        ensures tickets { IfOk result (λ t. transfers ≤ t.tickets) }
        ensures groups { IfOk result (λ t. t.groups ≡ 1) }
        ensures files { IfOk result (λ t. t.files ≡ files) }
        ensures frames { IfOk result (λ t. t.frames ≡ frames) }
    {
        let cache = open_places(alloc, files.pages())?;
        let by_frame = open_places(alloc, frames)?;
        let members = open_members(alloc, numbers)?;
        let numbers = open_numbers(alloc, numbers)?;
        let flights = open_numbers(alloc, transfers)?;
        let owned = Vec::with_capacity(alloc, numbers.capacity())?;
        Ok(Pages {
            numbers,
            owned,
            flights,
            members,
            files,
            cache,
            by_frame,
        })
    }

    /// The files.
    pub fn files(&self) -> &Files
        ensures { result.now ≡ self.now.files }
    {
        &self.files
    }

    /// How many page numbers there are. Each page's number is below this.
    pub fn numbers(&self) -> u32
        ensures { result ≡ self.now.numbers }
    {
        self.numbers.capacity() as u32
    }

    /// Reserves the memory for another group. `AllocError` if memory runs out, or if there are 2^31 - 1 groups. The
    /// pages do not change in either case.
    pub fn reserve_group(&mut self) -> Result<(), AllocError>
        ensures room { OnOk result (0 < self.new.room) }
        ensures same { self.new ≡ record self.old { room = self.new.room } }
    {
        if self.members.len() >= MAX_GROUPS {
            return Err(AllocError);
        }
        self.members.reserve(1)
    }

    /// Adds a group without pages. [`Pages::reserve_group`] reserved its memory.
    pub fn add_group(&mut self)
        requires { 0 < self.old.room }
        ensures { self.new ≡ record self.old { groups = self.old.groups + 1; room = self.new.room } }
    {
        self.members.add(1);
    }

    /// Makes a page in the frame, with zeros except for one byte. A number is free for it. Allocates no memory.
    pub fn hold(&mut self, mut frame: Frame, charge: Charge, offset: usize, byte: u8) -> PageId
        requires room { pages_there self.old.pages < self.old.numbers }
        requires group { charge < self.old.groups }
        requires unused { is_frame_taken self.old.pages frame.number ≡ false }
        requires framed { frame.number < self.old.frames }
        requires within { offset < page_size }
        ensures within { result.0 < self.old.numbers }
        ensures free { page_at self.old.pages result.0 ≡ None }
        ensures placed { Changes self.old.pages self.new.pages result.0 (Some (new_page charge frame.number)) }
        ensures bytes { (q o : ℕ) → byte_in self.new.bytes q o
            ≡ (if q == result.0 then (if offset == o then byte else 0) else byte_in self.old.bytes q o) }
        ensures others { self.new ≡ record self.old { pages = self.new.pages; bytes = self.new.bytes } }
    {
        set_zeros_but(&mut frame, offset, byte);
        self.insert(frame, charge)
    }

    /// Makes a page in the frame, with the bytes of a page that is in a frame except for one byte (kernel:
    /// `wp_page_copy`). A number is free for it. Allocates no memory.
    pub fn copy(
        &mut self,
        mut frame: Frame,
        charge: Charge,
        offset: usize,
        byte: u8,
        from: PageId,
    ) -> PageId
        requires room { pages_there self.old.pages < self.old.numbers }
        requires group { charge < self.old.groups }
        requires unused { is_frame_taken self.old.pages frame.number ≡ false }
        requires framed { frame.number < self.old.frames }
        requires within { offset < page_size }
        requires held { is_held_in self.old.pages from.0 ≡ true }
        ensures within { result.0 < self.old.numbers }
        ensures free { page_at self.old.pages result.0 ≡ None }
        ensures placed { Changes self.old.pages self.new.pages result.0 (Some (new_page charge frame.number)) }
        ensures bytes { (q o : ℕ) → byte_in self.new.bytes q o
            ≡ (if q == result.0 then (if offset == o then byte else byte_in self.old.bytes from.0 o) else byte_in self.old.bytes q o) }
        ensures others { self.new ≡ record self.old { pages = self.new.pages; bytes = self.new.bytes } }
    {
        set_bytes_but(&mut frame, bytes_at(&self.owned, from), offset, byte);
        self.insert(frame, charge)
    }

    /// Makes a page in the frame, with the bytes that the frame has. A number is free for it. Allocates no memory.
    fn insert(&mut self, frame: Frame, charge: Charge) -> PageId
        requires room { pages_there self.old.pages < self.old.numbers }
        requires group { charge < self.old.groups }
        requires unused { is_frame_taken self.old.pages frame.number ≡ false }
        requires framed { frame.number < self.old.frames }
        ensures within { result.0 < self.old.numbers }
        ensures free { page_at self.old.pages result.0 ≡ None }
        ensures placed { Changes self.old.pages self.new.pages result.0 (Some (new_page charge frame.number)) }
        ensures bytes { (q o : ℕ) → byte_in self.new.bytes q o ≡ (if q == result.0 then slice_index frame.bytes o else byte_in self.old.bytes q o) }
        ensures others { self.new ≡ record self.old { pages = self.new.pages; bytes = self.new.bytes } }
    {
        let page = PageId(self.numbers.insert_reserved(()) as u32);
        note(&mut self.by_frame, frame.number(), page);
        let group = charge.group();
        let owned = OwnedPage {
            content: Content::Memory,
            place: Place::Frame { frame, charge },
        };
        place(&mut self.owned, page, owned);
        self.members.push_back(ListId(group.0), page);
        page
    }

    /// The group that the page belongs to, if the page exists.
    pub fn group(&self, page: PageId) -> Option<GroupId>
        ensures group { option_map (λ g. g.0) result ≡ option_map (λ page. page.group) (page_at self.now.pages page.0) }
    {
        match owned_at(&self.owned, page) {
            Some(owned) => Some(group_of(owned)),
            None => None,
        }
    }

    /// Where the page is, if it exists.
    pub fn residence(&self, page: PageId) -> Option<Residence>
        ensures residence { result ≡ option_map (λ page. residence_of page.residence) (page_at self.now.pages page.0) }
    {
        match owned_at(&self.owned, page) {
            Some(owned) => Some(residence_of(owned)),
            None => None,
        }
    }

    /// The type of the page, if it exists.
    pub fn kind(&self, page: PageId) -> Option<Kind>
        ensures { result ≡ option_map (λ page. kind_at page.content) (page_at self.now.pages page.0) }
    {
        match owned_at(&self.owned, page) {
            Some(owned) => Some(owned.content.kind()),
            None => None,
        }
    }

    /// The page that holds this page of the file, if there is one (kernel: filemap_get_folio). The file has this page.
    pub fn cached(&self, file: u32, page: u32) -> Option<PageId>
        requires { page < slice_index self.now.files.sizes file }
        ensures { option_map (λ page. page.0) result ≡ file_page self.now.pages file page }
    {
        self.cache[home_place(&self.files, file, page)]
    }

    /// The page that is held in the frame with this number, if there is one (kernel: pfn_folio). A page in transfer is
    /// not held, and no other page is held in its frame.
    pub fn holder(&self, frame: usize) -> Option<PageId>
        ensures holder { option_map (λ page. page.0) result ≡ frame_holder self.now.pages frame }
        ensures alone { (p : ℕ) → is_number (option_map (λ page. page.0) result) p ≡ there_and (is_held_frame frame) (page_at self.now.pages p) }
        ensures within { IfSome result (λ page. page.0 < self.now.numbers) }
    {
        self.are_numbered();
        self.find_holder(frame)
    }

    fn find_holder(&self, frame: usize) -> Option<PageId>
        ensures holder { option_map (λ page. page.0) result ≡ frame_holder self.now.pages frame }
        ensures alone { (p : ℕ) → is_number (option_map (λ page. page.0) result) p ≡ there_and (is_held_frame frame) (page_at self.now.pages p) }
    {
        match told_at(&self.by_frame, frame) {
            Some(page) => {
                if is_in_frame(&self.owned, page, frame) {
                    Some(page)
                } else {
                    None
                }
            }
            None => None,
        }
    }

    /// How the page, which is in a frame, would leave it.
    pub fn way_out(&self, page: PageId) -> WayOut
        requires { is_held_in self.now.pages page.0 ≡ true }
        ensures { (label : Label) (residence : PageResidence) → HasResidence self.now.pages page.0 label residence → result ≡ way_of label.content label.dirty }
    {
        match owned_at(&self.owned, page) {
            Some(owned) => owned.content.way_out(),
            None => unreachable!(),
        }
    }

    /// A page of the group. `None` if it has none.
    pub fn first_of(&self, group: GroupId) -> Option<PageId>
        requires { group.0 < self.now.groups }
        ensures some { IfSome result (λ page. (label : Label) × (r : PageResidence) × HasResidence self.now.pages page.0 label r × (label.group ≡ group.0)) }
        ensures none { result ≡ None → (p : ℕ) (label : Label) (r : PageResidence) → HasResidence self.now.pages p label r → label.group ≢ group.0 }
    {
        self.members.front(ListId(group.0))
    }

    /// A byte of a page in a frame.
    pub fn read(&self, page: PageId, offset: usize) -> u8
        requires held { is_held_in self.now.pages page.0 ≡ true }
        requires within { offset < page_size }
        ensures { result ≡ byte_in self.now.bytes page.0 offset }
    {
        match owned_at(&self.owned, page) {
            Some(owned) => read_at(owned, offset),
            None => unreachable!(),
        }
    }

    /// Changes a byte of a page in a frame. A page of a file is dirty from then on (kernel:
    /// folio_mark_dirty).
    pub fn write(&mut self, page: PageId, offset: usize, byte: u8)
        requires held { is_held_in self.old.pages page.0 ≡ true }
        requires within { offset < page_size }
        ensures bytes { (q o : ℕ) → byte_in self.new.bytes q o
            ≡ (if (q == page.0) && (offset == o) then byte else byte_in self.old.bytes q o) }
        ensures placed { (x : Page) → page_at self.old.pages page.0 ≡ Some x → Changes self.old.pages self.new.pages page.0 (Some (touched x (Write byte))) }
        ensures others { self.new ≡ record self.old { pages = self.new.pages; bytes = self.new.bytes } }
    {
        write_at(&mut self.owned[page.0 as usize], offset, byte);
    }

    /// Begins to read what the source names from its block into the frame. Memory is read from its slot, and becomes a
    /// page of the group that is charged. A page of a file is read from its home block, under a page number that is free
    /// for it. The owner of the ticket reads the block. Allocates no memory: the buffer is the caller's.
    pub fn start_in(
        &mut self,
        from: Source,
        frame: Frame,
        charge: Charge,
        buffer: Box<[u8; FRAME_BYTES]>,
    ) -> (PageId, InTicket)
        requires readable { IsReadable self.old.pages self.old.files from }
        requires room { is_new from ≡ true → pages_there self.old.pages < self.old.numbers }
        requires group { charge < self.old.groups }
        requires unused { is_frame_taken self.old.pages frame.number ≡ false }
        requires framed { frame.number < self.old.frames }
        requires tickets { 0 < self.old.tickets }
        ensures { StartsFrom self.old self.new from charge result.0.0 frame.number result.1 }
    {
        match from {
            Source::Swapped(page) => (page, self.start_memory(page, frame, charge, buffer)),
            Source::File(at) => self.start_file(at, frame, charge, buffer),
        }
    }

    fn start_memory(
        &mut self,
        page: PageId,
        frame: Frame,
        charge: Charge,
        buffer: Box<[u8; FRAME_BYTES]>,
    ) -> InTicket
        requires away { (g block : ℕ) × HasResidence self.old.pages page.0 (memory_of g) (Away block) }
        requires group { charge < self.old.groups }
        requires room { 0 < self.old.tickets }
        requires unused { is_frame_taken self.old.pages frame.number ≡ false }
        requires framed { frame.number < self.old.frames }
        ensures { (g block : ℕ) → HasResidence self.old.pages page.0 (memory_of g) (Away block) → StartsIn self.old self.new page.0 (memory_of charge) frame.number block result }
    {
        note(&mut self.by_frame, frame.number(), page);
        let group = charge.group();
        let slot = into_away(take_at(&mut self.owned, page));
        let block = slot.block();
        let (ticket, coming) = begin(
            &mut self.flights,
            page,
            Direction::In,
            Content::Memory,
            frame,
            charge,
            Backing::Swap(slot),
        );
        place(&mut self.owned, page, coming);
        self.members.remove(page);
        self.members.push_back(ListId(group.0), page);
        InTicket::new(ticket, block, buffer)
    }

    fn start_file(
        &mut self,
        at: FilePage,
        frame: Frame,
        charge: Charge,
        buffer: Box<[u8; FRAME_BYTES]>,
    ) -> (PageId, InTicket)
        requires inside { at.page < slice_index self.old.files.sizes at.file }
        requires none { file_page self.old.pages at.file at.page ≡ None }
        requires room { pages_there self.old.pages < self.old.numbers }
        requires group { charge < self.old.groups }
        requires unused { is_frame_taken self.old.pages frame.number ≡ false }
        requires framed { frame.number < self.old.frames }
        requires tickets { 0 < self.old.tickets }
        ensures within { result.0.0 < self.old.numbers }
        ensures free { page_at self.old.pages result.0.0 ≡ None }
        ensures starts { StartsIn self.old self.new result.0.0 (of_file at.file at.page charge false) frame.number
            (home_block self.old.files.first self.old.files.sizes at.file at.page) result.1 }
    {
        let index = home_place(&self.files, at.file, at.page);
        let block = home(&self.files, at.file, at.page);
        let page = PageId(self.numbers.insert_reserved(()) as u32);
        note(&mut self.by_frame, frame.number(), page);
        let group = charge.group();
        let (ticket, coming) = begin(
            &mut self.flights,
            page,
            Direction::In,
            Content::OfFile { at, dirty: false },
            frame,
            charge,
            Backing::Home(block),
        );
        place(&mut self.owned, page, coming);
        self.members.push_back(ListId(group.0), page);
        self.cache[index] = Some(page);
        let ticket = InTicket::new(ticket, block, buffer);
        (page, ticket)
    }

    /// Begins to write out the page, which is in a frame. Memory is written to the slot. A dirty page of a file is
    /// written to its home block, without a slot. The ticket has a copy of its bytes in the spare. Allocates no memory.
    pub fn start_out(&mut self, page: PageId, slot: Option<Slot>, mut spare: Spare) -> OutTicket
        requires held { (label : Label) × (f : ℕ) × HasResidence self.old.pages page.0 label (Held f) × LeavesBy label.content label.dirty slot }
        requires room { 0 < self.old.tickets }
        ensures { (label : Label) (f : ℕ) → HasResidence self.old.pages page.0 label (Held f) → StartsOut self.old self.new page.0 label f (block_for self.old.files label.content slot) result }
    {
        let (frame, charge, content) = into_held(take_at(&mut self.owned, page));
        spare.fill(frame.bytes());
        let backing = backing_for(&self.files, content, slot);
        let block = backing.block();
        let (ticket, going) = begin(
            &mut self.flights,
            page,
            Direction::Out,
            content,
            frame,
            charge,
            backing,
        );
        place(&mut self.owned, page, going);
        OutTicket::new(ticket, block, spare)
    }

    /// The transfer with this ticket's number, if it is in flight.
    pub fn flight(&self, ticket: TicketId) -> Option<Flight>
        ensures flight { result ≡ at self.now.flights ticket.0 }
        ensures moves { IfSome result (λ flight. IsInTransfer self.now.pages ticket.0 flight) }
        ensures flying { (d : Direction) → is_in_flight d self.now.pages ticket.0 ≡ is_flight_to d result }
    {
        self.flights.get(ticket.0 as usize).copied()
    }

    /// Gives the page that is being read in under the ticket the bytes that the ticket read. Allocates no memory.
    pub fn fill(&mut self, page: PageId, ticket: &InTicket)
        requires { (label : Label) × (f b : ℕ) × HasResidence self.old.pages page.0 label (Coming f b ticket.now.number) }
        ensures bytes { (q o : ℕ) → byte_in self.new.bytes q o ≡ (if q == page.0 then slice_index ticket.now.bytes o else byte_in self.old.bytes q o) }
        ensures others { self.new ≡ record self.old { bytes = self.new.bytes } }
    {
        fill_at(&mut self.owned[page.0 as usize], ticket.read());
    }

    /// Ends the transfer of the page under the ticket, and spends the ticket. The page is then in its frame or on its
    /// block; a page of a file on its block no longer exists. Returns what the page no longer owns, and what the ticket
    /// carried. Allocates no memory.
    pub fn settle<B: Carries>(&mut self, page: PageId, ticket: Ticket<B>, end: End) -> Settled<B>
        requires { (d : Direction) × (label : Label) × (f b : ℕ) × HasResidence self.old.pages page.0 label (moving d f b ticket.number) }
        ensures ends { (d : Direction) (label : Label) (f b : ℕ) → HasResidence self.old.pages page.0 label (moving d f b ticket.number) → Ends self.old self.new page.0 label f b ticket.number end }
        ensures freed { (d : Direction) (label : Label) (f b : ℕ) → HasResidence self.old.pages page.0 label (moving d f b ticket.number) → IsFreed label f b end result.freed }
        ensures label { (d : Direction) (label : Label) (f b : ℕ) → HasResidence self.old.pages page.0 label (moving d f b ticket.number) → (result.group.0 ≡ label.group) × (result.kind ≡ kind_at label.content) }
        ensures carried { B.bytes result.carried ≡ ticket.bytes }
    {
        unlist(&mut self.flights, ticket.number());
        let (frame, charge, backing, content) = into_moving(take_at(&mut self.owned, page));
        let group = charge.group();
        let (owned, freed) = divide(frame, charge, backing, content, end);
        land(
            &mut self.numbers,
            &mut self.owned,
            &mut self.members,
            &mut self.cache,
            &self.files,
            page,
            content.file(),
            owned,
        );
        Settled {
            group,
            kind: content.kind(),
            freed,
            carried: ticket.into_carried(),
        }
    }

    /// Moves the page of a group that is removed, and its charge if it has one, to the parent of the group (kernel: a
    /// removed memory cgroup's charges become its parent's). By Linux's placement a page that is only on its block moves
    /// to the root. Allocates no memory.
    pub fn reparent(
        &mut self,
        counters: &mut Counters,
        page: PageId,
        parent: GroupId,
        placement: Placement,
    )
        requires there { (x : Page) × (page_at self.old.pages page.0 ≡ Some x) × ((node_at counters.old.tree x.group).parent ≡ Some parent.0) × (has_frame x ≡ true → IsOut counters.old x.group) }
        requires parent { parent.0 < self.old.groups }
        ensures moved { (x : Page) → page_at self.old.pages page.0 ≡ Some x → Changes self.old.pages self.new.pages page.0 (Some (record x { group = heir placement parent.0 x.residence })) }
        ensures charged { (x : Page) → page_at self.old.pages page.0 ≡ Some x → has_frame x ≡ true → MovesUp counters.old counters.new x.group }
        ensures uncharged { (x : Page) → page_at self.old.pages page.0 ≡ Some x → has_frame x ≡ false → counters.new ≡ counters.old }
        ensures groups { SameGroups counters.old counters.new }
        ensures bytes { (q o : ℕ) → byte_in self.new.bytes q o ≡ byte_in self.old.bytes q o }
        ensures others { self.new ≡ record self.old { pages = self.new.pages; bytes = self.new.bytes } }
    {
        let owned = take_at(&mut self.owned, page);
        let moved = regrouped(owned, parent, placement, counters);
        let group = group_of(&moved);
        place(&mut self.owned, page, moved);
        self.members.remove(page);
        self.members.push_back(ListId(group.0), page);
    }

    /// Removes the page and returns what it owned, which the caller must give back. The page is not in transfer.
    /// Allocates no memory.
    pub fn drop_page(&mut self, page: PageId) -> OwnedPage
        requires there { IsSome (page_at self.old.pages page.0) }
        requires settled { is_moving_in self.old.pages page.0 ≡ false }
        ensures gone { Changes self.old.pages self.new.pages page.0 None }
        ensures bytes { (q o : ℕ) → byte_in self.new.bytes q o ≡ (if q == page.0 then 0 else byte_in self.old.bytes q o) }
        ensures owned { page_at self.old.pages page.0 ≡ Some (page_of result) }
        ensures others { self.new ≡ record self.old { pages = self.new.pages; bytes = self.new.bytes } }
    {
        let owned = take_at(&mut self.owned, page);
        leave(
            &mut self.numbers,
            &mut self.members,
            &mut self.cache,
            &self.files,
            page,
            owned.content.file(),
        );
        owned
    }

    /// Does nothing. The contract states what holds of all pages.
    pub fn are_in_flight(&self)
        ensures { AreInFlight self.now.pages self.now.flights }
    {
        let _ = &self.flights;
    }

    /// Does nothing. The contract states what holds of pages of files.
    pub fn are_filed(&self)
        ensures { AreFiled self.now.files self.now.pages }
    {
        let _ = &self.files;
    }

    /// Does nothing. The contract states that the number of each page is below [`Pages::numbers`].
    pub fn are_numbered(&self)
        ensures { (p : ℕ) → IfSome (page_at self.now.pages p) (λ page. p < self.now.numbers) }
    {
        let _ = &self.owned;
    }

    /// Spends the pages. Returns what they own, by page number.
    pub fn into_owned(self) -> Vec<Option<OwnedPage>>
        ensures { map (option_map page_of) result.items ≡ self.pages }
    {
        let Pages {
            numbers: _,
            owned,
            flights: _,
            members: _,
            files: _,
            cache: _,
            by_frame: _,
        } = self;
        owned
    }
}
