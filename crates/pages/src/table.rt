//! The places of pages by their numbers, the numbers of pages and of transfers, and the groups' lists.

ghost use Rattle.std.specs.Prelude.{◌≡◌, ℕ, ◌+◌, ◌-◌, ◌<◌, sum, Bool, ◌≤◌, ◌==◌, ◌∷◌, [], Option, Some, None, is_some, true, false, IsSome, IfSome, IfOk, map, option_map, option_copied, length, slice_index, vec_len, vec_capacity, if◌then◌else◌};
ghost use Rattle.slab.specs.Slab.{slab_len, HasRoomFor, ContainsKey, Updates};
ghost use Rattle.rings.specs.Rings.{is_listed, without};
ghost use Rattle.machine.specs.Slots.{at, there_and, Changes};
ghost use Rattle.machine.specs.Pages.{Coming, in_transfer_at, is_held, is_held_at, has_frame, frame_at, block_at, home_block};
ghost use Rattle.machine.specs.declared.record.Direction.{Direction as Direction_of};
ghost use Rattle.machine.specs.Tree.{node_at};
ghost use Rattle.page_counter.specs.Counts.{IsOut, MovesUp, SameGroups};
ghost use Rattle.machine.specs.Access.{page_size};
ghost use Rattle.pages.specs.PagesOf as pages;
ghost use Rattle.pages.specs.PagesOf.{is_held_frame, Label, labelled, flight};
ghost use Rattle.pages.specs.Transfers.{page_after, IsFreed, LeavesBy, block_for};
ghost use Rattle.pages.specs.declared.end.End.TheVariants as end_of;
ghost use Rattle.pages.specs.declared.owned_page.Content.{Content as Content_of};
ghost use Rattle.pages.specs.Backed.{is_backing_of, is_backed};
ghost use Rattle.pages.specs.Records.{page_of, bytes_of, bytes_at, content_of, is_dirty, label_holding, group_at, residence_at, block_of, file_at, place_in, WritesByte};
ghost use Rattle.machine.specs.Lists.{kind_at};
ghost use Rattle.machine.specs.Step.{heir, touched};
ghost use Rattle.machine.specs.declared.event.Op.TheVariants.{Write};
ghost use Rattle.pages.specs.declared.owned_page.FilePage.{FilePage as FilePage_of};

use crate::end::{End, Freed};
use crate::flight::Flight;
use crate::owned_page::{Backing, Content, FilePage, OwnedPage, Place};
use crate::residence::Residence;
use crate::way::WayOut;
use block_store::Slot;
use files::Files;
use frames::{FRAME_BYTES, Frame};
use machine::config::Placement;
use machine::id::{FrameId, GroupId, PageId, TicketId};
use machine::record::{Direction, Kind};
use page_counter::{Charge, Counters};
use rings::Rings;
use slab::Slab;
use std::alloc::{AllocError, Global};
use std::mem;

/// What a page owns, if it exists.
pub(crate) fn owned_at(slots: &[Option<OwnedPage>], page: PageId) -> Option<&OwnedPage>
    ensures { option_copied result ≡ at slots.now page.0 }
{
    match slots.get(page.0 as usize) {
        Some(Some(owned)) => Some(owned),
        _ => None,
    }
}

/// The group that the page belongs to.
pub(crate) fn group_of(owned: &OwnedPage) -> GroupId
    ensures { result.0 ≡ (page_of owned.now).group }
{
    match &owned.place {
        Place::Frame { charge, .. } => charge.group(),
        Place::Moving { charge, .. } => charge.group(),
        Place::Away { group, .. } => *group,
    }
}

/// Where the page is.
pub(crate) fn residence_of(owned: &OwnedPage) -> Residence
    ensures { result ≡ pages.residence_of (page_of owned.now).residence }
{
    match &owned.place {
        Place::Frame { frame, .. } => Residence::Held(frame.number()),
        Place::Moving { direction, .. } => moving_residence(*direction),
        Place::Away { slot, .. } => Residence::Away(slot.block()),
    }
}

/// Where a page in transfer in this direction is.
fn moving_residence(direction: Direction) -> Residence
    ensures { (f b n : ℕ) → result ≡ pages.residence_of (pages.moving direction f b n) }
{
    match direction {
        Direction::In => Residence::Coming,
        Direction::Out => Residence::Going,
    }
}

/// A byte of a page in a frame.
pub(crate) fn read_at(owned: &OwnedPage, offset: usize) -> u8
    requires held { is_held (page_of owned.now) ≡ true }
    requires within { offset < page_size }
    ensures { result ≡ slice_index (bytes_of owned.now) offset }
{
    match &owned.place {
        Place::Frame { frame, .. } => frame.read(offset),
        _ => unreachable!(),
    }
}

/// All bytes of a page in a frame.
pub(crate) fn bytes_at(slots: &[Option<OwnedPage>], page: PageId) -> &[u8; FRAME_BYTES]
    requires { there_and is_held (option_map page_of (at slots.now page.0)) ≡ true }
    ensures { option_map bytes_of (at slots.now page.0) ≡ Some result.now }
{
    match owned_at(slots, page) {
        Some(owned) => frame_bytes(&owned.place),
        None => unreachable!(),
    }
}

fn frame_bytes(place: &Place) -> &[u8; FRAME_BYTES]
    requires { is_held_at (residence_at place.now) ≡ true }
    ensures { bytes_at place.now ≡ result.now }
{
    match place {
        Place::Frame { frame, .. } => frame.bytes(),
        _ => unreachable!(),
    }
}

/// Changes a byte of an existing page in a frame. A page of a file is dirty then.
pub(crate) fn write_at(slot: &mut Option<OwnedPage>, offset: usize, byte: u8)
    requires held { there_and is_held (option_map page_of slot.old) ≡ true }
    requires within { offset < page_size }
    ensures page { option_map page_of slot.new ≡ option_map (λ page. touched page (Write byte)) (option_map page_of slot.old) }
    ensures bytes { WritesByte (option_map bytes_of slot.old) (option_map bytes_of slot.new) offset byte }
{
    match slot {
        Some(owned) => write_in(owned, offset, byte),
        None => unreachable!(),
    }
}

/// The same, for what a page in a frame owns.
fn write_in(owned: &mut OwnedPage, offset: usize, byte: u8)
    requires held { is_held (page_of owned.old) ≡ true }
    requires within { offset < page_size }
    ensures page { page_of owned.new ≡ touched (page_of owned.old) (Write byte) }
    ensures bytes { WritesByte (Some (bytes_of owned.old)) (Some (bytes_of owned.new)) offset byte }
{
    match &mut owned.place {
        Place::Frame { frame, .. } => frame.write(offset, byte),
        _ => unreachable!(),
    }
    owned.content.make_dirty();
}

/// Replaces all bytes of the page that is being read in here.
pub(crate) fn fill_at(slot: &mut Option<OwnedPage>, bytes: &[u8; FRAME_BYTES])
    requires { (label : Label) × (f b n : ℕ) × (option_map page_of slot.old ≡ Some (labelled label (Coming f b n))) }
    ensures page { option_map page_of slot.new ≡ option_map page_of slot.old }
    ensures bytes { option_map bytes_of slot.new ≡ Some bytes.now }
{
    match slot {
        Some(owned) => fill_in(&mut owned.place, bytes),
        None => unreachable!(),
    }
}

/// The same, for the place of the page.
fn fill_in(place: &mut Place, bytes: &[u8; FRAME_BYTES])
    requires { in_transfer_at (residence_at place.old) ≡ true }
    ensures residence { residence_at place.new ≡ residence_at place.old }
    ensures group { group_at place.new ≡ group_at place.old }
    ensures backed { (content : Content_of) → is_backed content place.new ≡ is_backed content place.old }
    ensures bytes { bytes_at place.new ≡ bytes.now }
{
    match place {
        Place::Moving { frame, .. } => frame.fill(bytes),
        _ => unreachable!(),
    }
}

/// Replaces all bytes except one by zeros.
#[tactic(auto, using(crate::proofs::TableLemmas::zeros_but))]
pub(crate) fn set_zeros_but(frame: &mut Frame, offset: usize, byte: u8)
    requires { offset < page_size }
    ensures bytes { (o : ℕ) → slice_index frame.new.bytes o ≡ (if offset == o then byte else 0) }
    ensures number { frame.new.number ≡ frame.old.number }
{
    frame.clear();
    frame.write(offset, byte);
}

/// Replaces all bytes except one by these bytes.
#[tactic(auto, using(crate::proofs::TableLemmas::but_one))]
pub(crate) fn set_bytes_but(frame: &mut Frame, bytes: &[u8; FRAME_BYTES], offset: usize, byte: u8)
    requires { offset < page_size }
    ensures bytes { (o : ℕ) → slice_index frame.new.bytes o ≡ (if offset == o then byte else slice_index bytes.now o) }
    ensures number { frame.new.number ≡ frame.old.number }
{
    frame.fill(bytes);
    frame.write(offset, byte);
}

/// Takes out what a page owns.
pub(crate) fn take_at(slots: &mut Vec<Option<OwnedPage>>, page: PageId) -> OwnedPage
    requires { IsSome (at slots.old.items page.0) }
    ensures owned { at slots.old.items page.0 ≡ Some result }
    ensures gone { Changes slots.old.items slots.new.items page.0 None }
    ensures capacity { vec_capacity slots.new ≡ vec_capacity slots.old }
{
    slots[page.0 as usize].take().unwrap()
}

/// Stores what a page owns at its number, which is empty.
pub(crate) fn place(slots: &mut Vec<Option<OwnedPage>>, page: PageId, owned: OwnedPage)
    requires vacant { at slots.old.items page.0 ≡ None }
    requires room { page.0 < vec_capacity slots.old }
    ensures placed { Changes slots.old.items slots.new.items page.0 (Some owned) }
    ensures capacity { vec_capacity slots.new ≡ vec_capacity slots.old }
{
    let number = page.0 as usize;
    reach(slots, number);
    match mem::replace(&mut slots[number], Some(owned)) {
        None => {}
        Some(_) => unreachable!(),
    }
}

/// Adds empty places until there is one for the number.
fn reach(slots: &mut Vec<Option<OwnedPage>>, number: usize)
    requires { number < vec_capacity slots.old }
    ensures same { (n : ℕ) → at slots.new.items n ≡ at slots.old.items n }
    ensures within { number < vec_len slots.new }
    ensures capacity { vec_capacity slots.new ≡ vec_capacity slots.old }
{
    while slots.len() <= number {
        slots.push_reserved(None);
    }
}

/// What a page in a frame owns, and its content.
pub(crate) fn into_held(owned: OwnedPage) -> (Frame, Charge, Content)
    requires { is_held_at (page_of owned).residence ≡ true }
    ensures frame { frame_at (page_of owned).residence ≡ Some result.0.number }
    ensures bytes { bytes_of owned ≡ result.0.bytes }
    ensures group { (page_of owned).group ≡ result.1 }
    ensures content { owned.content ≡ result.2 }
{
    let OwnedPage { content, place } = owned;
    match place {
        Place::Frame { frame, charge } => (frame, charge, content),
        _ => unreachable!(),
    }
}

/// What a page in transfer owns, and its content.
pub(crate) fn into_moving(owned: OwnedPage) -> (Frame, Charge, Backing, Content)
    requires { in_transfer_at (page_of owned).residence ≡ true }
    ensures frame { frame_at (page_of owned).residence ≡ Some result.0.number }
    ensures bytes { bytes_of owned ≡ result.0.bytes }
    ensures group { (page_of owned).group ≡ result.1 }
    ensures block { block_at (page_of owned).residence ≡ Some (block_of result.2) }
    ensures content { owned.content ≡ result.3 }
    ensures backed { is_backing_of result.3 result.2 ≡ true }
{
    let OwnedPage { content, place } = owned;
    match place {
        Place::Moving {
            frame,
            charge,
            direction: _,
            backing,
            ticket: _,
        } => (frame, charge, backing, content),
        _ => unreachable!(),
    }
}

/// What a page owns after its transfer, if it still exists, and what it no longer owns.
pub(crate) fn divide(
    frame: Frame,
    charge: Charge,
    backing: Backing,
    content: Content,
    end: End,
) -> (Option<OwnedPage>, Freed)
    requires { is_backing_of content backing ≡ true }
    ensures page { option_map page_of result.0 ≡ page_after end (label_holding content charge) frame.number (block_of backing) }
    ensures bytes { end ≡ end_of.InFrame → option_map bytes_of result.0 ≡ Some frame.bytes }
    ensures freed { IsFreed (label_holding content charge) frame.number (block_of backing) end result.1 }
{
    match end {
        End::InFrame => {
            let place = Place::Frame { frame, charge };
            (Some(OwnedPage { content, place }), freed_backing(backing))
        }
        End::OnBlock => {
            let group = charge.group();
            (left_on(content, group, backing), Freed::Room(frame, charge))
        }
    }
}

/// The part of its source that a page in its frame no longer owns.
fn freed_backing(backing: Backing) -> Freed
    ensures { (content : Content_of) (g f : ℕ) → is_backing_of content backing ≡ true → IsFreed (label_holding content g) f (block_of backing) end_of.InFrame result }
{
    match backing {
        Backing::Swap(slot) => Freed::Slot(slot),
        Backing::Home(_) => Freed::Nothing,
    }
}

/// What a page out of its frame owns. A page of a file no longer exists.
fn left_on(content: Content, group: GroupId, backing: Backing) -> Option<OwnedPage>
    requires { is_backing_of content backing ≡ true }
    ensures { (f : ℕ) → option_map page_of result ≡ page_after end_of.OnBlock (label_holding content group.0) f (block_of backing) }
{
    match backing {
        Backing::Swap(slot) => Some(OwnedPage {
            content,
            place: Place::Away { group, slot },
        }),
        Backing::Home(_) => None,
    }
}

/// The block that a page is written to when it leaves its frame: the slot, or its home.
pub(crate) fn backing_for(files: &Files, content: Content, slot: Option<Slot>) -> Backing
    requires by { LeavesBy (content_of content) (is_dirty content) slot }
    requires inside { IfSome (file_at (content_of content)) (λ a. a.page < slice_index files.now.sizes a.file) }
    ensures backed { is_backing_of content result ≡ true }
    ensures block { block_of result ≡ block_for files.now (content_of content) slot }
{
    match slot {
        Some(slot) => Backing::Swap(slot),
        None => Backing::Home(home_of(files, content)),
    }
}

/// The home block of a content that is a page of a file.
fn home_of(files: &Files, content: Content) -> u32
    requires file { is_some (file_at (content_of content)) ≡ true }
    requires inside { IfSome (file_at (content_of content)) (λ a. a.page < slice_index files.now.sizes a.file) }
    ensures { (slot : Option ℕ) → result ≡ block_for files.now (content_of content) slot }
{
    match content {
        Content::OfFile { at, .. } => home(files, at.file, at.page),
        Content::Memory => unreachable!(),
    }
}

/// What a page that is only on its block owns.
pub(crate) fn into_away(owned: OwnedPage) -> Slot
    requires { frame_at (page_of owned).residence ≡ None }
    ensures { block_at (page_of owned).residence ≡ Some result }
{
    let OwnedPage { content: _, place } = owned;
    match place {
        Place::Away { group: _, slot } => slot,
        _ => unreachable!(),
    }
}

/// What the page owns after the removal of its group, which is below the parent: its charge, if it has one, is the
/// parent's.
pub(crate) fn regrouped(
    owned: OwnedPage,
    parent: GroupId,
    placement: Placement,
    counters: &mut Counters,
) -> OwnedPage
    requires below { (node_at counters.old.tree (page_of owned).group).parent ≡ Some parent.0 }
    requires out { has_frame (page_of owned) ≡ true → IsOut counters.old (page_of owned).group }
    ensures page { page_of result ≡ record (page_of owned) { group = heir placement parent.0 (page_of owned).residence } }
    ensures bytes { bytes_of result ≡ bytes_of owned }
    ensures charged { has_frame (page_of owned) ≡ true → MovesUp counters.old counters.new (page_of owned).group }
    ensures uncharged { has_frame (page_of owned) ≡ false → counters.new ≡ counters.old }
    ensures groups { SameGroups counters.old counters.new }
{
    let OwnedPage { content, place } = owned;
    let place = moved_up(place, parent, placement, counters);
    OwnedPage { content, place }
}

/// The same, for the place of the page.
fn moved_up(place: Place, parent: GroupId, placement: Placement, counters: &mut Counters) -> Place
    requires below { (node_at counters.old.tree (group_at place)).parent ≡ Some parent.0 }
    requires out { is_some (frame_at (residence_at place)) ≡ true → IsOut counters.old (group_at place) }
    ensures group { group_at result ≡ heir placement parent.0 (residence_at place) }
    ensures residence { residence_at result ≡ residence_at place }
    ensures bytes { bytes_at result ≡ bytes_at place }
    ensures backed { (content : Content_of) → is_backed content result ≡ is_backed content place }
    ensures charged { is_some (frame_at (residence_at place)) ≡ true → MovesUp counters.old counters.new (group_at place) }
    ensures uncharged { is_some (frame_at (residence_at place)) ≡ false → counters.new ≡ counters.old }
    ensures groups { SameGroups counters.old counters.new }
{
    match place {
        Place::Frame { frame, charge } => Place::Frame {
            frame,
            charge: counters.reparent(charge),
        },
        Place::Moving {
            frame,
            charge,
            direction,
            backing,
            ticket,
        } => Place::Moving {
            frame,
            charge: counters.reparent(charge),
            direction,
            backing,
            ticket,
        },
        Place::Away { group: _, slot } => Place::Away {
            group: placement.heir_of_swapped(parent),
            slot,
        },
    }
}

/// Memory for this many numbers. `AllocError` if memory runs out.
pub(crate) fn open_numbers<T: Drop>(alloc: Global, many: u32) -> Result<Slab<T>, AllocError>
    ensures empty { IfOk result (λ s. s.slots ≡ []) }
    ensures many { IfOk result (λ s. s.capacity ≡ many) }
{
    let slab = Slab::with_capacity(alloc, many as usize)?;
    if slab.capacity() != many as usize {
        return Err(AllocError);
    }
    Ok(slab)
}

/// The empty list of the root's pages, and links for this many page numbers. `AllocError` if there is no
/// memory, or if there are 2^31 page numbers or more.
pub(crate) fn open_members(alloc: Global, numbers: u32) -> Result<Rings, AllocError>
    ensures lists { IfOk result (λ r. r.lists ≡ [] ∷ []) }
    ensures numbers { IfOk result (λ r. r.numbers ≡ numbers) }
{
    let mut members = Rings::open(alloc, numbers)?;
    members.reserve(1)?;
    members.add(1);
    Ok(members)
}

/// Begins the page's transfer in this direction, from or to this block, under a ticket that was free.
/// Returns the ticket, and what the page owns from now on.
pub(crate) fn begin(
    flights: &mut Slab<Flight>,
    page: PageId,
    direction: Direction,
    content: Content,
    frame: Frame,
    charge: Charge,
    backing: Backing,
) -> (TicketId, OwnedPage)
    requires room { HasRoomFor flights.old 1 }
    requires countable { flights.old.capacity ≤ u32.MAX }
    requires backed { is_backing_of content backing ≡ true }
    ensures free { at flights.old.slots result.0.0 ≡ None }
    ensures listed { Changes flights.old.slots flights.new.slots result.0.0 (Some (flight page.0 direction)) }
    ensures len { slab_len flights.new ≡ slab_len flights.old + 1 }
    ensures capacity { flights.new.capacity ≡ flights.old.capacity }
    ensures page { page_of result.1 ≡ labelled (label_holding content charge) (pages.moving direction frame.number (block_of backing) result.0.0) }
    ensures bytes { bytes_of result.1 ≡ frame.bytes }
{
    let ticket = TicketId(flights.insert_reserved(Flight { page, direction }) as u32);
    let place = Place::Moving {
        frame,
        charge,
        direction,
        backing,
        ticket,
    };
    (ticket, OwnedPage { content, place })
}

/// Ends the transfer of a ticket, whose number is free again.
pub(crate) fn unlist(flights: &mut Slab<Flight>, ticket: TicketId)
    requires { ContainsKey flights.old ticket.0 }
    ensures unlisted { Changes flights.old.slots flights.new.slots ticket.0 None }
    ensures len { slab_len flights.new + 1 ≡ slab_len flights.old }
    ensures room { HasRoomFor flights.new 1 }
    ensures capacity { flights.new.capacity ≡ flights.old.capacity }
{
    let _ = flights.remove(ticket.0 as usize);
}

/// The home block of a page that the file has.
pub(crate) fn home(files: &Files, file: u32, page: u32) -> u32
    requires { page < slice_index files.now.sizes file }
    ensures { result ≡ home_block files.now.first files.now.sizes file page }
{
    let Some(block) = files.home(file, page) else {
        unreachable!()
    };
    block
}

/// Its place in the cache: the distance of its home block from the first.
pub(crate) fn home_place(files: &Files, file: u32, page: u32) -> usize
    requires { page < slice_index files.now.sizes file }
    ensures place { result ≡ place_in files.now file page }
    ensures within { result < sum files.now.sizes }
{
    (home(files, file, page) - files.first()) as usize
}

/// This many places without a page. `AllocError` if there is no memory.
pub(crate) fn open_places(alloc: Global, many: u32) -> Result<Vec<Option<PageId>>, AllocError>
    ensures len { IfOk result (λ c. vec_len c ≡ many) }
    ensures empty { IfOk result (λ c. (n : ℕ) → at c.items n ≡ None) }
{
    let mut places = Vec::with_capacity(alloc, many as usize)?;
    for _ in 0..many {
        places.push_reserved(None);
    }
    Ok(places)
}

/// Notes that the page has this frame from now on.
pub(crate) fn note(by_frame: &mut Vec<Option<PageId>>, frame: FrameId, page: PageId)
    requires { frame.0 < length by_frame.old.items }
    ensures noted { Changes by_frame.old.items by_frame.new.items frame.0 (Some page) }
    ensures len { length by_frame.new.items ≡ length by_frame.old.items }
{
    by_frame[frame.0 as usize] = Some(page);
}

/// The page that the entry of this frame number names, if any.
pub(crate) fn told_at(by_frame: &[Option<PageId>], number: usize) -> Option<PageId>
    ensures { result ≡ at by_frame.now number }
{
    match by_frame.get(number) {
        Some(Some(page)) => Some(*page),
        _ => None,
    }
}

/// Whether the page is held in the frame with this number.
pub(crate) fn is_in_frame(slots: &[Option<OwnedPage>], page: PageId, number: usize) -> bool
    ensures { result ≡ there_and (is_held_frame number) (option_map page_of (at slots.now page.0)) }
{
    match owned_at(slots, page) {
        Some(owned) => is_frame(&owned.place, number),
        None => false,
    }
}

fn is_frame(place: &Place, number: usize) -> bool
    ensures { (label : Label) → result ≡ is_held_frame number (labelled label (residence_at place.now)) }
{
    match place {
        Place::Frame { frame, .. } => frame.number().0 as usize == number,
        _ => false,
    }
}

/// Removes the page. Its number, its place on its group's list, and its place in the cache, if it holds a
/// page of a file, are free.
pub(crate) fn leave(
    numbers: &mut Slab<()>,
    members: &mut Rings,
    cache: &mut Vec<Option<PageId>>,
    files: &Files,
    page: PageId,
    file_page: Option<FilePage>,
)
    requires taken { ContainsKey numbers.old page.0 }
    requires listed { is_listed members.old.lists page.0 ≡ true }
    requires inside { IfSome file_page (λ a. a.page < slice_index files.now.sizes a.file) }
    requires homes { length cache.old.items ≡ sum files.now.sizes }
    ensures numbers { Updates numbers.old numbers.new page.0 None }
    ensures capacity { numbers.new.capacity ≡ numbers.old.capacity }
    ensures lists { members.new ≡ record members.old { lists = map (without page.0) members.old.lists } }
    ensures none { (a : FilePage_of) → file_page ≡ Some a → Changes cache.old.items cache.new.items (place_in files.now a.file a.page) None }
    ensures same { file_page ≡ None → cache.new ≡ cache.old }
    ensures homes { length cache.new.items ≡ length cache.old.items }
{
    numbers.remove(page.0 as usize);
    members.remove(page);
    if let Some(at) = file_page {
        let index = home_place(files, at.file, at.page);
        cache[index] = None;
    }
}

/// Stores what the page owns after its transfer, if it still exists. Otherwise removes the page. The caller
/// has taken out what it owned.
pub(crate) fn land(
    numbers: &mut Slab<()>,
    slots: &mut Vec<Option<OwnedPage>>,
    members: &mut Rings,
    cache: &mut Vec<Option<PageId>>,
    files: &Files,
    page: PageId,
    file_page: Option<FilePage>,
    after: Option<OwnedPage>,
)
    requires vacant { at slots.old.items page.0 ≡ None }
    requires room { page.0 < vec_capacity slots.old }
    requires taken { ContainsKey numbers.old page.0 }
    requires listed { is_listed members.old.lists page.0 ≡ true }
    requires inside { IfSome file_page (λ a. a.page < slice_index files.now.sizes a.file) }
    requires homes { length cache.old.items ≡ sum files.now.sizes }
    ensures placed { Changes slots.old.items slots.new.items page.0 after }
    ensures places { vec_capacity slots.new ≡ vec_capacity slots.old }
    ensures homes { length cache.new.items ≡ length cache.old.items }
    ensures stays { IsSome after → (numbers.new ≡ numbers.old) × (members.new ≡ members.old) × (cache.new ≡ cache.old) }
    ensures numbers { after ≡ None → Updates numbers.old numbers.new page.0 None }
    ensures capacity { numbers.new.capacity ≡ numbers.old.capacity }
    ensures lists { after ≡ None → members.new ≡ record members.old { lists = map (without page.0) members.old.lists } }
    ensures none { after ≡ None → (a : FilePage_of) → file_page ≡ Some a → Changes cache.old.items cache.new.items (place_in files.now a.file a.page) None }
    ensures same { after ≡ None → file_page ≡ None → cache.new ≡ cache.old }
{
    match after {
        Some(owned) => place(slots, page, owned),
        None => leave(numbers, members, cache, files, page, file_page),
    }
}
