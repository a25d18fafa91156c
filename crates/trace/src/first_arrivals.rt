//! The first arrivals of files' pages: what files contained before the run, as far as the trace shows.

ghost use Rattle.std.specs.Prelude.{◌≡◌, ℕ, ◌==◌, ◌&&◌, ◌<◌, ◌≤◌, if◌then◌else◌, List, length, reverse, Some, None};
ghost use Rattle.machine.specs.History.{fetch_of, spot_of};
ghost use Rattle.machine.specs.FirstBytes.{is_of_file, is_read_of, brought_by, first_arrival, byte_or_zero};
ghost use Rattle.machine.specs.Audit.{before};
ghost use Rattle.trace.specs.Heads.{MayBe, link_in};
ghost use Rattle.trace.specs.Arrivals.{arrived_bytes, AreArrivals, arrival_after};
ghost use Rattle.trace.specs.Walks.{bytes_of};

use crate::fetch::{Access, fetch_of};
use crate::heads::{link_in, set_link};
use crate::link::Link;
use crate::row::Row;
use machine::bytes::PageBytes;
use machine::entry::Entry;
use machine::event::{Event, Place};
use machine::id::{TaskId, TicketId};

/// Whether a place is in this page of the file.
fn is_of_file(place: Place, file: u32, page: u32, task: TaskId) -> bool
    ensures { result ≡ is_of_file file page (spot_of task.0 place) }
{
    match place {
        Place::Virtual { .. } => false,
        Place::File {
            file: other_file,
            page: other,
            ..
        } => other_file == file && other == page,
    }
}

/// Whether the latest read-in under the ticket before this place of the trace was of this page of the file.
fn is_read_of(entries: &[Entry], end: usize, ticket: TicketId, file: u32, page: u32) -> bool
    requires { end ≤ length entries.now }
    ensures { result ≡ is_read_of file page (fetch_of ticket.0 (before entries.now end)) }
{
    match fetch_of(entries, end, ticket) {
        Some(read_in) => is_of_file(read_in.access.place, file, page, read_in.access.task),
        None => false,
    }
}

/// What the entry at this place of the trace brought to this page of the file.
fn brought_by<'a>(
    entries: &[Entry],
    end: usize,
    entry: &'a Entry,
    file: u32,
    page: u32,
) -> Option<&'a PageBytes>
    requires { end ≤ length entries.now }
    ensures { bytes_of result ≡ brought_by file page entry.now.event (before entries.now end) }
{
    match &entry.event {
        Event::Arrived { ticket, bytes } if is_read_of(entries, end, *ticket, file, page) => {
            Some(bytes)
        }
        _ => None,
    }
}

/// What the first arrival of this page of the file in the whole trace brought.
fn first_arrival(entries: &[Entry], file: u32, page: u32) -> Option<&PageBytes>
    ensures { bytes_of result ≡ first_arrival file page (reverse entries.now) }
{
    for (at, entry) in entries.iter().enumerate() {
        if let Some(bytes) = brought_by(entries, at, entry, file, page) {
            return Some(bytes);
        }
    }
    None
}

/// A byte of what arrived, or zero if nothing did.
pub fn byte_or_zero(arrived: Option<&PageBytes>, offset: u32) -> u8
    ensures { result ≡ byte_or_zero (bytes_of arrived.entry) offset }
{
    match arrived {
        Some(bytes) => match bytes.bytes().get(offset as usize) {
            Some(byte) => *byte,
            None => 0,
        },
        None => 0,
    }
}

/// The bytes that the entry brought.
fn brought(entry: &Entry) -> Option<&PageBytes>
    ensures { bytes_of result ≡ arrived_bytes entry.now.event }
{
    match &entry.event {
        Event::Arrived { ticket: _, bytes } => Some(bytes),
        _ => None,
    }
}

/// What the first arrival of this page of the file brought, found by what is known of it.
pub fn known_arrival<'a>(
    entries: &'a [Entry],
    arrivals: &[Row],
    file: u32,
    page: u32,
) -> Option<&'a PageBytes>
    requires { AreArrivals entries.now arrivals.now }
    ensures { bytes_of result ≡ first_arrival file page (reverse entries.now) }
{
    match link_in(arrivals, file, page) {
        Link::Unknown => first_arrival(entries, file, page),
        Link::First => None,
        Link::After(at) => brought(&entries[at as usize]),
    }
}

/// Notes that a page of a file arrived by the entry at this place, if no arrival of it is noted yet.
fn note_first(rows: &mut [Row], file: u32, page: u32, at: u32)
    ensures { (f q : ℕ) → (bytes : List ℕ) → MayBe (link_in rows.new f q) (arrival_after (if ((file == f) && (page == q)) then Some bytes else None) at (link_in rows.old f q)) }
{
    match link_in(rows, file, page) {
        Link::First => set_link(rows, file, page, Link::After(at)),
        Link::Unknown => {}
        Link::After(_) => {}
    }
}

/// Notes that the page that this access began to read in arrived, if it is a file's.
fn note_page(rows: &mut [Row], access: Access, at: u32)
    ensures { (f q : ℕ) → (bytes : List ℕ) → MayBe (link_in rows.new f q) (arrival_after (if is_of_file f q (spot_of access.task.0 access.place) then Some bytes else None) at (link_in rows.old f q)) }
{
    match access.place {
        Place::Virtual { .. } => {}
        Place::File { file, page, .. } => note_first(rows, file, page, at),
    }
}

/// Notes that the page being read in under the ticket arrived by the next entry.
fn note_read_in(rows: &mut [Row], entries: &[Entry], ticket: TicketId)
    requires { length entries.now < 1048576 }
    ensures { (f q : ℕ) → (bytes : List ℕ) → MayBe (link_in rows.new f q) (arrival_after (brought_by f q (Event.Arrived ticket bytes) (reverse entries.now)) (length entries.now) (link_in rows.old f q)) }
{
    match fetch_of(entries, entries.len(), ticket) {
        Some(read_in) => note_page(rows, read_in.access, entries.len() as u32),
        None => {}
    }
}

/// Notes the first arrival in the entry, which is pushed next, if it has one.
pub fn note_arrival(rows: &mut Vec<Row>, entries: &[Entry], entry: &Entry)
    requires { length entries.now < 1048576 }
    ensures { (f q : ℕ) → MayBe (link_in rows.new.items f q) (arrival_after (brought_by f q entry.now.event (reverse entries.now)) (length entries.now) (link_in rows.old.items f q)) }
{
    match &entry.event {
        Event::Arrived { ticket, bytes: _ } => note_read_in(rows, entries, *ticket),
        _ => {}
    }
}
