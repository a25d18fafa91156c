//! Arrivals that found the bytes which an earlier entry left. If such an arrival is honest, it has all bytes of the page
//! at once, and a walk back along the links can end there.

ghost use Rattle.std.specs.Prelude.{◌≡◌, ◌<◌, ◌≤◌, true, length, reverse, vec_capacity};
ghost use Rattle.machine.specs.FirstBytes.{first_of};
ghost use Rattle.machine.specs.Audit.{before, Passes};
ghost use Rattle.trace.specs.Found.{HasFound, IsKnown};
ghost use Rattle.trace.specs.Links.{IsStand};
ghost use Rattle.trace.specs.Walks.{bytes_of};

use crate::entries::Trace;
use crate::fetch::fetch_of;
use crate::link::{Link, accessed};
use crate::step::Stand;
use machine::bytes::PageBytes;
use machine::entry::Entry;
use machine::event::Event;
use machine::id::TicketId;

/// Notes for the entry to which this link leads that the next entry is an arrival that found what it left, unless one is
/// noted already.
fn note_link(found: &mut Vec<u32>, link: Link, next: usize)
    requires { next < 1048576 }
    ensures items { length found.new.items ≡ length found.old.items }
    ensures room { vec_capacity found.new ≡ vec_capacity found.old }
{
    let Link::After(at) = link else {
        return;
    };
    let at = at as usize;
    if at < found.len() && found[at] == 0 {
        found[at] = next as u32 + 1;
    }
}

/// Notes what the entry, which is pushed next, found, if it is an arrival.
pub fn note_found(found: &mut Vec<u32>, links: &[Link], entries: &[Entry], entry: &Entry)
    requires { length entries.now < 1048576 }
    ensures items { length found.new.items ≡ length found.old.items }
    ensures room { vec_capacity found.new ≡ vec_capacity found.old }
{
    let Event::Arrived { ticket, bytes: _ } = &entry.event else {
        return;
    };
    if let Some(read_in) = fetch_of(entries, entries.len(), *ticket) {
        if let Some(link) = links.get(read_in.at) {
            note_link(found, *link, entries.len());
        }
    }
}

/// Whether the latest read-in under the ticket before this place of the trace found the bytes that the entry at `after`
/// left.
fn has_found(trace: &Trace, end: usize, ticket: TicketId, after: u32) -> bool
    requires { end ≤ length trace.now.entries }
    ensures { result ≡ true → HasFound trace.now.entries end ticket.0 after }
{
    match trace.read_in(end, ticket) {
        Some(read_in) => match trace.link(read_in.at) {
            Link::After(at) => at == after,
            Link::Unknown | Link::First => false,
        },
        None => false,
    }
}

/// All bytes last written to a page, which has a link, if an arrival is known that brought just these. The entries before
/// `end` pass.
pub fn known_bytes(trace: &Trace, end: usize, stand: Stand) -> Option<&PageBytes>
    requires within { end ≤ length trace.now.entries }
    requires good { Passes (first_of (reverse trace.now.entries)) (before trace.now.entries end) }
    requires stand { IsStand trace.now.entries stand }
    ensures { IsKnown trace.now.entries stand (bytes_of result) }
{
    let Link::After(after) = stand.link else {
        return None;
    };
    // Only an access has a page.
    let Some(_) = accessed(trace.entry(after as usize)) else {
        return None;
    };
    let at = trace.found_after(after as usize)?;
    if at >= end {
        return None;
    }
    match &trace.entry(at).event {
        Event::Arrived { ticket, bytes } if has_found(trace, at, *ticket, after) => Some(bytes),
        _ => None,
    }
}
