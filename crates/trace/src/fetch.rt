//! Where read-ins began.

ghost use Rattle.std.specs.Prelude.{◌≡◌, ◌<◌, ◌≤◌, List, Option, length, option_map, IfSome};
ghost use Rattle.machine.specs.declared.entry.Entry.{Entry};
ghost use Rattle.machine.specs.History.{Fetched, fetched_by, fetch_of};
ghost use Rattle.machine.specs.Audit.{before};
ghost use Rattle.trace.specs.Links.{accessed, IsAccessOf};
ghost use Rattle.trace.specs.Walks.{or_access, fetched_at, page_at};

use machine::entry::Entry;
use machine::event::{Event, Place};
use machine::id::{TaskId, TicketId};
use machine::reply::Reply;

/// An access that began to read a page in: its task and its place.
#[derive(Clone, Copy)]
pub struct Access {
    pub task: TaskId,
    pub place: Place,
}

/// A read-in: the place in the trace of its first entry, counted from 0, and the access.
#[derive(Clone, Copy)]
pub struct ReadIn {
    pub at: usize,
    pub access: Access,
}

/// The access that began a read-in under this ticket, if the entry is one.
fn access_of(entry: &Entry, ticket: TicketId) -> Option<Access>
    ensures own { IfSome result (λ a. accessed entry.now.event ≡ Some (page_at a.task a.place)) }
    ensures begins { (earlier : List Entry) → (others : Option Fetched) → fetched_by ticket.0 entry.now.event entry.now.reply earlier others ≡ or_access earlier result others }
{
    match &entry.event {
        Event::Access { task, place, op: _ } => match &entry.reply {
            Reply::Fetch(given) if *given == ticket => Some(Access {
                task: *task,
                place: *place,
            }),
            _ => None,
        },
        _ => None,
    }
}

/// The latest read-in that began under the ticket before this place of the trace.
pub fn fetch_of(entries: &[Entry], end: usize, ticket: TicketId) -> Option<ReadIn>
    requires { end ≤ length entries.now }
    ensures fetched { option_map (fetched_at entries.now) result ≡ fetch_of ticket.0 (before entries.now end) }
    ensures own { IfSome result (λ r. IsAccessOf entries.now r.at (page_at r.access.task r.access.place)) }
    ensures within { IfSome result (λ r. r.at < end) }
{
    for at in (0..end).rev() {
        if let Some(access) = access_of(&entries[at], ticket) {
            return Some(ReadIn { at, access });
        }
    }
    None
}
