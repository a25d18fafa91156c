//! The trace: the entries of a run, with a link for each.

ghost use Rattle.std.specs.Prelude.{◌≡◌, ◌<◌, ◌≤◌, [], ◌∷◌, ◌++◌, IfOk, IfSome, length, option_map, reverse, slice_index_or};
ghost use Rattle.machine.specs.History.{fetch_of};
ghost use Rattle.machine.specs.FirstBytes.{first_arrival};
ghost use Rattle.machine.specs.Audit.{before};
ghost use Rattle.trace.specs.Links.{accessed, IsAccessOf, IsLinkAt};
ghost use Rattle.trace.specs.Heads.{known_in, link_for};
ghost use Rattle.trace.specs.Walks.{bytes_of, fetched_at, page_at};

use crate::fetch::{ReadIn, fetch_of};
use crate::first_arrivals::{known_arrival, note_arrival};
use crate::found::note_found;
use crate::heads::{Heads, rows_of};
use crate::link::{Link, accessed};
use crate::row::Row;
use machine::bytes::PageBytes;
use machine::entry::Entry;
use machine::id::{TaskId, TicketId};
use std::alloc::{AllocError, Global};
use std::marker::Model;

/// The trace of a machine: its events and replies in entries, the oldest first. For each access the trace also keeps
/// which entry determines its page before it, so an audit need not search for that entry.
///
/// A contract sees the list of entries and the most entries that are allowed. All memory except that for tasks is
/// allocated at the opening. Each allowed entry takes its room and 12 bytes, and each page of a file takes 16 bytes.
#[derive(Drop)]
pub struct Trace {
    entries: Vec<Entry>,
    /// By an entry's place, counted from 0: its link.
    links: Vec<Link>,
    /// By an entry's place, counted from 0: the place, counted from 1, of the first arrival that found the bytes which
    /// the entry left. With 0 there is none.
    found: Vec<u32>,
    /// By page: the link that the next entry would have if it accessed the page.
    heads: Heads,
    /// By file's number and page: what is known of its first arrival.
    arrivals: Vec<Row>,
    limit: usize,
}

impl Model for Trace {
    ghost use Rattle.trace.specs.Traces.{TraceOf};

    ghost Value = { TraceOf };

    ghost use Rattle.trace.specs.Kept.{trace_of, IsTrace};

    ghost view = { trace_of };

    ghost invariant = { IsTrace };
}

/// What is known of the page that the entry accesses.
fn link_of(heads: &Heads, entry: &Entry) -> Link
    ensures { result ≡ link_for (known_in heads.now) (accessed entry.now.event) }
{
    match accessed(entry) {
        Some(page) => heads.known(page),
        None => Link::Unknown,
    }
}

impl Trace {
    /// A trace without entries, with room for this many: at most 1,048,576. The files' sizes are in pages, by file's
    /// number. Fails if memory runs out.
    pub fn open(alloc: Global, limit: usize, files: &[u32]) -> Result<Trace, AllocError>
        requires { limit ≤ 1048576 }
        ensures { IfOk result (λ t. t ≡ record { entries = []; limit = limit }) }
    {
        let entries = Vec::with_capacity(alloc, limit)?;
        let links = Vec::with_capacity(alloc, limit)?;
        let found = Vec::with_capacity(alloc, limit)?;
        let heads = Heads::open(alloc, files)?;
        let arrivals = rows_of(alloc, files)?;
        Ok(Trace {
            entries,
            links,
            found,
            heads,
            arrivals,
            limit,
        })
    }

    /// Reserves the memory for a task's links, 8 KiB, before the push of the entry that makes the task. The trace does
    /// not change, even if the call fails because memory ran out. The call only saves time: without it an audit may
    /// walk back through all entries for each read of the task's memory. What was known of an earlier task with this
    /// number is forgotten.
    pub fn reserve(&mut self, task: TaskId) -> Result<(), AllocError>
        ensures { self.new ≡ self.old }
    {
        self.heads.reserve(task)
    }

    /// Frees the memory for the links of a task that has ended without an entry that names it. (The entry of a group
    /// kill names only the victim.) The trace does not change.
    pub fn release(&mut self, task: TaskId)
        ensures { self.new ≡ self.old }
    {
        self.heads.ended(task);
    }

    /// Adds an entry at the end. Allocates no memory.
    pub fn push(&mut self, entry: Entry)
        requires { length self.old.entries < self.old.limit }
        ensures { self.new ≡ record self.old { entries = self.old.entries ++ entry ∷ [] } }
    {
        let link = link_of(&self.heads, &entry);
        self.heads.note(&entry, self.entries.len() as u32);
        note_arrival(&mut self.arrivals, &self.entries, &entry);
        note_found(&mut self.found, &self.links, &self.entries, &entry);
        self.entries.push_reserved(entry);
        self.links.push_reserved(link);
        self.found.push_reserved(0);
    }

    /// How many entries there are.
    pub fn len(&self) -> usize
        ensures { result ≡ length self.now.entries }
    {
        self.entries.len()
    }

    /// The most entries that are allowed.
    pub fn limit(&self) -> usize
        ensures { result ≡ self.now.limit }
    {
        self.limit
    }

    /// The entries, the oldest first.
    pub fn entries(&self) -> &[Entry]
        ensures { result.now ≡ self.now.entries }
    {
        self.entries.as_slice()
    }

    /// Returns only the entries, the oldest first.
    pub fn into_entries(self) -> Vec<Entry>
        ensures { result.items ≡ self.entries }
    {
        let Trace {
            entries,
            links: _,
            found: _,
            heads: _,
            arrivals: _,
            limit: _,
        } = self;
        entries
    }

    /// The entry at a place, counted from 0.
    pub(crate) fn entry(&self, at: usize) -> &Entry
        requires { at < length self.now.entries }
        ensures { result.now ≡ slice_index_or self.now.entries at result.now }
    {
        &self.entries[at]
    }

    /// The link of the entry at a place, counted from 0.
    pub(crate) fn link(&self, at: usize) -> Link
        requires { at < length self.now.entries }
        ensures { IsLinkAt self.now.entries at result }
    {
        self.links[at]
    }

    /// The place of an arrival that found the bytes which the entry at this place left. Places are counted from 0.
    pub(crate) fn found_after(&self, at: usize) -> Option<usize> {
        let place = self.found.get(at)?;
        (*place as usize).checked_sub(1)
    }

    /// What the first arrival of this page of the file in the whole trace brought.
    pub(crate) fn first_arrival(&self, file: u32, page: u32) -> Option<&PageBytes>
        ensures { bytes_of result ≡ first_arrival file page (reverse self.now.entries) }
    {
        known_arrival(&self.entries, &self.arrivals, file, page)
    }

    /// The latest read-in that began under the ticket before this place of the trace.
    pub(crate) fn read_in(&self, end: usize, ticket: TicketId) -> Option<ReadIn>
        requires { end ≤ length self.now.entries }
        ensures fetched { option_map (fetched_at self.now.entries) result ≡ fetch_of ticket.0 (before self.now.entries end) }
        ensures own { IfSome result (λ r. IsAccessOf self.now.entries r.at (page_at r.access.task r.access.place)) }
        ensures within { IfSome result (λ r. r.at < end) }
    {
        fetch_of(&self.entries, end, ticket)
    }
}
