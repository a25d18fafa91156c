//! Whether a run's arrivals brought what was last written, and its reads returned it.

ghost use Rattle.std.specs.Prelude.{◌≡◌, ◌↔◌, ◌<◌, MatchBool, IfErr, IfNone, IfSome, is_ok, true, length, reverse, slice_index_or};
ghost use Rattle.machine.specs.History.{IsRight, IsHonest};
ghost use Rattle.machine.specs.FirstBytes.{first_of};
ghost use Rattle.machine.specs.Audit.{before, Passes, IsGood, IsFirstWrong};

use crate::arrival::is_brought;
use crate::entries::Trace;
use crate::last_written::linked_last;
use crate::page::{offset_of, page_of};
use crate::step::Stand;
use machine::entry::Entry;
use machine::event::{Event, Op};
use machine::reply::Reply;

/// The first wrong entry of a trace: an arrival that brought other bytes than were last written, or a read that
/// returned another byte.
#[derive(Clone, Copy, Debug, PartialEq, Eq)]
pub struct First {
    /// Its place in the trace, counted from 1.
    pub entry: usize,
}

/// Whether the entry at this place, if it is a read, returned the byte last written. The entries before it pass.
fn is_right(trace: &Trace, at: usize, entry: &Entry) -> bool
    requires within { at < length trace.now.entries }
    requires good { Passes (first_of (reverse trace.now.entries)) (before trace.now.entries at) }
    requires own { entry.now ≡ slice_index_or trace.now.entries at entry.now }
    ensures { let right = IsRight (first_of (reverse trace.now.entries)) (before trace.now.entries at) entry.now.event entry.now.reply in MatchBool result right (right → ⊥) }
{
    match &entry.event {
        Event::Access {
            task,
            place,
            op: Op::Read,
        } => match &entry.reply {
            Reply::Done { byte, hit: _ } => {
                let stand = Stand {
                    at,
                    page: page_of(*task, *place),
                    link: trace.link(at),
                };
                *byte == linked_last(trace, at, stand, offset_of(*place))
            }
            _ => true,
        },
        _ => true,
    }
}

/// Whether the entry at this place, if it is an arrival, brought what was last written. The entries before it pass.
fn is_honest(trace: &Trace, at: usize, entry: &Entry) -> bool
    requires within { at < length trace.now.entries }
    requires good { Passes (first_of (reverse trace.now.entries)) (before trace.now.entries at) }
    ensures { let honest = IsHonest (first_of (reverse trace.now.entries)) (before trace.now.entries at) entry.now.event in MatchBool result honest (honest → ⊥) }
{
    match &entry.event {
        Event::Arrived { ticket, bytes } => is_brought(trace, at, *ticket, bytes),
        _ => true,
    }
}

/// Whether the entry at this place is neither a wrong arrival nor a wrong read. The entries before it pass.
fn is_good(trace: &Trace, at: usize, entry: &Entry) -> bool
    requires within { at < length trace.now.entries }
    requires own { entry.now ≡ slice_index_or trace.now.entries at entry.now }
    requires good { Passes (first_of (reverse trace.now.entries)) (before trace.now.entries at) }
    ensures { let good = IsGood (first_of (reverse trace.now.entries)) (before trace.now.entries at) entry.now in MatchBool result good (good → ⊥) }
{
    is_honest(trace, at, entry) && is_right(trace, at, entry)
}

/// The first wrong entry, if there is one.
fn first_wrong(trace: &Trace) -> Option<First>
    ensures none { IfNone result (Passes (first_of (reverse trace.now.entries)) (reverse trace.now.entries)) }
    ensures some { IfSome result (λ first. IsFirstWrong trace.now.entries first.entry) }
{
    for at in 0..trace.len() {
        if !is_good(trace, at, trace.entry(at)) {
            return Some(First { entry: at + 1 });
        }
    }
    None
}

/// Whether each page that arrived brought the bytes last written to it when its read-in began, and each read
/// returned the byte last written before it. Memory begins as zeros, and a page of a file as its first arrival in
/// the trace brought it. The error is the first wrong entry. Allocates no memory.
pub fn audit(trace: &Trace) -> Result<(), First>
    ensures exactly { let history = reverse trace.now.entries in is_ok result ≡ true ↔ Passes (first_of history) history }
    ensures first { IfErr result (λ first. IsFirstWrong trace.now.entries first.entry) }
{
    match first_wrong(trace) {
        Some(first) => Err(first),
        None => Ok(()),
    }
}
