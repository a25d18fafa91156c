//! Links from entry to entry: where the bytes of a page were written before.

ghost use Rattle.std.specs.Prelude.{◌≡◌};
ghost use Rattle.trace.specs.Links.{accessed, wrote};

use crate::page::{Page, offset_of, page_of};
use machine::entry::Entry;
use machine::event::{Event, Op};
use machine::reply::Reply;
use std::mem::size_of;

/// What is known of the bytes of a page before an entry.
#[derive(Clone, Copy)]
pub enum Link {
    /// Nothing is known.
    Unknown,
    /// They are the first bytes.
    First,
    /// They are the bytes of this entry's page after its access.
    After(u32),
}

const _: () = prove!(size_of::<Link>() == 8);

/// A byte that an entry wrote to its page.
#[derive(Clone, Copy)]
pub struct Written {
    pub offset: u32,
    pub byte: u8,
}

/// The page that the entry accessed.
pub fn accessed(entry: &Entry) -> Option<Page>
    ensures { result ≡ accessed entry.now.event }
{
    match &entry.event {
        Event::Access { task, place, op: _ } => Some(page_of(*task, *place)),
        _ => None,
    }
}

/// The byte that the entry wrote to the page that it accessed.
pub fn wrote(entry: &Entry) -> Option<Written>
    ensures { result ≡ wrote entry.now.event entry.now.reply }
{
    match &entry.event {
        Event::Access {
            task: _,
            place,
            op: Op::Write(byte),
        } => match &entry.reply {
            Reply::Done { .. } => Some(Written {
                offset: offset_of(*place),
                byte: *byte,
            }),
            _ => None,
        },
        _ => None,
    }
}
