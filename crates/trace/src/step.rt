//! A walk back along the links of a trace, step by step.

ghost use Rattle.trace.specs.Links.{IsStand, IsBack};

use crate::entries::Trace;
use crate::link::{Link, accessed};
use crate::page::Page;

/// A page before an entry of the trace.
#[derive(Clone, Copy)]
pub struct Stand {
    /// The entry's place, counted from 0.
    pub at: usize,
    pub page: Page,
    /// What is known of the page before the entry.
    pub link: Link,
}

/// Where a step back along a link leads.
#[derive(Clone, Copy)]
pub enum Back {
    /// Nowhere: nothing is known.
    Unknown,
    /// To the bytes at first.
    First,
    /// To an access that may have written, and to its page before that access.
    Entry(Stand),
}

/// One step back along a link.
pub fn step_back(trace: &Trace, stand: Stand) -> Back
    requires { IsStand trace.now.entries stand }
    ensures { IsBack trace.now.entries stand result }
{
    match stand.link {
        Link::Unknown => Back::Unknown,
        Link::First => Back::First,
        Link::After(at) => {
            let at = at as usize;
            match accessed(trace.entry(at)) {
                Some(page) => Back::Entry(Stand {
                    at,
                    page,
                    link: trace.link(at),
                }),
                None => Back::Unknown,
            }
        }
    }
}
