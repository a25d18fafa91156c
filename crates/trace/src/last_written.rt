//! The byte last written.

ghost use Rattle.std.specs.Prelude.{◌≡◌, ℕ, ◌≤◌, IfSome, length, reverse};
ghost use Rattle.machine.specs.History.{Spot, says, follow, last};
ghost use Rattle.machine.specs.FirstBytes.{first_of};
ghost use Rattle.machine.specs.Audit.{before, Passes};
ghost use Rattle.trace.specs.Links.{IsStand, wrote, wrote_at, or_some};
ghost use Rattle.trace.specs.Walks.{spot_in, looked};

use crate::effect::{Effect, effect_of};
use crate::entries::Trace;
use crate::first_arrivals::byte_or_zero;
use crate::found::known_bytes;
use crate::link::wrote;
use crate::page::Page;
use crate::step::{Back, Stand, step_back};
use machine::entry::Entry;

/// What an entry shows of a byte: its value, or the page that had it before the entry.
#[derive(Clone, Copy)]
enum Seen {
    Byte(u8),
    Before(Page),
}

fn look(entry: &Entry, page: Page, offset: u32) -> Seen
    ensures { (earlier : Spot → ℕ) → follow (says entry.now.event entry.now.reply (spot_in page offset)) earlier (spot_in page offset) ≡ looked result earlier offset }
{
    match effect_of(entry, page) {
        Effect::Byte {
            offset: written,
            byte,
        } => {
            if written == offset {
                return Seen::Byte(byte);
            }
            Seen::Before(page)
        }
        Effect::Zeros => Seen::Byte(0),
        Effect::As(other) => Seen::Before(other),
        Effect::Nothing => Seen::Before(page),
    }
}

/// The byte at first, as far as the trace shows.
fn first_byte(trace: &Trace, page: Page, offset: u32) -> u8
    ensures { result ≡ first_of (reverse trace.now.entries) (spot_in page offset) }
{
    match page {
        Page::Memory { .. } => 0,
        Page::File { file, page } => byte_or_zero(trace.first_arrival(file, page), offset),
    }
}

/// The byte last written at an offset of a page, before this place of the trace.
fn last(trace: &Trace, end: usize, page: Page, offset: u32) -> u8
    requires { end ≤ length trace.now.entries }
    ensures { result ≡ last (first_of (reverse trace.now.entries)) (before trace.now.entries end) (spot_in page offset) }
{
    let mut page = page;
    for at in (0..end).rev() {
        match look(trace.entry(at), page, offset) {
            Seen::Byte(byte) => return byte,
            Seen::Before(other) => page = other,
        }
    }
    first_byte(trace, page, offset)
}

/// The byte that the entry wrote at this offset of the page that it accessed.
fn written_at(entry: &Entry, offset: u32) -> Option<u8>
    ensures { (earlier : ℕ → ℕ) → wrote_at (wrote entry.now.event entry.now.reply) earlier offset ≡ or_some result (earlier offset) }
{
    match wrote(entry) {
        Some(written) => {
            if written.offset == offset {
                return Some(written.byte);
            }
            None
        }
        None => None,
    }
}

/// The byte that is known of an arrival.
fn known_byte(trace: &Trace, end: usize, stand: Stand, offset: u32) -> Option<u8>
    requires within { end ≤ length trace.now.entries }
    requires good { Passes (first_of (reverse trace.now.entries)) (before trace.now.entries end) }
    requires stand { IsStand trace.now.entries stand }
    ensures { IfSome result (λ byte. byte ≡ last (first_of (reverse trace.now.entries)) (before trace.now.entries stand.at) (spot_in stand.page offset)) }
{
    match known_bytes(trace, end, stand) {
        Some(known) => known.bytes().get(offset as usize).copied(),
        None => None,
    }
}

/// The byte last written at an offset of a page, which has a link. The entries before `end` pass.
pub fn linked_last(trace: &Trace, end: usize, stand: Stand, offset: u32) -> u8
    requires within { end ≤ length trace.now.entries }
    requires good { Passes (first_of (reverse trace.now.entries)) (before trace.now.entries end) }
    requires stand { IsStand trace.now.entries stand }
    ensures { result ≡ last (first_of (reverse trace.now.entries)) (before trace.now.entries stand.at) (spot_in stand.page offset) }
{
    let mut stand = stand;
    'walk: loop {
        if let Some(byte) = known_byte(trace, end, stand, offset) {
            return byte;
        }
        match step_back(trace, stand) {
            Back::Unknown => return last(trace, stand.at, stand.page, offset),
            Back::First => return first_byte(trace, stand.page, offset),
            Back::Entry(earlier) => {
                if let Some(byte) = written_at(trace.entry(earlier.at), offset) {
                    return byte;
                }
                stand = earlier;
            }
        }
    }
}
