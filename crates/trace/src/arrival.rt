//! Comparing what arrived with what was last written.

ghost use Rattle.std.specs.Prelude.{ℕ, ◌≤◌, MatchBool, length, reverse, slice_index};
ghost use Rattle.machine.specs.History.{Spot, HoldsLast, follow, says, fetch_of, last};
ghost use Rattle.machine.specs.FirstBytes.{first_of, byte_or_zero};
ghost use Rattle.machine.specs.Audit.{before, Passes};
ghost use Rattle.trace.specs.Links.{IsStand, wrote, wrote_at};
ghost use Rattle.trace.specs.Walks.{spot_in, bytes_of};
ghost use Rattle.trace.specs.Settled.{IsSettled, AreBytes, RestIs, Turned, Settles, or_byte};

use crate::effect::{Effect, effect_of};
use crate::entries::Trace;
use crate::found::known_bytes;
use crate::link::wrote;
use crate::page::{Page, page_of};
use crate::step::{Back, Stand, step_back};
use machine::bytes::{PAGE_BYTES, PageBytes};
use machine::entry::Entry;
use machine::id::TicketId;

/// How the walk back for what arrived continues after an entry.
#[derive(Clone, Copy)]
enum Turn {
    /// It continues with this page, which had the bytes before.
    Before(Page),
    /// All bytes that are left were zeros.
    Zeros,
    /// A byte differs from what was written.
    Wrong,
}

/// Settles a byte by what was written there, unless a later write did. Returns whether what arrived
/// agrees.
fn settle_byte(
    bytes: &[u8; PAGE_BYTES],
    settled: &mut [bool; PAGE_BYTES],
    offset: u32,
    byte: u8,
) -> bool
    ensures { (written earlier : ℕ → ℕ) → IsSettled bytes.now settled.old written (or_byte offset byte earlier) → Settles result bytes.now settled.new written earlier }
{
    let at = offset as usize;
    if at >= PAGE_BYTES || settled[at] {
        return true;
    }
    settled[at] = true;
    bytes[at] == byte
}

/// Settles the page's bytes that the entry determines.
fn settle_entry(
    entry: &Entry,
    page: Page,
    bytes: &[u8; PAGE_BYTES],
    settled: &mut [bool; PAGE_BYTES],
) -> Turn
    ensures { (written : ℕ → ℕ) → (earlier : Spot → ℕ) → IsSettled bytes.now settled.old written (λ o. follow (says entry.now.event entry.now.reply (spot_in page o)) earlier (spot_in page o)) → Turned result bytes.now settled.new written earlier }
{
    match effect_of(entry, page) {
        Effect::Byte { offset, byte } => {
            if settle_byte(bytes, settled, offset, byte) {
                return Turn::Before(page);
            }
            Turn::Wrong
        }
        Effect::Zeros => Turn::Zeros,
        Effect::As(other) => Turn::Before(other),
        Effect::Nothing => Turn::Before(page),
    }
}

/// Whether each byte that isn't settled equals that of another page.
fn rest_agrees(
    bytes: &[u8; PAGE_BYTES],
    settled: &[bool; PAGE_BYTES],
    other: &[u8; PAGE_BYTES],
) -> bool
    ensures { let rest = RestIs bytes.now settled.now (slice_index other.now) in MatchBool result rest (rest → ⊥) }
{
    // The code looks at each byte, whatever the others are, so that the compiler can process many at once.
    let mut agree = true;
    for at in 0..PAGE_BYTES {
        agree = agree & (settled[at] | (bytes[at] == other[at]));
    }
    agree
}

/// Whether each byte that isn't settled equals that of an arrival, or is zero if there was none.
fn rest_is(
    bytes: &[u8; PAGE_BYTES],
    settled: &[bool; PAGE_BYTES],
    arrived: Option<&PageBytes>,
) -> bool
    ensures { let rest = RestIs bytes.now settled.now (byte_or_zero (bytes_of arrived.entry)) in MatchBool result rest (rest → ⊥) }
{
    match arrived {
        Some(first) => rest_agrees(bytes, settled, first.bytes()),
        None => rest_agrees(bytes, settled, &[0; PAGE_BYTES]),
    }
}

/// Whether each byte that isn't settled is what it was at first, as far as the trace shows.
fn rest_is_first(
    trace: &Trace,
    page: Page,
    bytes: &[u8; PAGE_BYTES],
    settled: &[bool; PAGE_BYTES],
) -> bool
    ensures { let rest = RestIs bytes.now settled.now (λ o. first_of (reverse trace.now.entries) (spot_in page o)) in MatchBool result rest (rest → ⊥) }
{
    match page {
        Page::Memory { .. } => rest_is(bytes, settled, None),
        Page::File { file, page } => rest_is(bytes, settled, trace.first_arrival(file, page)),
    }
}

/// Whether each byte that isn't settled is the one last written before this place of the trace.
fn rest_is_last(
    trace: &Trace,
    end: usize,
    page: Page,
    bytes: &[u8; PAGE_BYTES],
    settled: &mut [bool; PAGE_BYTES],
) -> bool
    requires { end ≤ length trace.now.entries }
    ensures { (written : ℕ → ℕ) → IsSettled bytes.now settled.old written (λ o. last (first_of (reverse trace.now.entries)) (before trace.now.entries end) (spot_in page o)) → MatchBool result (AreBytes bytes.now written) (AreBytes bytes.now written → ⊥) }
{
    let mut page = page;
    for at in (0..end).rev() {
        match settle_entry(trace.entry(at), page, bytes, settled) {
            Turn::Before(other) => page = other,
            Turn::Zeros => return rest_is(bytes, settled, None),
            Turn::Wrong => return false,
        }
    }
    rest_is_first(trace, page, bytes, settled)
}

/// Settles what the entry wrote to the page that it accessed. Returns whether what arrived agrees.
fn settle_own(entry: &Entry, bytes: &[u8; PAGE_BYTES], settled: &mut [bool; PAGE_BYTES]) -> bool
    ensures { (written earlier : ℕ → ℕ) → IsSettled bytes.now settled.old written (wrote_at (wrote entry.now.event entry.now.reply) earlier) → Settles result bytes.now settled.new written earlier }
{
    match wrote(entry) {
        Some(byte) => settle_byte(bytes, settled, byte.offset, byte.byte),
        None => true,
    }
}

/// Whether these are the bytes last written to a page, which has a link. The entries before `end` pass.
fn is_last(trace: &Trace, end: usize, stand: Stand, bytes: &[u8; PAGE_BYTES]) -> bool
    requires within { end ≤ length trace.now.entries }
    requires good { Passes (first_of (reverse trace.now.entries)) (before trace.now.entries end) }
    requires stand { IsStand trace.now.entries stand }
    ensures { let same = AreBytes bytes.now (λ o. last (first_of (reverse trace.now.entries)) (before trace.now.entries stand.at) (spot_in stand.page o)) in MatchBool result same (same → ⊥) }
{
    let mut settled = [false; PAGE_BYTES];
    let mut stand = stand;
    'walk: loop {
        if let Some(known) = known_bytes(trace, end, stand) {
            return rest_agrees(bytes, &settled, known.bytes());
        }
        match step_back(trace, stand) {
            Back::Unknown => {
                return rest_is_last(trace, stand.at, stand.page, bytes, &mut settled);
            }
            Back::First => return rest_is_first(trace, stand.page, bytes, &settled),
            Back::Entry(earlier) => {
                if !settle_own(trace.entry(earlier.at), bytes, &mut settled) {
                    return false;
                }
                stand = earlier;
            }
        }
    }
}

/// Whether an arrival before this place of the trace brought what was last written when its read-in began. The entries
/// before it pass.
pub fn is_brought(trace: &Trace, end: usize, ticket: TicketId, bytes: &PageBytes) -> bool
    requires within { end ≤ length trace.now.entries }
    requires good { Passes (first_of (reverse trace.now.entries)) (before trace.now.entries end) }
    ensures { let holds = HoldsLast (first_of (reverse trace.now.entries)) bytes.now (fetch_of ticket.0 (before trace.now.entries end)) in MatchBool result holds (holds → ⊥) }
{
    match trace.read_in(end, ticket) {
        Some(read_in) => {
            let stand = Stand {
                at: read_in.at,
                page: page_of(read_in.access.task, read_in.access.place),
                link: trace.link(read_in.at),
            };
            is_last(trace, end, stand, bytes.bytes())
        }
        None => false,
    }
}
