//! The search for the next page of a type.

ghost use Rattle.std.specs.Prelude.{◌≡◌, ◌+◌, ◌-◌, ◌*◌, ◌<◌, ◌≤◌, ◌%◌, ◌^◌, true, length, option_map, slice_get};
ghost use Rattle.rings.specs.Rings.{is_listed};
ghost use Rattle.lru_gen.specs.Rows.{rows_from, IsBehind, IsAlone};
ghost use Rattle.lru_gen.specs.Filled.{has_any};

use crate::numbers::list_of;
use machine::id::{GroupId, PageId};
use machine::record::Kind;
use rings::{ListId, RingNode, Rings};

/// The first page of a type in the generations of these turns, the last of them not included. The oldest generation has
/// turn 0.
pub fn first_from(
    rings: &Rings,
    group: GroupId,
    kind: Kind,
    oldest: u64,
    turn: u64,
    end: u64,
) -> Option<PageId>
    requires group { group.0 < 2 ^ 28 }
    requires lists { group.0 * 8 + 8 ≤ length rings.now.lists }
    requires end { end ≤ 4 }
    ensures { option_map (λ p. p.0) result ≡ option_map (λ l. l.page) (slice_get (rows_from rings.now.lists group.0 kind (oldest + turn) (end - turn)) 0) }
{
    for later in turn..end {
        let page = rings.front(list_of(group, kind, oldest % 4 + later));
        if page.is_some() {
            return page;
        }
    }
    None
}

/// Whether a type has a page. Its oldest generation has this number.
#[tactic(auto, using(crate::proofs::SearchLemmas::first_tells))]
pub fn has_any(rings: &Rings, group: GroupId, kind: Kind, oldest: u64) -> bool
    requires group { group.0 < 2 ^ 28 }
    requires lists { group.0 * 8 + 8 ≤ length rings.now.lists }
    ensures { result ≡ has_any (rows_from rings.now.lists group.0 kind oldest 4) }
{
    first_from(rings, group, kind, oldest, 0, 4).is_some()
}

/// The node after a page on its list.
pub fn behind(rings: &Rings, page: PageId) -> RingNode
    requires { is_listed rings.now.lists page.0 ≡ true }
    ensures { IsBehind rings.now.lists page.0 result }
{
    match rings.link(RingNode::Page(page)) {
        Some(link) => link.next(),
        None => unreachable!(),
    }
}

/// The list of a page that is alone on it, or `None` if other pages are on its list.
pub fn alone_on(rings: &Rings, page: PageId) -> Option<ListId>
    requires { is_listed rings.now.lists page.0 ≡ true }
    ensures { IsAlone rings.now.lists page.0 result }
{
    let Some(link) = rings.link(RingNode::Page(page)) else {
        unreachable!()
    };
    match (link.prev(), link.next()) {
        (RingNode::Head(_), RingNode::Head(list)) => Some(list),
        _ => None,
    }
}

/// The turn after that of the generation on this list.
pub fn next_turn(list: ListId, oldest: u64) -> u64
    ensures later { 1 ≤ result }
    ensures last { result ≤ 4 }
    ensures next { (oldest + result) % 4 ≡ (list.0 + 1) % 4 }
{
    (u64::from(list.0 % 4) + 4 - oldest % 4) % 4 + 1
}
