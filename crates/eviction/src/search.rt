//! The search among the old pages.

ghost use Rattle.std.specs.Prelude.{◌≡◌, ◌+◌, ◌<◌, ◌≤◌, ◌&&◌, ◌||◌, not, nat_lt, nat_le, if◌then◌else◌, true, length, option_map, is_none, is_some, slice_get, IfSome};
ghost use Rattle.machine.specs.Generations.{row_of, on_row, is_listed, kind_of, front_of};
ghost use Rattle.machine.specs.Aging.{has_mark};
ghost use Rattle.machine.specs.Eviction.{old_of, old_pages, usable_anon, has_usable, front_run, settled_row, settled_gens, to_tail, passed_by, settled};
ghost use Rattle.lru_gen.specs.Gens.{gens_of, sets};
ghost use Rattle.aging.specs.Groups.{seen_at, ChangesOnly};

use aging::{MarkSet, to_youngest};
use lru_gen::Gens;
use machine::id::{GroupId, PageId};
use machine::record::Kind;

/// A page and its type.
#[derive(Clone, Copy)]
pub struct Old {
    pub page: PageId,
    pub kind: Kind,
}

/// The oldest generation of the type is empty, and two others remain.
fn can_go(gens: &Gens, group: GroupId, kind: Kind) -> bool
    requires { group.0 < length gens.now.groups }
    ensures { result ≡ (is_none (front_of (row_of kind (gens_of gens.now group.0))) && nat_lt ((row_of kind (gens_of gens.now group.0)).min_seq + 1) (gens_of gens.now group.0).max_seq) }
{
    gens.is_sound();
    gens.front(group, kind).is_none() && gens.max_seq(group) - gens.min_seq(group, kind) >= 2
}

/// Ends the oldest generations of the type that are empty, while two others remain (kernel:
/// try_to_inc_min_seq).
fn settle(gens: &mut Gens, group: GroupId, kind: Kind)
    requires { group.0 < length gens.old.groups }
    ensures { gens.new ≡ sets gens.old group.0 (on_row kind (settled_row (gens_of gens.old group.0).max_seq) (gens_of gens.old group.0)) }
{
    while can_go(gens, group, kind) {
        gens.raise_min(group, kind);
    }
    gens.is_sound();
}

/// The first old page of a type.
fn old_front(gens: &Gens, group: GroupId, kind: Kind) -> Option<Old>
    requires group { group.0 < length gens.now.groups }
    requires settled { row_of kind (gens_of gens.now group.0) ≡ settled_row (gens_of gens.now group.0).max_seq (row_of kind (gens_of gens.now group.0)) }
    ensures page { option_map (λ o. o.page.0) result ≡ option_map (λ l. l.page) (slice_get (old_of (gens_of gens.now group.0).max_seq (row_of kind (gens_of gens.now group.0)).pages) 0) }
    ensures kind { IfSome result (λ o. o.kind ≡ kind) }
{
    gens.is_sound();
    if gens.max_seq(group) - gens.min_seq(group, kind) < 2 {
        return None;
    }
    let page = gens.front(group, kind)?;
    Some(Old { page, kind })
}

/// The first old page that is anonymous and reclaimable.
fn old_anon(gens: &Gens, group: GroupId, swap_free: bool) -> Option<Old>
    requires group { group.0 < length gens.now.groups }
    requires settled { (gens_of gens.now group.0).anon ≡ settled_row (gens_of gens.now group.0).max_seq (gens_of gens.now group.0).anon }
    ensures page { option_map (λ o. o.page.0) result ≡ option_map (λ l. l.page) (slice_get (old_of (gens_of gens.now group.0).max_seq (usable_anon swap_free (gens_of gens.now group.0))) 0) }
    ensures kind { IfSome result (λ o. o.kind ≡ Kind.Anon) }
{
    if !swap_free {
        return None;
    }
    old_front(gens, group, Kind::Anon)
}

/// Whether the file page comes first: its number is lower, or both are the same.
fn is_file_first(gens: &Gens, group: GroupId, file: bool, anon: bool) -> bool
    requires { group.0 < length gens.now.groups }
    ensures { result ≡ (not anon || (file && nat_le (gens_of gens.now group.0).file.min_seq (gens_of gens.now group.0).anon.min_seq)) }
{
    !anon || (file && gens.min_seq(group, Kind::File) <= gens.min_seq(group, Kind::Anon))
}

/// The next page to look at.
fn first_old(gens: &Gens, group: GroupId, swap_free: bool) -> Option<Old>
    requires group { group.0 < length gens.now.groups }
    requires settled { gens_of gens.now group.0 ≡ settled_gens (gens_of gens.now group.0) }
    ensures page { option_map (λ o. o.page.0) result ≡ option_map (λ l. l.page) (slice_get (old_pages swap_free (gens_of gens.now group.0)) 0) }
    ensures kind { IfSome result (λ o. o.kind ≡ kind_of (gens_of gens.now group.0) o.page.0) }
    ensures listed { IfSome result (λ o. is_listed (gens_of gens.now group.0) o.page.0 ≡ true) }
{
    gens.is_sound();
    let file = old_front(gens, group, Kind::File);
    let anon = old_anon(gens, group, swap_free);
    if is_file_first(gens, group, file.is_some(), anon.is_some()) {
        file
    } else {
        anon
    }
}

/// The next page to look at, after empty oldest generations have ended.
fn next_old(gens: &mut Gens, group: GroupId, swap_free: bool) -> Option<Old>
    requires { group.0 < length gens.old.groups }
    ensures gens { gens.new ≡ sets gens.old group.0 (settled_gens (gens_of gens.old group.0)) }
    ensures page { option_map (λ o. o.page.0) result ≡ option_map (λ l. l.page) (slice_get (old_pages swap_free (gens_of gens.old group.0)) 0) }
    ensures kind { IfSome result (λ o. o.kind ≡ kind_of (gens_of gens.old group.0) o.page.0) }
    ensures listed { IfSome result (λ o. is_listed (gens_of gens.old group.0) o.page.0 ≡ true) }
{
    settle(gens, group, Kind::Anon);
    settle(gens, group, Kind::File);
    first_old(gens, group, swap_free)
}

/// The result of a search, and how many pages it looked at.
#[derive(Clone, Copy)]
pub struct Search {
    pub page: Option<PageId>,
    pub looks: u64,
}

/// The first old page that is not marked. The marked ones before it move to the tails, unmarked.
pub fn first_unmarked(
    gens: &mut Gens,
    marks: &mut MarkSet,
    group: GroupId,
    swap_free: bool,
) -> Search
    requires group { group.0 < length gens.old.groups }
    requires marked { gens.old.pages ≤ length marks.old }
    ensures seen { seen_at group.0 gens.new marks.new ≡ settled (passed_by swap_free (seen_at group.0 gens.old marks.old)) }
    ensures only { ChangesOnly group.0 gens.old gens.new }
    ensures page { option_map (λ p. p.0) result.page ≡ option_map (λ l. l.page) (slice_get (old_pages swap_free (gens_of gens.new group.0)) 0) }
    ensures looks { result.looks ≡ length (front_run (has_mark marks.old) (old_pages swap_free (gens_of gens.old group.0))) + (if is_some result.page then 1 else 0) }
    ensures few { result.looks ≤ length marks.old + 1 }
    ensures usable { has_usable swap_free (gens_of gens.new group.0) ≡ has_usable swap_free (gens_of gens.old group.0) }
    ensures size { length marks.new ≡ length marks.old }
{
    marks.is_bounded();
    let mut looks = 0;
    while let Some(old) = next_old(gens, group, swap_free) {
        gens.is_sound();
        looks += 1;
        if !marks.is_marked(old.page) {
            return Search {
                page: Some(old.page),
                looks,
            };
        }
        to_youngest(gens, marks, group, old.page, old.kind);
    }
    Search { page: None, looks }
}
