//! The page that is evicted next.

ghost use Rattle.std.specs.Prelude.{◌≡◌, ℕ, ◌+◌, ◌*◌, ◌≤◌, ◌<◌, ◌^◌, [], true, false, length, option_map, is_some, IfSome};
ghost use Rattle.machine.specs.Generations.{listed, is_listed};
ghost use Rattle.machine.specs.Aging.{has_mark, is_marked};
ghost use Rattle.machine.specs.Eviction.{old_pages, has_usable, front_run, settled_gens, AgesToOld, Picks};
ghost use Rattle.lru_gen.specs.Gens.{gens_of};
ghost use Rattle.aging.specs.Groups.{seen_at, ChangesOnly};
ghost use Rattle.eviction.specs.Kept.{ListsSame};

use crate::found::Pick;
use crate::search::first_unmarked;
use aging::{MarkSet, age};
use lru_gen::Gens;
use machine::id::GroupId;

/// Ages the group until a page is old, no more often than necessary, and takes the first old page.
fn age_until_old(gens: &mut Gens, marks: &mut MarkSet, group: GroupId, swap_free: bool) -> Pick
    requires group { group.0 < length gens.old.groups }
    requires marked { gens.old.pages ≤ length marks.old }
    requires usable { has_usable swap_free (gens_of gens.old group.0) ≡ true }
    requires none { old_pages swap_free (gens_of gens.old group.0) ≡ [] }
    requires settled { gens_of gens.old group.0 ≡ settled_gens (gens_of gens.old group.0) }
    requires fits { (gens_of gens.old group.0).max_seq + 3 < 2 ^ 64 }
    ensures picks { AgesToOld swap_free (seen_at group.0 gens.old marks.old) (Some result.page.0) (seen_at group.0 gens.new marks.new) }
    ensures only { ChangesOnly group.0 gens.old gens.new }
    ensures ages { (gens_of gens.new group.0).max_seq ≡ (gens_of gens.old group.0).max_seq + result.ages }
    ensures few { result.ages ≤ 3 }
    ensures looks { result.looks ≡ 1 }
{
    gens.is_sound();
    let mut ages = 0;
    loop {
        age(gens, marks, group);
        ages += 1;
        let search = first_unmarked(gens, marks, group, swap_free);
        if let Some(page) = search.page {
            return Pick {
                page,
                ages,
                looks: search.looks,
            };
        }
    }
}

/// The page of a group that is evicted next, if there is one. It is still on its list (kernel: isolate_folios). `None`
/// if no page is reclaimable, and then nothing changes. Allocates no memory.
///
/// Each page keeps its type, and the marks of other groups' pages do not change.
pub fn pick(gens: &mut Gens, marks: &mut MarkSet, group: GroupId, swap_free: bool) -> Option<Pick>
    requires group { group.0 < length gens.old.groups }
    requires marked { gens.old.pages ≤ length marks.old }
    requires fits { (gens_of gens.old group.0).max_seq + 4 < 2 ^ 64 }
    ensures picks { Picks swap_free (seen_at group.0 gens.old marks.old) (option_map (λ p. p.page.0) result) (seen_at group.0 gens.new marks.new) }
    ensures answers { is_some result ≡ has_usable swap_free (gens_of gens.old group.0) }
    ensures listed { IfSome result (λ p. is_listed (gens_of gens.new group.0) p.page.0 ≡ true) }
    ensures ages { IfSome result (λ p. (gens_of gens.new group.0).max_seq ≡ (gens_of gens.old group.0).max_seq + p.ages) }
    ensures few_ages { IfSome result (λ p. p.ages ≤ 3) }
    // The marked pages that it skipped, and the page that it found.
    ensures looks { IfSome result (λ p. p.looks ≡ length (front_run (has_mark marks.old) (old_pages swap_free (gens_of gens.old group.0))) + 1) }
    ensures one_look { IfSome result (λ p. 1 ≤ p.looks) }
    ensures few_looks { IfSome result (λ p. p.looks ≤ 4 * length (listed (gens_of gens.old group.0))) }
    // What does not change.
    ensures same_pages { (g : ℕ) → ListsSame (gens_of gens.old g) (gens_of gens.new g) }
    ensures only { ChangesOnly group.0 gens.old gens.new }
    ensures other_marks { (p : ℕ) → is_listed (gens_of gens.old group.0) p ≡ false → is_marked marks.new p ≡ is_marked marks.old p }
    ensures size { length marks.new ≡ length marks.old }
{
    if !gens.has_usable(group, swap_free) {
        return None;
    }
    gens.is_sound();
    marks.is_bounded();
    let search = first_unmarked(gens, marks, group, swap_free);
    if let Some(page) = search.page {
        return Some(Pick {
            page,
            ages: 0,
            looks: search.looks,
        });
    }
    let aged = age_until_old(gens, marks, group, swap_free);
    Some(Pick {
        page: aged.page,
        ages: aged.ages,
        looks: search.looks + aged.looks,
    })
}
