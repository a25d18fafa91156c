//! A new youngest generation.

ghost use Rattle.std.specs.Prelude.{◌≡◌, ◌+◌, ◌<◌, ◌≤◌, ◌^◌, true, false, length, slice_set};
ghost use Rattle.machine.specs.Generations.{row_of, on_row, is_listed, added, isolated};
ghost use Rattle.machine.specs.Aging.{aged, at_most_three, promoted, cleared};
ghost use Rattle.lru_gen.specs.Gens.{gens_of, sets};
ghost use Rattle.aging.specs.Groups.{seen_at};

use crate::mark_set::MarkSet;
use lru_gen::Gens;
use machine::id::{GroupId, PageId};
use machine::record::Kind;

/// Begins a new youngest generation of the group, with its marked pages, which lose their marks (kernel: inc_max_seq).
/// Allocates no memory.
pub fn age(gens: &mut Gens, marks: &mut MarkSet, group: GroupId)
    requires group { group.0 < length gens.old.groups }
    requires marked { gens.old.pages ≤ length marks.old }
    requires fits { (gens_of gens.old group.0).max_seq + 1 < 2 ^ 64 }
    ensures gens { gens.new ≡ sets gens.old group.0 (aged (seen_at group.0 gens.old marks.old)).gens }
    ensures marks { marks.new ≡ (aged (seen_at group.0 gens.old marks.old)).marks }
{
    gens.is_sound();
    merge_if_four(gens, group, Kind::Anon);
    merge_if_four(gens, group, Kind::File);
    gens.advance(group);
    promote(gens, marks, group, Kind::Anon);
    promote(gens, marks, group, Kind::File);
}

/// If a type has four generations, its oldest becomes part of the next (kernel: inc_min_seq).
fn merge_if_four(gens: &mut Gens, group: GroupId, kind: Kind)
    requires { group.0 < length gens.old.groups }
    ensures { gens.new ≡ sets gens.old group.0 (on_row kind (at_most_three (gens_of gens.old group.0).max_seq) (gens_of gens.old group.0)) }
{
    gens.is_sound();
    if gens.max_seq(group) - gens.min_seq(group, kind) == 3 {
        gens.merge_oldest(group, kind);
    }
}

/// Moves the marked pages of a type to the tail of its youngest generation, unmarked. The walk meets them again there
/// and skips them. Its number of steps is at most twice the number of the type's pages.
fn promote(gens: &mut Gens, marks: &mut MarkSet, group: GroupId, kind: Kind)
    requires group { group.0 < length gens.old.groups }
    requires marked { gens.old.pages ≤ length marks.old }
    ensures gens { gens.new ≡ sets gens.old group.0 (on_row kind (promoted (gens_of gens.old group.0).max_seq marks.old) (gens_of gens.old group.0)) }
    ensures marks { marks.new ≡ cleared (row_of kind (gens_of gens.old group.0)).pages marks.old }
{
    let mut next = gens.first(group, kind);
    while let Some(page) = next {
        gens.is_sound();
        // The code reads the next page before it moves this one.
        next = gens.after(group, kind, page);
        if !marks.is_marked(page) {
            continue;
        }
        to_youngest(gens, marks, group, page, kind);
    }
}

/// Moves a page of the group to the tail of its type's youngest generation, unmarked. Allocates no memory.
pub fn to_youngest(gens: &mut Gens, marks: &mut MarkSet, group: GroupId, page: PageId, kind: Kind)
    requires group { group.0 < length gens.old.groups }
    requires listed { is_listed (gens_of gens.old group.0) page.0 ≡ true }
    requires marked { gens.old.pages ≤ length marks.old }
    ensures gens { gens.new ≡ sets gens.old group.0 (added page.0 kind (gens_of gens.old group.0).max_seq (isolated page.0 (gens_of gens.old group.0))) }
    ensures marks { marks.new ≡ slice_set marks.old page.0 false }
{
    gens.is_sound();
    gens.isolate(page);
    gens.is_sound();
    let youngest = gens.max_seq(group);
    gens.add(group, page, kind, youngest);
    marks.clear(page);
}
