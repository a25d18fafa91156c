//! Worked rows.

ghost use Rattle.std.specs.Prelude.{◌≡◌, ◌∷◌, [], IfOk};
ghost use Rattle.machine.specs.Generations.{new_gens, added};

use aging::MarkSet;
use eviction::{Pick, pick};
use lru_gen::Gens;
use machine::id::{GroupId, PageId};
use machine::record::Kind;
use std::alloc::{AllocError, Global};
use std::test::Fail;

/// A new group, with the anonymous pages 1 and 2 in its youngest generation.
fn young(alloc: Global) -> Result<Gens, AllocError>
    ensures groups { IfOk result (λ s. s.groups ≡ added 2 Kind.Anon 3 (added 1 Kind.Anon 3 new_gens) ∷ []) }
    ensures pages { IfOk result (λ s. s.pages ≡ 3) }
{
    let mut gens = Gens::open(alloc, 3)?;
    gens.reserve_group()?;
    gens.add_group_reserved();
    gens.add(GroupId(0), PageId(1), Kind::Anon, 3);
    gens.add(GroupId(0), PageId(2), Kind::Anon, 3);
    Ok(gens)
}

#[test]
fn two_marked_pages_of_the_youngest_generation_take_three_agings(
    rt: HostRuntime,
) -> Result<(), Fail> {
    let mut gens = young(rt.alloc())?;
    let mut marks = MarkSet::open(rt.alloc(), 3)?;
    marks.set(PageId(1));
    marks.set(PageId(2));
    let found = pick(&mut gens, &mut marks, GroupId(0), true);
    assert!(rt;
        found
            == Some(Pick {
                page: PageId(1),
                ages: 3,
                looks: 1
            })
    );
    assert!(rt; !marks.is_marked(PageId(1)) && !marks.is_marked(PageId(2)));
    Ok(())
}

#[test]
fn anonymous_pages_stay_where_no_swap_block_is_free(rt: HostRuntime) -> Result<(), Fail> {
    let mut gens = young(rt.alloc())?;
    let mut marks = MarkSet::open(rt.alloc(), 3)?;
    assert!(rt; pick(&mut gens, &mut marks, GroupId(0), false).is_none());
    Ok(())
}
