//! A worked row, and marks.

ghost use Rattle.std.specs.Prelude.{◌≡◌, ◌∷◌, [], IfOk};
ghost use Rattle.machine.specs.Generations.{new_gens, added};

use aging::{MarkSet, age};
use lru_gen::Gens;
use machine::id::{GroupId, PageId};
use machine::record::Kind;
use std::alloc::{AllocError, Global};
use std::test::Fail;

/// A group with the anonymous pages 1, 2 and 3 in generations 0, 1 and 2. There are 6 page numbers.
fn three_pages(alloc: Global) -> Result<Gens, AllocError>
    ensures groups { IfOk result (λ s. s.groups ≡ added 3 Kind.Anon 2 (added 2 Kind.Anon 1 (added 1 Kind.Anon 0 new_gens)) ∷ []) }
    ensures pages { IfOk result (λ s. s.pages ≡ 6) }
{
    let mut gens = Gens::open(alloc, 6)?;
    gens.reserve_group()?;
    gens.add_group_reserved();
    gens.add(GroupId(0), PageId(1), Kind::Anon, 0);
    gens.add(GroupId(0), PageId(2), Kind::Anon, 1);
    gens.add(GroupId(0), PageId(3), Kind::Anon, 2);
    Ok(gens)
}

#[test]
fn the_marked_page_of_the_group_is_promoted(rt: HostRuntime) -> Result<(), Fail> {
    let mut gens = three_pages(rt.alloc())?;
    let mut marks = MarkSet::open(rt.alloc(), 6)?;
    marks.set(PageId(2));
    marks.set(PageId(5));
    age(&mut gens, &mut marks, GroupId(0));
    let seqs = (
        gens.max_seq(GroupId(0)),
        gens.min_seq(GroupId(0), Kind::Anon),
    );
    let pages = [
        gens.front(GroupId(0), Kind::Anon),
        gens.after(GroupId(0), Kind::Anon, PageId(1)),
        gens.after(GroupId(0), Kind::Anon, PageId(3)),
    ];
    let marked = [marks.is_marked(PageId(2)), marks.is_marked(PageId(5))];
    assert_eq!(rt; (seqs, marked), ((4, 1), [false, true]));
    assert!(rt; pages == [Some(PageId(1)), Some(PageId(3)), Some(PageId(2))]);
    Ok(())
}

#[test]
fn a_mark_is_set_and_cleared(rt: HostRuntime) -> Result<(), Fail> {
    let mut marks = MarkSet::open(rt.alloc(), 3)?;
    let before = marks.is_marked(PageId(1));
    marks.set(PageId(1));
    let set = [marks.is_marked(PageId(1)), marks.is_marked(PageId(2))];
    marks.clear(PageId(1));
    assert_eq!(rt;
        (before, set, marks.is_marked(PageId(1))),
        (false, [true, false], false)
    );
    Ok(())
}
