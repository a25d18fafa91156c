//! A caller of `oom`.

use group_tree::{Flags, Tree};
use machine::id::{GroupId, PageId, TaskId};
use machine::record::OomGroup;
use oom::{Chosen, victim, victims};
use spaces::Spaces;
use std::test::Fail;

#[test]
fn the_task_with_the_most_mappings_is_taken(rt: HostRuntime) -> Result<(), Fail> {
    let tree = Tree::open(rt.alloc())?;
    let mut spaces = Spaces::new(rt.alloc(), 1)?;
    let of_none = victim(&tree, &spaces, GroupId::ROOT);
    assert!(rt; spaces.number_refusal(TaskId(1)).is_none());
    spaces.spawn(TaskId(1), GroupId::ROOT)?;
    assert!(rt; spaces.number_refusal(TaskId(2)).is_none());
    spaces.spawn(TaskId(2), GroupId::ROOT)?;
    let of_equal = victim(&tree, &spaces, GroupId::ROOT);
    spaces.map(TaskId(2), 0, PageId(0));
    let of_larger = victim(&tree, &spaces, GroupId::ROOT);
    assert_eq!(rt;
        [of_none, of_equal, of_larger],
        [None, Some(TaskId(1)), Some(TaskId(2))]
    );
    Ok(())
}

#[test]
fn a_group_with_the_flag_dies_with_its_task(rt: HostRuntime) -> Result<(), Fail> {
    let tree = Tree::open(rt.alloc())?;
    let mut flags = Flags::new(rt.alloc())?;
    let mut spaces = Spaces::new(rt.alloc(), 1)?;
    assert!(rt; spaces.number_refusal(TaskId(1)).is_none());
    spaces.spawn(TaskId(1), GroupId::ROOT)?;
    let alone = Some(Chosen {
        victim: TaskId(1),
        group: None,
    });
    let first = victims(&tree, &spaces, &flags, GroupId::ROOT);
    flags.set_flag(GroupId::ROOT, OomGroup::Whole);
    let with_group = Some(Chosen {
        victim: TaskId(1),
        group: Some(GroupId::ROOT),
    });
    let second = victims(&tree, &spaces, &flags, GroupId::ROOT);
    assert_eq!(rt; [first, second], [alone, with_group]);
    Ok(())
}
