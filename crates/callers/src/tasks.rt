//! A caller of `spaces`.

use machine::id::{GroupId, PageId, TaskId};
use machine::record::{Life, Task};
use spaces::Spaces;
use std::test::Fail;

#[test]
fn a_page_is_mapped_and_unmapped(rt: HostRuntime) -> Result<(), Fail> {
    let (task, page) = (TaskId(7), PageId(0));
    let mut spaces = Spaces::new(rt.alloc(), 1)?;
    assert!(rt; spaces.number_refusal(task).is_none());
    spaces.spawn(task, GroupId::ROOT)?;
    spaces.map(task, 3, page);
    assert_eq!(rt; spaces.page(task, 3), Some(page));
    assert_eq!(rt; (spaces.size(task), spaces.mappers(page)), (1, 1));
    let unmapped = spaces.unmap(task, 3);
    assert_eq!(rt;
        (unmapped, spaces.size(task), spaces.mappers(page)),
        (Some(page), 0, 0)
    );
    spaces.exit(task, Life::Exited);
    Ok(())
}

#[test]
fn a_child_shows_its_parents_pages_and_a_task_changes_its_group(
    rt: HostRuntime,
) -> Result<(), Fail> {
    let (parent, child) = (TaskId(7), TaskId(3));
    let (first, last) = (PageId(1), PageId(0));
    let (home, other) = (GroupId(1), GroupId(2));
    let mut spaces = Spaces::new(rt.alloc(), 2)?;
    spaces.reserve_group()?;
    spaces.add_group();
    spaces.reserve_group()?;
    spaces.add_group();
    spaces.spawn(parent, home)?;
    spaces.map(parent, 0, first);
    spaces.map(parent, 1023, last);
    assert!(rt; spaces.number_refusal(child).is_none());
    spaces.fork(parent, child)?;
    let pages = [
        spaces.page(child, 0),
        spaces.page(child, 1),
        spaces.page(child, 1023),
    ];
    let sizes = [spaces.size(child), spaces.size(parent)];
    let mappers = [spaces.mappers(first), spaces.mappers(last)];
    let before = [spaces.task(child), spaces.task(parent)];
    spaces.attach(child, other);
    let after = [spaces.task(child), spaces.task(parent)];
    let forked = Some(Task {
        group: home,
        life: Life::Live,
    });
    let moved = Some(Task {
        group: other,
        life: Life::Live,
    });
    assert_eq!(rt;
        (pages, sizes, mappers),
        ([Some(first), None, Some(last)], [2, 2], [2, 2])
    );
    assert_eq!(rt; (before, after), ([forked, forked], [moved, forked]));
    assert_eq!(rt;
        (spaces.page(child, 0), spaces.size(child)),
        (Some(first), 2)
    );
    Ok(())
}

#[test]
fn a_group_has_tasks_until_the_last_one_moves_or_ends(rt: HostRuntime) -> Result<(), Fail> {
    let (task, group) = (TaskId(7), GroupId(1));
    let mut spaces = Spaces::new(rt.alloc(), 0)?;
    assert!(rt; spaces.number_refusal(task).is_none());
    spaces.reserve_group()?;
    spaces.add_group();
    let before = [spaces.has_tasks(group), spaces.has_tasks(GroupId(2))];
    spaces.spawn(task, group)?;
    let spawned = [spaces.has_tasks(group), spaces.has_tasks(GroupId::ROOT)];
    spaces.attach(task, GroupId::ROOT);
    let moved = [spaces.has_tasks(group), spaces.has_tasks(GroupId::ROOT)];
    spaces.exit(task, Life::Exited);
    let ended = [spaces.has_tasks(group), spaces.has_tasks(GroupId::ROOT)];
    assert_eq!(rt;
        [before, spawned, moved, ended],
        [[false, false], [true, false], [false, true], [false, false]]
    );
    Ok(())
}
