//! A caller of `group_tree`.

use group_tree::Tree;
use machine::id::GroupId;
use machine::refusal::Refusal;
use std::test::Fail;

/// Makes the group of a path, or says why it can't be made.
fn make(tree: &mut Tree, path: &str) -> Result<GroupId, Refusal> {
    let parent = tree.parent_for(path)?;
    match tree.space_refusal(parent) {
        Some(cause) => Err(cause),
        None => tree.mkdir(path).map_err(|_| Refusal::NoMemory),
    }
}

/// Removes the group of a path, if there is one that can be removed.
fn remove(tree: &mut Tree, path: &str) -> bool {
    match tree.find(path) {
        Some(group) if group != GroupId::ROOT && !tree.has_children(group) => {
            tree.rmdir(group);
            true
        }
        _ => false,
    }
}

#[test]
fn a_group_is_made_below_the_group_of_its_path(rt: HostRuntime) -> Result<(), Fail> {
    let mut tree = Tree::open(rt.alloc())?;
    let made = [
        make(&mut tree, "/a/b"),
        make(&mut tree, "/a"),
        make(&mut tree, "/a/b"),
    ];
    assert_eq!(rt;
        made,
        [Err(Refusal::NoEntry), Ok(GroupId(1)), Ok(GroupId(2))]
    );
    assert_eq!(rt;
        [tree.find("/a/b"), tree.parent(GroupId(2))],
        [Some(GroupId(2)), Some(GroupId(1))]
    );
    assert!(rt; tree.is_under(GroupId::ROOT, GroupId(2)));
    Ok(())
}

#[test]
fn a_removed_path_is_made_again_with_another_number(rt: HostRuntime) -> Result<(), Fail> {
    let mut tree = Tree::open(rt.alloc())?;
    let first = make(&mut tree, "/a");
    let removed = [remove(&mut tree, "/a"), remove(&mut tree, "/a")];
    let groups = [tree.find("/a"), tree.parent(GroupId(1))];
    let again = [make(&mut tree, "/a"), make(&mut tree, "/a/b")];
    let refused = [remove(&mut tree, "/a"), remove(&mut tree, "/")];
    assert_eq!(rt;
        (first, groups, again),
        (
            Ok(GroupId(1)),
            [None, Some(GroupId::ROOT)],
            [Ok(GroupId(2)), Ok(GroupId(3))]
        )
    );
    assert_eq!(rt; (removed, refused), ([true, false], [false, false]));
    Ok(())
}
