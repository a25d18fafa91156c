//! All that a book shows.

use book::{Book, Event, Pass, Reply};
use machine::event::Query;
use machine::id::GroupId;
use machine::record::Guard;
use machine::reply::Shown;
use machine::text::Text;
use std::alloc::Global;
use turns::automaton::spend;

/// The paths that are looked up.
const PATHS: [&str; 6] = ["/", "/a", "/b", "/c", "/d", "/e"];

/// The number of groups that are looked at, whether they exist or not.
const GROUPS: usize = 10;

/// What is shown of one group: its files, if it exists.
#[derive(Clone, Copy, PartialEq, Eq)]
struct GroupShown {
    files: [Option<Shown>; 10],
}

/// What is shown of all groups, and which group has each path.
#[derive(Clone, Copy, PartialEq, Eq)]
pub struct Shows {
    groups: [GroupShown; GROUPS],
    numbers: [Option<u32>; 6],
}

fn show(book: &mut Book, pass: &mut Pass, query: Query) -> Option<Shown> {
    if pass.reserve(1).is_err() {
        return None;
    }
    match book.call(pass, Event::Show(query)) {
        Reply::Shown(shown) => Some(shown),
        other => {
            spend(other);
            None
        }
    }
}

/// The effective value of a group for a reclaim of the root.
fn show_protection(
    book: &mut Book,
    pass: &mut Pass,
    guard: Guard,
    group: GroupId,
) -> Option<Shown> {
    show(
        book,
        pass,
        Query::Protection {
            guard,
            target: GroupId::ROOT,
            group,
        },
    )
}

fn group_shown(book: &mut Book, pass: &mut Pass, group: GroupId) -> GroupShown {
    GroupShown {
        files: [
            show(book, pass, Query::Current(group)),
            show(book, pass, Query::Max(group)),
            show(book, pass, Query::Guard(Guard::Min, group)),
            show(book, pass, Query::Guard(Guard::Low, group)),
            show(book, pass, Query::OomGroup(group)),
            show(book, pass, Query::Events(group)),
            show(book, pass, Query::EventsLocal(group)),
            show(book, pass, Query::Stat(group)),
            show_protection(book, pass, Guard::Min, group),
            show_protection(book, pass, Guard::Low, group),
        ],
    }
}

fn number(book: &Book, path: &str) -> Option<u32> {
    book.look(path).map(|group| group.number)
}

/// Looks at a book. The pass has room for it, so no memory is taken.
pub fn look(book: &mut Book, pass: &mut Pass) -> Shows {
    let mut groups = [GroupShown { files: [None; 10] }; GROUPS];
    for (at, shown) in groups.iter_mut().enumerate() {
        *shown = group_shown(book, pass, GroupId(at as u32));
    }
    let mut numbers = [None; 6];
    for (found, path) in numbers.iter_mut().zip(PATHS.iter()) {
        *found = number(book, path);
    }
    Shows { groups, numbers }
}

/// Whether the pass finds the group that was seen for each path.
pub fn finds_the_same(alloc: Global, book: &Book, pass: &mut Pass, seen: &Shows) -> bool {
    for (number, path) in seen.numbers.iter().zip(PATHS.iter()) {
        let Ok(string) = String::from_str(alloc, path) else {
            return false;
        };
        if pass.reserve(1).is_err() {
            return false;
        }
        let found = book.find(pass, Text::new(string));
        if found.map(|group| group.0) != *number {
            return false;
        }
    }
    true
}
