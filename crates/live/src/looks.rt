//! Looks at the groups of a run that has ended.

ghost use Rattle.std.specs.Prelude.{◌≡◌, ◌≤◌, [], length, map, vec_capacity};
ghost use Rattle.live.specs.Looks.{end_look};

use book::{Book, GroupLook};
use machine::record::{EventCounts, MemoryStat};

/// A group at the end of a run.
#[derive(Clone, Copy, Debug, PartialEq, Eq)]
pub struct EndLook {
    /// What is charged to it (`memory.current`), its settings, and the counts of the group itself
    /// (`memory.events.local`).
    pub group: GroupLook,
    /// What its pages contain (`memory.stat`, in pages).
    pub stat: MemoryStat,
    /// Its counts, with those of all groups below it (`memory.events`).
    pub events: EventCounts,
}

/// The group that has this path. `None` if no group has it.
fn look(book: &Book, path: &str) -> Option<EndLook>
    ensures { result ≡ end_look book.now.state path.now }
{
    let group = book.look(path)?;
    let stat = book.stat(path)?;
    let events = book.events(path)?;
    Some(EndLook {
        group,
        stat,
        events,
    })
}

/// The groups that have these paths, in the room for them.
pub fn look_all(book: &Book, paths: &[&str], room: Vec<Option<EndLook>>) -> Vec<Option<EndLook>>
    requires none { room.items ≡ [] }
    requires room { length paths.now ≤ vec_capacity room }
    ensures { result.items ≡ map (end_look book.now.state) (map (λ p. p.now) paths.now) }
{
    let mut looks = room;
    for path in paths {
        looks.push_reserved(look(book, path));
    }
    looks
}
