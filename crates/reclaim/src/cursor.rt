//! Whose turn it is for one target.

ghost use Rattle.std.specs.Prelude.{◌≡◌, ◌<◌, None};
ghost use Rattle.machine.specs.Order.{no_cursor, one_page_of, more_in_turn, new_turn};
ghost use Rattle.reclaim.specs.Cursors.{cursor_of};

use machine::id::GroupId;

/// The group that was served last, and its turn.
#[derive(Clone, Copy)]
pub(crate) struct Cursor {
    /// `None` if no group was served.
    pub group: Option<GroupId>,
    /// How many pages more the group gives in its turn.
    pub left: u64,
    /// The size of which a group gives a page in this round.
    pub unit: u64,
}

impl Cursor {
    /// No group was served.
    pub fn new() -> Cursor
        ensures { cursor_of result ≡ no_cursor }
    {
        Cursor {
            group: None,
            left: 0,
            unit: 0,
        }
    }

    /// The group gave one page, and it is the turn of the next one.
    pub fn behind(group: GroupId) -> Cursor
        ensures { cursor_of result ≡ one_page_of group.0 }
    {
        Cursor {
            group: Some(group),
            left: 0,
            unit: 0,
        }
    }

    /// The group gives the first page of its turn. The number of pages in a turn is the group's size divided
    /// by the unit, rounded to the nearest number. It is at most a fourth of the group's pages, rounded up.
    pub fn begin(group: GroupId, size: u64, unit: u64) -> Cursor
        requires { 0 < unit }
        ensures { cursor_of result ≡ new_turn group.0 size unit }
    {
        let half = unit - unit / 2;
        let fourth = size.saturating_sub(1) / 4;
        Cursor {
            group: Some(group),
            left: (size.saturating_sub(half) / unit).min(fourth),
            unit,
        }
    }
}
