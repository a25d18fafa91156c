//! How one group's pages move to another's lists.

ghost use Rattle.std.specs.Prelude.{◌≡◌, ◌≢◌, ◌+◌, ◌*◌, ◌<◌, ◌≤◌, ◌^◌, length};
ghost use Rattle.lru_gen.specs.Rows.{HaveMoved};

use crate::numbers::list_of;
use machine::id::GroupId;
use machine::record::Kind;
use rings::Rings;

/// Moves the pages of a group's four generations of one type, from the oldest on, to the end of a
/// generation of another group.
pub fn move_pages(rings: &mut Rings, from: GroupId, oldest: u64, to: GroupId, seq: u64, kind: Kind)
    requires from { from.0 < 2 ^ 28 }
    requires from_lists { from.0 * 8 + 8 ≤ length rings.old.lists }
    requires to { to.0 < 2 ^ 28 }
    requires to_lists { to.0 * 8 + 8 ≤ length rings.old.lists }
    requires apart { from.0 ≢ to.0 }
    ensures lists { HaveMoved rings.old.lists rings.new.lists from.0 to.0 kind oldest 4 seq }
    ensures others { rings.new ≡ record rings.old { lists = rings.new.lists } }
{
    let target = list_of(to, kind, seq);
    for turn in 0..4 {
        rings.splice_back(list_of(from, kind, oldest % 4 + turn), target);
    }
}
