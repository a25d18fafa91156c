//! Whether a group has a page of a file that is old and not marked.

ghost use Rattle.std.specs.Prelude.{◌≡◌, ◌<◌, ◌≤◌, length};
ghost use Rattle.machine.specs.Eviction.{has_old_file};
ghost use Rattle.aging.specs.Groups.{seen_at};

use aging::MarkSet;
use lru_gen::Gens;
use machine::id::GroupId;
use machine::record::Kind;

/// Whether a page of a file, in neither of the two youngest generations of the group, is not marked. It looks at the
/// marked ones before that page, and nothing changes.
pub fn has_old_file(gens: &Gens, marks: &MarkSet, group: GroupId) -> bool
    requires group { group.0 < length gens.now.groups }
    requires marked { gens.now.pages ≤ length marks.now }
    ensures { result ≡ has_old_file (seen_at group.0 gens.now marks.now) }
{
    gens.is_sound();
    let mut next = gens.first_old(group, Kind::File);
    while let Some(page) = next {
        if !marks.is_marked(page) {
            return true;
        }
        next = gens.old_after(group, Kind::File, page);
    }
    false
}
