//! Which member of a `together` comes next.

ghost use Rattle.std.specs.Prelude.{◌≡◌, ◌<◌, ◌+◌, true, length, Some};
ghost use Rattle.expansion.specs.Merge.{has_next, is_before, NextOf, IsNext};

/// A member: a list of so many entries, of which so many were taken.
#[derive(Clone, Copy, Debug, PartialEq, Eq)]
pub struct Cursor {
    pub count: u64,
    pub taken: u64,
}

impl Cursor {
    /// Whether an entry is left.
    pub fn has_next(self) -> bool
        ensures { result ≡ has_next self }
    {
        self.taken < self.count
    }

    /// Whether the next entry's place comes before that of another member's next one. The i-th of n entries, i from 1,
    /// has the place i/n.
    pub fn is_before(self, other: Cursor) -> bool
        requires mine { has_next self ≡ true }
        requires others { has_next other ≡ true }
        ensures { result ≡ is_before self other }
    {
        u128::from(self.taken + 1) * u128::from(other.count)
            < u128::from(other.taken + 1) * u128::from(self.count)
    }
}

/// Which of the members up to this one comes next, if `above` is the one of those above.
fn next_with(members: &[Cursor], place: usize, above: Option<usize>) -> Option<usize>
    requires within { place < length members.now }
    requires known { NextOf members.now place above }
    ensures { NextOf members.now (place + 1) result }
{
    let member = members[place];
    if !member.has_next() {
        return above;
    }
    match above {
        None => Some(place),
        Some(first) => {
            if member.is_before(members[first]) {
                Some(place)
            } else {
                Some(first)
            }
        }
    }
}

/// The member whose next entry comes next: the one of the least place. If several have that place, it is the first one.
pub fn next_member(members: &[Cursor]) -> Option<usize>
    ensures { IsNext members.now result }
{
    let mut first = None;
    for place in 0..members.len() {
        first = next_with(members, place, first);
    }
    first
}
