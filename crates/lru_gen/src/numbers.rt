//! The sequence numbers of a group's generations, and the list of each.

ghost use Rattle.std.specs.Prelude.{◌≡◌, ◌+◌, ◌<◌, ◌^◌};
ghost use Rattle.machine.specs.Generations.{of_kind};
ghost use Rattle.lru_gen.specs.Lists.{slot};
ghost use Rattle.lru_gen.specs.Rows.{oldest, with_oldest};

use machine::id::GroupId;
use machine::record::Kind;
use rings::ListId;

/// The sequence numbers of a group's generations: for each type, from its oldest to the youngest.
#[derive(Clone, Copy)]
pub struct Numbers {
    pub max_seq: u64,
    pub anon_min_seq: u64,
    pub file_min_seq: u64,
}

impl Numbers {
    /// The number of a type's oldest generation.
    pub fn min_seq(&self, kind: Kind) -> u64
        ensures { result ≡ oldest kind self.now }
    {
        match kind {
            Kind::Anon => self.anon_min_seq,
            Kind::File => self.file_min_seq,
        }
    }

    fn set_min_seq(&mut self, kind: Kind, to: u64)
        ensures { self.new ≡ with_oldest kind to self.old }
    {
        match kind {
            Kind::Anon => self.anon_min_seq = to,
            Kind::File => self.file_min_seq = to,
        }
    }

    /// Makes the next generation of a type the oldest. Returns its number.
    pub fn raise_min_seq(&mut self, kind: Kind) -> u64
        requires { oldest kind self.old < self.old.max_seq }
        ensures raised { self.new ≡ with_oldest kind (oldest kind self.old + 1) self.old }
        ensures number { result ≡ oldest kind self.old + 1 }
    {
        // The code also reads the youngest number: since it fits, so does the oldest plus one.
        let (oldest, _youngest) = (self.min_seq(kind), self.max_seq);
        self.set_min_seq(kind, oldest + 1);
        oldest + 1
    }
}

/// The list of a generation. Each type of each group has four, which its generations use in turn.
pub fn list_of(group: GroupId, kind: Kind, seq: u64) -> ListId
    requires { group.0 < 2 ^ 28 }
    ensures { result.0 ≡ slot group.0 kind seq }
{
    let first = match kind {
        Kind::Anon => 0,
        Kind::File => 4,
    };
    ListId(group.0 * 8 + first + (seq % 4) as u32)
}

/// The group and the type of a list.
pub fn type_of(list: ListId) -> (GroupId, Kind)
    ensures { list.0 ≡ slot result.0.0 result.1 list.0 }
{
    let kind = if list.0 / 4 % 2 == 0 {
        Kind::Anon
    } else {
        Kind::File
    };
    (GroupId(list.0 / 8), kind)
}
