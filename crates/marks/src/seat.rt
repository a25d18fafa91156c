//! A thread's permission to set and to harvest.

ghost use Rattle.std.specs.Prelude.{◌≡◌};

use crate::log::Log;
use std::marker::Model;

/// A thread's permission to set and to harvest, with no lifetime. It has a log of its sets and harvests, which
/// only contracts see, and a number of parts. The seats of one [`Marks`](crate::Marks) have 2^32 parts together,
/// or fewer if a seat was dropped. An owner of all parts knows that no other thread can step.
#[derive(Drop)]
pub struct Seat {
    pub(crate) parts: u64,
    pub(crate) inner: atomic_table::Seat<(), Log>,
}

impl Model for Seat {
    ghost use Rattle.std.specs.Prelude.{◌≡◌, ◌<◌, []};
    ghost use Rattle.marks.specs.Logs.{SeatOf};

    ghost Value = { SeatOf };

    ghost view = { λ s. record { table = s.inner.table_id; log = s.inner.me.0 } };

    ghost invariant = { λ s. (s.inner.me.0.parts ≡ s.parts) × (0 < s.parts) × (s.inner.me.1 ≡ []) };
}

impl Seat {
    /// How many parts it has, from 1 to 2^32. A seat with 2 or more can give one to another seat.
    pub fn parts(&self) -> u64
        ensures { result ≡ self.now.log.parts }
    {
        self.parts
    }
}
