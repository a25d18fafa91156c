//! The roll of the passes that were given out.

ghost use Rattle.std.specs.Prelude.{◌≡◌, ◌+◌, []};
ghost use Rattle.live.specs.Rules.{of_worker, of_roll};

use crate::history::{Front, Log};
use crate::opened::Opened;
use std::marker::{Model, PhantomData};

/// The number of passes that were given out. [`Live::open`](crate::Live::open) makes it, and
/// [`Live::pass`](crate::Live::pass) adds one. [`Live::finish`](crate::Live::finish) or
/// [`Live::give_up`](crate::Live::give_up) must spend it at the end.
pub struct Roll<L: Opened> {
    given: u32,
    front: Front,
    of: PhantomData<L>,
}

impl<L: Opened> Model for Roll<L> {
    ghost use Rattle.std.specs.Prelude.{◌≡◌, []};
    ghost use Rattle.live.specs.OneRun.{RollOf};
    ghost use Rattle.live.specs.Rules.{of_roll};

    ghost Value = { RollOf };

    ghost view = { λ r. record { given = r.given } };

    ghost invariant = { λ r. (r.front.table_id ≡ L.table) × (r.front.me ≡ (of_roll r.given, [])) };
}

impl<L: Opened> Roll<L> {
    pub(crate) fn new(front: Front) -> Roll<L>
        requires { (front.table_id ≡ L.table) × (front.me ≡ (of_roll 0, [])) }
        ensures { result ≡ record { given = 0 } }
    {
        Roll {
            given: 0,
            front,
            of: PhantomData,
        }
    }

    /// How many passes were given out.
    pub fn given(&self) -> u32
        ensures { result ≡ self.now.given }
    {
        self.given
    }

    /// The roll has counted the passes that were given out. Nothing changes.
    pub(crate) fn agree(&mut self, log: &mut Log)
        requires of_these { log.old.table ≡ L.table }
        ensures roll { self.new ≡ self.old }
        ensures log { log.new ≡ log.old }
        ensures same { self.old.given ≡ log.old.given }
    {
        log.agree(&mut self.front, self.given);
    }

    /// Gives out another pass. `given` is the number of passes given out after that.
    pub(crate) fn give_out(&mut self, log: &mut Log, given: u32) -> Front
        requires of_these { log.old.table ≡ L.table }
        requires given { given ≡ log.old.given + 1 }
        ensures roll { self.new ≡ record { given = self.old.given + 1 } }
        ensures log { log.new ≡ record log.old { given = log.old.given + 1 } }
        ensures same { self.old.given ≡ log.old.given }
        ensures of_these { result.table_id ≡ L.table }
        ensures front { result.me ≡ (of_worker log.old.given [], []) }
    {
        let front = log.give_out(&mut self.front, self.given);
        self.given = given;
        front
    }

    pub(crate) fn into_front(self) -> Front
        ensures of_these { result.table_id ≡ L.table }
        ensures front { result.me ≡ (of_roll self.given, []) }
    {
        let Roll {
            given: _,
            front,
            of: _,
        } = self;
        front
    }
}
