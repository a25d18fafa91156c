//! A page's charge to a group, and its refusal.

use machine::id::GroupId;
use std::marker::Model;

/// One page charged to a group and to each group above it. It has no `Drop`: it must be returned to
/// the counters ([`crate::Counters::uncharge`]).
///
/// A contract sees it as the number of its group.
#[must_use]
pub struct Charge {
    group: GroupId,
}

impl Model for Charge {
    ghost use Rattle.std.specs.Prelude.{ℕ};

    ghost Value = { ℕ };

    ghost view = { λ c. c.group.0 };
}

impl Charge {
    ghost use Rattle.std.specs.Prelude.{◌≡◌};

    pub(crate) fn new(group: GroupId) -> Self
        ensures { result ≡ group.0 }
    {
        Charge { group }
    }

    /// The group that the page is charged to.
    pub fn group(&self) -> GroupId
        ensures { result.0 ≡ self.now }
    {
        self.group
    }

    pub(crate) fn into_group(self) -> GroupId
        ensures { result.0 ≡ self }
    {
        let Charge { group } = self;
        group
    }
}

/// No charge: another page would exceed this group's max.
#[derive(Clone, Copy)]
pub struct Over(pub GroupId);
