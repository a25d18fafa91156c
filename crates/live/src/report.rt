//! What a run returns at its end.

ghost use Rattle.std.specs.Prelude.{◌≡◌};

use book::{Kept, Pass};
use std::marker::Model;
use trace::{First, Trace};

/// A pass after the end of its run. It can be read, but nothing can be asked with it.
#[derive(Drop)]
pub struct EndedPass {
    pass: Pass,
}

impl Model for EndedPass {
    ghost use Rattle.book.specs.Passes.{PassOf};

    ghost Value = { PassOf };

    ghost view = { λ p. p.pass };
}

impl EndedPass {
    pub(crate) fn new(pass: Pass) -> EndedPass
        ensures { result ≡ pass }
    {
        EndedPass { pass }
    }

    /// The worker's number.
    pub fn worker(&self) -> u32
        ensures { result ≡ self.now.caller.worker }
    {
        self.pass.worker().0
    }

    /// What was asked with it and the answers, the oldest first. An arrival is kept without its bytes.
    pub fn kept(&self) -> &[Kept]
        ensures { result.now ≡ self.now.kept }
    {
        self.pass.kept()
    }
}

/// What the workers did, from the opening to the end, with their passes and their device.
#[derive(Drop)]
pub struct Report<D> {
    /// The events that were not refused, with their replies, in the order in which the book took them.
    pub trace: Trace,
    /// Whether the answers that each worker's pass keeps are the answers of all its entries in the trace. They
    /// always are.
    pub replies_match: bool,
    /// `Ok` if each page that arrived brought what was last written, and each read returned it. Otherwise the first
    /// entry that did not.
    pub audit: Result<(), First>,
    /// The passes that were handed in, in the same order.
    pub passes: Vec<EndedPass>,
    /// The machine's device.
    pub device: D,
}

/// Why a run is not finished.
#[derive(Clone, Copy, PartialEq, Eq)]
pub enum Unfinished {
    /// One of the passes was not handed in, or has a ticket out. The number says how many passes were given out.
    PassMissing(u32),
}
