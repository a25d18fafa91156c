//! Bytes outside the frames, for pages that are being written out.

ghost use Rattle.std.specs.Prelude.{◌≡◌};

use crate::frame::FRAME_BYTES;
use std::alloc::{AllocError, Global};
use std::marker::Model;

/// 4,096 bytes outside the frames: a copy of a page while it is being written out (kernel: a bounce
/// page). It is not `Drop`: [`Pool::give_spare`](crate::Pool::give_spare) returns it to the pool
/// that it came from, or [`Spare::discard`] ends it.
#[must_use]
pub struct Spare {
    bytes: Box<[u8; FRAME_BYTES]>,
}

impl Model for Spare {
    ghost use Rattle.std.specs.Prelude.{ℕ, List};

    ghost Value = { List ℕ };

    ghost view = { λ s. s.bytes.value };
}

impl Spare {
    /// A spare of zeros. `AllocError` if there is no memory for its bytes.
    pub(crate) fn new(alloc: Global) -> Result<Spare, AllocError> {
        let bytes = Box::new(alloc, [0; FRAME_BYTES])?;
        Ok(Spare { bytes })
    }

    /// The bytes.
    pub fn bytes(&self) -> &[u8; FRAME_BYTES]
        ensures { result.now ≡ self.now }
    {
        &self.bytes
    }

    /// Replaces all bytes by these.
    pub fn fill(&mut self, bytes: &[u8; FRAME_BYTES])
        ensures { self.new ≡ bytes.now }
    {
        *self.bytes = *bytes;
    }

    /// Ends the spare, and returns its memory to the program. It does not return to a pool.
    pub fn discard(self) {
        let Spare { bytes: _ } = self;
    }
}
