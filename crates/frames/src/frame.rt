//! A page frame and its bytes.

ghost use Rattle.std.specs.Prelude.{◌≡◌, ◌≢◌, ℕ, ◌<◌, IfOk, slice_index};
ghost use Rattle.machine.specs.Access.{page_size};

use machine::bytes::PAGE_BYTES;
use machine::id::FrameId;
use std::alloc::{AllocError, Global};
use std::marker::Model;

/// The number of bytes of a frame, equal to the bytes of a page (kernel: `PAGE_SIZE`).
pub const FRAME_BYTES: usize = PAGE_BYTES;

/// A page frame: 4,096 bytes of memory, with its number (kernel: a page frame and its number). It
/// is not `Drop`: [`Pool::give`](crate::Pool::give) returns it to the pool that it came from.
#[must_use]
pub struct Frame {
    number: FrameId,
    bytes: Box<[u8; FRAME_BYTES]>,
}

impl Model for Frame {
    ghost use Rattle.frames.specs.Pool.{FrameOf};

    ghost Value = { FrameOf };

    ghost view = { λ f. record { number = f.number.0; bytes = f.bytes.value } };
}

impl Frame {
    /// A frame of zeros. `AllocError` if there is no memory for its bytes.
    pub(crate) fn new(alloc: Global, number: FrameId) -> Result<Self, AllocError>
        ensures number { IfOk result (λ f. f.number ≡ number.0) }
        ensures zeros { IfOk result (λ f. (o : ℕ) → slice_index f.bytes o ≡ 0) }
    {
        let bytes = Box::new(alloc, [0; FRAME_BYTES])?;
        Ok(Frame { number, bytes })
    }

    /// Ends the frame, and returns its memory to the program.
    pub(crate) fn end(self) {
        let Frame {
            number: _,
            bytes: _,
        } = self;
    }

    /// The number of the frame.
    pub fn number(&self) -> FrameId
        ensures { result.0 ≡ self.now.number }
    {
        self.number
    }

    /// The byte at an offset.
    pub fn read(&self, offset: usize) -> u8
        requires { offset < page_size }
        ensures { result ≡ slice_index self.now.bytes offset }
    {
        self.bytes[offset]
    }

    /// Changes the byte at an offset.
    pub fn write(&mut self, offset: usize, byte: u8)
        requires { offset < page_size }
        ensures written { slice_index self.new.bytes offset ≡ byte }
        ensures others { (o : ℕ) → o ≢ offset → slice_index self.new.bytes o ≡ slice_index self.old.bytes o }
        ensures number { self.new.number ≡ self.old.number }
    {
        self.bytes[offset] = byte;
    }

    /// All bytes, lent for reading.
    pub fn bytes(&self) -> &[u8; FRAME_BYTES]
        ensures { result.now ≡ self.now.bytes }
    {
        &self.bytes
    }

    /// Replaces all bytes by these (kernel: `copy_highpage`).
    pub fn fill(&mut self, bytes: &[u8; FRAME_BYTES])
        ensures bytes { self.new.bytes ≡ bytes.now }
        ensures number { self.new.number ≡ self.old.number }
    {
        *self.bytes = *bytes;
    }

    /// Replaces all bytes by zeros (kernel: `clear_highpage`).
    pub fn clear(&mut self)
        ensures zeros { (o : ℕ) → slice_index self.new.bytes o ≡ 0 }
        ensures number { self.new.number ≡ self.old.number }
    {
        set_zeros(&mut self.bytes);
    }
}

fn set_zeros(bytes: &mut [u8; FRAME_BYTES])
    ensures { (o : ℕ) → slice_index bytes.new o ≡ 0 }
{
    *bytes = [0; FRAME_BYTES];
}
