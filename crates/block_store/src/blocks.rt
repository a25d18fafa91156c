//! The bytes of a device in memory.

ghost use Rattle.std.specs.Prelude.{◌≡◌, ◌<◌, length, replicate, slice_set, IfOk};
ghost use Rattle.machine.specs.Access.{page_size};
ghost use Rattle.block_store.specs.Device.{bytes_on};

use crate::device::BLOCK_BYTES;
use std::alloc::{AllocError, Global};
use std::marker::Model;

/// The place of a block that was never written.
const NOWHERE: u32 = u32::MAX;

/// The contents of numbered blocks, which start as zeros. All memory is reserved by [`Blocks::new`].
/// The bytes of a block are first touched when the block is first written.
#[derive(Drop)]
pub(crate) struct Blocks {
    /// The index of each block in `written`, or [`NOWHERE`].
    places: Vec<u32>,
    /// The bytes of the blocks that were written, in the order of their first writes.
    written: Vec<[u8; BLOCK_BYTES]>,
}

impl Model for Blocks {
    ghost use Rattle.std.specs.Prelude.{ℕ, List, length, vec_capacity};
    ghost use Rattle.block_store.specs.Blocks.{ArePlaces, contents_of};

    ghost Value = { List (List ℕ) };

    ghost view = { λ b. contents_of b.written.items b.places.items };

    ghost invariant = { λ b. ArePlaces b.places.items (length b.written.items) (vec_capacity b.written) };
}

impl Blocks {
    /// This many blocks of zeros. `AllocError` if there is no memory for them.
    pub(crate) fn new(alloc: Global, count: u32) -> Result<Blocks, AllocError>
        ensures { IfOk result (λ b. b ≡ replicate count (replicate page_size 0)) }
    {
        let places = vec![in alloc; NOWHERE; count as usize]?;
        let written = Vec::with_capacity(alloc, count as usize)?;
        Ok(Blocks { places, written })
    }

    /// How many blocks there are.
    pub(crate) fn count(&self) -> u32
        ensures { result ≡ length self.now }
    {
        self.places.len() as u32
    }

    /// Copies the bytes of a block.
    pub(crate) fn read(&self, block: u32, to: &mut [u8; BLOCK_BYTES])
        requires { block < length self.now }
        ensures { to.new ≡ bytes_on self.now block }
    {
        let place = self.places[block as usize];
        if place == NOWHERE {
            *to = [0; BLOCK_BYTES];
        } else {
            *to = self.written[place as usize];
        }
    }

    /// Replaces the bytes of a block. Allocates no memory.
    pub(crate) fn write(&mut self, block: u32, bytes: &[u8; BLOCK_BYTES])
        requires { block < length self.old }
        ensures { self.new ≡ slice_set self.old block bytes.now }
    {
        let place = self.places[block as usize];
        if place == NOWHERE {
            self.places[block as usize] = self.written.len() as u32;
            self.written.push_reserved(*bytes);
        } else {
            self.written[place as usize] = *bytes;
        }
    }
}
