//! Devices that several workers use at once.

ghost use Rattle.std.specs.Prelude.{◌≡◌, ℕ, ◌<◌, length};

use crate::device::{BLOCK_BYTES, BlockDevice, Fault};
use std::sync::{Mutex, Wait};

/// A device that several workers call at once. Any call may fail. Contracts promise nothing about its
/// contents, since no change through a shared reference is visible to them. An audit of the bytes that were
/// read checks them.
pub trait SharedDevice {
    /// How many blocks there are.
    ghost extent: { Self → ℕ };

    /// How many blocks there are. This number never changes.
    fn blocks(&self) -> u32
        ensures { result ≡ extent self.now };

    /// Reads a block. After a `Fault` the buffer may hold anything. It may wait.
    fn read<R: Wait>(&self, rt: &R, block: u32, to: &mut [u8; BLOCK_BYTES]) -> Result<(), Fault>
        requires { block < extent self.now };

    /// Writes a block. After a `Fault` this block may hold anything. It may wait.
    fn write<R: Wait>(&self, rt: &R, block: u32, from: &[u8; BLOCK_BYTES]) -> Result<(), Fault>
        requires { block < extent self.now };
}

/// A device under its own lock: one call at a time.
#[derive(Drop)]
pub struct Locked<D: BlockDevice + Drop> {
    device: Mutex<D>,
    blocks: u32,
}

impl<D: BlockDevice + Drop> Locked<D> {
    pub fn new(device: D) -> Locked<D>
        ensures { result.blocks ≡ length (D.disk device).contents }
    {
        let blocks = device.blocks();
        Locked {
            device: Mutex::new(device),
            blocks,
        }
    }

    /// The device, as the calls left it.
    pub fn into_inner(self) -> D {
        let Locked { device, blocks: _ } = self;
        device.into_inner()
    }
}

impl<D: BlockDevice + Drop> SharedDevice for Locked<D> {
    ghost extent = { λ d. d.blocks };

    fn blocks(&self) -> u32 {
        self.blocks
    }

    // No type states that the device under the lock still has the same number of blocks, so each call checks.
    fn read<R: Wait>(&self, rt: &R, block: u32, to: &mut [u8; BLOCK_BYTES]) -> Result<(), Fault> {
        let mut device = self.device.lock(rt);
        if block >= device.blocks() {
            return Err(Fault);
        }
        device.read(block, to)
    }

    fn write<R: Wait>(&self, rt: &R, block: u32, from: &[u8; BLOCK_BYTES]) -> Result<(), Fault> {
        let mut device = self.device.lock(rt);
        if block >= device.blocks() {
            return Err(Fault);
        }
        device.write(block, from)
    }
}
