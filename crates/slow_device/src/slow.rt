//! A device whose calls take time.

ghost use Rattle.std.specs.Prelude.{◌≡◌};

use block_store::{BLOCK_BYTES, BlockDevice, Fault, SharedDevice};
use std::sync::Wait;
use std::thread;
use std::time::{Clock, Duration};

/// A device that sleeps before each call, unless the time is zero.
#[derive(Drop)]
pub struct Slow<'a, C: Clock, D: Drop> {
    clock: &'a C,
    call: Duration,
    device: D,
}

impl<'a, C: Clock, D: Drop> Slow<'a, C, D> {
    pub fn new(clock: &'a C, call: Duration, device: D) -> Slow<'a, C, D>
        ensures { result.device ≡ device }
    {
        Slow {
            clock,
            call,
            device,
        }
    }

    fn sleep(&self) {
        if !self.call.is_zero() {
            thread::sleep(self.clock, self.call);
        }
    }
}

impl<'a, C: Clock, D: BlockDevice + Drop> BlockDevice for Slow<'a, C, D> {
    ghost disk = { λ d. D.disk d.device };

    fn blocks(&self) -> u32 {
        self.device.blocks()
    }

    fn read(&mut self, block: u32, to: &mut [u8; BLOCK_BYTES]) -> Result<(), Fault> {
        self.sleep();
        self.device.read(block, to)
    }

    fn write(&mut self, block: u32, from: &[u8; BLOCK_BYTES]) -> Result<(), Fault> {
        self.sleep();
        self.device.write(block, from)
    }

    fn failures(&self) -> u64 {
        self.device.failures()
    }

    fn fault_limit(&self) -> u64 {
        self.device.fault_limit()
    }
}

// If calls overlap, their sleeps overlap.
impl<'a, C: Clock, D: SharedDevice + Drop> SharedDevice for Slow<'a, C, D> {
    ghost extent = { λ d. D.extent d.device };

    fn blocks(&self) -> u32 {
        self.device.blocks()
    }

    fn read<R: Wait>(&self, rt: &R, block: u32, to: &mut [u8; BLOCK_BYTES]) -> Result<(), Fault> {
        self.sleep();
        self.device.read(rt, block, to)
    }

    fn write<R: Wait>(&self, rt: &R, block: u32, from: &[u8; BLOCK_BYTES]) -> Result<(), Fault> {
        self.sleep();
        self.device.write(rt, block, from)
    }
}
