//! How many pages were written to the device and read from it.

ghost use Rattle.std.specs.Prelude.{◌≡◌};

use block_store::{BLOCK_BYTES, BlockDevice, Fault};
use machine::entry::Entry;
use machine::event::Event;
use machine::reply::Reply;
use std::io;
use std::io::Write;

/// Calls of a device that succeeded.
#[derive(Clone, Copy, Default)]
pub struct Calls {
    /// Writes to swap blocks.
    to_swap: u64,
    /// Writes to the blocks of files.
    home: u64,
}

/// A device, with the number of blocks that were written. No entry of a trace says to which block a page was
/// written.
#[derive(Drop)]
pub struct Metered<'d, D> {
    pub device: &'d mut D,
    /// How many blocks are swap blocks. These are the first ones.
    pub swap: u32,
    /// The calls that succeeded so far.
    pub calls: Calls,
}

impl<'d, D> Metered<'d, D> {
    fn count_write(&mut self, block: u32)
        ensures { self.new.device ≡ self.old.device }
    {
        if block < self.swap {
            self.calls.to_swap = self.calls.to_swap.saturating_add(1);
        } else {
            self.calls.home = self.calls.home.saturating_add(1);
        }
    }
}

impl<'d, D: BlockDevice> BlockDevice for Metered<'d, D> {
    ghost disk = { λ d. D.disk d.device.now };

    fn blocks(&self) -> u32 {
        self.device.blocks()
    }

    fn read(&mut self, block: u32, to: &mut [u8; BLOCK_BYTES]) -> Result<(), Fault> {
        self.device.read(block, to)
    }

    fn write(&mut self, block: u32, from: &[u8; BLOCK_BYTES]) -> Result<(), Fault> {
        let written = self.device.write(block, from);
        if written.is_ok() {
            self.count_write(block);
        }
        written
    }

    fn failures(&self) -> u64 {
        self.device.failures()
    }

    fn fault_limit(&self) -> u64 {
        self.device.fault_limit()
    }
}

/// How many pages a run moved.
#[derive(Clone, Copy)]
pub struct Moved {
    /// Pages that arrived from the device.
    read_in: u64,
    /// Clean pages of files that were dropped.
    dropped: u64,
    written: Calls,
}

impl Moved {
    /// From the entries of the run's trace, and the calls of its device.
    pub fn of(entries: &[Entry], written: Calls) -> Moved {
        let arrived = entries.iter().filter(|entry| is_arrival(entry));
        let read_in = arrived.count() as u64;
        let left = entries.iter().filter(|entry| entry.reply == Reply::Dropped);
        Moved {
            read_in,
            dropped: left.count() as u64,
            written,
        }
    }

    /// Writes a line for each number.
    pub fn write<W: Write>(&self, to: &mut W) -> io::Result<()> {
        writeln!(to, "pages read in: {}", self.read_in)?;
        writeln!(to, "pages written to swap: {}", self.written.to_swap)?;
        writeln!(to, "pages dropped: {}", self.dropped)?;
        writeln!(to, "pages written home: {}", self.written.home)
    }
}

fn is_arrival(entry: &Entry) -> bool {
    match &entry.event {
        Event::Arrived {
            ticket: _,
            bytes: _,
        } => true,
        _ => false,
    }
}
