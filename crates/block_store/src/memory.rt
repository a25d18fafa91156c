//! A block device in memory.

ghost use Rattle.std.specs.Prelude.{◌≡◌, ℕ, ◌+◌, ◌<◌, ◌≤◌, length, replicate, IfOk, OnErr, if◌then◌else◌};
ghost use Rattle.block_store.specs.Device.{bytes_on, counted, is_listed, new_disk, WritesBlock};
ghost use Rattle.block_store.specs.Memory.{faults_left};

use crate::blocks::Blocks;
use crate::device::{BLOCK_BYTES, BlockDevice, Fault};
use std::alloc::{AllocError, Global};
use std::marker::Model;

/// The byte that a failed write fills its block with.
const SPOILED: u8 = 255;

/// A block device in memory. Its maker lists which calls fail.
#[derive(Drop)]
pub struct MemDevice {
    blocks: Blocks,
    /// How many reads were made, including failed ones. It stays at the largest `u64` once it is
    /// reached.
    reads: u64,
    /// How many writes were made, counted in the same way.
    writes: u64,
    /// Which reads fail, counted from 1.
    read_faults: Vec<u64>,
    /// Which writes fail, counted from 1.
    write_faults: Vec<u64>,
    failures: u64,
}

impl Model for MemDevice {
    ghost use Rattle.std.specs.Prelude.{◌+◌, Some, length};
    ghost use Rattle.block_store.specs.Device.{Disk};
    ghost use Rattle.block_store.specs.Memory.{IsMemory};

    ghost Value = { Disk };

    ghost view = { λ d. record {
      contents = d.blocks;
      failures = d.failures;
      fault_limit = length d.read_faults.items + length d.write_faults.items;
      plan = Some (record { reads = d.reads; writes = d.writes; read_faults = d.read_faults.items; write_faults = d.write_faults.items });
    } };

    ghost invariant = { λ d. IsMemory d.failures d.reads d.writes d.read_faults.items d.write_faults.items };
}

impl MemDevice {
    /// This many blocks of zeros. The listed reads and the listed writes fail, counted from 1, reads
    /// and writes apart. A number that is listed twice fails once, and counts twice for the fault
    /// limit, which is the length of both lists together. A count at the largest `u64` stays there, and
    /// no further call fails. A failed write fills its block with bytes of 255. `AllocError` if there
    /// is no memory for the blocks or the lists.
    pub fn new(
        alloc: Global,
        blocks: u32,
        read_faults: &[u64],
        write_faults: &[u64],
    ) -> Result<MemDevice, AllocError>
        ensures { IfOk result (λ d. d ≡ new_disk blocks read_faults.now write_faults.now) }
    {
        let blocks = Blocks::new(alloc, blocks)?;
        let read_faults = read_faults.to_vec(alloc)?;
        let write_faults = write_faults.to_vec(alloc)?;
        Ok(MemDevice {
            blocks,
            reads: 0,
            writes: 0,
            read_faults,
            write_faults,
            failures: 0,
        })
    }
}

impl BlockDevice for MemDevice {
    ghost disk = { λ d. d };

    fn blocks(&self) -> u32 {
        self.blocks.count()
    }

    fn read(&mut self, block: u32, to: &mut [u8; BLOCK_BYTES]) -> Result<(), Fault> {
        if strikes(&mut self.reads, &self.read_faults) {
            self.failures += 1;
            return Err(Fault);
        }
        self.blocks.read(block, to);
        Ok(())
    }

    fn write(&mut self, block: u32, from: &[u8; BLOCK_BYTES]) -> Result<(), Fault>
        requires { block < length self.old.contents }
        ensures write { WritesBlock self.old block from.now result self.new }
        ensures blocks { length self.new.contents ≡ length self.old.contents }
        ensures limit { self.new.fault_limit ≡ self.old.fault_limit }
        // A failed write fills its block with one byte.
        ensures spoiled { OnErr result (bytes_on self.new.contents block ≡ replicate BLOCK_BYTES 255) }
    {
        if strikes(&mut self.writes, &self.write_faults) {
            self.blocks.write(block, &[SPOILED; BLOCK_BYTES]);
            self.failures += 1;
            return Err(Fault);
        }
        self.blocks.write(block, from);
        Ok(())
    }

    fn failures(&self) -> u64 {
        self.failures
    }

    fn fault_limit(&self) -> u64 {
        (self.read_faults.len() + self.write_faults.len()) as u64
    }
}

/// Counts a call, and returns whether it is one of those that fail.
fn strikes(calls: &mut u64, faults: &[u64]) -> bool
    ensures counted { calls.new ≡ counted calls.old }
    ensures listed { result ≡ is_listed faults.now calls.old }
    ensures left { faults_left faults.now calls.new + (if result then 1 else 0) ≤ faults_left faults.now calls.old }
{
    match calls.checked_add(1) {
        None => false,
        Some(call) => {
            *calls = call;
            faults.contains(&call)
        }
    }
}
