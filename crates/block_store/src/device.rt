//! Block devices.

ghost use Rattle.std.specs.Prelude.{◌≡◌, ℕ, ◌<◌, ◌≤◌, length};
ghost use Rattle.block_store.specs.Device.{Disk, ReadsBlock, WritesBlock};

use machine::bytes::PAGE_BYTES;

/// The number of bytes of a block, equal to the bytes of a page.
pub const BLOCK_BYTES: usize = PAGE_BYTES;

/// A call of a block device failed (kernel: `BLK_STS_IOERR`, which callers see as `EIO`).
#[derive(Clone, Copy, Debug, PartialEq, Eq)]
pub struct Fault;

/// Blocks of 4,096 bytes, numbered from 0 on. Each call reads or writes a whole block. Any call may
/// fail.
pub trait BlockDevice {
    /// The contents of the blocks, how many calls have failed, and how many can.
    ghost disk: { Self → Disk };

    /// How many blocks there are. This number never changes.
    fn blocks(&self) -> u32
        ensures { result ≡ length (disk self.now).contents };

    /// Reads a block. After a `Fault` the buffer may hold anything, and the blocks are unchanged.
    fn read(&mut self, block: u32, to: &mut [u8; BLOCK_BYTES]) -> Result<(), Fault>
        requires { block < length (disk self.old).contents }
        ensures read { ReadsBlock (disk self.old) block result to.new (disk self.new) }
        ensures blocks { length (disk self.new).contents ≡ length (disk self.old).contents }
        ensures limit { (disk self.new).fault_limit ≡ (disk self.old).fault_limit };

    /// Writes a block. After a `Fault` this block may hold anything, and the others are unchanged.
    fn write(&mut self, block: u32, from: &[u8; BLOCK_BYTES]) -> Result<(), Fault>
        requires { block < length (disk self.old).contents }
        ensures write { WritesBlock (disk self.old) block from.now result (disk self.new) }
        ensures blocks { length (disk self.new).contents ≡ length (disk self.old).contents }
        ensures limit { (disk self.new).fault_limit ≡ (disk self.old).fault_limit };

    /// How many calls have answered `Fault`.
    fn failures(&self) -> u64
        ensures { result ≡ (disk self.now).failures };

    /// The most calls that can answer `Fault`. This number never changes.
    fn fault_limit(&self) -> u64
        ensures limit { result ≡ (disk self.now).fault_limit }
        ensures bounded { (disk self.now).failures ≤ (disk self.now).fault_limit };
}
