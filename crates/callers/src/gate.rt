//! A device that holds, changes or fails calls.

ghost use Rattle.std.specs.Prelude.{◌≡◌, IfOk};

use block_store::{BLOCK_BYTES, Fault, SharedDevice};
use std::alloc::{AllocError, Global};
use std::sync::atomic::{AtomicBool, AtomicU64, Ordering};
use std::sync::{Arc, Mutex, Wait};

/// A call is held for at most this number of turns of its loop.
const MOST_TURNS: u64 = 100_000_000;

/// A call is held for this number of turns, so that another worker can come and wait for it.
const A_WHILE: u64 = 1_000_000;

/// What the device does besides reading and writing.
#[derive(Clone, Copy, PartialEq, Eq)]
pub enum Manner {
    Plain,
    /// The first read is held until a second one has begun.
    HoldsReads,
    /// The first write, likewise.
    HoldsWrites,
    /// The first read is held until a second one has begun, and fails if one has.
    FailsHeldRead,
    /// The first write, likewise.
    FailsHeldWrite,
    /// The first read is held for a while, and fails.
    FailsReadLate,
    /// The first write, likewise.
    FailsWriteLate,
    /// A third read is held until a third write has begun, and a second write until a third read has.
    HoldsAcross,
    /// Likewise, and the third read fails if the third write has begun.
    FailsAcross,
    /// Each write is held until the test releases it.
    HoldsUntilLetGo,
    /// Each byte is read as the byte that was written, plus one.
    AddsOne,
    /// Each call fails.
    FailsAll,
    /// Every second call fails, beginning with the first.
    FailsEachOnce,
}

/// What a device and its test know of each other.
#[derive(Drop)]
pub struct Signals {
    reads: AtomicU64,
    writes: AtomicU64,
    is_let_go: AtomicBool,
}

impl Signals {
    /// Waits until a write has begun. Returns whether one has.
    pub fn wait_for_write(&self) -> bool {
        reaches(&self.writes, 1)
    }

    /// Releases the writes that are held.
    pub fn let_go(&self) {
        self.is_let_go.store(true, Ordering::SeqCst);
    }

    /// Waits until writes are released. Returns whether they are.
    fn wait_until_let_go(&self) -> bool {
        for _turn in 0..MOST_TURNS {
            if self.is_let_go.load(Ordering::SeqCst) {
                return true;
            }
        }
        false
    }
}

/// Waits until this number of calls have begun. Returns whether they have.
fn reaches(begun: &AtomicU64, calls: u64) -> bool {
    reaches_within(MOST_TURNS, begun, calls)
}

/// The same, for at most this number of turns of the loop.
fn reaches_within(turns: u64, begun: &AtomicU64, calls: u64) -> bool {
    for _turn in 0..turns {
        if begun.load(Ordering::SeqCst) >= calls {
            return true;
        }
    }
    false
}

/// Blocks in memory.
#[derive(Drop)]
pub struct Gate {
    blocks: Mutex<Vec<[u8; BLOCK_BYTES]>>,
    count: u32,
    manner: Manner,
    signals: Arc<Signals, Global>,
}

impl Gate {
    pub fn new(alloc: Global, count: u32, manner: Manner) -> Result<Gate, AllocError>
        ensures { IfOk result (λ gate. gate.count ≡ count) }
    {
        let blocks = vec![in alloc; [0; BLOCK_BYTES]; count as usize]?;
        let signals = Signals {
            reads: AtomicU64::new(0),
            writes: AtomicU64::new(0),
            is_let_go: AtomicBool::new(false),
        };
        Ok(Gate {
            blocks: Mutex::new(blocks),
            count,
            manner,
            signals: Arc::new(alloc, signals)?,
        })
    }

    pub fn signals(&self) -> Result<Arc<Signals, Global>, AllocError> {
        Arc::try_clone(&self.signals)
    }

    /// Whether a call fails. `before` is the number of earlier calls, of both kinds.
    fn fails(&self, before: u64) -> bool {
        match self.manner {
            Manner::FailsAll => true,
            Manner::FailsEachOnce => before % 2 == 0,
            _ => false,
        }
    }

    /// Holds a read as long as it has to be held. `before` is the number of earlier reads. Returns whether the read
    /// then succeeds.
    fn hold_read(&self, before: u64) -> bool {
        match self.manner {
            Manner::HoldsReads => reaches(&self.signals.reads, 2),
            Manner::FailsHeldRead if before == 0 => !reaches(&self.signals.reads, 2),
            Manner::FailsReadLate if before == 0 => {
                let _ = reaches_within(A_WHILE, &self.signals.reads, 2);
                false
            }
            Manner::HoldsAcross if before == 2 => reaches(&self.signals.writes, 3),
            Manner::FailsAcross if before == 2 => !reaches(&self.signals.writes, 3),
            _ => true,
        }
    }

    /// The same for a write.
    fn hold_write(&self, before: u64) -> bool {
        match self.manner {
            Manner::HoldsWrites => reaches(&self.signals.writes, 2),
            Manner::FailsHeldWrite if before == 0 => !reaches(&self.signals.writes, 2),
            Manner::FailsWriteLate if before == 0 => {
                let _ = reaches_within(A_WHILE, &self.signals.writes, 2);
                false
            }
            Manner::HoldsAcross | Manner::FailsAcross if before == 1 => reaches(
                &self.signals.reads,
                3,
            ),
            Manner::HoldsUntilLetGo => self.signals.wait_until_let_go(),
            _ => true,
        }
    }
}

impl SharedDevice for Gate {
    ghost extent = { λ d. d.count };

    fn blocks(&self) -> u32 {
        self.count
    }

    fn read<R: Wait>(&self, rt: &R, block: u32, to: &mut [u8; BLOCK_BYTES]) -> Result<(), Fault> {
        let before = self.signals.reads.fetch_add(1, Ordering::SeqCst);
        let written = self.signals.writes.load(Ordering::SeqCst);
        if self.fails(before.wrapping_add(written)) || !self.hold_read(before) {
            return Err(Fault);
        }
        let blocks = self.blocks.lock(rt);
        let Some(bytes) = blocks.get(block as usize) else {
            return Err(Fault);
        };
        *to = *bytes;
        if self.manner == Manner::AddsOne {
            for byte in to.iter_mut() {
                *byte = byte.wrapping_add(1);
            }
        }
        Ok(())
    }

    fn write<R: Wait>(&self, rt: &R, block: u32, from: &[u8; BLOCK_BYTES]) -> Result<(), Fault> {
        let before = self.signals.writes.fetch_add(1, Ordering::SeqCst);
        let read = self.signals.reads.load(Ordering::SeqCst);
        if self.fails(before.wrapping_add(read)) || !self.hold_write(before) {
            return Err(Fault);
        }
        let mut blocks = self.blocks.lock(rt);
        let Some(bytes) = blocks.get_mut(block as usize) else {
            return Err(Fault);
        };
        *bytes = *from;
        Ok(())
    }
}
