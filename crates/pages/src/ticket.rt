//! Tickets of transfers in flight.

ghost use Rattle.std.specs.Prelude.{◌≡◌, ℕ, List, ◌<◌, true, length};
ghost use Rattle.block_store.specs.Device.{ReadsBlock, WritesBlock};
ghost use Rattle.pages.specs.Tickets.{new_ticket, stamped, handed_back};

use block_store::{BlockDevice, Fault, SharedDevice};
use frames::{FRAME_BYTES, Spare};
use machine::id::{TicketId, WorkerId};
use std::marker::Model;
use std::sync::Wait;

/// What a ticket carries: the bytes of a page. Each kind is released in its own way.
pub trait Carries {
    // The carried bytes.
    ghost bytes: { Self → List ℕ };

    /// Frees the memory of the bytes.
    fn give_up(self);
}

/// The buffer for a page that is being read in.
impl Carries for Box<[u8; FRAME_BYTES]> {
    ghost bytes = { λ buffer. buffer.value };

    fn give_up(self) {
        let _ = self;
    }
}

/// The copy of a page that is being written out.
impl Carries for Spare {
    ghost bytes = { λ spare. spare };

    fn give_up(self) {
        self.discard();
    }
}

/// A page is in transfer. The worker who holds this reads or writes its block, and hands the ticket to the
/// book. It is not `Drop`: a transfer must be ended.
///
/// A contract sees its number, its worker, the place of its entry, its block, its bytes, and whether the book
/// handed it back.
#[must_use]
pub struct Ticket<B: Carries> {
    number: TicketId,
    worker: WorkerId,
    entry: u32,
    block: u32,
    handed: bool,
    carried: B,
}

/// A page is being read in. The worker who holds this reads the block into the buffer.
pub type InTicket = Ticket<Box<[u8; FRAME_BYTES]>>;

/// A page is being written out. The worker who holds this writes the copy of its bytes to the block.
pub type OutTicket = Ticket<Spare>;

impl<B: Carries> Model for Ticket<B> {
    ghost use Rattle.pages.specs.Tickets.{TicketOf};

    ghost Value = { TicketOf };

    ghost view = { λ t. record { number = t.number.0; worker = t.worker.0; entry = t.entry; block = t.block; handed = t.handed; bytes = B.bytes t.carried } };
}

impl<B: Carries> Ticket<B> {
    // The ticket has no worker yet. The code that hands it out stamps it.
    pub(crate) fn new(number: TicketId, block: u32, carried: B) -> Self
        ensures { result ≡ new_ticket number.0 block (B.bytes carried) }
    {
        Ticket {
            number,
            worker: WorkerId(0),
            entry: 0,
            block,
            handed: false,
            carried,
        }
    }

    /// The same ticket, handed out to the worker by the entry at this place of the trace, counted from 1.
    pub fn stamp(self, worker: WorkerId, entry: u32) -> Self
        ensures { result ≡ stamped self worker.0 entry }
    {
        let Ticket {
            number,
            worker: _,
            entry: _,
            block,
            handed,
            carried,
        } = self;
        Ticket {
            number,
            worker,
            entry,
            block,
            handed,
            carried,
        }
    }

    /// The number of the transfer.
    pub fn number(&self) -> TicketId
        ensures { result.0 ≡ self.now.number }
    {
        self.number
    }

    /// The worker that received it, or 0 before it was stamped.
    pub fn worker(&self) -> WorkerId
        ensures { result.0 ≡ self.now.worker }
    {
        self.worker
    }

    /// The place in the trace of the entry that handed it out, counted from 1, or 0 before it was stamped.
    pub fn entry(&self) -> u32
        ensures { result ≡ self.now.entry }
    {
        self.entry
    }

    /// The block to read or to write.
    pub fn block(&self) -> u32
        ensures { result ≡ self.now.block }
    {
        self.block
    }

    /// Whether the book handed it back to its worker.
    pub fn handed(&self) -> bool
        ensures { result ≡ self.now.handed }
    {
        self.handed
    }

    /// The same ticket, handed back.
    pub fn hand_back(self) -> Self
        ensures { result ≡ handed_back self }
    {
        let Ticket {
            number,
            worker,
            entry,
            block,
            handed: _,
            carried,
        } = self;
        Ticket {
            number,
            worker,
            entry,
            block,
            handed: true,
            carried,
        }
    }

    /// Spends a ticket that the book does not know.
    pub fn discard(self)
        requires { self.handed ≡ true }
    {
        self.into_carried().give_up();
    }

    /// Spends the ticket. Returns what it carried.
    pub(crate) fn into_carried(self) -> B
        ensures { B.bytes result ≡ self.bytes }
    {
        let Ticket {
            number: _,
            worker: _,
            entry: _,
            block: _,
            handed: _,
            carried,
        } = self;
        carried
    }
}

impl Ticket<Box<[u8; FRAME_BYTES]>> {
    /// Reads the block, and keeps its bytes. After a fault the ticket may hold any bytes.
    pub fn read_from<D: BlockDevice>(&mut self, device: &mut D) -> Result<(), Fault>
        requires { self.old.block < length (D.disk device.old).contents }
        ensures read { ReadsBlock (D.disk device.old) self.old.block result self.new.bytes (D.disk device.new) }
        ensures blocks { length (D.disk device.new).contents ≡ length (D.disk device.old).contents }
        ensures limit { (D.disk device.new).fault_limit ≡ (D.disk device.old).fault_limit }
        ensures same { self.new ≡ record self.old { bytes = self.new.bytes } }
    {
        device.read(self.block, &mut self.carried)
    }

    /// The same, from a device that others use at the same time. It may wait.
    pub fn read_shared<D: SharedDevice, R: Wait>(&mut self, rt: &R, device: &D) -> Result<(), Fault>
        requires { self.old.block < D.extent device.now }
        ensures same { self.new ≡ record self.old { bytes = self.new.bytes } }
    {
        device.read(rt, self.block, &mut self.carried)
    }

    /// Keeps these bytes as the block's. This is for workers that read the block by other means than
    /// [`Ticket::read_from`].
    pub fn fill(&mut self, bytes: &[u8; FRAME_BYTES])
        ensures { self.new ≡ record self.old { bytes = bytes.now } }
    {
        *self.carried = *bytes;
    }

    /// The bytes that were read.
    pub(crate) fn read(&self) -> &[u8; FRAME_BYTES]
        ensures { result.now ≡ self.now.bytes }
    {
        &self.carried
    }
}

impl Ticket<Spare> {
    /// Writes the bytes to the block.
    pub fn write_to<D: BlockDevice>(&self, device: &mut D) -> Result<(), Fault>
        requires { self.now.block < length (D.disk device.old).contents }
        ensures write { WritesBlock (D.disk device.old) self.now.block self.now.bytes result (D.disk device.new) }
        ensures blocks { length (D.disk device.new).contents ≡ length (D.disk device.old).contents }
        ensures limit { (D.disk device.new).fault_limit ≡ (D.disk device.old).fault_limit }
    {
        device.write(self.block, self.bytes())
    }

    /// The same, to a device that others use at the same time. It may wait.
    pub fn write_shared<D: SharedDevice, R: Wait>(&self, rt: &R, device: &D) -> Result<(), Fault>
        requires { self.now.block < D.extent device.now }
    {
        device.write(rt, self.block, self.bytes())
    }

    /// The page's bytes when the transfer began.
    pub fn bytes(&self) -> &[u8; FRAME_BYTES]
        ensures { result.now ≡ self.now.bytes }
    {
        self.carried.bytes()
    }
}
