//! The content of a page, and its place.

ghost use Rattle.std.specs.Prelude.{◌≡◌, true};
ghost use Rattle.pages.specs.Backed.{is_backed};

use block_store::Slot;
use frames::Frame;
use machine::id::{GroupId, TicketId};
use machine::record::Direction;
use page_counter::Charge;

/// A page of a file (kernel: `mapping` and `index` of a `struct folio`).
#[derive(Clone, Copy)]
pub struct FilePage {
    /// The file's place in the list of files.
    pub file: u32,
    /// The page's place in the file.
    pub page: u32,
}

/// The content of a page, wherever it is.
#[derive(Clone, Copy)]
pub enum Content {
    /// Memory of tasks.
    Memory,
    /// A page of a file. It is `dirty` if it was written to since its home block had its bytes (kernel:
    /// PG_dirty).
    OfFile { at: FilePage, dirty: bool },
}

/// The block that a page in transfer is read from, or written to.
#[must_use]
pub enum Backing {
    /// For memory of tasks: a swap slot, which the page owns.
    Swap(Slot),
    /// For a page of a file: its home block, which has no owner.
    Home(u32),
}

impl Backing {
    ghost use Rattle.pages.specs.Records.{block_of};

    /// The block's number.
    pub(crate) fn block(&self) -> u32
        ensures { result ≡ block_of self.now }
    {
        match self {
            Backing::Swap(slot) => slot.block(),
            Backing::Home(block) => *block,
        }
    }
}

/// Where a page is, with what it owns there. Each part of it must be spent.
#[must_use]
pub enum Place {
    /// In a frame.
    Frame {
        frame: Frame,
        charge: Charge,
    },
    /// In transfer between the frame and a block.
    Moving {
        frame: Frame,
        charge: Charge,
        direction: Direction,
        backing: Backing,
        ticket: TicketId,
    },
    /// Only on the slot: no frame, and no charge.
    Away {
        group: GroupId,
        slot: Slot,
    },
}

/// A page: its content and its place. It must be spent.
///
/// Memory is never in transfer from or to a home block. A page of a file is never in transfer from or to a
/// slot, and never only on one.
#[must_use]
pub struct OwnedPage {
    pub content: Content,
    pub place: Place,
    pub ghost backed: { is_backed content place ≡ true },
}
