//! Seats of the marks of frames. They are handed out under a lock of their own.

ghost use Rattle.std.specs.Prelude.{◌≡◌};
ghost use Rattle.std.specs.Arc.{arc_value};

use marks::{Marks, Seat};
use std::alloc::{AllocError, Global};
use std::sync::Arc;

/// The first seat, with its marks.
#[derive(Drop)]
pub(crate) struct First {
    frames: u32,
    marks: Arc<Marks>,
    seat: Seat,
    ghost same: { seat.table ≡ (arc_value marks).table },
    ghost sized: { (arc_value marks).frames ≡ frames },
}

/// A worker's seat, with its marks. It sets and takes marks without a lock.
#[derive(Drop)]
pub(crate) struct Hand {
    frames: u32,
    marks: Arc<Marks>,
    seat: Seat,
    ghost same: { seat.table ≡ (arc_value marks).table },
    ghost sized: { (arc_value marks).frames ≡ frames },
}

impl First {
    /// Opens the marks of this number of frames, all clear.
    pub(crate) fn open(alloc: Global, frames: u32) -> Result<First, AllocError> {
        let (marks, seat) = Marks::open(alloc, frames)?;
        let marks = Arc::new(alloc, marks)?;
        Ok(First {
            frames,
            marks,
            seat,
        })
    }

    /// A seat for another worker. `None` if all parts of the first seat are given out. A worker without a seat sets
    /// no marks.
    pub(crate) fn hand(&mut self) -> Option<Hand> {
        if self.seat.parts() < 2 {
            return None;
        }
        let marks = Arc::try_clone(&self.marks).ok()?;
        let seat = marks.seat(&mut self.seat);
        Some(Hand {
            frames: self.frames,
            marks,
            seat,
        })
    }
}

impl Hand {
    /// How many words the marks have.
    pub(crate) fn words(&self) -> u32 {
        self.frames.div_ceil(64)
    }

    /// Sets the mark of a frame that was hit.
    pub(crate) fn set(&mut self, frame: u32) {
        if frame < self.frames {
            self.marks.set(&mut self.seat, frame);
        }
    }

    /// Takes the marks of a word, and clears them. A word without marks is only read.
    pub(crate) fn harvest(&mut self, word: u32) -> u64 {
        if word as u64 * 64 >= self.frames as u64 || self.marks.load(word) == 0 {
            return 0;
        }
        self.marks.harvest(&mut self.seat, word)
    }
}
