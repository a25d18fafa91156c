//! The marks of frames that were hit. They are read and cleared as soon as they are set.

ghost use Rattle.std.specs.Prelude.{◌≡◌, ℕ, ◌/◌, ◌%◌, ◌<◌, ◌==◌, IfOk, if◌then◌else◌};
ghost use Rattle.std.specs.Int.{bit_at};

use marks::{Marks, Seat};
use std::alloc::{AllocError, Global};
use std::marker::Model;

/// The marks of `frames` frames, with the only seat that sets and clears them. Between two calls no frame is marked. A
/// contract sees it as the number of frames.
#[derive(Drop)]
pub struct HitMarks {
    marks: Marks,
    seat: Seat,
}

impl Model for HitMarks {
    ghost use Rattle.std.specs.Prelude.{ℕ};

    ghost Value = { ℕ };

    ghost use Rattle.driver.specs.Hits.{IsTaken};

    ghost view = { λ h. h.marks.frames };

    ghost invariant = { IsTaken };
}

impl HitMarks {
    /// Marks for this number of frames, none of them set. `AllocError` if there is no memory for one bit per frame.
    pub fn open(alloc: Global, frames: u32) -> Result<HitMarks, AllocError>
        ensures { IfOk result (λ hits. hits ≡ frames) }
    {
        let (marks, seat) = Marks::open(alloc, frames)?;
        Ok(HitMarks { marks, seat })
    }

    /// The frame was hit. This sets its mark, then reads and clears the marks of its word: the frame's own mark alone.
    pub fn note(&mut self, frame: u32) -> u64
        requires { frame < self.old }
        ensures one { (f : ℕ) → f / 64 ≡ frame / 64 → bit_at result (f % 64) ≡ (if f == frame then 1 else 0) }
        ensures same { self.new ≡ self.old }
    {
        self.marks.set(&mut self.seat, frame);
        self.marks.harvest(&mut self.seat, frame / 64)
    }
}
