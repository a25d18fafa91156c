//! The marks, and their steps.

ghost use Rattle.std.specs.Prelude.{◌≡◌, ℕ, ◌+◌, ◌*◌, ◌/◌, ◌%◌, ◌^◌, ◌<◌, ◌≤◌, All, IfOk, map, length, [], ◌∷◌};
ghost use Rattle.std.specs.List.{sum_by};
ghost use Rattle.std.specs.Int.{bit_at};
ghost use Rattle.marks.specs.Logs.{SeatOf, AreBalanced, found_of, pending, fresh, after_set, after_harvest, one_less, log_of};
ghost use Rattle.marks.specs.Rules.{joined};

use crate::log::{Found, Log};
use crate::seat::Seat;
use crate::words::Words;
use atomic_table::{Join, Play, Split, Table, TableRule};
use std::alloc::{AllocError, Global};
use std::marker::Model;

// What holds of the words and all logs between any two steps, with the number of words as its key.
struct Fair;

impl TableRule<(), Log, u64> for Fair {
    ghost use Rattle.std.specs.Prelude.{◌^◌};
    ghost use Rattle.marks.specs.Logs.{fresh};
    ghost use Rattle.marks.specs.Rules.{IsKept};

    ghost holds = { IsKept };

    ghost first = { λ _. fresh (2 ^ 32) };
}

// What a set lets its caller learn.
struct Marking;

impl Play<(), Log> for Marking {
    ghost use Rattle.marks.specs.Rules.{SetsFrame};

    ghost then = { SetsFrame };
}

// What a harvest lets its caller learn.
struct Harvesting;

impl Play<(), Log> for Harvesting {
    ghost use Rattle.marks.specs.Rules.{HarvestsWord};

    ghost then = { HarvestsWord };
}

// How a seat gives a part to another one, and takes in another's parts and log.
struct Parted;

impl Split<Log> for Parted {
    ghost use Rattle.marks.specs.Logs.{fresh, one_less};

    ghost left = { one_less };

    ghost right = { λ _. fresh 1 };
}

impl Join<Log> for Parted {
    ghost use Rattle.marks.specs.Logs.{fresh};
    ghost use Rattle.marks.specs.Rules.{joined};

    ghost both = { joined };

    ghost spent = { fresh 0 };
}

fn found_at(bits: u64, place: u32) -> Found
    requires in_range { place < 64 }
    ensures { result ≡ found_of (bit_at bits place) }
{
    if (bits >> place) & 1 == 0 {
        Found::Clear
    } else {
        Found::Marked
    }
}

/// A mark for each frame. Threads share it by a `&`, and each thread steps with a [`Seat`] of its own.
///
/// What the seats found always fits the marks. For each frame, the number of sets that found it clear is
/// the number of harvests that cleared its mark, plus one if it is marked. No set found it marked before
/// one had marked it. This holds between any two steps. [`Marks::close`] states it for the totals of all
/// logs, not for their order.
#[derive(Drop)]
pub struct Marks {
    frames: u32,
    table: Table<(), Log, u64, Fair, Global>,
}

impl Model for Marks {
    ghost use Rattle.marks.specs.Logs.{MarksOf};
    ghost use Rattle.marks.specs.Rules.{IsSized};

    ghost Value = { MarksOf };

    ghost view = { λ m. record { table = m.table.shared.table_id; frames = m.frames } };

    ghost invariant = { λ m. IsSized m.frames m.table.shared.table_id.words m.table.shared.table_id.slots m.table.shared.key };
}

impl Marks {
    /// Marks of this many frames, numbered from 0 on, none of them marked; and the first seat, with all
    /// 2^32 parts. `AllocError` if there is no memory for a bit for each frame.
    pub fn open(alloc: Global, frames: u32) -> Result<(Marks, Seat), AllocError>
        ensures frames { IfOk result (λ r. r.0.frames ≡ frames) }
        ensures table { IfOk result (λ r. r.1.table ≡ r.0.table) }
        ensures log { IfOk result (λ r. r.1.log ≡ fresh (2 ^ 32)) }
    {
        // There is at least one word, since a seat is cut and joined during a look at word 0.
        let count = frames as usize / 64 + 1;
        let words = vec![in alloc; 0u64; count]?;
        let (table, inner) = Table::of_words(alloc, words.as_slice(), &(count as u64))?;
        let seat = Seat {
            parts: 1 << 32,
            inner,
        };
        Ok((Marks { frames, table }, seat))
    }

    /// How many frames there are. Their marks take `frames.div_ceil(64)` words.
    pub fn frames(&self) -> u32
        ensures { result ≡ self.now.frames }
    {
        self.frames
    }

    /// Another seat, with an empty log and a part of the given one. Allocates no memory.
    pub fn seat(&self, seat: &mut Seat) -> Seat
        requires parts { 2 ≤ seat.old.log.parts }
        requires of_these { seat.old.table ≡ self.now.table }
        ensures table { result.table ≡ self.now.table }
        ensures log { result.log ≡ fresh 1 }
        ensures giver { seat.new ≡ record seat.old { log = one_less seat.old.log } }
    {
        let inner = self.table.shared.split_seat::<Parted>(&mut seat.inner);
        seat.parts -= 1;
        Seat { parts: 1, inner }
    }

    /// Marks a frame, and says whether it was marked before (kernel: `pte_mkyoung`, or the processor's set
    /// of the accessed bit).
    pub fn set(&self, seat: &mut Seat, frame: u32) -> Found
        requires in_range { frame < self.now.frames }
        requires of_these { seat.old.table ≡ self.now.table }
        ensures log { seat.new.log ≡ after_set frame result seat.old.log }
        ensures table { seat.new.table ≡ seat.old.table }

        // The owner of all parts knows what is marked.
        ensures alone { seat.old.log.parts ≡ 2 ^ 32 → result ≡ found_of (pending frame seat.old.log) }
    {
        let steps = &self.table.shared;
        let mask = 1u64 << (frame % 64);
        let bits = steps.fetch_or::<Marking>(&mut seat.inner, (frame / 64) as usize, mask);
        found_at(bits, frame % 64)
    }

    /// Clears the marks of 64 frames and returns them: bit b belongs to frame `64 * word + b` (kernel:
    /// `ptep_test_and_clear_young`).
    pub fn harvest(&self, seat: &mut Seat, word: u32) -> u64
        requires in_range { 64 * word < self.now.frames }
        requires of_these { seat.old.table ≡ self.now.table }
        ensures log { seat.new.log ≡ after_harvest word result seat.old.log }
        ensures table { seat.new.table ≡ seat.old.table }

        // The owner of all parts knows what is marked.
        ensures alone { seat.old.log.parts ≡ 2 ^ 32 → (f : ℕ) → f / 64 ≡ word → bit_at result (f % 64) ≡ pending f seat.old.log }
    {
        let steps = &self.table.shared;
        steps.swap::<Harvesting>(&mut seat.inner, word as usize, 0)
    }

    /// The marks of 64 frames as they were at some moment of the call: bit b belongs to frame
    /// `64 * word + b`. This is a hint, and no contract says anything about it.
    pub fn load(&self, word: u32) -> u64
        requires in_range { 64 * word < self.now.frames }
    {
        self.table.shared.peek(word as usize)
    }

    /// Closes the marks, for an owner of seats with all parts. Returns the marks that are left.
    pub fn close(self, seats: Vec<Seat>) -> Words
        requires parts { sum_by (λ s. s.log.parts) seats.items ≡ 2 ^ 32 }
        requires of_these { All (λ s. s.table ≡ self.table) seats.items }
        ensures law { AreBalanced result (map log_of seats.items) }
        ensures size { self.frames ≤ 64 * length result }
    {
        let mut seats = seats;
        let Some(mut all) = seats.pop() else {
            unreachable!()
        };
        while let Some(other) = seats.pop() {
            self.join(&mut all, other);
        }
        self.end(all)
    }

    // Moves the log and the parts of another seat into this one.
    fn join(&self, all: &mut Seat, other: Seat)
        requires parts { all.old.log.parts + other.log.parts ≤ 2 ^ 32 }
        requires of_these { (all.old.table ≡ self.now.table) × (other.table ≡ self.now.table) }
        ensures table { all.new.table ≡ all.old.table }
        ensures log { all.new.log ≡ joined all.old.log other.log }
    {
        let Seat { parts, inner } = other;
        self.table.shared.join_seat::<Parted>(&mut all.inner, inner);
        all.parts += parts;
    }

    // Closes the marks, with all parts in one seat.
    fn end(self, all: Seat) -> Words
        requires parts { all.log.parts ≡ 2 ^ 32 }
        requires of_these { all.table ≡ self.table }
        ensures law { AreBalanced result (all.log ∷ []) }
        ensures size { self.frames ≤ 64 * length result }
    {
        let Marks { frames: _, table } = self;
        let Seat { parts: _, inner } = all;
        Words {
            closed: table.close_with(inner),
        }
    }
}
