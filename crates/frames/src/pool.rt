//! The pool of free page frames.

ghost use Rattle.std.specs.Prelude.{◌≡◌, ℕ, ◌+◌, ◌<◌, ◌≤◌, length, vec_len, vec_capacity, IfOk, OnOk, IfSome, IfNone, OnSome, if◌then◌else◌, ◌==◌};
ghost use Rattle.counts.specs.Numbers.{times};
ghost use Rattle.frames.specs.Pool.{numbers_of};

use crate::frame::Frame;
use crate::spare::Spare;
use machine::id::FrameId;
use std::alloc::{AllocError, Global};
use std::marker::Model;

/// The frames without a page (kernel: the buddy allocator's free pages), the total number of frames,
/// and spares. It is not `Drop`: [`Pool::close`] closes it once all frames are back.
#[must_use]
pub struct Pool {
    free: Vec<Frame>,
    spares: Vec<Spare>,
    /// The total number of frames, free or in use. Their numbers are below it.
    frames: u32,
    /// How many spares were made, including those that are out.
    most_spares: u32,
}

impl Model for Pool {
    ghost use Rattle.std.specs.Prelude.{vec_capacity, length};
    ghost use Rattle.counts.specs.Numbers.{AreFree};
    ghost use Rattle.frames.specs.Pool.{PoolOf, AreSpares, numbers_of};

    ghost Value = { PoolOf };

    ghost view = { λ p. record { free = numbers_of p.free.items; frames = p.frames; spares = length p.spares.items; most_spares = p.most_spares } };

    ghost invariant = { λ p. AreFree (numbers_of p.free.items) p.frames (vec_capacity p.free) × AreSpares (length p.spares.items) p.most_spares (vec_capacity p.spares) };
}

impl Pool {
    /// This many frames, numbered from 0 on and all free, and this many spares. `AllocError` if there
    /// is no memory for them. Frames and spares made until then are freed.
    pub fn open(alloc: Global, frames: u32, spares: u32) -> Result<Pool, AllocError>
        ensures once { IfOk result (λ p. (n : ℕ) → n < frames → times p.free n ≡ 1) }
        ensures none_beyond { IfOk result (λ p. (n : ℕ) → frames ≤ n → times p.free n ≡ 0) }
        ensures all { IfOk result (λ p. length p.free ≡ frames) }
        ensures frames { IfOk result (λ p. p.frames ≡ frames) }
        ensures spares { IfOk result (λ p. p.spares ≡ spares) }
        ensures most_spares { IfOk result (λ p. p.most_spares ≡ spares) }
    {
        let free = new_frames(alloc, frames)?;
        match new_spares(alloc, spares) {
            Ok(made) => Ok(Pool {
                free,
                spares: made,
                frames,
                most_spares: spares,
            }),
            Err(error) => {
                end_all(free);
                Err(error)
            }
        }
    }

    /// How many frames are free.
    pub fn free(&self) -> u32
        ensures { result ≡ length self.now.free }
    {
        self.free.len() as u32
    }

    /// A free frame, if there is one. It has the bytes that its last user left. [`Pool::give`] returns
    /// it.
    pub fn take(&mut self) -> Option<Frame>
        ensures none { IfNone result (length self.old.free ≡ 0) }
        ensures kept { IfNone result (self.new ≡ self.old) }
        ensures counts { IfSome result (λ f. (n : ℕ) → times self.old.free n ≡ times self.new.free n + (if f.number == n then 1 else 0)) }
        ensures fewer { OnSome result (length self.old.free ≡ length self.new.free + 1) }
        ensures frames { self.new.frames ≡ self.old.frames }
        ensures spares { self.new.spares ≡ self.old.spares }
        ensures most_spares { self.new.most_spares ≡ self.old.most_spares }

        // The frame is no longer free, so no two frames that are out have the same number.
        ensures out { IfSome result (λ f. times self.new.free f.number ≡ 0) }
        ensures in_range { IfSome result (λ f. f.number < self.old.frames) }
    {
        self.free.pop()
    }

    /// Takes a frame back. Allocates no memory.
    pub fn give(&mut self, frame: Frame)
        requires out { times self.old.free frame.number ≡ 0 }
        requires in_range { frame.number < self.old.frames }
        ensures counts { (n : ℕ) → times self.new.free n ≡ times self.old.free n + (if frame.number == n then 1 else 0) }
        ensures more { length self.new.free ≡ length self.old.free + 1 }
        ensures frames { self.new.frames ≡ self.old.frames }
        ensures spares { self.new.spares ≡ self.old.spares }
        ensures most_spares { self.new.most_spares ≡ self.old.most_spares }
    {
        self.free.push_reserved(frame);
    }

    /// A spare, if one is in. It has the bytes that its last user left. [`Pool::give_spare`] returns
    /// it.
    pub fn take_spare(&mut self) -> Option<Spare>
        ensures none { IfNone result (self.old.spares ≡ 0) }
        ensures kept { IfNone result (self.new ≡ self.old) }
        ensures taken { OnSome result (self.old ≡ record self.new { spares = self.new.spares + 1 }) }
    {
        self.spares.pop()
    }

    /// Takes a spare back, if one is out. Allocates no memory.
    pub fn give_spare(&mut self, spare: Spare)
        requires { self.old.spares < self.old.most_spares }
        ensures { self.new ≡ record self.old { spares = self.old.spares + 1 } }
    {
        self.spares.push_reserved(spare);
    }

    /// Closes the pool, once all of its frames are free. Spares may be out.
    pub fn close(self)
        requires all { length self.free ≡ self.frames }
    {
        let Pool {
            free,
            spares,
            frames: _,
            most_spares: _,
        } = self;
        end_all(free);
        discard_all(spares);
    }
}

/// New frames, numbered from 0 on. If memory runs out, the frames made until then are freed.
fn new_frames(alloc: Global, count: u32) -> Result<Vec<Frame>, AllocError>
    ensures once { IfOk result (λ free. (n : ℕ) → n < count → times (numbers_of free.items) n ≡ 1) }
    ensures none_beyond { IfOk result (λ free. (n : ℕ) → count ≤ n → times (numbers_of free.items) n ≡ 0) }
    ensures all { IfOk result (λ free. length (numbers_of free.items) ≡ count) }
    ensures room { IfOk result (λ free. count ≤ vec_capacity free) }
{
    let mut free = Vec::with_capacity(alloc, count as usize)?;
    if let Err(error) = fill(alloc, &mut free, count) {
        end_all(free);
        return Err(error);
    }
    Ok(free)
}

/// Adds the new frames below `frames` to an empty list that has room for them. After an error the list
/// has some of them.
fn fill(alloc: Global, free: &mut Vec<Frame>, frames: u32) -> Result<(), AllocError>
    requires empty { vec_len free.old ≡ 0 }
    requires room { frames ≤ vec_capacity free.old }
    ensures once { OnOk result ((n : ℕ) → n < frames → times (numbers_of free.new.items) n ≡ 1) }
    ensures none_beyond { OnOk result ((n : ℕ) → frames ≤ n → times (numbers_of free.new.items) n ≡ 0) }
    ensures all { OnOk result (length (numbers_of free.new.items) ≡ frames) }
    ensures room { frames ≤ vec_capacity free.new }
{
    for number in 0..frames {
        let frame = Frame::new(alloc, FrameId(number))?;
        free.push_reserved(frame);
    }
    Ok(())
}

fn end_all(mut free: Vec<Frame>) {
    while let Some(frame) = free.pop() {
        frame.end();
    }
    free.destroy_empty();
}

/// New spares. If memory runs out, the spares made until then are freed.
fn new_spares(alloc: Global, count: u32) -> Result<Vec<Spare>, AllocError>
    ensures all { IfOk result (λ spares. length spares.items ≡ count) }
    ensures room { IfOk result (λ spares. count ≤ vec_capacity spares) }
{
    let mut spares = Vec::with_capacity(alloc, count as usize)?;
    if let Err(error) = fill_spares(alloc, &mut spares, count) {
        discard_all(spares);
        return Err(error);
    }
    Ok(spares)
}

/// Adds this many new spares to an empty list that has room for them. After an error the list has some
/// of them.
fn fill_spares(alloc: Global, spares: &mut Vec<Spare>, count: u32) -> Result<(), AllocError>
    requires empty { vec_len spares.old ≡ 0 }
    requires room { count ≤ vec_capacity spares.old }
    ensures all { OnOk result (length spares.new.items ≡ count) }
    ensures room { count ≤ vec_capacity spares.new }
{
    for _number in 0..count {
        let spare = Spare::new(alloc)?;
        spares.push_reserved(spare);
    }
    Ok(())
}

fn discard_all(mut spares: Vec<Spare>) {
    while let Some(spare) = spares.pop() {
        spare.discard();
    }
    spares.destroy_empty();
}
