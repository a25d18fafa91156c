//! The swap slots.

ghost use Rattle.std.specs.Prelude.{◌≡◌, ℕ, ◌+◌, ◌<◌, ◌≤◌, length, vec_len, vec_capacity, IfOk, IfSome, IfNone, OnSome, if◌then◌else◌, ◌==◌};
ghost use Rattle.counts.specs.Numbers.{times};

use std::alloc::{AllocError, Global};
use std::marker::Model;

/// A swap slot: one block of the swap device, with one owner (kernel: a swap entry). It is not `Drop`:
/// [`Slots::give`] returns it to the slots that it came from.
#[must_use]
pub struct Slot {
    block: u32,
}

impl Model for Slot {
    ghost Value = { ℕ };

    ghost view = { λ s. s.block };
}

impl Slot {
    /// The number of the block.
    pub fn block(&self) -> u32
        ensures { result ≡ self.now }
    {
        self.block
    }
}

/// The swap blocks without a page (kernel: a swap area's free slots), and the total number of swap
/// blocks. It is not `Drop`: [`Slots::close`] closes it once all slots are back.
#[must_use]
pub struct Slots {
    free: Vec<u32>,
    /// The total number of swap blocks, free or in use. Their numbers are below it.
    blocks: u32,
}

impl Model for Slots {
    ghost use Rattle.std.specs.Prelude.{vec_capacity};
    ghost use Rattle.counts.specs.Numbers.{AreFree};
    ghost use Rattle.block_store.specs.Slots.{SlotsOf};

    ghost Value = { SlotsOf };

    ghost view = { λ s. record { free = s.free.items; blocks = s.blocks } };

    ghost invariant = { λ s. AreFree s.free.items s.blocks (vec_capacity s.free) };
}

impl Slots {
    /// This many swap blocks, numbered from 0 on and all free. There may be none. `AllocError` if
    /// there is no memory for the list of the free ones.
    pub fn open(alloc: Global, blocks: u32) -> Result<Slots, AllocError>
        ensures once { IfOk result (λ s. (n : ℕ) → n < blocks → times s.free n ≡ 1) }
        ensures none_beyond { IfOk result (λ s. (n : ℕ) → blocks ≤ n → times s.free n ≡ 0) }
        ensures all { IfOk result (λ s. length s.free ≡ blocks) }
        ensures blocks { IfOk result (λ s. s.blocks ≡ blocks) }
    {
        let mut free = Vec::with_capacity(alloc, blocks as usize)?;
        fill(&mut free, blocks);
        Ok(Slots { free, blocks })
    }

    /// How many swap blocks are free.
    pub fn free(&self) -> u32
        ensures { result ≡ length self.now.free }
    {
        self.free.len() as u32
    }

    /// A free swap block, if there is one. It has the bytes that its last user left. [`Slots::give`]
    /// returns it.
    pub fn take(&mut self) -> Option<Slot>
        ensures none { IfNone result (length self.old.free ≡ 0) }
        ensures kept { IfNone result (self.new ≡ self.old) }
        ensures counts { IfSome result (λ s. (n : ℕ) → times self.old.free n ≡ times self.new.free n + (if s == n then 1 else 0)) }
        ensures fewer { OnSome result (length self.old.free ≡ length self.new.free + 1) }
        ensures blocks { self.new.blocks ≡ self.old.blocks }

        // The block is no longer free, so no two slots that are out have the same number.
        ensures out { IfSome result (λ s. times self.new.free s ≡ 0) }
        ensures in_range { IfSome result (λ s. s < self.old.blocks) }
    {
        match self.free.pop() {
            None => None,
            Some(block) => Some(Slot { block }),
        }
    }

    /// Takes a slot back. Allocates no memory.
    pub fn give(&mut self, slot: Slot)
        requires out { times self.old.free slot ≡ 0 }
        requires in_range { slot < self.old.blocks }
        ensures counts { (n : ℕ) → times self.new.free n ≡ times self.old.free n + (if slot == n then 1 else 0) }
        ensures more { length self.new.free ≡ length self.old.free + 1 }
        ensures blocks { self.new.blocks ≡ self.old.blocks }
    {
        let Slot { block } = slot;
        self.free.push_reserved(block);
    }

    /// Closes the slots, once all of them are free.
    pub fn close(self)
        requires all { length self.free ≡ self.blocks }
    {
        let Slots { free: _, blocks: _ } = self;
    }
}

/// Adds the numbers below `blocks` to an empty list that has room for them.
fn fill(free: &mut Vec<u32>, blocks: u32)
    requires empty { vec_len free.old ≡ 0 }
    requires room { blocks ≤ vec_capacity free.old }
    ensures once { (n : ℕ) → n < blocks → times free.new.items n ≡ 1 }
    ensures none_beyond { (n : ℕ) → blocks ≤ n → times free.new.items n ≡ 0 }
    ensures all { length free.new.items ≡ blocks }
    ensures room { blocks ≤ vec_capacity free.new }
{
    for block in 0..blocks {
        free.push_reserved(block);
    }
}
