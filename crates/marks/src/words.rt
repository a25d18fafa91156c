//! The marks that are left at the end.

ghost use Rattle.std.specs.Prelude.{◌≡◌, ◌<◌, length, slice_index};

use atomic_table::Closed;
use std::alloc::Global;
use std::marker::Model;

/// The words as they were when the marks were closed, from [`Marks::close`](crate::Marks::close).
pub struct Words {
    pub(crate) closed: Closed<(), Global>,
}

impl Model for Words {
    ghost use Rattle.std.specs.Prelude.{◌≡◌, List, ℕ};
    ghost use Rattle.std.specs.Mem.Slots.{slots_items, slots_len, IsFull};

    ghost Value = { List ℕ };

    ghost view = { λ w. slots_items w.closed.words };

    ghost invariant = { λ w. IsFull w.closed.words × (slots_len w.closed.slots ≡ 0) };
}

impl Words {
    /// The marks of 64 frames: bit b belongs to frame `64 * word + b`.
    pub fn get(&self, word: u32) -> u64
        requires in_range { word < length self.now }
        ensures { result ≡ slice_index self.now word }
    {
        self.closed.word(word as usize)
    }
}

impl Drop for Words {
    fn drop(self) {
        let Words { closed } = self;
        closed.free();
    }
}
