//! Giving back what pages owned.

ghost use Rattle.std.specs.Prelude.{◌≡◌, ℕ, ◌+◌, ◌<◌, true, false, length, vec_len};
ghost use Rattle.counts.specs.Numbers.{times};
ghost use Rattle.page_counter.specs.Counts.{SameGroups};
ghost use Rattle.pages.specs.Records.{page_of};
ghost use Rattle.page_state.specs.Owned.{AreKept, Leaves, Releases, as_number, is_slot, has_slot, pages_of};

use crate::room::give_room;
use block_store::Slots;
use frames::Pool;
use page_counter::Counters;
use pages::{Backing, OwnedPage, Place};

/// Gives back what a removed page owned.
pub fn release(owned: OwnedPage, counters: &mut Counters, pool: &mut Pool, slots: &mut Slots)
    requires { Leaves counters.old pool.old slots.old (page_of owned) }
    ensures releases { Releases (page_of owned) counters.old pool.old slots.old counters.new pool.new slots.new }
    ensures groups { SameGroups counters.old counters.new }
    ensures frames { pool.new.frames ≡ pool.old.frames }
    ensures spares { pool.new.spares ≡ pool.old.spares }
    ensures most_spares { pool.new.most_spares ≡ pool.old.most_spares }
    ensures blocks { slots.new.blocks ≡ slots.old.blocks }
{
    counters.are_counted();
    let OwnedPage { content: _, place } = owned;
    match place {
        Place::Frame { frame, charge } => give_room(frame, charge, counters, pool),
        Place::Moving {
            frame,
            charge,
            direction: _,
            backing,
            ticket: _,
        } => {
            give_room(frame, charge, counters, pool);
            give_backing(backing, slots);
        }
        Place::Away { group: _, slot } => slots.give(slot),
    }
}

/// Gives back the slot of memory that was in transfer. A home block has no owner.
fn give_backing(backing: Backing, slots: &mut Slots)
    requires out { (b : ℕ) → is_slot backing b ≡ true → times slots.old.free b ≡ 0 }
    requires in_range { (b : ℕ) → is_slot backing b ≡ true → b < slots.old.blocks }
    ensures counts { (b : ℕ) → times slots.new.free b ≡ times slots.old.free b + as_number (is_slot backing b) }
    ensures more { length slots.new.free ≡ length slots.old.free + as_number (has_slot backing) }
    ensures blocks { slots.new.blocks ≡ slots.old.blocks }
{
    match backing {
        Backing::Swap(slot) => slots.give(slot),
        Backing::Home(_) => {}
    }
}

/// Removes the last place, and gives back what its page owned. False if there is no place.
pub fn release_last(
    owned: &mut Vec<Option<OwnedPage>>,
    counters: &mut Counters,
    pool: &mut Pool,
    slots: &mut Slots,
) -> bool
    requires { AreKept counters.old pool.old slots.old (pages_of owned.old.items) }
    ensures kept { AreKept counters.new pool.new slots.new (pages_of owned.new.items) }
    ensures shorter { result ≡ true → vec_len owned.new < vec_len owned.old }
    ensures empty { result ≡ false → vec_len owned.new ≡ 0 }
{
    match owned.pop() {
        None => false,
        Some(None) => true,
        Some(Some(last)) => {
            release(last, counters, pool, slots);
            true
        }
    }
}
