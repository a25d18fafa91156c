//! Room for a page: a charge and a frame, taken together and given back together.

ghost use Rattle.std.specs.Prelude.{◌≡◌, ◌≢◌, ℕ, ◌+◌, ◌<◌, true, length, None};
ghost use Rattle.machine.specs.Tree.{is_live};
ghost use Rattle.counts.specs.Numbers.{times};
ghost use Rattle.page_counter.specs.Counts.{Charges, IsOut, usage_of, over_in};
ghost use Rattle.page_state.specs.Room.{LacksFrame, TakesSlot, TakesRoom};

use block_store::{Slot, Slots};
use frames::{Frame, Pool, Spare};
use machine::id::GroupId;
use page_counter::{Charge, Counters};
use pages::WayOut;

/// Why a page cannot be charged to a group and brought into a frame.
#[derive(Clone, Copy)]
pub enum NoRoom {
    /// Another page would exceed a max: this is the lowest group with such a max.
    Over(GroupId),
    /// No frame is free.
    NoFrame,
}

/// Charges a page to the group, and takes a frame for it. There is room for both.
pub fn take_room(counters: &mut Counters, pool: &mut Pool, group: GroupId) -> (Frame, Charge)
    requires live { is_live counters.old.tree group.0 ≡ true }
    requires few { usage_of counters.old 0 < u64.MAX }
    requires under { over_in counters.old group.0 ≡ None }
    requires free { 0 < length pool.old.free }
    ensures { TakesRoom counters.old counters.new pool.old pool.new group.0 result.0.number result.1 }
{
    counters.are_counted();
    let Ok(charge) = counters.try_charge(group) else {
        unreachable!()
    };
    let Some(frame) = pool.take() else {
        unreachable!()
    };
    (frame, charge)
}

/// Gives a frame back, and uncharges its page.
pub fn give_room(frame: Frame, charge: Charge, counters: &mut Counters, pool: &mut Pool)
    requires out { times pool.old.free frame.number ≡ 0 }
    requires in_range { frame.number < pool.old.frames }
    requires charged { IsOut counters.old charge }
    ensures frame { LacksFrame pool.new pool.old frame.number }
    ensures uncharged { Charges counters.new counters.old charge }
{
    pool.give(frame);
    counters.uncharge(charge);
}

/// The slot for a page that must be written to leave its frame. Memory takes a free slot, of which there is one
/// then. A page of a file takes none.
pub fn slot_for(way: WayOut, slots: &mut Slots) -> Option<Slot>
    requires written { way ≢ WayOut.Dropped }
    requires free { way ≡ WayOut.ToSwap → 0 < length slots.old.free }
    ensures { TakesSlot way slots.old slots.new result }
{
    match way {
        WayOut::ToSwap => Some(slots.take().unwrap()),
        WayOut::ToHome => None,
        WayOut::Dropped => unreachable!(),
    }
}

/// Takes a spare, of which there is one.
pub fn take_spare(pool: &mut Pool) -> Spare
    requires { 0 < pool.old.spares }
    ensures { pool.old ≡ record pool.new { spares = pool.new.spares + 1 } }
{
    let Some(spare) = pool.take_spare() else {
        unreachable!()
    };
    spare
}
