//! Runs that are drawn at random.

ghost use Rattle.std.specs.Prelude.{◌≡◌, ℕ, ◌+◌, ◌≤◌, [], List, length, IfOk, OnOk, Ok, true, false};
ghost use Rattle.orders.specs.Runs.{Run};
ghost use Rattle.walks.specs.Walks.{IsSampled, IsCut, Taken, DrawsOne};

use crate::{Machine, Walk};
use rand::seq::IndexedRandom;
use rand_core::SeedableRng;
use rand_pcg::Pcg32;
use std::alloc::{AllocError, Global};

/// Makes this number of runs of the machine, each of at most `depth` turns. At each point of a run one of the ready actors
/// is drawn at random, each with the same chance.
///
/// The same seed draws the same actors. No clause speaks of chances.
pub fn walk_some<M: Machine>(
    alloc: Global,
    machine: &mut M,
    depth: usize,
    runs: u64,
    seed: u64,
) -> Result<Walk, AllocError>
    requires { M.gathered machine.old [] }
    ensures sampled { IfOk result (IsSampled M.came M.may M.gathered machine.new depth runs) }
    ensures stays { OnOk result (M.stays machine.old machine.new) }
{
    let mut chance = Pcg32::seed_from_u64(seed);
    for _drawn in 0..runs {
        if !draw_run(alloc, machine, depth, &mut chance)? {
            return Ok(Walk::TooDeep);
        }
    }
    Ok(Walk::Sample(runs))
}

/// Makes one run. `false` if it has more turns than `depth`.
fn draw_run<M: Machine>(
    alloc: Global,
    machine: &mut M,
    depth: usize,
    chance: &mut Pcg32,
) -> Result<bool, AllocError>
    ensures drawn { result ≡ Ok true → DrawsOne M.gathered machine.old machine.new depth }
    ensures cut { result ≡ Ok false → IsCut M.came M.may machine.new depth }
    ensures kept { result ≡ Ok false → (runs : List Run) → M.gathered machine.old runs → M.gathered machine.new runs }
    ensures stays { OnOk result (M.stays machine.old machine.new) }
{
    machine.begin()?;
    for _turn in 0..depth {
        if !draw_turn(alloc, machine, chance)? {
            machine.end()?;
            return Ok(true);
        }
    }
    let ready = machine.ready(alloc)?;
    if !ready.is_empty() {
        return Ok(false);
    }
    machine.end()?;
    Ok(true)
}

/// One of the ready actors takes the next turn of the run. `false` if no actor is ready.
fn draw_turn<M: Machine>(
    alloc: Global,
    machine: &mut M,
    chance: &mut Pcg32,
) -> Result<bool, AllocError>
    ensures taken { result ≡ Ok true → (count : ℕ) → Taken M.came machine.old count → Taken M.came machine.new (count + 1) }
    ensures over { result ≡ Ok false → M.may machine.new [] }
    ensures same { result ≡ Ok false → machine.new ≡ machine.old }
    ensures stays { OnOk result (M.stays machine.old machine.new) }
    ensures gathered { OnOk result ((runs : List Run) → M.gathered machine.old runs → M.gathered machine.new runs) }
{
    let ready = machine.ready(alloc)?;
    match ready.as_slice().choose(chance) {
        None => Ok(false),
        Some(who) => {
            let who = *who;
            machine.turn(&ready, who)?;
            Ok(true)
        }
    }
}
