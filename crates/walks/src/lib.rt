//! Every order in which the turns of a machine can be taken.
//!
//! Nothing is assumed of the machine: not which actors are ready when, and not that the same turns make the same actors
//! ready again.
#![tactic(auto)]

mod sample;

ghost use Rattle.std.specs.Prelude.{◌≡◌, ℕ, ◌+◌, ◌-◌, ◌<◌, ◌≤◌, [], ◌∷◌, ◌++◌, List, length, Contains, IfOk, OnOk, Ok, true, false};
ghost use Rattle.std.specs.List.Sorted.{IsStrictlyIncreasing};
ghost use Rattle.orders.specs.Course.{Course, taken, IsThrough};
ghost use Rattle.orders.specs.Runs.{Run, turns, IsWalk, AreAllRuns};
ghost use Rattle.walks.specs.Walks.{IsWalked, IsCut, Goes, Ends};

use orders::{Fault, Orders};
pub use sample::walk_some;
use std::alloc::{AllocError, Global};

/// A machine that can be run again and again, and gathers something of each run.
pub trait Machine {
    /// These turns were taken since the run began.
    ghost came: { Self → Run → Type 0 };

    /// These actors are ready now.
    ghost may: { Self → List ℕ → Type 0 };

    /// This was gathered of exactly these runs.
    ghost gathered: { Self → List Run → Type 0 };

    /// The second machine is still the first in what no run changes.
    ghost stays: { Self → Self → Type 0 };

    /// Begins a new run.
    fn begin(&mut self) -> Result<(), AllocError>
        ensures came { OnOk result (came self.new []) }
        ensures stays { OnOk result (stays self.old self.new) }
        ensures gathered { OnOk result ((runs : List Run) → gathered self.old runs → gathered self.new runs) };

    /// The actors that are ready, in rising order.
    fn ready(&self, alloc: Global) -> Result<Vec<u32>, AllocError>
        ensures may { IfOk result (λ ready. may self.now ready.items) }
        ensures rising { IfOk result (λ ready. IsStrictlyIncreasing ready.items) };

    /// One of the ready actors takes its turn.
    fn turn(&mut self, ready: &[u32], who: u32) -> Result<(), AllocError>
        requires may { may self.old ready.now }
        requires among { Contains ready.now who }
        ensures came { OnOk result ((run : Run) → came self.old run → came self.new (run ++ record { ready = ready.now; who = who } ∷ [])) }
        ensures stays { OnOk result (stays self.old self.new) }
        ensures gathered { OnOk result ((runs : List Run) → gathered self.old runs → gathered self.new runs) };

    /// Gathers something of the run, which is over: no actor is ready.
    fn end(&mut self) -> Result<(), AllocError>
        requires { may self.old [] }
        ensures gathered { OnOk result ((runs : List Run) → (run : Run) → gathered self.old runs → came self.old run → gathered self.new (runs ++ run ∷ [])) }
        ensures stays { OnOk result (stays self.old self.new) };

    ghost same: { (m : Self) → stays m m };

    ghost further: { (a b c : Self) → stays a b → stays b c → stays a c };
}

/// How a walk ended.
#[derive(Clone, Copy, Debug, PartialEq, Eq)]
pub enum Walk {
    /// All runs were made. This is their number.
    All(u64),
    /// As many runs were made as the caller allowed, and there are more.
    Stopped,
    /// A run has more turns than the caller allowed.
    TooDeep,
    /// This number of runs was drawn at random. There may be others.
    Sample(u64),
}

/// Makes every run of the machine: at most `most` runs, each of at most `depth` turns.
///
/// It fails with `Changed` if the machine had other actors ready after the same turns, and with `NoMemory` if memory runs
/// out.
pub fn walk_all<M: Machine>(
    alloc: Global,
    machine: &mut M,
    depth: usize,
    most: u64,
) -> Result<Walk, Fault>
    requires { M.gathered machine.old [] }
    ensures walked { IfOk result (IsWalked M.came M.may M.gathered machine.new depth most) }
    ensures stays { OnOk result (M.stays machine.old machine.new) }
{
    let mut orders = Orders::open(alloc);
    for walked in 0..most {
        if !run(alloc, machine, &mut orders, depth)? {
            return Ok(Walk::TooDeep);
        }
        if !orders.next() {
            return Ok(Walk::All(walked + 1));
        }
    }
    Ok(Walk::Stopped)
}

/// Makes one run. `false` if it has more turns than `depth`.
fn run<M: Machine>(
    alloc: Global,
    machine: &mut M,
    orders: &mut Orders,
    depth: usize,
) -> Result<bool, Fault>
    requires turns { turns orders.old ≡ [] }
    requires taken { taken orders.old ≡ [] }
    ensures short { result ≡ Ok true → length (taken orders.new) ≤ depth }
    ensures through { result ≡ Ok true → IsThrough orders.new }
    ensures walks { result ≡ Ok true → (runs : List Run) → IsWalk depth runs orders.old → IsWalk depth runs orders.new }
    ensures gathered { result ≡ Ok true → (runs : List Run) → M.gathered machine.old runs → M.gathered machine.new (runs ++ turns orders.new ∷ []) }
    ensures cut { result ≡ Ok false → IsCut M.came M.may machine.new depth }
    ensures kept { result ≡ Ok false → (runs : List Run) → M.gathered machine.old runs → M.gathered machine.new runs }
    ensures stays { OnOk result (M.stays machine.old machine.new) }
{
    machine.begin()?;
    for _turn in 0..depth {
        if !go_on(alloc, machine, orders)? {
            return Ok(true);
        }
    }
    end(alloc, machine, orders)
}

/// Takes the next turn of the run. `false` if the run is over.
fn go_on<M: Machine>(alloc: Global, machine: &mut M, orders: &mut Orders) -> Result<bool, Fault>
    requires { M.came machine.old (turns orders.old) }
    ensures goes { result ≡ Ok true → Goes M.came M.gathered machine.old machine.new orders.old orders.new }
    ensures ends { result ≡ Ok false → Ends M.gathered machine.old machine.new orders.old orders.new }
    ensures stays { OnOk result (M.stays machine.old machine.new) }
{
    let ready = machine.ready(alloc)?;
    match orders.choose(&ready)? {
        None => {
            machine.end()?;
            Ok(false)
        }
        Some(who) => {
            machine.turn(&ready, who)?;
            Ok(true)
        }
    }
}

/// Ends a run that has had as many turns as it may have. `false` if it is not over.
fn end<M: Machine>(alloc: Global, machine: &mut M, orders: &mut Orders) -> Result<bool, Fault>
    requires { M.came machine.old (turns orders.old) }
    ensures ends { result ≡ Ok true → Ends M.gathered machine.old machine.new orders.old orders.new }
    ensures cut { result ≡ Ok false → IsCut M.came M.may machine.new (length (turns orders.old)) }
    ensures kept { result ≡ Ok false → machine.new ≡ machine.old }
    ensures stays { OnOk result (M.stays machine.old machine.new) }
{
    let ready = machine.ready(alloc)?;
    match orders.choose(&ready)? {
        None => {
            machine.end()?;
            Ok(true)
        }
        Some(_) => Ok(false),
    }
}
