//! The walk over all paths.

ghost use Rattle.std.specs.Prelude.{◌≡◌, ℕ, ◌+◌, ◌-◌, ◌<◌, ◌≤◌, ◌∷◌, ◌++◌, [], ◌↔◌, List, length, Contains, IsNone, IfOk, IfErr, IfSome, IfNone, OnErr, drop, true, false, if◌then◌else◌};
ghost use Rattle.orders.specs.Paths.{Tree, paths};
ghost use Rattle.std.specs.List.Sorted.{IsStrictlyIncreasing};
ghost use Rattle.orders.specs.Runs.{Run, turns, AreAllRuns, IsWalk};
ghost use Rattle.orders.specs.Course.{chosen, taken, left, Follows, IsThrough, IsKnown, IsOther, Adds, Advances, AreLast, HeadIs, HasLater, later};

use crate::point::Point;
use std::alloc::{AllocError, AllocFailed, Global};
use std::marker::Model;

/// Why no actor was chosen.
#[derive(Clone, Copy, Debug, PartialEq, Eq)]
pub enum Fault {
    /// Other actors are ready at this point than in the last run that reached it.
    Changed,
    /// Memory ran out.
    NoMemory,
}

impl From<AllocError> for Fault {
    ghost use Rattle.std.specs.Prelude.{◌≡◌};
    ghost use Rattle.orders.specs.declared.orders.Fault.TheVariants.{NoMemory};

    ghost from_gives = { λ _ e. e ≡ NoMemory };

    fn from(_: AllocError) -> Fault {
        Fault::NoMemory
    }
}

/// A walk over all paths of a tree, in order, each path in a run of its own. It keeps the current path, with the actors
/// that are ready at each point of it.
#[derive(Drop)]
pub struct Orders {
    alloc: Global,
    points: Vec<Point>,
    depth: usize,
}

impl Model for Orders {
    ghost use Rattle.std.specs.Prelude.{◌≤◌, length};
    ghost use Rattle.orders.specs.Course.{Course};

    ghost Value = { Course };

    ghost view = { λ o. record { points = o.points.items; depth = o.depth } };

    ghost invariant = { λ o. o.depth ≤ length o.points.items };
}

impl Orders {
    /// A walk before the first turn of the first run. Allocates no memory.
    pub fn open(alloc: Global) -> Self
        ensures all { (depth : ℕ) → (tree : Tree) → left depth tree result ≡ paths depth tree }
        ensures follows { (tree : Tree) → Follows tree result }
        ensures taken { taken result ≡ [] }
        ensures walks { (depth : ℕ) → IsWalk depth [] result }
        ensures turns { turns result ≡ [] }
    {
        Orders {
            alloc,
            points: Vec::new(alloc),
            depth: 0,
        }
    }

    /// Which of the ready actors takes the next turn. `None` if no actor is ready: then the run is over. The caller gives
    /// the ready actors in rising order.
    ///
    /// It fails with `Changed` if the last run reached this point too, and other actors were ready then.
    pub fn choose(&mut self, ready: &[u32]) -> Result<Option<u32>, Fault>
        // One of the ready actors.
        ensures over { IfOk result (λ who. IsNone who ↔ (ready.now ≡ [])) }
        ensures ready { IfOk result (λ who. IfSome who (Contains ready.now)) }
        ensures taken { IfOk result (λ who. IfSome who (λ w. taken self.new ≡ taken self.old ++ w ∷ [])) }

        // It leaves no path out.
        ensures left { IfOk result (λ _. (depth : ℕ) → (tree : Tree) → length (taken self.old) < depth → ready.now ≡ tree (taken self.old) → left depth tree self.new ≡ left depth tree self.old) }
        ensures follows { IfOk result (λ _. (tree : Tree) → Follows tree self.old → ready.now ≡ tree (taken self.old) → Follows tree self.new) }

        // The same without a known tree.
        ensures turns { IfOk result (λ who. IfSome who (λ w. turns self.new ≡ turns self.old ++ record { ready = ready.now; who = w } ∷ [])) }
        ensures walks { IfOk result (λ _. (depth : ℕ) → (runs : List Run) → length (taken self.old) < depth → IsStrictlyIncreasing ready.now → IsWalk depth runs self.old → IsWalk depth runs self.new) }

        // The run is over.
        ensures through { IfOk result (λ who. IfNone who (IsThrough self.new)) }
        ensures ended { IfOk result (λ who. IfNone who (self.new ≡ self.old)) }

        ensures err { OnErr result (self.new ≡ self.old) }
        ensures changed { result ≡ Err Fault.Changed → (tree : Tree) → Follows tree self.old → ready.now ≡ tree (taken self.old) → ⊥ }
    {
        if self.depth < self.points.len() {
            let known = self.again(ready)?;
            return Ok(Some(known));
        }
        if ready.is_empty() {
            return Ok(None);
        }
        let first = self.add(ready)?;
        Ok(Some(first))
    }

    /// Goes on to the next path, and says whether there is one. If not, all paths were walked. The run must be over.
    pub fn next(&mut self) -> bool
        requires { IsThrough self.old }

        // The path that was walked was the first of those left. Without another one, it was the last.
        ensures left { (depth : ℕ) → (tree : Tree) → length (taken self.old) ≤ depth → tree (taken self.old) ≡ [] → left depth tree self.old ≡ taken self.old ∷ (if result then left depth tree self.new else []) }
        ensures follows { (tree : Tree) → Follows tree self.old → Follows tree self.new }
        ensures taken { taken self.new ≡ [] }

        // The same without a known tree: there is one more run, or this was the last.
        ensures walks { result ≡ true → (depth : ℕ) → (runs : List Run) → length (taken self.old) ≤ depth → IsWalk depth runs self.old → IsWalk depth (runs ++ turns self.old ∷ []) self.new }
        ensures all { result ≡ false → (depth : ℕ) → (runs : List Run) → length (taken self.old) ≤ depth → IsWalk depth runs self.old → AreAllRuns depth (runs ++ turns self.old ∷ []) }
        ensures turns { turns self.new ≡ [] }
    {
        self.depth = 0;
        advance(&mut self.points)
    }

    /// Adds a point. The first of the ready actors takes the turn there.
    fn add(&mut self, ready: &[u32]) -> Result<u32, AllocError>
        requires through { IsThrough self.old }
        requires some { 0 < length ready.now }
        ensures adds { IfOk result (λ who. Adds self.old ready.now who self.new) }
        ensures err { OnErr result (self.new ≡ self.old) }
    {
        let first = ready[0];
        let ready = ready.to_vec(self.alloc)?;
        self.points.push(Point { ready, at: 0 })?;
        self.depth += 1;
        Ok(first)
    }

    /// Repeats the choice at a point that the last run reached too.
    fn again(&mut self, ready: &[u32]) -> Result<u32, Fault>
        requires { self.old.depth < length self.old.points }
        ensures known { IfOk result (λ who. IsKnown self.old ready.now who) }
        ensures further { IfOk result (λ _. self.new ≡ record self.old { depth = self.old.depth + 1 }) }
        ensures err { OnErr result (self.new ≡ self.old) }
        ensures changed { IfErr result (λ fault. (fault ≡ Fault.Changed) × IsOther self.old ready.now) }
    {
        match who_of(&self.points[self.depth], ready) {
            None => Err(Fault::Changed),
            Some(who) => {
                self.depth += 1;
                Ok(who)
            }
        }
    }
}

/// Who takes the turn at the point, if these actors are ready there.
fn who_of(point: &Point, ready: &[u32]) -> Option<u32>
    ensures known { IfSome result (λ who. (who ≡ chosen point.now) × (point.now.ready.items ≡ ready.now)) }
    ensures other { IfNone result (point.now.ready.items ≡ ready.now → ⊥) }
{
    if point.ready.as_slice() == ready {
        Some(point.ready[point.at])
    } else {
        None
    }
}

/// Finds the last point at which a later actor is ready, chooses the next one there, and drops the points after it. The
/// result says whether there is such a point.
fn advance(points: &mut Vec<Point>) -> bool
    ensures advances { result ≡ true → Advances points.old.items points.new.items }
    ensures over { result ≡ false → AreLast points.old.items × (points.new.items ≡ []) }
{
    let kept = kept(points);
    points.truncate(kept);
    if kept == 0 {
        return false;
    }
    points[kept - 1].at += 1;
    true
}

/// How many points there are up to the last one at which a later actor is ready.
fn kept(points: &[Point]) -> usize
    ensures lasts { AreLast (drop result points.now) }
    ensures within { result ≤ length points.now }
    ensures open { 0 < result → HeadIs HasLater (drop (result - 1) points.now) }
{
    let mut kept = points.len();
    while kept > 0 && is_last(&points[kept - 1]) {
        kept -= 1;
    }
    kept
}

fn is_last(point: &Point) -> bool
    ensures last { result ≡ true → later point.now ≡ [] }
    ensures open { result ≡ false → HasLater point.now }
{
    point.at + 1 == point.ready.len()
}
