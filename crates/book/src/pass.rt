//! Passes: each belongs to a worker, and has the worker's requests to a book.

ghost use Rattle.std.specs.Prelude.{◌≡◌, ◌≤◌, ◌<◌, [], OnOk, OnErr, IfErr};
ghost use Rattle.book.specs.Passes.{keeping, count_of};

use crate::kept::Kept;
use machine::id::WorkerId;
use machine::refusal::Refusal;
use std::alloc::Global;
use std::marker::Model;

/// A worker's permission to call the book that handed it out. It keeps all requests made with it: each
/// event with its answer, even a refusal, and each path that was looked up.
///
/// A contract sees its worker, what it keeps, and for how many further requests it has memory.
#[derive(Drop)]
pub struct Pass {
    worker: WorkerId,
    kept: Vec<Kept>,
    /// How many of these have an entry in the trace.
    count: usize,
}

impl Model for Pass {
    ghost use Rattle.book.specs.Passes.{PassOf};

    ghost Value = { PassOf };

    ghost use Rattle.book.specs.Keeping.{pass_of, IsPass};

    ghost view = { pass_of };

    ghost invariant = { IsPass };
}

impl Pass {
    pub(crate) fn new(alloc: Global, worker: WorkerId) -> Pass
        ensures worker { result.caller.worker ≡ worker.0 }
        ensures kept { result.kept ≡ [] }
    {
        Pass {
            worker,
            kept: Vec::new(alloc),
            count: 0,
        }
    }

    /// The worker's number: passes are numbered from 0, in the order in which they were handed out.
    pub fn worker(&self) -> WorkerId
        ensures { result.0 ≡ self.now.caller.worker }
    {
        self.worker
    }

    /// The requests made with it, the oldest first.
    pub fn kept(&self) -> &[Kept]
        ensures { result.now ≡ self.now.kept }
    {
        self.kept.as_slice()
    }

    /// How many of its answers have an entry in the trace: those to events that were not refused.
    pub fn count(&self) -> usize
        ensures { result ≡ count_of self.now.kept }
    {
        self.count
    }

    /// Reserves memory for this many further events or paths. Each call with the pass, and each path that
    /// is looked up, takes the memory of one. `NoMemory` if memory runs out. Nothing changes then.
    pub fn reserve(&mut self, more: usize) -> Result<(), Refusal>
        ensures room { OnOk result (more ≤ self.new.room) }
        ensures more { self.old.room ≤ self.new.room }
        ensures kept { self.new.kept ≡ self.old.kept }
        ensures caller { self.new.caller ≡ self.old.caller }
        ensures err { IfErr result (λ cause. (cause ≡ Refusal.NoMemory)) }
        ensures unchanged { OnErr result (self.new ≡ self.old) }
    {
        match self.kept.reserve(more) {
            Ok(()) => Ok(()),
            Err(_) => Err(Refusal::NoMemory),
        }
    }

    /// Keeps another request.
    pub(crate) fn keep(&mut self, kept: Kept)
        requires { 0 < self.old.room }
        ensures { self.new ≡ keeping self.old kept }
    {
        if kept.is_entry() {
            self.count += 1;
        }
        self.kept.push_reserved(kept);
    }
}
