//! The workers of a run on threads.

ghost use Rattle.std.specs.Prelude.{◌≡◌, ◌⊎◌, ◌<◌, ◌≤◌, ◌++◌, ◌∷◌, [], Ok, length, take, drop, IfSome, IfNone, IfOk, ◌+◌, OnOk};
ghost use Rattle.thread_runs.specs.Crews.{numbers_at, place_of, Hires, Asked, Counts};

use block_store::SharedDevice;
use indexmap::IndexSet;
use live::{Live, Opened, Pass, Roll, Worker};
use machine::command::{Actor, Command, Reply};
use scripts::number_of;
use std::alloc::{AllocError, Global};
use std::sync::Wait;

/// The workers, in the order in which they were hired, and the numbers of their actors. The numbers give an actor's
/// place without a search.
#[derive(Drop)]
pub struct Crew<L: Opened> {
    pub workers: Vec<Worker<L>>,
    numbers: IndexSet<u64>,
    ghost numbered: { numbers.keys ≡ numbers_at workers.items },
}

impl<L: Opened> Crew<L> {
    /// A crew without workers.
    pub fn new(alloc: Global) -> Self
        ensures { result.workers.items ≡ [] }
    {
        Crew {
            workers: Vec::new(alloc),
            numbers: IndexSet::new(alloc),
        }
    }

    /// The place of the actor's worker, if there is one.
    fn find(&self, actor: Actor) -> Option<usize>
        ensures found { IfSome result (λ place. (place ≡ place_of actor self.now.workers.items) × (place < length self.now.workers.items)) }
        ensures missing { IfNone result (place_of actor self.now.workers.items ≡ length self.now.workers.items) }
    {
        self.numbers.get_index_of(&number_of(actor))
    }

    /// Adds a worker for an actor that has none.
    fn add(&mut self, actor: Actor, worker: Worker<L>) -> Result<(), AllocError>
        requires new { place_of actor self.old.workers.items ≡ length self.old.workers.items }
        requires of { worker.actor ≡ actor }
        ensures { OnOk result (self.new.workers.items ≡ self.old.workers.items ++ worker ∷ []) }
    {
        self.workers.reserve(1)?;
        self.numbers.insert(number_of(actor))?;
        self.workers.push_reserved(worker);
        Ok(())
    }

    /// How many workers there are.
    pub fn len(&self) -> usize
        ensures { result ≡ length self.now.workers.items }
    {
        self.workers.len()
    }

    /// The first `count` workers, and the others.
    pub fn split(self, count: usize) -> Result<(Vec<Worker<L>>, Vec<Worker<L>>), AllocError>
        requires { count ≤ length self.workers.items }
        ensures { IfOk result (λ parts. (parts.0.items ≡ take count self.workers.items) × (parts.1.items ≡ drop count self.workers.items)) }
    {
        let Crew {
            mut workers,
            numbers: _,
        } = self;
        let others = workers.split_off(count)?;
        Ok((workers, others))
    }
}

impl<L: Opened> Crew<L> {
    /// Adds a worker for an actor that has none, with a pass of its own and these commands.
    pub fn hire<D: SharedDevice, R: Wait>(
        &mut self,
        rt: &R,
        alloc: Global,
        live: &Live<L, D>,
        roll: &mut Roll<L>,
        actor: Actor,
        commands: Vec<Command>,
    ) -> Result<(), AllocError>
        requires { place_of actor self.old.workers.items ≡ length self.old.workers.items }
        ensures hired { OnOk result (Hires actor commands.items self.old.workers.items self.new.workers.items) }
        ensures counted { OnOk result (Counts roll.old.given self.old.workers.items roll.new.given self.new.workers.items) }
    {
        let pass = new_pass(rt, live, roll)?;
        self.add(actor, Worker::new(alloc, actor, pass, commands))
    }

    /// The place of the actor's worker. A worker is hired if the actor has none.
    fn place<D: SharedDevice, R: Wait>(
        &mut self,
        rt: &R,
        alloc: Global,
        live: &Live<L, D>,
        roll: &mut Roll<L>,
        actor: Actor,
    ) -> Result<usize, AllocError>
        ensures placed { IfOk result (λ place. (place ≡ place_of actor self.new.workers.items) × (place < length self.new.workers.items)) }
        ensures hired { OnOk result ((self.new.workers.items ≡ self.old.workers.items) ⊎ Hires actor [] self.old.workers.items self.new.workers.items) }
        ensures counted { OnOk result (Counts roll.old.given self.old.workers.items roll.new.given self.new.workers.items) }
    {
        if let Some(place) = self.find(actor) {
            return Ok(place);
        }
        let place = self.workers.len();
        self.hire(rt, alloc, live, roll, actor, Vec::new(alloc))?;
        Ok(place)
    }

    /// Answers a command of the actor at once.
    pub fn ask<D: SharedDevice, R: Wait>(
        &mut self,
        rt: &R,
        alloc: Global,
        live: &Live<L, D>,
        roll: &mut Roll<L>,
        actor: Actor,
        command: Command,
    ) -> Result<Vec<Reply>, AllocError>
        ensures asked { IfOk result (λ answers. Asked L.opening actor command self.old.workers.items self.new.workers.items answers.items) }
        ensures counted { OnOk result (Counts roll.old.given self.old.workers.items roll.new.given self.new.workers.items) }
    {
        let place = self.place(rt, alloc, live, roll, actor)?;
        match self.workers[place].answer(rt, live, command) {
            Ok(answers) => Ok(answers),
            Err(_) => Err(AllocError),
        }
    }
}

/// Another pass. It fails only if memory runs out: a script with more actors than passes was refused before.
pub fn new_pass<L: Opened, D: SharedDevice, R: Wait>(
    rt: &R,
    live: &Live<L, D>,
    roll: &mut Roll<L>,
) -> Result<Pass<L>, AllocError>
    ensures exchanges { IfOk result (λ pass. pass.exchanges ≡ []) }
    ensures kept { IfOk result (λ pass. pass.kept ≡ []) }
    ensures counted { OnOk result (roll.new.given ≡ roll.old.given + 1) }
{
    match live.pass(rt, roll) {
        Ok(pass) => Ok(pass),
        Err(_) => Err(AllocError),
    }
}
