//! Workers that work at the same time, each in a thread of its own.

ghost use Rattle.std.specs.Prelude.{◌≡◌, ℕ, ◌<◌, [], false, Ok, IfOk, IfErr, length, slice_index_or};
ghost use Rattle.live.specs.Works.{Repeated};
ghost use Rattle.live.specs.Matching.{has_share};
ghost use Rattle.live.specs.Crews.{HasAnswered, HasWorked, HaveWorked, answers_in};

use crate::live::Live;
use crate::opened::Opened;
use crate::pass::Pass;
use block_store::SharedDevice;
use machine::command::{Actor, Command, Reply};
use machine::refusal::Refusal;
use std::alloc::Global;
use std::marker::Model;
use std::sync::Wait;
use std::thread;
use std::thread::Threads;

/// A worker, with its commands and its answers to them.
#[derive(Drop)]
pub struct Worker<L: Opened> {
    actor: Actor,
    pass: Pass<L>,
    commands: Vec<Command>,
    answers: Result<Vec<Reply>, Refusal>,
}

impl<L: Opened> Model for Worker<L> {
    ghost use Rattle.std.specs.Prelude.{Result, Ok, Err};
    ghost use Rattle.live.specs.Crews.{WorkerOf, answers_of};

    ghost Value = { WorkerOf };

    ghost view = { λ w. record { actor = w.actor; pass = w.pass; commands = w.commands.items; answers = answers_of w.answers } };
}

impl<L: Opened> Worker<L> {
    /// A worker that has not answered anything yet.
    pub fn new(alloc: Global, actor: Actor, pass: Pass<L>, commands: Vec<Command>) -> Worker<L>
        ensures { result ≡ record { actor = actor; pass = pass; commands = commands.items; answers = Ok [] } }
    {
        Worker {
            actor,
            pass,
            commands,
            answers: Ok(Vec::new(alloc)),
        }
    }

    pub fn actor(&self) -> Actor
        ensures { result ≡ self.now.actor }
    {
        self.actor
    }

    /// What it answered, or why it did nothing.
    pub fn answers(&self) -> Result<&[Reply], Refusal>
        ensures { answers_in result ≡ self.now.answers }
    {
        match &self.answers {
            Ok(answers) => Ok(answers.as_slice()),
            Err(cause) => Err(*cause),
        }
    }

    /// Its pass. The rest is dropped.
    pub fn into_pass(self) -> Pass<L>
        ensures { result ≡ self.pass }
    {
        let Worker {
            actor: _,
            pass,
            commands: _,
            answers: _,
        } = self;
        pass
    }
}

impl<L: Opened> Worker<L> {
    /// Runs its commands.
    pub fn work<D: SharedDevice, R: Wait>(&mut self, rt: &R, live: &Live<L, D>)
        ensures { HasWorked L.opening self.old self.new }
    {
        self.answers = live.work(rt, &mut self.pass, self.actor, &self.commands);
    }

    /// Answers a command at once, before the worker's own commands.
    pub fn answer<D: SharedDevice, R: Wait>(
        &mut self,
        rt: &R,
        live: &Live<L, D>,
        command: Command,
    ) -> Result<Vec<Reply>, Refusal>
        ensures actor { self.new.actor ≡ self.old.actor }
        ensures answered { IfOk result (λ answers. HasAnswered L.opening command self.old self.new answers.items) }
        ensures err { IfErr result (λ cause. (cause ≡ Refusal.NoMemory) × (self.new.pass ≡ self.old.pass)) }
    {
        live.work(rt, &mut self.pass, self.actor, &[command])
    }
}

/// Each worker runs its commands, in a thread of its own if one can be made.
fn each_works<L: Opened + Send + Sync, D: SharedDevice + Sync, R: Threads + Wait + Sync>(
    rt: &R,
    live: &Live<L, D>,
    workers: &mut [Worker<L>],
)
    ensures { HaveWorked L.opening workers.old workers.new }
{
    let count = workers.len();
    if count == 0 {
        return;
    }
    thread::for_each_mut(rt, workers, count, &|_at, worker| worker.work(rt, live));
}

/// Each worker runs its commands. The daemon runs at the same time until all workers have ended, and then once
/// more. Returns all of them.
///
/// Each has a thread of its own. If no more threads can be made, the remaining workers run one after the other.
pub fn work_together<L: Opened + Send + Sync, D: SharedDevice + Sync, R: Threads + Wait + Sync>(
    rt: &R,
    live: &Live<L, D>,
    workers: Vec<Worker<L>>,
    daemon: Pass<L>,
) -> (Vec<Worker<L>>, Pass<L>)
    ensures workers { HaveWorked L.opening workers.items result.0.items }
    ensures count { length result.0.items ≡ length workers.items }
    ensures daemon { Repeated L.opening Actor.Daemon Command.Daemon daemon.exchanges result.1.exchanges }
    ensures rest { has_share daemon.kept ≡ false → has_share result.1.kept ≡ false }
{
    let balance = move || -> Pass<L>
        ensures works { Repeated L.opening Actor.Daemon Command.Daemon daemon.exchanges result.exchanges }
        ensures rest { has_share daemon.kept ≡ false → has_share result.kept ≡ false }
    {
        let mut daemon = daemon;
        live.daemon(rt, &mut daemon);
        daemon
    };
    let labour = move || -> Vec<Worker<L>>
        ensures workers { HaveWorked L.opening workers.items result.items }
        ensures count { length result.items ≡ length workers.items }
    {
        let mut workers = workers;
        each_works(rt, live, workers.as_mut_slice());
        live.stop(rt);
        workers
    };
    let (daemon, workers) = thread::join(rt, balance, labour);
    (workers, daemon)
}
