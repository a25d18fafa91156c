//! A run that is carried out a step at a time.

ghost use Rattle.std.specs.Prelude.{◌≡◌, ◌⊎◌, ◌∷◌, [], true, false, List, length, IfOk, IfErr, OnOk, OnErr, reverse};
ghost use Rattle.machine.specs.declared.command.Reply.{Reply as Told_by};
ghost use Rattle.block_store.specs.Device.{Disk};
ghost use Rattle.driver.specs.Schedule.{first_world, fits, activity_of, Runs};
ghost use Rattle.driver.specs.Seats.{is_under_way, calls_device};
ghost use Rattle.driver.specs.Desks.{RunsTo};
ghost use Rattle.driver.specs.Sinks.{CutsRun, IsCut};
ghost use Rattle.driver.specs.Traced.{GivesUp, Closes};

use crate::desk::Desk;
use crate::schedule::stop_of;
use crate::sink::{Sink, Stop};
use block_store::BlockDevice;
use book::Book;
use files::blocks_for;
use machine::command::{Actor, Step};
use machine::config::Config;
use machine::refusal::Refusal;
use std::alloc::Global;
use std::marker::Model;
use trace::Trace;

/// A run over a device, as it is after the steps so far. A contract sees it as the world of a schedule.
///
/// It must be spent, by [`Stepper::close`].
#[must_use]
pub struct Stepper<D: BlockDevice> {
    desk: Desk,
    device: D,
}

impl<D: BlockDevice> Model for Stepper<D> {
    ghost use Rattle.driver.specs.Schedule.{World};
    ghost use Rattle.driver.specs.Desks.{world, IsOn};

    ghost Value = { World };

    ghost view = { λ s. world s.desk (D.disk s.device) };

    ghost invariant = { λ s. IsOn s.desk (D.disk s.device) };
}

impl<D: BlockDevice> Stepper<D> {
    /// A run before its first step. It fails as [`crate::run`] does, and then it returns the device unchanged.
    pub fn open(alloc: Global, config: Config, device: D) -> Result<Self, (Refusal, D)>
        ensures opens { IfOk result (λ run. run ≡ first_world config (D.disk device)) }
        ensures sized { OnOk result (fits config (D.disk device) ≡ true) }
        ensures err { IfErr result (λ why. (why.0 ≡ Refusal.Invalid) × (fits config (D.disk device) ≡ false) ⊎ (why.0 ≡ Refusal.NoMemory) × (fits config (D.disk device) ≡ true)) }
        ensures untouched { IfErr result (λ why. why.1 ≡ device) }
    {
        let Some(blocks) = blocks_for(&config) else {
            return Err((Refusal::Invalid, device));
        };
        if device.blocks() < blocks {
            return Err((Refusal::Invalid, device));
        }
        match Desk::open(alloc, config) {
            Ok(desk) => Ok(Stepper { desk, device }),
            Err(cause) => Err((cause, device)),
        }
    }

    /// Carries out one step. The sink gets its answers, each with this place in the list of steps, and then sees the
    /// book.
    ///
    /// It fails if memory is refused, or with `Closed` if the sink takes no more answers. The step may be carried out in
    /// part then: the run has to be closed.
    pub fn step<S: Sink>(&mut self, at: usize, step: &Step, sink: &mut S) -> Result<(), Stop>
        ensures runs { OnOk result (RunsTo S.took S.saw sink.old sink.new self.old (step.now ∷ []) self.new) }
        ensures cut { OnErr result (CutsRun S.took S.failed sink.old sink.new self.old (step.now ∷ []) self.new.disk) }
        ensures err { IfErr result (λ stop. IsCut stop) }
        ensures blocks { length self.new.disk.contents ≡ length self.old.disk.contents }
        ensures limit { self.new.disk.fault_limit ≡ self.old.disk.fault_limit }
    {
        match self.desk.run_one(&mut self.device, at, step, sink) {
            Ok(()) => Ok(()),
            Err(cut) => Err(stop_of(cut)),
        }
    }

    /// Whether the actor has a command that is not answered yet.
    pub fn is_under_way(&self, actor: Actor) -> bool
        ensures { result ≡ is_under_way (activity_of actor self.now.seats) }
    {
        let found = self.desk.seats.find(actor);
        self.desk.seats.is_under_way(found, actor)
    }

    /// Whether the actor's next turn is a call of the device.
    pub fn calls_device(&self, actor: Actor) -> bool
        ensures { result ≡ calls_device (activity_of actor self.now.seats) }
    {
        let found = self.desk.seats.find(actor);
        self.desk.seats.calls_device(found, actor)
    }

    /// The book as it is after the steps so far.
    pub fn book(&self) -> &Book
        ensures { result.now ≡ self.now.past }
    {
        self.desk.book.book()
    }

    /// Returns the trace and the device. Transfers that are under way end as failed, with no answer.
    pub fn close(self) -> (Trace, D)
        ensures closes { (config : Config) → (before : Disk) → (steps : List Step) → (answers : List Told_by) → fits config before ≡ true → Runs (first_world config before) steps answers self → Closes config before steps answers self result.0.entries }
        ensures traced { GivesUp self.past.history (reverse result.0.entries) }
        ensures device { D.disk result.1 ≡ self.disk }
    {
        let Stepper { desk, device } = self;
        desk.book.history_is_right();
        let trace = desk.close();
        (trace, device)
    }
}
