//! A book, and the seats of the actors that work on it.

ghost use Rattle.std.specs.Prelude.{reverse, ◌≡◌, ◌⊎◌, ℕ, ◌+◌, ◌<◌, ◌≤◌, ◌∷◌, [], true, false, List, length, None, OnOk, OnErr, IfOk, IfErr, IfSome};
ghost use Rattle.machine.specs.declared.command.Reply.{Reply as Told_by};
ghost use Rattle.machine.specs.State.{is_config};
ghost use Rattle.machine.specs.FirstBytes.{first_of};
ghost use Rattle.machine.specs.Audit.{Passes};
ghost use Rattle.machine.specs.History.{at_first, Honest};
ghost use Rattle.machine.specs.Call.{Past};
ghost use Rattle.block_store.specs.Device.{Disk};
ghost use Rattle.book.specs.Passes.{is_current};
ghost use Rattle.turns.specs.Turns.{AwaitsAll, judged};
ghost use Rattle.driver.specs.Schedule.{Asks, WantTurn, StageTurn, JudgedTurn, wants_at, Turn, Advances, Finishes, Begins, Stepped, activity_of, with_activity, first_world};
ghost use Rattle.turns.specs.Tickets.{OwnEvent, OwnStage, OwnWant, OwnTransition};
ghost use Rattle.driver.specs.Seats.{SitsAt, IsFound, is_under_way};
ghost use Rattle.driver.specs.Desks.{world, with_seat, lent_to, RunsTo, blocks_of_desk, worker_of_desk, IsOn, IsSame};
ghost use Rattle.driver.specs.Traced.{GivesUp};
ghost use Rattle.schedules.specs.declared.schedule.Entry.TheVariants.{Whole};
ghost use Rattle.schedules.specs.Schedule.{steps_of_entry, steps_of_line, steps_of};
ghost use Rattle.schedules.specs.Steps.{all_steps};
ghost use Rattle.driver.specs.Sinks.{CutsStep, CutsRun};
ghost use Rattle.driver.specs.Hands.{OwnSeats};

use crate::marked::MarkedBook;
use crate::seat::{Activity, Outcome, Seat};
use crate::seats::{Notice, Seats};
use crate::sink::{Closed, Cut, Sink};
use crate::{calls, seats};
use block_store::BlockDevice;
use book::{Event, Pass};
use judging::judge::judge;
use machine::command::{Actor, Answer, Command, Reply, Step, Word};
use machine::config::Config;
use machine::refusal::Refusal;
use schedules::{Entry, Line, Steps};
use std::alloc::{AllocError, Global};
use trace::Trace;
use turns::automaton::{ask, told};
use turns::turn::{Pending, Stage, Transition, Want};

/// It must be closed.
#[must_use]
pub struct Desk {
    pub alloc: Global,
    pub book: MarkedBook,
    pub pass: Pass,
    pub seats: Seats,
    /// The most turns that a finish takes.
    pub turns: u32,
}

impl Desk {
    /// A desk at which no actor has a command, over a new book. It fails as [`Book::open`] does.
    pub fn open(alloc: Global, config: Config) -> Result<Desk, Refusal>
        ensures opens { IfOk result (λ desk. (disk : Disk) → world desk disk ≡ first_world config disk) }
        ensures current { IfOk result (λ desk. is_current desk.book desk.pass ≡ true) }
        ensures sized { IfOk result (λ desk. is_config config ≡ true) }
        ensures err { IfErr result (λ cause. (cause ≡ Refusal.Invalid) × (is_config config ≡ false) ⊎ (cause ≡ Refusal.NoMemory) × (is_config config ≡ true)) }
    {
        let turns = config.turns;
        let mut book = MarkedBook::open(alloc, config)?;
        match book.pass() {
            Err(_) => {
                let _ = book.into_book().close();
                Err(Refusal::NoMemory)
            }
            Ok(pass) => Ok(Desk {
                alloc,
                book,
                pass,
                seats: Seats::new(alloc),
                turns,
            }),
        }
    }

    /// One event of the book, and what the command makes of its reply.
    fn ask_book(&mut self, pending: Pending, event: Event) -> Result<Transition, AllocError>
        requires current { is_current self.old.book self.old.pass ≡ true }
        requires room { 2 ≤ self.old.pass.room }
        requires awaits { AwaitsAll (Want.Call pending event) }
        requires own { OwnEvent (worker_of_desk self.old) (blocks_of_desk self.old) event }
        ensures asks { IfOk result (λ transition. Asks self.old.pass.caller self.old.book pending event transition self.new.book) }
        ensures own { IfOk result (λ transition. OwnTransition (worker_of_desk self.old) (blocks_of_desk self.old) transition) }
        ensures pass { self.new.pass.caller ≡ self.old.pass.caller }
        ensures current { is_current self.new.book self.new.pass ≡ true }
        ensures room { self.old.pass.room ≤ self.new.pass.room + 1 }
        ensures opening { self.new.book.state.opening ≡ self.old.book.state.opening }
        ensures seats { self.new.seats ≡ self.old.seats }
        ensures limit { self.new.turns ≡ self.old.turns }
    {
        let marks = pending.marks_hit(self.book.placement());
        let page_size = self.book.page_size();
        let reply = self.book.call(&mut self.pass, event, marks);
        told(self.alloc, page_size, pending, reply)
    }

    /// What a command in this state asks for, with the book as it is now.
    fn want(&self, stage: Stage) -> Want
        ensures wants { result ≡ wants_at self.now.book stage }
        ensures awaits { AwaitsAll result }
        ensures own { (worker blocks : ℕ) → OwnStage worker blocks stage → OwnWant worker blocks result }
    {
        ask(stage, self.book.watermarks(), self.book.free_frames())
    }

    /// Asks the book or the device what a command in this state needs. The result is what the command makes of the
    /// answer.
    fn serve<D: BlockDevice>(
        &mut self,
        device: &mut D,
        stage: Stage,
    ) -> Result<Transition, AllocError>
        requires on { IsOn self.old (D.disk device.old) }
        requires room { length self.old.seats + 2 ≤ self.old.pass.room }
        requires own { OwnStage (worker_of_desk self.old) (blocks_of_desk self.old) stage }
        ensures turns { IfOk result (λ transition. WantTurn self.old.pass.caller self.old.book (D.disk device.old) (wants_at self.old.book stage) transition self.new.book (D.disk device.new)) }
        ensures own { IfOk result (λ transition. OwnTransition (worker_of_desk self.old) (blocks_of_desk self.old) transition) }
        ensures pass { self.new.pass.caller ≡ self.old.pass.caller }
        ensures current { is_current self.new.book self.new.pass ≡ true }
        ensures room { self.old.pass.room ≤ self.new.pass.room + 1 }
        ensures opening { self.new.book.state.opening ≡ self.old.book.state.opening }
        ensures seats { self.new.seats ≡ self.old.seats }
        ensures limit { self.new.turns ≡ self.old.turns }
        ensures same { IsSame (D.disk device.old) (D.disk device.new) }
        ensures unmoved { OnErr result (D.disk device.new ≡ D.disk device.old) }
    {
        match self.want(stage) {
            Want::Call(pending, event) => self.ask_book(pending, event),
            Want::Read(access, ticket) => Ok(calls::read_in(device, access, ticket)),
            Want::Write(resume, ticket) => Ok(calls::write_out(device, resume, ticket)),
            Want::End(answer) => Ok(Transition::Ends(answer)),
        }
    }

    /// A turn of a command in this state. Its actor has the seat at this place, and is at rest during the turn.
    fn turn_stage<D: BlockDevice>(
        &mut self,
        device: &mut D,
        actor: Actor,
        place: usize,
        stage: Stage,
    ) -> Result<Outcome, AllocError>
        requires on { IsOn self.old (D.disk device.old) }
        requires room { length self.old.seats + 2 ≤ self.old.pass.room }
        requires own { OwnStage (worker_of_desk self.old) (blocks_of_desk self.old) stage }
        requires place { SitsAt actor place self.old.seats }
        requires rests { activity_of actor self.old.seats ≡ Activity.Rests }
        ensures turn { IfOk result (λ outcome. StageTurn (world self.old (D.disk device.old)) actor stage outcome (world self.new (D.disk device.new))) }
        ensures place { SitsAt actor place self.new.seats }
        ensures on { IsOn self.new (D.disk device.new) }
        ensures same { IsSame (D.disk device.old) (D.disk device.new) }
        ensures unmoved { OnErr result (D.disk device.new ≡ D.disk device.old) }
    {
        let transition = self.serve(device, stage)?;
        let (outcome, left) = seats::settle(transition);
        self.seats.put(place, actor, left);
        Ok(outcome)
    }

    /// The first turn of a command of the actor at this place, which is at rest.
    fn first_turn<D: BlockDevice>(
        &mut self,
        device: &mut D,
        actor: Actor,
        place: usize,
        command: &Command,
    ) -> Result<Outcome, AllocError>
        requires on { IsOn self.old (D.disk device.old) }
        requires room { length self.old.seats + 4 ≤ self.old.pass.room }
        requires place { SitsAt actor place self.old.seats }
        requires rests { activity_of actor self.old.seats ≡ Activity.Rests }
        ensures turn { IfOk result (λ outcome. JudgedTurn (world self.old (D.disk device.old)) actor (judged self.old.book.state.opening self.old.book.state.tree actor command.now) outcome (world self.new (D.disk device.new))) }
        ensures place { SitsAt actor place self.new.seats }
        ensures on { IsOn self.new (D.disk device.new) }
        ensures same { IsSame (D.disk device.old) (D.disk device.new) }
        ensures unmoved { OnErr result (D.disk device.new ≡ D.disk device.old) }
    {
        let judged = judge(self.alloc, self.book.book(), &mut self.pass, actor, command)?;
        match judged {
            Err(cause) => Ok(seats::word(Word::Refused(cause))),
            Ok(stage) => Ok(self.turn_stage(device, actor, place, stage)?),
        }
    }

    /// Makes room in the pass for all that one turn asks. This is one or two paths, an event, and the merge of the mark
    /// of a page that it hit. There is also room for the end of each transfer whose ticket is in hand; a seat has at
    /// most one.
    fn make_room(&mut self) -> Result<(), AllocError>
        ensures room { OnOk result (length self.new.seats + 4 ≤ self.new.pass.room) }
        ensures same { (disk : Disk) → world self.new disk ≡ world self.old disk }
        ensures seats { self.new.seats ≡ self.old.seats }
        ensures limit { self.new.turns ≡ self.old.turns }
        ensures on { (disk : Disk) → IsOn self.old disk → IsOn self.new disk }
    {
        match self.pass.reserve(self.seats.len() + 4) {
            Ok(()) => Ok(()),
            Err(_) => Err(AllocError),
        }
    }

    /// One turn of the actor at this place. If a command is lent to it, this is that command's first turn.
    fn turn<D: BlockDevice>(
        &mut self,
        device: &mut D,
        actor: Actor,
        place: usize,
        lent: Option<&Command>,
    ) -> Result<Outcome, AllocError>
        requires on { IsOn self.old (D.disk device.old) }
        requires place { SitsAt actor place self.old.seats }
        requires rests { IfSome lent (λ _. activity_of actor self.old.seats ≡ Activity.Rests) }
        ensures turn { IfOk result (λ outcome. Turn (lent_to (world self.old (D.disk device.old)) actor lent.entry) actor outcome (world self.new (D.disk device.new))) }
        ensures place { SitsAt actor place self.new.seats }
        ensures on { IsOn self.new (D.disk device.new) }
        ensures same { IsSame (D.disk device.old) (D.disk device.new) }
        ensures unmoved { OnErr result (D.disk device.new ≡ D.disk device.old) }
    {
        self.make_room()?;
        let outcome = self.take_turn(device, actor, place, lent)?;
        Ok(outcome)
    }

    /// The same, if the pass has room for it.
    fn take_turn<D: BlockDevice>(
        &mut self,
        device: &mut D,
        actor: Actor,
        place: usize,
        lent: Option<&Command>,
    ) -> Result<Outcome, AllocError>
        requires on { IsOn self.old (D.disk device.old) }
        requires room { length self.old.seats + 4 ≤ self.old.pass.room }
        requires place { SitsAt actor place self.old.seats }
        requires rests { IfSome lent (λ _. activity_of actor self.old.seats ≡ Activity.Rests) }
        ensures turn { IfOk result (λ outcome. Turn (lent_to (world self.old (D.disk device.old)) actor lent.entry) actor outcome (world self.new (D.disk device.new))) }
        ensures place { SitsAt actor place self.new.seats }
        ensures on { IsOn self.new (D.disk device.new) }
        ensures same { IsSame (D.disk device.old) (D.disk device.new) }
        ensures unmoved { OnErr result (D.disk device.new ≡ D.disk device.old) }
    {
        match lent {
            Some(command) => Ok(self.first_turn(device, actor, place, command)?),
            None => Ok(self.next_turn(device, actor, place)?),
        }
    }

    /// A turn of what the actor is doing, if no command is lent to it.
    fn next_turn<D: BlockDevice>(
        &mut self,
        device: &mut D,
        actor: Actor,
        place: usize,
    ) -> Result<Outcome, AllocError>
        requires on { IsOn self.old (D.disk device.old) }
        requires room { length self.old.seats + 4 ≤ self.old.pass.room }
        requires place { SitsAt actor place self.old.seats }
        ensures turn { IfOk result (λ outcome. Turn (world self.old (D.disk device.old)) actor outcome (world self.new (D.disk device.new))) }
        ensures place { SitsAt actor place self.new.seats }
        ensures on { IsOn self.new (D.disk device.new) }
        ensures same { IsSame (D.disk device.old) (D.disk device.new) }
        ensures unmoved { OnErr result (D.disk device.new ≡ D.disk device.old) }
    {
        match self.seats.take(place, actor) {
            Activity::Rests => Ok(seats::word(Word::Idle)),
            Activity::Begun(command) => Ok(self.first_turn(device, actor, place, &command)?),
            Activity::Does(stage) => Ok(self.turn_stage(device, actor, place, stage)?),
        }
    }

    /// The place of the actor's seat if it was found. Otherwise the place of a new seat, which is at rest.
    fn sit(&mut self, found: Option<usize>, actor: Actor) -> Result<usize, AllocError>
        requires { IsFound actor found self.old.seats }
        ensures place { IfOk result (λ place. SitsAt actor place self.new.seats) }
        ensures now { OnOk result ((disk : Disk) → world self.new disk ≡ with_seat actor (world self.old disk)) }
        ensures seats { OnOk result (self.new.seats ≡ with_activity actor (activity_of actor self.old.seats) self.old.seats) }
        ensures on { (disk : Disk) → IsOn self.old disk → IsOn self.new disk }
    {
        if let Some(place) = found {
            return Ok(place);
        }
        self.make_room()?;
        let place = self.seats.add(actor)?;
        Ok(place)
    }

    /// Begins the actor's command, unless one is under way.
    fn begin<S: Sink>(
        &mut self,
        at: usize,
        actor: Actor,
        command: &Command,
        sink: &mut S,
    ) -> Result<(), Cut>
        ensures begins { OnOk result ((added : List Told_by) × S.took sink.old sink.new added × ((disk : Disk) → Begins (world self.old disk) actor command.now (activity_of actor self.old.seats) added (world self.new disk))) }
        ensures unseen { OnOk result (S.saw sink.old sink.new []) }
        ensures cut { OnErr result ((disk : Disk) → CutsStep S.took S.failed sink.old sink.new (world self.old disk) (Step.Begin actor command.now) disk) }
        ensures on { (disk : Disk) → IsOn self.old disk → IsOn self.new disk }
    {
        self.book.history_is_right();
        let found = self.seats.find(actor);
        if self.seats.is_under_way(found, actor) {
            seats::answer(sink, at, actor, Answer::Word(Word::Underway))?;
            return Ok(());
        }
        let command = command.copy(self.alloc)?;
        let place = self.sit(found, actor)?;
        self.seats.put(place, actor, Activity::Begun(command));
        Ok(())
    }

    /// Shows the book to the sink if the next turn of the actor at this place asks for relief, or reports a failed call
    /// of the device.
    fn give_notice<S: Sink>(&self, at: usize, place: usize, sink: &mut S)
        requires { place < length self.now.seats }
        ensures quiet { S.took sink.old sink.new [] }
        ensures unseen { S.saw sink.old sink.new [] }
    {
        match self.seats.notice_at(place) {
            Some(Notice::Relief(cause)) => sink.see_relief(at, self.book.book(), cause),
            Some(Notice::Failure(call)) => sink.see_failure(at, self.book.book(), call),
            None => {}
        }
    }

    /// One turn, whatever its result. The answer is `idle` if the actor has no command.
    fn advance<D: BlockDevice, S: Sink>(
        &mut self,
        device: &mut D,
        at: usize,
        actor: Actor,
        sink: &mut S,
    ) -> Result<(), Cut>
        requires { IsOn self.old (D.disk device.old) }
        ensures advances { OnOk result ((added : List Told_by) × S.took sink.old sink.new added × Advances (world self.old (D.disk device.old)) actor added (world self.new (D.disk device.new))) }
        ensures unseen { OnOk result (S.saw sink.old sink.new []) }
        ensures cut { OnErr result (CutsStep S.took S.failed sink.old sink.new (world self.old (D.disk device.old)) (Step.Advance actor) (D.disk device.new)) }
        ensures on { IsOn self.new (D.disk device.new) }
        ensures same { IsSame (D.disk device.old) (D.disk device.new) }
    {
        match self.seats.find(actor) {
            None => self.advance_nothing(at, actor, sink),
            Some(place) => self.advance_at(device, at, actor, place, sink),
        }
    }

    /// The same for an actor that has no seat.
    fn advance_nothing<S: Sink>(&self, at: usize, actor: Actor, sink: &mut S) -> Result<(), Cut>
        requires { IsFound actor None self.now.seats }
        ensures advances { OnOk result ((added : List Told_by) × S.took sink.old sink.new added × ((disk : Disk) → Advances (world self.now disk) actor added (world self.now disk))) }
        ensures unseen { OnOk result (S.saw sink.old sink.new []) }
        ensures cut { OnErr result ((disk : Disk) → CutsStep S.took S.failed sink.old sink.new (world self.now disk) (Step.Advance actor) disk) }
    {
        self.book.history_is_right();
        seats::answer(sink, at, actor, Answer::Word(Word::Idle))?;
        Ok(())
    }

    /// The same for the actor at this place.
    fn advance_at<D: BlockDevice, S: Sink>(
        &mut self,
        device: &mut D,
        at: usize,
        actor: Actor,
        place: usize,
        sink: &mut S,
    ) -> Result<(), Cut>
        requires on { IsOn self.old (D.disk device.old) }
        requires place { SitsAt actor place self.old.seats }
        ensures advances { OnOk result ((added : List Told_by) × S.took sink.old sink.new added × Advances (world self.old (D.disk device.old)) actor added (world self.new (D.disk device.new))) }
        ensures unseen { OnOk result (S.saw sink.old sink.new []) }
        ensures cut { OnErr result (CutsStep S.took S.failed sink.old sink.new (world self.old (D.disk device.old)) (Step.Advance actor) (D.disk device.new)) }
        ensures on { IsOn self.new (D.disk device.new) }
        ensures same { IsSame (D.disk device.old) (D.disk device.new) }
    {
        self.give_notice(at, place, sink);
        self.book.history_is_right();
        let shown = self.turn(device, actor, place, None)?;
        self.book.history_is_right();
        seats::say(sink, at, actor, shown)?;
        Ok(())
    }

    /// Turns until an answer, at most the number that a finish takes.
    fn finish<D: BlockDevice, S: Sink>(
        &mut self,
        device: &mut D,
        at: usize,
        actor: Actor,
        sink: &mut S,
    ) -> Result<(), Cut>
        requires { IsOn self.old (D.disk device.old) }
        ensures finishes { OnOk result ((added : List Told_by) × S.took sink.old sink.new added × Finishes (world self.old (D.disk device.old)) actor added (world self.new (D.disk device.new))) }
        ensures unseen { OnOk result (S.saw sink.old sink.new []) }
        ensures cut { OnErr result (CutsStep S.took S.failed sink.old sink.new (world self.old (D.disk device.old)) (Step.Finish actor) (D.disk device.new)) }
        ensures on { IsOn self.new (D.disk device.new) }
        ensures same { IsSame (D.disk device.old) (D.disk device.new) }
    {
        match self.seats.find(actor) {
            None => self.finish_nothing(at, actor, sink),
            Some(place) => self.finish_at(device, at, actor, place, None, sink),
        }
    }

    /// A finish of an actor that has no seat, and therefore no command.
    fn finish_nothing<S: Sink>(&self, at: usize, actor: Actor, sink: &mut S) -> Result<(), Cut>
        requires { IsFound actor None self.now.seats }
        ensures finishes { OnOk result ((added : List Told_by) × S.took sink.old sink.new added × ((disk : Disk) → Finishes (world self.now disk) actor added (world self.now disk))) }
        ensures unseen { OnOk result (S.saw sink.old sink.new []) }
        ensures cut { OnErr result ((disk : Disk) → CutsStep S.took S.failed sink.old sink.new (world self.now disk) (Step.Finish actor) disk) }
    {
        self.book.history_is_right();
        seats::answer(sink, at, actor, Answer::Word(word_of_nothing(self.turns)))?;
        Ok(())
    }

    /// A finish of the actor at this place. A command that is lent to it began when it was lent, and has its first turn
    /// here.
    fn finish_at<D: BlockDevice, S: Sink>(
        &mut self,
        device: &mut D,
        at: usize,
        actor: Actor,
        place: usize,
        lent: Option<&Command>,
        sink: &mut S,
    ) -> Result<(), Cut>
        requires on { IsOn self.old (D.disk device.old) }
        requires place { SitsAt actor place self.old.seats }
        requires rests { IfSome lent (λ _. activity_of actor self.old.seats ≡ Activity.Rests) }
        requires some { IfSome lent (λ _. 0 < self.old.turns) }
        ensures finishes { OnOk result ((added : List Told_by) × S.took sink.old sink.new added × Finishes (lent_to (world self.old (D.disk device.old)) actor lent.entry) actor added (world self.new (D.disk device.new))) }
        ensures unseen { OnOk result (S.saw sink.old sink.new []) }
        ensures cut { OnErr result (CutsStep S.took S.failed sink.old sink.new (lent_to (world self.old (D.disk device.old)) actor lent.entry) (Step.Finish actor) (D.disk device.new)) }
        ensures on { IsOn self.new (D.disk device.new) }
        ensures same { IsSame (D.disk device.old) (D.disk device.new) }
    {
        let mut lent = lent;
        for _turn in 0..self.turns {
            self.give_notice(at, place, sink);
            self.book.history_is_right();
            let outcome = self.turn(device, actor, place, lent)?;
            lent = None;
            self.book.history_is_right();
            let ends = seats::ends(&outcome);
            seats::say(sink, at, actor, outcome)?;
            if ends {
                return Ok(());
            }
        }
        self.book.history_is_right();
        seats::answer(sink, at, actor, Answer::Word(Word::TurnLimit))?;
        Ok(())
    }

    /// One step of a schedule, which is at this place in it.
    fn step<D: BlockDevice, S: Sink>(
        &mut self,
        device: &mut D,
        at: usize,
        step: &Step,
        sink: &mut S,
    ) -> Result<(), Cut>
        requires { IsOn self.old (D.disk device.old) }
        ensures step { OnOk result ((added : List Told_by) × S.took sink.old sink.new added × Stepped (world self.old (D.disk device.old)) step.now added (world self.new (D.disk device.new))) }
        ensures unseen { OnOk result (S.saw sink.old sink.new []) }
        ensures cut { OnErr result (CutsStep S.took S.failed sink.old sink.new (world self.old (D.disk device.old)) step.now (D.disk device.new)) }
        ensures on { IsOn self.new (D.disk device.new) }
        ensures same { IsSame (D.disk device.old) (D.disk device.new) }
    {
        match step {
            Step::Begin(actor, command) => self.begin(at, *actor, command, sink),
            Step::Advance(actor) => self.advance(device, at, *actor, sink),
            Step::Finish(actor) => self.finish(device, at, *actor, sink),
        }
    }

    /// A command of the actor from its beginning to its end. The step at this place begins it, and the next step
    /// finishes it. If no command is under way, this one is lent, and not copied.
    fn whole<D: BlockDevice, S: Sink>(
        &mut self,
        device: &mut D,
        at: usize,
        actor: Actor,
        command: &Command,
        sink: &mut S,
    ) -> Result<(), Cut>
        requires { IsOn self.old (D.disk device.old) }
        ensures runs { OnOk result (RunsTo S.took S.saw sink.old sink.new (world self.old (D.disk device.old)) (steps_of_entry (Whole actor command.now)) (world self.new (D.disk device.new))) }
        ensures cut { OnErr result (CutsRun S.took S.failed sink.old sink.new (world self.old (D.disk device.old)) (steps_of_entry (Whole actor command.now)) (D.disk device.new)) }
        ensures on { IsOn self.new (D.disk device.new) }
        ensures same { IsSame (D.disk device.old) (D.disk device.new) }
    {
        let found = self.seats.find(actor);
        if self.may_lend(found, actor) {
            self.finish_lent(device, at, actor, found, command, sink)?;
            return Ok(());
        }
        self.begin_and_finish(device, at, actor, command, sink)?;
        Ok(())
    }

    /// Whether a command can be lent to the actor, whose seat is at `found` if it has one. No command may be under way,
    /// and a finish has to take a turn.
    fn may_lend(&self, found: Option<usize>, actor: Actor) -> bool
        requires { IsFound actor found self.now.seats }
        ensures rests { result ≡ true → is_under_way (activity_of actor self.now.seats) ≡ false }
        ensures some { result ≡ true → 0 < self.now.turns }
    {
        self.turns > 0 && !self.seats.is_under_way(found, actor)
    }

    /// The two steps if no command is under way. The command is lent for its first turn.
    fn finish_lent<D: BlockDevice, S: Sink>(
        &mut self,
        device: &mut D,
        at: usize,
        actor: Actor,
        found: Option<usize>,
        command: &Command,
        sink: &mut S,
    ) -> Result<(), Cut>
        requires on { IsOn self.old (D.disk device.old) }
        requires found { IsFound actor found self.old.seats }
        requires rests { is_under_way (activity_of actor self.old.seats) ≡ false }
        requires some { 0 < self.old.turns }
        ensures runs { OnOk result (RunsTo S.took S.saw sink.old sink.new (world self.old (D.disk device.old)) (steps_of_entry (Whole actor command.now)) (world self.new (D.disk device.new))) }
        ensures cut { OnErr result (CutsRun S.took S.failed sink.old sink.new (world self.old (D.disk device.old)) (steps_of_entry (Whole actor command.now)) (D.disk device.new)) }
        ensures on { IsOn self.new (D.disk device.new) }
        ensures same { IsSame (D.disk device.old) (D.disk device.new) }
    {
        self.book.history_is_right();
        let place = self.sit(found, actor)?;
        sink.look(at, self.book.book());
        let next = at.saturating_add(1);
        self.finish_at(device, next, actor, place, Some(command), sink)?;
        sink.look(next, self.book.book());
        Ok(())
    }

    /// The two steps, one after the other.
    fn begin_and_finish<D: BlockDevice, S: Sink>(
        &mut self,
        device: &mut D,
        at: usize,
        actor: Actor,
        command: &Command,
        sink: &mut S,
    ) -> Result<(), Cut>
        requires { IsOn self.old (D.disk device.old) }
        ensures runs { OnOk result (RunsTo S.took S.saw sink.old sink.new (world self.old (D.disk device.old)) (steps_of_entry (Whole actor command.now)) (world self.new (D.disk device.new))) }
        ensures cut { OnErr result (CutsRun S.took S.failed sink.old sink.new (world self.old (D.disk device.old)) (steps_of_entry (Whole actor command.now)) (D.disk device.new)) }
        ensures on { IsOn self.new (D.disk device.new) }
        ensures same { IsSame (D.disk device.old) (D.disk device.new) }
    {
        self.begin(at, actor, command, sink)?;
        sink.look(at, self.book.book());
        let next = at.saturating_add(1);
        self.finish(device, next, actor, sink)?;
        sink.look(next, self.book.book());
        Ok(())
    }

    /// One step, which is at this place in the schedule. After it the sink may look at the book.
    pub fn run_one<D: BlockDevice, S: Sink>(
        &mut self,
        device: &mut D,
        at: usize,
        step: &Step,
        sink: &mut S,
    ) -> Result<(), Cut>
        requires { IsOn self.old (D.disk device.old) }
        ensures runs { OnOk result (RunsTo S.took S.saw sink.old sink.new (world self.old (D.disk device.old)) (step.now ∷ []) (world self.new (D.disk device.new))) }
        ensures cut { OnErr result (CutsRun S.took S.failed sink.old sink.new (world self.old (D.disk device.old)) (step.now ∷ []) (D.disk device.new)) }
        ensures on { IsOn self.new (D.disk device.new) }
        ensures same { IsSame (D.disk device.old) (D.disk device.new) }
    {
        self.step(device, at, step, sink)?;
        sink.look(at, self.book.book());
        Ok(())
    }

    /// All that a line asks for. After each step the sink may look at the book.
    fn run_line<D: BlockDevice, S: Sink>(
        &mut self,
        device: &mut D,
        line: &Line,
        sink: &mut S,
    ) -> Result<(), Cut>
        requires { IsOn self.old (D.disk device.old) }
        ensures runs { OnOk result (RunsTo S.took S.saw sink.old sink.new (world self.old (D.disk device.old)) (steps_of_line line.now) (world self.new (D.disk device.new))) }
        ensures cut { OnErr result (CutsRun S.took S.failed sink.old sink.new (world self.old (D.disk device.old)) (steps_of_line line.now) (D.disk device.new)) }
        ensures on { IsOn self.new (D.disk device.new) }
        ensures same { IsSame (D.disk device.old) (D.disk device.new) }
    {
        match &line.entry {
            Entry::Whole(actor, command) => self.whole(device, line.first, *actor, command, sink),
            Entry::Step(step) => self.run_one(device, line.first, step, sink),
        }
    }

    /// All steps of a list, in order.
    fn run_list<D: BlockDevice, S: Sink>(
        &mut self,
        device: &mut D,
        steps: &[Step],
        sink: &mut S,
    ) -> Result<(), Cut>
        requires { IsOn self.old (D.disk device.old) }
        ensures runs { OnOk result (RunsTo S.took S.saw sink.old sink.new (world self.old (D.disk device.old)) steps.now (world self.new (D.disk device.new))) }
        ensures cut { OnErr result (CutsRun S.took S.failed sink.old sink.new (world self.old (D.disk device.old)) steps.now (D.disk device.new)) }
        ensures on { IsOn self.new (D.disk device.new) }
        ensures same { IsSame (D.disk device.old) (D.disk device.new) }
    {
        for at in 0..steps.len() {
            self.run_one(device, at, &steps[at], sink)?;
        }
        Ok(())
    }

    /// All lines of a schedule, in order.
    fn run_lines<D: BlockDevice, S: Sink>(
        &mut self,
        device: &mut D,
        lines: &[Line],
        sink: &mut S,
    ) -> Result<(), Cut>
        requires { IsOn self.old (D.disk device.old) }
        ensures runs { OnOk result (RunsTo S.took S.saw sink.old sink.new (world self.old (D.disk device.old)) (steps_of lines.now) (world self.new (D.disk device.new))) }
        ensures cut { OnErr result (CutsRun S.took S.failed sink.old sink.new (world self.old (D.disk device.old)) (steps_of lines.now) (D.disk device.new)) }
        ensures on { IsOn self.new (D.disk device.new) }
        ensures same { IsSame (D.disk device.old) (D.disk device.new) }
    {
        for line in lines {
            self.run_line(device, line, sink)?;
        }
        Ok(())
    }

    /// All steps that are to be run, in order. The sink gets each answer as it comes, and may look at the book after
    /// each step.
    pub fn run_all<D: BlockDevice, S: Sink>(
        &mut self,
        device: &mut D,
        steps: Steps<'_>,
        sink: &mut S,
    ) -> Result<(), Cut>
        requires { IsOn self.old (D.disk device.old) }
        ensures runs { OnOk result (RunsTo S.took S.saw sink.old sink.new (world self.old (D.disk device.old)) (all_steps steps.entry) (world self.new (D.disk device.new))) }
        ensures cut { OnErr result (CutsRun S.took S.failed sink.old sink.new (world self.old (D.disk device.old)) (all_steps steps.entry) (D.disk device.new)) }
        ensures on { IsOn self.new (D.disk device.new) }
        ensures same { IsSame (D.disk device.old) (D.disk device.new) }
    {
        match steps {
            Steps::List(list) => self.run_list(device, list, sink),
            Steps::Lines(schedule) => self.run_lines(device, schedule.lines(), sink),
        }
    }

    /// Spends what is left, and returns the trace. Transfers whose tickets are in hand end as failed, with no answer.
    pub fn close(self) -> Trace
        requires current { is_current self.book self.pass ≡ true }
        requires room { length self.seats ≤ self.pass.room }
        requires own { OwnSeats (worker_of_desk self) (blocks_of_desk self) self.seats }
        ensures traced { GivesUp self.book.history (reverse result.entries) }
        ensures passes { (files : ℕ → ℕ → ℕ → ℕ) → Honest (at_first files) (reverse result.entries) → Passes (first_of (reverse result.entries)) (reverse result.entries) }
    {
        let Desk {
            alloc: _,
            book,
            mut pass,
            seats,
            turns: _,
        } = self;
        let mut book = book.into_book();
        let mut seats = seats.into_list();
        while let Some(seat) = seats.pop() {
            let Seat { actor: _, activity } = seat;
            calls::give_up(&mut book, &mut pass, activity);
        }
        seats.destroy_empty();
        book.history_is_right();
        book.close()
    }
}

/// The answer of a finish of at most this number of turns if there is no command.
fn word_of_nothing(turns: u32) -> Word
    ensures none { turns ≡ 0 → result ≡ Word.TurnLimit }
    ensures some { 0 < turns → result ≡ Word.Idle }
{
    if turns == 0 {
        Word::TurnLimit
    } else {
        Word::Idle
    }
}
