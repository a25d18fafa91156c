//! The seats: what each actor is doing, in order of first appearance.

ghost use Rattle.std.specs.Prelude.{◌≡◌, ℕ, ◌+◌, ◌<◌, ◌≤◌, ◌++◌, ◌∷◌, [], length, None, IfOk, OnOk, OnErr, true, false};
ghost use Rattle.driver.specs.Schedule.{number_of, with_activity, activity_of, said_at, outcome_of, left_of, is_end};
ghost use Rattle.turns.specs.Tickets.{OwnTransition};
ghost use Rattle.driver.specs.Seats.{SitsAt, IsFound, is_under_way, calls_device};
ghost use Rattle.turns.specs.Turns.{answer_by};
ghost use Rattle.driver.specs.Hands.{OwnActivity, OwnSeats};

use crate::seat::{Activity, Outcome, Seat};
use crate::sink::{Closed, FailedCall, Sink};
use indexmap::IndexSet;
use machine::command::{Actor, Answer, Command, Reply, Word};
use machine::event::Cause;
use machine::record::Direction;
use std::alloc::{AllocError, Global};
use std::marker::Model;
use std::mem;
use turns::automaton;
use turns::turn::{Stage, Transition};

/// The seats in order of first appearance, and the numbers of the actors that have them. An actor's place is looked up
/// by its number, without a search.
///
/// A contract sees them as the list of seats. They must be taken apart by [`Seats::into_list`], since a command under
/// way may hold a ticket.
#[must_use]
pub struct Seats {
    list: Vec<Seat>,
    numbers: IndexSet<u64>,
}

impl Model for Seats {
    ghost use Rattle.std.specs.Prelude.{◌≡◌, List};
    ghost use Rattle.driver.specs.declared.seat.Seat.{Seat};
    ghost use Rattle.driver.specs.Seats.{numbers_of};

    ghost Value = { List Seat };

    ghost view = { λ s. s.list.items };

    ghost invariant = { λ s. s.numbers.keys ≡ numbers_of s.list.items };
}

/// What a sink sees before a turn.
#[derive(Clone, Copy)]
pub enum Notice {
    /// The turn asks for relief, for this cause.
    Relief(Cause),
    /// The turn reports this failed call of the device.
    Failure(FailedCall),
}

/// Different actors have different numbers.
fn number_of(actor: Actor) -> u64
    ensures { result ≡ number_of actor }
{
    match actor {
        Actor::Shell => 0,
        Actor::Control => 1,
        Actor::Daemon => 2,
        Actor::Task(task) => u64::from(task) + 3,
    }
}

impl Seats {
    /// No seats.
    pub fn new(alloc: Global) -> Self
        ensures { result ≡ [] }
    {
        Seats {
            list: Vec::new(alloc),
            numbers: IndexSet::new(alloc),
        }
    }

    /// The number of seats.
    pub fn len(&self) -> usize
        ensures len { result ≡ length self.now }
        ensures few { result + 4 ≤ usize.MAX }
    {
        self.list.len()
    }

    /// The list of seats, to be spent one by one.
    pub fn into_list(self) -> Vec<Seat>
        ensures { result.items ≡ self }
    {
        let Seats { list, numbers: _ } = self;
        list
    }

    /// The place of the actor's seat, if there is one.
    pub fn find(&self, actor: Actor) -> Option<usize>
        ensures { IsFound actor result self.now }
    {
        self.numbers.get_index_of(&number_of(actor))
    }

    /// The place of a new seat, for an actor that has none and is at rest there. It fails only if memory is refused.
    pub fn add(&mut self, actor: Actor) -> Result<usize, AllocError>
        requires { IsFound actor None self.old }
        ensures place { IfOk result (λ place. SitsAt actor place self.new) }
        ensures now { OnOk result (self.new ≡ with_activity actor (activity_of actor self.old) self.old) }
        ensures len { length self.new ≤ length self.old + 1 }
        ensures own { (worker blocks : ℕ) → OwnSeats worker blocks self.old → OwnSeats worker blocks self.new }
        ensures err { OnErr result (self.new ≡ self.old) }
    {
        let place = self.list.len();
        self.list.reserve(1)?;
        self.numbers.insert(number_of(actor))?;
        self.list.push_reserved(Seat {
            actor,
            activity: Activity::Rests,
        });
        Ok(place)
    }

    /// Sets what the actor at this place is doing, and returns what it was doing.
    fn exchange(&mut self, place: usize, actor: Actor, activity: Activity) -> Activity
        requires { SitsAt actor place self.old }
        ensures was { result ≡ activity_of actor self.old }
        ensures now { self.new ≡ with_activity actor activity self.old }
        ensures len { length self.new ≡ length self.old }
    {
        mem::replace(&mut self.list[place].activity, activity)
    }

    /// Whether the actor, whose seat is at `found` if it has one, has a command that is not answered yet.
    pub fn is_under_way(&self, found: Option<usize>, actor: Actor) -> bool
        requires { IsFound actor found self.now }
        ensures { result ≡ is_under_way (activity_of actor self.now) }
    {
        match found {
            None => false,
            Some(place) => is_at_work(&self.list[place].activity),
        }
    }

    /// Whether the next turn of the actor, whose seat is at `found` if it has one, is a call of the device.
    pub fn calls_device(&self, found: Option<usize>, actor: Actor) -> bool
        requires { IsFound actor found self.now }
        ensures { result ≡ calls_device (activity_of actor self.now) }
    {
        match found {
            None => false,
            Some(place) => is_calling(&self.list[place].activity),
        }
    }

    /// What the next turn of the actor at this place will ask for, if a sink sees it before.
    pub fn notice_at(&self, place: usize) -> Option<Notice>
        requires { place < length self.now }
    {
        match &self.list[place].activity {
            Activity::Does(Stage::MakeRoom(_, cause)) => Some(Notice::Relief(*cause)),
            Activity::Does(Stage::Lower(group)) => Some(Notice::Relief(Cause::Lower(*group))),
            Activity::Does(Stage::FetchFail(ticket)) => Some(Notice::Failure(FailedCall {
                direction: Direction::In,
                ticket: ticket.number(),
                block: ticket.block(),
            })),
            Activity::Does(Stage::LeaveFail(ticket)) => Some(Notice::Failure(FailedCall {
                direction: Direction::Out,
                ticket: ticket.number(),
                block: ticket.block(),
            })),
            _ => None,
        }
    }

    /// Takes what the actor at this place is doing. The actor is at rest then.
    pub fn take(&mut self, place: usize, actor: Actor) -> Activity
        requires { SitsAt actor place self.old }
        ensures was { result ≡ activity_of actor self.old }
        ensures now { self.new ≡ with_activity actor Activity.Rests self.old }
        ensures len { length self.new ≡ length self.old }
        ensures place { SitsAt actor place self.new }
        ensures held { (worker blocks : ℕ) → OwnSeats worker blocks self.old → OwnActivity worker blocks result }
        ensures own { (worker blocks : ℕ) → OwnSeats worker blocks self.old → OwnSeats worker blocks self.new }
    {
        self.exchange(place, actor, Activity::Rests)
    }

    /// Sets what the actor at this place is doing. It had no command under way.
    pub fn put(&mut self, place: usize, actor: Actor, activity: Activity)
        requires place { SitsAt actor place self.old }
        requires free { is_under_way (activity_of actor self.old) ≡ false }
        ensures put { self.new ≡ with_activity actor activity self.old }
        ensures len { length self.new ≡ length self.old }
        ensures place { SitsAt actor place self.new }
        ensures own { (worker blocks : ℕ) → OwnSeats worker blocks self.old → OwnActivity worker blocks activity → OwnSeats worker blocks self.new }
    {
        let_go(self.exchange(place, actor, activity));
    }
}

fn is_at_work(activity: &Activity) -> bool
    ensures { result ≡ is_under_way activity.now }
{
    match activity {
        Activity::Rests => false,
        Activity::Begun(_) | Activity::Does(_) => true,
    }
}

fn is_calling(activity: &Activity) -> bool
    ensures { result ≡ calls_device activity.now }
{
    match activity {
        Activity::Rests | Activity::Begun(_) => false,
        Activity::Does(Stage::Read(_, _) | Stage::Write(_, _)) => true,
        Activity::Does(_) => false,
    }
}

/// Spends what an actor with no command under way was doing.
fn let_go(activity: Activity)
    requires { is_under_way activity ≡ false }
{
    match activity {
        Activity::Rests | Activity::Begun(_) => {}
        Activity::Does(stage) => automaton::let_go(stage),
    }
}

/// What a turn shows, and what the actor is doing after it. A schedule does not wait: a command that would wait ends
/// here, and is answered `busy`.
pub fn settle(transition: Transition) -> (Outcome, Activity)
    ensures shows { result.0 ≡ outcome_of transition }
    ensures leaves { result.1 ≡ left_of transition }
    ensures own { (worker blocks : ℕ) → OwnTransition worker blocks transition → OwnActivity worker blocks result.1 }
{
    match transition {
        Transition::Goes(stage) => (Outcome::Goes, Activity::Does(stage)),
        Transition::Kills(kill, resume) => {
            (
                Outcome::Kills(kill),
                Activity::Does(automaton::resumes_at(resume)),
            )
        }
        Transition::Waits(_) => (Outcome::Ends(Answer::Word(Word::Busy)), Activity::Rests),
        Transition::Ends(answer) => (Outcome::Ends(answer), Activity::Rests),
    }
}

/// Whether the outcome ends a command.
pub fn ends(outcome: &Outcome) -> bool
    ensures { result ≡ is_end outcome.now }
{
    match outcome {
        Outcome::Goes | Outcome::Kills(_) => false,
        Outcome::Ends(_) => true,
    }
}

/// Reports what a turn shows.
pub fn say<S: Sink>(sink: &mut S, at: usize, actor: Actor, outcome: Outcome) -> Result<(), Closed>
    ensures said { OnOk result (S.took sink.old sink.new (said_at actor outcome)) }
    ensures failed { OnErr result (S.failed sink.old sink.new (said_at actor outcome)) }
    ensures unseen { S.saw sink.old sink.new [] }
{
    match outcome {
        Outcome::Goes => Ok(()),
        Outcome::Kills(kill) => answer(sink, at, actor, kill.answer()),
        Outcome::Ends(said) => answer(sink, at, actor, said),
    }
}

/// Reports an answer.
pub fn answer<S: Sink>(sink: &mut S, at: usize, actor: Actor, answer: Answer) -> Result<(), Closed>
    ensures said { OnOk result (S.took sink.old sink.new (answer_by actor answer)) }
    ensures failed { OnErr result (S.failed sink.old sink.new (answer_by actor answer)) }
    ensures unseen { S.saw sink.old sink.new [] }
{
    sink.take(at, Reply { actor, answer })
}

/// A word as an outcome.
pub fn word(word: Word) -> Outcome
    ensures { result ≡ Outcome.Ends (Answer.Word word) }
{
    Outcome::Ends(Answer::Word(word))
}
