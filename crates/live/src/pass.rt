//! The workers' passes.

ghost use Rattle.std.specs.Prelude.{◌≡◌, ◌<◌, ◌≤◌, ◌∷◌, [], map, OnOk, OnErr, IfOk, true, false};
ghost use Rattle.machine.specs.Call.{leaves_entry};
ghost use Rattle.book_events.specs.Events.{event_of, reply_of};
ghost use Rattle.book.specs.Passes.{CalledWith};
ghost use Rattle.book_events.specs.Replies.{Replies, KeepsTicket, HandsOut};
ghost use Rattle.turns.specs.Tickets.{holds};
ghost use Rattle.turns.specs.Turns.{paths_of};
ghost use Rattle.live.specs.declared.history.Exchange.TheVariants.{Call};
ghost use Rattle.live.specs.Exchanges.{kept_of};
ghost use Rattle.live.specs.Passes.{pass_of, book_pass, answering};
ghost use Rattle.live.specs.Runs.{Looked};
ghost use Rattle.live.specs.Told.{told, told_to, telling};
ghost use Rattle.live.specs.Rules.{of_worker};
ghost use Rattle.live.specs.Shared.{Gathers, IsShared, found_in};
ghost use Rattle.live.specs.Hands.{HasEvent};
ghost use Rattle.live.specs.Shares.{strange, Carries};

use crate::hand::Hand;
use crate::history::{Asked, Front, Log, Paths};
use crate::opened::Opened;
use crate::report::EndedPass;
use book::{Book, Event, Kept, Reply};
use judging::judge::judge;
use machine::command::{Actor, Command};
use machine::refusal::Refusal;
use std::alloc::{AllocError, Global};
use std::marker::{Model, PhantomData};
use turns::automaton::spend;
use turns::turn::Stage;

/// A worker's permission to ask the book that workers share. It keeps what the worker asked and what the book
/// answered. It also has a seat of the history, which knows the same, with the bytes of arrivals.
///
/// A contract sees it as it sees a [`book::Pass`]. It also sees what was asked, with all bytes.
#[derive(Drop)]
pub struct Pass<L: Opened> {
    pass: book::Pass,
    front: Front,
    /// How many transfers had ended when it last asked.
    seen: u64,
    /// A seat of the marks of frames, while it works.
    hand: Option<Hand>,
    of: PhantomData<L>,
}

impl<L: Opened> Model for Pass<L> {
    ghost use Rattle.std.specs.Prelude.{◌≡◌, [], map};
    ghost use Rattle.live.specs.Exchanges.{kept_of};
    ghost use Rattle.live.specs.Passes.{PassOf, pass_of};
    ghost use Rattle.live.specs.Rules.{of_worker, exchanges_in};
    ghost use Rattle.live.specs.Shares.{strange};

    ghost Value = { PassOf };

    ghost view = { λ p. pass_of p.pass (exchanges_in p.front.me.0.rows) };

    ghost invariant = { λ p. (p.front.table_id ≡ L.table) × (p.front.me ≡ (of_worker p.pass.caller.worker (exchanges_in p.front.me.0.rows), [])) × (map kept_of (exchanges_in p.front.me.0.rows) ≡ p.pass.kept) × (strange p.pass.kept ≡ 0) };
}

impl<L: Opened> Pass<L> {
    pub(crate) fn new(pass: book::Pass, front: Front) -> Pass<L>
        requires fresh { pass.kept ≡ [] }
        requires of_these { front.table_id ≡ L.table }
        requires front { front.me ≡ (of_worker pass.caller.worker [], []) }
        ensures { result ≡ pass_of pass [] }
    {
        Pass {
            pass,
            front,
            seen: 0,
            hand: None,
            of: PhantomData,
        }
    }

    /// The worker's number: passes are numbered from 0, in the order in which they were given out.
    pub fn worker(&self) -> u32
        ensures { result ≡ self.now.caller.worker }
    {
        self.pass.worker().0
    }

    /// What was asked with it and the answers, the oldest first. An arrival is kept without its bytes. A ticket in
    /// hand is its worker's own, so no end of a transfer was answered `Stranger`.
    pub fn kept(&self) -> &[Kept]
        ensures kept { result.now ≡ self.now.kept }
        ensures whole { map kept_of self.now.exchanges ≡ self.now.kept }
        ensures known { strange self.now.kept ≡ 0 }
    {
        self.pass.kept()
    }

    pub(crate) fn seen(&self) -> u64 {
        self.seen
    }

    pub(crate) fn see(&mut self, ended: u64)
        ensures { self.new ≡ self.old }
    {
        self.seen = ended;
    }

    /// Gives the pass this seat of the marks, or none.
    pub(crate) fn sit(&mut self, hand: Option<Hand>)
        ensures same { self.new ≡ self.old }
        ensures known { strange self.new.kept ≡ 0 }
    {
        self.hand = hand;
    }

    /// Marks the page that was hit, if one was (kernel: the processor sets the accessed bit).
    pub(crate) fn mark(&mut self, reply: &Reply)
        ensures { self.new ≡ self.old }
    {
        if let (
            Some(hand),
            Reply::Done {
                byte: _,
                hit: Some(frame),
            },
        ) = (&mut self.hand, reply)
        {
            hand.set(frame.0);
        }
    }

    /// Merges all marks that were set into the book (kernel: a walk of `walk_mm`). It takes no memory, and does not
    /// wait.
    pub(crate) fn gather(&mut self, book: &mut Book)
        requires room { 0 < self.old.room }
        ensures pass { self.new ≡ self.old }
        ensures book { Gathers book.old book.new }
    {
        for word in 0..self.words() {
            self.gather_word(book, word);
        }
    }

    fn words(&self) -> u32 {
        match &self.hand {
            Some(hand) => hand.words(),
            None => 0,
        }
    }

    /// The same for one word.
    fn gather_word(&mut self, book: &mut Book, word: u32)
        requires room { 0 < self.old.room }
        ensures pass { self.new ≡ self.old }
        ensures book { Gathers book.old book.new }
    {
        let bits = self.take(word);
        if bits != 0 {
            spend(book.call(&mut self.pass, Event::MergeMarks { word, bits }));
        }
    }

    /// Takes the marks of a word, if the pass has a seat.
    fn take(&mut self, word: u32) -> u64
        ensures { self.new ≡ self.old }
    {
        match &mut self.hand {
            Some(hand) => hand.harvest(word),
            None => 0,
        }
    }

    /// Reserves memory for this number of further events or paths.
    pub(crate) fn reserve(&mut self, more: usize) -> Result<(), AllocError>
        ensures room { OnOk result (more ≤ self.new.room) }
        ensures exchanges { self.new.exchanges ≡ self.old.exchanges }
        ensures kept { self.new.kept ≡ self.old.kept }
        ensures caller { self.new.caller ≡ self.old.caller }
    {
        match self.pass.reserve(more) {
            Ok(()) => Ok(()),
            Err(_) => Err(AllocError),
        }
    }

    /// Asks the book for one event. The history gets the event with all bytes, and its answer.
    pub(crate) fn ask<A: Asked>(&mut self, book: &mut Book, log: &mut Log, event: Event) -> Reply
        requires asked { A.events ≡ event_of event ∷ [] }
        requires room { 0 < self.old.room }
        requires leaves { leaves_entry (event_of event) ≡ true }
        requires of_these { log.old.table ≡ L.table }
        requires shared { IsShared L.table L.opening book.old log.old }
        requires hand { HasEvent self.old.exchanges event }
        ensures called { CalledWith book.old (book_pass self.old) (event_of event) (reply_of result) book.new }
        ensures log { log.new ≡ record log.old { log = told self.old.caller.worker (Call (event_of event) (reply_of result)) ∷ log.old.log } }
        ensures whole { map kept_of self.old.exchanges ≡ self.old.kept }
        ensures known { self.old.exchanges ≡ told_to self.old.caller.worker log.old.log }
        ensures given { self.old.caller.worker < log.old.given }
        ensures answered { self.new ≡ answering self.old (event_of event) (reply_of result) }
        ensures replies { Replies event result }
        ensures gives { HandsOut book.new self.old.caller.worker result }
        ensures keeps { KeepsTicket self.old.caller.worker event result }
        ensures passes { book.new.passes ≡ book.old.passes }
    {
        let reply = book.call(&mut self.pass, event);
        log.note::<A>(&mut self.front, &self.pass);
        reply
    }

    /// The result of a command's first turn. The history gets the paths that were looked up.
    pub(crate) fn judge(
        &mut self,
        alloc: Global,
        book: &Book,
        log: &mut Log,
        actor: Actor,
        command: &Command,
    ) -> Result<Result<Stage, Refusal>, AllocError>
        requires room { 2 ≤ self.old.room }
        requires of_these { log.old.table ≡ L.table }
        ensures looked { IfOk result (λ judged. Looked book.now.state.opening actor command.now self.old.exchanges self.new.exchanges judged) }
        ensures share { OnOk result (Carries self.old.kept 0 self.new.kept 0) }
        ensures log { OnOk result (log.new ≡ record log.old { log = telling self.old.caller.worker (found_in book.now.state.tree (paths_of actor command.now)) log.old.log }) }
        ensures caller { self.new.caller ≡ self.old.caller }
        ensures free { IfOk result (λ judged. IfOk judged (λ stage. holds stage ≡ false)) }
        ensures err { OnErr result (self.new ≡ self.old) }
        ensures unchanged { OnErr result (log.new ≡ log.old) }
    {
        let judged = judge(alloc, book, &mut self.pass, actor, command)?;
        log.note::<Paths>(&mut self.front, &self.pass);
        Ok(judged)
    }

    /// The pass as it is after the end, and its seat of the history.
    pub(crate) fn end(self) -> (EndedPass, Front)
        ensures pass { result.0 ≡ book_pass self }
        ensures of_these { result.1.table_id ≡ L.table }
        ensures front { result.1.me ≡ (of_worker self.caller.worker self.exchanges, []) }
    {
        let Pass {
            pass,
            front,
            seen: _,
            hand: _,
            of: _,
        } = self;
        (EndedPass::new(pass), front)
    }
}
