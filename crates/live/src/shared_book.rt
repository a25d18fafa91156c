//! What is kept under the lock.

ghost use Rattle.std.specs.Prelude.{◌≡◌, ◌⊎◌, ℕ, ◌+◌, ◌<◌, ◌≤◌, [], false, length, map, reverse, vec_capacity, IfOk, IfErr, OnOk, OnErr, All};
ghost use Rattle.std.specs.List.{sum_by};
ghost use Rattle.machine.specs.Call.{first_past};
ghost use Rattle.machine.specs.History.{Honest, Right, Numbered, at_first};
ghost use Rattle.machine.specs.Transfers.{transfers_begun, transfers_ended};
ghost use Rattle.book_events.specs.Events.{event_of, reply_of};
ghost use Rattle.book_events.specs.Replies.{Replies};
ghost use Rattle.turns.specs.Tickets.{blocks_in, is_ending, OwnEvent, OwnReply, IsHanded, holds};
ghost use Rattle.live.specs.Exchanges.{entries_in};
ghost use Rattle.live.specs.Passes.{book_pass, answering};
ghost use Rattle.live.specs.Matching.{Matches};
ghost use Rattle.live.specs.Shares.{Carries};
ghost use Rattle.live.specs.Runs.{Looked};
ghost use Rattle.live.specs.Reports.{IsLegal};
ghost use Rattle.live.specs.Rules.{IsAll};
ghost use Rattle.live.specs.OneRun.{IsOneRun, WereGiven};
ghost use Rattle.live.specs.Looks.{EndsLooked};
ghost use Rattle.live.specs.Shared.{rows_of};
ghost use Rattle.live.specs.Hands.{HasEvent};

use crate::history::{Ending, Log};
use crate::looks::{EndLook, look_all};
use crate::opened::Opened;
use crate::pass::Pass;
use crate::report::EndedPass;
use crate::roll::Roll;
use book::{Book, Event, Reply};
use machine::command::{Actor, Command};
use machine::refusal::Refusal;
use std::alloc::{AllocError, Global};
use std::marker::{Brand, Model, PhantomData};
use trace::Trace;
use turns::turn::Stage;

/// The book that workers share, with the history of their exchanges, and what waiting workers need to know of it.
///
/// A contract sees it as the book's past.
pub struct SharedBook<L: Opened> {
    book: Book,
    log: Log,
    /// Room for the passes at the end.
    ended_passes: Vec<EndedPass>,
    /// How many transfers have ended.
    ended: u64,
    /// How many workers wait for the end of a transfer.
    waiting: usize,
    is_stopped: bool,
    /// Whether free frames were at or above the low watermark since the daemon last began.
    is_armed: bool,
    of: PhantomData<L>,
}

impl<L: Opened> Model for SharedBook<L> {
    ghost use Rattle.std.specs.Prelude.{◌≡◌, ◌≤◌, [], vec_capacity};
    ghost use Rattle.machine.specs.Call.{Past};
    ghost use Rattle.live.specs.Shared.{IsShared};

    ghost Value = { Past };

    ghost view = { λ s. s.book };

    ghost invariant = { λ s. IsShared L.table L.opening s.book s.log × (s.ended_passes.items ≡ []) × (s.book.passes ≤ vec_capacity s.ended_passes) };
}

/// The most passes that a book gives out.
const MOST_PASSES: u32 = 131_072;

/// Whether the event ends a transfer, for which others may wait.
fn is_end(event: &Event) -> bool
    ensures { result ≡ is_ending event.now }
{
    matches!(
        event,
        Event::Arrived(_) | Event::FetchFailed(_) | Event::Left(_) | Event::LeaveFailed(_)
    )
}

/// Whether the event may evict a page.
fn takes(event: &Event) -> bool {
    matches!(event, Event::Relieve(_) | Event::ReclaimOne(_))
}

fn is_strange(reply: &Reply) -> bool {
    matches!(reply, Reply::StrangeIn(_) | Reply::StrangeOut(_))
}

impl<L: Opened> SharedBook<L> {
    pub fn new(alloc: Global, book: Book, log: Log) -> SharedBook<L>
        requires fresh { book ≡ first_past L.opening }
        requires log { (log.table ≡ L.table) × (log.given ≡ 0) × (log.log ≡ []) }
    {
        SharedBook {
            book,
            log,
            ended_passes: Vec::new(alloc),
            ended: 0,
            waiting: 0,
            is_stopped: false,
            is_armed: true,
            of: PhantomData,
        }
    }

    /// A pass for another worker, which the roll counts.
    pub fn pass(&mut self, roll: &mut Roll<L>) -> Result<Pass<L>, Refusal>
        ensures kept { IfOk result (λ pass. pass.kept ≡ []) }
        ensures exchanges { IfOk result (λ pass. pass.exchanges ≡ []) }
        ensures worker { IfOk result (λ pass. pass.caller.worker ≡ roll.old.given) }
        ensures counted { OnOk result (roll.new ≡ record { given = roll.old.given + 1 }) }
        ensures unchanged { OnErr result (roll.new ≡ roll.old) }
        ensures err { IfErr result (λ cause. (cause ≡ Refusal.NoSpace) × (131072 ≤ roll.old.given) ⊎ (cause ≡ Refusal.NoMemory) × (roll.old.given < 131072)) }
    {
        roll.agree(&mut self.log);
        let given = self.book.passes();
        if self.ended_passes.reserve(given as usize + 1).is_err() {
            return Err(if given < MOST_PASSES {
                Refusal::NoMemory
            } else {
                Refusal::NoSpace
            });
        }
        let pass = self.book.pass()?;
        let front = roll.give_out(&mut self.log, self.book.passes());
        Ok(Pass::new(pass, front))
    }

    /// Asks the book for one event. If the event may evict a page, all marks that were set are merged first.
    pub fn call(&mut self, pass: &mut Pass<L>, event: Event) -> Reply
        requires room { 0 < pass.old.room }
        requires own { OwnEvent pass.old.caller.worker (blocks_in L.opening) event }
        requires hand { HasEvent pass.old.exchanges event }
        ensures answered { pass.new ≡ answering pass.old (event_of event) (reply_of result) }
        ensures replies { Replies event result }
        ensures own { OwnReply pass.old.caller.worker (blocks_in L.opening) result }
        ensures handed { IsHanded result }
    {
        let ends = is_end(&event);
        if takes(&event) {
            pass.gather(&mut self.book);
        }
        let reply = self.ask(pass, event);
        if ends && !is_strange(&reply) {
            self.ended = self.ended.wrapping_add(1);
        }
        if !self.is_low() {
            self.is_armed = true;
        }
        pass.see(self.ended);
        reply
    }

    /// The same, without a note for those who wait.
    fn ask(&mut self, pass: &mut Pass<L>, event: Event) -> Reply
        requires room { 0 < pass.old.room }
        requires own { OwnEvent pass.old.caller.worker (blocks_in L.opening) event }
        requires hand { HasEvent pass.old.exchanges event }
        ensures answered { pass.new ≡ answering pass.old (event_of event) (reply_of result) }
        ensures replies { Replies event result }
        ensures own { OwnReply pass.old.caller.worker (blocks_in L.opening) result }
        ensures handed { IsHanded result }
    {
        self.book.history_is_right();
        let reply = pass.ask::<Brand>(&mut self.book, &mut self.log, event);
        self.book.history_is_right();
        reply
    }

    /// The result of a command's first turn.
    pub fn judge(
        &mut self,
        alloc: Global,
        pass: &mut Pass<L>,
        actor: Actor,
        command: &Command,
    ) -> Result<Result<Stage, Refusal>, AllocError>
        requires { 2 ≤ pass.old.room }
        ensures looked { IfOk result (λ judged. Looked L.opening actor command.now pass.old.exchanges pass.new.exchanges judged) }
        ensures share { OnOk result (Carries pass.old.kept 0 pass.new.kept 0) }
        ensures caller { pass.new.caller ≡ pass.old.caller }
        ensures free { IfOk result (λ judged. IfOk judged (λ stage. holds stage ≡ false)) }
        ensures err { OnErr result (pass.new ≡ pass.old) }
    {
        pass.judge(alloc, &self.book, &mut self.log, actor, command)
    }

    pub fn free_frames(&self) -> u32 {
        self.book.free_frames()
    }

    fn is_low(&self) -> bool {
        self.book.free_frames() < self.book.watermarks().low
    }

    /// Whether the daemon has to run. It runs if it has to end. It also runs if free frames fell below the low
    /// watermark since it last began, and are still below it.
    pub fn wants_daemon(&self) -> bool {
        self.is_stopped || (self.is_armed && self.is_low())
    }

    /// Notes that the daemon runs. Returns whether it has to end after this run.
    pub fn begin_daemon(&mut self) -> bool {
        if self.is_low() {
            self.is_armed = false;
        }
        self.is_stopped
    }

    pub fn stop(&mut self) {
        self.is_stopped = true;
    }

    pub fn ended(&self) -> u64 {
        self.ended
    }

    /// Notes that a worker begins to wait for the end of a transfer.
    pub fn begin_wait(&mut self) {
        self.waiting = self.waiting.saturating_add(1);
    }

    /// Notes that a worker has waited.
    pub fn end_wait(&mut self) {
        self.waiting = self.waiting.saturating_sub(1);
    }

    /// Whether a worker waits for the end of a transfer.
    pub fn is_awaited(&self) -> bool {
        self.waiting > 0
    }

    /// Ends the book, and returns its trace.
    pub fn close(self) -> Trace {
        let SharedBook {
            book,
            log: _,
            ended_passes: _,
            ended: _,
            waiting: _,
            is_stopped: _,
            is_armed: _,
            of: _,
        } = self;
        book.close()
    }

    /// Ends the book with all its passes, after a look at the groups of these paths, for which there is room. Returns
    /// its trace, the passes, and what was seen.
    pub fn settle(
        self,
        passes: Vec<Pass<L>>,
        roll: Roll<L>,
        paths: &[&str],
        room: Vec<Option<EndLook>>,
    ) -> (Trace, Vec<EndedPass>, Vec<Option<EndLook>>)
        requires all { roll.given ≤ length passes.items }
        requires none { room.items ≡ [] }
        requires room { length paths.now ≤ vec_capacity room }
        ensures count { length passes.items ≡ roll.given }
        ensures one_run { IsOneRun L.opening result.0.entries passes.items }
        ensures looked { EndsLooked L.opening result.0.entries passes.items (map (λ p. p.now) paths.now) result.2.items }
        ensures each { All (λ p. WereGiven L.opening (reverse result.0.entries) p.caller.worker p.exchanges) passes.items }
        ensures legal { IsLegal L.opening (reverse result.0.entries) }
        ensures right { (files : ℕ → ℕ → ℕ → ℕ) → Honest (at_first files) (reverse result.0.entries) → Right (at_first files) (reverse result.0.entries) }
        ensures numbered { Numbered (reverse result.0.entries) }
        ensures transfers { transfers_ended (reverse result.0.entries) ≤ transfers_begun (reverse result.0.entries) }
        ensures entries { length result.0.entries ≡ sum_by (λ p. entries_in p.exchanges) passes.items }
        ensures matches { Matches result.0.entries passes.items }
        ensures passes { result.1.items ≡ map book_pass passes.items }
    {
        let SharedBook {
            book,
            log,
            ended_passes,
            ended: _,
            waiting: _,
            is_stopped: _,
            is_armed: _,
            of: _,
        } = self;
        let count = roll.given();
        let ending = log.end(roll.into_front(), count);
        let ended = bring_together(ending, passes, ended_passes);
        let looks = look_all(&book, paths, room);
        book.history_is_right();
        (book.close(), ended, looks)
    }
}

/// Brings all seats together: they have all that the history has. Returns the passes, in the room for them.
fn bring_together<L: Opened>(
    ending: Ending,
    passes: Vec<Pass<L>>,
    ended: Vec<EndedPass>,
) -> Vec<EndedPass>
    requires of_these { ending.table ≡ L.table }
    requires roll { ending.view.rolls ≡ 1 }
    requires empty { ending.view.rows ≡ [] }
    requires none { ended.items ≡ [] }
    requires room { ending.view.given ≤ vec_capacity ended }
    ensures all { IsAll (record ending.view { rows = rows_of passes.items }) }
    ensures passes { result.items ≡ map book_pass passes.items }
{
    let mut ending = ending;
    let mut passes = passes;
    let mut ended = ended;
    while let Some(pass) = passes.pop() {
        let (pass, front) = pass.end();
        ending.take(front);
        ended.push_reserved(pass);
    }
    ending.close();
    ended.as_mut_slice().reverse();
    ended
}
