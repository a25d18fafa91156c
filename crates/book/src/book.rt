//! The book: one event in each call, and the history of events and replies.

ghost use Rattle.std.specs.Prelude.{◌≡◌, ◌⊎◌, ℕ, ◌+◌, ◌<◌, ◌≤◌, ◌++◌, ◌∷◌, List, [], None, true, false, length, reverse, nat_lt, slice_index, slice_set, option_map, IfSome, IfOk, IfErr, OnOk, OnErr};
ghost use Rattle.machine.specs.Tree.{find_group};
ghost use Rattle.machine.specs.Pages.{used_frames, is_frame_taken, in_transfer};
ghost use Rattle.machine.specs.State.{State as Tables, opening_of, is_config};
ghost use Rattle.machine.specs.Legal.{Legal};
ghost use Rattle.machine.specs.Lists.{ListsHeld, AreGenerations};
ghost use Rattle.machine.specs.Slots.{at};
ghost use Rattle.machine.specs.History.{Right, IsRight, Honest, Numbered, at_first, ticket_given};
ghost use Rattle.machine.specs.declared.event.Event.TheVariants as plain;
ghost use Rattle.machine.specs.declared.reply.Reply.TheVariants as said;
ghost use Rattle.machine.specs.FirstBytes.{first_of};
ghost use Rattle.machine.specs.Audit.{Passes};
ghost use Rattle.machine.specs.Transfers.{transfers_begun, transfers_ended};
ghost use Rattle.machine.specs.Call.{first_past, took, grows, Caller, Called};
ghost use Rattle.book_events.specs.Events.{event_of, reply_of, ended, ended_with};
ghost use Rattle.book.specs.Decisions.{makes};
ghost use Rattle.book.specs.Passes.{asked_of, call_of, find_of, keeping, keeping_call, is_current, CalledWith};
ghost use Rattle.book_events.specs.Replies.{Replies, IsInReply, IsOutReply, IsBack, HandsBack, KeepsTicket, HandsOut};
ghost use Rattle.book.specs.MakesStep.{IsAsked, RepliesTo, stamped_reply, noted, noted_at};

use crate::apply::apply;
use crate::decide::decide;
use crate::decision::Decision;
use crate::kept::{Asked, Kept};
use crate::pass::Pass;
use book_events::{Event, Reply};
use files::blocks_for;
use machine::bytes::PageBytes;
use machine::config::{Config, FileList, Placement, Watermarks};
use machine::entry::Entry;
use machine::event::Event as PlainEvent;
use machine::id::{GroupId, TaskId, TicketId, WorkerId};
use machine::limit::MOST_PASSES;
use machine::page_size::PageSize;
use machine::record::{Direction, Life};
use machine::refusal::Refusal;
use machine::reply::Reply as PlainReply;
use machine::text::Text;
use page_state::State;
use pages::{Carries, End, InTicket, OutTicket, Ticket};
use std::alloc::{AllocError, Global};
use std::marker::Model;
use trace::Trace;

/// The groups, pages and tasks of one machine, with the history of events and replies.
///
/// A contract sees the book's past: the machine's state, the history with the newest entry first, the order of
/// eviction, and how many passes were handed out. The history is always legal: it leads from the opening to that
/// state by steps of the plain machine. The history is right if each page that arrived brought what was last written,
/// whatever the files contained at first. Then each read in it returned the last write.
///
/// [`Book::close`] must spend a book.
pub struct Book {
    alloc: Global,
    pub(crate) state: State,
    trace: Trace,
    /// How many entries each worker has.
    counts: Vec<u64>,
    /// By page number: the worker who has the ticket of the page's transfer, while the page is in transfer.
    takers: Vec<WorkerId>,
}

impl Model for Book {
    ghost use Rattle.machine.specs.Call.{Past};

    ghost Value = { Past };

    ghost use Rattle.book.specs.Books.{past_of, IsBook};

    ghost view = { past_of };

    ghost invariant = { IsBook };
}

impl Book {
    /// A book with only the root group, and with all frames and all swap blocks free. All room of its trace is
    /// allocated here.
    ///
    /// `Invalid` if the configuration is out of its limits, and otherwise `NoMemory` if memory runs out.
    pub fn open(alloc: Global, config: Config) -> Result<Book, Refusal>
        ensures opens { IfOk result (λ b. b ≡ first_past (opening_of config)) }
        ensures sized { IfOk result (λ b. is_config config ≡ true) }
        ensures err { IfErr result (λ cause. (cause ≡ Refusal.Invalid) × (is_config config ≡ false) ⊎ (cause ≡ Refusal.NoMemory) × (is_config config ≡ true)) }
    {
        if blocks_for(&config).is_none() {
            return Err(Refusal::Invalid);
        }
        match Book::make(alloc, config) {
            Ok(book) => Ok(book),
            Err(AllocError) => Err(Refusal::NoMemory),
        }
    }

    fn make(alloc: Global, config: Config) -> Result<Book, AllocError>
        requires { is_config config ≡ true }
        ensures { IfOk result (λ b. b ≡ first_past (opening_of config)) }
    {
        let sizes = sizes_of(alloc, &config.files)?;
        let trace = Trace::open(alloc, config.trace as usize, &sizes)?;
        let takers = nobody(alloc, config.frames as usize + config.swap as usize)?;
        let state = State::open(alloc, config)?;
        Ok(Book {
            alloc,
            state,
            trace,
            counts: Vec::new(alloc),
            takers,
        })
    }

    /// A pass for another worker. `NoSpace` if 131,072 were handed out, and otherwise `NoMemory` if memory runs out.
    /// Nothing changes then.
    pub fn pass(&mut self) -> Result<Pass, Refusal>
        ensures pass { IfOk result (λ pass. pass.caller.worker ≡ self.old.passes) }
        ensures kept { IfOk result (λ pass. pass.kept ≡ []) }
        ensures current { IfOk result (λ pass. is_current self.new pass ≡ true) }
        ensures ok { IfOk result (λ pass. self.new ≡ record self.old { passes = self.old.passes + 1 }) }
        ensures few { OnOk result (self.new.passes ≤ 131072) }
        ensures err { IfErr result (λ cause. (cause ≡ Refusal.NoSpace) × (131072 ≤ self.old.passes) ⊎ (cause ≡ Refusal.NoMemory) × (self.old.passes < 131072)) }
        ensures unchanged { OnErr result (self.new ≡ self.old) }
    {
        if self.counts.len() >= MOST_PASSES {
            return Err(Refusal::NoSpace);
        }
        let worker = self.counts.len() as u32;
        if self.counts.reserve(1).is_err() {
            return Err(Refusal::NoMemory);
        }
        self.counts.push_reserved(0);
        Ok(Pass::new(self.alloc, WorkerId(worker)))
    }

    /// Handles one event, requested with a pass. The pass keeps the event with its answer.
    ///
    /// Either the event is refused, for the first cause that applies, and only what the pass keeps changes. Or it is
    /// one step of the machine and adds exactly one entry, the worker's next. A refused ticket is handed back.
    ///
    /// [`Event::MergeMarks`] is a hint: it is never refused, leaves no entry, and the pass does not keep it. It
    /// changes only which pages are marked.
    ///
    /// For all other events, a pass that is not current is refused as `Stranger`. Such a pass came from another book,
    /// or its number of answers differs from its worker's number of entries. The pass must have room, which
    /// [`Pass::reserve`] makes.
    pub fn call(&mut self, pass: &mut Pass, event: Event) -> Reply
        requires { 0 < pass.old.room }
        ensures called { CalledWith self.old pass.old (event_of event) (reply_of result) self.new }
        ensures reads { (files : ℕ → ℕ → ℕ → ℕ) → Honest (at_first files) self.old.history → IsRight (at_first files) self.old.history (event_of event) (reply_of result) }
        ensures replies { Replies event result }
        ensures gives { HandsOut self.new pass.old.caller.worker result }
        ensures keeps { KeepsTicket pass.old.caller.worker event result }
        ensures kept { pass.new ≡ keeping_call pass.old (event_of event) (reply_of result) }
        ensures current { is_current self.new pass.new ≡ is_current self.old pass.old }
        ensures passes { self.new.passes ≡ self.old.passes }
    {
        match event {
            Event::Access { task, place, op } => {
                self.serve(pass, PlainEvent::Access { task, place, op })
            }
            Event::Arrived(ticket) => self.end_in(pass, ticket, End::InFrame),
            Event::FetchFailed(ticket) => self.end_in(pass, ticket, End::OnBlock),
            Event::Left(ticket) => self.end_out(pass, ticket, End::OnBlock),
            Event::LeaveFailed(ticket) => self.end_out(pass, ticket, End::InFrame),
            Event::Relieve(cause) => self.serve(pass, PlainEvent::Relieve(cause)),
            Event::ReclaimOne(group) => self.serve(pass, PlainEvent::ReclaimOne(group)),
            Event::Spawn { task, group } => self.serve(pass, PlainEvent::Spawn { task, group }),
            Event::Fork { task, child } => self.serve(pass, PlainEvent::Fork { task, child }),
            Event::Exit(task) => self.serve(pass, PlainEvent::Exit(task)),
            Event::Free { task, page } => self.serve(pass, PlainEvent::Free { task, page }),
            Event::Attach { task, group } => {
                self.serve(pass, PlainEvent::Attach { task, group })
            }
            Event::Mkdir(path) => self.serve(pass, PlainEvent::Mkdir(path)),
            Event::Rmdir(group) => self.serve(pass, PlainEvent::Rmdir(group)),
            Event::Set { group, setting } => {
                self.serve(pass, PlainEvent::Set { group, setting })
            }
            Event::Show(query) => self.serve(pass, PlainEvent::Show(query)),
            Event::MergeMarks { word, bits } => self.merge_marks(word, bits),
        }
    }

    /// Marks the pages that are held in the frames of these bits as used.
    fn merge_marks(&mut self, word: u32, bits: u64) -> Reply
        ensures ok { result ≡ Reply.Ok }
        ensures called { (caller : Caller) → Called self.old caller (plain.MergeMarks word bits) said.Ok self.new }
        ensures past { self.new ≡ record self.old { order = self.new.order } }
    {
        self.state.merge_marks(word, bits);
        Reply::Ok
    }

    /// Whether this book handed out the pass, and its worker has the same number of entries as the pass has answers
    /// in the trace.
    fn is_current(&self, pass: &Pass) -> bool
        ensures { result ≡ is_current self.now pass.now }
    {
        let worker = pass.worker().0 as usize;
        worker < self.counts.len() && self.counts[worker] == pass.count() as u64
    }

    /// Handles an event without a ticket, requested with a pass. The pass keeps a copy, since the trace keeps the
    /// event. If there is no memory for the copy, the book does not try the event itself.
    fn serve(&mut self, pass: &mut Pass, event: PlainEvent) -> Reply
        requires room { 0 < pass.old.room }
        requires asked { IsAsked event }
        ensures called { CalledWith self.old pass.old event (reply_of result) self.new }
        ensures reads { (files : ℕ → ℕ → ℕ → ℕ) → Honest (at_first files) self.old.history → IsRight (at_first files) self.old.history event (reply_of result) }
        ensures replies { RepliesTo event result }
        ensures gives { HandsOut self.new pass.old.caller.worker result }
        ensures kept { pass.new ≡ keeping pass.old (call_of event (reply_of result)) }
        ensures current { is_current self.new pass.new ≡ is_current self.old pass.old }
        ensures passes { self.new.passes ≡ self.old.passes }
    {
        if !self.is_current(pass) {
            return refuse(pass, event, Refusal::Stranger);
        }
        match copy(self.alloc, &event) {
            Err(AllocError) => {
                let cause = self.cause(&event);
                refuse(pass, event, cause)
            }
            Ok(asked) => {
                let reply = self.ask(pass.worker(), event);
                pass.keep(Kept::Call {
                    asked: Asked::Whole(asked),
                    said: plain(&reply),
                });
                reply
            }
        }
    }

    /// Why an event that may need memory is refused when memory has run out.
    fn cause(&self, event: &PlainEvent) -> Refusal
        requires asked { IsAsked event.now }
        requires grows { grows self.now.state event.now ≡ true }
        ensures { (caller : Caller) → Called self.now caller event.now (said.Refused result) self.now }
    {
        match decide(&self.state, event) {
            Err(cause) => cause,
            Ok(decided) if self.is_full(decided.entries()) => Refusal::TraceFull,
            Ok(_) => Refusal::NoMemory,
        }
    }

    /// Handles the end of a read-in, requested with a pass.
    fn end_in(&mut self, pass: &mut Pass, ticket: InTicket, end: End) -> Reply
        requires { 0 < pass.old.room }
        ensures called { CalledWith self.old pass.old (ended Direction.In end ticket) (reply_of result) self.new }
        ensures replies { IsInReply result }
        ensures keeps { HandsBack pass.old.caller.worker ticket result }
        ensures kept { pass.new ≡ keeping pass.old (call_of (ended Direction.In end ticket) (reply_of result)) }
        ensures current { is_current self.new pass.new ≡ is_current self.old pass.old }
        ensures passes { self.new.passes ≡ self.old.passes }
    {
        let asked = in_asked(end, ticket.number());
        let reply = self.take_in(pass, ticket, end);
        pass.keep(Kept::Call {
            asked,
            said: plain(&reply),
        });
        reply
    }

    /// The same, but the pass keeps nothing yet.
    fn take_in(&mut self, pass: &Pass, ticket: InTicket, end: End) -> Reply
        ensures called { CalledWith self.old pass.now (ended Direction.In end ticket) (reply_of result) self.new }
        ensures replies { IsInReply result }
        ensures keeps { HandsBack pass.now.caller.worker ticket result }
        ensures passes { self.new.passes ≡ self.old.passes }
    {
        if !self.is_current(pass) {
            return Reply::StrangeIn(back(pass.worker(), ticket));
        }
        self.settle_in(pass.worker(), ticket, end)
    }

    /// Handles the end of a write-out, requested with a pass.
    fn end_out(&mut self, pass: &mut Pass, ticket: OutTicket, end: End) -> Reply
        requires { 0 < pass.old.room }
        ensures called { CalledWith self.old pass.old (ended Direction.Out end ticket) (reply_of result) self.new }
        ensures replies { IsOutReply result }
        ensures keeps { HandsBack pass.old.caller.worker ticket result }
        ensures kept { pass.new ≡ keeping pass.old (call_of (ended Direction.Out end ticket) (reply_of result)) }
        ensures current { is_current self.new pass.new ≡ is_current self.old pass.old }
        ensures passes { self.new.passes ≡ self.old.passes }
    {
        let asked = Asked::Whole(out_ended(end, ticket.number()));
        let reply = self.take_out(pass, ticket, end);
        pass.keep(Kept::Call {
            asked,
            said: plain(&reply),
        });
        reply
    }

    /// The same, but the pass keeps nothing yet.
    fn take_out(&mut self, pass: &Pass, ticket: OutTicket, end: End) -> Reply
        ensures called { CalledWith self.old pass.now (ended Direction.Out end ticket) (reply_of result) self.new }
        ensures replies { IsOutReply result }
        ensures keeps { HandsBack pass.now.caller.worker ticket result }
        ensures passes { self.new.passes ≡ self.old.passes }
    {
        if !self.is_current(pass) {
            return Reply::StrangeOut(back(pass.worker(), ticket));
        }
        self.settle_out(pass.worker(), ticket, end)
    }

    /// Handles an event without a ticket. It is refused for the first cause that applies; then if the trace has no
    /// room; then if memory runs out. Otherwise it is carried out, and adds an entry.
    fn ask(&mut self, worker: WorkerId, event: PlainEvent) -> Reply
        requires known { worker.0 < self.old.passes }
        requires asked { IsAsked event }
        ensures called { Called self.old (record { worker = worker.0 }) event (reply_of result) self.new }
        ensures reads { (files : ℕ → ℕ → ℕ → ℕ) → Honest (at_first files) self.old.history → IsRight (at_first files) self.old.history event (reply_of result) }
        ensures replies { RepliesTo event result }
        ensures gives { HandsOut self.new worker.0 result }
        ensures passes { self.new.passes ≡ self.old.passes }
    {
        let decided = match decide(&self.state, &event) {
            Err(cause) => return Reply::Refused(cause),
            Ok(decided) => decided,
        };
        if self.is_full(decided.entries()) {
            return Reply::Refused(Refusal::TraceFull);
        }
        match reserve_links(&mut self.trace, &decided) {
            Err(AllocError) => return Reply::Refused(Refusal::NoMemory),
            Ok(()) => {}
        }
        self.state.is_joined();
        let entry = self.trace.len() as u32 + 1;
        match apply(&mut self.state, self.alloc, decided) {
            Err(AllocError) => Reply::Refused(Refusal::NoMemory),
            Ok(reply) => {
                self.state.is_joined();
                let said = plain(&reply);
                append(
                    &self.state,
                    &mut self.trace,
                    &mut self.counts,
                    worker,
                    event,
                    said,
                );
                hand_out(&self.state, &mut self.takers, worker, entry, reply)
            }
        }
    }

    /// Whether the trace has no room for this many entries, apart from those that are kept for the ends of transfers.
    fn is_full(&self, entries: usize) -> bool
        requires { entries ≤ 2 }
        ensures { result ≡ nat_lt self.now.state.opening.trace_limit (length self.now.history + in_transfer self.now.state.pages + entries) }
    {
        self.state.is_joined();
        self.state.limit() < self.trace.len() + self.state.transfers() as usize + entries
    }

    /// Whether the ticket belongs to a page in transfer in that direction, and this worker received it.
    fn is_own(&self, ticket: TicketId, direction: Direction, worker: WorkerId) -> bool
        ensures { result ≡ took self.now.state.pages self.now.history (record { worker = worker.0 }) direction ticket.0 }
    {
        self.state.is_joined();
        match self.state.pages().flight(ticket) {
            Some(flight) => {
                flight.direction == direction && self.takers[flight.page.0 as usize] == worker
            }
            None => false,
        }
    }

    /// Ends a read-in. As for each end of a transfer, the trace has kept room for it.
    fn settle_in(&mut self, worker: WorkerId, ticket: InTicket, end: End) -> Reply
        requires { worker.0 < self.old.passes }
        ensures called { Called self.old (record { worker = worker.0 }) (ended Direction.In end ticket) (reply_of result) self.new }
        ensures replies { IsInReply result }
        ensures keeps { HandsBack worker.0 ticket result }
        ensures passes { self.new.passes ≡ self.old.passes }
    {
        let number = ticket.number();
        if !self.is_own(number, Direction::In, worker) {
            return Reply::StrangeIn(back(worker, ticket));
        }
        self.state.is_joined();
        let bytes = self.state.settle_in(ticket, end);
        self.state.is_joined();
        let event = in_ended(end, number, bytes);
        append(
            &self.state,
            &mut self.trace,
            &mut self.counts,
            worker,
            event,
            PlainReply::Ok,
        );
        Reply::Ok
    }

    /// Ends a write-out.
    fn settle_out(&mut self, worker: WorkerId, ticket: OutTicket, end: End) -> Reply
        requires { worker.0 < self.old.passes }
        ensures called { Called self.old (record { worker = worker.0 }) (ended Direction.Out end ticket) (reply_of result) self.new }
        ensures replies { IsOutReply result }
        ensures keeps { HandsBack worker.0 ticket result }
        ensures passes { self.new.passes ≡ self.old.passes }
    {
        let number = ticket.number();
        if !self.is_own(number, Direction::Out, worker) {
            return Reply::StrangeOut(back(worker, ticket));
        }
        self.state.is_joined();
        self.state.settle_out(ticket, end);
        self.state.is_joined();
        append(
            &self.state,
            &mut self.trace,
            &mut self.counts,
            worker,
            out_ended(end, number),
            PlainReply::Ok,
        );
        Reply::Ok
    }

    /// The live group of a path. This is not an event, but the pass keeps the path with the result, and must have
    /// room.
    pub fn find(&self, pass: &mut Pass, path: Text) -> Option<GroupId>
        requires { 0 < pass.old.room }
        ensures found { option_map (λ g. g.0) result ≡ find_group self.now.state.tree path }
        ensures kept { pass.new ≡ keeping pass.old (find_of path (find_group self.now.state.tree path)) }
        ensures current { is_current self.now pass.new ≡ is_current self.now pass.old }
    {
        let found = self.state.tree().find(path.as_str());
        pass.keep(Kept::Find { path, found });
        found
    }

    /// How many frames are free. This is not an event.
    pub fn free_frames(&self) -> u32
        ensures { result + used_frames self.now.state.pages ≡ self.now.state.opening.frames }
    {
        self.state.free_frames()
    }

    /// The daemon's watermarks, which the opening determined. Reading them is not an event.
    pub fn watermarks(&self) -> Watermarks
        ensures { result ≡ self.now.state.opening.watermarks }
    {
        self.state.watermarks()
    }

    /// Which generation list a page enters when it is read in. The opening determined this.
    pub fn placement(&self) -> Placement
        ensures { result ≡ self.now.state.opening.placement }
    {
        self.state.placement()
    }

    /// How many bytes a page stands for in amounts and texts. The opening determined this.
    pub fn page_size(&self) -> PageSize
        ensures { result.bytes ≡ self.now.state.opening.page_size }
    {
        self.state.page_size()
    }

    /// How many passes were handed out.
    pub fn passes(&self) -> u32
        ensures { result ≡ self.now.passes }
    {
        self.counts.len() as u32
    }

    /// All events and replies so far.
    pub fn trace(&self) -> &Trace
        ensures { reverse result.now.entries ≡ self.now.history }
    {
        &self.trace
    }

    /// Does nothing. The contract states what holds of every book's history, and of the order in which its pages are
    /// evicted:
    ///
    /// - If each page that was read in brought what was last written, [`trace::audit`] finds nothing wrong.
    /// - The number of pages in transfer is the number of transfers that began, minus those that ended.
    /// - Each held page is on the list of its group and type, once, and no other page is.
    /// - Each group has its lists, two to four generations of each type, and a cursor.
    /// - A frame that a page has is one of the opening's.
    pub fn history_is_right(&self)
        ensures legal { Legal self.now.state.opening self.now.history self.now.state }
        ensures right { (files : ℕ → ℕ → ℕ → ℕ) → Honest (at_first files) self.now.history → Right (at_first files) self.now.history }
        ensures passes { (files : ℕ → ℕ → ℕ → ℕ) → Honest (at_first files) self.now.history → Passes (first_of self.now.history) self.now.history }
        ensures numbered { Numbered self.now.history }
        ensures transfers { in_transfer self.now.state.pages + transfers_ended self.now.history ≡ transfers_begun self.now.history }
        ensures listed { ListsHeld self.now.state.pages self.now.order.held }
        ensures generations { AreGenerations self.now.order.held }
        ensures lists { length self.now.order.held.groups ≡ length self.now.state.tree }
        ensures cursors { length self.now.order.cursors ≡ length self.now.state.tree }
        ensures framed { (f : ℕ) → is_frame_taken self.now.state.pages f ≡ true → f < self.now.state.opening.frames }
    {
        self.state.is_joined();
    }

    /// Spends the book, and returns its trace, for [`trace::audit`]. Workers with a ticket end its transfer before.
    pub fn close(self) -> Trace
        ensures { reverse result.entries ≡ self.history }
    {
        let Book {
            alloc: _,
            state,
            trace,
            counts: _,
            takers: _,
        } = self;
        state.close();
        trace
    }
}

/// Adds the worker's next entry at the end. There is room for it.
fn append(
    state: &State,
    trace: &mut Trace,
    counts: &mut Vec<u64>,
    worker: WorkerId,
    event: PlainEvent,
    reply: PlainReply,
)
    requires room { length trace.old.entries < trace.old.limit }
    requires known { worker.0 < length counts.old.items }
    requires few { slice_index counts.old.items worker.0 ≤ 1048576 }
    ensures entries { trace.new.entries ≡ trace.old.entries ++ record { worker = worker; count = slice_index counts.old.items worker.0 + 1; event = event; reply = reply } ∷ [] }
    ensures limit { trace.new.limit ≡ trace.old.limit }
    ensures counts { counts.new.items ≡ slice_set counts.old.items worker.0 (slice_index counts.old.items worker.0 + 1) }
{
    let count = counts[worker.0 as usize] + 1;
    counts[worker.0 as usize] = count;
    release_killed(state, trace, &reply);
    trace.push(Entry {
        worker,
        count,
        event,
        reply,
    });
}

/// Frees the memory for the links of all tasks that died with their group. The entry names only the victim.
fn release_killed(state: &State, trace: &mut Trace, reply: &PlainReply)
    ensures { trace.new ≡ trace.old }
{
    if let PlainReply::KilledAll { .. } = reply {
        release_ended(state, trace);
    }
}

fn release_ended(state: &State, trace: &mut Trace)
    ensures { trace.new ≡ trace.old }
{
    for number in 0..state.spaces().slots() {
        release_if_ended(state, trace, TaskId(number as u32));
    }
}

fn release_if_ended(state: &State, trace: &mut Trace, task: TaskId)
    ensures { trace.new ≡ trace.old }
{
    match state.spaces().task(task) {
        Some(known) if known.life == Life::Live => {}
        _ => trace.release(task),
    }
}

/// How many pages each file has.
fn sizes_of(alloc: Global, files: &FileList) -> Result<Vec<u32>, AllocError> {
    let mut sizes = Vec::new(alloc);
    for file in files.as_slice() {
        sizes.push(file.pages)?;
    }
    Ok(sizes)
}

/// Reserves the memory for the links of a task's pages, if the decision starts a task.
fn reserve_links(trace: &mut Trace, decided: &Decision<'_>) -> Result<(), AllocError>
    ensures same { trace.new ≡ trace.old }
    ensures makes { OnErr result (makes decided.now ≡ true) }
{
    match decided {
        Decision::Spawn { task, group: _ } => trace.reserve(*task),
        Decision::Fork { task: _, child } => trace.reserve(*child),
        _ => Ok(()),
    }
}

/// This many page numbers. No worker has a ticket.
fn nobody(alloc: Global, numbers: usize) -> Result<Vec<WorkerId>, AllocError>
    ensures { IfOk result (λ takers. length takers.items ≡ numbers) }
{
    let mut takers = Vec::with_capacity(alloc, numbers)?;
    for _page in 0..numbers {
        takers.push_reserved(WorkerId(0));
    }
    Ok(takers)
}

/// Hands out a ticket in the reply to the worker, for the entry at this place of the trace.
fn hand_out(
    state: &State,
    takers: &mut Vec<WorkerId>,
    worker: WorkerId,
    entry: u32,
    reply: Reply,
) -> Reply
    requires known { (n : ℕ) → IfSome (at state.now.flights n) (λ flight. flight.page.0 < length takers.old.items) }
    ensures stamped { result ≡ stamped_reply worker.0 entry reply }
    ensures noted { takers.new.items ≡ noted state.now.flights takers.old.items worker.0 (ticket_given (reply_of reply)) }
{
    match reply {
        Reply::Fetch(ticket) => {
            note_taker(state, takers, ticket.number(), worker);
            Reply::Fetch(ticket.stamp(worker, entry))
        }
        Reply::Out(ticket) => {
            note_taker(state, takers, ticket.number(), worker);
            Reply::Out(ticket.stamp(worker, entry))
        }
        other => other,
    }
}

/// Notes which worker has the ticket of a transfer in flight.
fn note_taker(state: &State, takers: &mut Vec<WorkerId>, ticket: TicketId, worker: WorkerId)
    requires known { (n : ℕ) → IfSome (at state.now.flights n) (λ flight. flight.page.0 < length takers.old.items) }
    ensures { takers.new.items ≡ noted_at takers.old.items (at state.now.flights ticket.0) worker.0 }
{
    match state.pages().flight(ticket) {
        Some(flight) => takers[flight.page.0 as usize] = worker,
        None => {}
    }
}

/// Refuses an event. The pass keeps it.
fn refuse(pass: &mut Pass, event: PlainEvent, cause: Refusal) -> Reply
    requires room { 0 < pass.old.room }
    requires asked { IsAsked event }
    ensures refused { result ≡ Reply.Refused cause }
    ensures kept { pass.new ≡ keeping pass.old (call_of event (said.Refused cause)) }
{
    pass.keep(Kept::Call {
        asked: Asked::Whole(event),
        said: PlainReply::Refused(cause),
    });
    Reply::Refused(cause)
}

/// A copy of the event. It fails only if memory for a path runs out.
fn copy(alloc: Global, event: &PlainEvent) -> Result<PlainEvent, AllocError>
    requires { IsAsked event.now }
    ensures copied { IfOk result (λ copied. copied ≡ event.now) }
    ensures err { OnErr result ((s : Tables) → grows s event.now ≡ true) }
{
    match event {
        PlainEvent::Access { task, place, op } => Ok(PlainEvent::Access {
            task: *task,
            place: *place,
            op: *op,
        }),
        PlainEvent::Relieve(cause) => Ok(PlainEvent::Relieve(*cause)),
        PlainEvent::ReclaimOne(group) => Ok(PlainEvent::ReclaimOne(*group)),
        PlainEvent::Spawn { task, group } => Ok(PlainEvent::Spawn {
            task: *task,
            group: *group,
        }),
        PlainEvent::Fork { task, child } => Ok(PlainEvent::Fork {
            task: *task,
            child: *child,
        }),
        PlainEvent::Exit(task) => Ok(PlainEvent::Exit(*task)),
        PlainEvent::Free { task, page } => Ok(PlainEvent::Free {
            task: *task,
            page: *page,
        }),
        PlainEvent::Attach { task, group } => Ok(PlainEvent::Attach {
            task: *task,
            group: *group,
        }),
        PlainEvent::Mkdir(path) => Ok(PlainEvent::Mkdir(path.copy(alloc)?)),
        PlainEvent::Rmdir(group) => Ok(PlainEvent::Rmdir(*group)),
        PlainEvent::Set { group, setting } => Ok(PlainEvent::Set {
            group: *group,
            setting: *setting,
        }),
        PlainEvent::Show(query) => Ok(PlainEvent::Show(*query)),
        PlainEvent::Arrived {
            ticket: _,
            bytes: _,
        } => unreachable!(),
        PlainEvent::FetchFailed(_)
        | PlainEvent::Left(_)
        | PlainEvent::LeaveFailed(_)
        | PlainEvent::MergeMarks { word: _, bits: _ } => unreachable!(),
    }
}

/// The end of a read-in, as a pass keeps it.
fn in_asked(end: End, ticket: TicketId) -> Asked
    ensures { (bytes : List ℕ) → result ≡ asked_of (ended_with Direction.In end ticket.0 bytes) }
{
    match end {
        End::InFrame => Asked::Arrival(ticket),
        End::OnBlock => Asked::Whole(PlainEvent::FetchFailed(ticket)),
    }
}

/// The reply as the history contains it.
fn plain(reply: &Reply) -> PlainReply
    ensures { result ≡ reply_of reply.now }
{
    match reply {
        Reply::Done { byte, hit } => PlainReply::Done {
            byte: *byte,
            hit: *hit,
        },
        Reply::Fetch(ticket) => PlainReply::Fetch(ticket.number()),
        Reply::Over(group) => PlainReply::Over(*group),
        Reply::NoFrame => PlainReply::NoFrame,
        Reply::Busy => PlainReply::Busy,
        Reply::Killed => PlainReply::Killed,
        Reply::Ok => PlainReply::Ok,
        Reply::Room => PlainReply::Room,
        Reply::Dropped => PlainReply::Dropped,
        Reply::Out(ticket) => PlainReply::Out(ticket.number()),
        Reply::Wait => PlainReply::Wait,
        Reply::Nothing => PlainReply::Nothing,
        Reply::KilledTask(task) => PlainReply::KilledTask(*task),
        Reply::KilledAll {
            victim,
            group,
            tasks,
        } => PlainReply::KilledAll {
            victim: *victim,
            group: *group,
            tasks: *tasks,
        },
        Reply::NoVictim => PlainReply::NoVictim,
        Reply::Shown(numbers) => PlainReply::Shown(*numbers),
        Reply::Refused(why) => PlainReply::Refused(*why),
        Reply::StrangeIn(_) => PlainReply::Refused(Refusal::Stranger),
        Reply::StrangeOut(_) => PlainReply::Refused(Refusal::Stranger),
    }
}

/// The event that ends a read-in.
fn in_ended(end: End, ticket: TicketId, bytes: PageBytes) -> PlainEvent
    ensures { result ≡ ended_with Direction.In end ticket.0 bytes }
{
    match end {
        End::InFrame => PlainEvent::Arrived { ticket, bytes },
        End::OnBlock => PlainEvent::FetchFailed(ticket),
    }
}

/// The event that ends a write-out.
fn out_ended(end: End, ticket: TicketId) -> PlainEvent
    ensures { (bytes : List ℕ) → result ≡ ended_with Direction.Out end ticket.0 bytes }
{
    match end {
        End::InFrame => PlainEvent::LeaveFailed(ticket),
        End::OnBlock => PlainEvent::Left(ticket),
    }
}

/// A ticket that the book does not accept. It is handed back if its own worker made the request.
fn back<B: Carries>(worker: WorkerId, ticket: Ticket<B>) -> Ticket<B>
    ensures { IsBack worker.0 ticket result }
{
    if ticket.worker().0 == worker.0 {
        ticket.hand_back()
    } else {
        ticket
    }
}
