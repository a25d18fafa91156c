//! The loop of a worker: one command after another, one turn after another.

ghost use Rattle.std.specs.Prelude.{◌≡◌, ℕ, ◌+◌, ◌<◌, ◌≤◌, ◌++◌, [], true, false, length, IfOk, IfErr, OnOk, OnErr, IfSome, IfNone, vec_len, vec_capacity};
ghost use Rattle.book_events.specs.Events.{event_of, reply_of};
ghost use Rattle.book_events.specs.Replies.{Replies};
ghost use Rattle.turns.specs.Turns.{AwaitsAll, resumes_at, answer_by};
ghost use Rattle.turns.specs.Tickets.{blocks_in, is_ending, holds, holds_after, IsOwn, OwnEvent, OwnReply, OwnStage, OwnTransition, IsHanded};
ghost use Rattle.live.specs.Passes.{answering};
ghost use Rattle.live.specs.Works.{Reads, Writes, Worked, Repeated, no_memory};
ghost use Rattle.live.specs.Matching.{has_share};
ghost use Rattle.live.specs.Shares.{one_if, strange, Carries, KeepsShare};
ghost use Rattle.live.specs.Hands.{HasEvent, HasStage};
ghost use Rattle.live.specs.Runs.{CallMade, CallWants, Made, Wants, Linked, Closed, Ran, Looked, Judging, Did, Done};

use crate::hand::Hand;
use crate::live::Live;
use crate::opened::Opened;
use crate::pass::Pass;
use block_store::SharedDevice;
use book::{Event, InTicket, OutTicket, Reply};
use judging::judge::judge_task;
use machine::command::{Actor, Answer, Command, Reply as Told, Word};
use machine::refusal::Refusal;
use std::alloc::AllocError;
use std::sync::Wait;
use turns::automaton::{ask, holds, let_go, resumes_at, told};
use turns::turn::{Access, Pending, Resume, Stage, Transition, Want};

fn out_of_memory(actor: Actor) -> Told
    ensures { result ≡ record { actor = actor; answer = no_memory } }
{
    Told {
        actor,
        answer: Answer::Word(Word::Refused(Refusal::NoMemory)),
    }
}

/// Whether the event ends a transfer.
fn is_end(event: &Event) -> bool
    ensures { result ≡ is_ending event.now }
{
    matches!(
        event,
        Event::Arrived(_) | Event::FetchFailed(_) | Event::Left(_) | Event::LeaveFailed(_)
    )
}

impl<L: Opened, D: SharedDevice> Live<L, D> {
    /// Asks the book for one event. If `marks` is set, the page that it hits is marked after the lock is released.
    fn call<R: Wait>(&self, rt: &R, pass: &mut Pass<L>, event: Event, marks: bool) -> Reply
        requires room { 0 < pass.old.room }
        requires own { OwnEvent pass.old.caller.worker (blocks_in L.opening) event }
        requires hand { HasEvent pass.old.exchanges event }
        ensures answered { pass.new ≡ answering pass.old (event_of event) (reply_of result) }
        ensures replies { Replies event result }
        ensures own { OwnReply pass.old.caller.worker (blocks_in L.opening) result }
        ensures handed { IsHanded result }
    {
        let ends = is_end(&event);
        let (reply, is_awaited, wants_daemon) = {
            let mut shared = self.shared.lock(rt);
            let reply = shared.call(pass, event);
            (reply, ends && shared.is_awaited(), shared.wants_daemon())
        };
        if is_awaited {
            self.moved.notify_all();
        }
        if wants_daemon {
            self.low.notify_all();
        }
        if marks {
            pass.mark(&reply);
        }
        reply
    }

    /// Sleeps until a transfer has ended since the pass last asked.
    fn wait<R: Wait>(&self, rt: &R, pass: &Pass<L>) {
        let seen = pass.seen();
        let mut guard = self.shared.lock(rt);
        guard.begin_wait();
        let mut guard = self
            .moved
            .wait_while(rt, guard, |shared| shared.ended() == seen);
        guard.end_wait();
    }

    /// How many frames are free, if the daemon asks. No other command needs the number.
    fn free_for<R: Wait>(&self, rt: &R, stage: &Stage) -> u32 {
        match stage {
            Stage::Watch | Stage::Balance => self.shared.lock(rt).free_frames(),
            _ => 0,
        }
    }

    /// Asks the book for one event, and passes the reply to the command.
    fn ask_book<R: Wait>(
        &self,
        rt: &R,
        pass: &mut Pass<L>,
        pending: Pending,
        event: Event,
    ) -> Result<Transition, AllocError>
        requires room { 0 < pass.old.room }
        requires own { OwnEvent pass.old.caller.worker (blocks_in L.opening) event }
        requires hand { HasEvent pass.old.exchanges event }
        requires awaits { AwaitsAll (Want.Call pending event) }
        ensures made { IfOk result (λ t. CallMade L.opening pending event pass.old.exchanges pass.new.exchanges t) }
        ensures wants { OnErr result (CallWants L.opening pending event pass.old.exchanges pass.new.exchanges) }
        ensures own { IfOk result (λ t. OwnTransition pass.old.caller.worker (blocks_in L.opening) t) }
        ensures caller { pass.new.caller ≡ pass.old.caller }
        ensures room { pass.new.room + 1 ≡ pass.old.room }
        ensures ends { IfOk result (λ t. is_ending event ≡ true → holds_after t ≡ false) }
        ensures share { IfOk result (λ t. Carries pass.old.kept (one_if (is_ending event)) pass.new.kept (one_if (holds_after t))) }
        ensures share_at_err { OnErr result (Carries pass.old.kept (one_if (is_ending event)) pass.new.kept 0) }
    {
        let marks = pending.marks_hit(self.placement);
        let reply = self.call(rt, pass, event, marks);
        told(self.alloc, self.page_size, pending, reply)
    }

    /// Reads the ticket's block. No lock is held.
    fn read_in<R: Wait>(&self, rt: &R, access: Access, ticket: InTicket) -> Transition
        requires { ticket.block < blocks_in L.opening }
        ensures reads { Reads access ticket [] result }
        ensures own { (worker blocks : ℕ) → IsOwn worker blocks ticket → OwnTransition worker blocks result }
        ensures holds { holds_after result ≡ true }
    {
        let mut ticket = ticket;
        match ticket.read_shared(rt, &self.device) {
            Ok(()) => Transition::Goes(Stage::Arrive(access, ticket)),
            Err(_) => Transition::Goes(Stage::FetchFail(ticket)),
        }
    }

    /// Writes the ticket's block. No lock is held.
    fn write_out<R: Wait>(&self, rt: &R, resume: Resume, ticket: OutTicket) -> Transition
        requires { ticket.block < blocks_in L.opening }
        ensures writes { Writes resume ticket [] result }
        ensures own { (worker blocks : ℕ) → IsOwn worker blocks ticket → OwnTransition worker blocks result }
        ensures holds { holds_after result ≡ true }
    {
        match ticket.write_shared(rt, &self.device) {
            Ok(()) => Transition::Goes(Stage::Leave(resume, ticket)),
            Err(_) => Transition::Goes(Stage::LeaveFail(ticket)),
        }
    }

    /// One turn of a command at this stage. It fails if memory is refused for a text.
    fn turn<R: Wait>(
        &self,
        rt: &R,
        pass: &mut Pass<L>,
        stage: Stage,
    ) -> Result<Transition, AllocError>
        requires room { 0 < pass.old.room }
        requires own { OwnStage pass.old.caller.worker (blocks_in L.opening) stage }
        requires hand { HasStage pass.old.exchanges stage }
        ensures made { IfOk result (λ t. Made L.opening stage pass.old.exchanges pass.new.exchanges t) }
        ensures wants { OnErr result (Wants L.opening stage pass.old.exchanges pass.new.exchanges) }
        ensures own { IfOk result (λ t. OwnTransition pass.old.caller.worker (blocks_in L.opening) t) }
        ensures caller { pass.new.caller ≡ pass.old.caller }
        ensures room { pass.old.room ≤ pass.new.room + 1 }
        ensures goes { IfOk result (λ t. holds stage ≡ true → holds_after t ≡ true → pass.new.room ≡ pass.old.room) }
        ensures share { IfOk result (λ t. Carries pass.old.kept (one_if (holds stage)) pass.new.kept (one_if (holds_after t))) }
        ensures share_at_err { OnErr result (Carries pass.old.kept (one_if (holds stage)) pass.new.kept 0) }
    {
        let free = self.free_for(rt, &stage);
        match ask(stage, self.marks, free) {
            Want::Call(pending, event) => self.ask_book(rt, pass, pending, event),
            Want::Read(access, ticket) => Ok(self.read_in(rt, access, ticket)),
            Want::Write(resume, ticket) => Ok(self.write_out(rt, resume, ticket)),
            Want::End(answer) => Ok(Transition::Ends(answer)),
        }
    }

    /// Reserves room for an event, and for the end of the transfer whose ticket it may give out. Reserves room for
    /// a kill and an answer, besides `spare` other answers.
    fn make_room(
        &self,
        pass: &mut Pass<L>,
        answers: &mut Vec<Told>,
        spare: usize,
    ) -> Result<(), AllocError>
        ensures kept { (pass.new.exchanges ≡ pass.old.exchanges) × (pass.new.kept ≡ pass.old.kept) × (pass.new.caller ≡ pass.old.caller) }
        ensures answers { (answers.new.items ≡ answers.old.items) × (vec_len answers.new ≡ vec_len answers.old) × (vec_capacity answers.old ≤ vec_capacity answers.new) }
        ensures room { OnOk result ((1 < pass.new.room) × (vec_len answers.new + spare + 1 < vec_capacity answers.new)) }
    {
        pass.reserve(2)?;
        answers.reserve(spare.saturating_add(2))
    }

    /// Reserves room for another turn. If a ticket is in hand, there is room already.
    fn ready(
        &self,
        pass: &mut Pass<L>,
        stage: &Stage,
        answers: &mut Vec<Told>,
        spare: usize,
    ) -> Result<(), AllocError>
        requires held { holds stage.now ≡ true → (0 < pass.old.room) × (vec_len answers.old + spare + 1 < vec_capacity answers.old) }
        ensures kept { (pass.new.exchanges ≡ pass.old.exchanges) × (pass.new.kept ≡ pass.old.kept) × (pass.new.caller ≡ pass.old.caller) }
        ensures answers { (answers.new.items ≡ answers.old.items) × (vec_len answers.new ≡ vec_len answers.old) × (vec_capacity answers.old ≤ vec_capacity answers.new) }
        ensures room { OnOk result ((0 < pass.new.room) × (vec_len answers.new + spare + 1 < vec_capacity answers.new)) }
        ensures free { OnOk result (holds stage.now ≡ false → 1 < pass.new.room) }
        ensures err { OnErr result (holds stage.now ≡ false) }
    {
        if holds(stage) {
            return Ok(());
        }
        self.make_room(pass, answers, spare)
    }

    /// One turn of a command at this stage, with its answers. Returns the stage in which the command continues, or
    /// `None` if it has ended.
    fn step<R: Wait>(
        &self,
        rt: &R,
        pass: &mut Pass<L>,
        actor: Actor,
        stage: Stage,
        answers: &mut Vec<Told>,
        spare: usize,
    ) -> Option<Stage>
        requires own { OwnStage pass.old.caller.worker (blocks_in L.opening) stage }
        requires hand { HasStage pass.old.exchanges stage }
        requires held { holds stage ≡ true → (0 < pass.old.room) × (vec_len answers.old + spare + 1 < vec_capacity answers.old) }
        requires space { vec_len answers.old + spare < vec_capacity answers.old }
        ensures goes { IfSome result (λ next. Linked L.opening actor stage pass.old.exchanges pass.new.exchanges answers.old.items answers.new.items next) }
        ensures ends { IfNone result (Closed L.opening actor stage pass.old.exchanges pass.new.exchanges answers.old.items answers.new.items) }
        ensures own { IfSome result (λ next. OwnStage pass.new.caller.worker (blocks_in L.opening) next) }
        ensures hand { IfSome result (λ next. HasStage pass.new.exchanges next) }
        ensures caller { pass.new.caller ≡ pass.old.caller }
        ensures held { IfSome result (λ next. holds next ≡ true → (0 < pass.new.room) × (vec_len answers.new + spare + 1 < vec_capacity answers.new)) }
        ensures space { IfSome result (λ next. vec_len answers.new + spare < vec_capacity answers.new) }
        ensures left { IfNone result (vec_len answers.new + spare ≤ vec_capacity answers.new) }
        ensures share { IfSome result (λ next. Carries pass.old.kept (one_if (holds stage)) pass.new.kept (one_if (holds next))) }
        ensures share_at_end { IfNone result (Carries pass.old.kept (one_if (holds stage)) pass.new.kept 0) }
    {
        if self.ready(pass, &stage, answers, spare).is_err() {
            let_go(stage);
            answers.push_reserved(out_of_memory(actor));
            return None;
        }
        match self.turn(rt, pass, stage) {
            Err(AllocError) => {
                answers.push_reserved(out_of_memory(actor));
                None
            }
            Ok(Transition::Goes(next)) => Some(next),
            Ok(Transition::Kills(kill, resume)) => {
                answers.push_reserved(Told {
                    actor,
                    answer: kill.answer(),
                });
                Some(resumes_at(resume))
            }
            Ok(Transition::Waits(resume)) => {
                self.wait(rt, pass);
                Some(resumes_at(resume))
            }
            Ok(Transition::Ends(answer)) => {
                answers.push_reserved(Told { actor, answer });
                None
            }
        }
    }

    /// Takes turns until the command has ended. There is no limit.
    fn run<R: Wait>(
        &self,
        rt: &R,
        pass: &mut Pass<L>,
        actor: Actor,
        stage: Stage,
        answers: &mut Vec<Told>,
        spare: usize,
    )
        requires free { holds stage ≡ false }
        requires space { vec_len answers.old + spare < vec_capacity answers.old }
        ensures ran { Ran L.opening actor stage pass.old.exchanges pass.new.exchanges answers.old.items answers.new.items }
        ensures caller { pass.new.caller ≡ pass.old.caller }
        ensures left { vec_len answers.new + spare ≤ vec_capacity answers.new }
        ensures share { Carries pass.old.kept 0 pass.new.kept 0 }
    {
        let mut stage = stage;
        for _turn in rt.forever() {
            match self.step(rt, pass, actor, stage, answers, spare) {
                Some(next) => stage = next,
                None => return,
            }
        }
        let_go(stage);
        unreachable!()
    }

    /// The first part of a command's first turn: its paths are looked up, and the rest is judged. A task's command has
    /// no path, so it needs no lock.
    fn first<R: Wait>(
        &self,
        rt: &R,
        pass: &mut Pass<L>,
        actor: Actor,
        command: &Command,
    ) -> Result<Result<Stage, Refusal>, AllocError>
        ensures looked { IfOk result (λ judged. Looked L.opening actor command.now pass.old.exchanges pass.new.exchanges judged) }
        ensures free { IfOk result (λ judged. IfOk judged (λ stage. holds stage ≡ false)) }
        ensures caller { pass.new.caller ≡ pass.old.caller }
        ensures share { OnOk result (Carries pass.old.kept 0 pass.new.kept 0) }
        ensures err { OnErr result ((pass.new.exchanges ≡ pass.old.exchanges) × (pass.new.kept ≡ pass.old.kept)) }
    {
        if let Actor::Task(task) = actor {
            return Ok(judge_task(task, command));
        }
        pass.reserve(2)?;
        let judged = self
            .shared
            .lock(rt)
            .judge(self.alloc, pass, actor, command)?;
        Ok(judged)
    }

    /// Answers a command that was refused, or runs it.
    fn judged<R: Wait>(
        &self,
        rt: &R,
        pass: &mut Pass<L>,
        actor: Actor,
        judged: Result<Stage, Refusal>,
        answers: &mut Vec<Told>,
        spare: usize,
    )
        requires space { vec_len answers.old + spare < vec_capacity answers.old }
        requires free { IfOk judged (λ stage. holds stage ≡ false) }
        ensures runs { Judging L.opening actor judged pass.old.exchanges pass.new.exchanges answers.old.items answers.new.items }
        ensures caller { pass.new.caller ≡ pass.old.caller }
        ensures left { vec_len answers.new + spare ≤ vec_capacity answers.new }
        ensures share { Carries pass.old.kept 0 pass.new.kept 0 }
    {
        match judged {
            Err(why) => answers.push_reserved(Told {
                actor,
                answer: Answer::Word(Word::Refused(why)),
            }),
            Ok(stage) => self.run(rt, pass, actor, stage, answers, spare),
        }
    }

    /// One command.
    fn one<R: Wait>(
        &self,
        rt: &R,
        pass: &mut Pass<L>,
        actor: Actor,
        command: &Command,
        answers: &mut Vec<Told>,
        spare: usize,
    )
        requires space { vec_len answers.old + spare < vec_capacity answers.old }
        ensures did { Did L.opening actor command.now pass.old.exchanges pass.new.exchanges answers.old.items answers.new.items }
        ensures caller { pass.new.caller ≡ pass.old.caller }
        ensures left { vec_len answers.new + spare ≤ vec_capacity answers.new }
        ensures share { Carries pass.old.kept 0 pass.new.kept 0 }
    {
        match self.first(rt, pass, actor, command) {
            Err(AllocError) => answers.push_reserved(out_of_memory(actor)),
            Ok(judged) => self.judged(rt, pass, actor, judged, answers, spare),
        }
    }

    /// A seat of the marks, for a worker that begins. The book's lock is not held during the call.
    fn seat<R: Wait>(&self, rt: &R) -> Option<Hand> {
        self.first.lock(rt).hand()
    }

    /// Runs all commands, in order.
    pub(crate) fn work<R: Wait>(
        &self,
        rt: &R,
        pass: &mut Pass<L>,
        actor: Actor,
        commands: &[Command],
    ) -> Result<Vec<Told>, Refusal>
        ensures works { IfOk result (λ answers. Worked L.opening actor commands.now pass.old.exchanges pass.new.exchanges answers.items) }
        ensures share { KeepsShare pass.old.kept pass.new.kept }
        ensures known { OnOk result (strange pass.new.kept ≡ 0) }
        ensures rest { has_share pass.old.kept ≡ false → has_share pass.new.kept ≡ false }
        ensures worker { pass.new.caller ≡ pass.old.caller }
        ensures err { IfErr result (λ cause. (cause ≡ Refusal.NoMemory) × (pass.new ≡ pass.old)) }
    {
        let mut answers = Vec::new(self.alloc);
        if answers.reserve(commands.len().saturating_add(1)).is_err() {
            return Err(Refusal::NoMemory);
        }
        pass.sit(self.seat(rt));
        for (at, command) in commands.iter().enumerate() {
            let spare = commands.len() - at - 1;
            self.one(rt, pass, actor, command, &mut answers, spare);
        }
        pass.sit(None);
        Ok(answers)
    }

    /// Answers the task's commands, in order. `busy` is not an answer here: the worker waits until a transfer has
    /// ended, and tries again.
    ///
    /// Room for an answer to each command and for one kill is reserved first. `NoMemory` if it is refused, and then
    /// nothing is done. Room for further kills is reserved turn by turn.
    pub fn task<R: Wait>(
        &self,
        rt: &R,
        pass: &mut Pass<L>,
        n: u32,
        commands: &[Command],
    ) -> Result<Vec<Told>, Refusal>
        ensures works { IfOk result (λ answers. Worked L.opening (Actor.Task n) commands.now pass.old.exchanges pass.new.exchanges answers.items) }
        ensures share { KeepsShare pass.old.kept pass.new.kept }
        ensures known { OnOk result (strange pass.new.kept ≡ 0) }
        ensures rest { has_share pass.old.kept ≡ false → has_share pass.new.kept ≡ false }
        ensures worker { pass.new.caller ≡ pass.old.caller }
        ensures err { IfErr result (λ cause. (cause ≡ Refusal.NoMemory) × (pass.new ≡ pass.old)) }
    {
        self.work(rt, pass, Actor::Task(n), commands)
    }

    /// Answers the shell's commands, as [`Live::task`] does.
    pub fn control<R: Wait>(
        &self,
        rt: &R,
        pass: &mut Pass<L>,
        commands: &[Command],
    ) -> Result<Vec<Told>, Refusal>
        ensures works { IfOk result (λ answers. Worked L.opening Actor.Control commands.now pass.old.exchanges pass.new.exchanges answers.items) }
        ensures share { KeepsShare pass.old.kept pass.new.kept }
        ensures known { OnOk result (strange pass.new.kept ≡ 0) }
        ensures rest { has_share pass.old.kept ≡ false → has_share pass.new.kept ≡ false }
        ensures worker { pass.new.caller ≡ pass.old.caller }
        ensures err { IfErr result (λ cause. (cause ≡ Refusal.NoMemory) × (pass.new ≡ pass.old)) }
    {
        self.work(rt, pass, Actor::Control, commands)
    }

    /// Runs the daemon's command when free frames are below the low watermark, and not again until they have
    /// reached it. Runs it once more after [`Live::stop`] (kernel: `kswapd`).
    pub fn daemon<R: Wait>(&self, rt: &R, pass: &mut Pass<L>)
        ensures works { Repeated L.opening Actor.Daemon Command.Daemon pass.old.exchanges pass.new.exchanges }
        ensures share { KeepsShare pass.old.kept pass.new.kept }
        ensures known { strange pass.new.kept ≡ 0 }
        ensures rest { has_share pass.old.kept ≡ false → has_share pass.new.kept ≡ false }
        ensures worker { pass.new.caller ≡ pass.old.caller }
    {
        pass.sit(self.seat(rt));
        for _run in rt.forever() {
            let is_last = self.doze(rt);
            self.balance(rt, pass);
            if is_last {
                pass.sit(None);
                return;
            }
        }
        unreachable!()
    }

    /// Sleeps until the daemon has to run. Returns whether it has to end after this run.
    fn doze<R: Wait>(&self, rt: &R) -> bool {
        let guard = self.shared.lock(rt);
        let mut shared = self
            .low
            .wait_while(rt, guard, |shared| !shared.wants_daemon());
        shared.begin_daemon()
    }

    /// One run of the daemon's command.
    fn balance<R: Wait>(&self, rt: &R, pass: &mut Pass<L>)
        ensures done { Done L.opening Actor.Daemon Command.Daemon pass.old.exchanges pass.new.exchanges }
        ensures caller { pass.new.caller ≡ pass.old.caller }
        ensures share { Carries pass.old.kept 0 pass.new.kept 0 }
    {
        let mut answers = Vec::new(self.alloc);
        if answers.reserve(1).is_err() {
            return;
        }
        self.one(rt, pass, Actor::Daemon, &Command::Daemon, &mut answers, 0);
    }
}
