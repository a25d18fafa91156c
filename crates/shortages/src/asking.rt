//! How a machine is asked: the turns of a command, and single events.

ghost use Rattle.std.specs.Prelude.{◌≡◌, ◌<◌, ℕ};
ghost use Rattle.book_events.specs.Replies.{Replies};
ghost use Rattle.turns.specs.Tickets.{IsOwn, OwnEvent, OwnReply, OwnStage, OwnTransition, IsHanded};

use crate::hunt::{Hunt, Told};
use crate::step::{Ask, Command, Step};
use crate::walk::{Machine, text};
use block_store::{BlockDevice, MemDevice};
use book::{Book, Event, InTicket, Kept, OutTicket, Pass, Reply};
use machine::command::Answer;
use machine::event::Query;
use machine::page_size::PageSize;
use machine::refusal::Refusal;
use machine::reply::Reply as Said;
use machine::text::Text;
use turns::automaton::{ask, let_go, resumes_at, spend, told};
use turns::turn::{Access, Resume, Stage, Transition, Want};

/// No command takes this number of turns.
const TURNS: usize = 100;

/// The last answer.
pub fn said(pass: &Pass) -> Option<Said> {
    match pass.kept().last() {
        Some(Kept::Call { asked: _, said }) => Some(*said),
        _ => None,
    }
}

/// The text of a path: the one that is ready, or a new one.
fn path(hunt: &mut Hunt, ready: Option<Text>, words: &str) -> Text {
    if let Some(text) = ready {
        return text;
    }
    match text(hunt.alloc(), words) {
        Ok(text) => text,
        Err(_) => {
            hunt.demand(false, "a path has no memory");
            Text::new(String::new(hunt.alloc()))
        }
    }
}

/// Reads the ticket's block.
fn read_in(device: &mut MemDevice, access: Access, ticket: InTicket) -> Transition
    ensures own { (worker blocks : ℕ) → IsOwn worker blocks ticket → OwnTransition worker blocks result }
{
    let mut ticket = ticket;
    if ticket.block() >= device.blocks() {
        return Transition::Goes(Stage::FetchFail(ticket));
    }
    match ticket.read_from(device) {
        Ok(()) => Transition::Goes(Stage::Arrive(access, ticket)),
        Err(_) => Transition::Goes(Stage::FetchFail(ticket)),
    }
}

/// Writes the ticket's block.
fn write_out(device: &mut MemDevice, resume: Resume, ticket: OutTicket) -> Transition
    ensures own { (worker blocks : ℕ) → IsOwn worker blocks ticket → OwnTransition worker blocks result }
{
    if ticket.block() >= device.blocks() {
        return Transition::Goes(Stage::LeaveFail(ticket));
    }
    match ticket.write_to(device) {
        Ok(()) => Transition::Goes(Stage::Leave(resume, ticket)),
        Err(_) => Transition::Goes(Stage::LeaveFail(ticket)),
    }
}

/// One event of the book. A ticket that it gives out is the worker's, and one that comes back can be discarded.
fn call(book: &mut Book, pass: &mut Pass, event: Event) -> Reply
    requires room { 1 < pass.old.room }
    requires own { (blocks : ℕ) × OwnEvent pass.old.caller.worker blocks event }
    ensures replies { Replies event result }
    ensures own { (blocks : ℕ) × OwnReply pass.old.caller.worker blocks result }
    ensures handed { IsHanded result }
    ensures worker { pass.new.caller.worker ≡ pass.old.caller.worker }
    ensures room { 0 < pass.new.room }
{
    let reply = book.call(pass, event);
    book.history_is_right();
    reply
}

/// Keeps the answer of the step, unless the step has to be asked again.
fn hear(hunt: &mut Hunt, told: &mut Vec<Told>, name: &'static str, reply: Option<Said>) {
    match reply {
        None => hunt.demand(false, "nothing was answered"),
        Some(reply) => {
            if !hunt.is_refusal(Some(reply)) {
                keep(hunt, told, name, reply);
            }
        }
    }
}

fn keep(hunt: &mut Hunt, told: &mut Vec<Told>, name: &'static str, reply: Said) {
    hunt.demand(
        reply != Said::Refused(Refusal::NoMemory),
        "memory is refused again",
    );
    let kept = told.push(Told { name, reply });
    hunt.demand(kept.is_ok(), "an answer has no room");
}

/// Ends a command that has taken too many turns. The transfer of a ticket in hand fails.
fn give_up(book: &mut Book, pass: &mut Pass, stage: Stage)
    requires room { 0 < pass.old.room }
    requires own { (blocks : ℕ) × OwnStage pass.old.caller.worker blocks stage }
{
    match stage {
        Stage::Read(_, ticket) | Stage::Arrive(_, ticket) | Stage::FetchFail(ticket) => {
            fail_in(book, pass, ticket);
        }
        Stage::Write(_, ticket) | Stage::Leave(_, ticket) | Stage::LeaveFail(ticket) => {
            fail_out(book, pass, ticket);
        }
        other => let_go(other),
    }
}

fn fail_in(book: &mut Book, pass: &mut Pass, ticket: InTicket)
    requires room { 0 < pass.old.room }
    requires own { ticket.worker ≡ pass.old.caller.worker }
{
    match book.call(pass, Event::FetchFailed(ticket)) {
        Reply::StrangeIn(ticket) => ticket.discard(),
        other => spend(other),
    }
}

fn fail_out(book: &mut Book, pass: &mut Pass, ticket: OutTicket)
    requires room { 0 < pass.old.room }
    requires own { ticket.worker ≡ pass.old.caller.worker }
{
    match book.call(pass, Event::LeaveFailed(ticket)) {
        Reply::StrangeOut(ticket) => ticket.discard(),
        other => spend(other),
    }
}

impl Machine {
    /// Asks what the step asks, to its end.
    pub fn ask(&mut self, hunt: &mut Hunt, step: Step) {
        if self.pass.reserve(1).is_err() {
            hunt.demand(false, "a pass has no room");
            return;
        }
        match step.ask {
            Ask::Command(command) => {
                let stage = self.first(hunt, command);
                self.run(hunt, step.name, stage);
            }
            Ask::Show(query) => self.show(hunt, step.name, query),
            Ask::MergeMarks { word, bits } => self.merge(hunt, step.name, word, bits),
        }
    }

    /// The state in which the turns of a command begin.
    fn first(&mut self, hunt: &mut Hunt, command: Command) -> Stage
        ensures own { (worker blocks : ℕ) → OwnStage worker blocks result }
        ensures room { self.new.pass.room ≡ self.old.pass.room }
    {
        match command {
            Command::Access(task, place, op) => Stage::Try(Access {
                task,
                place,
                op,
                fetched: false,
            }),
            Command::Mkdir(words) => Stage::Mkdir(path(hunt, self.path.take(), words)),
            Command::Rmdir(group) => Stage::Rmdir(group),
            Command::SetMax(group, max) => Stage::SetMax { group, max },
            Command::SetGuard(group, guard, amount) => Stage::SetGuard {
                group,
                guard,
                amount,
            },
            Command::SetOomGroup(group, flag) => Stage::SetOomGroup { group, flag },
            Command::Reclaim(group) => Stage::Reclaim { group, left: 1 },
            Command::Spawn(task, group) => Stage::Spawn { task, group },
            Command::Fork(task, child) => Stage::Fork { task, child },
            Command::Exit(task) => Stage::Exit(task),
            Command::Free(task, page) => Stage::Free { task, page },
            Command::Attach(task, group) => Stage::Attach { task, group },
        }
    }

    /// One turn of a command: what it asks of the book or of the device, and what it makes of the answer.
    fn turn(&mut self, hunt: &mut Hunt, name: &'static str, stage: Stage) -> Transition
        requires room { 1 < self.old.pass.room }
        requires own { (blocks : ℕ) × OwnStage self.old.pass.caller.worker blocks stage }
        ensures own { (blocks : ℕ) × OwnTransition self.new.pass.caller.worker blocks result }
        ensures room { 0 < self.new.pass.room }
    {
        match ask(stage, self.book.watermarks(), self.book.free_frames()) {
            Want::Call(pending, event) => {
                let reply = call(&mut self.book, &mut self.pass, event);
                hear(hunt, &mut self.told, name, said(&self.pass));
                match told(hunt.alloc(), PageSize::of_4k(), pending, reply) {
                    Ok(transition) => transition,
                    Err(_) => {
                        hunt.demand(false, "a text has no memory");
                        Transition::Ends(Answer::Done)
                    }
                }
            }
            Want::Read(access, ticket) => read_in(&mut self.device, access, ticket),
            Want::Write(resume, ticket) => write_out(&mut self.device, resume, ticket),
            Want::End(answer) => Transition::Ends(answer),
        }
    }

    /// Takes turns of a command until it ends.
    fn run(&mut self, hunt: &mut Hunt, name: &'static str, stage: Stage)
        requires room { 0 < self.old.pass.room }
        requires own { (blocks : ℕ) × OwnStage self.old.pass.caller.worker blocks stage }
    {
        let mut stage = stage;
        for _turn in 0..TURNS {
            if self.pass.reserve(2).is_err() {
                hunt.demand(false, "a pass has no room");
                give_up(&mut self.book, &mut self.pass, stage);
                return;
            }
            match self.turn(hunt, name, stage) {
                Transition::Goes(next) => stage = next,
                Transition::Kills(_, resume) | Transition::Waits(resume) => {
                    stage = resumes_at(resume);
                }
                Transition::Ends(_) => return,
            }
        }
        hunt.demand(false, "a command does not end");
        give_up(&mut self.book, &mut self.pass, stage);
    }

    /// The pass keeps what is shown.
    fn show(&mut self, hunt: &mut Hunt, name: &'static str, query: Query)
        requires room { 0 < self.old.pass.room }
    {
        spend(self.book.call(&mut self.pass, Event::Show(query)));
        hear(hunt, &mut self.told, name, said(&self.pass));
    }

    /// Pages were used. The pass keeps nothing of it.
    fn merge(&mut self, hunt: &mut Hunt, name: &'static str, word: u32, bits: u64)
        requires room { 0 < self.old.pass.room }
    {
        let asked = Event::MergeMarks { word, bits };
        spend(self.book.call(&mut self.pass, asked));
        keep(hunt, &mut self.told, name, Said::Ok);
    }
}
