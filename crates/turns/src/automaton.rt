//! The automaton of a command: what it asks of the book or of the device in each state, and what it makes of the book's
//! reply. It knows no book, no device and no loop, so all callers that run commands use this one.

ghost use Rattle.std.specs.Prelude.{◌≡◌, ℕ, true, false, IfOk, OnErr};
ghost use Rattle.book_events.specs.Replies.{IsAccessReply, IsReliefReply, IsReclaimReply, IsOkReply, IsTaskReply, IsShownReply, IsInReply, IsOutReply};
ghost use Rattle.turns.specs.Turns.{access_event, wants_pages, wants_balance, wants_watch, wants, ends_with, ends_refused, byte_answer, resumes_at, arrived, Tried, MadeRoom, MaxSet, Lowered, Reclaimed, Balanced, Made, TaskDid, WasShown, Closed, Told, WantsText, Awaits, AwaitsAll};
ghost use Rattle.turns.specs.Tickets.{holds, holds_want, holds_after, gives_ticket, OwnReply, OwnStage, OwnWant, OwnTransition, IsHanded, IsSpendableReply};

use crate::turn::{Access, Kill, Pending, Resume, Stage, Transition, Want};
use book_events::{Event, InTicket, OutTicket, Reply};
use control_files::show_text;
use machine::command::{Answer, Word};
use machine::config::Watermarks;
use machine::event::{Cause, Op, Setting};
use machine::id::GroupId;
use machine::page_size::PageSize;
use machine::refusal::Refusal;
use machine::text::Text;
use std::alloc::{AllocError, Global};

/// What a command asks for in one turn, with the daemon's watermarks and this number of free frames. The event of a
/// [`Want::Call`] has only replies that [`told`] knows.
pub fn ask(stage: Stage, marks: Watermarks, free: u32) -> Want
    ensures wants { result ≡ wants marks free stage }
    ensures awaits { AwaitsAll result }
    ensures holds { holds_want result ≡ holds stage }
    ensures own { (worker blocks : ℕ) → OwnStage worker blocks stage → OwnWant worker blocks result }
{
    match stage {
        Stage::Try(access) => Want::Call(Pending::Try(access), access_event(access)),
        Stage::MakeRoom(access, cause) => {
            Want::Call(Pending::MakeRoom(access, cause), Event::Relieve(cause))
        }
        Stage::SetMax { group, max } => Want::Call(
            Pending::SetMax(group),
            Event::Set {
                group,
                setting: Setting::Max(max),
            },
        ),
        Stage::Lower(group) => Want::Call(
            Pending::Lower(group),
            Event::Relieve(Cause::Lower(group)),
        ),
        Stage::SetGuard {
            group,
            guard,
            amount,
        } => Want::Call(
            Pending::Make,
            Event::Set {
                group,
                setting: Setting::Guard(guard, amount),
            },
        ),
        Stage::SetOomGroup { group, flag } => Want::Call(
            Pending::Make,
            Event::Set {
                group,
                setting: Setting::OomGroup(flag),
            },
        ),
        Stage::Reclaim { group, left } => ask_page(group, left),
        Stage::Watch => watch(marks, free),
        Stage::Balance => balance(marks, free),
        Stage::Spawn { task, group } => Want::Call(Pending::Make, Event::Spawn { task, group }),
        Stage::Fork { task, child } => Want::Call(Pending::OfTask, Event::Fork { task, child }),
        Stage::Exit(task) => Want::Call(Pending::OfTask, Event::Exit(task)),
        Stage::Free { task, page } => Want::Call(Pending::OfTask, Event::Free { task, page }),
        Stage::Attach { task, group } => Want::Call(Pending::Make, Event::Attach { task, group }),
        Stage::Mkdir(path) => Want::Call(Pending::Make, Event::Mkdir(path)),
        Stage::Rmdir(group) => Want::Call(Pending::Make, Event::Rmdir(group)),
        Stage::Show(query) => Want::Call(Pending::Show, Event::Show(query)),
        Stage::Read(access, ticket) => Want::Read(access, ticket),
        Stage::Arrive(access, ticket) => Want::Call(
            Pending::Arrive(access),
            Event::Arrived(ticket),
        ),
        Stage::FetchFail(ticket) => Want::Call(Pending::FetchFail, Event::FetchFailed(ticket)),
        Stage::Write(resume, ticket) => Want::Write(resume, ticket),
        Stage::Leave(resume, ticket) => Want::Call(Pending::Leave(resume), Event::Left(ticket)),
        Stage::LeaveFail(ticket) => Want::Call(Pending::LeaveFail, Event::LeaveFailed(ticket)),
    }
}

fn access_event(access: Access) -> Event
    ensures { result ≡ access_event access }
{
    Event::Access {
        task: access.task,
        place: access.place,
        op: access.op,
    }
}

/// Asks to evict one page, of those that are left.
fn ask_page(group: GroupId, left: u64) -> Want
    ensures wants { result ≡ wants_pages group.0 left }
    ensures awaits { AwaitsAll result }
    ensures holds { holds_want result ≡ false }
    ensures own { (worker blocks : ℕ) → OwnWant worker blocks result }
{
    if left == 0 {
        return Want::End(Answer::Done);
    }
    Want::Call(Pending::Reclaim { group, left }, Event::ReclaimOne(group))
}

/// The daemon begins below its low watermark.
fn watch(marks: Watermarks, free: u32) -> Want
    ensures wants { result ≡ wants_watch marks free }
    ensures awaits { AwaitsAll result }
    ensures holds { holds_want result ≡ false }
    ensures own { (worker blocks : ℕ) → OwnWant worker blocks result }
{
    if free >= marks.low {
        return Want::End(Answer::Done);
    }
    balance(marks, free)
}

/// It continues up to its high watermark.
fn balance(marks: Watermarks, free: u32) -> Want
    ensures wants { result ≡ wants_balance marks free }
    ensures awaits { AwaitsAll result }
    ensures holds { holds_want result ≡ false }
    ensures own { (worker blocks : ℕ) → OwnWant worker blocks result }
{
    if free >= marks.high {
        return Want::End(Answer::Done);
    }
    Want::Call(Pending::Balance, Event::ReclaimOne(GroupId(0)))
}

/// What a command makes of the book's reply. A ticket that the reply hands out stays with the command, and one that was
/// handed back is spent. A text has pages of this size. It fails only if memory is refused for a control file's text.
pub fn told(
    alloc: Global,
    page_size: PageSize,
    pending: Pending,
    reply: Reply,
) -> Result<Transition, AllocError>
    requires awaits { Awaits pending reply }
    requires handed { IsHanded reply }
    ensures told { IfOk result (λ transition. Told page_size.bytes pending reply transition) }
    ensures holds { IfOk result (λ transition. holds_after transition ≡ gives_ticket reply) }
    ensures own { (worker blocks : ℕ) → OwnReply worker blocks reply → IfOk result (λ transition. OwnTransition worker blocks transition) }
    ensures err { OnErr result (WantsText page_size.bytes pending reply) }
    ensures quiet { OnErr result (gives_ticket reply ≡ false) }
{
    match pending {
        Pending::Try(access) => Ok(tried(access, reply)),
        Pending::MakeRoom(access, cause) => Ok(made_room(access, cause, reply)),
        Pending::SetMax(group) => Ok(max_set(group, reply)),
        Pending::Lower(group) => Ok(lowered(group, reply)),
        Pending::Reclaim { group, left } => Ok(reclaimed(group, left, reply)),
        Pending::Balance => Ok(balanced(reply)),
        Pending::Make => Ok(made(reply)),
        Pending::OfTask => Ok(task_did(reply)),
        Pending::Show => shown(alloc, page_size, reply),
        Pending::Arrive(access) => Ok(arrived(access, reply)),
        Pending::FetchFail => Ok(fetch_failed(reply)),
        Pending::Leave(resume) => Ok(left(resume, reply)),
        Pending::LeaveFail => Ok(leave_failed(reply)),
    }
}

fn word(word: Word) -> Transition
    ensures { result ≡ ends_with word }
{
    Transition::Ends(Answer::Word(word))
}

/// A refusal ends a command with its name.
fn refused(cause: Refusal) -> Transition
    ensures { result ≡ ends_refused cause }
{
    word(Word::Refused(cause))
}

/// The result of a reply that cannot come.
fn never(reply: Reply) -> Transition
    requires { IsSpendableReply reply }
{
    spend(reply);
    Transition::Ends(Answer::Done)
}

/// Spends a reply, whose ticket was handed back.
pub fn spend(reply: Reply)
    requires { IsSpendableReply reply }
{
    match reply {
        Reply::Fetch(ticket) | Reply::StrangeIn(ticket) => ticket.discard(),
        Reply::Out(ticket) | Reply::StrangeOut(ticket) => ticket.discard(),
        Reply::Done { byte: _, hit: _ }
        | Reply::Over(_)
        | Reply::NoFrame
        | Reply::Busy
        | Reply::Killed => {}
        Reply::Ok | Reply::Room | Reply::Dropped | Reply::Wait | Reply::Nothing => {}
        Reply::KilledTask(_) | Reply::NoVictim | Reply::Shown(_) | Reply::Refused(_) => {}
        Reply::KilledAll {
            victim: _,
            group: _,
            tasks: _,
        } => {}
    }
}

/// Whether a command in this state has a ticket in hand.
pub fn holds(stage: &Stage) -> bool
    ensures { result ≡ holds stage.now }
{
    match stage {
        Stage::Read(_, _) | Stage::Arrive(_, _) | Stage::FetchFail(_) => true,
        Stage::Write(_, _) | Stage::Leave(_, _) | Stage::LeaveFail(_) => true,
        _ => false,
    }
}

/// Ends a command that has no ticket in hand.
pub fn let_go(stage: Stage)
    requires { holds stage ≡ false }
{
    match stage {
        Stage::Read(_, ticket) | Stage::Arrive(_, ticket) | Stage::FetchFail(ticket) => {
            ticket.discard();
        }
        Stage::Write(_, ticket) | Stage::Leave(_, ticket) | Stage::LeaveFail(ticket) => {
            ticket.discard();
        }
        Stage::Try(_) | Stage::MakeRoom(_, _) | Stage::SetMax { group: _, max: _ } => {}
        Stage::Lower(_)
        | Stage::SetGuard {
            group: _,
            guard: _,
            amount: _,
        } => {}
        Stage::SetOomGroup { group: _, flag: _ } => {}
        Stage::Reclaim { group: _, left: _ } | Stage::Watch | Stage::Balance => {}
        Stage::Spawn { task: _, group: _ } | Stage::Fork { task: _, child: _ } => {}
        Stage::Exit(_) | Stage::Free { task: _, page: _ } => {}
        Stage::Attach { task: _, group: _ } => {}
        Stage::Mkdir(_) | Stage::Rmdir(_) | Stage::Show(_) => {}
    }
}

fn byte_answer(op: Op, byte: u8) -> Answer
    ensures { result ≡ byte_answer op byte }
{
    match op {
        Op::Read => Answer::Byte(byte),
        Op::Write(_) => Answer::Done,
    }
}

fn tried(access: Access, reply: Reply) -> Transition
    requires { IsAccessReply reply }
    ensures told { Tried access reply result }
    ensures holds { holds_after result ≡ gives_ticket reply }
    ensures own { (worker blocks : ℕ) → OwnReply worker blocks reply → OwnTransition worker blocks result }
{
    match reply {
        Reply::Done { byte, hit: _ } => Transition::Ends(byte_answer(access.op, byte)),
        Reply::Fetch(ticket) => Transition::Goes(Stage::Read(access, ticket)),
        Reply::Over(group) => Transition::Goes(Stage::MakeRoom(access, Cause::Charge(group))),
        Reply::NoFrame => Transition::Goes(Stage::MakeRoom(access, Cause::Frame)),
        Reply::Busy => Transition::Waits(Resume::Try(access)),
        Reply::Killed => word(Word::Killed),
        Reply::Refused(cause) => refused(cause),
        other => never(other),
    }
}

fn made_room(access: Access, cause: Cause, reply: Reply) -> Transition
    requires { IsReliefReply reply }
    ensures told { MadeRoom access cause reply result }
    ensures holds { holds_after result ≡ gives_ticket reply }
    ensures own { (worker blocks : ℕ) → OwnReply worker blocks reply → OwnTransition worker blocks result }
{
    match reply {
        Reply::Room | Reply::Dropped => Transition::Goes(Stage::Try(access)),
        Reply::Out(ticket) => Transition::Goes(Stage::Write(Resume::Try(access), ticket)),
        Reply::Wait => Transition::Waits(Resume::MakeRoom(access, cause)),
        Reply::KilledTask(task) => Transition::Kills(Kill::One(task), Resume::Try(access)),
        Reply::KilledAll {
            victim,
            group: _,
            tasks,
        } => Transition::Kills(Kill::Group { victim, tasks }, Resume::Try(access)),
        Reply::NoVictim => word(Word::OutOfMemory),
        Reply::Refused(cause) => refused(cause),
        other => never(other),
    }
}

fn max_set(group: GroupId, reply: Reply) -> Transition
    requires { IsOkReply reply }
    ensures told { MaxSet group.0 reply result }
    ensures holds { holds_after result ≡ gives_ticket reply }
    ensures own { (worker blocks : ℕ) → OwnTransition worker blocks result }
{
    match reply {
        Reply::Ok => Transition::Goes(Stage::Lower(group)),
        Reply::Refused(cause) => refused(cause),
        other => never(other),
    }
}

fn lowered(group: GroupId, reply: Reply) -> Transition
    requires { IsReliefReply reply }
    ensures told { Lowered group.0 reply result }
    ensures holds { holds_after result ≡ gives_ticket reply }
    ensures own { (worker blocks : ℕ) → OwnReply worker blocks reply → OwnTransition worker blocks result }
{
    match reply {
        Reply::Room | Reply::NoVictim => Transition::Ends(Answer::Done),
        Reply::Dropped => Transition::Goes(Stage::Lower(group)),
        Reply::Out(ticket) => Transition::Goes(Stage::Write(Resume::Lower(group), ticket)),
        Reply::Wait => Transition::Waits(Resume::Lower(group)),
        Reply::KilledTask(task) => Transition::Kills(Kill::One(task), Resume::Lower(group)),
        Reply::KilledAll {
            victim,
            group: _,
            tasks,
        } => Transition::Kills(Kill::Group { victim, tasks }, Resume::Lower(group)),
        Reply::Refused(cause) => refused(cause),
        other => never(other),
    }
}

fn reclaimed(group: GroupId, left: u64, reply: Reply) -> Transition
    requires { IsReclaimReply reply }
    ensures told { Reclaimed group.0 left reply result }
    ensures holds { holds_after result ≡ gives_ticket reply }
    ensures own { (worker blocks : ℕ) → OwnReply worker blocks reply → OwnTransition worker blocks result }
{
    let less = left.saturating_sub(1);
    match reply {
        Reply::Dropped => Transition::Goes(Stage::Reclaim { group, left: less }),
        Reply::Out(ticket) => Transition::Goes(Stage::Write(
            Resume::Reclaim { group, left: less },
            ticket,
        )),
        Reply::Wait => Transition::Waits(Resume::Reclaim { group, left }),
        Reply::Nothing => word(Word::Again),
        Reply::Refused(cause) => refused(cause),
        other => never(other),
    }
}

fn balanced(reply: Reply) -> Transition
    requires { IsReclaimReply reply }
    ensures told { Balanced reply result }
    ensures holds { holds_after result ≡ gives_ticket reply }
    ensures own { (worker blocks : ℕ) → OwnReply worker blocks reply → OwnTransition worker blocks result }
{
    match reply {
        Reply::Dropped => Transition::Goes(Stage::Balance),
        Reply::Out(ticket) => Transition::Goes(Stage::Write(Resume::Balance, ticket)),
        Reply::Wait => Transition::Waits(Resume::Balance),
        Reply::Nothing => Transition::Ends(Answer::Done),
        Reply::Refused(cause) => refused(cause),
        other => never(other),
    }
}

fn made(reply: Reply) -> Transition
    requires { IsOkReply reply }
    ensures told { Made reply result }
    ensures holds { holds_after result ≡ gives_ticket reply }
    ensures own { (worker blocks : ℕ) → OwnTransition worker blocks result }
{
    match reply {
        Reply::Ok => Transition::Ends(Answer::Done),
        Reply::Refused(cause) => refused(cause),
        other => never(other),
    }
}

fn task_did(reply: Reply) -> Transition
    requires { IsTaskReply reply }
    ensures told { TaskDid reply result }
    ensures holds { holds_after result ≡ gives_ticket reply }
    ensures own { (worker blocks : ℕ) → OwnTransition worker blocks result }
{
    match reply {
        Reply::Ok => Transition::Ends(Answer::Done),
        Reply::Killed => word(Word::Killed),
        Reply::Refused(cause) => refused(cause),
        other => never(other),
    }
}

fn shown(alloc: Global, page_size: PageSize, reply: Reply) -> Result<Transition, AllocError>
    requires { IsShownReply reply }
    ensures told { IfOk result (λ transition. WasShown page_size.bytes reply transition) }
    ensures holds { IfOk result (λ transition. holds_after transition ≡ gives_ticket reply) }
    ensures own { (worker blocks : ℕ) → IfOk result (λ transition. OwnTransition worker blocks transition) }
    ensures err { OnErr result (WantsText page_size.bytes Pending.Show reply) }
    ensures quiet { OnErr result (gives_ticket reply ≡ false) }
{
    match reply {
        Reply::Shown(numbers) => match show_text(alloc, page_size, numbers) {
            Ok(text) => Ok(Transition::Ends(Answer::Text(Text::new(text)))),
            // It fails only if memory is refused.
            Err(_) => Err(AllocError),
        },
        Reply::Refused(cause) => Ok(refused(cause)),
        other => Ok(never(other)),
    }
}

/// The book does not know the ticket.
fn strange_in(ticket: InTicket) -> Transition
    requires { ticket.handed ≡ true }
    ensures { result ≡ ends_refused Refusal.Stranger }
{
    ticket.discard();
    refused(Refusal::Stranger)
}

fn strange_out(ticket: OutTicket) -> Transition
    requires { ticket.handed ≡ true }
    ensures { result ≡ ends_refused Refusal.Stranger }
{
    ticket.discard();
    refused(Refusal::Stranger)
}

fn arrived(access: Access, reply: Reply) -> Transition
    requires comes { IsInReply reply }
    requires handed { IsHanded reply }
    ensures told { Closed (Transition.Goes (Stage.Try (arrived access))) reply result }
    ensures holds { holds_after result ≡ gives_ticket reply }
    ensures own { (worker blocks : ℕ) → OwnTransition worker blocks result }
{
    match reply {
        Reply::Ok => Transition::Goes(Stage::Try(Access {
            fetched: true,
            ..access
        })),
        Reply::StrangeIn(ticket) => strange_in(ticket),
        other => never(other),
    }
}

fn fetch_failed(reply: Reply) -> Transition
    requires comes { IsInReply reply }
    requires handed { IsHanded reply }
    ensures told { Closed (ends_with Word.Io) reply result }
    ensures holds { holds_after result ≡ gives_ticket reply }
    ensures own { (worker blocks : ℕ) → OwnTransition worker blocks result }
{
    match reply {
        Reply::Ok => word(Word::Io),
        Reply::StrangeIn(ticket) => strange_in(ticket),
        other => never(other),
    }
}

/// The state in which a command continues after a transfer has ended: its own or another command's.
pub fn resumes_at(resume: Resume) -> Stage
    ensures at { result ≡ resumes_at resume }
    ensures holds { holds result ≡ false }
    ensures own { (worker blocks : ℕ) → OwnStage worker blocks result }
{
    match resume {
        Resume::Try(access) => Stage::Try(access),
        Resume::MakeRoom(access, cause) => Stage::MakeRoom(access, cause),
        Resume::Lower(group) => Stage::Lower(group),
        Resume::Reclaim { group, left } => Stage::Reclaim { group, left },
        Resume::Balance => Stage::Balance,
    }
}

fn left(resume: Resume, reply: Reply) -> Transition
    requires comes { IsOutReply reply }
    requires handed { IsHanded reply }
    ensures told { Closed (Transition.Goes (resumes_at resume)) reply result }
    ensures holds { holds_after result ≡ gives_ticket reply }
    ensures own { (worker blocks : ℕ) → OwnTransition worker blocks result }
{
    match reply {
        Reply::Ok => Transition::Goes(resumes_at(resume)),
        Reply::StrangeOut(ticket) => strange_out(ticket),
        other => never(other),
    }
}

fn leave_failed(reply: Reply) -> Transition
    requires comes { IsOutReply reply }
    requires handed { IsHanded reply }
    ensures told { Closed (ends_with Word.Io) reply result }
    ensures holds { holds_after result ≡ gives_ticket reply }
    ensures own { (worker blocks : ℕ) → OwnTransition worker blocks result }
{
    match reply {
        Reply::Ok => word(Word::Io),
        Reply::StrangeOut(ticket) => strange_out(ticket),
        other => never(other),
    }
}
