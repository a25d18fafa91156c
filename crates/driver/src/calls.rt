//! Calls of the book and of the device, with the ticket in hand.

ghost use Rattle.std.specs.Prelude.{◌≡◌, ℕ, ◌+◌, ◌<◌, ◌≤◌, true, length};
ghost use Rattle.machine.specs.declared.event.Event.TheVariants as event;
ghost use Rattle.machine.specs.declared.reply.Reply.TheVariants as said;
ghost use Rattle.machine.specs.Call.{Called};
ghost use Rattle.book.specs.Passes.{is_current};
ghost use Rattle.book_events.specs.Events.{event_of, reply_of};
ghost use Rattle.book_events.specs.Replies.{Replies, KeepsTicket, HandsOut};
ghost use Rattle.turns.specs.Turns.{ReadsIn, WritesOut};
ghost use Rattle.turns.specs.Tickets.{blocks_in, IsOwn, OwnEvent, OwnReply, OwnTransition, IsHanded};
ghost use Rattle.driver.specs.Desks.{IsSame};
ghost use Rattle.driver.specs.Hits.{HitsWithin};
ghost use Rattle.driver.specs.Traced.{GivesUp};
ghost use Rattle.driver.specs.Hands.{OwnActivity};

use crate::seat::Activity;
use block_store::BlockDevice;
use book::{Book, Event, InTicket, OutTicket, Pass, Reply};
use turns::automaton::spend;
use turns::turn::{Access, Resume, Stage, Transition};

/// One event of the book, by a pass that is current. A ticket that is handed out names a block of swap or of a file. A
/// ticket that comes back is one that was handed back.
pub fn call(book: &mut Book, pass: &mut Pass, event: Event) -> Reply
    requires current { is_current book.old pass.old ≡ true }
    requires room { 0 < pass.old.room }
    requires own { OwnEvent pass.old.caller.worker (blocks_in book.old.state.opening) event }
    ensures called { Called book.old pass.old.caller (event_of event) (reply_of result) book.new }
    ensures gives { HandsOut book.new pass.old.caller.worker result }
    ensures keeps { KeepsTicket pass.old.caller.worker event result }
    ensures replies { Replies event result }
    ensures own { OwnReply pass.old.caller.worker (blocks_in book.old.state.opening) result }
    ensures handed { IsHanded result }
    ensures within { HitsWithin book.old.state.opening.frames result }
    ensures pass { pass.new.caller ≡ pass.old.caller }
    ensures current { is_current book.new pass.new ≡ true }
    ensures room { pass.old.room ≤ pass.new.room + 1 }
    ensures opening { book.new.state.opening ≡ book.old.state.opening }
{
    let reply = book.call(pass, event);
    book.history_is_right();
    reply
}

/// Marks the resident pages in the frames of these bits. This adds no entry to the trace, and the pass keeps nothing of
/// it.
pub fn merge(book: &mut Book, pass: &mut Pass, word: u32, bits: u64)
    requires room { 0 < pass.old.room }
    ensures called { Called book.old pass.old.caller (event.MergeMarks word bits) said.Ok book.new }
    ensures pass { pass.new ≡ pass.old }
    ensures current { is_current book.new pass.old ≡ is_current book.old pass.old }
    ensures opening { book.new.state.opening ≡ book.old.state.opening }
{
    spend(book.call(pass, Event::MergeMarks { word, bits }));
}

/// Reads the ticket's block.
pub fn read_in<D: BlockDevice>(device: &mut D, access: Access, ticket: InTicket) -> Transition
    requires { ticket.block < length (D.disk device.old).contents }
    ensures read { ReadsIn (D.disk device.old) access ticket result (D.disk device.new) }
    ensures own { (worker blocks : ℕ) → IsOwn worker blocks ticket → OwnTransition worker blocks result }
    ensures same { IsSame (D.disk device.old) (D.disk device.new) }
{
    let mut ticket = ticket;
    match ticket.read_from(device) {
        Ok(()) => Transition::Goes(Stage::Arrive(access, ticket)),
        Err(_) => Transition::Goes(Stage::FetchFail(ticket)),
    }
}

/// Writes the ticket's block.
pub fn write_out<D: BlockDevice>(device: &mut D, resume: Resume, ticket: OutTicket) -> Transition
    requires { ticket.block < length (D.disk device.old).contents }
    ensures write { WritesOut (D.disk device.old) resume ticket result (D.disk device.new) }
    ensures own { (worker blocks : ℕ) → IsOwn worker blocks ticket → OwnTransition worker blocks result }
    ensures same { IsSame (D.disk device.old) (D.disk device.new) }
{
    match ticket.write_to(device) {
        Ok(()) => Transition::Goes(Stage::Leave(resume, ticket)),
        Err(_) => Transition::Goes(Stage::LeaveFail(ticket)),
    }
}

/// Ends what an actor is doing. The transfer of a ticket in hand ends as failed.
pub fn give_up(book: &mut Book, pass: &mut Pass, activity: Activity)
    requires current { is_current book.old pass.old ≡ true }
    requires room { 0 < pass.old.room }
    requires own { OwnActivity pass.old.caller.worker (blocks_in book.old.state.opening) activity }
    ensures pass { pass.new.caller ≡ pass.old.caller }
    ensures current { is_current book.new pass.new ≡ true }
    ensures given_up { GivesUp book.old.history book.new.history }
    ensures room { pass.old.room ≤ pass.new.room + 1 }
    ensures opening { book.new.state.opening ≡ book.old.state.opening }
{
    match activity {
        Activity::Rests | Activity::Begun(_) => {}
        Activity::Does(stage) => give_up_stage(book, pass, stage),
    }
}

fn give_up_stage(book: &mut Book, pass: &mut Pass, stage: Stage)
    requires current { is_current book.old pass.old ≡ true }
    requires room { 0 < pass.old.room }
    requires own { OwnActivity pass.old.caller.worker (blocks_in book.old.state.opening) (Activity.Does stage) }
    ensures pass { pass.new.caller ≡ pass.old.caller }
    ensures current { is_current book.new pass.new ≡ true }
    ensures given_up { GivesUp book.old.history book.new.history }
    ensures room { pass.old.room ≤ pass.new.room + 1 }
    ensures opening { book.new.state.opening ≡ book.old.state.opening }
{
    match stage {
        Stage::Read(_, ticket) | Stage::Arrive(_, ticket) | Stage::FetchFail(ticket) => {
            give_in(book, pass, ticket)
        }
        Stage::Write(_, ticket) | Stage::Leave(_, ticket) | Stage::LeaveFail(ticket) => {
            give_out(book, pass, ticket)
        }
        Stage::Try(_) | Stage::MakeRoom(_, _) | Stage::SetMax { group: _, max: _ } => {}
        Stage::Lower(_)
        | Stage::SetGuard {
            group: _,
            guard: _,
            amount: _,
        } => {}
        Stage::SetOomGroup { group: _, flag: _ } => {}
        Stage::Reclaim { group: _, left: _ } | Stage::Watch | Stage::Balance => {}
        Stage::Spawn { task: _, group: _ } | Stage::Fork { task: _, child: _ } => {}
        Stage::Exit(_) | Stage::Free { task: _, page: _ } => {}
        Stage::Attach { task: _, group: _ } => {}
        Stage::Mkdir(_) | Stage::Rmdir(_) | Stage::Show(_) => {}
    }
}

fn give_in(book: &mut Book, pass: &mut Pass, ticket: InTicket)
    requires current { is_current book.old pass.old ≡ true }
    requires room { 0 < pass.old.room }
    requires own { IsOwn pass.old.caller.worker (blocks_in book.old.state.opening) ticket }
    ensures pass { pass.new.caller ≡ pass.old.caller }
    ensures current { is_current book.new pass.new ≡ true }
    ensures given_up { GivesUp book.old.history book.new.history }
    ensures room { pass.old.room ≤ pass.new.room + 1 }
    ensures opening { book.new.state.opening ≡ book.old.state.opening }
{
    match call(book, pass, Event::FetchFailed(ticket)) {
        Reply::StrangeIn(ticket) => ticket.discard(),
        other => spend(other),
    }
}

fn give_out(book: &mut Book, pass: &mut Pass, ticket: OutTicket)
    requires current { is_current book.old pass.old ≡ true }
    requires room { 0 < pass.old.room }
    requires own { IsOwn pass.old.caller.worker (blocks_in book.old.state.opening) ticket }
    ensures pass { pass.new.caller ≡ pass.old.caller }
    ensures current { is_current book.new pass.new ≡ true }
    ensures given_up { GivesUp book.old.history book.new.history }
    ensures room { pass.old.room ≤ pass.new.room + 1 }
    ensures opening { book.new.state.opening ≡ book.old.state.opening }
{
    match call(book, pass, Event::LeaveFailed(ticket)) {
        Reply::StrangeOut(ticket) => ticket.discard(),
        other => spend(other),
    }
}
