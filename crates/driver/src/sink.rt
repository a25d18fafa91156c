//! The receivers of a run's answers.

ghost use Rattle.std.specs.Prelude.{◌≡◌, ◌++◌, ◌∷◌, [], List, OnOk, OnErr};
ghost use Rattle.machine.specs.declared.command.Reply.{Reply as Told_by};
ghost use Rattle.machine.specs.Call.{Past};

use book::Book;
use machine::command::Reply;
use machine::event::Cause;
use machine::id::TicketId;
use machine::record::Direction;
use machine::refusal::Refusal;
use std::alloc::AllocError;

/// The sink takes no more answers. It knows the reason itself.
#[derive(Clone, Copy)]
pub struct Closed;

/// A call of the device that failed.
#[derive(Clone, Copy)]
pub struct FailedCall {
    /// `In` if a block could not be read, `Out` if it could not be written.
    pub direction: Direction,
    /// The ticket of the page's transfer.
    pub ticket: TicketId,
    /// The block, counted over the whole device. The first ones are the swap blocks.
    pub block: u32,
}

/// Takes the answers of a run, each as it comes: a list keeps them, a writer prints them. It may look at the book
/// between two steps, before a relief, which may kill a task, and before the end of a transfer that failed.
pub trait Sink {
    /// From the first state to the second, it took these answers, in this order, and no other.
    ghost took: { Self → Self → List Told_by → Type 0 };

    /// From the first state to the second, it took no answer, though it may have begun to take the first of these.
    ghost failed: { Self → Self → List Told_by → Type 0 };

    /// From the first state to the second, [`Sink::look`] showed it books with these pasts, in this order, and no
    /// other.
    ghost saw: { Self → Self → List Past → Type 0 };

    /// Takes an answer to the step at this place in the list of steps; the first is at 0. `Closed` if it could not take
    /// the answer. It gets no other answer then.
    fn take(&mut self, step: usize, reply: Reply) -> Result<(), Closed>
        ensures took { OnOk result (took self.old self.new (reply ∷ [])) }
        ensures failed { OnErr result (failed self.old self.new (reply ∷ [])) }
        ensures unseen { saw self.old self.new [] };

    /// Sees the book as it is after the step at this place.
    fn look(&mut self, step: usize, book: &Book)
        ensures saw { saw self.old self.new (book.now ∷ []) }
        ensures quiet { took self.old self.new [] };

    /// Sees the book, and why room is needed, before a turn of that step asks for relief, which may kill a task. No
    /// clause says that this happens.
    fn see_relief(&mut self, step: usize, book: &Book, cause: Cause)
        ensures unseen { saw self.old self.new [] }
        ensures quiet { took self.old self.new [] };

    /// Sees the book before a turn of that step reports this failed call. The page is still in transfer, and the answer
    /// of the turn is `EIO`. No clause says that this happens.
    fn see_failure(&mut self, step: usize, book: &Book, call: FailedCall)
        ensures unseen { saw self.old self.new [] }
        ensures quiet { took self.old self.new [] };

    ghost nothing: { (s : Self) → took s s [] };

    ghost more: { (a b c : Self) (xs ys : List Told_by) → took a b xs → took b c ys → took a c (xs ++ ys) };

    ghost stays: { (s : Self) → failed s s [] };

    ghost unseen: { (s : Self) → saw s s [] };

    ghost further: { (a b c : Self) (ps qs : List Past) → saw a b ps → saw b c qs → saw a c (ps ++ qs) };
}

/// Keeps the answers in their order, and is closed if memory is refused.
impl Sink for Vec<Reply> {
    ghost use Rattle.std.proofs.Common.{refl, sym, ap, ◌∙◌, append_assoc, append-nil};

    ghost took = { λ a b xs. b.items ≡ a.items ++ xs };

    ghost failed = { λ a b begun. b.items ≡ a.items };

    ghost saw = { λ a b pasts. Unit {0} };

    fn take(&mut self, _step: usize, reply: Reply) -> Result<(), Closed> {
        self.push(reply).map_err(|_| Closed)
    }

    fn look(&mut self, _step: usize, _book: &Book) {}

    fn see_relief(&mut self, _step: usize, _book: &Book, _cause: Cause) {}

    fn see_failure(&mut self, _step: usize, _book: &Book, _call: FailedCall) {}

    ghost nothing = { λ s. sym (append-nil s.items) };

    ghost more = { λ a b c xs ys first second. second ∙ (ap (λ (rs : List Told_by). rs ++ ys) first ∙ append_assoc a.items xs ys) };

    ghost stays = { λ s. refl };

    ghost unseen = { λ s. tt };

    ghost further = { λ a b c ps qs first second. tt };
}

/// Why a run was cut short.
#[derive(Clone, Copy, PartialEq, Eq)]
pub enum Cut {
    /// Memory was refused, and no command answered with that refusal.
    NoMemory,
    /// The sink took no more answers.
    Closed,
}

impl From<AllocError> for Cut {
    fn from(_: AllocError) -> Cut {
        Cut::NoMemory
    }
}

impl From<Closed> for Cut {
    fn from(_: Closed) -> Cut {
        Cut::Closed
    }
}

/// Why a run into a sink failed.
#[derive(Clone, Copy)]
pub enum Stop {
    /// As [`crate::run`]: the configuration is out of its limits, the device has too few blocks, or memory was refused.
    Refused(Refusal),
    /// The sink took no more answers.
    Closed,
}
