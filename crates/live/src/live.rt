//! The book under its lock, the device, and the end of a run.

ghost use Rattle.std.specs.Prelude.{◌≡◌, ◌⊎◌, ℕ, ◌+◌, ◌<◌, ◌≤◌, [], true, false, All, map, MatchBool, is_ok, length, reverse, IfOk, IfErr, OnOk, OnErr, ◌↔◌, vec_capacity};
ghost use Rattle.std.specs.List.{sum_by};
ghost use Rattle.machine.specs.State.{opening_of, is_config};
ghost use Rattle.machine.specs.History.{Honest, Right, Numbered, at_first};
ghost use Rattle.machine.specs.FirstBytes.{first_of};
ghost use Rattle.machine.specs.Audit.{Passes, IsFirstWrong};
ghost use Rattle.machine.specs.Transfers.{transfers_begun, transfers_ended};
ghost use Rattle.book.specs.Passes.{count_of};
ghost use Rattle.turns.specs.Tickets.{blocks_in};
ghost use Rattle.live.specs.Exchanges.{kept_of};
ghost use Rattle.live.specs.Passes.{book_pass};
ghost use Rattle.live.specs.Matching.{Matches, has_share};
ghost use Rattle.live.specs.Reports.{IsLegal, HasOut, IsMissing};
ghost use Rattle.live.specs.OneRun.{IsOneRun, WereGiven};
ghost use Rattle.live.specs.Looks.{EndsLooked};

use crate::hand::First;
use crate::history::Unnamed;
use crate::looks::EndLook;
use crate::opened::Opened;
use crate::pass::Pass;
use crate::report::{Report, Unfinished};
use crate::roll::Roll;
use crate::shared_book::SharedBook;
use crate::shares::has_share;
use block_store::SharedDevice;
use book::Book;
use machine::config::{Config, Placement, Watermarks};
use machine::page_size::PageSize;
use machine::refusal::Refusal;
use std::alloc::{AllocError, Global};
use std::sync::{Condvar, Mutex, Wait};
use trace::audit;

/// A machine that workers share: its book under one lock, and its device, which is called outside the lock.
///
/// `L` says how the machine was opened, and which history has the exchanges of its workers. [`Live::finish`] or
/// [`Live::give_up`] must spend it.
pub struct Live<L: Opened, D: SharedDevice> {
    pub(crate) shared: Mutex<SharedBook<L>>,
    /// The first seat of the marks of frames. Its lock and the book's are never held together.
    pub(crate) first: Mutex<First>,
    /// Notified when a transfer has ended, if a worker waits for that.
    pub(crate) moved: Condvar,
    /// Notified when the daemon has to run.
    pub(crate) low: Condvar,
    /// Its device. The machine does not see a call that is made through this field.
    pub device: D,
    pub(crate) marks: Watermarks,
    pub(crate) placement: Placement,
    pub(crate) page_size: PageSize,
    pub(crate) alloc: Global,
    ghost marked: { marks ≡ L.opening.watermarks },
    ghost placed: { placement ≡ L.opening.placement },
    ghost paged: { page_size.bytes ≡ L.opening.page_size },
    ghost fits: { blocks_in L.opening ≤ D.extent device },
}

impl<L: Opened, D: SharedDevice> Live<L, D> {
    /// A machine without workers, and the roll of its passes. The device has the blocks that the configuration asks
    /// for. The call fails as [`Book::open`] does, and then returns the device.
    pub fn open(
        alloc: Global,
        config: Config,
        device: D,
        unnamed: Unnamed,
    ) -> Result<(Live<L, D>, Roll<L>), (D, Refusal)>
        requires named { unnamed ≡ L.table }
        requires opened { opening_of config ≡ L.opening }
        requires fits { blocks_in L.opening ≤ D.extent device }
        ensures none { IfOk result (λ r. r.1 ≡ record { given = 0 }) }
        ensures device { IfOk result (λ r. r.0.device ≡ device) }
        ensures err { IfErr result (λ e. (e.1 ≡ Refusal.Invalid) × (is_config config ≡ false) ⊎ (e.1 ≡ Refusal.NoMemory) × (is_config config ≡ true)) }
        ensures back { IfErr result (λ e. e.0 ≡ device) }
    {
        let marks = config.watermarks;
        let placement = config.placement;
        let page_size = config.page_size;
        let frames = config.frames;
        let book = match Book::open(alloc, config) {
            Err(cause) => return Err((device, cause)),
            Ok(book) => book,
        };
        match First::open(alloc, frames) {
            Err(AllocError) => {
                let _ = book.close();
                Err((device, Refusal::NoMemory))
            }
            Ok(first) => {
                let (log, front) = unnamed.named();
                let live = Live {
                    shared: Mutex::new(SharedBook::new(alloc, book, log)),
                    first: Mutex::new(first),
                    moved: Condvar::new(),
                    low: Condvar::new(),
                    device,
                    marks,
                    placement,
                    page_size,
                    alloc,
                };
                Ok((live, Roll::new(front)))
            }
        }
    }

    /// How many bytes a page stands for in amounts and texts, as the configuration says.
    pub fn page_size(&self) -> PageSize
        ensures { result.bytes ≡ L.opening.page_size }
    {
        self.page_size
    }

    /// A pass for another worker, which the roll counts. `NoSpace` if 131,072 passes were given out. Otherwise
    /// `NoMemory` if memory is refused.
    pub fn pass<R: Wait>(&self, rt: &R, roll: &mut Roll<L>) -> Result<Pass<L>, Refusal>
        ensures kept { IfOk result (λ pass. pass.kept ≡ []) }
        ensures exchanges { IfOk result (λ pass. pass.exchanges ≡ []) }
        ensures worker { IfOk result (λ pass. pass.caller.worker ≡ roll.old.given) }
        ensures counted { OnOk result (roll.new ≡ record { given = roll.old.given + 1 }) }
        ensures unchanged { OnErr result (roll.new ≡ roll.old) }
        ensures err { IfErr result (λ cause. (cause ≡ Refusal.NoSpace) × (131072 ≤ roll.old.given) ⊎ (cause ≡ Refusal.NoMemory) × (roll.old.given < 131072)) }
    {
        self.shared.lock(rt).pass(roll)
    }

    /// Makes the daemon end, after it has run once more.
    pub fn stop<R: Wait>(&self, rt: &R) {
        self.shared.lock(rt).stop();
        self.low.notify_all();
    }
}

/// Whether one of the passes began a transfer that it did not end.
fn has_out<L: Opened>(passes: &[Pass<L>]) -> bool
    ensures out { MatchBool result (HasOut passes.now) (All (λ p. has_share p.kept ≡ false) passes.now) }
    ensures whole { result ≡ false → All (λ p. map kept_of p.exchanges ≡ p.kept) passes.now }
{
    for pass in passes {
        if has_share(pass.kept()) {
            return true;
        }
    }
    false
}

impl<L: Opened, D: SharedDevice + Drop> Live<L, D> {
    /// Ends the run if each pass is handed in and none has a ticket out. Returns what the workers did, with its
    /// audit.
    ///
    /// Otherwise `PassMissing`, with the number of passes that were given out, and everything is returned.
    pub fn finish(
        self,
        passes: Vec<Pass<L>>,
        roll: Roll<L>,
    ) -> Result<Report<D>, (Live<L, D>, Vec<Pass<L>>, Unfinished, Roll<L>)>
        ensures count { IfOk result (λ r. length passes.items ≡ roll.given) }
        ensures one_run { IfOk result (λ r. IsOneRun L.opening r.trace.entries passes.items) }
        ensures each { IfOk result (λ r. All (λ p. WereGiven L.opening (reverse r.trace.entries) p.caller.worker p.exchanges) passes.items) }
        ensures legal { IfOk result (λ r. IsLegal L.opening (reverse r.trace.entries)) }
        ensures right { IfOk result (λ r. (files : ℕ → ℕ → ℕ → ℕ) → Honest (at_first files) (reverse r.trace.entries) → Right (at_first files) (reverse r.trace.entries)) }
        ensures numbered { IfOk result (λ r. Numbered (reverse r.trace.entries)) }
        ensures entries { IfOk result (λ r. length r.trace.entries ≡ sum_by (λ p. count_of p.kept) passes.items) }
        ensures always { IfOk result (λ r. r.replies_match ≡ true) }
        ensures matches { IfOk result (λ r. MatchBool r.replies_match (Matches r.trace.entries passes.items) (Matches r.trace.entries passes.items → ⊥)) }
        ensures at_rest { IfOk result (λ r. r.replies_match ≡ true → transfers_begun (reverse r.trace.entries) ≡ transfers_ended (reverse r.trace.entries)) }
        ensures audited { IfOk result (λ r. let history = reverse r.trace.entries in is_ok r.audit ≡ true ↔ Passes (first_of history) history) }
        ensures first { IfOk result (λ r. IfErr r.audit (λ first. IsFirstWrong r.trace.entries first.entry)) }
        ensures whole { IfOk result (λ r. All (λ p. map kept_of p.exchanges ≡ p.kept) passes.items) }
        ensures all { IfOk result (λ r. All (λ p. has_share p.kept ≡ false) passes.items) }
        ensures passes { IfOk result (λ r. r.passes.items ≡ map book_pass passes.items) }
        ensures device { IfOk result (λ r. r.device ≡ self.device) }
        ensures missing { IfErr result (λ e. IsMissing passes.items e.2) }
        ensures given { IfErr result (λ e. e.2 ≡ Unfinished.PassMissing roll.given) }
        ensures back { IfErr result (λ e. e.1.items ≡ passes.items) }
        ensures roll { IfErr result (λ e. e.3 ≡ roll) }
    {
        let room = Vec::new(self.alloc);
        match self.finish_with_looks(passes, roll, &[], room) {
            Ok((report, _looks)) => Ok(report),
            Err(back) => Err(back),
        }
    }

    /// Ends the run as [`Live::finish`] does. Also returns what the groups of these paths are at the end, in the room
    /// for that. It is `None` for a path that no group has. The looks leave no entry in the trace.
    pub fn finish_with_looks(
        self,
        passes: Vec<Pass<L>>,
        roll: Roll<L>,
        paths: &[&str],
        room: Vec<Option<EndLook>>,
    ) -> Result<(Report<D>, Vec<Option<EndLook>>), (Live<L, D>, Vec<Pass<L>>, Unfinished, Roll<L>)>
        requires none { room.items ≡ [] }
        requires room { length paths.now ≤ vec_capacity room }
        // One run of the machine told the workers all that they were told, and the looks are at the state that it led to.
        ensures looked { IfOk result (λ r. EndsLooked L.opening r.0.trace.entries passes.items (map (λ p. p.now) paths.now) r.1.items) }
        ensures count { IfOk result (λ r. length passes.items ≡ roll.given) }
        ensures one_run { IfOk result (λ r. IsOneRun L.opening r.0.trace.entries passes.items) }
        ensures each { IfOk result (λ r. All (λ p. WereGiven L.opening (reverse r.0.trace.entries) p.caller.worker p.exchanges) passes.items) }
        ensures legal { IfOk result (λ r. IsLegal L.opening (reverse r.0.trace.entries)) }
        ensures right { IfOk result (λ r. (files : ℕ → ℕ → ℕ → ℕ) → Honest (at_first files) (reverse r.0.trace.entries) → Right (at_first files) (reverse r.0.trace.entries)) }
        ensures numbered { IfOk result (λ r. Numbered (reverse r.0.trace.entries)) }
        ensures entries { IfOk result (λ r. length r.0.trace.entries ≡ sum_by (λ p. count_of p.kept) passes.items) }
        ensures always { IfOk result (λ r. r.0.replies_match ≡ true) }
        ensures matches { IfOk result (λ r. MatchBool r.0.replies_match (Matches r.0.trace.entries passes.items) (Matches r.0.trace.entries passes.items → ⊥)) }
        ensures at_rest { IfOk result (λ r. r.0.replies_match ≡ true → transfers_begun (reverse r.0.trace.entries) ≡ transfers_ended (reverse r.0.trace.entries)) }
        ensures audited { IfOk result (λ r. let history = reverse r.0.trace.entries in is_ok r.0.audit ≡ true ↔ Passes (first_of history) history) }
        ensures first { IfOk result (λ r. IfErr r.0.audit (λ first. IsFirstWrong r.0.trace.entries first.entry)) }
        ensures whole { IfOk result (λ r. All (λ p. map kept_of p.exchanges ≡ p.kept) passes.items) }
        ensures all { IfOk result (λ r. All (λ p. has_share p.kept ≡ false) passes.items) }
        ensures passes { IfOk result (λ r. r.0.passes.items ≡ map book_pass passes.items) }
        ensures device { IfOk result (λ r. r.0.device ≡ self.device) }
        ensures missing { IfErr result (λ e. IsMissing passes.items e.2) }
        ensures given { IfErr result (λ e. e.2 ≡ Unfinished.PassMissing roll.given) }
        ensures back { IfErr result (λ e. e.1.items ≡ passes.items) }
        ensures roll { IfErr result (λ e. e.3 ≡ roll) }
    {
        let given = roll.given();
        if passes.len() < given as usize || has_out(passes.as_slice()) {
            return Err((self, passes, Unfinished::PassMissing(given), roll));
        }
        let Live {
            shared,
            first: _,
            moved: _,
            low: _,
            device,
            marks: _,
            placement: _,
            page_size: _,
            alloc: _,
        } = self;
        let (trace, passes, looks) = shared.into_inner().settle(passes, roll, paths, room);
        let audit = audit(&trace);
        let report = Report {
            trace,
            replies_match: true,
            audit,
            passes,
            device,
        };
        Ok((report, looks))
    }

    /// Ends everything, without a report.
    pub fn give_up(self, roll: Roll<L>) {
        let Live {
            shared,
            first: _,
            moved: _,
            low: _,
            device: _,
            marks: _,
            placement: _,
            page_size: _,
            alloc: _,
        } = self;
        let _trace = shared.into_inner().close();
        let _front = roll.into_front();
    }
}
