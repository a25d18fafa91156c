//! One history of what all workers asked and were answered, and seats that know it. It exists only in the proofs:
//! at run time it is one word, which never changes.

ghost use Rattle.std.specs.Prelude.{◌≡◌, ◌++◌, ◌+◌, ◌<◌, ◌≤◌, [], IfOk, length};
ghost use Rattle.live.specs.Told.{told_to, telling};
ghost use Rattle.live.specs.Rules.{of_worker, of_roll, of_book, joined, exchanges_in, new_of, IsAll};

use atomic_table::{Join, Play, Seat, Split, Table, TableRule};
use book::Pass;
use machine::event::Event;
use machine::id::GroupId;
use machine::reply::Reply;
use machine::text::Text;
use std::alloc::{AllocError, Global};
use std::collections::LinkedList;
use std::marker::{Brand, Model, PhantomData};

/// One request of a worker to the machine, and its answer, with all bytes. The program makes no value of this type,
/// nor of the three types below.
pub enum Exchange {
    /// An event and its answer, even a refusal.
    Call { event: Event, said: Reply },
    /// A path that was looked up, and the group that it names, if there is one.
    Find { path: Text, found: Option<GroupId> },
}

/// One exchange, and its worker.
pub struct Told {
    pub worker: u32,
    pub what: Exchange,
}

/// A worker's exchanges, the oldest first.
pub struct Row {
    pub worker: u32,
    pub exchanges: LinkedList<Exchange>,
}

/// What a seat knows.
pub struct View {
    /// 1 if this is the book's seat, which knows the whole history.
    pub books: u32,
    /// 1 if this is the roll's seat.
    pub rolls: u32,
    /// How many passes were given out, if this is the book's seat.
    pub given: u32,
    /// The same, if this is the roll's seat.
    pub rolled: u32,
    /// The history, the newest first.
    pub log: LinkedList<Told>,
    /// The exchanges of some workers, a row for each.
    pub rows: LinkedList<Row>,
}

/// What holds of all seats between any two steps.
struct Fair;

impl TableRule<Pass, View, ()> for Fair {
    ghost use Rattle.live.specs.Rules.{IsKept, first_view};

    ghost holds = { λ _. IsKept };

    ghost first = { λ _. first_view };
}

/// For the proof alone: the events that were asked with a pass since its seat last noted them. A pass keeps an
/// arrival without its bytes. The caller, who has the event, says what it was.
pub(crate) trait Asked {
    ghost use Rattle.std.specs.Prelude.{List};
    ghost use Rattle.machine.specs.declared.event.Event.{Event};

    ghost events: { List Event };
}

/// A caller with `Brand` picks them in the proof of the call.
impl Asked for Brand {
    ghost use Rattle.std.specs.Prelude.{[]};

    ghost events = { [] };
}

/// Paths were looked up, and no event was asked.
pub(crate) struct Paths;

impl Asked for Paths {
    ghost use Rattle.std.specs.Prelude.{[]};

    ghost events = { [] };
}

struct Noting<A: Asked> {
    of: PhantomData<A>,
}

impl<A: Asked> Play<Pass, View> for Noting<A> {
    ghost use Rattle.live.specs.Rules.{Notes};

    ghost then = { Notes A.events };
}

struct Giving;

impl Play<Pass, View> for Giving {
    ghost use Rattle.live.specs.Rules.{GivesOut};

    ghost then = { GivesOut };
}

struct Learning;

impl Play<Pass, View> for Learning {
    ghost use Rattle.live.specs.Rules.{Learns};

    ghost then = { Learns };
}

struct Rows;

impl Split<View> for Rows {
    ghost use Rattle.live.specs.Rules.{without_rows, rows_alone};

    ghost left = { without_rows };

    ghost right = { rows_alone };
}

impl Join<View> for Rows {
    ghost use Rattle.live.specs.Rules.{joined, blank};

    ghost both = { joined };

    ghost spent = { blank };
}

struct Rolls;

impl Split<View> for Rolls {
    ghost use Rattle.live.specs.Rules.{without_roll, roll_alone};

    ghost left = { without_roll };

    ghost right = { roll_alone };
}

/// A seat of the history.
pub(crate) type Front = Seat<Pass, View>;

/// The whole history, which is kept under the lock.
#[derive(Drop)]
pub(crate) struct Log {
    table: Table<Pass, View, (), Fair, Global>,
    seat: Front,
}

impl Model for Log {
    ghost use Rattle.std.specs.Prelude.{◌≡◌, []};
    ghost use Rattle.live.specs.Logs.{LogOf};

    ghost Value = { LogOf };

    ghost use Rattle.live.specs.Rules.{of_book};

    ghost view = { λ l. record { table = l.table.shared.table_id; given = l.seat.me.0.given; log = l.seat.me.0.log } };

    ghost invariant = { λ l. (l.seat.table_id ≡ l.table.shared.table_id) × (l.table.shared.table_id.words ≡ 1) × (l.seat.me ≡ (of_book l.seat.me.0.given l.seat.me.0.log, [])) };
}

/// The whole history at its end, with all that the returned seats knew.
#[derive(Drop)]
pub(crate) struct Ending {
    table: Table<Pass, View, (), Fair, Global>,
    seat: Front,
}

impl Model for Ending {
    ghost use Rattle.std.specs.Prelude.{◌≡◌, []};
    ghost use Rattle.live.specs.Logs.{EndingOf};

    ghost Value = { EndingOf };

    ghost view = { λ e. record { table = e.table.shared.table_id; view = e.seat.me.0 } };

    ghost invariant = { λ e. (e.seat.table_id ≡ e.table.shared.table_id) × (e.table.shared.table_id.words ≡ 1) × (e.seat.me.1 ≡ []) × (e.seat.me.0.books ≡ 1) };
}

/// A history without exchanges, which has no name yet.
#[derive(Drop)]
pub struct Unnamed {
    log: Log,
    roll: Front,
}

impl Model for Unnamed {
    ghost use Rattle.std.specs.Prelude.{◌≡◌, []};
    ghost use Rattle.live.specs.Rules.{of_roll};
    ghost use Rattle.atomic_table.specs.Seated.{TableId};

    ghost Value = { TableId };

    ghost view = { λ u. u.log.table };

    ghost invariant = { λ u. (u.log.given ≡ 0) × (u.log.log ≡ []) × (u.roll.table_id ≡ u.log.table) × (u.roll.me ≡ (of_roll 0, [])) };
}

impl Unnamed {
    pub fn new(alloc: Global) -> Result<Unnamed, AllocError> {
        let (table, mut seat) = Table::of_words(alloc, &[0u64], &())?;
        let roll = table.shared.split_seat::<Rolls>(&mut seat);
        Ok(Unnamed {
            log: Log { table, seat },
            roll,
        })
    }

    pub(crate) fn named(self) -> (Log, Front)
        ensures log { (result.0.table ≡ self) × (result.0.given ≡ 0) × (result.0.log ≡ []) }
        ensures roll { (result.1.table_id ≡ self) × (result.1.me ≡ (of_roll 0, [])) }
    {
        let Unnamed { log, roll } = self;
        (log, roll)
    }
}

impl Log {
    /// Gives out another pass, to the next worker, who has no exchanges yet.
    pub(crate) fn give_out(&mut self, roll: &mut Front, count: u32) -> Front
        requires of_these { roll.old.table_id ≡ self.old.table }
        requires roll { roll.old.me ≡ (of_roll count, []) }
        ensures log { self.new ≡ record self.old { given = self.old.given + 1 } }
        ensures same { count ≡ self.old.given }
        ensures front { (result.table_id ≡ self.old.table) × (result.me ≡ (of_worker count [], [])) }
        ensures roll { (roll.new.table_id ≡ self.old.table) × (roll.new.me ≡ (of_roll (count + 1), [])) }
    {
        let table = &self.table;
        let mine = table.shared.split_seat::<Rolls>(roll);
        table.shared.join_seat::<Rows>(&mut self.seat, mine);
        table.shared.load::<Giving>(&mut self.seat, 0);
        let front = table.shared.split_seat::<Rows>(&mut self.seat);
        *roll = table.shared.split_seat::<Rolls>(&mut self.seat);
        front
    }

    /// The roll has counted the passes that were given out. Nothing changes.
    pub(crate) fn agree(&mut self, roll: &mut Front, count: u32)
        requires of_these { roll.old.table_id ≡ self.old.table }
        requires roll { roll.old.me ≡ (of_roll count, []) }
        ensures log { self.new ≡ self.old }
        ensures same { count ≡ self.old.given }
        ensures roll { (roll.new.table_id ≡ self.old.table) × (roll.new.me ≡ (of_roll count, [])) }
    {
        let table = &self.table;
        let mine = table.shared.split_seat::<Rolls>(roll);
        table.shared.join_seat::<Rows>(&mut self.seat, mine);
        table.shared.load::<Learning>(&mut self.seat, 0);
        *roll = table.shared.split_seat::<Rolls>(&mut self.seat);
    }

    /// Adds a worker's new exchanges. `pass` is its pass now, and `A` has the events that were asked with it.
    pub(crate) fn note<A: Asked>(&mut self, front: &mut Front, pass: &Pass)
        requires of_these { front.old.table_id ≡ self.old.table }
        requires of_worker { front.old.me ≡ (of_worker pass.now.caller.worker (exchanges_in front.old.me.0.rows), []) }
        ensures log { self.new ≡ record self.old { log = telling pass.now.caller.worker (new_of A.events (exchanges_in front.old.me.0.rows) pass.now.kept) self.old.log } }
        ensures known { exchanges_in front.old.me.0.rows ≡ told_to pass.now.caller.worker self.old.log }
        ensures given { pass.now.caller.worker < self.old.given }
        ensures front { (front.new.table_id ≡ self.old.table) × (front.new.me ≡ (of_worker pass.now.caller.worker (exchanges_in front.old.me.0.rows ++ new_of A.events (exchanges_in front.old.me.0.rows) pass.now.kept), [])) }
    {
        let table = &self.table;
        let mine = table.shared.split_seat::<Rows>(front);
        table.shared.join_seat::<Rows>(&mut self.seat, mine);
        table
            .shared
            .compare_exchange_with::<Noting<A>>(&mut self.seat, 0, 0, 0, pass);
        *front = table.shared.split_seat::<Rows>(&mut self.seat);
    }

    /// The end begins: the roll is handed in.
    pub(crate) fn end(self, roll: Front, count: u32) -> Ending
        requires of_these { roll.table_id ≡ self.table }
        requires roll { roll.me ≡ (of_roll count, []) }
        ensures { result ≡ record { table = self.table; view = joined (of_book self.given self.log) (of_roll count) } }
    {
        let Log { table, mut seat } = self;
        table.shared.join_seat::<Rows>(&mut seat, roll);
        Ending { table, seat }
    }
}

impl Ending {
    /// A worker's seat is handed in.
    pub(crate) fn take(&mut self, front: Front)
        requires of_these { front.table_id ≡ self.old.table }
        requires plain { front.me.1 ≡ [] }
        requires one { (front.me.0.books ≡ 0) × (front.me.0.rolls ≡ 0) }
        requires roll { self.old.view.rolls ≡ 1 }
        ensures taken { self.new ≡ record self.old { view = joined self.old.view front.me.0 } }
        ensures few { length self.new.view.rows ≤ self.new.view.given }
    {
        let table = &self.table;
        table.shared.join_seat::<Rows>(&mut self.seat, front);
        table.shared.load::<Learning>(&mut self.seat, 0);
    }

    /// What the history contains of the workers whose seats were handed in.
    pub(crate) fn close(self)
        requires roll { self.view.rolls ≡ 1 }
        ensures { IsAll self.view }
    {
        let Ending { table, mut seat } = self;
        table.shared.load::<Learning>(&mut seat, 0);
    }
}
