//! A machine that is run once for each order.

ghost use Rattle.std.specs.Prelude.{◌≡◌, ◌<◌, ◌^◌, [], true, length, List, IfOk, OnOk};
ghost use Rattle.std.specs.Option.{option_map};
ghost use Rattle.std.specs.String.{string_bytes};
ghost use Rattle.orders.specs.Runs.{Run};
ghost use Rattle.machine.specs.State.{is_config};
ghost use Rattle.driver.specs.Schedule.{first_world, fits};
ghost use Rattle.explorer.specs.Outcome.{disk_of, choice_in};
ghost use Rattle.explorer.specs.Tally.{IsAdded};
ghost use Rattle.explorer.specs.Explored.{findings, Explored, Sampled};
ghost use Rattle.explorer.specs.Explorers.{Starts, LooksAt, IsAt, Gathers, IsHandedOn, eligible_now};
ghost use Rattle.explorer.specs.Turns.{Keeps};

use crate::choice::Choice;
use crate::copies::copy_of_config;
use crate::outcome::kept_outcome;
use crate::parts::Parts;
use crate::plan::{all_go_on, carry_out, eligible_of, take_turn};
use crate::table::Table;
use block_store::MemDevice;
use driver::Stepper;
use files::blocks_for;
use machine::command::{Reply, Step};
use orders::Fault;
use std::alloc::{AllocError, Global};
use std::mem;
use walks::{Machine, Walk, walk_all, walk_some};

/// A new run of the machine, before its first step.
pub fn open_run(alloc: Global, parts: &Parts) -> Result<Stepper<MemDevice>, AllocError>
    requires { is_config parts.now.config ≡ true }
    ensures opens { IfOk result (λ run. run ≡ first_world parts.now.config (disk_of parts.now)) }
    ensures sized { OnOk result (fits parts.now.config (disk_of parts.now) ≡ true) }
{
    let config = copy_of_config(alloc, &parts.config)?;
    let Some(blocks) = blocks_for(&config) else {
        unreachable!()
    };
    let device = MemDevice::new(alloc, blocks, &parts.read_faults, &parts.write_faults)?;
    match Stepper::open(alloc, config, device) {
        Ok(run) => Ok(run),
        // Over a device that has the blocks, opening fails only if memory runs out.
        Err(_) => Err(AllocError),
    }
}

/// Ends a run, if there is one.
pub fn close_run(run: Option<Stepper<MemDevice>>) {
    match run {
        None => {}
        Some(run) => {
            let _ = run.close();
        }
    }
}

/// The setup. Then each actor begins its first line.
fn begin_run(
    run: &mut Stepper<MemDevice>,
    parts: &Parts,
    begun: &mut Vec<usize>,
    said: &mut Vec<Reply>,
) -> Result<(), AllocError>
    requires { length begun.old.items ≡ length parts.now.rows.items }
    ensures starts { OnOk result (Starts parts.now run.old begun.new.items said.new.items run.new) }
    ensures counted { length begun.new.items ≡ length begun.old.items }
{
    carry_out(run, &parts.setup, said)?;
    said.clear();
    begun.fill(0);
    all_go_on(run, &parts.rows, begun, said)
}

/// Carries out the looks, and ends the run.
fn look(run: Stepper<MemDevice>, looks: &[Step], looked: &mut Vec<Reply>) -> Result<(), AllocError>
    ensures { OnOk result (LooksAt run looks.now looked.old.items looked.new.items) }
{
    let mut run = run;
    let result = carry_out(&mut run, looks, looked);
    let _ = run.close();
    result
}

/// Counts an order, by its outcome if it has one, and otherwise as one that is left out.
fn count(
    table: &mut Table,
    left_out: &mut u64,
    outcome: Option<String>,
    path: &[u32],
) -> Result<(), AllocError>
    ensures { OnOk result (IsAdded (option_map string_bytes outcome) path.now table.old left_out.old table.new left_out.new) }
{
    match outcome {
        Some(outcome) => table.add(outcome, path),
        None => {
            // No exploration has 2^64 orders.
            let Some(more) = left_out.checked_add(1) else {
                return Err(AllocError);
            };
            *left_out = more;
            Ok(())
        }
    }
}

/// A machine that is run once for each order of its actors' turns. It counts the outcomes.
///
/// It must be spent, by [`Explorer::close`].
#[must_use]
struct Explorer<'p> {
    alloc: Global,
    parts: &'p Parts,
    /// Who can take the next turn.
    choice: Choice,
    /// Whether commands wait for the end of a transfer.
    waits: bool,
    /// The current order's run.
    run: Option<Stepper<MemDevice>>,
    /// For each row, how many of its lines were begun.
    begun: Vec<usize>,
    /// What was answered in the work.
    said: Vec<Reply>,
    /// The actors that took the turns.
    path: Vec<u32>,
    table: Table,
    /// How many orders are left out so far.
    left_out: u64,
    /// The number of turns of the shortest order so far.
    shortest: usize,
    /// That of the longest.
    longest: usize,
    ghost limits: { is_config parts.now.config ≡ true },
    ghost few: { length parts.now.rows.items < 2 ^ 32 },
    ghost counted: { length begun.items ≡ length parts.now.rows.items },
}

impl<'p> Explorer<'p> {
    /// Nothing was run yet.
    fn new(alloc: Global, parts: &'p Parts, choice: Choice, waits: bool) -> Result<Self, AllocError>
        requires limits { is_config parts.now.config ≡ true }
        requires few { length parts.now.rows.items < 2 ^ 32 }
        ensures parts { IfOk result (λ new. new.parts.now ≡ parts.now) }
        ensures choice { IfOk result (λ new. new.choice ≡ choice) }
        ensures waits { IfOk result (λ new. new.waits ≡ waits) }
        ensures table { IfOk result (λ new. new.table ≡ []) }
        ensures left_out { IfOk result (λ new. new.left_out ≡ 0) }
        ensures turns { IfOk result (λ new. Keeps [] new.shortest new.longest) }
    {
        let mut begun = Vec::new(alloc);
        begun.resize(parts.rows.len(), 0)?;
        Ok(Explorer {
            alloc,
            parts,
            choice,
            waits,
            run: None,
            begun,
            said: Vec::new(alloc),
            path: Vec::new(alloc),
            table: Table::new(alloc),
            left_out: 0,
            shortest: usize::MAX,
            longest: 0,
        })
    }

    /// What was found, if the walk did not fail.
    fn close<E: Drop>(self, walked: Result<Walk, E>) -> Result<Exploration, E>
        ensures { IfOk result (IsHandedOn walked self.entry.table self.entry.left_out self.entry.shortest self.entry.longest) }
    {
        let Explorer {
            alloc: _,
            parts: _,
            choice: _,
            waits: _,
            run,
            begun: _,
            said: _,
            path: _,
            table,
            left_out,
            shortest,
            longest,
        } = self;
        close_run(run);
        match walked {
            Ok(walk) => Ok(Exploration {
                walk,
                table,
                left_out,
                shortest,
                longest,
            }),
            Err(error) => Err(error),
        }
    }
}

impl<'p> Machine for Explorer<'p> {
    ghost came = { λ m run. IsAt m.run m.choice m.parts.now run m.begun.items m.said.items m.path.items };

    ghost may = { λ m ready. ready ≡ eligible_now m.run m.choice m.parts.now.rows.items };

    ghost gathered = { λ m runs. Gathers m.choice m.parts.now m.waits runs m.table m.left_out m.shortest m.longest };

    ghost stays = { λ a b. (b.parts.now ≡ a.parts.now) × (b.choice ≡ a.choice) × (b.waits ≡ a.waits) };

    fn begin(&mut self) -> Result<(), AllocError> {
        let mut run = open_run(self.alloc, self.parts)?;
        let begun = begin_run(&mut run, self.parts, &mut self.begun, &mut self.said);
        close_run(mem::replace(&mut self.run, Some(run)));
        self.path.clear();
        begun
    }

    fn ready(&self, alloc: Global) -> Result<Vec<u32>, AllocError> {
        match &self.run {
            Some(run) => eligible_of(alloc, self.choice, run, &self.parts.rows),
            None => Ok(Vec::new(alloc)),
        }
    }

    fn turn(&mut self, _ready: &[u32], who: u32) -> Result<(), AllocError> {
        match &mut self.run {
            Some(run) => {
                let rows = &self.parts.rows;
                take_turn(run, rows, &mut self.begun, who as usize, &mut self.said)?;
            }
            None => unreachable!(),
        }
        self.path.push(who)?;
        Ok(())
    }

    fn end(&mut self) -> Result<(), AllocError> {
        let Some(run) = self.run.take() else {
            return Err(AllocError);
        };
        let mut looked = Vec::new(self.alloc);
        look(run, &self.parts.looks, &mut looked)?;
        let rows = &self.parts.rows;
        let outcome = kept_outcome(self.alloc, self.waits, rows, &self.said, &looked)?;
        count(&mut self.table, &mut self.left_out, outcome, &self.path)?;
        let turns = self.path.len();
        self.shortest = self.shortest.min(turns);
        self.longest = self.longest.max(turns);
        Ok(())
    }

    ghost use Rattle.std.proofs.Common.{refl, ◌∙◌};

    ghost same = { λ m. (refl, refl, refl) };

    ghost further = { λ a b c first second. (second.0 ∙ first.0, second.1 ∙ first.1, second.2 ∙ first.2) };
}

/// What was found of the orders.
#[derive(Drop)]
pub struct Exploration {
    pub walk: Walk,
    /// The outcomes of the orders that are not left out.
    pub table: Table,
    /// How many orders are left out.
    pub left_out: u64,
    /// The number of turns of the shortest order.
    pub shortest: usize,
    /// That of the longest.
    pub longest: usize,
}

/// Runs the machine once for each order of the work: at most `orders` orders, each of at most `turns` turns. Each order
/// begins with a new machine. The choice says which orders these are. If a call of the device can fail, they are all,
/// whatever the choice.
///
/// If commands wait, an order in which one meets a page in transfer is run and left out: it has no outcome. As the turn at
/// which it meets the page changes nothing else, the others have all outcomes of a machine in which it waits there for the
/// end of the transfer.
///
/// It fails if memory runs out, or with `Changed` if other actors were ready than before after the same turns.
pub fn explore(
    alloc: Global,
    parts: &Parts,
    choice: Choice,
    waits: bool,
    turns: u32,
    orders: u64,
) -> Result<Exploration, Fault>
    requires limits { is_config parts.now.config ≡ true }
    requires few { length parts.now.rows.items < 2 ^ 32 }
    ensures { IfOk result (λ found. Explored (choice_in parts.now choice) parts.now waits turns orders found.walk (findings found)) }
{
    let mut explorer = Explorer::new(alloc, parts, parts.choice(choice), waits)?;
    let walked = walk_all(alloc, &mut explorer, turns as usize, orders);
    explorer.close(walked)
}

/// Runs the machine for this number of orders of the work, each of at most `turns` turns. At each point of an order one of
/// the actors that can take the next turn is drawn at random. The same seed draws the same orders. The rest is as in
/// [`explore`].
pub fn sample(
    alloc: Global,
    parts: &Parts,
    choice: Choice,
    waits: bool,
    turns: u32,
    orders: u64,
    seed: u64,
) -> Result<Exploration, AllocError>
    requires limits { is_config parts.now.config ≡ true }
    requires few { length parts.now.rows.items < 2 ^ 32 }
    ensures { IfOk result (λ found. Sampled (choice_in parts.now choice) parts.now waits turns orders found.walk (findings found)) }
{
    let mut explorer = Explorer::new(alloc, parts, parts.choice(choice), waits)?;
    let walked = walk_some(alloc, &mut explorer, turns as usize, orders, seed);
    explorer.close(walked)
}
