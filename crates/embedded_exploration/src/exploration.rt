//! Explorations: all that can happen in a script's work.

ghost use Rattle.std.specs.Prelude.{◌≡◌, ◌≢◌, ◌⊎◌, ◌≤◌, [], List, ℕ, codes, Some, IfErr};
ghost use Rattle.std.specs.Str.Lines.{lines};
ghost use Rattle.scripts.specs.declared.mode.Mode.TheVariants.{Schedule};
ghost use Rattle.scripts.specs.Script.{IsFaultless};
ghost use Rattle.printer.specs.Asked.{plain_as};
ghost use Rattle.explore.specs.Explores.{Explores, Explains};
ghost use Rattle.call_buffers.specs.declared.status.TheConstants.{OK, BAD_SCRIPT, NO_MEMORY, DIFFERS, BAD_OPTIONS};
ghost use Rattle.call_buffers.specs.Calls.{placement_of, IsUnsound, Tells};
ghost use Rattle.embedded_exploration.specs.Exploring.{sample_of, show_of, choice_of, exploration_of, IsWhole, IsPart, status_for, IsReasoned, IsToldOf};

use call_buffers::status::{BAD_OPTIONS, BAD_SCRIPT, DIFFERS, NO_MEMORY, OK};
use call_buffers::{Said, is_too_long, placement_of, tell_named};
use explore::{Asked, Choice, Fault, Sample, Verdict, explore_script};
use script_faults::Fault as ScriptsFault;
use scripts::{ScriptFault, one_answer};
use std::alloc::Global;
use std::io::Write;

/// What a caller asks of an exploration, by the program's options of these names.
#[repr(C)]
#[derive(Clone, Copy)]
pub struct ExploreAsked {
    /// The most orders that are run. A sample has its own number.
    pub orders: u64,
    /// How many orders are drawn at random; with 0, all are run.
    pub sample: u64,
    /// The same seed draws the same sample.
    pub seed: u64,
    /// The outcome, counted from 1, whose first order is shown as a script; with 0, the outcomes are listed.
    pub show: u64,
    /// The most turns of an order.
    pub turns: u32,
    /// Pages that are read in are placed as Linux places them.
    pub as_linux: bool,
    /// Every order is run, and not only those in which calls of the device come first.
    pub every: bool,
    /// Orders in which a command of the work is answered `busy` are left out.
    pub wait: bool,
}

fn sample_of(asked: ExploreAsked) -> Option<Sample>
    ensures { result ≡ sample_of asked }
{
    if asked.sample == 0 {
        return None;
    }
    Some(Sample {
        orders: asked.sample,
        seed: asked.seed,
    })
}

fn show_of(asked: ExploreAsked) -> Option<u64>
    ensures { result ≡ show_of asked }
{
    if asked.show == 0 {
        None
    } else {
        Some(asked.show)
    }
}

fn choice_of(every: bool) -> Choice
    ensures { result ≡ choice_of every }
{
    if every {
        Choice::Any
    } else {
        Choice::DeviceFirst
    }
}

/// The program's options.
fn exploration_of(asked: ExploreAsked) -> Asked
    ensures { result ≡ exploration_of asked }
{
    Asked {
        orders: asked.orders,
        sample: sample_of(asked),
        turns: asked.turns,
        choice: choice_of(asked.every),
        waits: asked.wait,
        placement: placement_of(asked.as_linux),
        show: show_of(asked),
    }
}

/// The status of an exploration. If not all orders were run, a line says so.
fn tell_verdict(verdict: Verdict, said: &mut Said) -> u8
    ensures known { (result ≡ OK) ⊎ (result ≡ NO_MEMORY) ⊎ (result ≡ DIFFERS) }
    ensures whole { result ≡ OK → IsWhole verdict }
    ensures partial { result ≡ DIFFERS → IsPart verdict }
    ensures silent { result ≡ OK → said.new.bytes.items ≡ said.old.bytes.items }
{
    let written = match verdict {
        Verdict::All(_) | Verdict::Sample(_) => return OK,
        Verdict::MoreOrders(orders) => {
            writeln!(said, "script: more than {orders} orders: not all were run")
        }
        Verdict::MoreTurns(turns) => {
            writeln!(
                said,
                "script: an order has more than {turns} turns: not all were run"
            )
        }
    };
    match written {
        Ok(()) => DIFFERS,
        Err(_) => NO_MEMORY,
    }
}

/// The status of a fault.
fn status_of(fault: &Fault) -> u8
    ensures { result ≡ status_for fault.now }
{
    match fault {
        Fault::Script(ScriptFault::At { line: _, cause: _ }) => BAD_SCRIPT,
        Fault::Script(ScriptFault::Memory) => NO_MEMORY,
        Fault::TakesApart(_) | Fault::NoWork | Fault::TooManyActors(_) | Fault::SetupFails(_, _) =>
            BAD_SCRIPT,
        Fault::NoOutcome(_, _) => BAD_OPTIONS,
        // No run was seen to change. A write fails here if the bytes can't be kept.
        Fault::Memory | Fault::Changed | Fault::Unwritable(_) => NO_MEMORY,
    }
}

/// Adds the line that says why a script was not explored, and returns the status.
fn tell_fault(fault: Fault, said: &mut Said) -> u8
    requires unsaid { said.old.bytes.items ≡ [] }
    ensures known { (result ≡ BAD_SCRIPT) ⊎ (result ≡ NO_MEMORY) ⊎ (result ≡ BAD_OPTIONS) }
    ensures status { (result ≡ status_for fault) ⊎ (result ≡ NO_MEMORY) }
    ensures told { IsToldOf fault said.new.bytes.items result }
{
    match fault {
        Fault::Script(why) => tell_named(&ScriptsFault::Script(why), said),
        fault => match writeln!(said, "script: {fault}") {
            Ok(()) => status_of(&fault),
            Err(_) => NO_MEMORY,
        },
    }
}

/// Explores a script and returns the status. If it can't be explored, nothing is printed, and the messages get the line
/// that says why.
pub fn explore_status(
    alloc: Global,
    script: &[u8],
    asked: ExploreAsked,
    printed: &mut Vec<u8>,
    said: &mut Said,
) -> u8
    requires empty { printed.old.items ≡ [] }
    requires unsaid { said.old.bytes.items ≡ [] }
    ensures known { (result ≤ NO_MEMORY) ⊎ (result ≡ DIFFERS) ⊎ (result ≡ BAD_OPTIONS) }
    ensures explored { result ≡ OK → (verdict : Verdict) × IsWhole verdict × Explores (exploration_of asked) script.now verdict (Some []) (Some printed.new.items) }
    ensures partial { result ≡ DIFFERS → (verdict : Verdict) × IsPart verdict × Explores (exploration_of asked) script.now verdict (Some []) (Some printed.new.items) }
    ensures reason { (result ≡ BAD_SCRIPT) ⊎ (result ≡ BAD_OPTIONS) → IsReasoned (exploration_of asked) script.now result }
    ensures silent { result ≡ OK → said.new.bytes.items ≡ [] }
    ensures faultless { (result ≡ DIFFERS) ⊎ (result ≡ BAD_OPTIONS) → IsFaultless Schedule (lines script.now) }
    ensures unprinted { result ≢ OK → result ≢ DIFFERS → printed.new.items ≡ [] }
    ensures unsound { IsUnsound script.now → (result ≡ BAD_SCRIPT) ⊎ (result ≡ NO_MEMORY) }
    ensures told { result ≡ BAD_SCRIPT → IsUnsound script.now → Tells (plain_as (placement_of asked.as_linux)) (codes "script") script.now (codes "script: ") said.new.bytes.items result }
{
    one_answer();
    if is_too_long(script) {
        return tell_named(&ScriptsFault::TooLong, said);
    }
    let status = match explore_script(alloc, exploration_of(asked), script, printed) {
        Ok(verdict) => tell_verdict(verdict, said),
        Err(fault) => tell_fault(fault, said),
    };
    if status != OK && status != DIFFERS {
        printed.clear();
    }
    status
}
