//! The exploration of a script over memory of the caller. A call takes the script as bytes, runs its work in the orders of
//! its turns, and puts the outcomes and the messages into two buffers. It returns a number of [`call_buffers::status`].
#![tactic(auto)]

mod exploration;

ghost use Rattle.std.specs.Prelude.{◌≡◌, ◌≢◌, ◌⊎◌, ℕ, ◌≤◌, List, [], codes, Some};
ghost use Rattle.std.specs.Str.Lines.{lines};
ghost use Rattle.scripts.specs.declared.mode.Mode.TheVariants.{Schedule};
ghost use Rattle.scripts.specs.Script.{IsFaultless};
ghost use Rattle.printer.specs.Asked.{plain_as};
ghost use Rattle.explore.specs.declared.report.Verdict.{Verdict};
ghost use Rattle.explore.specs.Explores.{Explores};
ghost use Rattle.call_buffers.specs.declared.status.TheConstants.{OK, BAD_SCRIPT, NO_MEMORY, DIFFERS, BAD_OPTIONS};
ghost use Rattle.call_buffers.specs.Buffers.{Gives};
ghost use Rattle.call_buffers.specs.Calls.{placement_of, IsUnsound, Tells};
ghost use Rattle.embedded_exploration.specs.Exploring.{exploration_of, IsWhole, IsPart, IsReasoned};

use call_buffers::{Lengths, Said, give};
pub use exploration::ExploreAsked;
use exploration::explore_status;
use std::alloc::Global;

/// Runs a script's work in the orders of its turns in which calls of the device come first, in every order, or in those
/// of a sample, as `memcgrun explore` does. Lists the outcomes, or gives the first order with one of them as a script.
pub fn explore(
    alloc: Global,
    script: &[u8],
    asked: &ExploreAsked,
    out: &mut [u8],
    err: &mut [u8],
    lengths: &mut Lengths,
) -> u8
    // One of OK, BAD_SCRIPT, NO_MEMORY, DIFFERS and BAD_OPTIONS.
    ensures known { (result ≤ NO_MEMORY) ⊎ (result ≡ DIFFERS) ⊎ (result ≡ BAD_OPTIONS) }
    // OK: all orders were run, or all of the sample, and `out` got the list of their outcomes. The script that shows an
    // outcome is only tested.
    ensures explored { result ≡ OK → (bytes : List ℕ) × (verdict : Verdict) × IsWhole verdict × Explores (exploration_of asked.now) script.now verdict (Some []) (Some bytes) × Gives out.old out.new lengths.new.out bytes }
    ensures partial { result ≡ DIFFERS → (bytes : List ℕ) × (verdict : Verdict) × IsPart verdict × Explores (exploration_of asked.now) script.now verdict (Some []) (Some bytes) × Gives out.old out.new lengths.new.out bytes }
    ensures reason { (result ≡ BAD_SCRIPT) ⊎ (result ≡ BAD_OPTIONS) → IsReasoned (exploration_of asked.now) script.now result }
    ensures silent { result ≡ OK → (lengths.new.err ≡ 0) × (err.new ≡ err.old) }
    // DIFFERS: not all orders were run. BAD_OPTIONS: there is no outcome of the number that is to be shown.
    ensures faultless { (result ≡ DIFFERS) ⊎ (result ≡ BAD_OPTIONS) → IsFaultless Schedule (lines script.now) }
    // BAD_SCRIPT, NO_MEMORY and BAD_OPTIONS: `out` got nothing.
    ensures unprinted { result ≢ OK → result ≢ DIFFERS → (lengths.new.out ≡ 0) × (out.new ≡ out.old) }
    // A script that is too long or has a faulty line has no other status than BAD_SCRIPT, unless memory runs out. `err`
    // got `script: ` and then all lines of the reason. BAD_SCRIPT also means that the script has no work, or that its
    // setup fails.
    ensures unsound { IsUnsound script.now → (result ≡ BAD_SCRIPT) ⊎ (result ≡ NO_MEMORY) }
    ensures told { result ≡ BAD_SCRIPT → IsUnsound script.now → (text : List ℕ) × Tells (plain_as (placement_of asked.now.as_linux)) (codes "script") script.now (codes "script: ") text result × Gives err.old err.new lengths.new.err text }
    // Each buffer got the bytes for which there is room, and their number.
    ensures out { (bytes : List ℕ) × Gives out.old out.new lengths.new.out bytes }
    ensures err { (bytes : List ℕ) × Gives err.old err.new lengths.new.err bytes }
{
    let mut listed = Vec::new(alloc);
    let mut said = Said::new(alloc);
    let status = explore_status(alloc, script, *asked, &mut listed, &mut said);
    *lengths = give(&listed, &said.bytes, out, err);
    status
}
