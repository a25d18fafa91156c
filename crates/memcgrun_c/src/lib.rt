//! The calls of [`embedding`] and [`embedded_exploration`] for programs in other languages. A call takes a script or a
//! scenario, and puts its answers and messages into buffers of the caller.
//!
//! These calls are not for users: `library/memcgrun.h` declares what users call, and `library/memcgrun.c` makes
//! these calls for them. That file owes them what no contract can ask of C. No pointer is null, no memory overlaps
//! another, each length is below 2^63, and each `bool` is 0 or 1.
//!
//! Each function has the clauses of the function that it calls. The comments there explain them.
#![tactic(auto)]

ghost use Rattle.std.specs.Prelude.{◌≡◌, ◌≢◌, ◌⊎◌, ℕ, ◌<◌, ◌≤◌, false, true, List, [], length, codes, IsUtf8, IsOk, Some};
ghost use Rattle.std.specs.Str.Lines.{lines};
ghost use Rattle.machine.specs.declared.limit.TheConstants.{SCRIPT_BYTES};
ghost use Rattle.scripts.specs.declared.mode.Mode.TheVariants.{Schedule};
ghost use Rattle.scripts.specs.Script.{IsFaultless};
ghost use Rattle.scenarios.specs.Scenario.{scenario_of};
ghost use Rattle.printer.specs.Asked.{plain_as, speaks};
ghost use Rattle.expectations.specs.Expected.{expected_of};
ghost use Rattle.subcommands.specs.Scripts.{PrintsScript, PrintsPart, EndsScript};
ghost use Rattle.subcommands.specs.Charted.{ListsScript};
ghost use Rattle.explore.specs.declared.report.Verdict.{Verdict};
ghost use Rattle.explore.specs.Explores.{Explores};
ghost use Rattle.call_buffers.specs.declared.status.TheConstants.{OK, BAD_SCRIPT, NO_MEMORY, REFUSED, DIFFERS, BAD_OPTIONS};
ghost use Rattle.call_buffers.specs.Buffers.{Gives};
ghost use Rattle.call_buffers.specs.Calls.{placement_of, IsUnsound, Tells, TellsPart, TellsPartNamed};
ghost use Rattle.embedded_exploration.specs.Exploring.{exploration_of, IsWhole, IsPart, IsReasoned};
ghost use Rattle.embedding.specs.Asked.{options_of, chart_options_of};
ghost use Rattle.embedding.specs.Scenarios.{IsUnsoundScenario};

use call_buffers::Lengths;
use embedded_exploration::ExploreAsked;
use embedding::{Asked, ScenarioAsked};
use std::alloc::Global;

/// Runs a script over a new device, as `memcgrun schedule` does, and returns its answers.
#[unsafe(no_mangle)]
pub extern "C" fn memcgrun_proved_schedule(
    alloc: Global,
    script: &[u8],
    asked: &Asked,
    out: &mut [u8],
    err: &mut [u8],
    lengths: &mut Lengths,
) -> u8
    ensures known { result ≤ REFUSED }
    ensures sound { result ≡ OK → asked.now.labels ≡ false → (bytes : List ℕ) × PrintsScript (options_of asked.now) script.now (Some []) (Some bytes) × Gives out.old out.new lengths.new.out bytes }
    ensures silent { result ≡ OK → speaks (options_of asked.now) ≡ false → (lengths.new.err ≡ 0) × (err.new ≡ err.old) }
    ensures bad { result ≡ BAD_SCRIPT → IsUnsound script.now }
    ensures unsound { IsUnsound script.now → ((result ≡ BAD_SCRIPT) ⊎ (result ≡ NO_MEMORY)) × (lengths.new.out ≡ 0) × (out.new ≡ out.old) }
    ensures strict { result ≡ REFUSED → asked.now.strict ≡ true }
    ensures refused { result ≡ REFUSED → asked.now.labels ≡ false → (bytes : List ℕ) × EndsScript (options_of asked.now) script.now (Some []) (Some bytes) × Gives out.old out.new lengths.new.out bytes }
    ensures cut { result ≡ NO_MEMORY → asked.now.labels ≡ false → (bytes : List ℕ) × PrintsPart (options_of asked.now) script.now (Some []) (Some bytes) × Gives out.old out.new lengths.new.out bytes }
    ensures told { result ≡ BAD_SCRIPT → (text : List ℕ) × Tells (options_of asked.now) (codes "script") script.now [] text result × Gives err.old err.new lengths.new.err text }
    ensures told_last { result ≡ REFUSED → (before text : List ℕ) × (speaks (options_of asked.now) ≡ false → before ≡ []) × Tells (options_of asked.now) (codes "script") script.now before text result × Gives err.old err.new lengths.new.err text }
    ensures told_part { result ≡ NO_MEMORY → (before text : List ℕ) × (speaks (options_of asked.now) ≡ false → before ≡ []) × TellsPart (options_of asked.now) (codes "script") script.now before text × Gives err.old err.new lengths.new.err text }
    ensures out { (bytes : List ℕ) × Gives out.old out.new lengths.new.out bytes }
    ensures err { (text : List ℕ) × Gives err.old err.new lengths.new.err text }
{
    embedding::schedule(alloc, script, asked, out, err, lengths)
}

/// Runs a script over a new device, as `memcgrun chart` does. Returns a table of comma-separated values, or a
/// picture, SVG. It has the charges of each group that the script makes, after each line. Of what is asked, it uses
/// the turns, the placement, and whether to explain a faulty line.
#[unsafe(no_mangle)]
pub extern "C" fn memcgrun_proved_chart(
    alloc: Global,
    script: &[u8],
    asked: &Asked,
    table: bool,
    out: &mut [u8],
    err: &mut [u8],
    lengths: &mut Lengths,
) -> u8
    ensures known { result ≤ NO_MEMORY }
    ensures listed { result ≡ OK → table ≡ true → (bytes : List ℕ) × ListsScript (chart_options_of asked.now) script.now (Some []) (Some bytes) × Gives out.old out.new lengths.new.out bytes }
    ensures silent { result ≡ OK → (lengths.new.err ≡ 0) × (err.new ≡ err.old) }
    ensures undrawn { result ≢ OK → (lengths.new.out ≡ 0) × (out.new ≡ out.old) }
    ensures bad { result ≡ BAD_SCRIPT → IsUnsound script.now }
    ensures unsound { IsUnsound script.now → (result ≡ BAD_SCRIPT) ⊎ (result ≡ NO_MEMORY) }
    ensures told { result ≡ BAD_SCRIPT → (text : List ℕ) × Tells (chart_options_of asked.now) (codes "script") script.now [] text result × Gives err.old err.new lengths.new.err text }
    ensures told_part { result ≡ NO_MEMORY → (text : List ℕ) × TellsPart (chart_options_of asked.now) (codes "script") script.now [] text × Gives err.old err.new lengths.new.err text }
    ensures out { (bytes : List ℕ) × Gives out.old out.new lengths.new.out bytes }
{
    embedding::chart(alloc, script, asked, table, out, err, lengths)
}

/// Runs a script over a new device, as `memcgrun check` does, and compares its answers with those that its lines
/// `#> ..` expect. `out` gets the line with the result. If the script could not be run, `err` gets the lines that
/// say why.
#[unsafe(no_mangle)]
pub extern "C" fn memcgrun_proved_check(
    alloc: Global,
    script: &[u8],
    as_linux: bool,
    out: &mut [u8],
    err: &mut [u8],
    lengths: &mut Lengths,
) -> u8
    ensures known { (result ≤ NO_MEMORY) ⊎ (result ≡ DIFFERS) }
    ensures met { result ≡ OK → PrintsScript (plain_as (placement_of as_linux)) script.now (Some []) (Some (expected_of script.now)) }
    ensures differs { result ≡ DIFFERS → IsFaultless Schedule (lines script.now) }
    ensures silent { (result ≡ OK) ⊎ (result ≡ DIFFERS) → (lengths.new.err ≡ 0) × (err.new ≡ err.old) }
    ensures unjudged { (result ≡ BAD_SCRIPT) ⊎ (result ≡ NO_MEMORY) → (lengths.new.out ≡ 0) × (out.new ≡ out.old) }
    ensures bad { result ≡ BAD_SCRIPT → IsUnsound script.now }
    ensures unsound { IsUnsound script.now → (result ≡ BAD_SCRIPT) ⊎ (result ≡ NO_MEMORY) }
    ensures told { result ≡ BAD_SCRIPT → (text : List ℕ) × Tells (plain_as (placement_of as_linux)) (codes "script") script.now (codes "script: ") text result × Gives err.old err.new lengths.new.err text }
    ensures told_part { result ≡ NO_MEMORY → (text : List ℕ) × TellsPartNamed (plain_as (placement_of as_linux)) (codes "script") script.now (codes "script: ") text × Gives err.old err.new lengths.new.err text }
    ensures line { (bytes : List ℕ) × Gives out.old out.new lengths.new.out bytes }
    ensures fault { (text : List ℕ) × Gives err.old err.new lengths.new.err text }
{
    embedding::check(alloc, script, as_linux, out, err, lengths)
}

/// Carries out a scenario, as `memcgrun simulate` does. `settings` has texts `NAME=WORD`, and `groups` paths, each one a
/// line.
#[unsafe(no_mangle)]
pub extern "C" fn memcgrun_proved_simulate(
    alloc: Global,
    text: &[u8],
    settings: &[u8],
    groups: &[u8],
    asked: &ScenarioAsked,
    out: &mut [u8],
    err: &mut [u8],
    lengths: &mut Lengths,
) -> u8
    ensures known { (result ≤ NO_MEMORY) ⊎ (result ≡ DIFFERS) ⊎ (result ≡ BAD_OPTIONS) }
    ensures silent { (result ≡ OK) ⊎ (result ≡ DIFFERS) → (lengths.new.err ≡ 0) × (err.new ≡ err.old) }
    ensures unprinted { result ≡ BAD_OPTIONS → (lengths.new.out ≡ 0) × (out.new ≡ out.old) }
    ensures texts { (result ≡ OK) ⊎ (result ≡ DIFFERS) → IsUtf8 settings.now × IsUtf8 groups.now }
    ensures reads { (result ≡ OK) ⊎ (result ≡ DIFFERS) → IsOk (scenario_of text.now) }
    ensures bad { result ≡ BAD_SCRIPT → IsUnsoundScenario text.now settings.now }
    ensures misasked { result ≡ BAD_OPTIONS → (settings.now ≢ []) ⊎ (groups.now ≢ []) }
    ensures long { SCRIPT_BYTES < length text.now → ((result ≡ BAD_SCRIPT) ⊎ (result ≡ NO_MEMORY)) × (lengths.new.out ≡ 0) × (out.new ≡ out.old) }
    ensures out { (bytes : List ℕ) × Gives out.old out.new lengths.new.out bytes }
    ensures err { (bytes : List ℕ) × Gives err.old err.new lengths.new.err bytes }
{
    embedding::simulate(alloc, text, settings, groups, asked, out, err, lengths)
}

/// Prints the script of a scenario, as `memcgrun expand` does. `settings` has a text `NAME=WORD` in each line, and `cuts`
/// the lengths of the lists with `until`.
#[unsafe(no_mangle)]
pub extern "C" fn memcgrun_proved_expand(
    alloc: Global,
    text: &[u8],
    settings: &[u8],
    cuts: &[u64],
    out: &mut [u8],
    err: &mut [u8],
    lengths: &mut Lengths,
) -> u8
    ensures known { (result ≤ NO_MEMORY) ⊎ (result ≡ BAD_OPTIONS) }
    ensures silent { result ≡ OK → (lengths.new.err ≡ 0) × (err.new ≡ err.old) }
    ensures unprinted { result ≢ OK → (lengths.new.out ≡ 0) × (out.new ≡ out.old) }
    ensures texts { result ≡ OK → IsUtf8 settings.now }
    ensures reads { result ≡ OK → IsOk (scenario_of text.now) }
    ensures bad { result ≡ BAD_SCRIPT → IsUnsoundScenario text.now settings.now }
    ensures misasked { result ≡ BAD_OPTIONS → (settings.now ≢ []) ⊎ (cuts.now ≢ []) }
    ensures long { SCRIPT_BYTES < length text.now → (result ≡ BAD_SCRIPT) ⊎ (result ≡ NO_MEMORY) }
    ensures out { (bytes : List ℕ) × Gives out.old out.new lengths.new.out bytes }
    ensures err { (bytes : List ℕ) × Gives err.old err.new lengths.new.err bytes }
{
    embedding::expand(alloc, text, settings, cuts, out, err, lengths)
}

/// Runs a script's work in the orders of its turns in which calls of the device come first, in every order, or in those
/// of a sample, as `memcgrun explore` does. Lists the outcomes, or gives the first order with one of them as a script.
#[unsafe(no_mangle)]
pub extern "C" fn memcgrun_proved_explore(
    alloc: Global,
    script: &[u8],
    asked: &ExploreAsked,
    out: &mut [u8],
    err: &mut [u8],
    lengths: &mut Lengths,
) -> u8
    ensures known { (result ≤ NO_MEMORY) ⊎ (result ≡ DIFFERS) ⊎ (result ≡ BAD_OPTIONS) }
    ensures explored { result ≡ OK → (bytes : List ℕ) × (verdict : Verdict) × IsWhole verdict × Explores (exploration_of asked.now) script.now verdict (Some []) (Some bytes) × Gives out.old out.new lengths.new.out bytes }
    ensures partial { result ≡ DIFFERS → (bytes : List ℕ) × (verdict : Verdict) × IsPart verdict × Explores (exploration_of asked.now) script.now verdict (Some []) (Some bytes) × Gives out.old out.new lengths.new.out bytes }
    ensures reason { (result ≡ BAD_SCRIPT) ⊎ (result ≡ BAD_OPTIONS) → IsReasoned (exploration_of asked.now) script.now result }
    ensures silent { result ≡ OK → (lengths.new.err ≡ 0) × (err.new ≡ err.old) }
    ensures faultless { (result ≡ DIFFERS) ⊎ (result ≡ BAD_OPTIONS) → IsFaultless Schedule (lines script.now) }
    ensures unprinted { result ≢ OK → result ≢ DIFFERS → (lengths.new.out ≡ 0) × (out.new ≡ out.old) }
    ensures unsound { IsUnsound script.now → (result ≡ BAD_SCRIPT) ⊎ (result ≡ NO_MEMORY) }
    ensures told { result ≡ BAD_SCRIPT → IsUnsound script.now → (text : List ℕ) × Tells (plain_as (placement_of asked.now.as_linux)) (codes "script") script.now (codes "script: ") text result × Gives err.old err.new lengths.new.err text }
    ensures out { (bytes : List ℕ) × Gives out.old out.new lengths.new.out bytes }
    ensures err { (bytes : List ℕ) × Gives err.old err.new lengths.new.err bytes }
{
    embedded_exploration::explore(alloc, script, asked, out, err, lengths)
}
