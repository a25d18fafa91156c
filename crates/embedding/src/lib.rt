//! `memcgrun` over memory of the caller. A call takes a script or a scenario as bytes, and puts its answers and messages
//! into two buffers. The crate `memcgrun_c` exports these calls to programs in other languages.
//!
//! Each call runs it over a new device, and keeps nothing. It fills each buffer as far as there is room, and
//! says how many bytes there are. So the caller can ask again with more room. It returns a number of
//! [`call_buffers::status`].
#![tactic(auto)]

mod scenario;

ghost use Rattle.std.specs.Prelude.{◌≡◌, ◌≢◌, ◌⊎◌, ℕ, ◌<◌, ◌≤◌, false, true, List, [], length, codes, IsUtf8, IsOk, Some, IsErr, IfOk, IfErr, OnOk, OnErr};
ghost use Rattle.std.specs.Str.Lines.{lines};
ghost use Rattle.machine.specs.declared.limit.TheConstants.{SCRIPT_BYTES};
ghost use Rattle.scripts.specs.declared.mode.Mode.TheVariants.{Schedule};
ghost use Rattle.scripts.specs.Script.{IsFaultless};
ghost use Rattle.scenarios.specs.Scenario.{scenario_of};
ghost use Rattle.printer.specs.Asked.{plain_as, speaks};
ghost use Rattle.expectations.specs.Expected.{expected_of};
ghost use Rattle.subcommands.specs.Scripts.{PrintsScript, PrintsPart, EndsScript};
ghost use Rattle.subcommands.specs.Charted.{ListsScript};
ghost use Rattle.script_faults.specs.Told.{IsRefused};
ghost use Rattle.call_buffers.specs.declared.status.TheConstants.{OK, BAD_SCRIPT, NO_MEMORY, REFUSED, DIFFERS, BAD_OPTIONS};
ghost use Rattle.call_buffers.specs.Buffers.{Gives};
ghost use Rattle.call_buffers.specs.Calls.{placement_of, status_by, IsUnsound, WhyNot, Tells, TellsPart, TellsPartNamed};
ghost use Rattle.embedding.specs.Asked.{options_of, chart_options_of};
ghost use Rattle.embedding.specs.Scenarios.{IsUnsoundScenario};

use call_buffers::status::{DIFFERS, OK};
use call_buffers::{Lengths, Said, give, is_too_long, placement_of, tell, tell_named};
pub use scenario::ScenarioAsked;
use scenario::{carry_out, print_script};
use scripts::ScriptFault;
use std::alloc::Global;
use subcommands::{Checked, Drawing, Fault, Options, Placement, check_script, run_script};

/// The name that is used for the script's file.
const NAME: &str = "script";

/// What a caller asks of a run besides its answers, by the program's options of these names.
#[repr(C)]
#[derive(Clone, Copy)]
pub struct Asked {
    /// The most turns that a line takes.
    pub turns: u32,
    /// Each line of an answer begins with the number and the words of its line of the script.
    pub labels: bool,
    /// The first line that is refused ends the run, and is its fault.
    pub strict: bool,
    /// Pages that are read in are placed as Linux places them.
    pub as_linux: bool,
    /// For each line that was refused and each task that was killed, a line says why. A second line says more about
    /// a faulty line.
    pub explain: bool,
    /// Bytes that tasks read are left out, and so are commands of killed tasks.
    pub quiet: bool,
    /// A few lines at the end say how much was done.
    pub summary: bool,
}

/// The program's options for a run.
fn options_of(asked: Asked) -> Options
    ensures { result ≡ options_of asked }
{
    Options {
        explain: asked.explain,
        labels: asked.labels,
        placement: placement_of(asked.as_linux),
        quiet: asked.quiet,
        strict: asked.strict,
        summary: asked.summary,
        turns: asked.turns,
        ..Options::default()
    }
}

/// The program's options for a chart.
fn chart_options_of(asked: Asked) -> Options
    ensures { result ≡ chart_options_of asked }
{
    Options {
        explain: asked.explain,
        placement: placement_of(asked.as_linux),
        turns: asked.turns,
        ..Options::default()
    }
}

/// Runs a script, unless it is too long.
fn run(
    alloc: Global,
    asked: Asked,
    script: &[u8],
    answers: &mut Vec<u8>,
    said: &mut Said,
) -> Result<(), Fault>
    requires empty { answers.old.items ≡ [] }
    ensures whole { OnOk result (asked.labels ≡ false → PrintsScript (options_of asked) script.now (Some []) (Some answers.new.items)) }
    ensures start { OnErr result (asked.labels ≡ false → PrintsPart (options_of asked) script.now (Some []) (Some answers.new.items)) }
    ensures unsound { IsUnsound script.now → IsErr result × (answers.new.items ≡ []) }
    ensures why { IfErr result (WhyNot (options_of asked) (codes "script") script.now) }
    ensures refused { IfErr result (λ why. IsRefused why → asked.labels ≡ false → EndsScript (options_of asked) script.now (Some []) (Some answers.new.items)) }
    ensures unsaid { IfErr result (λ why. status_by why ≡ BAD_SCRIPT → said.new.bytes.items ≡ said.old.bytes.items) }
    ensures quiet { speaks (options_of asked) ≡ false → said.new.bytes.items ≡ said.old.bytes.items }
{
    if is_too_long(script) {
        return Err(Fault::TooLong);
    }
    run_script(alloc, options_of(asked), NAME, script, answers, said)?;
    if said.is_cut {
        // A run is whole only with all its messages.
        answers.clear();
        return Err(Fault::Script(ScriptFault::Memory));
    }
    Ok(())
}

/// Runs a script and returns the status. If the run fails, the messages get the lines that say why.
fn schedule_status(
    alloc: Global,
    asked: Asked,
    script: &[u8],
    answers: &mut Vec<u8>,
    said: &mut Said,
) -> u8
    requires empty { answers.old.items ≡ [] }
    requires unsaid { said.old.bytes.items ≡ [] }
    ensures known { result ≤ REFUSED }
    ensures sound { result ≡ OK → asked.labels ≡ false → PrintsScript (options_of asked) script.now (Some []) (Some answers.new.items) }
    ensures silent { result ≡ OK → speaks (options_of asked) ≡ false → said.new.bytes.items ≡ [] }
    ensures bad { result ≡ BAD_SCRIPT → IsUnsound script.now }
    ensures unsound { IsUnsound script.now → ((result ≡ BAD_SCRIPT) ⊎ (result ≡ NO_MEMORY)) × (answers.new.items ≡ []) }
    ensures strict { result ≡ REFUSED → asked.strict ≡ true }
    ensures refused { result ≡ REFUSED → asked.labels ≡ false → EndsScript (options_of asked) script.now (Some []) (Some answers.new.items) }
    ensures cut { result ≡ NO_MEMORY → asked.labels ≡ false → PrintsPart (options_of asked) script.now (Some []) (Some answers.new.items) }
    ensures told { result ≡ BAD_SCRIPT → Tells (options_of asked) (codes "script") script.now [] said.new.bytes.items result }
    ensures told_last { result ≡ REFUSED → (before : List ℕ) × (speaks (options_of asked) ≡ false → before ≡ []) × Tells (options_of asked) (codes "script") script.now before said.new.bytes.items result }
    ensures told_part { result ≡ NO_MEMORY → (before : List ℕ) × (speaks (options_of asked) ≡ false → before ≡ []) × TellsPart (options_of asked) (codes "script") script.now before said.new.bytes.items }
{
    match run(alloc, asked, script, answers, said) {
        Ok(()) => OK,
        Err(why) => tell(&why, said),
    }
}

/// Runs a script over a new device, as `memcgrun schedule` does, and returns its answers.
pub fn schedule(
    alloc: Global,
    script: &[u8],
    asked: &Asked,
    out: &mut [u8],
    err: &mut [u8],
    lengths: &mut Lengths,
) -> u8
    // One of OK, BAD_SCRIPT, NO_MEMORY and REFUSED.
    ensures known { result ≤ REFUSED }
    // OK: `out` got all that the script prints; with labels the bytes are only tested.
    ensures sound { result ≡ OK → asked.now.labels ≡ false → (bytes : List ℕ) × PrintsScript (options_of asked.now) script.now (Some []) (Some bytes) × Gives out.old out.new lengths.new.out bytes }
    ensures silent { result ≡ OK → speaks (options_of asked.now) ≡ false → (lengths.new.err ≡ 0) × (err.new ≡ err.old) }
    // BAD_SCRIPT: the script can't be run, and nothing was run. Such a script has no other status, unless memory
    // runs out.
    ensures bad { result ≡ BAD_SCRIPT → IsUnsound script.now }
    ensures unsound { IsUnsound script.now → ((result ≡ BAD_SCRIPT) ⊎ (result ≡ NO_MEMORY)) × (lengths.new.out ≡ 0) × (out.new ≡ out.old) }
    // REFUSED: the run was strict. `out` got the answers up to the first that refuses something, and that one too.
    ensures strict { result ≡ REFUSED → asked.now.strict ≡ true }
    ensures refused { result ≡ REFUSED → asked.now.labels ≡ false → (bytes : List ℕ) × EndsScript (options_of asked.now) script.now (Some []) (Some bytes) × Gives out.old out.new lengths.new.out bytes }
    // NO_MEMORY: `out` got the beginning of what the script prints, or nothing.
    ensures cut { result ≡ NO_MEMORY → asked.now.labels ≡ false → (bytes : List ℕ) × PrintsPart (options_of asked.now) script.now (Some []) (Some bytes) × Gives out.old out.new lengths.new.out bytes }
    // `err` got all lines of the reason. For a bad script it got nothing else. For a refused line it got before
    // them what the options ask for. For NO_MEMORY it may have got only their beginning.
    ensures told { result ≡ BAD_SCRIPT → (text : List ℕ) × Tells (options_of asked.now) (codes "script") script.now [] text result × Gives err.old err.new lengths.new.err text }
    ensures told_last { result ≡ REFUSED → (before text : List ℕ) × (speaks (options_of asked.now) ≡ false → before ≡ []) × Tells (options_of asked.now) (codes "script") script.now before text result × Gives err.old err.new lengths.new.err text }
    ensures told_part { result ≡ NO_MEMORY → (before text : List ℕ) × (speaks (options_of asked.now) ≡ false → before ≡ []) × TellsPart (options_of asked.now) (codes "script") script.now before text × Gives err.old err.new lengths.new.err text }
    // With labels too, and with any messages: the bytes for which there is room, and their number.
    ensures out { (bytes : List ℕ) × Gives out.old out.new lengths.new.out bytes }
    ensures err { (text : List ℕ) × Gives err.old err.new lengths.new.err text }
{
    let mut answers = Vec::new(alloc);
    let mut said = Said::new(alloc);
    let status = schedule_status(alloc, *asked, script, &mut answers, &mut said);
    *lengths = give(&answers, &said.bytes, out, err);
    status
}

/// The table or the picture of a script's run, unless the script is too long.
fn draw(
    alloc: Global,
    kind: Drawing,
    asked: Asked,
    script: &[u8],
    drawn: &mut Vec<u8>,
) -> Result<(), Fault>
    requires empty { drawn.old.items ≡ [] }
    ensures listed { OnOk result (kind ≡ Drawing.Table → ListsScript (chart_options_of asked) script.now (Some []) (Some drawn.new.items)) }
    ensures unsound { IsUnsound script.now → IsErr result }
    ensures why { IfErr result (WhyNot (chart_options_of asked) (codes "script") script.now) }
{
    if is_too_long(script) {
        return Err(Fault::TooLong);
    }
    subcommands::chart(alloc, chart_options_of(asked), kind, NAME, script, drawn)
}

/// Draws a chart and returns the status. If this fails, nothing is drawn, and the messages get the lines that say
/// why.
fn chart_status(
    alloc: Global,
    kind: Drawing,
    asked: Asked,
    script: &[u8],
    drawn: &mut Vec<u8>,
    said: &mut Said,
) -> u8
    requires empty { drawn.old.items ≡ [] }
    requires unsaid { said.old.bytes.items ≡ [] }
    ensures known { result ≤ NO_MEMORY }
    ensures listed { result ≡ OK → kind ≡ Drawing.Table → ListsScript (chart_options_of asked) script.now (Some []) (Some drawn.new.items) }
    ensures silent { result ≡ OK → said.new.bytes.items ≡ [] }
    ensures undrawn { result ≢ OK → drawn.new.items ≡ [] }
    ensures bad { result ≡ BAD_SCRIPT → IsUnsound script.now }
    ensures unsound { IsUnsound script.now → (result ≡ BAD_SCRIPT) ⊎ (result ≡ NO_MEMORY) }
    ensures told { result ≡ BAD_SCRIPT → Tells (chart_options_of asked) (codes "script") script.now [] said.new.bytes.items result }
    ensures told_part { result ≡ NO_MEMORY → TellsPart (chart_options_of asked) (codes "script") script.now [] said.new.bytes.items }
{
    match draw(alloc, kind, asked, script, drawn) {
        Ok(()) => OK,
        Err(why) => {
            drawn.clear();
            tell(&why, said)
        }
    }
}

fn drawing(table: bool) -> Drawing
    ensures { table ≡ true → result ≡ Drawing.Table }
{
    if table {
        Drawing::Table
    } else {
        Drawing::Picture
    }
}

/// Runs a script over a new device, as `memcgrun chart` does. Returns a table of comma-separated values, or a
/// picture, SVG. It has the charges of each group that the script makes, after each line. Of what is asked, it uses
/// the turns, the placement, and whether to explain a faulty line.
pub fn chart(
    alloc: Global,
    script: &[u8],
    asked: &Asked,
    table: bool,
    out: &mut [u8],
    err: &mut [u8],
    lengths: &mut Lengths,
) -> u8
    // One of OK, BAD_SCRIPT and NO_MEMORY.
    ensures known { result ≤ NO_MEMORY }
    // OK: if a table was asked for, `out` got it; how a picture looks is only tested. `err` got nothing.
    ensures listed { result ≡ OK → table ≡ true → (bytes : List ℕ) × ListsScript (chart_options_of asked.now) script.now (Some []) (Some bytes) × Gives out.old out.new lengths.new.out bytes }
    ensures silent { result ≡ OK → (lengths.new.err ≡ 0) × (err.new ≡ err.old) }
    // Otherwise nothing is drawn.
    ensures undrawn { result ≢ OK → (lengths.new.out ≡ 0) × (out.new ≡ out.old) }
    // BAD_SCRIPT: the script can't be run. Such a script has no other status, unless memory runs out.
    ensures bad { result ≡ BAD_SCRIPT → IsUnsound script.now }
    ensures unsound { IsUnsound script.now → (result ≡ BAD_SCRIPT) ⊎ (result ≡ NO_MEMORY) }
    // `err` got all lines of the reason; for NO_MEMORY maybe only their beginning.
    ensures told { result ≡ BAD_SCRIPT → (text : List ℕ) × Tells (chart_options_of asked.now) (codes "script") script.now [] text result × Gives err.old err.new lengths.new.err text }
    ensures told_part { result ≡ NO_MEMORY → (text : List ℕ) × TellsPart (chart_options_of asked.now) (codes "script") script.now [] text × Gives err.old err.new lengths.new.err text }
    // For a picture too: the bytes for which there is room, and their number.
    ensures out { (bytes : List ℕ) × Gives out.old out.new lengths.new.out bytes }
{
    let mut drawn = Vec::new(alloc);
    let mut said = Said::new(alloc);
    let kind = drawing(table);
    let status = chart_status(alloc, kind, *asked, script, &mut drawn, &mut said);
    *lengths = give(&drawn, &said.bytes, out, err);
    status
}

/// Compares the answers of a script with those that it expects, unless it is too long.
fn judge(
    alloc: Global,
    placement: Placement,
    script: &[u8],
    line: &mut Vec<u8>,
) -> Result<Checked, Fault>
    ensures met { IfOk result (λ checked. checked ≡ Checked.Met → PrintsScript (plain_as placement) script.now (Some []) (Some (expected_of script.now))) }
    ensures ran { OnOk result (IsFaultless Schedule (lines script.now)) }
    ensures unsound { IsUnsound script.now → IsErr result }
    ensures why { IfErr result (WhyNot (plain_as placement) (codes "script") script.now) }
{
    if is_too_long(script) {
        return Err(Fault::TooLong);
    }
    let options = Options {
        placement,
        ..Options::default()
    };
    // With these options nothing is said besides the line.
    let mut said = Vec::new(alloc);
    check_script(alloc, options, NAME, script, line, &mut said)
}

/// Checks a script and returns the status. If it can't be judged, there is no line of a check, and the messages get
/// the lines that say why.
fn check_status(
    alloc: Global,
    placement: Placement,
    script: &[u8],
    line: &mut Vec<u8>,
    said: &mut Said,
) -> u8
    requires unsaid { said.old.bytes.items ≡ [] }
    ensures known { (result ≤ NO_MEMORY) ⊎ (result ≡ DIFFERS) }
    ensures met { result ≡ OK → PrintsScript (plain_as placement) script.now (Some []) (Some (expected_of script.now)) }
    ensures differs { result ≡ DIFFERS → IsFaultless Schedule (lines script.now) }
    ensures silent { (result ≡ OK) ⊎ (result ≡ DIFFERS) → said.new.bytes.items ≡ [] }
    ensures unjudged { (result ≡ BAD_SCRIPT) ⊎ (result ≡ NO_MEMORY) → line.new.items ≡ [] }
    ensures bad { result ≡ BAD_SCRIPT → IsUnsound script.now }
    ensures unsound { IsUnsound script.now → (result ≡ BAD_SCRIPT) ⊎ (result ≡ NO_MEMORY) }
    ensures told { result ≡ BAD_SCRIPT → Tells (plain_as placement) (codes "script") script.now (codes "script: ") said.new.bytes.items result }
    ensures told_part { result ≡ NO_MEMORY → TellsPartNamed (plain_as placement) (codes "script") script.now (codes "script: ") said.new.bytes.items }
{
    match judge(alloc, placement, script, line) {
        Ok(Checked::Met) => OK,
        Ok(Checked::Differs) => DIFFERS,
        Err(why) => {
            line.clear();
            tell_named(&why, said)
        }
    }
}

/// Runs a script over a new device, as `memcgrun check` does, and compares its answers with those that its lines
/// `#> ..` expect. `out` gets the line with the result. If the script could not be run, `err` gets the lines that
/// say why.
pub fn check(
    alloc: Global,
    script: &[u8],
    as_linux: bool,
    out: &mut [u8],
    err: &mut [u8],
    lengths: &mut Lengths,
) -> u8
    // One of OK, BAD_SCRIPT, NO_MEMORY and DIFFERS.
    ensures known { (result ≤ NO_MEMORY) ⊎ (result ≡ DIFFERS) }
    // OK: the answers of the plain machine print exactly what the script expects.
    ensures met { result ≡ OK → PrintsScript (plain_as (placement_of as_linux)) script.now (Some []) (Some (expected_of script.now)) }
    // DIFFERS: the script was run; that its answers differ from the expected ones is only tested.
    ensures differs { result ≡ DIFFERS → IsFaultless Schedule (lines script.now) }
    ensures silent { (result ≡ OK) ⊎ (result ≡ DIFFERS) → (lengths.new.err ≡ 0) × (err.new ≡ err.old) }
    // Otherwise nothing was judged.
    ensures unjudged { (result ≡ BAD_SCRIPT) ⊎ (result ≡ NO_MEMORY) → (lengths.new.out ≡ 0) × (out.new ≡ out.old) }
    // BAD_SCRIPT: the script can't be run. Such a script has no other status, unless memory runs out.
    ensures bad { result ≡ BAD_SCRIPT → IsUnsound script.now }
    ensures unsound { IsUnsound script.now → (result ≡ BAD_SCRIPT) ⊎ (result ≡ NO_MEMORY) }
    // `err` got `script: ` and then all lines of the reason; for NO_MEMORY maybe only the beginning of that.
    ensures told { result ≡ BAD_SCRIPT → (text : List ℕ) × Tells (plain_as (placement_of as_linux)) (codes "script") script.now (codes "script: ") text result × Gives err.old err.new lengths.new.err text }
    ensures told_part { result ≡ NO_MEMORY → (text : List ℕ) × TellsPartNamed (plain_as (placement_of as_linux)) (codes "script") script.now (codes "script: ") text × Gives err.old err.new lengths.new.err text }
    // What the line says is only tested: `out` got the bytes for which there is room, and their number.
    ensures line { (bytes : List ℕ) × Gives out.old out.new lengths.new.out bytes }
    ensures fault { (text : List ℕ) × Gives err.old err.new lengths.new.err text }
{
    let mut line = Vec::new(alloc);
    let mut said = Said::new(alloc);
    let status = check_status(alloc, placement_of(as_linux), script, &mut line, &mut said);
    *lengths = give(&line, &said.bytes, out, err);
    status
}

/// Carries out a scenario unless it is too long, and returns the status.
fn simulate_status(
    alloc: Global,
    text: &[u8],
    settings: &[u8],
    groups: &[u8],
    asked: ScenarioAsked,
    printed: &mut Vec<u8>,
    said: &mut Said,
) -> u8
    requires empty { printed.old.items ≡ [] }
    requires unsaid { said.old.bytes.items ≡ [] }
    ensures known { (result ≤ NO_MEMORY) ⊎ (result ≡ DIFFERS) ⊎ (result ≡ BAD_OPTIONS) }
    ensures silent { (result ≡ OK) ⊎ (result ≡ DIFFERS) → said.new.bytes.items ≡ [] }
    ensures unprinted { result ≡ BAD_OPTIONS → printed.new.items ≡ [] }
    ensures texts { (result ≡ OK) ⊎ (result ≡ DIFFERS) → IsUtf8 settings.now × IsUtf8 groups.now }
    ensures reads { (result ≡ OK) ⊎ (result ≡ DIFFERS) → IsOk (scenario_of text.now) }
    ensures bad { result ≡ BAD_SCRIPT → IsUnsoundScenario text.now settings.now }
    ensures misasked { result ≡ BAD_OPTIONS → (settings.now ≢ []) ⊎ (groups.now ≢ []) }
    ensures long { SCRIPT_BYTES < length text.now → ((result ≡ BAD_SCRIPT) ⊎ (result ≡ NO_MEMORY)) × (printed.new.items ≡ []) }
{
    if is_too_long(text) {
        return tell(&Fault::TooLong, said);
    }
    carry_out(alloc, text, settings, groups, asked, printed, said)
}

/// Carries out a scenario, as `memcgrun simulate` does. `settings` has texts `NAME=WORD`, and `groups` paths, each one a
/// line.
pub fn simulate(
    alloc: Global,
    text: &[u8],
    settings: &[u8],
    groups: &[u8],
    asked: &ScenarioAsked,
    out: &mut [u8],
    err: &mut [u8],
    lengths: &mut Lengths,
) -> u8
    // One of OK, BAD_SCRIPT, NO_MEMORY, DIFFERS and BAD_OPTIONS.
    ensures known { (result ≤ NO_MEMORY) ⊎ (result ≡ DIFFERS) ⊎ (result ≡ BAD_OPTIONS) }
    // OK and DIFFERS: the scenario was run, and `err` got nothing. What `out` got is only tested.
    ensures silent { (result ≡ OK) ⊎ (result ≡ DIFFERS) → (lengths.new.err ≡ 0) × (err.new ≡ err.old) }
    // BAD_OPTIONS: `out` got nothing.
    ensures unprinted { result ≡ BAD_OPTIONS → (lengths.new.out ≡ 0) × (out.new ≡ out.old) }
    // Settings and paths that are not UTF-8 are refused.
    ensures texts { (result ≡ OK) ⊎ (result ≡ DIFFERS) → IsUtf8 settings.now × IsUtf8 groups.now }
    // A text with a fault is not run.
    ensures reads { (result ≡ OK) ⊎ (result ≡ DIFFERS) → IsOk (scenario_of text.now) }
    // BAD_SCRIPT: the text is too long, or it is a faulty scenario.
    ensures bad { result ≡ BAD_SCRIPT → IsUnsoundScenario text.now settings.now }
    // BAD_OPTIONS: the fault is in the settings or in the paths.
    ensures misasked { result ≡ BAD_OPTIONS → (settings.now ≢ []) ⊎ (groups.now ≢ []) }
    // A text that is too long is not run.
    ensures long { SCRIPT_BYTES < length text.now → ((result ≡ BAD_SCRIPT) ⊎ (result ≡ NO_MEMORY)) × (lengths.new.out ≡ 0) × (out.new ≡ out.old) }
    // Each buffer got the bytes for which there is room, and their number.
    ensures out { (bytes : List ℕ) × Gives out.old out.new lengths.new.out bytes }
    ensures err { (bytes : List ℕ) × Gives err.old err.new lengths.new.err bytes }
{
    let mut printed = Vec::new(alloc);
    let mut said = Said::new(alloc);
    let status = simulate_status(
        alloc,
        text,
        settings,
        groups,
        *asked,
        &mut printed,
        &mut said,
    );
    *lengths = give(&printed, &said.bytes, out, err);
    status
}

/// Expands a scenario unless it is too long, and returns the status.
fn expand_status(
    alloc: Global,
    text: &[u8],
    settings: &[u8],
    cuts: &[u64],
    script: &mut Vec<u8>,
    said: &mut Said,
) -> u8
    requires empty { script.old.items ≡ [] }
    requires unsaid { said.old.bytes.items ≡ [] }
    ensures known { (result ≤ NO_MEMORY) ⊎ (result ≡ BAD_OPTIONS) }
    ensures silent { result ≡ OK → said.new.bytes.items ≡ [] }
    ensures unprinted { result ≢ OK → script.new.items ≡ [] }
    ensures texts { result ≡ OK → IsUtf8 settings.now }
    ensures reads { result ≡ OK → IsOk (scenario_of text.now) }
    ensures bad { result ≡ BAD_SCRIPT → IsUnsoundScenario text.now settings.now }
    ensures misasked { result ≡ BAD_OPTIONS → (settings.now ≢ []) ⊎ (cuts.now ≢ []) }
    ensures long { SCRIPT_BYTES < length text.now → (result ≡ BAD_SCRIPT) ⊎ (result ≡ NO_MEMORY) }
{
    if is_too_long(text) {
        return tell(&Fault::TooLong, said);
    }
    print_script(alloc, text, settings, cuts, script, said)
}

/// Prints the script of a scenario, as `memcgrun expand` does. `settings` has a text `NAME=WORD` in each line, and `cuts`
/// the lengths of the lists with `until`.
pub fn expand(
    alloc: Global,
    text: &[u8],
    settings: &[u8],
    cuts: &[u64],
    out: &mut [u8],
    err: &mut [u8],
    lengths: &mut Lengths,
) -> u8
    // One of OK, BAD_SCRIPT, NO_MEMORY and BAD_OPTIONS.
    ensures known { (result ≤ NO_MEMORY) ⊎ (result ≡ BAD_OPTIONS) }
    // OK: `err` got nothing. What `out` got is only tested.
    ensures silent { result ≡ OK → (lengths.new.err ≡ 0) × (err.new ≡ err.old) }
    // Otherwise nothing is printed.
    ensures unprinted { result ≢ OK → (lengths.new.out ≡ 0) × (out.new ≡ out.old) }
    // Settings that are not UTF-8 are refused.
    ensures texts { result ≡ OK → IsUtf8 settings.now }
    // A text with a fault has no script.
    ensures reads { result ≡ OK → IsOk (scenario_of text.now) }
    // BAD_SCRIPT: the text is too long, or it is a faulty scenario.
    ensures bad { result ≡ BAD_SCRIPT → IsUnsoundScenario text.now settings.now }
    // BAD_OPTIONS: the fault is in the settings or in the lengths.
    ensures misasked { result ≡ BAD_OPTIONS → (settings.now ≢ []) ⊎ (cuts.now ≢ []) }
    // A text that is too long is not read.
    ensures long { SCRIPT_BYTES < length text.now → (result ≡ BAD_SCRIPT) ⊎ (result ≡ NO_MEMORY) }
    // Each buffer got the bytes for which there is room, and their number.
    ensures out { (bytes : List ℕ) × Gives out.old out.new lengths.new.out bytes }
    ensures err { (bytes : List ℕ) × Gives err.old err.new lengths.new.err bytes }
{
    let mut script = Vec::new(alloc);
    let mut said = Said::new(alloc);
    let status = expand_status(alloc, text, settings, cuts, &mut script, &mut said);
    *lengths = give(&script, &said.bytes, out, err);
    status
}
