//! The program as a library, over any reader and any two writers.
#![tactic(auto)]

mod charting;
mod check;

ghost use Rattle.std.specs.Prelude.{◌≡◌, ◌⊎◌, ℕ, ◌≤◌, [], true, false, string_bytes, IsErr, IfSome, IfOk, IfErr, OnOk, OnErr};
ghost use Rattle.std.specs.Io.KnownBytes.{Keeps};
ghost use Rattle.std.specs.Str.Lines.{lines};
ghost use Rattle.machine.specs.State.{blocks_of, is_config};
ghost use Rattle.block_store.specs.Device.{new_disk};
ghost use Rattle.driver.specs.Schedule.{fits};
ghost use Rattle.scripts.specs.declared.fault.Cause.{Cause};
ghost use Rattle.scripts.specs.declared.mode.Mode.TheVariants.{Schedule};
ghost use Rattle.scripts.specs.Script.{IsFirstFault, NamesFirstFault};
ghost use Rattle.printer.specs.declared.options.Options.{Options as Asked_by};
ghost use Rattle.printer.specs.Asked.{marks_lines, plain, speaks};
ghost use Rattle.printer.specs.Prints.{PrintsRun, PrintsStart, EndsRun, is_end};
ghost use Rattle.subcommands.specs.Scripts.{PrintsScript, PrintsPart, EndsScript};
ghost use Rattle.script_faults.specs.Told.{IsUnread, Explains, IsOfScript, IsRefused, TellsWhy, IsScheduleFault};

use block_store::{BlockDevice, MemDevice};
pub use charting::{Drawing, chart};
pub use check::{Checked, check_script, read_and_check};
pub use driver::Placement;
use driver::{Config, Stop};
pub use printer::{Amounts, Options};
use printer::{ERASE, Ended, Source, Stopped, print_run};
pub use script_faults::{Fault, SCRIPT_BYTES, Wanted, read_script, status_of};
use script_faults::{faulty, new_device, unwritten};
use scripts::{Mode, Script, one_answer};
use std::alloc::Global;
use std::io::{ErrorKind, Read, Write};

/// Why a run ended before all was answered, or why not all of it was written.
fn fault_of(wanted: Wanted, stopped: Stopped) -> Fault
    ensures why { (options : Asked_by) → (is_end stopped ≡ true → options.strict ≡ true) → IsScheduleFault options result }
    ensures refused { IsRefused result → is_end stopped ≡ true }
{
    match stopped {
        Stopped::Unwritten(error) => unwritten(wanted, error),
        Stopped::Refused(told) => Fault::Refused(told),
    }
}

/// Runs steps over a device that has the blocks. Each answer is written as it comes.
fn run_on<O: Write, E: Write>(
    alloc: Global,
    options: Options,
    config: Config,
    device: &mut MemDevice,
    source: Source<'_>,
    out: &mut O,
    err: &mut E,
) -> Result<(), Fault>
    requires { fits config device.old ≡ true }
    ensures whole { OnOk result (marks_lines options ≡ false → PrintsRun config device.old source.entry.schedule.now.steps options (O.contents out.old) (O.contents out.new)) }
    ensures start { OnErr result (marks_lines options ≡ false → PrintsStart config device.old source.entry.schedule.now.steps options (O.contents out.old) (O.contents out.new)) }
    ensures why { IfErr result (IsScheduleFault options) }
    ensures refused { IfErr result (λ why. IsRefused why → marks_lines options ≡ false → EndsRun config device.old source.entry.schedule.now.steps options (O.contents out.old) (O.contents out.new)) }
    ensures quiet { speaks options ≡ false → E.contents err.new ≡ E.contents err.old }
{
    let wanted = Wanted::of(&config, device.blocks());
    let Ended { ran, written } = print_run(alloc, options, config, device, source, out, err);
    match ran {
        Ok(_) => match written {
            Ok(()) => Ok(()),
            Err(stopped) => Err(fault_of(wanted, stopped)),
        },
        // Over a device that has the blocks, a run is refused only if memory runs out.
        Err(Stop::Refused(_)) => Err(Fault::Memory(wanted)),
        Err(Stop::Closed) => match written {
            // Not reached: a sink is closed only if an answer could not be written, or ends a strict run.
            Ok(()) => Err(Fault::Unwritable(ErrorKind::Other.into())),
            Err(stopped) => Err(fault_of(wanted, stopped)),
        },
    }
}

/// Runs a script over a new device, which has the blocks and the faults that the script asks for.
fn run_steps<O: Write, E: Write>(
    alloc: Global,
    options: Options,
    file: &str,
    bytes: &[u8],
    script: Script,
    out: &mut O,
    err: &mut E,
) -> Result<(), Fault>
    requires limits { is_config script.config ≡ true }
    ensures whole { OnOk result (marks_lines options ≡ false → PrintsRun script.config (new_disk (blocks_of script.config) script.read_faults.items script.write_faults.items) script.schedule.steps options (O.contents out.old) (O.contents out.new)) }
    ensures start { OnErr result (marks_lines options ≡ false → PrintsStart script.config (new_disk (blocks_of script.config) script.read_faults.items script.write_faults.items) script.schedule.steps options (O.contents out.old) (O.contents out.new)) }
    ensures why { IfErr result (IsScheduleFault options) }
    ensures refused { IfErr result (λ why. IsRefused why → marks_lines options ≡ false → EndsRun script.config (new_disk (blocks_of script.config) script.read_faults.items script.write_faults.items) script.schedule.steps options (O.contents out.old) (O.contents out.new)) }
    ensures quiet { speaks options ≡ false → E.contents err.new ≡ E.contents err.old }
{
    let Script {
        config,
        read_faults,
        write_faults,
        schedule,
        ..
    } = script;
    let mut device = match new_device(alloc, &config, &read_faults, &write_faults) {
        Ok(device) => device,
        Err(wanted) => return Err(Fault::Memory(wanted)),
    };
    let source = Source {
        name: file,
        script: bytes,
        schedule: &schedule,
        turns: config.turns,
    };
    run_on(alloc, options, config, &mut device, source, out, err)
}

/// Shows that a script is being read, if progress is to be shown.
fn show_reading<E: Write>(options: Options, err: &mut E)
    ensures quiet { speaks options ≡ false → E.contents err.new ≡ E.contents err.old }
    ensures unshown { options.progress ≡ false → E.contents err.new ≡ E.contents err.old }
{
    if options.progress {
        // Nothing depends on it.
        let _ = err.write_all(b"reading the script");
    }
}

/// Erases that text.
fn hide_reading<E: Write>(options: Options, err: &mut E)
    ensures quiet { speaks options ≡ false → E.contents err.new ≡ E.contents err.old }
    ensures unshown { options.progress ≡ false → E.contents err.new ≡ E.contents err.old }
{
    if options.progress {
        let _ = err.write_all(ERASE);
    }
}

/// Runs a script that was read, one turn after another, and writes the line of each answer to `out` as it comes.
/// What comes before these lines, and the line of an audit, are written to `out` too. Everything else that the
/// options ask for is written to `err`, and nothing but that. In `err` and in the fault, the script's file has the
/// name `file`.
///
/// The error says why the script was not run to its end. It names the first faulty line, with that line's first
/// cause. Otherwise memory ran out, or an answer could not be written. In a strict run, it may also be the first
/// line that was refused.
///
/// Nothing is run, and `out` gets nothing, unless the script as a whole is sound. A run that fails later has
/// written what it had answered.
pub fn run_script<O: Write, E: Write>(
    alloc: Global,
    options: Options,
    file: &str,
    script: &[u8],
    out: &mut O,
    err: &mut E,
) -> Result<(), Fault>
    ensures whole { OnOk result (marks_lines options ≡ false → PrintsScript options script.now (O.contents out.old) (O.contents out.new)) }
    ensures start { OnErr result (marks_lines options ≡ false → PrintsPart options script.now (O.contents out.old) (O.contents out.new)) }
    ensures faulty { (n : ℕ) (cause : Cause) → IsFirstFault Schedule (lines script.now) n cause → IsErr result × (O.contents out.new ≡ O.contents out.old) }
    ensures why { IfErr result (Explains options file.now script.now) }
    // The fault is the script's only if nothing was run.
    ensures unrun { IfErr result (λ why. IsOfScript why → O.contents out.new ≡ O.contents out.old) }
    // Then `err` got nothing before it, except how far reading had come.
    ensures unsaid { IfErr result (λ why. IsOfScript why → options.progress ≡ false → E.contents err.new ≡ E.contents err.old) }
    // It is a refused line only if the run ended there.
    ensures refused { IfErr result (λ why. IsRefused why → marks_lines options ≡ false → EndsScript options script.now (O.contents out.old) (O.contents out.new)) }
    ensures quiet { speaks options ≡ false → E.contents err.new ≡ E.contents err.old }
{
    one_answer();
    show_reading(options, err);
    match scripts::read(alloc, script, Mode::Schedule) {
        Ok(mut read) => {
            hide_reading(options, err);
            read.config.turns = options.turns;
            read.config.placement = options.placement;
            run_steps(alloc, options, file, script, read, out, err)
        }
        Err(fault) => {
            hide_reading(options, err);
            Err(faulty(alloc, options, file, script, Mode::Schedule, fault))
        }
    }
}

/// Reads and runs a script with no option, and so without the name of a file.
fn read_and_run<R: Read, O: Write, E: Write>(
    alloc: Global,
    script: &mut R,
    out: &mut O,
    err: &mut E,
) -> Result<(), Fault>
    ensures whole { OnOk result (IfSome (R.remaining script.old) (λ all. PrintsScript plain all (O.contents out.old) (O.contents out.new))) }
    ensures start { OnErr result (IfSome (R.remaining script.old) (λ all. PrintsPart plain all (O.contents out.old) (O.contents out.new))) }
    ensures faulty { IfSome (R.remaining script.old) (λ all. (n : ℕ) (cause : Cause) → IsFirstFault Schedule (lines all) n cause → IsErr result × Keeps (O.contents out.old) (O.contents out.new)) }
    ensures why { IfErr result (λ why. IfSome (R.remaining script.old) (λ all. IsUnread all why ⊎ Explains plain [] all why)) }
    ensures quiet { E.contents err.new ≡ E.contents err.old }
{
    let bytes = read_script(alloc, script)?;
    run_script(alloc, Options::default(), "", &bytes, out, err)
}

/// Reads a script and runs it, one turn after another, and writes the line of each answer to `out` as it comes.
///
/// The exit status is 0, or 1 if the run fails. A run fails if the script can't be read, has more than
/// [`SCRIPT_BYTES`], or has a faulty line. It also fails if memory runs out, or if an answer can't be written. Then
/// `err` gets one line, which for a faulty line is `line L: CAUSE`. It gets no line if `out` is a pipe whose reader
/// has closed it.
///
/// The call is [`read_script`], [`run_script`] and [`status_of`], as the program makes them. Their contracts say
/// more: a status says neither which fault there was nor whether its line could be written.
///
/// The clauses are about readers whose bytes are known, and writers whose contents are known.
pub fn schedule<R: Read, O: Write, E: Write>(
    alloc: Global,
    script: &mut R,
    out: &mut O,
    err: &mut E,
) -> u8
    ensures success_or_failure { result ≤ 1 }
    // If it is 0, `out` got what all of the script prints, and `err` nothing.
    ensures sound { result ≡ 0 → IfSome (R.remaining script.old) (λ all. PrintsScript plain all (O.contents out.old) (O.contents out.new)) }
    ensures silent { result ≡ 0 → Keeps (E.contents err.old) (E.contents err.new) }
    // For a script with a faulty line it is 1, and `out` got nothing.
    ensures faulty { IfSome (R.remaining script.old) (λ all. (n : ℕ) (cause : Cause) → IsFirstFault Schedule (lines all) n cause → (result ≡ 1) × Keeps (O.contents out.old) (O.contents out.new)) }
    // If it is 1, `out` got the beginning of what the script prints, or nothing. `err` got the line that says why,
    // or its beginning.
    ensures failed { result ≡ 1 → IfSome (R.remaining script.old) (λ all. PrintsPart plain all (O.contents out.old) (O.contents out.new)) }
    ensures told { result ≡ 1 → IfSome (R.remaining script.old) (λ all. TellsWhy all (E.contents err.old) (E.contents err.new)) }
{
    let ran = read_and_run(alloc, script, out, err);
    status_of(ran, err)
}
