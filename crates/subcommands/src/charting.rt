//! Charts and tables of what groups are charged with.

ghost use Rattle.std.specs.Prelude.{◌≡◌, ℕ, true, false, [], List, map, IsErr, IfOk, IfErr, OnOk};
ghost use Rattle.std.specs.Io.KnownBytes.{Appends};
ghost use Rattle.std.specs.Str.Lines.{lines};
ghost use Rattle.charts.specs.Phased.{phases_in};
ghost use Rattle.machine.specs.State.{blocks_of, is_config};
ghost use Rattle.block_store.specs.Device.{new_disk};
ghost use Rattle.scripts.specs.declared.fault.Cause.{Cause};
ghost use Rattle.scripts.specs.declared.mode.Mode.TheVariants.{Schedule};
ghost use Rattle.scripts.specs.Script.{IsFirstFault};
ghost use Rattle.subcommands.specs.Charted.{charted_in, ListsRun, ListsScript, RefusesNothing};
ghost use Rattle.script_faults.specs.Told.{Explains, IsOfScript, IsRunFault};

use crate::run_script;
use block_store::{BlockDevice, MemDevice};
use charts::{phases, table, watch};
use driver::{Config, Steps};
use printer::{Options, paths_of, write_bytes};
use script_faults::{Fault, Wanted, faulty, new_device, unwritten};
use script_pictures::picture;
use scripts::{Mode, Script, one_answer};
use std::alloc::{AllocError, Global};
use std::io;
use std::io::Write;

/// The kinds of drawings of a run.
#[derive(Clone, Copy, Debug, PartialEq, Eq)]
pub enum Drawing {
    /// A picture, as SVG.
    Picture,
    /// A table of comma-separated values.
    Table,
}

/// The paths of the groups that are drawn: all groups that the steps make, or the root if they make none.
fn charted_paths(alloc: Global, schedule: &driver::Schedule) -> Result<Vec<&str>, AllocError>
    ensures { IfOk result (λ paths. map (λ p. p.now) paths.items ≡ charted_in schedule.now.steps) }
{
    let paths = paths_of(alloc, schedule)?;
    if paths.is_empty() {
        return Ok(vec![in alloc; "/"]?);
    }
    Ok(paths)
}

/// What is drawn: a script, and what it says.
#[derive(Clone, Copy)]
struct Drawn<'s> {
    kind: Drawing,
    title: &'s str,
    script: &'s [u8],
    schedule: &'s driver::Schedule,
}

/// The text that is written. It fails if memory is refused.
fn text_of(
    alloc: Global,
    drawn: Drawn<'_>,
    config: Config,
    device: &mut MemDevice,
) -> Result<Vec<u8>, AllocError>
    ensures listed { IfOk result (λ text. drawn.entry.kind ≡ Drawing.Table → ListsRun config device.old drawn.entry.schedule.now.steps drawn.entry.schedule.now.numbers (phases_in drawn.entry.script.now) text.items) }
{
    let paths = charted_paths(alloc, drawn.schedule)?;
    let numbers = drawn.schedule.numbers(alloc)?;
    let phases = phases(alloc, drawn.script)?;
    let steps = Steps::Lines(drawn.schedule);
    let page_size = config.page_size;
    match drawn.kind {
        Drawing::Picture => {
            let Ok(watched) = watch(alloc, config, device, steps, &paths, false) else {
                return Err(AllocError);
            };
            let picture = picture(alloc, drawn.title, &numbers, &phases, &paths, &watched)?;
            Ok(picture.into_bytes())
        }
        Drawing::Table => {
            let Ok(watched) = watch(alloc, config, device, steps, &paths, true) else {
                return Err(AllocError);
            };
            table(alloc, page_size, &numbers, &phases, &paths, &watched)
        }
    }
}

/// Writes the text, and flushes the writer.
fn write_all<O: Write>(out: &mut O, text: &[u8]) -> io::Result<()>
    ensures { OnOk result (Appends (O.contents out.old) (O.contents out.new) text.now) }
{
    write_bytes(out, text)?;
    out.flush()
}

/// Runs the script, which was read from these bytes, over a new device. Writes what the groups were charged with.
fn chart_steps<O: Write>(
    alloc: Global,
    kind: Drawing,
    title: &str,
    bytes: &[u8],
    script: Script,
    out: &mut O,
) -> Result<(), Fault>
    requires limits { is_config script.config ≡ true }
    ensures why { IfErr result IsRunFault }
    ensures listed { OnOk result (kind ≡ Drawing.Table → (text : List ℕ) × ListsRun script.config (new_disk (blocks_of script.config) script.read_faults.items script.write_faults.items) script.schedule.steps script.schedule.numbers (phases_in bytes.now) text × Appends (O.contents out.old) (O.contents out.new) text) }
{
    let Script {
        config,
        read_faults,
        write_faults,
        schedule,
        ..
    } = script;
    let mut device = match new_device(alloc, &config, &read_faults, &write_faults) {
        Ok(device) => device,
        Err(wanted) => return Err(Fault::Memory(wanted)),
    };
    let wanted = Wanted::of(&config, device.blocks());
    let drawn = Drawn {
        kind,
        title,
        script: bytes,
        schedule: &schedule,
    };
    let text = match text_of(alloc, drawn, config, &mut device) {
        Ok(text) => text,
        Err(_) => return Err(Fault::Memory(wanted)),
    };
    match write_all(out, text.as_slice()) {
        Ok(()) => Ok(()),
        Err(error) => Err(unwritten(wanted, error)),
    }
}

/// Runs the script to see whether a line is refused. What it answers is dropped.
fn run_strictly(alloc: Global, options: Options, title: &str, script: &[u8]) -> Result<(), Fault>
    requires strict { options.strict ≡ true }
    ensures unrefused { OnOk result (RefusesNothing options script.now) }
    ensures why { IfErr result (Explains options title.now script.now) }
{
    let unmarked = Options {
        labels: false,
        lines: false,
        ..options
    };
    let mut answers = Vec::new(alloc);
    let mut said = Vec::new(alloc);
    run_script(alloc, unmarked, title, script, &mut answers, &mut said)
}

/// `memcgrun chart FILE`: runs a script as [`crate::run_script`] does. In place of the answers, it writes a picture
/// or a table. This has the charges of each group that the script makes, after each line, and the frames and swap blocks
/// in use. A comment `# mark NAME` begins a phase of this name. It shows what a look at the book shows between two steps
/// (see [`charts::watch`]). No command is added, so the run is the same.
///
/// It fails as `run_script` does. Then `out` may have the beginning of the picture or of the table. For a faulty
/// script, `out` gets nothing. If the options ask for a strict run, the script is run once before, and nothing is drawn
/// if a line is refused.
pub fn chart<O: Write>(
    alloc: Global,
    options: Options,
    kind: Drawing,
    title: &str,
    script: &[u8],
    out: &mut O,
) -> Result<(), Fault>
    ensures faulty { (n : ℕ) (cause : Cause) → IsFirstFault Schedule (lines script.now) n cause → IsErr result × (O.contents out.new ≡ O.contents out.old) }
    ensures why { IfErr result (Explains options title.now script.now) }
    ensures unrun { IfErr result (λ why. IsOfScript why → O.contents out.new ≡ O.contents out.old) }
    // If the run was to be strict, no line was refused.
    ensures unrefused { OnOk result (options.strict ≡ true → RefusesNothing options script.now) }
    // If it succeeds and a table was asked for, `out` got the table of all groups that the script makes.
    ensures listed { OnOk result (kind ≡ Drawing.Table → ListsScript options script.now (O.contents out.old) (O.contents out.new)) }
{
    one_answer();
    if options.strict {
        run_strictly(alloc, options, title, script)?;
    }
    match scripts::read(alloc, script, Mode::Schedule) {
        Ok(mut read) => {
            read.config.turns = options.turns;
            read.config.placement = options.placement;
            chart_steps(alloc, kind, title, script, read, out)
        }
        Err(fault) => Err(faulty(alloc, options, title, script, Mode::Schedule, fault)),
    }
}
