//! Why a script was not run to its end, and what all kinds of runs begin with: the bytes of the script and a new device.
#![tactic(auto)]

mod device;
mod fault;

ghost use Rattle.std.specs.Prelude.{◌≡◌, string_bytes, IfSome, IfOk, IfErr, OnOk};
ghost use Rattle.std.specs.Str.Lines.{lines};
ghost use Rattle.scripts.specs.Script.{NamesFirstFault};
ghost use Rattle.printer.specs.declared.options.Options.{Options as Asked_by};
ghost use Rattle.script_faults.specs.Told.{placed_text, BeginsSo, Places, IsUnread, ExplainsIn, IsRefused, StartsReport, IsRunFault, IsScheduleFault};

pub use device::{new_device, wanted_by};
pub use fault::{Fault, MOST_ACTORS, Wanted};
use printer::Options;
use scripts::{Mode, ScriptFault};
use std::alloc::{AllocError, Global};
use std::io;
use std::io::{ErrorKind, Read, Write};

/// The most bytes that a script may have. With this limit, a reader that never ends is refused, and takes no more
/// memory than this.
pub use machine::limit::SCRIPT_BYTES;

const FAILED: u8 = 1;

/// All bytes of a script. The error says that the reader failed, that there was no memory for what it gave, or
/// that it gave more than [`SCRIPT_BYTES`].
pub fn read_script<R: Read>(alloc: Global, script: &mut R) -> Result<Vec<u8>, Fault>
    ensures bytes { IfOk result (λ bytes. IfSome (R.remaining script.old) (λ all. bytes.items ≡ all)) }
    ensures why { IfErr result (λ why. IfSome (R.remaining script.old) (λ all. IsUnread all why)) }
{
    let mut bytes = Vec::new(alloc);
    // Asks for one more byte, so that a script that is too long is never cut off and run.
    match script.take(SCRIPT_BYTES + 1).read_to_end(&mut bytes) {
        Err(error) => Err(Fault::Unreadable(error)),
        Ok(read) => {
            if read as u64 > SCRIPT_BYTES {
                return Err(Fault::TooLong);
            }
            Ok(bytes)
        }
    }
}

/// The fault of a run whose answer could not be written: for the bytes of an answer memory may be wanting too.
pub fn unwritten(wanted: Wanted, error: io::Error) -> Fault
    ensures of_run { IsRunFault result }
    ensures of_schedule { (options : Asked_by) → IsScheduleFault options result }
    ensures unrefused { ¬ IsRefused result }
{
    match error.kind() {
        ErrorKind::OutOfMemory => Fault::Memory(wanted),
        _ => Fault::Unwritable(error),
    }
}

/// The line of a fault with the name of the script's file, without an end of line.
fn place(alloc: Global, file: &str, fault: ScriptFault) -> Result<String, AllocError>
    ensures { IfOk result (λ told. string_bytes told ≡ placed_text file.now fault) }
{
    match fault {
        ScriptFault::At { line, cause } => format!(in alloc; "{file}:{line}: {cause}"),
        ScriptFault::Memory => String::from_str(alloc, "out of memory"),
    }
}

/// Adds a second line, if there is more to say.
fn add_more(
    alloc: Global,
    bytes: &[u8],
    fault: ScriptFault,
    told: &mut String,
) -> Result<(), AllocError>
    ensures { OnOk result (BeginsSo (string_bytes told.old) (string_bytes told.new)) }
{
    match explain::explain(alloc, bytes, fault)? {
        None => Ok(()),
        Some(more) => {
            told.push('\n')?;
            told.push_str(more.as_str())
        }
    }
}

/// All that a fault reports if the file's name is asked for.
fn placed(
    alloc: Global,
    options: Options,
    file: &str,
    bytes: &[u8],
    fault: ScriptFault,
) -> Result<String, AllocError>
    ensures { IfOk result (λ told. Places file.now fault (string_bytes told)) }
{
    let mut told = place(alloc, file, fault)?;
    if options.explain {
        add_more(alloc, bytes, fault, &mut told)?;
    }
    Ok(told)
}

/// The fault of a script that was not read. Where the options ask for it, the fault names the file, and a second line
/// says more. If there is no memory for that, its line is reported alone.
pub fn faulty(
    alloc: Global,
    options: Options,
    file: &str,
    bytes: &[u8],
    mode: Mode,
    fault: ScriptFault,
) -> Fault
    requires { NamesFirstFault mode fault (lines bytes.now) }
    ensures explains { ExplainsIn mode options file.now bytes.now result }
    ensures unrefused { ¬ IsRefused result }
{
    if !options.places_faults() {
        return Fault::Script(fault);
    }
    match placed(alloc, options, file, bytes, fault) {
        Ok(told) => Fault::Placed(fault, told),
        Err(_) => Fault::Script(fault),
    }
}

/// The exit status of a run: 0, or 1 if there is a fault. Then `err` gets the lines that say why, as
/// [`Fault::report`] writes them. The status reports the failure even if they can't be written.
pub fn status_of<E: Write>(ran: Result<(), Fault>, err: &mut E) -> u8
    ensures well { OnOk ran ((result ≡ 0) × (E.contents err.new ≡ E.contents err.old)) }
    ensures failed { IfErr ran (λ why. (result ≡ 1) × StartsReport why (E.contents err.old) (E.contents err.new)) }
{
    let Err(fault) = ran else {
        return 0;
    };
    let _ = fault.report(err);
    FAILED
}
