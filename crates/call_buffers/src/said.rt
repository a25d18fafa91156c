//! The messages of a run, besides its answers.

ghost use Rattle.std.specs.Prelude.{◌≡◌, ◌≢◌, ◌⊎◌, [], Some, false, true, length, codes, IfOk, IfErr, IsOk, OnOk, OnErr};
ghost use Rattle.std.specs.Io.{WritesAtMost};
ghost use Rattle.std.specs.Io.KnownBytes.{Appends, Keeps, WriteAppends};
ghost use Rattle.std.specs.IoError.{error_kind};
ghost use Rattle.std.specs.declared.io.ErrorKind.TheVariants.{OutOfMemory};
ghost use Rattle.script_faults.specs.Told.{AllTold, StartsReport};
ghost use Rattle.call_buffers.specs.declared.status.TheConstants.{NO_MEMORY};
ghost use Rattle.call_buffers.specs.Calls.{status_by, IsStart};

use crate::status::{BAD_SCRIPT, NO_MEMORY, REFUSED};
use printer::write_bytes;
use script_faults::Fault;
use scripts::ScriptFault;
use std::alloc::Global;
use std::io;
use std::io::Write;

/// The messages of a run. The run continues if some of them can't be kept, so this remembers that.
#[derive(Drop)]
pub struct Said {
    pub bytes: Vec<u8>,
    /// There was no memory for some of them.
    pub is_cut: bool,
}

impl Said {
    pub fn new(alloc: Global) -> Said
        ensures none { result.bytes.items ≡ [] }
        ensures whole { result.is_cut ≡ false }
    {
        Said {
            bytes: Vec::new(alloc),
            is_cut: false,
        }
    }
}

impl Write for Said {
    ghost use Rattle.std.specs.Prelude.{Some};

    ghost contents = { λ s. Some s.bytes.items };

    /// Keeps all bytes, or remembers that there was no memory for them.
    fn write(&mut self, buf: &[u8]) -> io::Result<usize>
        ensures bound { WritesAtMost result buf.now }
        ensures bytes { WriteAppends (Some self.old.bytes.items) (Some self.new.bytes.items) result buf.now }
        ensures count { IfOk result (λ n. n ≡ length buf.now) }
        ensures kind { IfErr result (λ e. error_kind e ≡ OutOfMemory) }
        ensures kept { OnOk result (self.new.is_cut ≡ self.old.is_cut) }
        ensures cut { OnErr result (self.new.is_cut ≡ true) }
    {
        let written = self.bytes.write(buf);
        if written.is_err() {
            self.is_cut = true;
        }
        written
    }

    fn flush(&mut self) -> io::Result<()>
        ensures bytes { Keeps (Some self.old.bytes.items) (Some self.new.bytes.items) }
        ensures ok { IsOk result }
        ensures unchanged { self.new ≡ self.old }
    {
        Ok(())
    }
}

/// The status of a fault.
fn status_by(why: &Fault) -> u8
    ensures { result ≡ status_by why.now }
{
    match why {
        Fault::TooLong
        | Fault::Script(ScriptFault::At { .. })
        | Fault::Placed(ScriptFault::At { .. }, _) => BAD_SCRIPT,
        Fault::Refused(_) => REFUSED,
        // A write fails here if the bytes can't be kept. No schedule is refused for the number of its actors.
        Fault::Unreadable(_)
        | Fault::TooManyActors(_)
        | Fault::Script(ScriptFault::Memory)
        | Fault::Placed(ScriptFault::Memory, _)
        | Fault::Memory(_)
        | Fault::Unwritable(_) => NO_MEMORY,
    }
}

/// Adds the lines that say why a script was not run to its end, and returns the status. If a message could not be
/// kept, the status says so.
pub fn tell(why: &Fault, said: &mut Said) -> u8
    ensures either { (result ≡ status_by why.now) ⊎ (result ≡ NO_MEMORY) }
    ensures whole { result ≢ NO_MEMORY → AllTold (Appends (Some said.old.bytes.items) (Some said.new.bytes.items)) why.now }
    ensures start { StartsReport why.now (Some said.old.bytes.items) (Some said.new.bytes.items) }
{
    match why.report(said) {
        Ok(()) if !said.is_cut => status_by(why),
        _ => NO_MEMORY,
    }
}

/// Adds the lines that say why, after the name that is used for the script's file. Returns the status.
pub fn tell_named(why: &Fault, said: &mut Said) -> u8
    requires unsaid { said.old.bytes.items ≡ [] }
    ensures either { (result ≡ status_by why.now) ⊎ (result ≡ NO_MEMORY) }
    ensures whole { result ≢ NO_MEMORY → AllTold (Appends (Some (codes "script: ")) (Some said.new.bytes.items)) why.now }
    ensures start { IsStart (codes "script: ") said.new.bytes.items ⊎ StartsReport why.now (Some (codes "script: ")) (Some said.new.bytes.items) }
{
    match write_bytes(said, b"script: ") {
        Ok(()) => tell(why, said),
        Err(_) => NO_MEMORY,
    }
}
