//! Bytes that are written to a writer.

ghost use Rattle.std.specs.Prelude.{OnOk};
ghost use Rattle.std.specs.Io.KnownBytes.{Appends};
ghost use Rattle.machine.specs.Control.{line};
ghost use Rattle.printer.specs.Prints.{AppendsStart};

use std::io;
use std::io::{ErrorKind, Write};

/// Writes all the bytes, in the fewest calls that the writer allows. If the writer takes no more, it got the first
/// of them, or none.
pub fn write_bytes<W: Write>(writer: &mut W, bytes: &[u8]) -> io::Result<()>
    ensures whole { OnOk result (Appends (W.contents writer.old) (W.contents writer.new) bytes.now) }
    ensures start { AppendsStart (W.contents writer.old) (W.contents writer.new) bytes.now }
{
    let mut at = 0;
    // An interrupted call is made again. This ends, however often it happens.
    for _ in 0..usize::MAX {
        if at == bytes.len() {
            return Ok(());
        }
        match writer.write(&bytes[at..]) {
            Ok(0) => return Err(ErrorKind::WriteZero.into()),
            Ok(n) => at += n,
            Err(error) if error.kind() == ErrorKind::Interrupted => {}
            Err(error) => return Err(error),
        }
    }
    Err(ErrorKind::Interrupted.into())
}

/// Writes bytes and the end of their line.
pub fn write_line<E: Write>(err: &mut E, bytes: &[u8]) -> io::Result<()>
    ensures whole { OnOk result (Appends (E.contents err.old) (E.contents err.new) (line bytes.now)) }
    ensures start { AppendsStart (E.contents err.old) (E.contents err.new) (line bytes.now) }
{
    write_bytes(err, bytes)?;
    write_bytes(err, b"\n")
}
