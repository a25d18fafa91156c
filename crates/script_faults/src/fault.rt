//! Why a script was not run to its end, and the lines that say so.

ghost use Rattle.std.specs.Prelude.{◌≡◌, ◌↔◌, IsTrue, OnOk};
ghost use Rattle.std.specs.Io.KnownBytes.{Appends};
ghost use Rattle.machine.specs.Control.{line};
ghost use Rattle.printer.specs.Prints.{AppendsStart};
ghost use Rattle.script_faults.specs.Told.{front_of, rest_of, IsSilent, Reports, StartsReport, Behind};

use arrayvec::ArrayVec;
use machine::bytes::PAGE_BYTES;
use machine::config::Config;
use machine::limit::MOST_PASSES;
use printer::{write_bytes, write_line};
use scripts::ScriptFault;
use std::io::{ErrorKind, Write};
use std::{fmt, io};
use thiserror::Error;

/// The most actors of a script that run at once. Each has a pass, and the daemon has another.
pub const MOST_ACTORS: usize = MOST_PASSES - 1;

/// The most bytes in a line after its first words.
const REST_BYTES: usize = 512;

/// The most bytes of a line.
const LINE_BYTES: usize = 2 * REST_BYTES;

/// Why a script was not run to its end.
#[derive(Debug, Drop, Error)]
#[error("{}{}", self.front(), self.rest())]
pub enum Fault {
    /// The reader failed, or there was no memory for what it gave.
    Unreadable(io::Error),
    /// The script has more bytes than [`crate::SCRIPT_BYTES`].
    TooLong,
    /// The script has this number of actors, and at most [`crate::MOST_ACTORS`] can run at once.
    TooManyActors(usize),
    /// A line is faulty, or there was no memory for what the script says.
    Script(ScriptFault),
    /// A line is faulty. The text is the fault's line with the name of the script's file. A second line follows if there
    /// is more to say.
    Placed(ScriptFault, String),
    /// Memory was refused for the run, and not for a command's answer.
    Memory(Wanted),
    /// An answer could not be written.
    Unwritable(io::Error),
    /// A line was refused, and that ended the run. The text is the line that says which, and why.
    Refused(String),
}

impl Fault {
    /// The beginning of the line of this kind of fault.
    fn front(&self) -> &'static str
        ensures { result.now ≡ front_of self.now }
    {
        match self {
            Fault::Unreadable(_) => "the script can't be read: ",
            Fault::Memory(_) | Fault::TooManyActors(_) => "the run can't be made: ",
            Fault::Unwritable(_) => "the answers can't be written: ",
            Fault::TooLong | Fault::Script(_) | Fault::Placed(_, _) | Fault::Refused(_) => "",
        }
    }

    /// What its line says after that.
    fn rest(&self) -> Rest<'_>
        ensures { result.fault.now ≡ self.now }
    {
        Rest { fault: self }
    }

    /// Whether nothing is reported: the reader of the answers has closed the pipe, as `head` does.
    pub fn is_silent(&self) -> bool
        ensures { IsTrue result ↔ IsSilent self.now }
    {
        match self {
            Fault::Unwritable(error) => error.kind() == ErrorKind::BrokenPipe,
            _ => false,
        }
    }

    /// Whether its lines begin with the name of the script's file.
    pub fn names_file(&self) -> bool {
        matches!(self, Fault::Placed(_, _) | Fault::Refused(_))
    }

    /// Writes the lines that say why, or nothing if the fault is silent. It takes no memory.
    ///
    /// The error is the writer's, and then the writer took at most the beginning. It is also an error if the line
    /// would be longer than a line may be, and then nothing is written. Only a reader's or a writer's own text can
    /// be that long.
    pub fn report<E: Write>(&self, err: &mut E) -> io::Result<()>
        ensures whole { OnOk result (Reports self.now (E.contents err.old) (E.contents err.new)) }
        ensures start { StartsReport self.now (E.contents err.old) (E.contents err.new) }
    {
        if self.is_silent() {
            return Ok(());
        }
        match self {
            Fault::Placed(_, told) | Fault::Refused(told) => write_line(err, told.as_bytes()),
            _ => tell_line(err, self.front(), self.rest()),
        }
    }
}

/// Writes a line of two texts, in one piece.
fn tell_line<E: Write, D: fmt::Display + Drop>(err: &mut E, front: &str, rest: D) -> io::Result<()>
    ensures whole { OnOk result (Behind (Appends (E.contents err.old) (E.contents err.new)) front.now (D.output rest)) }
    ensures start { Behind (AppendsStart (E.contents err.old) (E.contents err.new)) front.now (D.output rest) }
{
    let mut text = ArrayVec::<u8, REST_BYTES>::new();
    write!(text, "{rest}")?;
    let mut line = ArrayVec::<u8, LINE_BYTES>::new();
    line.write_all(front.as_bytes())?;
    line.write_all(text.as_slice())?;
    line.write_all(b"\n")?;
    write_bytes(err, line.as_slice())
}

/// What the line of a fault says after its first words. Its bytes are known, unless they are the system's.
#[derive(Clone, Copy)]
struct Rest<'a> {
    fault: &'a Fault,
}

impl fmt::Display for Rest<'_> {
    ghost output = { λ r. rest_of r.fault.now };

    fn fmt<W: fmt::Write>(&self, f: &mut fmt::Formatter<W>) -> fmt::Result {
        match self.fault {
            Fault::TooLong => f.write_str("the script has more than 64 MiB"),
            Fault::TooManyActors(actors) => write!(
                f,
                "the script has {actors} actors, and at most {MOST_ACTORS} can run at once"
            ),
            Fault::Script(fault) => write!(f, "{}", fault.text()),
            Fault::Placed(_, told) | Fault::Refused(told) => f.write_str(told.as_str()),
            Fault::Memory(wanted) => write!(f, "{wanted}"),
            Fault::Unreadable(error) | Fault::Unwritable(error) => write!(f, "{error}"),
        }
    }
}

/// What the frames of a machine and the blocks of its device take: 4,096 bytes each. The machine needs more than
/// these.
#[derive(Clone, Copy, Debug)]
pub struct Wanted {
    frames: u32,
    swap: u32,
    /// How many blocks there are, including the swap blocks.
    blocks: u32,
}

impl Wanted {
    /// What a machine of this configuration needs, over a device with this number of blocks.
    pub fn of(config: &Config, blocks: u32) -> Wanted {
        Wanted {
            frames: config.frames,
            swap: config.swap,
            blocks,
        }
    }
}

impl fmt::Display for Wanted {
    fn fmt<W: fmt::Write>(&self, f: &mut fmt::Formatter<W>) -> fmt::Result {
        let pages = u64::from(self.frames) + u64::from(self.blocks);
        let bytes = pages * PAGE_BYTES as u64;
        match self.blocks.saturating_sub(self.swap) {
            0 => write!(
                f,
                "NoMemory: {} frames and {} swap blocks need at least {bytes} bytes",
                self.frames, self.swap
            ),
            files => write!(
                f,
                "NoMemory: {} frames, {} swap blocks and {files} pages of files need at least {bytes} bytes",
                self.frames, self.swap
            ),
        }
    }
}
