//! Why a script was not explored.

use orders::Fault as OrdersFault;
use scripts::ScriptFault;
use std::alloc::{AllocError, AllocFailed};
use std::{fmt, io};

/// Why a script was not explored.
#[derive(Debug, Drop)]
pub enum Fault {
    /// A line is faulty, as for a schedule. Or there was no memory for what the script says.
    Script(ScriptFault),
    /// The line with this number is `begin`, `step` or `finish`, and it is in the work. There all orders of turns are run.
    TakesApart(usize),
    /// The script has no work.
    NoWork,
    /// The work has this number of actors, and at most [`crate::MOST_ACTORS`] can be explored.
    TooManyActors(usize),
    /// The line with this number, of the setup, failed with this answer.
    SetupFails(usize, String),
    /// There is no outcome with this number. The second number is the number of outcomes.
    NoOutcome(u64, usize),
    /// Memory ran out.
    Memory,
    /// Other actors were ready than before after the same turns. No run was seen that does this.
    Changed,
    /// The outcomes could not be written.
    Unwritable(io::Error),
}

impl Fault {
    /// Whether nothing is reported: the reader of the outcomes has closed the pipe, as `head` does.
    pub fn is_silent(&self) -> bool {
        match self {
            Fault::Unwritable(error) => error.kind() == io::ErrorKind::BrokenPipe,
            _ => false,
        }
    }
}

impl From<AllocError> for Fault {
    ghost use Rattle.std.specs.Prelude.{◌≡◌};
    ghost use Rattle.division.specs.declared.fault.Fault.TheVariants.{Memory};

    ghost from_gives = { λ _ e. e ≡ Memory };

    fn from(_: AllocError) -> Fault {
        Fault::Memory
    }
}

impl<T: Drop> From<AllocFailed<T>> for Fault {
    ghost use Rattle.std.specs.Prelude.{◌≡◌};
    ghost use Rattle.division.specs.declared.fault.Fault.TheVariants.{Memory};

    ghost from_gives = { λ _ e. e ≡ Memory };

    fn from(_: AllocFailed<T>) -> Fault {
        Fault::Memory
    }
}

impl From<OrdersFault> for Fault {
    ghost use Rattle.division.specs.Faults.{IsOfRun};

    ghost from_gives = { λ _ e. IsOfRun e };

    fn from(fault: OrdersFault) -> Fault {
        match fault {
            OrdersFault::Changed => Fault::Changed,
            OrdersFault::NoMemory => Fault::Memory,
        }
    }
}

/// The line that is reported. The name of the script's file is not in it.
impl fmt::Display for Fault {
    fn fmt<W: fmt::Write>(&self, f: &mut fmt::Formatter<W>) -> fmt::Result {
        match self {
            Fault::Script(fault) => write!(f, "{}", fault.text()),
            Fault::TakesApart(line) => write!(
                f,
                "line {line}: `begin`, `step` and `finish` are only for the setup, before the first `go`"
            ),
            Fault::NoWork => f.write_str(
                "the script has no work: write the lines whose orders are to be explored after `go`",
            ),
            Fault::TooManyActors(actors) => write!(
                f,
                "the work has {actors} actors, and at most {} can be explored",
                crate::MOST_ACTORS
            ),
            Fault::SetupFails(line, said) => write!(f, "line {line}: the setup fails: {said}"),
            Fault::NoOutcome(asked, outcomes) => {
                write!(f, "no outcome {asked}: there are {outcomes}")
            }
            Fault::Memory => f.write_str("out of memory"),
            Fault::Changed => {
                f.write_str("the same turns made other actors ready: please report this")
            }
            Fault::Unwritable(error) => write!(f, "the outcomes can't be written: {error}"),
        }
    }
}
