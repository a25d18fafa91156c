//! Why an event, a command, an opening or a pass was refused. A refusal changes nothing.

use std::fmt;

#[derive(Clone, Copy, Debug, PartialEq, Eq)]
pub enum Refusal {
    /// `EEXIST`: the group exists already.
    Exists,
    /// `ENOENT`: there is no such group or file.
    NoEntry,
    /// `EBUSY`: a group other than the root may have tasks or child groups, not both.
    Busy,
    /// `ENOSPC`: the limit of groups, levels, tasks or passes is reached.
    NoSpace,
    /// `ESRCH`: no live task has this number. If the event answers `Killed` for a killed task, no
    /// killed task has it either.
    NoTask,
    /// The task's number was used before.
    NumberUsed,
    /// The trace has no room for the entries that the reply needs.
    TraceFull,
    /// Memory ran out.
    NoMemory,
    /// The ticket belongs to no transfer in flight here, or another pass took it.
    Stranger,
    /// There is no such virtual page, or no such offset in it.
    BadPlace,
    /// `EINVAL`: an invalid path or amount, a task's number or a configuration out of its limits,
    /// or a command that is not one of its actor's. Also a read or write that the control file does
    /// not allow.
    Invalid,
}

/// The name that is printed.
impl fmt::Display for Refusal {
    ghost use Rattle.std.specs.Prelude.{Some};
    ghost use Rattle.machine.specs.Printed.{refusal_text};

    ghost output = { λ r. Some (refusal_text r) };

    fn fmt<W: fmt::Write>(&self, f: &mut fmt::Formatter<W>) -> fmt::Result {
        f.write_str(match self {
            Refusal::Exists => "EEXIST",
            Refusal::NoEntry => "ENOENT",
            Refusal::Busy => "EBUSY",
            Refusal::NoSpace => "ENOSPC",
            Refusal::NoTask => "ESRCH",
            Refusal::NumberUsed => "NumberUsed",
            Refusal::TraceFull => "TraceFull",
            Refusal::NoMemory => "NoMemory",
            Refusal::Stranger => "Stranger",
            Refusal::BadPlace => "BadPlace",
            Refusal::Invalid => "EINVAL",
        })
    }
}
