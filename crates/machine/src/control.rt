//! Control files of a group.

use crate::record::Guard;

/// A control file (admin-guide/cgroup-v2, "Memory Interface Files"). The root has only `memory.reclaim`.
#[derive(Clone, Copy, Debug, PartialEq, Eq)]
pub enum ControlFile {
    /// `memory.current`, which is read.
    Current,
    /// `memory.max`, which is read and written.
    Max,
    /// `memory.min` or `memory.low`, which is read and written.
    Guard(Guard),
    /// `memory.oom.group`, which is read and written.
    OomGroup,
    /// `memory.events`, which is read: the counts of the group and of all groups below it.
    Events,
    /// `memory.events.local`, which is read: the counts of the group itself.
    EventsLocal,
    /// `memory.stat`, which is read: how many of the charged pages are memory of tasks, and how many are
    /// pages of files.
    Stat,
    /// `memory.reclaim`, which is written: an amount to reclaim from the group and from below it.
    Reclaim,
}
