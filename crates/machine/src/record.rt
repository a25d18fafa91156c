//! Plain records that the machine and the code share.

use crate::amount::Amount;
use crate::id::GroupId;

/// Whether a task still runs.
#[derive(Clone, Copy, Debug, PartialEq, Eq)]
pub enum Life {
    Live,
    /// It ended by itself.
    Exited,
    /// Relief killed it (kernel: an OOM kill).
    Killed,
}

/// A task, without its number, which is kept apart.
#[derive(Clone, Copy, Debug, PartialEq, Eq)]
pub struct Task {
    /// The group that its new pages are charged to.
    pub group: GroupId,
    pub life: Life,
}

/// The direction of a page in transfer.
#[derive(Clone, Copy, PartialEq, Eq)]
pub enum Direction {
    /// It is being read in.
    In,
    /// It is being written out.
    Out,
}

/// The type of a page: memory of tasks, or of a file (kernel: LRU_GEN_ANON, LRU_GEN_FILE).
#[derive(Clone, Copy, PartialEq, Eq)]
pub enum Kind {
    Anon,
    File,
}

/// The keys of `memory.events`.
#[derive(Clone, Copy, PartialEq, Eq)]
pub enum Key {
    Low,
    High,
    Max,
    Oom,
    OomKill,
    OomGroupKill,
}

/// How often each key was counted (kernel: `memory_events` of a `struct mem_cgroup`).
#[derive(Clone, Copy, Debug, Default, PartialEq, Eq)]
pub struct EventCounts {
    /// A page of the group was reclaimed although the group's low protects it.
    pub low: u64,
    /// The group exceeded the throttling limit. This is always 0, since there is no such limit.
    pub high: u64,
    /// A charge failed at the group's max.
    pub max: u64,
    /// Nothing could be reclaimed under the group.
    pub oom: u64,
    /// A task of the group was killed.
    pub oom_kill: u64,
    /// The group was killed as one.
    pub oom_group_kill: u64,
}

/// How much memory is charged to a group and to those below it, by type, in pages (kernel: `anon` and
/// `file` of `memory.stat`).
#[derive(Clone, Copy, Debug, Default, PartialEq, Eq)]
pub struct MemoryStat {
    /// Memory of tasks.
    pub anon: u64,
    /// Pages of files.
    pub file: u64,
}

/// Which of its two settings protects a group from a reclaim above it.
#[derive(Clone, Copy, Debug, PartialEq, Eq)]
pub enum Guard {
    /// `memory.min`: what it protects is never reclaimed.
    Min,
    /// `memory.low`: what it protects is reclaimed only if nothing else is left to reclaim.
    Low,
}

/// Whether the OOM killer kills a group as one (kernel: `oom_group` of a `struct mem_cgroup`).
#[derive(Clone, Copy, Debug, Default, PartialEq, Eq)]
pub enum OomGroup {
    /// `0`: its tasks are killed one at a time.
    #[default]
    Single,
    /// `1`: if one of its tasks is the victim, all of them die, and all tasks of the groups below it.
    Whole,
}

/// The limits of a group.
#[derive(Clone, Copy)]
pub struct Limits {
    /// `memory.max`: no charge exceeds it.
    pub max: Amount,
    /// `memory.min`: how much is protected from reclaim.
    pub min: Amount,
    /// `memory.low`: how much is protected from reclaim while other groups have pages to reclaim.
    pub low: Amount,
}

impl Limits {
    ghost use Rattle.std.specs.Prelude.{◌≡◌};
    ghost use Rattle.machine.specs.Counts.{guard_of, with_guard};

    /// The limits of a new group: no limit and no protection.
    pub const NONE: Limits = Limits {
        max: Amount::Max,
        min: Amount::Pages(0),
        low: Amount::Pages(0),
    };

    /// How much this one of the two settings protects.
    pub fn guard(self, guard: Guard) -> Amount
        ensures { result ≡ guard_of guard self }
    {
        match guard {
            Guard::Min => self.min,
            Guard::Low => self.low,
        }
    }

    /// The same limits, with another value of this one of the two settings.
    pub fn with_guard(self, guard: Guard, amount: Amount) -> Limits
        ensures { result ≡ with_guard self guard amount }
    {
        match guard {
            Guard::Min => Limits {
                min: amount,
                ..self
            },
            Guard::Low => Limits {
                low: amount,
                ..self
            },
        }
    }
}
