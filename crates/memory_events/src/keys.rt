//! The counts of one group, by key.

ghost use Rattle.std.specs.Prelude.{◌≡◌, ◌<◌};
ghost use Rattle.machine.specs.Counts.{count_of_key, once_more};

use machine::record::{EventCounts, Key};

/// Adds one to the count of the key.
pub(crate) fn count_once(counts: &mut EventCounts, key: Key)
    requires { count_of_key counts.old key < u64.MAX }
    ensures { counts.new ≡ once_more counts.old key }
{
    match key {
        Key::Low => counts.low += 1,
        Key::High => counts.high += 1,
        Key::Max => counts.max += 1,
        Key::Oom => counts.oom += 1,
        Key::OomKill => counts.oom_kill += 1,
        Key::OomGroupKill => counts.oom_group_kill += 1,
    }
}
