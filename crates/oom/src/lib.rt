//! The victim of the OOM killer, when room is needed under a limit and no page can be reclaimed
//! (kernel: mm/oom_kill.c, select_bad_process and oom_badness). Also the group that dies with the
//! victim (kernel: mm/memcontrol.c, mem_cgroup_get_oom_group).
//!
//! 1. A candidate is a live task whose group is the limit group or below it. A task that has ended
//!    has no mappings left, and the limit does not apply to a task in another group.
//! 2. The victim is the candidate with the most mappings. Each of its virtual pages that maps a page
//!    counts as one, wherever that page is. A page that several tasks share counts for
//!    each of them in full.
//! 3. If several candidates have the most mappings, the victim is the one with the lowest number. A
//!    candidate without mappings is the victim only if no candidate has any.
//! 4. If there is no candidate, there is no victim.
//! 5. The killer then checks the groups from the victim's group up to the limit group, including both, for
//!    `1` in `memory.oom.group` (the flag). If any has it, the highest of them dies with the victim: all live tasks
//!    in and below it. No other group is checked.
//!
//! For example, for the limit group `/a`:
//!
//! ```text
//! task   group    life     mappings
//!    1   /a       live            2
//!    2   /a/b     live            5   victim: 5 mappings like task 3, and the lower number
//!    3   /a       live            5
//!    4   /a       exited          0   (no candidate: rule 1)
//!    5   /c       live            9   (no candidate: rule 1)
//! ```
//!
//! If `/a/b` has the flag, task 2 dies with all of `/a/b`, and task 3 survives. If `/a` has it too, tasks 1 to 3 die.
#![tactic(auto)]

ghost use Rattle.std.specs.Prelude.{◌≡◌, ◌+◌, true, Some, if◌then◌else◌, option_map};
ghost use Rattle.machine.specs.Tree.{under};
ghost use Rattle.machine.specs.Victim.{is_candidate, IsVictim, is_flagged, kill_group, IsVictims};
ghost use Rattle.group_tree.specs.Tables.{number};
ghost use Rattle.oom.specs.Worst.{IsWorstBelow};
ghost use Rattle.oom.specs.Chosen.{pair_of};

use group_tree::{Flags, Tree};
use machine::id::{GroupId, TaskId};
use machine::record::{Life, OomGroup};
use spaces::Spaces;

/// A candidate, and its number of mappings.
#[derive(Clone, Copy)]
struct Candidate {
    task: TaskId,
    size: usize,
}

/// The tasks to kill (kernel: `chosen` of a `struct oom_control`).
#[derive(Clone, Copy, Debug, PartialEq, Eq)]
pub struct Chosen {
    /// The victim: the task with the most mappings.
    pub victim: TaskId,
    /// The group that dies with the victim: all live tasks in and below it. `None` if only the victim dies.
    pub group: Option<GroupId>,
}

/// The tasks to kill for room under the limit: the victim, and the group that dies with it, if there is one (kernel:
/// out_of_memory, oom_kill_process). This group is the highest one with the flag, from the victim's group up to the
/// limit.
///
/// The call looks at each task number once, and then at these groups.
pub fn victims(tree: &Tree, spaces: &Spaces, flags: &Flags, limit: GroupId) -> Option<Chosen>
    ensures { IsVictims tree.now flags.now.flags spaces.now.tasks spaces.now.page_tables limit.0 (option_map pair_of result) }
{
    let victim = victim(tree, spaces, limit)?;
    let Some(known) = spaces.task(victim) else {
        unreachable!()
    };
    let group = kill_group(tree, flags, limit, known.group);
    Some(Chosen { victim, group })
}

/// The highest group with the flag, from this group up to the limit (kernel: mem_cgroup_get_oom_group).
pub fn kill_group(tree: &Tree, flags: &Flags, limit: GroupId, group: GroupId) -> Option<GroupId>
    requires { under tree.now limit.0 group.0 ≡ true }
    ensures { option_map (λ g. g.0) result ≡ kill_group tree.now flags.now.flags limit.0 group.0 }
{
    tree.groups_form_a_tree();
    let mut highest = None;
    let mut at = Some(group);
    while let Some(here) = at {
        highest = highest_with(flags, highest, here);
        if here == limit {
            return highest;
        }
        at = tree.parent(here);
    }
    highest
}

/// The highest group with the flag so far, after a look at another group, which is higher.
fn highest_with(flags: &Flags, highest: Option<GroupId>, here: GroupId) -> Option<GroupId>
    ensures { number result ≡ (if is_flagged flags.now.flags here.0 then Some here.0 else number highest) }
{
    match flags.flag(here) {
        OomGroup::Whole => Some(here),
        OomGroup::Single => highest,
    }
}

/// The live task at or under the limit with the most mappings. If several have the most, the one with the lowest
/// number (kernel: select_bad_process).
///
/// The call looks at each task number once. For a live task it walks up the tree from the task's group. A task's
/// number of mappings is stored with its page table.
pub fn victim(tree: &Tree, spaces: &Spaces, limit: GroupId) -> Option<TaskId>
    ensures { IsVictim tree.now spaces.now.tasks spaces.now.page_tables limit.0 (option_map (λ t. t.0) result) }
{
    let mut worst = None;
    for task in 0..spaces.slots() as u32 {
        worst = worst_with(tree, spaces, limit, worst, TaskId(task));
    }
    worst.map(|candidate| candidate.task)
}

/// The candidate with the most mappings so far, after a look at another task, whose number is higher.
fn worst_with(
    tree: &Tree,
    spaces: &Spaces,
    limit: GroupId,
    worst: Option<Candidate>,
    task: TaskId,
) -> Option<Candidate>
    requires { IsWorstBelow tree.now spaces.now.tasks spaces.now.page_tables limit.0 task.0 worst }
    ensures { IsWorstBelow tree.now spaces.now.tasks spaces.now.page_tables limit.0 (task.0 + 1) result }
{
    if !is_candidate(tree, spaces, limit, task) {
        return worst;
    }
    let size = spaces.size(task);
    match worst {
        Some(other) if size <= other.size => worst,
        _ => Some(Candidate { task, size }),
    }
}

/// Whether the task is live, in a group at or under the limit.
pub fn is_candidate(tree: &Tree, spaces: &Spaces, limit: GroupId, task: TaskId) -> bool
    ensures { result ≡ is_candidate tree.now spaces.now.tasks limit.0 task.0 }
{
    match spaces.task(task) {
        Some(known) => match known.life {
            Life::Live => tree.is_under(limit, known.group),
            Life::Exited | Life::Killed => false,
        },
        None => false,
    }
}
