//! Serving one page of a reclaim: which group it is evicted from (kernel: mm/vmscan.c,
//! shrink_node_memcgs; mm/memcontrol.c, mem_cgroup_iter).
//!
//! 1. A pass visits the target and all groups below it, each before those below it, and children in
//!    order of making. If a limit is full, its owner is the target. If the machine itself has no
//!    frame left, the target is the root.
//! 2. A pass begins after the group that was served last for this target, wraps around, and ends at
//!    that group. Therefore no group whose pages it may evict loses a second page before each of the
//!    others had its turn. If no group was served yet, or if that group was removed, the pass
//!    begins at the target.
//! 3. If the reclaim takes parts, a group can give more than one page in its turn. The number of pages is its
//!    size divided by the unit, rounded to the nearest number. It is at most a fourth of the group's pages.
//!    The unit is the size of the smallest group that has a page to give, and at least a sixteenth of the
//!    size of the largest. It is set when a round begins, which is when the walk is back at the target. If a
//!    group has no page to give, its turn ends.
//! 4. A pass skips a group while its `memory.min` protects it from a reclaim of the target, or if
//!    it has no reclaimable page. The first pass also skips the groups that their `memory.low` protects.
//!    A second pass visits these too, if the first finds no group. Both begin after the group that
//!    was served last. If age is heeded, a pass that visits only the groups with an old page of a
//!    file, one that is not marked, comes before each of the two.
//! 5. A page can be evicted only if there is a place for it. A group therefore loses anonymous pages only
//!    if a swap block is free; it can always lose pages of files.
//! 6. The generation lists of the served group determine the page: the crate `eviction` picks it.
//! 7. The lists and counts of the groups determine which one is served. The choice changes nothing. The
//!    target's cursor moves when the group is served.
//!
//! For example, `/p`, `/p/a` and `/q` have pages, and are below the root in this order:
//!
//! ```text
//! served last for the root   visited, in order
//! none                       /  /p  /p/a  /q
//! /p                         /p/a  /q  /  /p
//! /q                         /  /p  /p/a  /q
//! ```
//!
//! Each target has its own cursor: a reclaim of `/p` neither reads nor moves that of the root.
#![tactic(auto)]

pub use cursors::{Cursors, Served};
pub use scan_control::ScanControl;

mod cursor;
mod cursors;
mod pass;
mod scan_control;
mod turn;
