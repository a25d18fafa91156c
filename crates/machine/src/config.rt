//! What the opening of a run determines.

ghost use Rattle.std.specs.Prelude.{◌≡◌, ℕ, ◌++◌, ◌∷◌, [], OnOk, OnErr};
ghost use Rattle.machine.specs.Access.{charged_from_swap};
ghost use Rattle.machine.specs.Lists.{hits_to_mark};
ghost use Rattle.machine.specs.Order.{heeds_age, takes_parts};
ghost use Rattle.machine.specs.Pages.{Away};
ghost use Rattle.machine.specs.State.{are_watermarks, is_sized};
ghost use Rattle.machine.specs.Step.{heir};

use crate::event::Goal;
use crate::id::GroupId;
use crate::limit::{MOST_ENTRIES, MOST_FRAMES, MOST_SWAP};
use crate::page_size::PageSize;
use crate::record::Kind;
use crate::text::Text;
use std::alloc::{AllocError, Global};
use std::marker::Model;

/// The daemon's watermarks, in free frames. `low` is at most `high`, and `high` is at most the number of frames
/// (kernel: `WMARK_LOW` and `WMARK_HIGH` of a `struct zone`).
#[derive(Clone, Copy, Default)]
pub struct Watermarks {
    /// The daemon starts when fewer frames than this are free.
    pub low: u32,
    /// It stops when this many frames are free.
    pub high: u32,
}

impl Watermarks {
    /// Whether the low watermark is at most the high one, and the high one at most the number of frames.
    pub fn are_in_order(self, frames: u32) -> bool
        ensures { result ≡ are_watermarks self frames }
    {
        self.low <= self.high && self.high <= frames
    }
}

/// A file: its name, of 1 to 32 characters as in the name of a group, and its number of pages, at least one.
#[derive(Drop)]
pub struct File {
    pub name: Text,
    pub pages: u32,
}

/// Files, each identified by its place in the list. A contract sees the value as that list.
#[derive(Drop)]
pub struct FileList {
    files: Vec<File>,
}

impl Model for FileList {
    ghost use Rattle.std.specs.Prelude.{List};
    ghost use Rattle.machine.specs.declared.config.File.{File};

    ghost Value = { List File };

    ghost view = { λ l. l.files.items };
}

impl FileList {
    /// An empty list. Allocates no memory.
    pub fn new(alloc: Global) -> Self
        ensures { result ≡ [] }
    {
        FileList {
            files: Vec::new(alloc),
        }
    }

    /// Adds the file at the end. It fails only if memory runs out, and then nothing changes.
    pub fn push(&mut self, file: File) -> Result<(), AllocError>
        ensures added { OnOk result (self.new ≡ self.old ++ file ∷ []) }
        ensures same { OnErr result (self.new ≡ self.old) }
    {
        self.files.push(file)?;
        Ok(())
    }

    /// The files, in their order.
    pub fn as_slice(&self) -> &[File]
        ensures { result.now ≡ self.now }
    {
        self.files.as_slice()
    }
}

/// Which generation list a page enters when it is read in, how many accesses mark a page, which groups a reclaim asks
/// first, and who is charged for memory that comes from swap after its group was removed. Under both rules, memory that
/// a task makes or copies enters the youngest generation. So does a page that could not be written out.
#[derive(Clone, Copy, Debug, PartialEq, Eq)]
pub enum Placement {
    /// Our own rule: every page that is read in enters the second youngest generation, and the access marks it. A
    /// reclaim asks all groups by turns.
    Own,
    /// Linux's rule (kernel: `lru_gen_add_folio`): memory that comes from swap enters the youngest generation. A page
    /// of a file enters the second oldest, unless that is one of the two youngest; then it enters the oldest. The
    /// fifth access marks a page of a file, and the one that reads it in is the first (kernel: `folio_inc_refs`). A
    /// reclaim for one page, or of the root, first asks the groups with an old page of a file. Swapped memory of a
    /// removed group is charged to whoever reads it in.
    Linux,
}

impl Placement {
    /// Whether a reclaim of the target asks the groups with an old page of a file before all others.
    pub fn heeds_age(self, goal: Goal, target: GroupId) -> bool
        ensures { result ≡ heeds_age self goal target.0 }
    {
        match self {
            Placement::Own => false,
            Placement::Linux => goal == Goal::OnePage || target == GroupId::ROOT,
        }
    }

    /// Whether a reclaim takes of each group a part, and not a page of each in turn.
    pub fn takes_parts(self, goal: Goal) -> bool
        ensures { result ≡ takes_parts self goal }
    {
        match (self, goal) {
            (Placement::Linux, Goal::Amount) => true,
            (Placement::Linux, Goal::OnePage) | (Placement::Own, _) => false,
        }
    }

    /// How many hits mark a page of this type as accessed. By Linux's rule a read-in is a page's first.
    pub fn hits_to_mark(self, kind: Kind) -> u32
        ensures { result ≡ hits_to_mark self kind }
    {
        match (self, kind) {
            (Placement::Linux, Kind::File) => 5,
            (Placement::Own, _) | (Placement::Linux, Kind::Anon) => 1,
        }
    }

    /// The group that is charged for memory of a group that comes from swap: that group. By Linux's rule the reader's,
    /// if the memory is the root's (kernel: `mem_cgroup_swapin_charge_folio`).
    pub fn charged_from_swap(self, group: GroupId, reader: GroupId) -> GroupId
        ensures { result.0 ≡ charged_from_swap self group.0 reader.0 }
    {
        if self == Placement::Linux && group == GroupId::ROOT {
            reader
        } else {
            group
        }
    }

    /// The group that memory on its swap block belongs to after its own group was removed, which was below the parent.
    pub fn heir_of_swapped(self, parent: GroupId) -> GroupId
        ensures { (block : ℕ) → result.0 ≡ heir self parent.0 (Away block) }
    {
        match self {
            Placement::Own => parent,
            Placement::Linux => GroupId::ROOT,
        }
    }
}

/// How large the machine is.
#[derive(Drop)]
pub struct Config {
    /// Page frames, 1 to 65,536.
    pub frames: u32,
    /// Swap blocks, at most 65,536. They are the first blocks of the device.
    pub swap: u32,
    /// Files, at most 64, with different names. The device has a block for each of their pages, after the swap blocks
    /// and in their order. All blocks together are at most 131,072.
    pub files: FileList,
    /// The daemon's watermarks.
    pub watermarks: Watermarks,
    /// The limit of the trace, 1 to 1,048,576 entries.
    pub trace: u32,
    /// The most turns of a schedule's line that runs until it is answered. The machine itself ignores it.
    pub turns: u32,
    /// Whether a group also gets a share of the protection that its siblings do not claim (kernel: the mount option
    /// memory_recursiveprot).
    pub recursive: bool,
    /// Which generation list a page enters when it is read in.
    pub placement: Placement,
    /// How many bytes a page stands for in amounts and texts. The machine itself counts in pages.
    pub page_size: PageSize,
}

impl Config {
    /// Whether each number is within its limits and the watermarks are in order. The files are not checked.
    pub fn is_sized(&self) -> bool
        ensures { result ≡ is_sized self.now }
    {
        (1 <= self.frames && self.frames <= MOST_FRAMES)
            && self.swap <= MOST_SWAP
            && self.watermarks.are_in_order(self.frames)
            && (1 <= self.trace && self.trace <= MOST_ENTRIES)
    }
}
