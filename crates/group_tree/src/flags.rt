//! Which groups the OOM killer kills as one.

ghost use Rattle.std.specs.Prelude.{◌≡◌, ◌+◌, ◌<◌, ◌≤◌, ◌++◌, ◌∷◌, [], length, slice_set, IfOk, OnOk, IsOk};
ghost use Rattle.machine.specs.Victim.{flag_at};

use machine::id::GroupId;
use machine::record::OomGroup;
use std::alloc::{AllocError, Global};
use std::marker::Model;

/// For each group, whether the OOM killer kills it as one (kernel: `oom_group` of a
/// `struct mem_cgroup`).
///
/// A contract sees the flags as a list by the groups' numbers, and for how many further groups there
/// is memory. A removed group keeps its place.
#[derive(Drop)]
pub struct Flags {
    flags: Vec<OomGroup>,
}

impl Model for Flags {
    ghost use Rattle.std.specs.Prelude.{◌-◌, vec_len, vec_capacity};
    ghost use Rattle.group_tree.specs.Flags.{FlagsOf};

    ghost Value = { FlagsOf };

    ghost view = { λ f. record { flags = f.flags.items; room = vec_capacity f.flags - vec_len f.flags } };
}

impl Flags {
    /// Only the root, without the flag. `AllocError` if there is no memory for it.
    pub fn new(alloc: Global) -> Result<Self, AllocError>
        ensures { IfOk result (λ f. f.flags ≡ OomGroup.Single ∷ []) }
    {
        let mut flags = Vec::with_capacity(alloc, 1)?;
        flags.push_reserved(OomGroup::Single);
        Ok(Flags { flags })
    }

    /// Reserves the memory for another group. `AllocError` if memory runs out. The flags do not
    /// change in either case.
    pub fn reserve(&mut self) -> Result<(), AllocError>
        ensures room { OnOk result (0 < self.new.room) }
        ensures flags { self.new.flags ≡ self.old.flags }
        ensures succeeds { 0 < self.old.room → IsOk result }
        ensures kept { self.old.room ≤ self.new.room }
    {
        self.flags.reserve(1)
    }

    /// Adds a group without the flag. [`Flags::reserve`] reserved its memory.
    pub fn add_reserved(&mut self)
        requires room { 0 < self.old.room }
        ensures flags { self.new.flags ≡ self.old.flags ++ OomGroup.Single ∷ [] }
        ensures room { self.new.room + 1 ≡ self.old.room }
    {
        self.flags.push_reserved(OomGroup::Single);
    }

    /// The group's flag. A number without a group has no flag.
    pub fn flag(&self, group: GroupId) -> OomGroup
        ensures { result ≡ flag_at self.now.flags group.0 }
    {
        match self.flags.get(group.0 as usize) {
            Some(flag) => *flag,
            None => OomGroup::Single,
        }
    }

    /// Sets the group's flag (kernel: memory_oom_group_write).
    pub fn set_flag(&mut self, group: GroupId, flag: OomGroup)
        requires there { group.0 < length self.old.flags }
        ensures flags { self.new.flags ≡ slice_set self.old.flags group.0 flag }
        ensures room { self.new.room ≡ self.old.room }
    {
        self.flags[group.0 as usize] = flag;
    }
}
