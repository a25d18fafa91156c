//! The groups, by number and by path.

ghost use Rattle.std.specs.Prelude.{◌≡◌, ℕ, Bool, ◌<◌, ◌++◌, ◌∷◌, [], true, false, length, map, IsTrue, IfSome, IfOk, IfErr, OnOk, OnErr};
ghost use Rattle.std.specs.Option.{option_map};
ghost use Rattle.machine.specs.Tree.{root, node_at, is_live, chain, under, has_children, find_group, without_group};
ghost use Rattle.machine.specs.Names.{parent_path};
ghost use Rattle.machine.specs.Refusals.{first_cause, space_refusal, mkdir_refusal};
ghost use Rattle.machine.specs.Step.{new_node};
ghost use Rattle.group_tree.specs.Groups.{IsGroupTree};

use crate::path::parent_path;
use crate::walk::Walk;
use arrayvec::ArrayVec;
use indexmap::IndexMap;
use machine::id::GroupId;
use machine::refusal::Refusal;
use std::alloc::{AllocError, Global};
use std::marker::Model;
use text_forms::name::is_path;

/// The most live groups, including the root.
const MAX_GROUPS: usize = 256;

/// The most groups above a group, including the root.
const MAX_LEVELS: usize = 16;

/// The most groups that are ever made. The number of the next group after them must be a `u32` too.
const MAX_NUMBERS: usize = u32::MAX as usize;

/// A group: its parent, the path that it was made with, and whether it still exists.
#[derive(Drop)]
pub struct Group {
    pub parent: Option<GroupId>,
    /// Contracts see it, and a removal takes it out of the index. The code finds a group by the
    /// index.
    path: String,
    live: bool,
}

/// The tree of groups. Its first group is the root, at `/`.
///
/// A contract sees it as the list of its groups in order of making: a group's number is its place in
/// this list.
#[derive(Drop)]
pub struct Tree {
    alloc: Global,
    /// By number. A removed group keeps its place, so its parent stays known.
    groups: Vec<Group>,
    /// The live groups in the order of a walk.
    pub(crate) walk: Walk,
    /// How many groups are live.
    live: usize,
    /// The live group of each path.
    by_path: IndexMap<String, GroupId>,
}

impl Model for Tree {
    ghost use Rattle.std.specs.Prelude.{List};
    ghost use Rattle.machine.specs.Tree.{Node};
    ghost use Rattle.group_tree.specs.Tables.{nodes_of, AreTables};
    ghost use Rattle.group_tree.specs.Places.{IsWalkOf};

    ghost Value = { List Node };

    ghost view = { λ t. nodes_of t.groups.items };

    ghost invariant = { λ t. AreTables t.groups.items t.live t.by_path.entries × IsWalkOf (nodes_of t.groups.items) t.walk };
}

impl Tree {
    /// The tree with only the root. `AllocError` if there is no memory for it.
    pub fn open(alloc: Global) -> Result<Self, AllocError>
        ensures { IfOk result (λ tree. tree ≡ root ∷ []) }
    {
        let mut groups = Vec::with_capacity(alloc, 1)?;
        let walk = Walk::open(alloc)?;
        let mut by_path = IndexMap::new(alloc);
        let path = String::from_str(alloc, "/")?;
        by_path.insert(String::from_str(alloc, "/")?, GroupId::ROOT)?;
        groups.push_reserved(Group {
            parent: None,
            path,
            live: true,
        });
        Ok(Tree {
            alloc,
            groups,
            walk,
            live: 1,
            by_path,
        })
    }

    /// Makes a group with this path, below the group of the path without its last name (kernel:
    /// mem_cgroup_css_alloc).
    ///
    /// The caller has checked that nothing refuses it (`parent_for`, `space_refusal`). `AllocError`
    /// if there is no memory for it, or no number left. Then nothing changes.
    pub fn mkdir(&mut self, path: &str) -> Result<GroupId, AllocError>
        requires { mkdir_refusal self.old (λ g. false) path.now ≡ None }
        ensures id { IfOk result (λ g. g.0 ≡ length self.old) }
        ensures ok { OnOk result (self.new ≡ self.old ++ new_node self.old path.now ∷ []) }
        ensures err { OnErr result (self.new ≡ self.old) }
    {
        // `space_refusal` limits only the live groups, and a removed one keeps its number. If no
        // number is left, the call fails as if memory had run out: the table has no place for another
        // group.
        if self.groups.len() >= MAX_NUMBERS {
            return Err(AllocError);
        }
        let id = self.next_id();
        let parent = self.find(parent_path(path)).unwrap();
        let key = String::from_str(self.alloc, path)?;
        let path = String::from_str(self.alloc, path)?;
        self.groups.reserve(1)?;
        self.walk.reserve()?;
        self.by_path.insert(key, id)?;
        self.walk.insert(&self.groups, id, parent);
        self.groups.push_reserved(Group {
            parent: Some(parent),
            path,
            live: true,
        });
        self.live += 1;
        Ok(id)
    }

    /// Removes the group (kernel: cgroup_destroy_locked). It is not the root and has no children. No
    /// other group gets its number, its parent stays known, and its path can be made again.
    pub fn rmdir(&mut self, group: GroupId)
        requires below { 0 < group.0 }
        requires live { is_live self.old group.0 ≡ true }
        requires childless { has_children self.old group.0 ≡ false }
        ensures { self.new ≡ without_group self.old group.0 }
    {
        self.walk.remove(&self.groups, group);
        let removed = &mut self.groups[group.0 as usize];
        removed.live = false;
        self.by_path.swap_remove(removed.path.as_str());
        self.live -= 1;
    }

    /// Does nothing. The contract states what holds of every tree of groups.
    pub fn groups_form_a_tree(&self)
        ensures { IsGroupTree self.now }
    {
        let _ = &self.groups;
    }

    /// The number of the group that is made next.
    pub fn next_id(&self) -> GroupId
        ensures { result.0 ≡ length self.now }
    {
        GroupId(self.groups.len() as u32)
    }

    /// Whether the group exists and was not removed.
    pub fn is_live(&self, group: GroupId) -> bool
        ensures { result ≡ is_live self.now group.0 }
    {
        match self.groups.get(group.0 as usize) {
            Some(group) => group.live,
            None => false,
        }
    }

    /// The group of a path.
    pub fn find(&self, path: &str) -> Option<GroupId>
        ensures group { option_map (λ g. g.0) result ≡ find_group self.now path.now }
        ensures live { IfSome result (λ g. IsTrue (is_live self.now g.0)) }
    {
        self.by_path.get(path).copied()
    }

    /// The parent of a group (kernel: parent_mem_cgroup). `None` for the root and for a number
    /// without a group.
    pub fn parent(&self, group: GroupId) -> Option<GroupId>
        ensures parent { option_map (λ g. g.0) result ≡ (node_at self.now group.0).parent }
        ensures tree { IsGroupTree self.now }
    {
        self.groups.get(group.0 as usize)?.parent
    }

    /// Whether `above` is the group itself or one above it (kernel: mem_cgroup_is_descendant).
    pub fn is_under(&self, above: GroupId, group: GroupId) -> bool
        ensures { result ≡ under self.now above.0 group.0 }
    {
        let mut at = Some(group);
        while let Some(here) = at {
            if here == above {
                return true;
            }
            at = self.parent(here);
        }
        false
    }

    /// Whether the group has a live child.
    pub fn has_children(&self, group: GroupId) -> bool
        ensures { result ≡ has_children self.now group.0 }
    {
        self.is_live(group) && self.walk.spans[group.0 as usize] > 1
    }

    /// The group, its parent, and so on up to the root. No group has more than 16 above it.
    pub fn ancestors(&self, group: GroupId) -> ArrayVec<GroupId, 17>
        requires { IsTrue (is_live self.now group.0) }
        ensures { map (λ g. g.0) result.items ≡ chain self.now (Some group.0) }
    {
        let mut chain = ArrayVec::new();
        let mut at = Some(group);
        while let Some(here) = at {
            at = self.parent(here);
            chain.push(here);
        }
        chain
    }

    /// The parent of a new group with this path.
    ///
    /// `Invalid` if the text is not a path, `NoEntry` if the parent does not exist, and `Exists` if a
    /// group has this path already: the first of these that applies. Whether the group may have
    /// children (`Busy`) and whether there is room (`space_refusal`) is checked afterwards.
    pub fn parent_for(&self, path: &str) -> Result<GroupId, Refusal>
        ensures parent { IfOk result (λ p. find_group self.now (parent_path path.now) ≡ Some p.0) }
        ensures live { IfOk result (λ p. IsTrue (is_live self.now p.0)) }
        ensures ok { IfOk result (λ p. (barred : ℕ → Bool) →
            mkdir_refusal self.now barred path.now
            ≡ first_cause (barred p.0) Refusal.Busy (space_refusal self.now p.0)) }
        ensures err { IfErr result (λ cause. (barred : ℕ → Bool) →
            mkdir_refusal self.now barred path.now ≡ Some cause) }
    {
        if !is_path(path) {
            return Err(Refusal::Invalid);
        }
        let Some(parent) = self.find(parent_path(path)) else {
            return Err(Refusal::NoEntry);
        };
        if self.find(path).is_some() {
            return Err(Refusal::Exists);
        }
        Ok(parent)
    }

    /// Why there is no room for a group below this one, if so: `NoSpace` if there are 256 live
    /// groups, or if this one is 16 levels below the root.
    pub fn space_refusal(&self, parent: GroupId) -> Option<Refusal>
        requires { IsTrue (is_live self.now parent.0) }
        ensures { result ≡ space_refusal self.now parent.0 }
    {
        if self.live >= MAX_GROUPS || self.ancestors(parent).len() > MAX_LEVELS {
            Some(Refusal::NoSpace)
        } else {
            None
        }
    }
}
