//! The generations of all groups.

ghost use Rattle.std.specs.Prelude.{◌≡◌, ◌≢◌, ◌+◌, ◌<◌, ◌≤◌, ◌^◌, ◌∷◌, ◌++◌, [], ℕ, true, false, None, length, slice_get, is_some, option_map, option_copied, IfSome, IfOk, OnOk, IsOk};
ghost use Rattle.machine.specs.Generations.{new_gens, row_of, on_row, has_page, is_listed, is_listed_in, after_in, added, isolated, front_of, merged, raised, advanced, handed_over};
ghost use Rattle.machine.specs.Eviction.{has_usable, old_of};
ghost use Rattle.rings.specs.declared.ring_node.Link.{Link};
ghost use Rattle.rings.specs.RingNodes.{head_node};
ghost use Rattle.rings.specs.Rings.{list_at, is_there, last_node, IsLinkOf, KeepsLinksBut};
ghost use Rattle.machine.specs.declared.record.Kind.{Kind};
ghost use Rattle.lru_gen.specs.Gens.{gens_of, sets, IsSound};
ghost use Rattle.lru_gen.specs.Rows.{oldest};
ghost use Rattle.lru_gen.specs.Lists.{slot, lists_of, KeepsLinksOfMerge};

use crate::filled::Filled;
use crate::moving::move_pages;
use crate::numbers::{Numbers, list_of, type_of};
use crate::search::{alone_on, behind, first_from, has_any, next_turn};
use machine::id::{GroupId, PageId};
use machine::record::Kind;
use rings::{Link, RingNode, Rings};
use std::alloc::{AllocError, Global};
use std::marker::Model;
use std::mem::size_of;

// The number of lists fits in 31 bits, and each group has eight lists.
const MAX_GROUPS: usize = (1 << 28) - 1;

// The bytes of a group that the first lines of the crate state, without its eight lists of 8 bytes each.
const _: () = prove!(size_of::<Numbers>() + size_of::<Filled>() == 26);

/// The pages of all groups, on a list for each group, type and generation (kernel: `struct lru_gen_folio`).
///
/// A contract sees the lists of each type of a group as one row by rising sequence number. No call walks a list. Only
/// [`Gens::open`] and [`Gens::reserve_group`] allocate memory.
#[derive(Drop)]
pub struct Gens {
    rings: Rings,
    // By group.
    numbers: Vec<Numbers>,
    // By group too, and apart from the numbers, so a look at many groups reads only two bytes of each.
    filled: Vec<Filled>,
}

impl Model for Gens {
    ghost use Rattle.std.specs.Prelude.{◌-◌, min, vec_len, vec_capacity};
    ghost use Rattle.lru_gen.specs.Gens.{GensOf};

    ghost Value = { GensOf };

    ghost use Rattle.lru_gen.specs.Rows.{groups_from, room_of};
    ghost use Rattle.lru_gen.specs.Filled.{IsKept};

    ghost view = { λ s. record {
      groups = groups_from s.rings.lists 0 s.numbers.items;
      pages = s.rings.numbers;
      room = room_of s.rings.room (min (vec_capacity s.numbers - vec_len s.numbers) (vec_capacity s.filled - vec_len s.filled)) (vec_len s.numbers);
    } };

    ghost invariant = { λ s. IsKept s.rings.lists s.numbers.items s.filled.items };
}

impl Gens {
    /// No group, and pages with numbers below this. `AllocError` if there is no memory for their links, or if there are
    /// 2^31 or more.
    pub fn open(alloc: Global, pages: usize) -> Result<Self, AllocError>
        ensures { IfOk result (λ s. s ≡ record { groups = []; pages = pages; room = 0 }) }
    {
        let Ok(numbers) = u32::try_from(pages) else {
            return Err(AllocError);
        };
        Ok(Gens {
            rings: Rings::open(alloc, numbers)?,
            numbers: Vec::new(alloc),
            filled: Vec::new(alloc),
        })
    }

    /// Reserves the memory for another group. `AllocError` if memory runs out, or if there are 2^28 - 1 groups. The
    /// lists do not change in either case.
    pub fn reserve_group(&mut self) -> Result<(), AllocError>
        ensures room { OnOk result (0 < self.new.room) }
        ensures groups { self.new.groups ≡ self.old.groups }
        ensures pages { self.new.pages ≡ self.old.pages }
        ensures succeeds { 0 < self.old.room → IsOk result }
        ensures kept { self.old.room ≤ self.new.room }
    {
        if self.numbers.len() == MAX_GROUPS {
            return Err(AllocError);
        }
        self.rings.reserve(8)?;
        self.numbers.reserve(1)?;
        self.filled.reserve(1)?;
        Ok(())
    }

    /// Adds a group without pages. [`Gens::reserve_group`] reserved its memory.
    pub fn add_group_reserved(&mut self)
        requires room { 0 < self.old.room }
        ensures groups { self.new.groups ≡ self.old.groups ++ new_gens ∷ [] }
        ensures pages { self.new.pages ≡ self.old.pages }
        ensures room { self.new.room + 1 ≡ self.old.room }
    {
        self.rings.add(8);
        self.numbers.push_reserved(Numbers {
            max_seq: 3,
            anon_min_seq: 0,
            file_min_seq: 0,
        });
        self.filled.push_reserved(Filled::NONE);
    }

    /// How many groups there are.
    pub fn groups(&self) -> usize
        ensures { result ≡ length self.now.groups }
    {
        self.numbers.len()
    }

    /// How many page numbers there are.
    pub fn pages(&self) -> usize
        ensures { result ≡ self.now.pages }
    {
        self.rings.numbers() as usize
    }

    /// Does nothing. The contract states what always holds of the lists.
    pub fn is_sound(&self)
        ensures { IsSound self.now }
    {
        self.rings.lists_are_apart();
    }

    /// Whether the page is on a list.
    pub fn is_listed(&self, page: PageId) -> bool
        ensures { result ≡ is_listed_in self.now.groups page.0 }
    {
        self.rings.is_listed(page)
    }

    /// Lends the stored link of a page, or of the head of a list. `None` for a page that is on no list, and for a list
    /// that does not exist. The list of a generation has the number that [`list_of`] gives.
    pub fn link(&self, node: RingNode) -> Option<&Link>
        ensures there { is_some result ≡ is_there (lists_of self.now.groups) node }
        ensures link { IfSome (option_copied result) (λ link. IsLinkOf (lists_of self.now.groups) node link) }
    {
        self.rings.link(node)
    }

    /// The number of the group's youngest generation.
    pub fn max_seq(&self, group: GroupId) -> u64
        requires { group.0 < length self.now.groups }
        ensures { result ≡ (gens_of self.now group.0).max_seq }
    {
        self.numbers_of(group).max_seq
    }

    /// The number of a type's oldest generation.
    pub fn min_seq(&self, group: GroupId, kind: Kind) -> u64
        requires { group.0 < length self.now.groups }
        ensures { result ≡ (row_of kind (gens_of self.now group.0)).min_seq }
    {
        self.numbers_of(group).min_seq(kind)
    }

    fn numbers_of(&self, group: GroupId) -> &Numbers
        requires { group.0 < length self.now.groups }
        ensures youngest { result.now.max_seq ≡ (gens_of self.now group.0).max_seq }
        ensures oldest { (kind : Kind) → oldest kind result.now ≡ (row_of kind (gens_of self.now group.0)).min_seq }
    {
        &self.numbers[group.0 as usize]
    }

    /// The first page of a type's oldest generation.
    pub fn front(&self, group: GroupId, kind: Kind) -> Option<PageId>
        requires { group.0 < length self.now.groups }
        ensures { option_map (λ p. p.0) result ≡ front_of (row_of kind (gens_of self.now group.0)) }
    {
        let oldest = self.min_seq(group, kind);
        self.rings.front(list_of(group, kind, oldest))
    }

    /// The first page of a type, in the oldest generation that has one.
    pub fn first(&self, group: GroupId, kind: Kind) -> Option<PageId>
        requires { group.0 < length self.now.groups }
        ensures { option_map (λ p. p.0) result ≡ option_map (λ l. l.page) (slice_get (row_of kind (gens_of self.now group.0)).pages 0) }
    {
        let oldest = self.min_seq(group, kind);
        first_from(&self.rings, group, kind, oldest, 0, 4)
    }

    /// Whether the group has a reclaimable page: a file page, or an anonymous one if a swap block is free. It reads
    /// what is stored for each type, and no list.
    pub fn has_usable(&self, group: GroupId, swap_free: bool) -> bool
        requires { group.0 < length self.now.groups }
        ensures { result ≡ has_usable swap_free (gens_of self.now group.0) }
    {
        self.filled[group.0 as usize].has_usable(swap_free)
    }

    /// The page after this one among the pages of its type: the next on its list, or the first of a younger generation.
    pub fn after(&self, group: GroupId, kind: Kind, page: PageId) -> Option<PageId>
        requires group { group.0 < length self.now.groups }
        requires listed { has_page page.0 (row_of kind (gens_of self.now group.0)).pages ≡ true }
        ensures { option_map (λ p. p.0) result ≡ after_in page.0 (row_of kind (gens_of self.now group.0)).pages }
    {
        self.rings.lists_are_apart();
        let oldest = self.min_seq(group, kind);
        match behind(&self.rings, page) {
            RingNode::Page(next) => Some(next),
            RingNode::Head(list) => {
                let turn = next_turn(list, oldest);
                first_from(&self.rings, group, kind, oldest, turn, 4)
            }
        }
    }

    /// How many generations of a type are old: all but the two youngest.
    fn old_generations(&self, group: GroupId, kind: Kind) -> u64
        requires { group.0 < length self.now.groups }
        ensures two { (row_of kind (gens_of self.now group.0)).min_seq + result + 1 ≡ (gens_of self.now group.0).max_seq }
        ensures few { result ≤ 2 }
    {
        self.is_sound();
        self.max_seq(group) - 1 - self.min_seq(group, kind)
    }

    /// The first old page of a type: one that is in neither of the two youngest generations.
    pub fn first_old(&self, group: GroupId, kind: Kind) -> Option<PageId>
        requires { group.0 < length self.now.groups }
        ensures { option_map (λ p. p.0) result ≡ option_map (λ l. l.page) (slice_get (old_of (gens_of self.now group.0).max_seq (row_of kind (gens_of self.now group.0)).pages) 0) }
    {
        let oldest = self.min_seq(group, kind);
        let old = self.old_generations(group, kind);
        first_from(&self.rings, group, kind, oldest, 0, old)
    }

    /// The page after this one among the old pages of its type.
    pub fn old_after(&self, group: GroupId, kind: Kind, page: PageId) -> Option<PageId>
        requires group { group.0 < length self.now.groups }
        requires listed { has_page page.0 (old_of (gens_of self.now group.0).max_seq (row_of kind (gens_of self.now group.0)).pages) ≡ true }
        ensures { option_map (λ p. p.0) result ≡ after_in page.0 (old_of (gens_of self.now group.0).max_seq (row_of kind (gens_of self.now group.0)).pages) }
    {
        self.rings.lists_are_apart();
        let oldest = self.min_seq(group, kind);
        let old = self.old_generations(group, kind);
        match behind(&self.rings, page) {
            RingNode::Page(next) => Some(next),
            RingNode::Head(list) => {
                let turn = next_turn(list, oldest);
                first_from(&self.rings, group, kind, oldest, turn, old)
            }
        }
    }

    /// Adds a page that is on no list to the end of a generation of the group (kernel: lru_gen_add_folio). Allocates no
    /// memory.
    pub fn add(&mut self, group: GroupId, page: PageId, kind: Kind, seq: u64)
        requires group { group.0 < length self.old.groups }
        requires number { page.0 < self.old.pages }
        requires unlisted { is_listed_in self.old.groups page.0 ≡ false }
        requires low { (row_of kind (gens_of self.old group.0)).min_seq ≤ seq }
        requires high { seq ≤ (gens_of self.old group.0).max_seq }
        ensures groups { self.new ≡ sets self.old group.0 (added page.0 kind seq (gens_of self.old group.0)) }
        // At most three nodes' links change: those of the page, of the list's head, and of the page that was last.
        ensures few { KeepsLinksBut
            (RingNode.Page page ∷ head_node (slot group.0 kind seq)
            ∷ last_node (slot group.0 kind seq) (list_at (lists_of self.old.groups) (slot group.0 kind seq)) ∷ [])
            (lists_of self.old.groups) (lists_of self.new.groups) }
    {
        self.rings.push_back(list_of(group, kind, seq), page);
        let filled = &mut self.filled[group.0 as usize];
        filled.set(kind, true);
    }

    /// Removes a page from its list (kernel: lru_gen_del_folio).
    pub fn isolate(&mut self, page: PageId)
        requires { is_listed_in self.old.groups page.0 ≡ true }
        ensures groups { (g : ℕ) → is_listed (gens_of self.old g) page.0 ≡ true → self.new ≡ sets self.old g (isolated page.0 (gens_of self.old g)) }
        // At most three nodes' links change: those of the page and of its neighbours.
        ensures few { (link : Link) → IsLinkOf (lists_of self.old.groups) (RingNode.Page page) link
            → KeepsLinksBut (RingNode.Page page ∷ link.prev ∷ link.next ∷ []) (lists_of self.old.groups) (lists_of self.new.groups) }
    {
        self.rings.lists_are_apart();
        let emptied = alone_on(&self.rings, page);
        self.rings.remove(page);
        // A type loses its last page only if that page was alone on its list.
        if let Some(list) = emptied {
            let (group, kind) = type_of(list);
            let oldest = self.numbers[group.0 as usize].min_seq(kind);
            let still = has_any(&self.rings, group, kind, oldest);
            let filled = &mut self.filled[group.0 as usize];
            filled.set(kind, still);
        }
    }

    /// Moves all pages of one group to another's lists (kernel: the pages of a memory cgroup that goes offline become
    /// its parent's). Those of each type follow the pages of its second youngest generation, the oldest first.
    /// Allocates no memory, and takes the same time for any number of pages.
    pub fn take_over(&mut self, from: GroupId, to: GroupId)
        requires from { from.0 < length self.old.groups }
        requires to { to.0 < length self.old.groups }
        requires apart { from.0 ≢ to.0 }
        ensures { self.new ≡ record self.old { groups = handed_over from.0 to.0 self.old.groups } }
    {
        let Numbers {
            anon_min_seq,
            file_min_seq,
            ..
        } = self.numbers[from.0 as usize];
        let seq = self.numbers[to.0 as usize].max_seq - 1;
        move_pages(&mut self.rings, from, anon_min_seq, to, seq, Kind::Anon);
        move_pages(&mut self.rings, from, file_min_seq, to, seq, Kind::File);
        let moved = self.filled[from.0 as usize];
        let filled = &mut self.filled[to.0 as usize];
        filled.join(moved);
        self.filled[from.0 as usize] = Filled::NONE;
    }

    /// Moves the oldest generation of a type that has four to the front of the next (kernel: inc_min_seq).
    pub fn merge_oldest(&mut self, group: GroupId, kind: Kind)
        requires group { group.0 < length self.old.groups }
        requires four { (row_of kind (gens_of self.old group.0)).min_seq + 3 ≡ (gens_of self.old group.0).max_seq }
        ensures groups { self.new ≡ sets self.old group.0 (on_row kind merged (gens_of self.old group.0)) }
        // At most five nodes' links change: the two heads, the first and the last moved page, and the page that follows
        // them.
        ensures few { KeepsLinksOfMerge (lists_of self.old.groups) (lists_of self.new.groups)
            (slot group.0 kind (row_of kind (gens_of self.old group.0)).min_seq)
            (slot group.0 kind ((row_of kind (gens_of self.old group.0)).min_seq + 1)) }
    {
        let next = self.numbers[group.0 as usize].raise_min_seq(kind);
        self.rings
            .splice_front(list_of(group, kind, next - 1), list_of(group, kind, next));
    }

    /// Ends the oldest generation of a type, which is empty (kernel: try_to_inc_min_seq).
    pub fn raise_min(&mut self, group: GroupId, kind: Kind)
        requires group { group.0 < length self.old.groups }
        requires three { (row_of kind (gens_of self.old group.0)).min_seq + 2 ≤ (gens_of self.old group.0).max_seq }
        requires empty { front_of (row_of kind (gens_of self.old group.0)) ≡ None }
        ensures groups { self.new ≡ sets self.old group.0 (on_row kind raised (gens_of self.old group.0)) }
        ensures links { lists_of self.new.groups ≡ lists_of self.old.groups }
    {
        let _ = self.numbers[group.0 as usize].raise_min_seq(kind);
    }

    /// Begins a younger generation, without pages (kernel: inc_max_seq).
    pub fn advance(&mut self, group: GroupId)
        requires group { group.0 < length self.old.groups }
        requires anon { (gens_of self.old group.0).max_seq ≤ (gens_of self.old group.0).anon.min_seq + 2 }
        requires file { (gens_of self.old group.0).max_seq ≤ (gens_of self.old group.0).file.min_seq + 2 }
        requires fits { (gens_of self.old group.0).max_seq + 1 < 2 ^ 64 }
        ensures groups { self.new ≡ sets self.old group.0 (advanced (gens_of self.old group.0)) }
        ensures links { lists_of self.new.groups ≡ lists_of self.old.groups }
    {
        self.numbers[group.0 as usize].max_seq += 1;
    }
}
