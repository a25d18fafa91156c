//! The pages that are held: in frames, and not in transfer. The crate keeps their generation lists together with
//! their marks as accessed, so a page that leaves its list also loses its mark.
//!
//! A new page enters the youngest generation of its group and type. A page that was read in enters the generation
//! that the placement chooses. No page enters with a mark. The placement determines how many hits mark a page. Only
//! the calls that open and reserve allocate memory.
#![tactic(auto)]

mod hit_counts;

ghost use Rattle.std.specs.Prelude.{◌≡◌, ◌≢◌, ℕ, ◌+◌, ◌-◌, ◌<◌, ◌≤◌, ◌^◌, ◌∷◌, [], true, false, Some, None, IfOk, OnOk, length, replicate, slice_set};
ghost use Rattle.machine.specs.Generations.{new_gens, gens_at, handed_over, is_listed, is_listed_in};
ghost use Rattle.machine.specs.Eviction.{has_usable};
ghost use Rattle.machine.specs.Lists.{entry_after, second_oldest, with_group, AreGenerations, PicksOf, Youngest};
ghost use Rattle.held_pages.specs.Held.{HeldOf, entered, left, hit, KeepsRows};

use crate::hit_counts::HitCounts;
use aging::MarkSet;
use eviction::pick;
use lru_gen::Gens;
use machine::config::Placement;
use machine::id::{GroupId, PageId};
use machine::record::{Direction, Kind};
use std::alloc::{AllocError, Global};
use std::marker::Model;

/// The generation lists of all groups, the marks of all pages, and how often those were hit that have no mark. Only
/// [`HeldPages::open`] and [`HeldPages::reserve_group`] allocate memory.
#[derive(Drop)]
pub struct HeldPages {
    gens: Gens,
    marks: MarkSet,
    hits: HitCounts,
}

impl Model for HeldPages {
    ghost use Rattle.held_pages.specs.Held.{HeldOf};

    ghost Value = { HeldOf };

    ghost use Rattle.std.specs.Prelude.{◌≡◌, length};

    ghost view = { λ h. record { lists = record { groups = h.gens.groups; marks = h.marks; hits = h.hits }; numbers = h.gens.pages; room = h.gens.room } };

    ghost invariant = { λ h. (length h.marks ≡ h.gens.pages) × (length h.hits ≡ h.gens.pages) };
}

impl HeldPages {
    /// No page, this many page numbers, and the root as the only group.
    pub fn open(alloc: Global, numbers: u32) -> Result<HeldPages, AllocError>
        ensures groups { IfOk result (λ h. h.lists.groups ≡ new_gens ∷ []) }
        ensures marks { IfOk result (λ h. h.lists.marks ≡ replicate numbers false) }
        ensures hits { IfOk result (λ h. h.lists.hits ≡ replicate numbers 0) }
        ensures numbers { IfOk result (λ h. h.numbers ≡ numbers) }
    {
        let mut gens = Gens::open(alloc, numbers as usize)?;
        gens.reserve_group()?;
        gens.add_group_reserved();
        let marks = MarkSet::open(alloc, numbers as usize)?;
        let hits = HitCounts::open(alloc, numbers as usize)?;
        Ok(HeldPages { gens, marks, hits })
    }

    /// The generation lists.
    pub fn gens(&self) -> &Gens
        ensures groups { result.now.groups ≡ self.now.lists.groups }
        ensures numbers { result.now.pages ≡ self.now.numbers }
    {
        &self.gens
    }

    /// Which pages are marked as accessed.
    pub fn marks(&self) -> &MarkSet
        ensures marks { result.now ≡ self.now.lists.marks }
        ensures size { length result.now ≡ self.now.numbers }
    {
        &self.marks
    }

    /// Does nothing. The contract states what always holds of the lists.
    pub fn are_generations(&self)
        ensures generations { AreGenerations self.now.lists }
        ensures apart { (g h p : ℕ) → is_listed (gens_at self.now.lists.groups g) p ≡ true → is_listed (gens_at self.now.lists.groups h) p ≡ true → g ≡ h }
        ensures size { length self.now.lists.marks ≡ self.now.numbers }
        ensures counts { length self.now.lists.hits ≡ self.now.numbers }
    {
        self.gens.is_sound();
    }

    /// Reserves the memory for another group.
    pub fn reserve_group(&mut self) -> Result<(), AllocError>
        ensures room { OnOk result (0 < self.new.room) }
        ensures same { self.new ≡ record self.old { room = self.new.room } }
    {
        self.gens.reserve_group()
    }

    /// Adds a group without pages. [`HeldPages::reserve_group`] reserved its memory.
    pub fn add_group(&mut self)
        requires { 0 < self.old.room }
        ensures { self.new ≡ record self.old { lists = with_group self.old.lists; room = self.new.room } }
    {
        self.gens.add_group_reserved();
    }

    /// Adds the page, which is on no list, to the end of the group's youngest generation (kernel: folio_add_lru).
    pub fn add(&mut self, group: GroupId, kind: Kind, page: PageId)
        requires group { group.0 < length self.old.lists.groups }
        requires number { page.0 < self.old.numbers }
        requires unlisted { is_listed_in self.old.lists.groups page.0 ≡ false }
        ensures { self.new ≡ record self.old { lists = entered self.old.lists group.0 kind page.0 Youngest } }
    {
        self.gens.is_sound();
        let seq = self.gens.max_seq(group);
        self.gens.add(group, page, kind, seq);
        self.hits.set(page, 0);
    }

    /// Adds the page to the end of the generation that this placement chooses for it (kernel: folio_putback_lru,
    /// lru_gen_add_folio). Its transfer in this direction has ended, and it is on no list. As Linux places pages, its
    /// read-in is its first hit.
    pub fn putback(
        &mut self,
        group: GroupId,
        kind: Kind,
        page: PageId,
        direction: Direction,
        placement: Placement,
    )
        requires group { group.0 < length self.old.lists.groups }
        requires number { page.0 < self.old.numbers }
        requires unlisted { is_listed_in self.old.lists.groups page.0 ≡ false }
        ensures { self.new ≡ record self.old { lists = entered self.old.lists group.0 kind page.0 (entry_after placement direction) } }
    {
        self.gens.is_sound();
        let youngest = self.gens.max_seq(group);
        let seq = match (direction, placement, kind) {
            (Direction::Out, _, _) | (Direction::In, Placement::Linux, Kind::Anon) => youngest,
            (Direction::In, Placement::Own, _) => youngest - 1,
            (Direction::In, Placement::Linux, Kind::File) => self.second_oldest(group),
        };
        self.gens.add(group, page, kind, seq);
        let hits = match (direction, placement) {
            (Direction::In, Placement::Linux) => 1,
            (Direction::Out, _) | (Direction::In, Placement::Own) => 0,
        };
        self.hits.set(page, hits);
    }

    /// The number of the second oldest generation of file pages, unless that is one of the two youngest. Then the
    /// number of the oldest (kernel: lru_gen_is_active).
    fn second_oldest(&self, group: GroupId) -> u64
        requires { group.0 < length self.now.lists.groups }
        ensures { result ≡ second_oldest (gens_at self.now.lists.groups group.0).max_seq (gens_at self.now.lists.groups group.0).file.min_seq }
    {
        self.gens.is_sound();
        let oldest = self.gens.min_seq(group, Kind::File);
        if self.gens.max_seq(group) - oldest > 2 {
            oldest + 1
        } else {
            oldest
        }
    }

    /// Removes the page from its list, with its mark and its hits. All others keep their places (kernel:
    /// folio_isolate_lru).
    pub fn isolate(&mut self, page: PageId)
        requires listed { is_listed_in self.old.lists.groups page.0 ≡ true }
        requires number { page.0 < self.old.numbers }
        ensures { (g : ℕ) → is_listed (gens_at self.old.lists.groups g) page.0 ≡ true → self.new ≡ record self.old { lists = left self.old.lists g page.0 } }
    {
        self.gens.isolate(page);
        self.marks.clear(page);
        self.hits.clear(page);
    }

    /// Removes the page from its list, with its mark, if it is on one.
    pub fn unlist(&mut self, page: PageId)
        requires { page.0 < self.old.numbers }
        ensures listed { (g : ℕ) → is_listed (gens_at self.old.lists.groups g) page.0 ≡ true → self.new ≡ record self.old { lists = left self.old.lists g page.0 } }
        ensures unlisted { is_listed_in self.old.lists.groups page.0 ≡ false → self.new ≡ self.old }
    {
        if self.gens.is_listed(page) {
            self.isolate(page);
        }
    }

    /// Moves all pages of one group to the end of another's second youngest generation, the oldest first. They
    /// keep their marks and their hits.
    pub fn take_over(&mut self, from: GroupId, to: GroupId)
        requires from { from.0 < length self.old.lists.groups }
        requires to { to.0 < length self.old.lists.groups }
        requires apart { from.0 ≢ to.0 }
        ensures { self.new ≡ record self.old { lists = record { groups = handed_over from.0 to.0 self.old.lists.groups; marks = self.old.lists.marks; hits = self.old.lists.hits } } }
    {
        self.gens.take_over(from, to);
    }

    /// Hits the page, which is of this type: an access found it. After so many hits as the placement requires it is
    /// marked as accessed, and the count ends (kernel: mark_page_accessed, folio_inc_refs).
    pub fn hit(&mut self, page: PageId, kind: Kind, placement: Placement)
        requires { page.0 < self.old.numbers }
        ensures hit { self.new ≡ record self.old { lists = hit self.old.lists placement kind page.0 } }
        ensures size { length self.old.lists.marks ≡ self.old.numbers }
        ensures counts { length self.old.lists.hits ≡ self.old.numbers }
    {
        if self.marks.is_marked(page) {
            return;
        }
        let before = self.hits.of(page);
        let is_last = u32::from(before) + 1 >= placement.hits_to_mark(kind);
        if is_last {
            self.marks.set(page);
        }
        let hits = if is_last { 0 } else { before + 1 };
        self.hits.set(page, hits);
    }

    /// The page of the group that is evicted next. It is still on its list.
    pub fn pick(&mut self, group: GroupId, swap_free: bool) -> PageId
        requires group { group.0 < length self.old.lists.groups }
        requires usable { has_usable swap_free (gens_at self.old.lists.groups group.0) ≡ true }
        requires fits { (gens_at self.old.lists.groups group.0).max_seq + 4 < 2 ^ 64 }
        ensures picked { PicksOf swap_free self.old.lists group.0 (Some result.0) self.new.lists }
        ensures listed { is_listed (gens_at self.old.lists.groups group.0) result.0 ≡ true }
        ensures rows { KeepsRows self.old.lists self.new.lists }
        ensures ages { (h : ℕ) → (gens_at self.new.lists.groups h).max_seq ≤ (gens_at self.old.lists.groups h).max_seq + 3 }
        ensures others { self.new ≡ record self.old { lists = self.new.lists } }
    {
        let Some(found) = pick(&mut self.gens, &mut self.marks, group, swap_free) else {
            unreachable!()
        };
        found.page
    }
}
