//! A task's page table.

ghost use Rattle.std.specs.Prelude.{◌≡◌, ℕ, ◌+◌, ◌-◌, ◌<◌, ◌≤◌, ◌++◌, [], None, Some, IsSome, IfOk, true, length, max, replicate, slice_set, vec_capacity};
ghost use Rattle.machine.specs.Access.{task_pages};
ghost use Rattle.machine.specs.Slots.{at, count_there};

use machine::id::PageId;
use machine::limit::TASK_PAGES;
use std::alloc::{AllocError, Global};
use std::marker::Model;

/// For each virtual page of a task, the page that it maps (kernel: the page table of a
/// `struct mm_struct`). A number without a live task has a table without a place, which takes no
/// memory.
///
/// Only the places up to the last virtual page that ever mapped a page are written. There is memory
/// for all.
#[derive(Drop)]
pub(crate) struct PageTable {
    places: Vec<Option<PageId>>,
    /// How many places there are with those that are not written: all, or none without a live task.
    pages: u32,
    /// How many of the places map a page (kernel: the counter `MM_ANONPAGES` of a
    /// `struct mm_struct`, with the pages in swap).
    shown: u32,
}

impl Model for PageTable {
    ghost use Rattle.std.specs.Prelude.{◌≡◌, ◌≤◌, true, length, vec_capacity};
    ghost use Rattle.machine.specs.Access.{task_pages};
    ghost use Rattle.machine.specs.Slots.{count_there};
    ghost use Rattle.machine.specs.Tasks as tasks;
    ghost use Rattle.spaces.specs.Places.{all_places};

    ghost Value = { tasks.PageTable };

    ghost view = { λ table. all_places table.places.items table.pages };

    ghost invariant = { λ table. (length table.places.items ≤ table.pages) × (table.pages ≤ task_pages) × (table.pages ≤ vec_capacity table.places) × (table.shown ≡ count_there (λ page. true) table.places.items) };
}

/// Adds places that map nothing, up to this number of places.
fn extend(places: &mut Vec<Option<PageId>>, count: usize)
    requires { count ≤ vec_capacity places.old }
    ensures items { places.new.items ≡ places.old.items ++ replicate (count - length places.old.items) None }
    ensures room { vec_capacity places.new ≡ vec_capacity places.old }
{
    while places.len() < count {
        places.push_reserved(None);
    }
}

impl PageTable {
    /// A table without a place.
    pub(crate) fn none(alloc: Global) -> PageTable
        ensures { result ≡ [] }
    {
        PageTable {
            places: Vec::new(alloc),
            pages: 0,
            shown: 0,
        }
    }

    /// The table of a new task: no virtual page maps a page.
    pub(crate) fn new(alloc: Global) -> Result<PageTable, AllocError>
        ensures { IfOk result (λ table. table ≡ replicate task_pages None) }
    {
        let places = Vec::with_capacity(alloc, TASK_PAGES as usize)?;
        Ok(PageTable {
            places,
            pages: TASK_PAGES,
            shown: 0,
        })
    }

    /// The page that a virtual page maps.
    pub(crate) fn page(&self, place: u32) -> Option<PageId>
        ensures { result ≡ at self.now place }
    {
        match self.places.get(place as usize) {
            Some(slot) => *slot,
            None => None,
        }
    }

    /// A number that is above those of all virtual pages that map a page.
    pub(crate) fn bound(&self) -> u32
        ensures within { result ≤ task_pages }
        ensures above { (place : ℕ) → result ≤ place → at self.now place ≡ None }
    {
        self.places.len() as u32
    }

    /// How many virtual pages map a page.
    pub(crate) fn size(&self) -> u32
        ensures { result ≡ count_there (λ page. true) self.now }
    {
        self.shown
    }

    /// Maps the page at a virtual page that maps nothing.
    pub(crate) fn map(&mut self, place: u32, page: PageId)
        requires within { place < length self.old }
        requires unmapped { at self.old place ≡ None }
        ensures { self.new ≡ slice_set self.old place (Some page) }
    {
        let place = place as usize;
        extend(&mut self.places, place + 1);
        self.places[place] = Some(page);
        self.shown += 1;
    }

    /// Unmaps a virtual page that maps a page.
    pub(crate) fn unmap(&mut self, place: u32)
        requires { IsSome (at self.old place) }
        ensures { self.new ≡ slice_set self.old place None }
    {
        self.places[place as usize] = None;
        self.shown -= 1;
    }
}
