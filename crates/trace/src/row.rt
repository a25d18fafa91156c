//! What is known of the pages of one task, or of one file.

ghost use Rattle.std.specs.Prelude.{◌≡◌, ℕ, ◌==◌, if◌then◌else◌, IfOk};
ghost use Rattle.trace.specs.Heads.{MayBe};
ghost use Rattle.trace.specs.Rows.{at_row, empty_row};

use crate::link::Link;
use std::alloc::{AllocError, Global};
use std::marker::Model;
use std::mem::size_of;

/// What is known, by page. The first pages have their own links, up to the last page that was set. All pages after
/// them share one link. Making or filling a row therefore writes no link, and a copy copies only the written links.
/// A row without room takes no memory.
#[derive(Drop)]
pub struct Row {
    /// By page, up to the last that was set.
    links: Vec<Link>,
    /// What is known of each page after these.
    rest: Link,
}

const _: () = prove!(size_of::<Row>() == 32);

impl Model for Row {
    ghost use Rattle.trace.specs.Rows.{RowOf};

    ghost Value = { RowOf };

    ghost view = { λ r. record { links = r.links.items; rest = r.rest } };
}

impl Row {
    /// A row without room. Nothing is known of any page.
    pub fn empty(alloc: Global) -> Row
        ensures { result ≡ empty_row }
    {
        Row {
            links: Vec::new(alloc),
            rest: Link::Unknown,
        }
    }

    /// A row with room for the links of this many pages. The same is known of all.
    pub fn with_room(alloc: Global, pages: usize, link: Link) -> Result<Row, AllocError>
        ensures { IfOk result (λ r. (c : ℕ) → at_row r c ≡ link) }
    {
        Ok(Row {
            links: Vec::with_capacity(alloc, pages)?,
            rest: link,
        })
    }

    /// What is known of a page.
    pub fn get(&self, page: usize) -> Link
        ensures { result ≡ at_row self.now page }
    {
        if page < self.links.len() {
            return self.links[page];
        }
        self.rest
    }

    /// Sets what is known of a page. If there is no room for its link, nothing is known any more of the pages
    /// without one. Allocates no memory.
    pub fn set(&mut self, page: usize, link: Link)
        ensures { (c : ℕ) → MayBe (at_row self.new c) (if page == c then link else at_row self.old c) }
    {
        if page < self.links.len() {
            self.links[page] = link;
        } else if page < self.links.capacity() && self.links.resize(page, self.rest).is_ok() {
            self.links.push_reserved(link);
        } else {
            self.rest = Link::Unknown;
        }
    }

    /// Sets what is known of all pages.
    pub fn fill(&mut self, link: Link)
        ensures { (c : ℕ) → at_row self.new c ≡ link }
    {
        self.links.clear();
        self.rest = link;
    }

    /// Copies what another row knows of each page. If there is no room for that row's links, nothing is known of
    /// any page. Allocates no memory.
    pub fn copy(&mut self, other: &Row)
        ensures { (c : ℕ) → MayBe (at_row self.new c) (at_row other.now c) }
    {
        self.links.clear();
        if other.links.len() <= self.links.capacity()
            && self.links.extend_from_slice(other.links.as_slice()).is_ok()
        {
            self.rest = other.rest;
        } else {
            self.fill(Link::Unknown);
        }
    }
}
