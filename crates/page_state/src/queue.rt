//! Queues of pages.

ghost use Rattle.std.specs.Prelude.{◌≡◌, ℕ, ◌+◌, ◌<◌, ◌==◌, ◌++◌, ◌∷◌, [], not, length, IfOk, if◌then◌else◌};
ghost use Rattle.std.specs.List.{filter};
ghost use Rattle.counts.specs.Numbers.{times};
ghost use Rattle.page_state.specs.Queue.{numbers_of};

use machine::id::PageId;
use std::alloc::{AllocError, Global};
use std::marker::Model;

/// Pages in the order in which they were added. Its memory is allocated when it is opened.
#[derive(Drop)]
pub struct Queue {
    order: Vec<PageId>,
}

impl Model for Queue {
    ghost use Rattle.std.specs.Prelude.{vec_capacity};
    ghost use Rattle.page_state.specs.Queue.{QueueOf, numbers_of};

    ghost Value = { QueueOf };

    ghost view = { λ q. record { numbers = numbers_of q.order.items; room = vec_capacity q.order } };
}

impl Queue {
    /// No page, and memory for this many.
    pub fn open(alloc: Global, pages: u32) -> Result<Queue, AllocError>
        ensures numbers { IfOk result (λ q. q.numbers ≡ []) }
        ensures room { IfOk result (λ q. q.room ≡ pages) }
    {
        let order = Vec::with_capacity(alloc, pages as usize)?;
        Ok(Queue { order })
    }

    /// How many pages the queue has.
    pub fn len(&self) -> usize
        ensures { result ≡ length self.now.numbers }
    {
        self.order.len()
    }

    /// The pages, from the first to the last.
    pub fn as_slice(&self) -> &[PageId]
        ensures { numbers_of result.now ≡ self.now.numbers }
    {
        self.order.as_slice()
    }

    /// Adds the page to the end of the queue. Allocates no memory.
    pub fn push(&mut self, page: PageId)
        requires room { length self.old.numbers < self.old.room }
        ensures last { self.new.numbers ≡ self.old.numbers ++ page.0 ∷ [] }
        ensures counts { (n : ℕ) → times self.new.numbers n ≡ times self.old.numbers n + (if page.0 == n then 1 else 0) }
        ensures more { length self.new.numbers ≡ length self.old.numbers + 1 }
        ensures room { self.new.room ≡ self.old.room }
    {
        self.order.push_reserved(page);
    }

    /// Removes the page from the queue. All others keep their order.
    pub fn remove(&mut self, page: PageId)
        ensures others { self.new.numbers ≡ filter (λ n. not (n == page.0)) self.old.numbers }
        ensures counts { (n : ℕ) → times self.new.numbers n + (if page.0 == n then times self.old.numbers page.0 else 0) ≡ times self.old.numbers n }
        ensures fewer { length self.new.numbers + times self.old.numbers page.0 ≡ length self.old.numbers }
        ensures room { self.new.room ≡ self.old.room }
    {
        self.order.retain(|other| *other != page);
    }
}
