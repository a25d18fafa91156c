//! How often pages were hit that have no mark.

ghost use Rattle.std.specs.Prelude.{◌≡◌, ◌<◌, length, replicate, slice_set, IfOk};
ghost use Rattle.machine.specs.Lists.{hits_at};

use machine::id::PageId;
use std::alloc::{AllocError, Global};
use std::marker::Model;

/// For each page, how many hits came of those that mark it (kernel: LRU_REFS_MASK). It has its full size from the
/// beginning, and each call takes constant time.
///
/// A contract sees the counts as a list by page number.
#[derive(Drop)]
pub(crate) struct HitCounts {
    counts: Vec<u8>,
}

impl Model for HitCounts {
    ghost use Rattle.std.specs.Prelude.{List, ℕ};

    ghost Value = { List ℕ };

    ghost view = { λ h. h.counts.items };
}

impl HitCounts {
    /// This many pages without a hit. `AllocError` if there is no memory for their counts.
    pub(crate) fn open(alloc: Global, pages: usize) -> Result<Self, AllocError>
        ensures { IfOk result (λ counts. counts ≡ replicate pages 0) }
    {
        Ok(HitCounts {
            counts: vec![in alloc; 0; pages]?,
        })
    }

    pub(crate) fn of(&self, page: PageId) -> u8
        requires { page.0 < length self.now }
        ensures { result ≡ hits_at self.now page.0 }
    {
        self.counts[page.0 as usize]
    }

    pub(crate) fn set(&mut self, page: PageId, hits: u8)
        requires { page.0 < length self.old }
        ensures { self.new ≡ slice_set self.old page.0 hits }
    {
        self.counts[page.0 as usize] = hits;
    }

    pub(crate) fn clear(&mut self, page: PageId)
        requires { page.0 < length self.old }
        ensures { self.new ≡ slice_set self.old page.0 0 }
    {
        self.counts[page.0 as usize] = 0;
    }
}
