//! Which pages are marked as accessed.

ghost use Rattle.std.specs.Prelude.{◌≡◌, ◌<◌, ◌^◌, true, false, length, replicate, slice_set, IfOk};
ghost use Rattle.machine.specs.Aging.{is_marked};

use machine::id::PageId;
use std::alloc::{AllocError, Global};
use std::marker::Model;

/// For each page, whether it is marked as accessed (kernel: the accessed bit of its mappings). It has its full size
/// from the beginning, and each call takes constant time.
///
/// A contract sees the marks as a list by page number.
#[derive(Drop)]
pub struct MarkSet {
    marks: Vec<bool>,
}

impl Model for MarkSet {
    ghost use Rattle.std.specs.Prelude.{List, Bool};

    ghost Value = { List Bool };

    ghost view = { λ m. m.marks.items };
}

impl MarkSet {
    /// This many pages, none of them marked. `AllocError` if there is no memory for their marks.
    pub fn open(alloc: Global, pages: usize) -> Result<Self, AllocError>
        ensures { IfOk result (λ marks. marks ≡ replicate pages false) }
    {
        Ok(MarkSet {
            marks: vec![in alloc; false; pages]?,
        })
    }

    /// Does nothing. The contract states that there are fewer than 2^63 marks.
    pub fn is_bounded(&self)
        ensures { length self.now < 2 ^ 63 }
    {
        let _ = &self.marks;
    }

    pub fn is_marked(&self, page: PageId) -> bool
        requires { page.0 < length self.now }
        ensures { result ≡ is_marked self.now page.0 }
    {
        self.marks[page.0 as usize]
    }

    pub fn set(&mut self, page: PageId)
        requires { page.0 < length self.old }
        ensures { self.new ≡ slice_set self.old page.0 true }
    {
        self.marks[page.0 as usize] = true;
    }

    pub fn clear(&mut self, page: PageId)
        requires { page.0 < length self.old }
        ensures { self.new ≡ slice_set self.old page.0 false }
    {
        self.marks[page.0 as usize] = false;
    }
}
