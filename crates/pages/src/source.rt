//! What a transfer reads in.

use crate::owned_page::FilePage;
use machine::id::PageId;

/// What a new transfer reads in.
#[derive(Clone, Copy)]
pub enum Source {
    /// Memory of tasks that is only on its slot (kernel: `do_swap_page`).
    Swapped(PageId),
    /// A page of a file that no page holds yet, from its home block (kernel: `filemap_fault`).
    File(FilePage),
}
