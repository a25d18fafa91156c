//! How much memory, in whole pages.

ghost use Rattle.std.specs.Prelude.{◌≡◌, ◌+◌};
ghost use Rattle.machine.specs.Amounts.{exceeds, at_most};

/// The value of a limit or of a protection (kernel: the counter of a `struct page_counter`).
#[derive(Clone, Copy, Debug, PartialEq, Eq)]
pub enum Amount {
    /// More than every count.
    Max,
    /// This many pages. The [page size](crate::page_size::PageSize) says how many bytes a page stands for.
    Pages(u64),
}

impl Amount {
    /// Whether the count is more than the amount.
    pub fn exceeded_by(self, count: u64) -> bool
        ensures { result ≡ exceeds count self }
    {
        match self {
            Amount::Max => false,
            Amount::Pages(pages) => count > pages,
        }
    }

    /// Whether the count plus one exceeds the amount.
    pub fn is_full(self, count: u64) -> bool
        ensures { result ≡ exceeds (count + 1) self }
    {
        match self {
            Amount::Max => false,
            Amount::Pages(pages) => count >= pages,
        }
    }

    /// The smaller of the count and the amount.
    pub fn at_most(self, count: u64) -> u64
        ensures { result ≡ at_most count self }
    {
        match self {
            Amount::Max => count,
            Amount::Pages(pages) => count.min(pages),
        }
    }
}
