//! How pages leave their frames.

/// How a page in a frame would leave it permanently (kernel: shrink_folio_list).
#[derive(Clone, Copy, PartialEq, Eq)]
pub enum WayOut {
    /// Memory of tasks: it is written to a swap block.
    ToSwap,
    /// A dirty page of a file: it is written to its home block.
    ToHome,
    /// A clean page of a file: it is dropped.
    Dropped,
}
