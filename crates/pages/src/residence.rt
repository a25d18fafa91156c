use machine::id::FrameId;

/// Where a page is.
#[derive(Clone, Copy)]
pub enum Residence {
    /// In a frame.
    Held(FrameId),
    /// It is being read in.
    Coming,
    /// It is being written out.
    Going,
    /// Only on this block.
    Away(u32),
}
