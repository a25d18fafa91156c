//! How wide pictures are, in tenths of a pixel.

/// The left end of the first line, and the right end of the last.
pub const LEFT: u64 = 900;

pub const RIGHT: u64 = 7500;

/// The width of the picture.
pub const WIDTH: u64 = 10_000;
