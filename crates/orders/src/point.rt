//! A point of a path.

ghost use Rattle.std.specs.Prelude.{◌<◌, vec_len};

/// The actors that are ready at a point of a path, and the place of the one that takes the turn.
#[derive(Drop)]
pub struct Point {
    pub ready: Vec<u32>,
    pub at: usize,
    ghost within: { at < vec_len ready },
}
