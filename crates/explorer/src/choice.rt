//! Who can take the next turn.

/// Which actors can take the next turn.
#[derive(Clone, Copy, Debug, PartialEq, Eq)]
pub enum Choice {
    /// Each actor that is ready.
    Any,
    /// Only the first actor whose next turn is a call of the device, if there is one. Otherwise each that is ready.
    DeviceFirst,
}
