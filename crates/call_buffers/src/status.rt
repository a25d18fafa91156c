//! What a call returns, by the numbers of `memcgrun.h`.

/// All was done.
pub const OK: u8 = 0;

/// The script or scenario can't be run: it is too long, or a line of it is faulty.
pub const BAD_SCRIPT: u8 = 1;

/// There was too little memory for the run, for its answers, or for a line that says why it ended.
pub const NO_MEMORY: u8 = 2;

/// A strict run ended at the first line that was refused.
pub const REFUSED: u8 = 3;

/// The script was run, and its answers differ from those that it expects. The scenario was run, and a line was refused
/// or an expectation is not met.
pub const DIFFERS: u8 = 4;

/// What is asked for can't be used.
pub const BAD_OPTIONS: u8 = 5;
