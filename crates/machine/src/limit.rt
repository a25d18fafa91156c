//! The limits of the machine's sizes.

/// Page frames of a machine, at most.
pub const MOST_FRAMES: u32 = 65_536;

/// Swap blocks of a machine, at most.
pub const MOST_SWAP: u32 = 65_536;

/// Blocks of a device that a machine uses for swap and files together, at most.
pub const MOST_BLOCKS: u32 = 131_072;

/// Files of a machine, at most.
pub const MOST_FILES: usize = 64;

/// Entries of a trace, at most.
pub const MOST_ENTRIES: u32 = 1_048_576;

/// Live tasks at any time, at most.
pub const MOST_TASKS: usize = 1024;

/// The largest number of a task.
pub const LAST_TASK: u32 = 65_535;

/// Virtual pages of a task. Their numbers are smaller than this.
pub const TASK_PAGES: u32 = 1024;

/// The largest number that can be written, unless a smaller limit applies.
pub const LAST_NUMBER: u32 = u32::MAX;

/// Passes that a book gives out, at most.
pub const MOST_PASSES: usize = 131_072;

/// The most turns that one line of a script takes, unless another limit is set.
pub const USUAL_TURNS: u32 = 1000;

/// Bytes of a script, at most.
pub const SCRIPT_BYTES: u64 = 1 << 26;
