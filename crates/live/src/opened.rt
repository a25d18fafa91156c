//! How the machine that workers share was opened, and which history it has.

ghost use Rattle.atomic_table.specs.Seated.{TableId};
ghost use Rattle.machine.specs.State.{Opening};

use std::marker::Brand;

/// A type that says how the machine under a lock was opened, and which history it has. A contract cannot say what
/// is under a lock, but a type can.
pub trait Opened {
    /// What the opening fixed.
    ghost opening: { Opening };

    /// Which history it is.
    ghost table: { TableId };
}

/// A caller with `Brand` picks both in the proof of the call.
impl Opened for Brand {
    ghost use Rattle.std.specs.Prelude.{[], false};
    ghost use Rattle.machine.specs.declared.config.Placement.TheVariants.{Own};

    ghost opening = { record { frames = 0; swap = 0; files = []; watermarks = record { low = 0; high = 0 }; trace_limit = 0; recursive = false; placement = Own; page_size = 4096 } };

    ghost table = { record { words = 1; slots = 0; views_name = 0; atom = 0; block = 0; offset = 0; slot_names = [] } };
}
