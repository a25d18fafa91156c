//! Why a printer takes no more answers.

ghost use Rattle.printer.specs.Prints.{is_end};
ghost use Rattle.std.specs.Prelude.{◌≡◌, false};

use std::alloc::AllocError;
use std::io;

/// Why no more answers are taken.
#[derive(Drop)]
pub enum Stopped {
    /// An answer could not be written.
    Unwritten(io::Error),
    /// The last answer refuses something, and that ended the run. The text is the line that says which line it was,
    /// and why.
    Refused(String),
}
