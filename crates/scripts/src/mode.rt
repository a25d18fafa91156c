//! What a script is read for.

ghost use Rattle.std.specs.Prelude.{◌≡◌};
ghost use Rattle.scripts.specs.Forms.{is_run};

/// What a script is read for.
#[derive(Clone, Copy, PartialEq, Eq)]
pub enum Mode {
    /// To be run one turn after the other, in the order of its lines.
    Schedule,
    /// To be run on threads. What the lines before the first `go` ask for is done in sequence. What each actor is asked
    /// for after it is done in parallel with what the others are asked for.
    Run,
}

impl Mode {
    /// Whether the script is read to be run on threads.
    pub fn is_run(self) -> bool
        ensures { result ≡ is_run self }
    {
        match self {
            Mode::Schedule => false,
            Mode::Run => true,
        }
    }
}
