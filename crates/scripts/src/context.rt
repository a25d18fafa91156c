//! What a line needs to know of the other lines.

ghost use Rattle.std.specs.Prelude.{◌≡◌, ◌&&◌};
ghost use Rattle.std.specs.List.{list_any};
ghost use Rattle.scripts.specs.Forms.{form_of, same_word};
ghost use Rattle.scripts.specs.Context.{around};

use crate::forms::Word;
use crate::mode::Mode;
use machine::config::Config;

/// What a line needs to know of the other lines.
#[derive(Drop)]
pub struct Context {
    /// What the script is read for.
    pub mode: Mode,
    /// How many frames the header asks for, even if it does so after the line.
    pub frames: u32,
    /// A line that is not of the header came before.
    pub commands: bool,
    /// The words of the header's lines that came before.
    pub given: Vec<Word>,
    /// What these lines say.
    pub config: Config,
}

impl Context {
    /// Whether a line with the word is of the header and comes too late.
    pub fn is_late(&self, word: Word) -> bool
        ensures { result ≡ ((form_of word).header && (around self.now).commands) }
    {
        word.form().header && self.commands
    }

    /// Whether the word comes at most once and came before.
    pub fn is_repeated(&self, word: Word) -> bool
        ensures { result ≡ ((form_of word).once && list_any (same_word word) (around self.now).given) }
    {
        word.form().once && self.given.contains(&word)
    }
}
