//! Which answers are minor, and which refuse something.

ghost use Rattle.std.specs.Prelude.{◌≡◌, is_some};
ghost use Rattle.printer.specs.Prints.{is_minor, refuses, is_refusing};

use driver::{Answer, Word};

/// Whether a task read a byte, or its command ended with its death.
pub fn is_minor(answer: &Answer) -> bool
    ensures { result ≡ is_minor answer.now }
{
    match answer {
        Answer::Byte(_) | Answer::Word(Word::Killed) => true,
        Answer::Text(_) | Answer::Done | Answer::Word(_) => false,
        Answer::Kill(_)
        | Answer::KillAll {
            victim: _,
            tasks: _,
        } => false,
    }
}

/// Whether the word says that a line did not do what it asks for. A killed task is an event of the machine, and not
/// such a word.
fn is_refusing(word: Word) -> bool
    ensures { result ≡ is_refusing word }
{
    match word {
        Word::Killed => false,
        Word::Idle | Word::Busy | Word::Io | Word::OutOfMemory | Word::Again => true,
        Word::TurnLimit | Word::Underway | Word::Refused(_) => true,
    }
}

/// The word of an answer that refuses something.
pub fn refusal_of(answer: &Answer) -> Option<Word>
    ensures { is_some result ≡ refuses answer.now }
{
    match answer {
        Answer::Word(word) if is_refusing(*word) => Some(*word),
        _ => None,
    }
}
