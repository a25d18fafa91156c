//! The words of a line, as a text.

ghost use Rattle.std.specs.Prelude.{◌≡◌, ◌++◌, IfOk, OnOk};
ghost use Rattle.std.specs.String.{string_bytes};
ghost use Rattle.scenario_lines.specs.Joined.{shown_word, spaced, joined};

use scenario_words::word::Filled;
use std::alloc::{AllocError, Global};

/// Adds a word, with its quotes or without.
fn add_word(text: &mut String, word: &Filled, quotes: bool) -> Result<(), AllocError>
    ensures { OnOk result (string_bytes text.new ≡ string_bytes text.old ++ shown_word quotes word.now) }
{
    text.push_str(if quotes { word.source() } else { word.text() })
}

/// These words, with a space between each two.
fn spaced(alloc: Global, words: &[Filled], quotes: bool) -> Result<String, AllocError>
    ensures { IfOk result (λ text. string_bytes text ≡ spaced quotes words.now) }
{
    let mut text = String::new(alloc);
    let Some((first, rest)) = words.split_first() else {
        return Ok(text);
    };
    add_word(&mut text, first, quotes)?;
    for word in rest {
        text.push(' ')?;
        add_word(&mut text, word, quotes)?;
    }
    Ok(text)
}

/// The words from this place on, with a space between each two: with their quotes, or without.
pub fn joined(
    alloc: Global,
    words: &[Filled],
    from: usize,
    quotes: bool,
) -> Result<String, AllocError>
    ensures { IfOk result (λ text. string_bytes text ≡ joined words.now from quotes) }
{
    match words.get(from..) {
        None => Ok(String::new(alloc)),
        Some(rest) => spaced(alloc, rest, quotes),
    }
}
