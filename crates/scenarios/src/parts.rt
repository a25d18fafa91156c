//! Parts of memory and of files, and names with numbers.

ghost use Rattle.std.specs.Prelude.{◌≡◌, ◌==◌};
ghost use Rattle.std.specs.Option.{option_map};
ghost use Rattle.scenarios.specs.Parts.{dots_from, part_of, which_of, range_of, bracketed, names_of, number_of, halves, texts, name_text};
ghost use Rattle.scenarios.specs.Sizes.{last_byte};

use crate::sizes::{Size, SizeFault, read_size};
use text_forms::number::number_of;

/// A part: from a size to before another.
#[derive(Clone, Copy, Debug, PartialEq, Eq)]
pub struct Part {
    pub from: Size,
    pub to: Size,
}

/// Which of those of a name are meant.
#[derive(Clone, Copy, Debug, PartialEq, Eq)]
pub enum Which {
    /// The one of the name itself.
    Plain,
    /// The one of this number.
    At(u32),
    /// Those of the numbers from the first to the last.
    Range(u32, u32),
    /// All that there are.
    All,
}

/// The place of the first `..`.
fn first_dots(word: &str) -> Option<usize>
    ensures { result ≡ dots_from 0 word.now }
{
    let bytes = word.as_bytes();
    for (place, byte) in bytes.iter().enumerate() {
        if *byte == b'.' && bytes.get(place + 1) == Some(&b'.') {
            return Some(place);
        }
    }
    None
}

/// The text before the first `..`, and the text after it.
fn split_dots(word: &str) -> Option<(&str, &str)>
    ensures { option_map texts result ≡ halves word.now }
{
    match first_dots(word) {
        None => None,
        Some(at) => Some((&word[..at], &word[at + 2..])),
    }
}

/// The part that a word writes as `A..B`: two sizes, or the fault of the first that is not one. A word without `..` is no part.
pub fn read_part(word: &str) -> Option<Result<Part, SizeFault>>
    ensures { result ≡ part_of word.now }
{
    let (from, to) = split_dots(word)?;
    match read_size(from) {
        Err(fault) => Some(Err(fault)),
        Ok(from) => match read_size(to) {
            Err(fault) => Some(Err(fault)),
            Ok(to) => Some(Ok(Part { from, to })),
        },
    }
}

fn range_of(first: &str, last: &str) -> Option<Which>
    ensures { result ≡ range_of (number_of first.now) (number_of last.now) }
{
    let first = number_of(first)?;
    let last = number_of(last)?;
    if first <= last {
        Some(Which::Range(first, last))
    } else {
        None
    }
}

fn which_of(inner: &str) -> Option<Which>
    ensures { result ≡ which_of inner.now }
{
    if inner == "*" {
        return Some(Which::All);
    }
    match split_dots(inner) {
        None => match number_of(inner) {
            None => None,
            Some(number) => Some(Which::At(number)),
        },
        Some((first, last)) => range_of(first, last),
    }
}

fn ends_bracket(rest: &str) -> bool
    ensures { result ≡ (last_byte rest.now == 93) }
{
    rest.as_bytes().last() == Some(&b']')
}

fn bracketed<'a>(name: &'a str, rest: &str) -> Option<(&'a str, Which)>
    ensures { option_map name_text result ≡ bracketed name.now rest.now }
{
    if name.is_empty() || !ends_bracket(rest) {
        return None;
    }
    match which_of(&rest[..rest.len() - 1]) {
        None => None,
        Some(which) => Some((name, which)),
    }
}

/// The name that a word writes as `NAME`, `NAME[I]`, `NAME[I..J]` or `NAME[*]`, and which of those of the name are meant.
pub fn read_names(word: &str) -> Option<(&str, Which)>
    ensures { option_map name_text result ≡ names_of word.now }
{
    match word.split_once('[') {
        None => Some((word, Which::Plain)),
        Some((name, rest)) => bracketed(name, rest),
    }
}
