//! Holes of words, filled by the values of their names.

ghost use Rattle.std.specs.Prelude.{◌≡◌, IfOk};
ghost use Rattle.std.specs.Option.{option_map};
ghost use Rattle.std.specs.String.{string_bytes};
ghost use Rattle.scenarios.specs.declared.holes.FillError.TheVariants.{Memory};
ghost use Rattle.scenarios.specs.Holes.{NamedText, value_of, piece_text, filled, Fills, names_of};
ghost use Rattle.scenarios.specs.Nearest.{IsNearest};

use crate::nearest::nearest;
use crate::pieces::{Kind, Piece};
use std::alloc::{AllocError, Global};
use std::marker::Model;

/// A name with the text that it has.
#[derive(Drop)]
pub struct Named {
    name: String,
    text: String,
}

impl Model for Named {
    ghost use Rattle.std.specs.String.{string_bytes};
    ghost use Rattle.scenarios.specs.Holes.{NamedText};

    ghost Value = { NamedText };

    ghost view = { λ n. record { name = string_bytes n.name; text = string_bytes n.text } };
}

impl Named {
    pub fn new(name: String, text: String) -> Named
        ensures name { result.name ≡ string_bytes name }
        ensures text { result.text ≡ string_bytes text }
    {
        Named { name, text }
    }

    pub fn name(&self) -> &str
        ensures { result.now ≡ self.now.name }
    {
        self.name.as_str()
    }

    pub fn text(&self) -> &str
        ensures { result.now ≡ self.now.text }
    {
        self.text.as_str()
    }
}

/// Why the holes of a word could not be filled.
#[derive(Clone, Copy, Debug, PartialEq, Eq)]
pub enum FillError {
    Memory,
    /// The name in the piece of this place has no value.
    Unknown(usize),
}

impl From<AllocError> for FillError {
    ghost from_gives = { λ _ e. e ≡ Memory };

    fn from(_e: AllocError) -> FillError {
        FillError::Memory
    }
}

/// The text of a name: of several, the first one's.
pub fn value_of<'a>(values: &'a [Named], name: &str) -> Option<&'a str>
    ensures { option_map (λ text. text.now) result ≡ value_of values.now name.now }
{
    for value in values {
        if value.name() == name {
            return Some(value.text());
        }
    }
    None
}

fn piece_text<'a>(piece: &'a Piece, values: &'a [Named]) -> Option<&'a str>
    ensures { option_map (λ text. text.now) result ≡ piece_text values.now piece.now.kind piece.now.text }
{
    match piece.kind() {
        Kind::Text => Some(piece.text()),
        Kind::Hole => value_of(values, piece.text()),
    }
}

/// The text of a word's pieces. The newest value of a name comes first among the values.
pub fn fill(alloc: Global, pieces: &[Piece], values: &[Named]) -> Result<String, FillError>
    ensures { Fills result (filled values.now pieces.now) }
{
    let mut text = String::new(alloc);
    for (place, piece) in pieces.iter().enumerate() {
        match piece_text(piece, values) {
            None => return Err(FillError::Unknown(place)),
            Some(more) => text.push_str(more)?,
        }
    }
    Ok(text)
}

/// The place of the value whose name is nearest to one that has no value, if one is near.
pub fn nearest_name(
    alloc: Global,
    name: &str,
    values: &[Named],
) -> Result<Option<usize>, AllocError>
    ensures { IfOk result (IsNearest name.now (names_of values.now)) }
{
    let mut names = Vec::new(alloc);
    for value in values {
        names.push(value.name())?;
    }
    nearest(alloc, name, names.as_slice())
}
