//! The pieces of a word: what is taken as it is, and holes.

ghost use Rattle.std.specs.Prelude.{ℕ, List, ◌≡◌, ◌<◌, ◌++◌, Some, position, IfOk, OnOk};
ghost use Rattle.std.specs.Option.{option_map};
ghost use Rattle.std.specs.String.{string_bytes};
ghost use Rattle.scenarios.specs.Pieces.{TextPiece, is_brace, fits, piece_of, some_text, pieces_of, all_written};

use std::alloc::{AllocError, Global};
use std::marker::Model;

/// What a piece is.
#[derive(Clone, Copy, Debug, PartialEq, Eq)]
pub enum Kind {
    /// It is taken as it is.
    Text,
    /// It is the name of a hole, which a value fills.
    Hole,
}

/// A piece of a word.
#[derive(Drop)]
pub struct Piece {
    kind: Kind,
    text: String,
}

impl Model for Piece {
    ghost use Rattle.std.specs.String.{string_bytes};
    ghost use Rattle.scenarios.specs.Pieces.{TextPiece};

    ghost Value = { TextPiece };

    ghost view = { λ p. record { kind = p.kind; text = string_bytes p.text } };
}

impl Piece {
    /// A piece with this text.
    pub(crate) fn new(kind: Kind, text: String) -> Piece
        ensures kind { result.kind ≡ kind }
        ensures text { result.text ≡ string_bytes text }
    {
        Piece { kind, text }
    }

    pub fn kind(&self) -> Kind
        ensures { result ≡ self.now.kind }
    {
        self.kind
    }

    pub fn text(&self) -> &str
        ensures { result.now ≡ self.now.text }
    {
        self.text.as_str()
    }
}

fn first_brace(text: &str) -> Option<usize>
    ensures { result ≡ position is_brace text.now }
{
    text.as_bytes()
        .iter()
        .position(|byte| *byte == b'{' || *byte == b'}')
}

fn add_text(alloc: Global, pieces: &mut Vec<Piece>, text: &str) -> Result<(), AllocError>
    ensures { OnOk result (pieces.new.items ≡ pieces.old.items ++ some_text text.now) }
{
    if text.is_empty() {
        return Ok(());
    }
    pieces.push(Piece::new(Kind::Text, String::from_str(alloc, text)?))?;
    Ok(())
}

fn add_piece(
    alloc: Global,
    pieces: &mut Vec<Piece>,
    hole: bool,
    text: &str,
) -> Result<(), AllocError>
    ensures { OnOk result (pieces.new.items ≡ pieces.old.items ++ piece_of hole text.now) }
{
    if !hole {
        return add_text(alloc, pieces, text);
    }
    pieces.push(Piece::new(Kind::Hole, String::from_str(alloc, text)?))?;
    Ok(())
}

/// The pieces of a word without quotes, if its braces fit: each `{` has its `}`, with a name between.
pub fn pieces_of(alloc: Global, word: &str) -> Result<Option<Vec<Piece>>, AllocError>
    ensures { IfOk result (λ pieces. option_map (λ ps. ps.items) pieces ≡ pieces_of word.now) }
{
    let mut pieces = Vec::new(alloc);
    let mut hole = false;
    let mut rest = word;
    while let Some(at) = first_brace(rest) {
        let before = &rest[..at];
        if !fits(hole, before, rest.as_bytes()[at]) {
            return Ok(None);
        }
        add_piece(alloc, &mut pieces, hole, before)?;
        hole = rest.as_bytes()[at] == b'{';
        rest = &rest[at + 1..];
    }
    if hole {
        return Ok(None);
    }
    add_text(alloc, &mut pieces, rest)?;
    Ok(Some(pieces))
}

fn fits(hole: bool, before: &str, brace: u8) -> bool
    ensures { result ≡ fits hole before.now brace }
{
    if hole {
        brace != b'{' && !before.is_empty()
    } else {
        brace == b'{'
    }
}

/// A law: the pieces of a word, written one after the other, with braces around names, are the word.
pub fn pieces_write_the_word()
    ensures { (word : List ℕ) (ps : List TextPiece) → pieces_of word ≡ Some ps → all_written ps ≡ word }
{}
