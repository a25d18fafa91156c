//! The lines of a scenario.

ghost use Rattle.std.specs.Prelude.{◌≡◌};
ghost use Rattle.std.specs.Option.{option_map};
ghost use Rattle.scenarios.specs.Lines.{literal, plain_text, is_header_word, kind_of_text, kind_of, opens_block, text_line};

use crate::pieces::{Kind, Piece};
use crate::words::Word;
use std::marker::Model;

/// What a line is, by its first word.
#[derive(Clone, Copy, Debug, PartialEq, Eq)]
pub enum LineKind {
    /// A line that only the header has.
    Header,
    /// It names a word. It may be in the header, and elsewhere.
    Let,
    /// It opens a block whose lines are repeated.
    Repeat,
    /// It opens a block whose lines are worked together.
    Together,
    /// It ends the block that was opened last.
    End,
    /// Any other line.
    Other,
}

impl LineKind {
    /// Whether the lines after it, up to their `end`, form a block.
    pub fn opens_block(self) -> bool
        ensures { result ≡ opens_block self }
    {
        match self {
            LineKind::Repeat | LineKind::Together => true,
            LineKind::Header | LineKind::Let | LineKind::End | LineKind::Other => false,
        }
    }
}

fn plain_text(piece: &Piece) -> Option<&str>
    ensures { option_map (λ text. text.now) result ≡ plain_text piece.now.kind piece.now.text }
{
    match piece.kind() {
        Kind::Text => Some(piece.text()),
        Kind::Hole => None,
    }
}

/// The text of a word without quotes and holes, which alone may be a word of the language.
pub fn literal(word: &Word) -> Option<&str>
    ensures { option_map (λ text. text.now) result ≡ literal word.now }
{
    if word.is_quoted() {
        return None;
    }
    match word.pieces() {
        Some([piece]) => plain_text(piece),
        _ => None,
    }
}

fn is_header_word(text: &str) -> bool
    ensures { result ≡ is_header_word text.now }
{
    text == "memory"
        || text == "swap"
        || text == "page"
        || text == "watermarks"
        || text == "file"
        || text == "fault"
        || text == "protection"
        || text == "placement"
}

fn kind_of_text(text: &str) -> LineKind
    ensures { result ≡ kind_of_text text.now }
{
    if text == "let" {
        LineKind::Let
    } else if text == "repeat" {
        LineKind::Repeat
    } else if text == "together" {
        LineKind::Together
    } else if text == "end" {
        LineKind::End
    } else if is_header_word(text) {
        LineKind::Header
    } else {
        LineKind::Other
    }
}

/// The kind of a line of these words.
pub fn kind_of(words: &[Word]) -> LineKind
    ensures { result ≡ kind_of words.now }
{
    let Some(word) = words.first() else {
        return LineKind::Other;
    };
    match literal(word) {
        None => LineKind::Other,
        Some(text) => kind_of_text(text),
    }
}

/// A line of a scenario.
#[derive(Drop)]
pub struct Line {
    number: usize,
    kind: LineKind,
    words: Vec<Word>,
    inside: usize,
}

impl Model for Line {
    ghost use Rattle.scenarios.specs.Lines.{TextLine};

    ghost Value = { TextLine };

    ghost view = { λ l. record { number = l.number; kind = l.kind; words = l.words.items; inside = l.inside } };
}

impl Line {
    /// A line of this number, in whose block there is nothing yet.
    pub(crate) fn new(number: usize, words: Vec<Word>) -> Line
        ensures { result ≡ text_line (record { number = number; words = words.items }) 0 }
    {
        let kind = kind_of(words.as_slice());
        Line {
            number,
            kind,
            words,
            inside: 0,
        }
    }

    /// Its number in the text, from 1.
    pub fn number(&self) -> usize
        ensures { result ≡ self.now.number }
    {
        self.number
    }

    pub fn kind(&self) -> LineKind
        ensures { result ≡ self.now.kind }
    {
        self.kind
    }

    pub fn words(&self) -> &[Word]
        ensures { result.now ≡ self.now.words }
    {
        self.words.as_slice()
    }

    /// How many of the next lines are in the block that it opens, those of blocks in it too.
    pub fn inside(&self) -> usize
        ensures { result ≡ self.now.inside }
    {
        self.inside
    }

    /// So many of the next lines are in its block.
    pub(crate) fn close(&mut self, inside: usize)
        ensures { self.new ≡ record self.old { inside = inside } }
    {
        self.inside = inside;
    }
}
