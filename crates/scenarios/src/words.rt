//! The words of a line.

ghost use Rattle.std.specs.Prelude.{◌≡◌, ◌+◌, ◌<◌, ◌||◌, ◌&&◌, not, ◌==◌, ◌^◌, IfOk, OnOk};
ghost use Rattle.std.specs.Option.{option_map};
ghost use Rattle.std.specs.String.{string_bytes};
ghost use Rattle.std.specs.Str.{chars};
ghost use Rattle.scripts.specs.Words.{is_blank};
ghost use Rattle.scenarios.specs.declared.words.WordError.TheVariants.{Memory};
ghost use Rattle.scenarios.specs.Pieces.{is_brace};
ghost use Rattle.scenarios.specs.Words.{pieces_in, words_of, Gives};
ghost use Rattle.scenarios.specs.Reading.{part_read, line_read, longer, part_longer, with_character, word_read, part_ended, words_read, at_start};

use crate::pieces::{Kind, Piece, pieces_of};
use std::alloc::{AllocError, AllocFailed, Global};
use std::marker::Model;

/// Why the words of a line could not be read.
#[derive(Clone, Copy, Debug)]
pub enum WordError {
    Memory,
    /// In the word of this column a quote has no second one in its line.
    OpenQuote(usize),
}

impl From<AllocError> for WordError {
    ghost from_gives = { λ _ e. e ≡ Memory };

    fn from(_e: AllocError) -> WordError {
        WordError::Memory
    }
}

impl<T: Drop> From<AllocFailed<T>> for WordError {
    ghost from_gives = { λ _ e. e ≡ Memory };

    fn from(_e: AllocFailed<T>) -> WordError {
        WordError::Memory
    }
}

/// A word of a line.
#[derive(Drop)]
pub struct Word {
    column: usize,
    end: usize,
    source: String,
    quoted: bool,
    pieces: Option<Vec<Piece>>,
}

impl Model for Word {
    ghost use Rattle.std.specs.Option.{option_map};
    ghost use Rattle.std.specs.String.{string_bytes};
    ghost use Rattle.scenarios.specs.Words.{TextWord};

    ghost Value = { TextWord };

    ghost view = { λ w. record { column = w.column; end = w.end; source = string_bytes w.source; quoted = w.quoted; pieces = option_map (λ ps. ps.items) w.pieces } };
}

impl Word {
    /// The column of its first character, in characters from 1.
    pub fn column(&self) -> usize
        ensures { result ≡ self.now.column }
    {
        self.column
    }

    /// The column right after its last character.
    pub fn end(&self) -> usize
        ensures { result ≡ self.now.end }
    {
        self.end
    }

    /// As it is written, with its quotes and holes.
    pub fn source(&self) -> &str
        ensures { result.now ≡ self.now.source }
    {
        self.source.as_str()
    }

    /// Whether it has quotes, and so is a name and no word of the language.
    pub fn is_quoted(&self) -> bool
        ensures { result ≡ self.now.quoted }
    {
        self.quoted
    }

    /// What it is made of, in order, unless a brace in it belongs to no `{NAME}`.
    pub fn pieces(&self) -> Option<&[Piece]>
        ensures { option_map (λ pieces. pieces.now) result ≡ self.now.pieces }
    {
        match &self.pieces {
            None => None,
            Some(pieces) => Some(pieces.as_slice()),
        }
    }
}

/// A word that is being read.
#[derive(Drop)]
struct Part {
    column: usize,
    /// What is read of it, with its quotes.
    source: String,
    /// The same without quotes.
    text: String,
    quoted: bool,
    /// A brace came outside of quotes.
    braces: bool,
}

fn is_brace(character: char) -> bool
    ensures { result ≡ is_brace character }
{
    character == '{' || character == '}'
}

fn is_blank(character: char) -> bool
    ensures { result ≡ is_blank character }
{
    character == ' ' || character == '\t'
}

/// What a word is made of that has quotes or not, and outside of them a brace or not.
fn pieces_in(
    alloc: Global,
    quoted: bool,
    braces: bool,
    text: String,
) -> Result<Option<Vec<Piece>>, AllocError>
    ensures { IfOk result (λ pieces. option_map (λ ps. ps.items) pieces ≡ pieces_in quoted braces (string_bytes text)) }
{
    if !quoted {
        return pieces_of(alloc, text.as_str());
    }
    if braces {
        return Ok(None);
    }
    Ok(Some(vec![in alloc; Piece::new(Kind::Text, text)]?))
}

impl Part {
    fn add(&mut self, inside: bool, character: char) -> Result<(), AllocError>
        ensures { OnOk result (part_read self.new ≡ longer (part_read self.old) inside character) }
    {
        self.source.push(character)?;
        if character == '"' {
            self.quoted = true;
            return Ok(());
        }
        if !inside && is_brace(character) {
            self.braces = true;
        }
        self.text.push(character)
    }

    /// The word, which ends before this column.
    fn into_word(self, alloc: Global, end: usize) -> Result<Word, AllocError>
        ensures { IfOk result (λ word. word ≡ word_read (part_read self) end) }
    {
        let Part {
            column,
            source,
            text,
            quoted,
            braces,
        } = self;
        let pieces = pieces_in(alloc, quoted, braces, text)?;
        Ok(Word {
            column,
            end,
            source,
            quoted,
            pieces,
        })
    }
}

/// What has been read of a line.
#[derive(Drop)]
struct Reader {
    /// How many characters.
    before: usize,
    /// A quote is open.
    inside: bool,
    /// The last word, if it may go on.
    part: Option<Part>,
    /// The words before it.
    words: Vec<Word>,
}

impl Reader {
    fn new(alloc: Global) -> Reader
        ensures { line_read result ≡ at_start }
    {
        Reader {
            before: 0,
            inside: false,
            part: None,
            words: Vec::new(alloc),
        }
    }

    /// Whether a comment begins with this character.
    fn ends_at(&self, character: char) -> bool
        ensures { result ≡ (not (line_read self.now).inside && character == 35) }
    {
        !self.inside && character == '#'
    }

    /// Nothing goes on the last word.
    fn end_part(&mut self, alloc: Global) -> Result<(), AllocError>
        requires { (line_read self.old).before + 1 < 2 ^ 64 }
        ensures { OnOk result (line_read self.new ≡ part_ended (line_read self.old)) }
    {
        match self.part.take() {
            None => Ok(()),
            Some(part) => {
                let word = part.into_word(alloc, self.before + 1)?;
                self.words.push(word)?;
                Ok(())
            }
        }
    }

    /// A character of a word, or a quote.
    fn add_to_part(&mut self, alloc: Global, character: char) -> Result<(), AllocError>
        requires { (line_read self.old).before + 1 < 2 ^ 64 }
        ensures { OnOk result (line_read self.new ≡ part_longer (line_read self.old) character) }
    {
        let mut part = match self.part.take() {
            Some(part) => part,
            None => Part {
                column: self.before + 1,
                source: String::new(alloc),
                text: String::new(alloc),
                quoted: false,
                braces: false,
            },
        };
        part.add(self.inside, character)?;
        self.part = Some(part);
        if character == '"' {
            self.inside = !self.inside;
        }
        Ok(())
    }

    /// A character that begins no comment.
    fn add(&mut self, alloc: Global, character: char) -> Result<(), AllocError>
        requires { (line_read self.old).before + 1 < 2 ^ 64 }
        ensures { OnOk result (line_read self.new ≡ with_character (line_read self.old) character) }
    {
        if !self.inside && is_blank(character) {
            self.end_part(alloc)?;
        } else {
            self.add_to_part(alloc, character)?;
        }
        self.before += 1;
        Ok(())
    }

    /// The words, when the line ends.
    fn into_words(self, alloc: Global) -> Result<Vec<Word>, WordError>
        requires { (line_read self).before + 1 < 2 ^ 64 }
        ensures { Gives (λ ws. ws.items) result (words_read (line_read self)) }
    {
        let mut reader = self;
        if reader.inside {
            if let Some(part) = &reader.part {
                return Err(WordError::OpenQuote(part.column));
            }
        }
        reader.end_part(alloc)?;
        let Reader { words, .. } = reader;
        Ok(words)
    }
}

/// The words of a line, if each quote has its second one.
pub fn words_of(alloc: Global, line: &str) -> Result<Vec<Word>, WordError>
    ensures { Gives (λ ws. ws.items) result (words_of (chars line.now)) }
{
    let mut reader = Reader::new(alloc);
    for character in line.chars() {
        if reader.ends_at(character) {
            return reader.into_words(alloc);
        }
        reader.add(alloc, character)?;
    }
    reader.into_words(alloc)
}
