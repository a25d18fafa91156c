//! Scenarios: their lines, and the blocks that these form.

ghost use Rattle.std.specs.Prelude.{◌≡◌, ℕ, ◌+◌, ◌-◌, ◌<◌, ◌∷◌, ◌++◌, [], length, take, count_by, Some, None, true, false, List, Ok, OnOk, MatchResult};
ghost use Rattle.std.specs.Str.{is_utf8};
ghost use Rattle.scenarios.specs.Lines.{kind_of, text_line, WordLine, tree_of, written, marked, IsFormed};
ghost use Rattle.scenarios.specs.Scenario.{Reads, line_words, at_start, begins_character, column_of_text, first_column, end_fault, place_fault, with_block, behind, lines_of, scenario_of};
ghost use Rattle.scenarios.specs.Building.{before_of, places_of, AreOpen, first_closed, lines_behind, rest_of, Goes};

use crate::fault::{Cause, Fault, ReadError};
use crate::lines::{Line, LineKind, kind_of};
use crate::words::{Word, WordError, words_of};
use scripts::lines::first_line;
use std::alloc::{AllocError, Global};
use std::str;

/// A scenario: the lines of its tree in their order, without those that end blocks. A line that opens a block knows how many of
/// the next lines are in the block.
#[derive(Drop)]
pub struct Scenario {
    pub lines: Vec<Line>,
}

/// A block that is not ended.
#[derive(Clone, Copy)]
struct Opened {
    /// The place of the line that opens it, among those that are kept.
    place: usize,
    /// That line's number.
    number: usize,
    /// The column of its first word.
    column: usize,
}

/// How many characters begin in these bytes.
fn characters(bytes: &[u8]) -> usize
    ensures { result ≡ count_by begins_character bytes.now }
{
    bytes
        .iter()
        .filter(|byte| **byte < 128 || **byte >= 192)
        .count()
}

/// The line as a text, or the column of what is no UTF-8.
fn line_text(bytes: &[u8]) -> Result<&str, usize>
    ensures { MatchResult result (λ text. (is_utf8 bytes.now ≡ true) × (text.now ≡ bytes.now)) (λ column. (is_utf8 bytes.now ≡ false) × (column ≡ column_of_text bytes.now)) }
{
    match str::from_utf8(bytes) {
        Ok(text) => Ok(text),
        Err(broken) => Err(characters(&bytes[..broken.valid_up_to()]) + 1),
    }
}

/// The words of the line of this number, or what is wrong with it as a text.
fn line_words(alloc: Global, number: usize, bytes: &[u8]) -> Result<Vec<Word>, ReadError>
    ensures { Reads (λ ws. ws.items) result (line_words number bytes.now) }
{
    let text = match line_text(bytes) {
        Ok(text) => text,
        Err(column) => return Err(ReadError::Faulty(Fault {
            line: number,
            column,
            cause: Cause::NotText,
        })),
    };
    match words_of(alloc, text) {
        Ok(words) => Ok(words),
        Err(WordError::Memory) => Err(ReadError::Memory),
        Err(WordError::OpenQuote(column)) => Err(ReadError::Faulty(Fault {
            line: number,
            column,
            cause: Cause::OpenQuote,
        })),
    }
}

fn first_column(words: &[Word]) -> usize
    ensures { result ≡ first_column words.now }
{
    match words.first() {
        None => 1,
        Some(word) => word.column(),
    }
}

/// What is wrong with an `end` of these words.
fn end_fault(number: usize, opened: &[Opened], words: &[Word]) -> Option<Fault>
    ensures { result ≡ end_fault number opened.now words.now }
{
    if opened.is_empty() {
        return Some(Fault {
            line: number,
            column: first_column(words),
            cause: Cause::EndAlone,
        });
    }
    match words {
        [_, word, ..] => Some(Fault {
            line: number,
            column: word.column(),
            cause: Cause::BehindEnd,
        }),
        _ => None,
    }
}

/// What has been read of a scenario.
#[derive(Drop)]
struct Reading {
    lines: Vec<Line>,
    /// The blocks that are not ended, the outermost first.
    opened: Vec<Opened>,
}

impl Reading {
    fn new(alloc: Global) -> Reading
        ensures lines { result.lines.items ≡ [] }
        ensures before { before_of result ≡ at_start }
    {
        Reading {
            lines: Vec::new(alloc),
            opened: Vec::new(alloc),
        }
    }

    /// What is wrong with the place of a line of these words.
    fn place_fault(&self, number: usize, words: &[Word]) -> Option<Fault>
        ensures { result ≡ place_fault number (before_of self.now) (kind_of words.now) words.now }
    {
        match kind_of(words) {
            LineKind::End => end_fault(number, self.opened.as_slice(), words),
            LineKind::Header
            | LineKind::Let
            | LineKind::Repeat
            | LineKind::Together
            | LineKind::Other => None,
        }
    }

    /// The innermost block is ended.
    fn end_block(&mut self)
        requires some { 0 < length self.old.opened.items }
        requires places { AreOpen (places_of self.old.opened.items) (length self.old.lines.items) }
        ensures lines { self.new.lines.items ≡ first_closed self.old.lines.items (places_of self.old.opened.items) }
        ensures opened { self.new.opened.items ≡ take (length self.old.opened.items - 1) self.old.opened.items }
    {
        if let Some(block) = self.opened.pop() {
            let inside = self.lines.len() - (block.place + 1);
            self.lines[block.place].close(inside);
        }
    }

    /// A line opens a block.
    fn open_block(&mut self, number: usize, words: Vec<Word>) -> Result<(), AllocError>
        ensures lines { OnOk result (self.new.lines.items ≡ self.old.lines.items ++ text_line (record { number = number; words = words.items }) 0 ∷ []) }
        ensures before { OnOk result (before_of self.new ≡ with_block number (before_of self.old) words.items) }
    {
        self.opened.push(Opened {
            place: self.lines.len(),
            number,
            column: first_column(words.as_slice()),
        })?;
        self.lines.push(Line::new(number, words))?;
        Ok(())
    }

    /// A line with words, with which nothing is wrong.
    fn keep(&mut self, number: usize, words: Vec<Word>) -> Result<(), AllocError>
        requires fits { place_fault number (before_of self.old) (kind_of words.items) words.items ≡ None }
        requires places { AreOpen (places_of self.old.opened.items) (length self.old.lines.items) }
        ensures lines { OnOk result (self.new.lines.items ≡ lines_behind (kind_of words.items) (record { number = number; words = words.items }) self.old.lines.items (places_of self.old.opened.items)) }
        ensures before { OnOk result (before_of self.new ≡ behind number (before_of self.old) (kind_of words.items) words.items) }
    {
        match kind_of(words.as_slice()) {
            LineKind::End => self.end_block(),
            LineKind::Repeat | LineKind::Together => self.open_block(number, words)?,
            LineKind::Header | LineKind::Let | LineKind::Other => self
                .lines
                .push(Line::new(number, words))?,
        }
        Ok(())
    }

    /// The line of this number and these bytes.
    fn add_line(&mut self, alloc: Global, number: usize, bytes: &[u8]) -> Result<(), ReadError>
        requires { AreOpen (places_of self.old.opened.items) (length self.old.lines.items) }
        ensures goes { Goes result (λ more. rest_of self.old number (bytes.now ∷ more)) (λ more. rest_of self.new (number + 1) more) }
        ensures places { OnOk result (AreOpen (places_of self.new.opened.items) (length self.new.lines.items)) }
    {
        let words = line_words(alloc, number, bytes)?;
        if words.is_empty() {
            return Ok(());
        }
        if let Some(fault) = self.place_fault(number, words.as_slice()) {
            return Err(ReadError::Faulty(fault));
        }
        self.keep(number, words)?;
        Ok(())
    }

    /// The scenario, at the end of the text.
    fn into_scenario(self) -> Result<Scenario, ReadError>
        ensures { (number : ℕ) → Reads (λ s. s.lines.items) result (rest_of self number []) }
    {
        if let Some(block) = self.opened.first() {
            return Err(ReadError::Faulty(Fault {
                line: block.number,
                column: block.column,
                cause: Cause::NoEnd,
            }));
        }
        let Reading { lines, .. } = self;
        Ok(Scenario { lines })
    }
}

/// The scenario that a text writes, or the text's first fault: line, column and cause. A block without `end` is reported
/// after all other faults, at the line that opens it. If several blocks have no `end`, it is the first of them.
///
/// Wrong braces of a word and a header line below other lines are no faults of the text. An expander reports them, but
/// not in a block that is repeated 0 times.
pub fn read(alloc: Global, text: &[u8]) -> Result<Scenario, ReadError>
    ensures { Reads (λ s. s.lines.items) result (scenario_of text.now) }
{
    let mut reading = Reading::new(alloc);
    let mut rest = text;
    let mut number = 0;
    while !rest.is_empty() {
        let (line, after) = first_line(rest);
        number += 1;
        reading.add_line(alloc, number, line)?;
        rest = after;
    }
    reading.into_scenario()
}

/// A law: the tree of a faultless text has all its lines, in their order, with an `end` after each block; and its blocks
/// are those that the lines open.
pub fn tree_has_the_lines()
    ensures lines { (text : List ℕ) (ls : List WordLine) → lines_of text ≡ Ok ls → written (tree_of ls) ≡ marked ls }
    ensures blocks { (text : List ℕ) (ls : List WordLine) → lines_of text ≡ Ok ls → IsFormed (tree_of ls) }
{}
