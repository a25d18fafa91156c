//! Words of a line, as they are written and with their holes filled.

ghost use Rattle.std.specs.Prelude.{◌≡◌, ◌++◌, IfOk, OnOk, encode_utf8, if◌then◌else◌};
ghost use Rattle.std.specs.String.{string_bytes};
ghost use Rattle.scenarios.specs.Lines.{is_header_word};
ghost use Rattle.scenarios.specs.Words.{is_quote};
ghost use Rattle.scenario_words.specs.declared.fault.ExpandError.TheVariants.{Faulty};
ghost use Rattle.scenario_words.specs.Faults.{Gives, as_is};
ghost use Rattle.scenario_words.specs.Words.{has_quote, without_quotes, filled_source, filled_word, filled_words, word_fault, is_word, missing, word_at, ends_at, is_at, expect_at, is_key, is_event, is_act_word, is_line_word, is_other_word, is_language};

use crate::fault::{Cause, ExpandError, fault_at};
use scenarios::holes::{FillError, Named, fill};
use scenarios::words::Word;
use std::alloc::{AllocError, Global};
use std::marker::Model;

/// A word whose holes are filled.
#[derive(Drop)]
pub struct Filled {
    pub line: usize,
    pub column: usize,
    pub end: usize,
    /// With its quotes.
    pub source: String,
    /// Without them.
    pub text: String,
    /// Whether it has quotes, and so is a name and no word of the language.
    pub quoted: bool,
}

impl Model for Filled {
    ghost use Rattle.std.specs.String.{string_bytes};
    ghost use Rattle.scenario_words.specs.Words.{FilledWord};

    ghost Value = { FilledWord };

    ghost view = { λ w. record { line = w.line; column = w.column; end = w.end; source = string_bytes w.source; text = string_bytes w.text; quoted = w.quoted } };
}

impl Filled {
    /// Without its quotes.
    pub fn text(&self) -> &str
        ensures { result.now ≡ self.now.text }
    {
        self.text.as_str()
    }

    /// With its quotes.
    pub fn source(&self) -> &str
        ensures { result.now ≡ self.now.source }
    {
        self.source.as_str()
    }

    /// Whether it has quotes, and so is a name and no word of the language.
    pub fn is_quoted(&self) -> bool
        ensures { result ≡ self.now.quoted }
    {
        self.quoted
    }

    /// Whether it is this word of the language.
    pub fn is(&self, word: &str) -> bool
        ensures { result ≡ is_word self.now word.now }
    {
        !self.quoted && self.text.as_str() == word
    }

    /// This is wrong with it.
    pub fn fault(&self, cause: Cause) -> ExpandError
        ensures { result ≡ Faulty (word_fault self.now cause) }
    {
        fault_at(self.line, self.column, cause)
    }
}

fn has_quote(text: &str) -> bool
    ensures { result ≡ has_quote text.now }
{
    text.as_bytes().iter().any(|byte| *byte == b'"')
}

/// Adds a character, unless it is a quote.
fn add_unquoted(text: &mut String, character: char) -> Result<(), AllocError>
    ensures { OnOk result (string_bytes text.new ≡ (if is_quote character then string_bytes text.old else string_bytes text.old ++ encode_utf8 character)) }
{
    if character == '"' {
        return Ok(());
    }
    text.push(character)
}

fn without_quotes(alloc: Global, source: &str) -> Result<String, AllocError>
    ensures { IfOk result (λ text. string_bytes text ≡ without_quotes source.now) }
{
    let mut text = String::new(alloc);
    for character in source.chars() {
        add_unquoted(&mut text, character)?;
    }
    Ok(text)
}

/// The source of a word of this line, with its holes filled.
fn filled_source(
    alloc: Global,
    line: usize,
    word: &Word,
    values: &[Named],
) -> Result<String, ExpandError>
    ensures { Gives (λ source. string_bytes source) result (filled_source line word.now values.now) }
{
    let Some(pieces) = word.pieces() else {
        return Err(fault_at(line, word.column(), Cause::Brace));
    };
    if word.is_quoted() {
        return Ok(String::from_str(alloc, word.source())?);
    }
    match fill(alloc, pieces, values) {
        Ok(source) => Ok(source),
        Err(FillError::Memory) => Err(ExpandError::Memory),
        Err(FillError::Unknown(_)) => Err(fault_at(line, word.column(), Cause::Unknown)),
    }
}

/// A word of this line, with its holes filled. The newest value of a name comes first among the values.
fn filled_word(
    alloc: Global,
    line: usize,
    word: &Word,
    values: &[Named],
) -> Result<Filled, ExpandError>
    ensures { Gives (λ filled. filled) result (filled_word line word.now values.now) }
{
    let source = filled_source(alloc, line, word, values)?;
    let text = without_quotes(alloc, source.as_str())?;
    let quoted = has_quote(source.as_str());
    Ok(Filled {
        line,
        column: word.column(),
        end: word.end(),
        source,
        text,
        quoted,
    })
}

/// The words of this line, with their holes filled, or the first fault. The newest value of a name comes first among the
/// values.
pub fn fill_words(
    alloc: Global,
    line: usize,
    words: &[Word],
    values: &[Named],
) -> Result<Vec<Filled>, ExpandError>
    ensures { Gives (λ filled. filled.items) result (filled_words line words.now values.now) }
{
    let mut all = Vec::new(alloc);
    for word in words {
        all.push(filled_word(alloc, line, word, values)?)?;
    }
    Ok(all)
}

/// A word is missing after the last one.
fn missing(words: &[Filled]) -> ExpandError
    ensures { result ≡ Faulty (missing words.now) }
{
    match words.last() {
        None => fault_at(0, 0, Cause::Missing),
        Some(last) => fault_at(last.line, last.end, Cause::Missing),
    }
}

/// The word of this place. If there is none, it is missing after the last one.
pub fn word_at(words: &[Filled], place: usize) -> Result<&Filled, ExpandError>
    ensures { Gives (λ word. word.now) result (word_at words.now place) }
{
    match words.get(place) {
        None => Err(missing(words)),
        Some(word) => Ok(word),
    }
}

/// The words end before this place.
pub fn ends_at(words: &[Filled], place: usize) -> Result<(), ExpandError>
    ensures { Gives as_is result (ends_at words.now place) }
{
    match words.get(place) {
        None => Ok(()),
        Some(word) => Err(word.fault(Cause::TooMany)),
    }
}

/// Whether the word at this place is this word of the language.
pub fn is_at(words: &[Filled], place: usize, text: &str) -> bool
    ensures { result ≡ is_at words.now place text.now }
{
    match words.get(place) {
        None => false,
        Some(word) => word.is(text),
    }
}

/// The word at this place is this word of the language.
pub fn expect_at(words: &[Filled], place: usize, text: &str) -> Result<(), ExpandError>
    ensures { Gives as_is result (expect_at words.now place text.now) }
{
    let word = word_at(words, place)?;
    if word.is(text) {
        Ok(())
    } else {
        Err(word.fault(Cause::NotExpected))
    }
}

/// Whether it is a header's word.
pub fn is_header_word(word: &str) -> bool
    ensures { result ≡ is_header_word word.now }
{
    matches!(
        word,
        "memory" | "swap" | "page" | "watermarks" | "file" | "fault" | "protection" | "placement"
    )
}

fn is_key(word: &str) -> bool
    ensures { result ≡ is_key word.now }
{
    matches!(
        word,
        "max"
            | "min"
            | "low"
            | "oom.group"
            | "memory.max"
            | "memory.min"
            | "memory.low"
            | "memory.oom.group"
    )
}

fn is_event(word: &str) -> bool
    ensures { result ≡ is_event word.now }
{
    matches!(
        word,
        "events.low" | "events.max" | "events.oom" | "events.oom_kill" | "events.oom_group_kill"
    )
}

fn is_act_word(word: &str) -> bool
    ensures { result ≡ is_act_word word.now }
{
    matches!(
        word,
        "read"
            | "write"
            | "free"
            | "fork"
            | "exit"
            | "fread"
            | "fwrite"
            | "next"
            | "random"
            | "seed"
    )
}

/// Whether a line of the shell's, or a note, begins with it.
pub fn is_line_word(word: &str) -> bool
    ensures { result ≡ is_line_word word.now }
{
    matches!(
        word,
        "let"
            | "show"
            | "mark"
            | "expect"
            | "group"
            | "set"
            | "reclaim"
            | "rmdir"
            | "task"
            | "attach"
            | "daemon"
            | "raw"
    )
}

fn is_other_word(word: &str) -> bool
    ensures { result ≡ is_other_word word.now }
{
    matches!(
        word,
        "recursive"
            | "plain"
            | "linux"
            | "in"
            | "repeat"
            | "as"
            | "until"
            | "together"
            | "end"
            | "killed"
            | "current"
            | "anon"
            | "out"
            | "dropped"
            | "alive"
            | "nobody"
            | "refused"
            | "="
            | ">="
            | "<="
    )
}

/// Whether it is a word of the language, which without quotes is the name of no task.
pub fn is_language(word: &str) -> bool
    ensures { result ≡ is_language word.now }
{
    is_header_word(word)
        || is_key(word)
        || is_event(word)
        || is_act_word(word)
        || is_line_word(word)
        || is_other_word(word)
}
