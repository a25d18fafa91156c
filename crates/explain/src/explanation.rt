//! More about a fault: which word of the line is wrong, and what its place requires.
//!
//! Nothing is judged again: the tests are those by which the reader found the fault. The word that is named is the
//! first of the line that fails the test of the cause. No clause speaks of the texts.

use crate::meant::{line_word_meant, task_word_meant};
use crate::why::{BadPath, Pages, Placed, Why};
use control_files::{parse_amount, parse_page_size};
use machine::amount::Amount;
use machine::limit::{LAST_NUMBER, MOST_BLOCKS, MOST_FILES};
use machine::page_size::PageSize;
use scripts::check::{name_fits, number_fits, word_fits};
use scripts::forms::{Kind, Manner, Speaker, Word, may_stand, takes_line, word_named};
use scripts::header::{header_frames, is_of_header, is_skipped, word_of};
use scripts::lines::{as_text, first_line};
use scripts::words::{Token, words_of};
use scripts::{Cause, ScriptFault};
use std::alloc::{AllocError, Global};
use std::str;
use text_forms::name::is_name;
use text_forms::number::{is_digits, number_of};

const BYTE_ORDER_MARK: char = '\u{feff}';

/// The words of a line, taken apart as the reader does it.
#[derive(Clone, Copy)]
struct Parts<'w, 't> {
    manner: Manner,
    /// The task's number, of a task's line.
    task: Option<Placed<'w>>,
    /// How many words come before the one that says what the line does.
    before: usize,
    /// The word that says what the line does, and those after it.
    rest: &'w [Token<'t>],
}

impl<'w, 't> Parts<'w, 't> {
    /// The word of the rest at this place, counted from 0.
    fn placed(&self, at: usize) -> Option<Placed<'w>> {
        let word = self.rest.get(at)?;
        Some(Placed {
            number: self.number(at),
            text: word.text(),
        })
    }

    /// The number of that word in the line, counted from 1.
    fn number(&self, at: usize) -> usize {
        self.before.saturating_add(at).saturating_add(1)
    }

    fn word(&self) -> Option<Word> {
        let speaker = match self.task {
            Some(_) => Speaker::Task,
            None => Speaker::Shell,
        };
        word_named(speaker, self.rest.first()?.text())
    }

    /// The first argument that fails the test of the cause, with what its place requires.
    fn misfit(&self, word: Word, cause: Cause) -> Option<(Kind, Placed<'w>)> {
        let (_, arguments) = self.rest.split_first()?;
        let kinds = word.form().arguments;
        let mut pairs = kinds.iter().zip(arguments);
        let at = pairs.position(|(kind, word)| !fits(cause, *kind, word))?;
        Some((*kinds.get(at)?, self.placed(at.saturating_add(1))?))
    }
}

fn fits(cause: Cause, kind: Kind, word: &Token<'_>) -> bool {
    match cause {
        Cause::UnknownWord => word_fits(kind, word),
        Cause::BadNumber => number_fits(kind, word),
        Cause::BadName => name_fits(kind, word),
        _ => true,
    }
}

/// The parts of a line without a task's number, or of the words after `begin`.
fn bare_parts<'w, 't>(manner: Manner, before: usize, words: &'w [Token<'t>]) -> Parts<'w, 't> {
    match words.split_first() {
        Some((first, rest)) if first.is_digits() => {
            let number = before.saturating_add(1);
            let task = Some(Placed {
                number,
                text: first.text(),
            });
            Parts {
                manner,
                task,
                before: number,
                rest,
            }
        }
        _ => Parts {
            manner,
            task: None,
            before,
            rest: words,
        },
    }
}

fn parts_of<'w, 't>(words: &'w [Token<'t>]) -> Parts<'w, 't> {
    match words.split_first() {
        Some((first, rest)) if takes_line(word_named(Speaker::Shell, first.text())) => {
            bare_parts(Manner::Begun, 1, rest)
        }
        _ => bare_parts(Manner::Whole, 0, words),
    }
}

fn no_text<'a>(text: &[u8], line: &[u8]) -> Option<Why<'a>> {
    if text.starts_with(b"\xff\xfe") || text.starts_with(b"\xfe\xff") {
        return Some(Why::Utf16);
    }
    let Err(error) = str::from_utf8(line) else {
        return None;
    };
    let at = error.valid_up_to();
    Some(Why::NoCharacter {
        place: at.saturating_add(1),
        byte: *line.get(at)?,
    })
}

/// The word is known, but it may not stand here, or one of its arguments is not known.
fn known_word<'w>(parts: &Parts<'w, '_>, name: Placed<'w>, word: Word) -> Option<Why<'w>> {
    if !may_stand(parts.manner, word) {
        return Some(Why::NotBegun(name));
    }
    let (kind, argument) = parts.misfit(word, Cause::UnknownWord)?;
    Some(Why::Misfit(argument, kind))
}

/// No task has this word.
fn no_task_word<'w>(alloc: Global, name: Placed<'w>) -> Result<Why<'w>, AllocError> {
    match task_word_meant(alloc, name.text)? {
        None => Ok(Why::NoTaskWord(name)),
        Some(near) => Ok(Why::NearTaskWord(name, near)),
    }
}

/// No line begins with this word.
fn no_word<'w>(alloc: Global, name: Placed<'w>) -> Result<Why<'w>, AllocError> {
    if name.text.starts_with(BYTE_ORDER_MARK) {
        return Ok(Why::ByteOrderMark(name));
    }
    if word_named(Speaker::Task, name.text).is_some() {
        return Ok(Why::TaskWord(name));
    }
    match line_word_meant(alloc, name.text)? {
        None => Ok(Why::NoWord(name)),
        Some(near) => Ok(Why::NearWord(name, near)),
    }
}

fn unknown_word<'w>(alloc: Global, parts: &Parts<'w, '_>) -> Result<Option<Why<'w>>, AllocError> {
    let Some(name) = parts.placed(0) else {
        return Ok(None);
    };
    if let Some(word) = parts.word() {
        return Ok(known_word(parts, name, word));
    }
    if parts.task.is_some() {
        return Ok(Some(no_task_word(alloc, name)?));
    }
    Ok(Some(no_word(alloc, name)?))
}

fn missing_argument<'w>(parts: &Parts<'w, '_>) -> Option<Why<'w>> {
    let number = parts.number(parts.rest.len());
    match parts.word() {
        Some(word) => {
            let form = word.form();
            let (_, arguments) = parts.rest.split_first()?;
            let kind = *form.arguments.get(arguments.len())?;
            Some(Why::Missing { number, form, kind })
        }
        None if parts.task.is_some() => Some(Why::NoTaskWordAt(number)),
        None => Some(Why::NoLineAt(number)),
    }
}

fn extra_argument<'w>(parts: &Parts<'w, '_>) -> Option<Why<'w>> {
    let form = parts.word()?.form();
    let extra = parts.placed(form.arguments.len().saturating_add(1))?;
    Some(Why::Extra(extra, form))
}

/// A word that has other characters than digits, in place of a number.
fn not_digits<'w>(text: &[u8], parts: &Parts<'w, '_>, placed: Placed<'w>, kind: Kind) -> Why<'w> {
    if placed.text.starts_with('/')
        && let Some(next) = parts.placed(2)
        && is_digits(next.text)
    {
        return Why::Turned(placed, next);
    }
    if placed.text.contains("..") {
        return Why::Range(placed, kind);
    }
    let page_size = page_size_asked(text);
    match parse_amount(page_size, placed.text) {
        Some(Amount::Pages(number)) => Why::Amount(placed, kind, Pages { number, page_size }),
        _ => Why::NotDigits(placed, kind),
    }
}

/// A word that is not a number of this kind.
fn no_number<'w>(text: &[u8], parts: &Parts<'w, '_>, placed: Placed<'w>, kind: Kind) -> Why<'w> {
    if !is_digits(placed.text) {
        return not_digits(text, parts, placed, kind);
    }
    match (kind, number_of(placed.text)) {
        (Kind::Number { least, .. }, Some(number)) if number < least => Why::Below(placed, least),
        (Kind::Number { most, .. }, _) => Why::Above(placed, most),
        _ => Why::Above(placed, LAST_NUMBER),
    }
}

/// The size of a page that the first `page` line of the text asks for; 4K if there is none, or it asks for none that a page
/// may have.
fn page_size_asked(text: &[u8]) -> PageSize {
    match earlier_line(text, usize::MAX, Earlier::With(Word::PageSize)) {
        Some(number) => page_size_in(line_at(text, number)),
        None => PageSize::of_4k(),
    }
}

/// The size that this `page` line asks for.
fn page_size_in(line: &[u8]) -> PageSize {
    let words = words_of(as_text(line).unwrap_or(""));
    let size = words
        .as_slice()
        .get(1)
        .and_then(|size| parse_page_size(size.text()));
    size.unwrap_or(PageSize::of_4k())
}

/// The word is no page size.
fn bad_page_size<'w>(parts: &Parts<'w, '_>) -> Option<Why<'w>> {
    Some(Why::Misfit(parts.placed(1)?, Kind::PageSize))
}

/// The daemon's watermarks are out of order, or above the frames.
fn bad_marks<'w>(
    alloc: Global,
    text: &[u8],
    parts: &Parts<'w, '_>,
) -> Result<Option<Why<'w>>, AllocError> {
    let frames = header_frames(alloc, text)?;
    let (Some(low), Some(high)) = (parts.placed(1), parts.placed(2)) else {
        return Ok(None);
    };
    if number_of(low.text) > number_of(high.text) {
        return Ok(Some(Why::MarksTurned(low, high)));
    }
    Ok(Some(Why::MarkAboveFrames(high, frames)))
}

fn bad_number<'w>(
    alloc: Global,
    text: &[u8],
    parts: &Parts<'w, '_>,
) -> Result<Option<Why<'w>>, AllocError> {
    if let Some(task) = parts.task
        && number_of(task.text).is_none()
    {
        return Ok(Some(Why::Above(task, LAST_NUMBER)));
    }
    let Some(word) = parts.word() else {
        return Ok(None);
    };
    match parts.misfit(word, Cause::BadNumber) {
        Some((kind, placed)) => Ok(Some(no_number(text, parts, placed, kind))),
        None => bad_marks(alloc, text, parts),
    }
}

fn is_name_character(found: char) -> bool {
    found.is_ascii_alphanumeric() || found == '.' || found == '_' || found == '-'
}

fn bad_part(name: &str) -> BadPath<'_> {
    if name.is_empty() {
        return BadPath::EmptyName;
    }
    if name == "." || name == ".." {
        return BadPath::Dots(name);
    }
    match name.chars().find(|found| !is_name_character(*found)) {
        Some(found) => BadPath::Character(found),
        None => BadPath::LongName,
    }
}

fn bad_path(path: &str) -> Option<BadPath<'_>> {
    let Some(names) = path.strip_prefix('/') else {
        return Some(BadPath::NoSlash);
    };
    if names.ends_with('/') {
        return Some(BadPath::SlashAtTheEnd);
    }
    Some(bad_part(names.split('/').find(|name| !is_name(name))?))
}

fn bad_name<'w>(parts: &Parts<'w, '_>) -> Option<Why<'w>> {
    let (kind, placed) = parts.misfit(parts.word()?, Cause::BadName)?;
    if kind == Kind::Name {
        return Some(Why::Name(placed, bad_part(placed.text)));
    }
    Some(Why::Path(placed, bad_path(placed.text)?))
}

/// Which of the earlier lines to look for.
#[derive(Clone, Copy)]
enum Earlier<'a> {
    /// One after which no line of the header may come.
    EndOfHeader,
    /// One with this word.
    With(Word),
    /// One with a file of this name.
    FileNamed(&'a str),
}

fn is_earlier(line: &[u8], earlier: Earlier<'_>) -> bool {
    let Some(text) = as_text(line) else {
        return false;
    };
    let words = words_of(text);
    let word = word_of(words.as_slice());
    match earlier {
        Earlier::EndOfHeader => !is_skipped(words.as_slice()) && !is_of_header(word),
        Earlier::With(wanted) => word == Some(wanted),
        Earlier::FileNamed(name) => {
            word == Some(Word::File)
                && words
                    .as_slice()
                    .get(1)
                    .is_some_and(|second| second.text() == name)
        }
    }
}

/// The number of the first such line before the line of this number.
fn earlier_line(text: &[u8], line: usize, earlier: Earlier<'_>) -> Option<usize> {
    let mut rest = text;
    for number in 1..line {
        if rest.is_empty() {
            return None;
        }
        let (bytes, after) = first_line(rest);
        if is_earlier(bytes, earlier) {
            return Some(number);
        }
        rest = after;
    }
    None
}

fn header_after_commands<'w>(text: &[u8], line: usize, word: Option<Word>) -> Option<Why<'w>> {
    let name = word?.form().name;
    let line = earlier_line(text, line, Earlier::EndOfHeader)?;
    Some(Why::HeaderEnded { line, name })
}

fn header_twice<'w>(text: &[u8], line: usize, parts: &Parts<'w, '_>) -> Option<Why<'w>> {
    let word = parts.word()?;
    if word == Word::File {
        let name = parts.placed(1)?;
        let earlier = Earlier::FileNamed(name.text);
        return Some(Why::FileTwice(name, earlier_line(text, line, earlier)?));
    }
    let line = earlier_line(text, line, Earlier::With(word))?;
    let name = word.form().name;
    Some(Why::Twice { line, name })
}

/// The first word of a line shows that it is only for a schedule. A task's line has no such word, and in a line with
/// `begin` it is `begin` itself.
fn only_in_schedule<'w>(words: &'w [Token<'_>]) -> Option<Why<'w>> {
    let first = words.first()?;
    Some(Why::OnlyInSchedule(Placed {
        number: 1,
        text: first.text(),
    }))
}

fn line_at(text: &[u8], line: usize) -> &[u8] {
    let mut rest = text;
    for _ in 1..line {
        if rest.is_empty() {
            return rest;
        }
        rest = first_line(rest).1;
    }
    if rest.is_empty() {
        return rest;
    }
    first_line(rest).0
}

/// What is wrong with the line of this number, which has this cause.
fn why<'w>(
    alloc: Global,
    text: &[u8],
    line: usize,
    cause: Cause,
    words: &'w [Token<'_>],
) -> Result<Option<Why<'w>>, AllocError> {
    let parts = parts_of(words);
    match cause {
        Cause::NotText => Ok(no_text(text, line_at(text, line))),
        Cause::UnknownWord => unknown_word(alloc, &parts),
        Cause::MissingArgument => Ok(missing_argument(&parts)),
        Cause::ExtraArgument => Ok(extra_argument(&parts)),
        Cause::BadNumber => bad_number(alloc, text, &parts),
        Cause::BadPageSize => Ok(bad_page_size(&parts)),
        Cause::BadName => Ok(bad_name(&parts)),
        Cause::HeaderAfterCommands => Ok(header_after_commands(text, line, parts.word())),
        Cause::HeaderTwice => Ok(header_twice(text, line, &parts)),
        Cause::TooManyFiles => Ok(Some(Why::FilesFull(MOST_FILES))),
        Cause::TooManyBlocks => Ok(Some(Why::BlocksFull(MOST_BLOCKS))),
        Cause::OnlyInSchedule => Ok(only_in_schedule(words)),
    }
}

/// One line, without its end, that says more of the fault for which [`scripts::read`] refused this text: the word that
/// is wrong, in quotes, and what its place requires. For a lack of memory there is nothing more to say. No clause
/// speaks of what it says.
pub fn explain(
    alloc: Global,
    text: &[u8],
    fault: ScriptFault,
) -> Result<Option<String>, AllocError> {
    let ScriptFault::At { line, cause } = fault else {
        return Ok(None);
    };
    let readable = as_text(line_at(text, line)).unwrap_or("");
    let words = words_of(readable);
    match why(alloc, text, line, cause, words.as_slice())? {
        Some(why) => Ok(Some(format!(in alloc; "{why}")?)),
        None => Ok(None),
    }
}
