//! The texts that say more of a fault than its cause does.

use crate::sentence::Sentence;
use machine::page_size::PageSize;
use scripts::forms::{Form, Kind};
use std::fmt;
use std::fmt::{Formatter, Write};

/// At most this many characters of a word are shown.
const MOST_SHOWN: usize = 64;

/// A word of a line, with its place among the line's words, counted from 1.
#[derive(Clone, Copy)]
pub struct Placed<'a> {
    pub number: usize,
    pub text: &'a str,
}

/// In quotes, with its control characters written out, and in brackets. The end of a long word is left out.
impl fmt::Display for Placed<'_> {
    fn fmt<W: Write>(&self, f: &mut Formatter<W>) -> fmt::Result {
        write!(f, "word {} (", self.number)?;
        let cut = self.text.char_indices().nth(MOST_SHOWN);
        match cut.and_then(|(at, _)| self.text.get(..at)) {
            Some(front) => write!(f, "{front:?}..)"),
            None => write!(f, "{:?})", self.text),
        }
    }
}

/// What a page size may be.
const PAGE_SIZES: &str = "a page size: 4K, 8K, 16K or another power of two, at most 64M";

/// A number of pages, and their size.
#[derive(Clone, Copy)]
pub struct Pages {
    pub number: u64,
    pub page_size: PageSize,
}

/// The size, in K or M, and the number.
impl fmt::Display for Pages {
    fn fmt<W: Write>(&self, f: &mut Formatter<W>) -> fmt::Result {
        let kibibytes = self.page_size.bytes / 1024;
        match kibibytes % 1024 {
            0 => write!(f, "{}M: {}", kibibytes / 1024, self.number),
            _ => write!(f, "{kibibytes}K: {}", self.number),
        }
    }
}

/// What is required in a place of this kind.
#[derive(Clone, Copy)]
struct Wanted(Kind);

impl fmt::Display for Wanted {
    fn fmt<W: Write>(&self, f: &mut Formatter<W>) -> fmt::Result {
        match self.0 {
            Kind::Number { least, most } => write!(f, "a number from {least} to {most}"),
            Kind::Path => f.write_str("a path"),
            Kind::Name => f.write_str("a name of a file"),
            Kind::Actor => f.write_str("a task's number, shell, control or daemon"),
            Kind::Call => f.write_str("read or write"),
            Kind::PageSize => f.write_str(PAGE_SIZES),
            Kind::Any => f.write_str("a word"),
            Kind::Line => f.write_str("a line"),
        }
    }
}

/// How many arguments the first word of a line of this form takes.
#[derive(Clone, Copy)]
struct Takes(Form);

impl fmt::Display for Takes {
    fn fmt<W: Write>(&self, f: &mut Formatter<W>) -> fmt::Result {
        let Form {
            name,
            arguments,
            ..
        } = self.0;
        match arguments.len() {
            0 => write!(f, "{name} takes no arguments"),
            1 => write!(f, "{name} takes 1 argument"),
            count => write!(f, "{name} takes {count} arguments"),
        }
    }
}

/// Why a text is not a path, or not a name.
#[derive(Clone, Copy)]
pub enum BadPath<'a> {
    NoSlash,
    SlashAtTheEnd,
    EmptyName,
    LongName,
    Dots(&'a str),
    Character(char),
}

impl fmt::Display for BadPath<'_> {
    fn fmt<W: Write>(&self, f: &mut Formatter<W>) -> fmt::Result {
        match self {
            BadPath::NoSlash => f.write_str("does not begin with a slash"),
            BadPath::SlashAtTheEnd => f.write_str("ends with a slash"),
            BadPath::EmptyName => f.write_str("has an empty name"),
            BadPath::LongName => f.write_str("has a name of more than 32 characters"),
            BadPath::Dots(name) => write!(f, "has the name {name:?}, which is not allowed"),
            BadPath::Character(found) => write!(
                f,
                "has the character {found:?}; names have A-Z a-z 0-9 . _ and - only"
            ),
        }
    }
}

/// What is wrong with a line.
#[derive(Clone, Copy)]
pub enum Why<'a> {
    /// The script begins with the mark of another encoding.
    Utf16,
    /// The byte at this place of the line, counted from 1, is part of no character.
    NoCharacter {
        place: usize,
        byte: u8,
    },
    /// The script begins with a mark that is a character.
    ByteOrderMark(Placed<'a>),
    /// The language has no such word.
    NoWord(Placed<'a>),
    /// The word is one of a task's, and no task's number comes before it.
    TaskWord(Placed<'a>),
    /// The same, and this word may be meant.
    NearWord(Placed<'a>, &'static str),
    /// A task's number comes before the word, and a task has no such word.
    NoTaskWord(Placed<'a>),
    /// The same, and this word may be meant.
    NearTaskWord(Placed<'a>, &'static str),
    /// The line may not follow `begin`.
    NotBegun(Placed<'a>),
    /// The word is not what its place requires.
    Misfit(Placed<'a>, Kind),
    /// Nothing follows a task's number.
    NoTaskWordAt(usize),
    /// Nothing follows `begin`.
    NoLineAt(usize),
    /// The line has fewer words than the form. The next would be of this kind.
    Missing {
        number: usize,
        form: Form,
        kind: Kind,
    },
    /// The line has more words than the form, from this one on.
    Extra(Placed<'a>, Form),
    NotDigits(Placed<'a>, Kind),
    /// The same: the word is an amount, of this number of pages of the script.
    Amount(Placed<'a>, Kind, Pages),
    /// The same: the word is a range.
    Range(Placed<'a>, Kind),
    /// The first word is a path, and the second a task's number.
    Turned(Placed<'a>, Placed<'a>),
    Below(Placed<'a>, u32),
    Above(Placed<'a>, u32),
    /// The first of the daemon's watermarks is above the second.
    MarksTurned(Placed<'a>, Placed<'a>),
    /// The second is above the frames.
    MarkAboveFrames(Placed<'a>, u32),
    Path(Placed<'a>, BadPath<'a>),
    Name(Placed<'a>, BadPath<'a>),
    /// The header ended before this line, which has this first word.
    HeaderEnded {
        line: usize,
        name: &'static str,
    },
    /// This earlier line has the same word.
    Twice {
        line: usize,
        name: &'static str,
    },
    /// This earlier line has a file of the same name.
    FileTwice(Placed<'a>, usize),
    /// This number of files came before, which is the most that there can be.
    FilesFull(usize),
    /// This number of blocks is the most that there can be.
    BlocksFull(u32),
    /// A run on threads has no line with this first word.
    OnlyInSchedule(Placed<'a>),
}

const TASK_WORDS: &str = "write, read, fwrite, fread, fork, free or exit";

const LINE_WORDS: &str =
    "a task's number, group, rmdir, task, attach, set, cat, prot, lowprot, daemon, begin, step, finish, go or a word of the header";

/// What a sentence has besides its fixed words.
#[derive(Clone, Copy)]
enum Part<'a> {
    Word(Placed<'a>),
    Number(u64),
    Pages(Pages),
    /// In hexadecimal.
    Byte(u8),
    /// A word of the language, or several.
    Name(&'static str),
    Kind(Kind),
    Form(Form),
    BadPath(BadPath<'a>),
}

impl fmt::Display for Part<'_> {
    fn fmt<W: Write>(&self, f: &mut Formatter<W>) -> fmt::Result {
        match self {
            Part::Word(word) => write!(f, "{word}"),
            Part::Number(number) => write!(f, "{number}"),
            Part::Pages(pages) => write!(f, "{pages}"),
            Part::Byte(byte) => write!(f, "0x{byte:02x}"),
            Part::Name(name) => f.write_str(name),
            Part::Kind(kind) => write!(f, "{}", Wanted(*kind)),
            Part::Form(form) => write!(f, "{}", Takes(*form)),
            Part::BadPath(path) => write!(f, "{path}"),
        }
    }
}

/// At most two parts, between fixed words.
fn sentence<'a>(
    begin: &'static str,
    first: Option<Part<'a>>,
    middle: &'static str,
    second: Option<Part<'a>>,
    end: &'static str,
) -> Sentence<Part<'a>> {
    Sentence {
        begin,
        first,
        middle,
        second,
        end,
        last: None,
    }
}

fn fixed<'a>(text: &'static str) -> Sentence<Part<'a>> {
    sentence(text, None, "", None, "")
}

fn with_one<'a>(begin: &'static str, part: Part<'a>, end: &'static str) -> Sentence<Part<'a>> {
    sentence(begin, Some(part), end, None, "")
}

fn with_two<'a>(
    begin: &'static str,
    first: Part<'a>,
    middle: &'static str,
    second: Part<'a>,
    end: &'static str,
) -> Sentence<Part<'a>> {
    sentence(begin, Some(first), middle, Some(second), end)
}

/// A word, and what is wrong with it.
fn about<'a>(word: Placed<'a>, end: &'static str) -> Sentence<Part<'a>> {
    with_one("", Part::Word(word), end)
}

/// The same, if that ends with another part.
fn about_with<'a>(
    word: Placed<'a>,
    middle: &'static str,
    part: Part<'a>,
    end: &'static str,
) -> Sentence<Part<'a>> {
    with_two("", Part::Word(word), middle, part, end)
}

fn place(number: usize) -> Part<'static> {
    Part::Number(number as u64)
}

impl<'a> Why<'a> {
    fn sentence(self) -> Sentence<Part<'a>> {
        match self {
            Why::Utf16 => fixed("the script is UTF-16; save it as UTF-8"),
            Why::NoCharacter { place: at, byte } => with_two(
                "byte ",
                place(at),
                " of the line, ",
                Part::Byte(byte),
                ", is not valid UTF-8",
            ),
            Why::ByteOrderMark(word) => about(
                word,
                " begins with a byte order mark; save the script without it",
            ),
            Why::NoWord(word) => about_with(
                word,
                " is not a command; a line begins with ",
                Part::Name(LINE_WORDS),
                "",
            ),
            Why::NearWord(word, near) => about_with(
                word,
                " is not a command; did you mean ",
                Part::Name(near),
                "?",
            ),
            Why::NearTaskWord(word, near) => about_with(
                word,
                " is not a task's command; did you mean ",
                Part::Name(near),
                "?",
            ),
            Why::TaskWord(word) => about(word, " needs a task's number before it"),
            Why::NoTaskWord(word) => about_with(
                word,
                " is not a task's command; use ",
                Part::Name(TASK_WORDS),
                "",
            ),
            Why::NotBegun(word) => about(word, " cannot follow begin"),
            Why::Misfit(word, kind) => about_with(word, " is not ", Part::Kind(kind), ""),
            Why::NoTaskWordAt(number) => with_two(
                "word ",
                place(number),
                " is missing; after a task's number use ",
                Part::Name(TASK_WORDS),
                "",
            ),
            Why::NoLineAt(number) => with_one(
                "word ",
                place(number),
                " is missing; begin is followed by a command",
            ),
            Why::Missing { number, form, kind } => Sentence {
                begin: "word ",
                first: Some(place(number)),
                middle: " (",
                second: Some(Part::Kind(kind)),
                end: ") is missing: ",
                last: Some(Part::Form(form)),
            },
            Why::Extra(word, form) => about_with(word, " is one too many: ", Part::Form(form), ""),
            Why::NotDigits(word, kind) => about_with(word, " is not ", Part::Kind(kind), ""),
            Why::Amount(word, kind, pages) => Sentence {
                begin: "",
                first: Some(Part::Word(word)),
                middle: " is not ",
                second: Some(Part::Kind(kind)),
                end: "; so many bytes in pages of ",
                last: Some(Part::Pages(pages)),
            },
            Why::Range(word, kind) => about_with(
                word,
                " is not ",
                Part::Kind(kind),
                "; a line accesses one page (a scenario, for \"memcgrun simulate\", takes ranges)",
            ),
            Why::Turned(path, number) => about_with(
                path,
                " and ",
                Part::Word(number),
                " are the wrong way round; the task's number comes first",
            ),
            Why::Below(word, least) => about_with(
                word,
                " is below ",
                Part::Number(u64::from(least)),
                ", the smallest allowed",
            ),
            Why::Above(word, most) => about_with(
                word,
                " is above ",
                Part::Number(u64::from(most)),
                ", the largest allowed",
            ),
            Why::MarksTurned(low, high) => about_with(
                low,
                " is above ",
                Part::Word(high),
                "; the low watermark must not be above the high one",
            ),
            Why::MarkAboveFrames(high, frames) => about_with(
                high,
                " is above the number of frames, ",
                Part::Number(u64::from(frames)),
                "",
            ),
            Why::Path(word, path) => about_with(
                word,
                " is not a group's path: it ",
                Part::BadPath(path),
                "",
            ),
            Why::Name(word, path) => about_with(
                word,
                " is not a file's name: it ",
                Part::BadPath(path),
                "",
            ),
            Why::HeaderEnded { line, name } => with_two(
                "",
                Part::Name(name),
                " must come before line ",
                place(line),
                ", which ends the header",
            ),
            Why::Twice { line, name } => with_two(
                "line ",
                place(line),
                " already has ",
                Part::Name(name),
                "",
            ),
            Why::FileTwice(word, line) => about_with(
                word,
                " is already the name of the file in line ",
                place(line),
                "",
            ),
            Why::FilesFull(most) => with_one(
                "there are ",
                place(most),
                " files already; no more are possible",
            ),
            Why::BlocksFull(most) => with_one(
                "swap and the files up to this line need more than ",
                Part::Number(u64::from(most)),
                " blocks",
            ),
            Why::OnlyInSchedule(word) => about(
                word,
                " works in a schedule only; threads take no turns",
            ),
        }
    }
}

impl fmt::Display for Why<'_> {
    fn fmt<W: Write>(&self, f: &mut Formatter<W>) -> fmt::Result {
        write!(f, "{}", self.sentence())
    }
}
