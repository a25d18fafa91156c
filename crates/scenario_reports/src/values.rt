//! The words that `--vary` gives to a name, one for each run.

use scenario_faults::is_word;
use scenarios::sizes::{Size, read_size};
use std::alloc::{AllocError, AllocFailed, Global};

/// How many words a name is given, at most.
pub const MOST_VALUES: usize = 10_000;

/// Millionths that a byte or a page has.
const MILLION: u128 = 1_000_000;

/// The name of a `let`, and the words that it is given, in the order of the runs.
#[derive(Drop)]
pub struct Values<'a> {
    pub name: &'a str,
    pub words: Vec<String>,
}

/// Why a text gives no words.
#[derive(Clone, Copy, Debug, PartialEq, Eq)]
pub enum ValuesFault<'a> {
    /// It has neither of the two forms.
    Form,
    /// One of them is not a word of a scenario.
    Word(&'a str),
    /// A bound or the step is neither a size nor a whole number.
    Amount(&'a str),
    /// Some of the bounds and the step are in pages, and some are not.
    Units,
    /// The first bound is above the last.
    Order,
    /// The step is 0.
    NoStep,
    /// There are more than [`MOST_VALUES`].
    TooMany,
    Memory,
}

impl From<AllocError> for ValuesFault<'_> {
    fn from(_: AllocError) -> Self {
        ValuesFault::Memory
    }
}

impl<T: Drop> From<AllocFailed<T>> for ValuesFault<'_> {
    fn from(_: AllocFailed<T>) -> Self {
        ValuesFault::Memory
    }
}

/// What an amount is written in.
#[derive(Clone, Copy, PartialEq, Eq)]
enum Unit {
    Page,
    Byte,
    Kilo,
    Mega,
    Giga,
    Tera,
}

impl Unit {
    fn of(word: &str) -> Unit {
        match word.as_bytes().last() {
            Some(b'p') => Unit::Page,
            Some(b'K') => Unit::Kilo,
            Some(b'M') => Unit::Mega,
            Some(b'G') => Unit::Giga,
            Some(b'T') => Unit::Tera,
            _ => Unit::Byte,
        }
    }

    /// How many bytes it has, or how many pages.
    fn size(self) -> u128 {
        match self {
            Unit::Page | Unit::Byte => 1,
            Unit::Kilo => 1 << 10,
            Unit::Mega => 1 << 20,
            Unit::Giga => 1 << 30,
            Unit::Tera => 1 << 40,
        }
    }

    fn letter(self) -> &'static str {
        match self {
            Unit::Page => "p",
            Unit::Byte => "",
            Unit::Kilo => "K",
            Unit::Mega => "M",
            Unit::Giga => "G",
            Unit::Tera => "T",
        }
    }

    fn smaller(self, other: Unit) -> Unit {
        if other.size() < self.size() {
            other
        } else {
            self
        }
    }
}

/// A size or a whole number.
#[derive(Clone, Copy)]
struct Amount {
    /// In millionths of a byte, or of a page.
    millionths: u128,
    unit: Unit,
}

/// Amounts from one to another.
#[derive(Clone, Copy)]
struct Range {
    from: Amount,
    to: Amount,
    step: Amount,
}

fn amount_of(word: &str) -> Result<Amount, ValuesFault<'_>> {
    let millionths = match read_size(word) {
        Ok(Size::Pages(pages)) => u128::from(pages).saturating_mul(MILLION),
        Ok(Size::Bytes { whole, millionths }) => u128::from(whole)
            .saturating_mul(MILLION)
            .saturating_add(u128::from(millionths)),
        Err(_) => return Err(ValuesFault::Amount(word)),
    };
    Ok(Amount {
        millionths,
        unit: Unit::of(word),
    })
}

/// The range that a text `FROM..TO/STEP` writes. `None` if it is a list.
fn range_of(text: &str) -> Result<Option<Range>, ValuesFault<'_>> {
    if text.contains(',') || text.contains('"') {
        return Ok(None);
    }
    let Some((from, rest)) = text.split_once("..") else {
        return Ok(None);
    };
    let Some((to, step)) = rest.split_once('/') else {
        return Err(ValuesFault::Form);
    };
    Ok(Some(Range {
        from: amount_of(from)?,
        to: amount_of(to)?,
        step: amount_of(step)?,
    }))
}

impl Range {
    /// What is wrong with its order or its units.
    fn fault(self) -> Option<ValuesFault<'static>> {
        let pages = self.from.unit == Unit::Page;
        if (self.to.unit == Unit::Page) != pages || (self.step.unit == Unit::Page) != pages {
            Some(ValuesFault::Units)
        } else if self.step.millionths == 0 {
            Some(ValuesFault::NoStep)
        } else if self.from.millionths > self.to.millionths {
            Some(ValuesFault::Order)
        } else {
            None
        }
    }

    /// The words of its amounts, in the smaller unit of those of its beginning and its step.
    fn words(self, alloc: Global) -> Result<Vec<String>, ValuesFault<'static>> {
        let unit = self.from.unit.smaller(self.step.unit);
        let mut words = Vec::new(alloc);
        let mut millionths = self.from.millionths;
        for _ in 0..=MOST_VALUES {
            if millionths > self.to.millionths {
                return Ok(words);
            }
            words.push(word_of(alloc, millionths, unit)?)?;
            millionths = millionths.saturating_add(self.step.millionths);
        }
        Err(ValuesFault::TooMany)
    }
}

/// The word of an amount that is a whole number of millionths of the unit.
fn word_of(alloc: Global, millionths: u128, unit: Unit) -> Result<String, AllocError> {
    let number = millionths.checked_div(unit.size()).unwrap_or(0);
    let mut text = format!(in alloc; "{}", number / MILLION)?;
    let part = number % MILLION;
    if part > 0 {
        let digits = format!(in alloc; "{part:06}")?;
        text.push('.')?;
        text.push_str(digits.trim_end_matches('0'))?;
    }
    text.push_str(unit.letter())?;
    Ok(text)
}

/// The place of the first comma outside quotes.
fn first_comma(text: &str) -> Option<usize> {
    let mut inside = false;
    for (place, byte) in text.bytes().enumerate() {
        if byte == b'"' {
            inside = !inside;
        } else if byte == b',' && !inside {
            return Some(place);
        }
    }
    None
}

/// The first word of a list, and what follows its comma.
fn cut_list(list: &str) -> (&str, Option<&str>) {
    let Some(place) = first_comma(list) else {
        return (list, None);
    };
    match list.split_at_checked(place) {
        None => (list, None),
        Some((word, rest)) => (word, rest.strip_prefix(',')),
    }
}

/// The words of a list `A,B,C`.
fn listed_words(alloc: Global, list: &str) -> Result<Vec<String>, ValuesFault<'_>> {
    let mut words = Vec::new(alloc);
    let mut left = Some(list);
    for _ in 0..=MOST_VALUES {
        let Some(list) = left else {
            return Ok(words);
        };
        let (word, rest) = cut_list(list);
        if !is_word(word) {
            return Err(ValuesFault::Word(word));
        }
        words.push(String::from_str(alloc, word)?)?;
        left = rest;
    }
    Err(ValuesFault::TooMany)
}

/// The name and the words of a text `NAME=FROM..TO/STEP` or `NAME=A,B,C`. The words of the first form are FROM, then FROM
/// with STEP added once, twice and so on, up to TO: sizes or whole numbers, in the smaller unit of FROM and STEP.
pub fn read_values<'a>(alloc: Global, text: &'a str) -> Result<Values<'a>, ValuesFault<'a>> {
    let Some((name, values)) = text.split_once('=') else {
        return Err(ValuesFault::Form);
    };
    let words = match range_of(values)? {
        None => listed_words(alloc, values)?,
        Some(range) => match range.fault() {
            Some(fault) => return Err(fault),
            None => range.words(alloc)?,
        },
    };
    Ok(Values { name, words })
}
