//! Sentences: fixed words with a few parts between them.

use std::fmt;
use std::fmt::{Display, Formatter, Write};

/// Fixed words around at most three parts of the type `P`.
#[derive(Clone, Copy)]
pub struct Sentence<P> {
    pub begin: &'static str,
    pub first: Option<P>,
    pub middle: &'static str,
    pub second: Option<P>,
    pub end: &'static str,
    pub last: Option<P>,
}

/// Fixed words alone.
pub fn fixed<P>(text: &'static str) -> Sentence<P> {
    Sentence {
        begin: text,
        first: None,
        middle: "",
        second: None,
        end: "",
        last: None,
    }
}

/// One part, between fixed words.
pub fn with_one<P>(begin: &'static str, part: P, end: &'static str) -> Sentence<P> {
    Sentence {
        begin,
        first: Some(part),
        middle: end,
        second: None,
        end: "",
        last: None,
    }
}

/// Two parts, each between fixed words.
pub fn with_two<P>(
    begin: &'static str,
    first: P,
    middle: &'static str,
    second: P,
    end: &'static str,
) -> Sentence<P> {
    Sentence {
        begin,
        first: Some(first),
        middle,
        second: Some(second),
        end,
        last: None,
    }
}

fn write_part<P: Display, W: Write>(f: &mut Formatter<W>, part: &Option<P>) -> fmt::Result {
    match part {
        None => Ok(()),
        Some(part) => part.fmt(f),
    }
}

impl<P: Display> Display for Sentence<P> {
    fn fmt<W: Write>(&self, f: &mut Formatter<W>) -> fmt::Result {
        f.write_str(self.begin)?;
        write_part(f, &self.first)?;
        f.write_str(self.middle)?;
        write_part(f, &self.second)?;
        f.write_str(self.end)?;
        write_part(f, &self.last)
    }
}
