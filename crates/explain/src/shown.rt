//! The words of a line, as they are shown to people.

use std::fmt;
use std::fmt::{Formatter, Write};

/// The words of a line with a single space between any two, and their control characters written out. It takes no
/// memory.
#[derive(Clone, Copy)]
pub struct Words<'a>(pub &'a str);

impl fmt::Display for Words<'_> {
    fn fmt<W: Write>(&self, f: &mut Formatter<W>) -> fmt::Result {
        let mut is_first = true;
        for word in self.0.split([' ', '\t']) {
            if word.is_empty() {
                continue;
            }
            if !is_first {
                f.write_char(' ')?;
            }
            is_first = false;
            write_out(f, word)?;
        }
        Ok(())
    }
}

/// Writes a word with its control characters written out.
pub fn write_out<W: Write>(f: &mut Formatter<W>, word: &str) -> fmt::Result {
    if !word.chars().any(|found| found.is_control()) {
        return f.write_str(word);
    }
    for found in word.chars() {
        if found.is_control() {
            write!(f, "{}", found.escape_debug())?;
        } else {
            f.write_char(found)?;
        }
    }
    Ok(())
}
