//! The first place at which the answers are not what the script expects.

use std::{fmt, str};

/// A place at which the answer is not what the script expects, by a line of the script.
#[derive(Clone, Copy)]
pub enum Difference<'a> {
    /// The line expects a text, and the line of the number `from` answered another.
    Other {
        line: usize,
        from: usize,
        wanted: &'a [u8],
        got: &'a [u8],
    },
    /// The line expects a text, and the lines that it belongs to answered no more.
    Nothing {
        line: usize,
        wanted: &'a [u8],
    },
    /// The line answered a text that no line expects.
    Unexpected {
        line: usize,
        got: &'a [u8],
    },
}

/// A text of a script, or of its output, with its control characters written out. Both are UTF-8 if a script was run.
#[derive(Clone, Copy)]
pub struct Text<'a>(pub &'a [u8]);

impl fmt::Display for Text<'_> {
    fn fmt<W: fmt::Write>(&self, f: &mut fmt::Formatter<W>) -> fmt::Result {
        let Ok(text) = str::from_utf8(self.0) else {
            return write!(f, "{}", self.0.escape_ascii());
        };
        for character in text.chars() {
            if character.is_control() {
                write!(f, "{}", character.escape_debug())?;
            } else {
                f.write_char(character)?;
            }
        }
        Ok(())
    }
}

/// The line's number, and what is wrong.
impl fmt::Display for Difference<'_> {
    fn fmt<W: fmt::Write>(&self, f: &mut fmt::Formatter<W>) -> fmt::Result {
        match *self {
            Difference::Other {
                line,
                from: _,
                wanted,
                got,
            } => write!(f, "{line}: expected {}, got {}", Text(wanted), Text(got)),
            Difference::Nothing { line, wanted } => {
                write!(f, "{line}: expected {}, got nothing", Text(wanted))
            }
            Difference::Unexpected { line, got } => {
                write!(f, "{line}: unexpected {}", Text(got))
            }
        }
    }
}
