//! What to write in place of a text that is not an amount.

use std::fmt;
use std::fmt::{Formatter, Write};

/// What to write in place of a text that is not an amount.
#[derive(Clone, Copy)]
pub enum Tip<'a> {
    /// `max`: the text asks for no limit in other words.
    Max,
    /// A number of bytes: the text is a share of something.
    NoShare,
    /// The number with one letter after it: the text has a longer name of that unit.
    Unit { number: &'a str, unit: char },
    /// So many of the next smaller unit: the text has a point.
    Smaller { number: u64, unit: &'static str },
    /// Any amount.
    Any,
}

impl fmt::Display for Tip<'_> {
    fn fmt<W: Write>(&self, f: &mut Formatter<W>) -> fmt::Result {
        match self {
            Tip::Max => f.write_str("write max"),
            Tip::NoShare => f.write_str("there are no shares, so write a number of bytes"),
            Tip::Unit { number, unit } => write!(f, "write {number}{unit}"),
            Tip::Smaller { number, unit } => write!(f, "write {number}{unit}"),
            Tip::Any => f.write_str(
                "write max, or bytes such as 4096, 64K, 64M, 64G or 64T, with no leading zero",
            ),
        }
    }
}

/// What to write in place of the text.
pub fn tip_for(text: &str) -> Tip<'_> {
    if matches!(text, "-1" | "infinity" | "none" | "unlimited") {
        return Tip::Max;
    }
    if text.ends_with('%') {
        return Tip::NoShare;
    }
    let number = text.trim_end_matches(|found: char| found.is_ascii_alphabetic());
    let Some(unit) = text.get(number.len()..).and_then(unit_of) else {
        return Tip::Any;
    };
    if is_whole(number) {
        return Tip::Unit { number, unit };
    }
    smaller(number, unit).unwrap_or(Tip::Any)
}

/// The unit of this name.
fn unit_of(name: &str) -> Option<char> {
    match name {
        "K" | "k" | "Ki" | "KB" | "kB" | "KiB" => Some('K'),
        "M" | "m" | "Mi" | "MB" | "MiB" => Some('M'),
        "G" | "g" | "Gi" | "GB" | "GiB" => Some('G'),
        "T" | "t" | "Ti" | "TB" | "TiB" => Some('T'),
        _ => None,
    }
}

/// Whether a number can be that of an amount.
fn is_whole(number: &str) -> bool {
    !number.is_empty()
        && !number.starts_with('0')
        && number.chars().all(|found| found.is_ascii_digit())
}

/// The same as a whole number of the next smaller unit, if it is one.
fn smaller<'a>(number: &str, unit: char) -> Option<Tip<'a>> {
    let (whole, part) = number.split_once('.')?;
    let scale = match part.len() {
        1 => 10,
        2 => 100,
        3 => 1000,
        _ => return None,
    };
    let whole = whole.parse::<u32>().ok()?;
    let part = part.parse::<u32>().ok()?;
    let thousandths = u64::from(part) * 1024;
    if thousandths % scale != 0 {
        return None;
    }
    let number = u64::from(whole) * 1024 + thousandths / scale;
    let unit = match unit {
        'T' => "G",
        'G' => "M",
        'M' => "K",
        _ => "",
    };
    Some(Tip::Smaller { number, unit })
}
