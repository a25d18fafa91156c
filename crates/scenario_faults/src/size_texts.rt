//! What is wrong with a word that is not a size, and what to write instead.

use scenarios::sizes::{SizeFault, read_size};
use std::alloc::{AllocError, Global};

const TOO_LARGE: &str = "too large; a size is at most 1048576T or 4294967295p";

/// The unit that a letter means, in upper or lower case.
fn letter_meant(letter: char) -> Option<&'static str> {
    match letter {
        'K' | 'k' => Some("K"),
        'M' | 'm' => Some("M"),
        'G' | 'g' => Some("G"),
        'T' | 't' => Some("T"),
        'P' | 'p' => Some("p"),
        _ => None,
    }
}

/// The unit that a text such as `MiB`, `MB` or `mb` means. `None` if it means no unit.
fn unit_meant(unit: &str) -> Option<&'static str> {
    if unit == "" || unit == "B" || unit == "b" {
        return Some("");
    }
    let letter = letter_meant(unit.chars().next()?);
    match unit.get(1..)? {
        "" | "B" | "b" | "i" | "iB" | "ib" => letter,
        _ => None,
    }
}

/// The size that a text probably means: its number, with the unit that follows. A size means itself.
fn size_meant(alloc: Global, text: &str) -> Result<Option<String>, AllocError> {
    let number = text.trim_end_matches(|letter: char| letter.is_ascii_alphabetic());
    let Some(unit) = text.strip_prefix(number) else {
        return Ok(None);
    };
    let Some(unit) = unit_meant(unit) else {
        return Ok(None);
    };
    let size = format!(in alloc; "{number}{unit}")?;
    if read_size(size.as_str()).is_ok() {
        Ok(Some(size))
    } else {
        Ok(None)
    }
}

/// The part that two texts probably mean. `None` if one of them means no size.
fn part_meant(alloc: Global, from: &str, to: &str) -> Result<Option<String>, AllocError> {
    let Some(from) = size_meant(alloc, from)? else {
        return Ok(None);
    };
    let Some(to) = size_meant(alloc, to)? else {
        return Ok(None);
    };
    Ok(Some(format!(in alloc; "{from}..{to}")?))
}

fn is_too_large(text: &str) -> bool {
    match read_size(text) {
        Err(SizeFault::TooLarge) => true,
        _ => false,
    }
}

/// Adds what is wrong with a part `FROM..TO` if `FROM` or `TO` is not a size.
fn add_part_fault(
    alloc: Global,
    text: &mut String,
    from: &str,
    to: &str,
) -> Result<(), AllocError> {
    if is_too_large(from) || is_too_large(to) {
        return text.push_str(TOO_LARGE);
    }
    match part_meant(alloc, from, to)? {
        None => text.push_str("not a part; write FROM..TO, as 0..5M"),
        Some(part) => write!(text, "not a part; write {part}"),
    }
}

/// Adds what is wrong with a word that is not a size. If a part is allowed at its place, the word may also be meant as a
/// part `FROM..TO`.
pub fn add_size_fault(
    alloc: Global,
    text: &mut String,
    word: &str,
    may_be_part: bool,
) -> Result<(), AllocError> {
    if may_be_part {
        if let Some((from, to)) = word.split_once("..") {
            return add_part_fault(alloc, text, from, to);
        }
    }
    if is_too_large(word) {
        return text.push_str(TOO_LARGE);
    }
    match size_meant(alloc, word)? {
        None => text.push_str("not a size; write 4096, 300M, 1.5G or 7p (pages)"),
        Some(size) => write!(text, "not a size; write {size}"),
    }
}
