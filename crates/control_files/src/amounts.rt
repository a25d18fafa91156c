//! Amounts of memory, as written to a control file.

ghost use Rattle.std.specs.Prelude.{◌≡◌};
ghost use Rattle.std.specs.Option.{option_map};
ghost use Rattle.machine.specs.Control.{unit_of, last_unit, digits_part, is_plain, plain_amount, amount_of, page_size_of};
ghost use Rattle.machine.specs.PageSizes.{page_of};

use machine::amount::Amount;
use machine::page_size::PageSize;
use text_forms::number::{is_digits, long_number_of};

/// The factor of a letter at the end of an amount, and 1 for any other character.
fn unit_of(letter: u8) -> u64
    ensures { result ≡ unit_of letter }
{
    match letter {
        b'K' | b'k' => 1024,
        b'M' | b'm' => 1_048_576,
        b'G' | b'g' => 1_073_741_824,
        b'T' | b't' => 1_099_511_627_776,
        _ => 1,
    }
}

/// The text before the letter at its end, and the factor of that letter.
fn split_unit(text: &str) -> (&str, u64)
    ensures digits { result.0.now ≡ digits_part text.now }
    ensures unit { result.1 ≡ last_unit text.now }
{
    let Some(last) = text.as_bytes().last() else {
        return (text, 1);
    };
    let unit = unit_of(*last);
    if unit == 1 {
        return (text, 1);
    }
    (&text[..text.len() - 1], unit)
}

/// Whether a text consists of digits, without a zero in front of others.
fn is_plain(digits: &str) -> bool
    ensures { result ≡ is_plain digits.now }
{
    if !is_digits(digits) {
        return false;
    }
    digits.len() == 1 || digits.as_bytes()[0] > b'0'
}

/// The bytes that a text writes with at most one of the suffixes K, M, G and T. `None` for any other text, and for 2^64
/// bytes and more.
fn parse_bytes(text: &str) -> Option<u64>
    ensures { result ≡ plain_amount text.now }
{
    let (digits, unit) = split_unit(text);
    if !is_plain(digits) {
        return None;
    }
    let number = long_number_of(digits)?;
    number.checked_mul(unit)
}

/// The amount that a text writes: `max`, or a number of bytes with at most one of the suffixes K, M, G and T, rounded
/// down to whole pages of this size. `None` for any other text, and for 2^64 bytes and more.
pub fn parse_amount(page_size: PageSize, text: &str) -> Option<Amount>
    ensures { result ≡ amount_of page_size.bytes text.now }
{
    if text == "max" {
        return Some(Amount::Max);
    }
    let bytes = parse_bytes(text)?;
    Some(Amount::Pages(page_size.pages_in(bytes)))
}

/// The page size that a text writes, as [`parse_amount`] reads bytes. `None` if no page has this size.
pub fn parse_page_size(text: &str) -> Option<PageSize>
    ensures { result ≡ option_map page_of (page_size_of text.now) }
{
    PageSize::new(parse_bytes(text)?)
}
