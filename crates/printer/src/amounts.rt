//! Amounts of memory, as answers print them.

ghost use Rattle.std.specs.Prelude.{◌≡◌, ◌<◌, ◌++◌, ◌∷◌, [], length, OnOk, MatchOption};
ghost use Rattle.std.specs.List.{before_first, after_first, position_or_len};
ghost use Rattle.std.specs.String.{string_bytes};
ghost use Rattle.machine.specs.Printed.{printed};
ghost use Rattle.printer.specs.Amounts.{tenths_of, unit_text, human_text, has_pages, number_text, word_in, is_end, row_in, rows_in, reply_in};

use machine::command::{Answer, Reply};
use machine::page_size::PageSize;
use std::alloc::AllocError;
use text_forms::number::long_number_of;

/// How amounts of memory are printed.
#[derive(Clone, Copy, Debug, PartialEq, Eq)]
pub enum Amounts {
    /// In bytes, as control files have them.
    Bytes,
    /// In the first of the units K, M, G and T in which the amount is below 1024, as `512K`, `23.4M` and `1G`. A decimal
    /// is rounded to the nearest, and a tie to the even one.
    Human,
    /// In pages.
    Pages,
}

/// A number of bytes in tenths of a unit.
fn tenths_of(unit: u64, bytes: u64) -> u128
    requires { 0 < unit }
    ensures { result ≡ tenths_of unit bytes }
{
    let unit = u128::from(unit);
    let tenths = u128::from(bytes) * 10;
    let whole = tenths / unit;
    let twice = tenths % unit * 2;
    if twice > unit {
        whole + 1
    } else if twice == unit {
        whole + whole % 2
    } else {
        whole
    }
}

/// Adds a number of bytes in a unit with this letter.
fn add_in_unit(text: &mut String, unit: u64, letter: &str, bytes: u64) -> Result<(), AllocError>
    requires { 0 < unit }
    ensures { OnOk result (string_bytes text.new ≡ string_bytes text.old ++ unit_text unit letter.now bytes) }
{
    if bytes % unit == 0 {
        return write!(text, "{}{letter}", bytes / unit);
    }
    let tenths = tenths_of(unit, bytes);
    write!(text, "{}.{}{letter}", tenths / 10, tenths % 10)
}

/// Adds a number of bytes in the first unit in which it is below 1024.
fn add_human(text: &mut String, bytes: u64) -> Result<(), AllocError>
    ensures { OnOk result (string_bytes text.new ≡ string_bytes text.old ++ human_text bytes) }
{
    if tenths_of(1_024, bytes) < 10_240 {
        add_in_unit(text, 1_024, "K", bytes)
    } else if tenths_of(1_048_576, bytes) < 10_240 {
        add_in_unit(text, 1_048_576, "M", bytes)
    } else if tenths_of(1_073_741_824, bytes) < 10_240 {
        add_in_unit(text, 1_073_741_824, "G", bytes)
    } else {
        add_in_unit(text, 1_099_511_627_776, "T", bytes)
    }
}

/// Whether a number is an amount that has pages of this size. A flag is none.
fn has_pages(page_size: PageSize, number: u64) -> bool
    ensures { result ≡ has_pages page_size.bytes number }
{
    number != 0 && number % page_size.bytes == 0
}

/// Adds a number of a control file. Its amounts are of pages of this size.
pub fn add_number(
    text: &mut String,
    page_size: PageSize,
    amounts: Amounts,
    number: u64,
) -> Result<(), AllocError>
    ensures { OnOk result (string_bytes text.new ≡ string_bytes text.old ++ number_text page_size.bytes amounts number) }
{
    match amounts {
        Amounts::Human if has_pages(page_size, number) => add_human(text, number),
        Amounts::Pages if has_pages(page_size, number) => write!(
            text,
            "{}",
            page_size.pages_in(number)
        ),
        Amounts::Bytes | Amounts::Human | Amounts::Pages => write!(text, "{number}"),
    }
}

/// Adds a word of a control file.
fn add_word(
    text: &mut String,
    page_size: PageSize,
    amounts: Amounts,
    word: &str,
) -> Result<(), AllocError>
    ensures { OnOk result (string_bytes text.new ≡ string_bytes text.old ++ word_in page_size.bytes amounts word.now) }
{
    match long_number_of(word) {
        Some(number) => add_number(text, page_size, amounts, number),
        None => text.push_str(word),
    }
}

/// Adds a row of a control file.
fn add_row(
    text: &mut String,
    page_size: PageSize,
    amounts: Amounts,
    row: &str,
) -> Result<(), AllocError>
    ensures { OnOk result (string_bytes text.new ≡ string_bytes text.old ++ row_in page_size.bytes amounts row.now) }
{
    match row.split_once(' ') {
        Some((name, number)) if name == "anon" || name == "file" => {
            text.push_str(name)?;
            text.push(' ')?;
            add_word(text, page_size, amounts, number)
        }
        _ => add_word(text, page_size, amounts, row),
    }
}

/// Adds a row of a control file and the end of its line.
fn add_line(
    text: &mut String,
    page_size: PageSize,
    amounts: Amounts,
    row: &str,
) -> Result<(), AllocError>
    ensures { OnOk result (string_bytes text.new ≡ string_bytes text.old ++ (row_in page_size.bytes amounts row.now ++ 10 ∷ [])) }
{
    add_row(text, page_size, amounts, row)?;
    text.push('\n')
}

/// The first row of a text and what follows its line feed, if it has one.
fn first_row(text: &str) -> Option<(&str, &str)>
    ensures { MatchOption result (position_or_len is_end text.now ≡ length text.now)
        (λ p. (p.0.now ≡ before_first is_end text.now) × (p.1.now ≡ after_first is_end text.now) × (position_or_len is_end text.now < length text.now)) }
{
    text.split_once('\n')
}

/// Adds all rows of a control file.
fn add_rows(
    text: &mut String,
    page_size: PageSize,
    amounts: Amounts,
    said: &str,
) -> Result<(), AllocError>
    ensures { OnOk result (string_bytes text.new ≡ string_bytes text.old ++ rows_in page_size.bytes amounts [] said.now) }
{
    let mut rest = said;
    while let Some((row, behind)) = first_row(rest) {
        add_line(text, page_size, amounts, row)?;
        rest = behind;
    }
    add_row(text, page_size, amounts, rest)
}

/// Adds the line of an answer, with its amounts printed so.
pub fn add_reply(
    text: &mut String,
    page_size: PageSize,
    amounts: Amounts,
    reply: &Reply,
) -> Result<(), AllocError>
    ensures { OnOk result (string_bytes text.new ≡ string_bytes text.old ++ printed (reply_in page_size.bytes amounts reply.now)) }
{
    match amounts {
        Amounts::Bytes => reply.print(text),
        Amounts::Human | Amounts::Pages => match &reply.answer {
            Answer::Text(said) => add_rows(text, page_size, amounts, said.as_str()),
            Answer::Done | Answer::Kill(_) | Answer::Byte(_) | Answer::Word(_) => reply.print(text),
            Answer::KillAll {
                victim: _,
                tasks: _,
            } => reply.print(text),
        },
    }
}
