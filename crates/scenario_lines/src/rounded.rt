//! Sizes that are no whole page.

ghost use Rattle.std.specs.Prelude.{◌≡◌, ◌<◌, ◌-◌, ◌/◌, ◌^◌, length, OnOk, slice_get};
ghost use Rattle.std.specs.List.{list_any};
ghost use Rattle.std.specs.Option.{option_map};
ghost use Rattle.scenarios.specs.Parts.{halves};
ghost use Rattle.scenario_lines.specs.Rounding.{is_of, same_purpose, text_noted, word_noted, halves_noted, part_noted, value_noted, values_noted, condition_noted, file_noted, amount_noted, task_noted, both_noted, other_noted, sizes_noted};

use machine::text::Text;
use scenario_words::amount::{PageSize, Purpose, pages_for};
use scenario_words::paths::is_path;
use scenario_words::word::{Filled, is_at, is_language};
use scenarios::sizes::read_size;
use std::alloc::{AllocError, Global};

/// A size that was rounded, and the number of pages that it was taken as.
#[derive(Drop)]
pub struct Rounded {
    pub line: usize,
    column: usize,
    purpose: Purpose,
    pub text: Text,
    pub pages: u64,
}

fn same_purpose(one: Purpose, other: Purpose) -> bool
    ensures { result ≡ same_purpose one other }
{
    match one {
        Purpose::Used => match other {
            Purpose::Used => true,
            Purpose::Bound => false,
        },
        Purpose::Bound => match other {
            Purpose::Used => false,
            Purpose::Bound => true,
        },
    }
}

/// Whether it is a size of this word, for this purpose.
fn is_of(one: &Rounded, word: &Filled, purpose: Purpose) -> bool
    ensures { result ≡ is_of word.now purpose one.now }
{
    one.line == word.line && one.column == word.column && same_purpose(one.purpose, purpose)
}

/// Whether a size of this word is noted for this purpose.
fn is_noted(rounded: &[Rounded], word: &Filled, purpose: Purpose) -> bool
    ensures { result ≡ list_any (is_of word.now purpose) rounded.now }
{
    for one in rounded {
        if is_of(one, word, purpose) {
            return true;
        }
    }
    false
}

/// Adds a size, if it is no whole page and the first such one of the word for this purpose.
fn add_text(
    alloc: Global,
    rounded: &mut Vec<Rounded>,
    word: &Filled,
    text: &str,
    purpose: Purpose,
    page: PageSize,
) -> Result<(), AllocError>
    ensures { OnOk result (rounded.new.items ≡ text_noted page.bytes rounded.old.items word.now text.now purpose) }
{
    let Ok(size) = read_size(text) else {
        return Ok(());
    };
    if size.is_whole(page.bytes) || is_noted(rounded.as_slice(), word, purpose) {
        return Ok(());
    }
    rounded.push(Rounded {
        line: word.line,
        column: word.column,
        purpose,
        text: Text::new(String::from_str(alloc, text)?),
        pages: pages_for(purpose, size, page),
    })?;
    Ok(())
}

fn add_word(
    alloc: Global,
    rounded: &mut Vec<Rounded>,
    words: &[Filled],
    place: usize,
    purpose: Purpose,
    page: PageSize,
) -> Result<(), AllocError>
    ensures { OnOk result (rounded.new.items ≡ word_noted page.bytes rounded.old.items (slice_get words.now place) purpose) }
{
    match words.get(place) {
        None => Ok(()),
        Some(word) => add_text(alloc, rounded, word, word.text(), purpose, page),
    }
}

/// The text before the first `..`, and the text after it.
fn halves(text: &str) -> Option<(&str, &str)>
    ensures { option_map (λ h. (h.0.now, h.1.now)) result ≡ halves text.now }
{
    text.split_once("..")
}

/// The beginning of a part is a bound, and its end is used.
fn add_halves(
    alloc: Global,
    rounded: &mut Vec<Rounded>,
    word: &Filled,
    page: PageSize,
) -> Result<(), AllocError>
    ensures { OnOk result (rounded.new.items ≡ halves_noted page.bytes rounded.old.items word.now (halves word.now.text)) }
{
    match halves(word.text()) {
        None => Ok(()),
        Some((from, to)) => {
            add_text(alloc, rounded, word, from, Purpose::Bound, page)?;
            add_text(alloc, rounded, word, to, Purpose::Used, page)
        }
    }
}

fn add_part(
    alloc: Global,
    rounded: &mut Vec<Rounded>,
    words: &[Filled],
    place: usize,
    page: PageSize,
) -> Result<(), AllocError>
    ensures { OnOk result (rounded.new.items ≡ part_noted page.bytes rounded.old.items (slice_get words.now place)) }
{
    match words.get(place) {
        None => Ok(()),
        Some(word) => add_halves(alloc, rounded, word, page),
    }
}

/// The value of the key at this place.
fn add_value(
    alloc: Global,
    rounded: &mut Vec<Rounded>,
    words: &[Filled],
    place: usize,
    page: PageSize,
) -> Result<(), AllocError>
    requires { place < 2 ^ 63 }
    ensures { OnOk result (rounded.new.items ≡ value_noted page.bytes rounded.old.items words.now place) }
{
    if is_at(words, place, "oom.group") || is_at(words, place, "memory.oom.group") {
        return Ok(());
    }
    add_word(alloc, rounded, words, place + 1, Purpose::Bound, page)
}

/// The values of the keys after the second word.
fn add_values(
    alloc: Global,
    rounded: &mut Vec<Rounded>,
    words: &[Filled],
    page: PageSize,
) -> Result<(), AllocError>
    ensures { OnOk result (rounded.new.items ≡ values_noted page.bytes rounded.old.items words.now 2 ((length words.now - 1) / 2)) }
{
    let keys = words.len().saturating_sub(1) / 2;
    for key in 0..keys {
        add_value(alloc, rounded, words, 2 + 2 * key, page)?;
    }
    Ok(())
}

/// The size of a condition that begins at this place.
pub fn add_condition(
    alloc: Global,
    rounded: &mut Vec<Rounded>,
    words: &[Filled],
    place: usize,
    page: PageSize,
) -> Result<(), AllocError>
    ensures { OnOk result (rounded.new.items ≡ condition_noted page.bytes rounded.old.items words.now place) }
{
    match words.get(place) {
        None => Ok(()),
        Some(word) => {
            if is_path(word) {
                add_word(alloc, rounded, words, place + 2, Purpose::Used, page)
            } else {
                Ok(())
            }
        }
    }
}

/// The sizes of a line of files.
fn add_of_file(
    alloc: Global,
    rounded: &mut Vec<Rounded>,
    words: &[Filled],
    page: PageSize,
) -> Result<(), AllocError>
    ensures { OnOk result (rounded.new.items ≡ file_noted page.bytes rounded.old.items words.now) }
{
    if is_at(words, 3, "next") {
        return add_word(alloc, rounded, words, 4, Purpose::Used, page);
    }
    add_part(alloc, rounded, words, 3, page)
}

/// The size of a `write` or a `free`.
fn add_amount(
    alloc: Global,
    rounded: &mut Vec<Rounded>,
    words: &[Filled],
    page: PageSize,
) -> Result<(), AllocError>
    ensures { OnOk result (rounded.new.items ≡ amount_noted page.bytes rounded.old.items words.now) }
{
    if is_at(words, 1, "write") {
        return add_word(alloc, rounded, words, 2, Purpose::Used, page);
    }
    if is_at(words, 1, "free") {
        return add_word(alloc, rounded, words, 2, Purpose::Bound, page);
    }
    Ok(())
}

/// The sizes of a task's line.
fn add_of_task(
    alloc: Global,
    rounded: &mut Vec<Rounded>,
    words: &[Filled],
    page: PageSize,
) -> Result<(), AllocError>
    ensures { OnOk result (rounded.new.items ≡ task_noted page.bytes rounded.old.items words.now) }
{
    if is_at(words, 1, "fread") || is_at(words, 1, "fwrite") {
        return add_of_file(alloc, rounded, words, page);
    }
    if is_at(words, 2, "until") {
        return add_condition(alloc, rounded, words, 3, page);
    }
    if is_at(words, 1, "fork") {
        return Ok(());
    }
    add_amount(alloc, rounded, words, page)?;
    add_part(alloc, rounded, words, 2, page)
}

/// Both sizes of `watermarks`.
fn add_both(
    alloc: Global,
    rounded: &mut Vec<Rounded>,
    words: &[Filled],
    page: PageSize,
) -> Result<(), AllocError>
    ensures { OnOk result (rounded.new.items ≡ both_noted page.bytes rounded.old.items words.now) }
{
    add_word(alloc, rounded, words, 1, Purpose::Bound, page)?;
    add_word(alloc, rounded, words, 2, Purpose::Bound, page)
}

/// The sizes of another line, by its first word.
fn add_of_other(
    alloc: Global,
    rounded: &mut Vec<Rounded>,
    words: &[Filled],
    text: &str,
    page: PageSize,
) -> Result<(), AllocError>
    ensures { OnOk result (rounded.new.items ≡ other_noted page.bytes rounded.old.items words.now text.now) }
{
    if text == "memory" || text == "swap" {
        return add_word(alloc, rounded, words, 1, Purpose::Bound, page);
    }
    if text == "watermarks" {
        return add_both(alloc, rounded, words, page);
    }
    if text == "file" {
        return add_word(alloc, rounded, words, 2, Purpose::Used, page);
    }
    if text == "reclaim" {
        return add_word(alloc, rounded, words, 2, Purpose::Bound, page);
    }
    if text == "group" || text == "set" {
        return add_values(alloc, rounded, words, page);
    }
    Ok(())
}

/// Adds the sizes of a line without a fault that are no whole page.
pub fn add_sizes(
    alloc: Global,
    rounded: &mut Vec<Rounded>,
    words: &[Filled],
    page: PageSize,
) -> Result<(), AllocError>
    ensures { OnOk result (rounded.new.items ≡ sizes_noted page.bytes rounded.old.items words.now) }
{
    let Some(first) = words.first() else {
        return Ok(());
    };
    if first.is_quoted() || !is_language(first.text()) {
        return add_of_task(alloc, rounded, words, page);
    }
    add_of_other(alloc, rounded, words, first.text(), page)
}
