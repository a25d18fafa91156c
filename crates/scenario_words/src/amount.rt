//! Sizes of words, in pages of the scenario.

ghost use Rattle.std.specs.Prelude.{◌≡◌, ◌≤◌, IfOk};
ghost use Rattle.scenarios.specs.Sizes.{in_millionths};
ghost use Rattle.scenario_words.specs.Amounts.{TakesNoMemory, rounded, part_pages, some_pages, size_in, pages_of, pages_within, part_within, number_within};
ghost use Rattle.scenario_words.specs.Faults.{Gives};

use crate::fault::{Cause, ExpandError};
use crate::word::Filled;
pub use machine::page_size::PageSize;
use scenarios::parts::{Part, read_part};
use scenarios::sizes::{Size, read_size};
use text_forms::number::long_number_of;

/// What a size is for.
#[derive(Clone, Copy, Debug, PartialEq, Eq)]
pub enum Purpose {
    /// So much memory is used.
    Used,
    /// It is a bound.
    Bound,
}

/// How many pages a size is. A fraction of a page is rounded up if the size is used, and down if it is a bound.
pub fn pages_for(purpose: Purpose, size: Size, page: PageSize) -> u64
    ensures { result ≡ rounded purpose size page.bytes }
{
    match purpose {
        Purpose::Used => size.pages_up(page.bytes),
        Purpose::Bound => size.pages_down(page.bytes),
    }
}

/// The first page of a part, and the page after its last one.
fn part_pages(part: Part, page: PageSize) -> (u64, u64)
    ensures { result ≡ part_pages part page.bytes }
{
    (
        pages_for(Purpose::Bound, part.from, page),
        pages_for(Purpose::Used, part.to, page),
    )
}

/// Millionths of a byte that a size is.
fn in_millionths(size: Size, page: PageSize) -> u128
    ensures { result ≡ in_millionths size page.bytes }
{
    match size {
        Size::Bytes { whole, millionths } => {
            u128::from(whole) * 1_000_000 + u128::from(millionths)
        }
        Size::Pages(pages) => u128::from(pages) * u128::from(page.bytes) * 1_000_000,
    }
}

/// The size that a word is.
#[tactic(auto, unfolding(crate::specs::Amounts::size_in))]
pub fn size_of(word: &Filled) -> Result<Size, ExpandError>
    ensures size { Gives (λ x. x) result (size_in word.now) }
    ensures memory { TakesNoMemory result }
{
    if word.is_quoted() {
        return Err(word.fault(Cause::Size));
    }
    match read_size(word.text()) {
        Ok(size) => Ok(size),
        Err(_) => Err(word.fault(Cause::Size)),
    }
}

/// The pages of the size that a word is.
#[tactic(auto, unfolding(crate::specs::Amounts::pages_of))]
pub fn pages_of(word: &Filled, purpose: Purpose, page: PageSize) -> Result<u64, ExpandError>
    ensures pages { Gives (λ x. x) result (pages_of purpose page.bytes word.now) }
    ensures memory { TakesNoMemory result }
{
    match size_of(word) {
        Ok(size) => Ok(pages_for(purpose, size, page)),
        Err(error) => Err(error),
    }
}

/// The same, if the number is within these bounds.
#[tactic(auto, unfolding(crate::specs::Amounts::pages_within))]
pub fn pages_within(
    word: &Filled,
    purpose: Purpose,
    page: PageSize,
    least: u32,
    most: u32,
) -> Result<u32, ExpandError>
    ensures pages { Gives (λ x. x) result (pages_within purpose page.bytes least most word.now) }
    ensures within { IfOk result (λ pages. (least ≤ pages) × (pages ≤ most)) }
    ensures memory { TakesNoMemory result }
{
    match pages_of(word, purpose, page) {
        Ok(pages) => {
            if u64::from(least) <= pages && pages <= u64::from(most) {
                Ok(pages as u32)
            } else {
                Err(word.fault(Cause::SizeBounds))
            }
        }
        Err(error) => Err(error),
    }
}

/// The pages of a part of `most` pages.
fn pages_of_part(
    word: &Filled,
    page: PageSize,
    most: u32,
    part: Part,
) -> Result<(u32, u32), ExpandError>
    ensures pages { Gives (λ x. x) result (some_pages word.now page.bytes most part) }
    ensures within { IfOk result (λ pages. (pages.0 ≤ pages.1) × (pages.1 ≤ most)) }
    ensures memory { TakesNoMemory result }
{
    if in_millionths(part.from, page) >= in_millionths(part.to, page) {
        return Err(word.fault(Cause::EmptyPart));
    }
    let (first, after) = part_pages(part, page);
    if first <= after && after <= u64::from(most) {
        Ok((first as u32, after as u32))
    } else {
        Err(word.fault(Cause::PastEnd))
    }
}

/// The first page of the part that a word is, and the page after its last one. There are `most` pages.
#[tactic(auto, unfolding(crate::specs::Amounts::part_within))]
pub fn part_of(word: &Filled, page: PageSize, most: u32) -> Result<(u32, u32), ExpandError>
    ensures pages { Gives (λ x. x) result (part_within page.bytes most word.now) }
    ensures within { IfOk result (λ pages. (pages.0 ≤ pages.1) × (pages.1 ≤ most)) }
    ensures memory { TakesNoMemory result }
{
    if word.is_quoted() {
        return Err(word.fault(Cause::Part));
    }
    match read_part(word.text()) {
        Some(Ok(part)) => pages_of_part(word, page, most, part),
        Some(Err(_)) => Err(word.fault(Cause::Size)),
        None => Err(word.fault(Cause::Part)),
    }
}

/// The number that a word is, within these bounds.
#[tactic(auto, unfolding(crate::specs::Amounts::number_within))]
pub fn number_within(word: &Filled, least: u64, most: u64) -> Result<u64, ExpandError>
    ensures number { Gives (λ x. x) result (number_within least most word.now) }
    ensures within { IfOk result (λ number. (least ≤ number) × (number ≤ most)) }
    ensures memory { TakesNoMemory result }
{
    if word.is_quoted() {
        return Err(word.fault(Cause::Number));
    }
    match long_number_of(word.text()) {
        None => Err(word.fault(Cause::Number)),
        Some(number) => {
            if least <= number && number <= most {
                Ok(number)
            } else {
                Err(word.fault(Cause::Number))
            }
        }
    }
}
