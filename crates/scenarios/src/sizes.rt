//! Sizes, as they are written, and the pages that they take.

ghost use Rattle.std.specs.Prelude.{◌≡◌, ℕ, ◌<◌, ◌≤◌, ◌-◌, ◌*◌, ◌^◌, ◌==◌, IfSome};
ghost use Rattle.scenarios.specs.Sizes.{unit_bytes, last_byte, split_unit, whole_of, places_of, millionths_of, bytes_of, bytes_written, pages_written, size_by_form, without_i, short_unit, hint_of, size_of, limit_of, pages_down, pages_up, is_whole, IsProper, IsFloor, IsCeiling};

use text_forms::number::{is_digits, long_number_of, number_of};

/// Bytes that a size has, at most: 2^60, which is 1048576T.
pub const MOST_BYTES: u64 = 1 << 60;

/// Digits after the point of a size, at most.
pub const MOST_PLACES: usize = 6;

/// An amount of memory.
#[derive(Clone, Copy, Debug, PartialEq, Eq)]
pub enum Size {
    /// So many bytes, and millionths of a byte.
    Bytes { whole: u64, millionths: u32 },
    /// So many pages, whatever a page has.
    Pages(u32),
}

/// What a group may have.
#[derive(Clone, Copy, Debug, PartialEq, Eq)]
pub enum Limit {
    Max,
    Size(Size),
}

/// Why a word is no size.
#[derive(Clone, Copy, Debug, PartialEq, Eq)]
pub enum SizeFault {
    /// It isn't a number with one of the units.
    NotSize,
    /// It is above what a size can be.
    TooLarge,
    /// It has a unit of two or three letters, as `Mi`, `MB` or `MiB`; one letter is enough.
    LongUnit,
    /// It means no limit, in the words of other programs.
    Unlimited,
    /// It is a share.
    Percent,
}

fn unit_bytes(letter: u8) -> Option<u64>
    ensures value { result ≡ unit_bytes letter }
    ensures most { IfSome result (λ bytes. bytes ≤ 2 ^ 40) }
{
    match letter {
        b'K' => Some(1 << 10),
        b'M' => Some(1 << 20),
        b'G' => Some(1 << 30),
        b'T' => Some(1 << 40),
        _ => None,
    }
}

fn last_unit(word: &str) -> Option<u64>
    ensures value { result ≡ unit_bytes (last_byte word.now) }
    ensures most { IfSome result (λ bytes. bytes ≤ 2 ^ 40) }
{
    match word.as_bytes().last() {
        None => None,
        Some(letter) => unit_bytes(*letter),
    }
}

/// The number of a size in bytes, and the bytes of its unit.
fn split_unit(word: &str) -> (&str, u64)
    ensures number { result.0.now ≡ (split_unit word.now).0 }
    ensures unit { result.1 ≡ (split_unit word.now).1 }
    ensures most { result.1 ≤ 2 ^ 40 }
{
    match last_unit(word) {
        None => (word, 1),
        Some(bytes) => (&word[..word.len() - 1], bytes),
    }
}

/// The digits before a number's point, and those after it.
fn split_point(number: &str) -> (&str, &str)
    ensures whole { result.0.now ≡ whole_of number.now }
    ensures places { result.1.now ≡ places_of number.now }
{
    match number.split_once('.') {
        None => (number, "0"),
        Some((whole, places)) => (whole, places),
    }
}

fn power_for(places: usize) -> u64
    ensures value { result ≡ 10 ^ (MOST_PLACES - places) }
    ensures most { result ≤ 10 ^ 6 }
{
    match places {
        0 => 1_000_000,
        1 => 100_000,
        2 => 10_000,
        3 => 1_000,
        4 => 100,
        5 => 10,
        _ => 1,
    }
}

/// The digits after the point, in millionths.
fn millionths_of(places: &str) -> u64
    ensures value { result ≡ millionths_of places.now }
    ensures most { result ≤ 2 ^ 32 * 10 ^ 6 }
{
    u64::from(number_of(places).unwrap_or(0)) * power_for(places.len())
}

fn bytes_of(millionths: u128) -> Result<Size, SizeFault>
    ensures { result ≡ bytes_of millionths }
{
    let whole = millionths / 1_000_000;
    if whole > u128::from(MOST_BYTES) {
        return Err(SizeFault::TooLarge);
    }
    Ok(Size::Bytes {
        whole: whole as u64,
        millionths: (millionths % 1_000_000) as u32,
    })
}

fn bytes_written(number: &str, unit: u64) -> Result<Size, SizeFault>
    requires { unit ≤ 2 ^ 40 }
    ensures { result ≡ bytes_written number.now unit }
{
    let (whole, places) = split_point(number);
    if !is_digits(whole) || !is_digits(places) || places.len() > MOST_PLACES {
        return Err(SizeFault::NotSize);
    }
    match long_number_of(whole) {
        None => Err(SizeFault::TooLarge),
        Some(whole) => {
            let millionths = u128::from(whole) * 1_000_000 + u128::from(millionths_of(places));
            bytes_of(millionths * u128::from(unit))
        }
    }
}

fn pages_written(number: &str) -> Result<Size, SizeFault>
    ensures { result ≡ pages_written number.now }
{
    if !is_digits(number) {
        return Err(SizeFault::NotSize);
    }
    match number_of(number) {
        None => Err(SizeFault::TooLarge),
        Some(pages) => Ok(Size::Pages(pages)),
    }
}

fn counts_pages(word: &str) -> bool
    ensures { result ≡ (last_byte word.now == 112) }
{
    word.as_bytes().last() == Some(&b'p')
}

fn size_by_form(word: &str) -> Result<Size, SizeFault>
    ensures { result ≡ size_by_form word.now }
{
    if counts_pages(word) {
        return pages_written(&word[..word.len() - 1]);
    }
    let (number, unit) = split_unit(word);
    bytes_written(number, unit)
}

fn ends_in(word: &str, letter: u8) -> bool
    requires { 0 < letter }
    ensures { result ≡ (last_byte word.now == letter) }
{
    word.as_bytes().last() == Some(&letter)
}

fn without_i(word: &str) -> &str
    ensures { result.now ≡ without_i word.now }
{
    if ends_in(word, b'i') {
        &word[..word.len() - 1]
    } else {
        word
    }
}

/// A word with the first letter alone of a unit like `Mi`, `MB` or `MiB`.
pub fn short_unit(word: &str) -> &str
    ensures { result.now ≡ short_unit word.now }
{
    if ends_in(word, b'B') {
        without_i(&word[..word.len() - 1])
    } else {
        without_i(word)
    }
}

/// What is wrong with a word that is no size by its form.
fn hint_of(word: &str) -> SizeFault
    ensures { result ≡ hint_of word.now }
{
    if word == "-1" || word == "infinity" || word == "unlimited" {
        return SizeFault::Unlimited;
    }
    if ends_in(word, b'%') {
        return SizeFault::Percent;
    }
    if size_by_form(short_unit(word)).is_ok() {
        SizeFault::LongUnit
    } else {
        SizeFault::NotSize
    }
}

/// The size that a word writes: digits, perhaps a point and one to six digits, perhaps a unit; or digits and `p`, in pages.
pub fn read_size(word: &str) -> Result<Size, SizeFault>
    ensures { result ≡ size_of word.now }
{
    match size_by_form(word) {
        Err(SizeFault::NotSize) => Err(hint_of(word)),
        size => size,
    }
}

/// The limit that a word writes: `max`, or a size.
pub fn read_limit(word: &str) -> Result<Limit, SizeFault>
    ensures { result ≡ limit_of word.now }
{
    if word == "max" {
        return Ok(Limit::Max);
    }
    match read_size(word) {
        Ok(size) => Ok(Limit::Size(size)),
        Err(fault) => Err(fault),
    }
}

impl Size {
    /// How many pages of so many bytes it has whole.
    pub fn pages_down(self, page: u64) -> u64
        requires { 0 < page }
        ensures { result ≡ pages_down self page }
    {
        match self {
            Size::Pages(pages) => u64::from(pages),
            Size::Bytes { whole, .. } => whole / page,
        }
    }

    /// How many pages of so many bytes have all of it.
    pub fn pages_up(self, page: u64) -> u64
        requires { 1 < page }
        ensures { result ≡ pages_up self page }
    {
        match self {
            Size::Pages(pages) => u64::from(pages),
            Size::Bytes { whole, millionths } => {
                if millionths == 0 {
                    whole.div_ceil(page)
                } else {
                    whole / page + 1
                }
            }
        }
    }

    /// Whether it is a number of pages of so many bytes.
    pub fn is_whole(self, page: u64) -> bool
        requires { 0 < page }
        ensures { result ≡ is_whole self page }
    {
        match self {
            Size::Pages(_) => true,
            Size::Bytes { whole, millionths } => millionths == 0 && whole % page == 0,
        }
    }
}

/// A law: rounded down, pages are the most that are within a size; rounded up, they are the least that have all of it.
pub fn pages_are_the_nearest()
    ensures down { (s : Size) (page : ℕ) → 0 < page → IsProper s → IsFloor s page (pages_down s page) }
    ensures up { (s : Size) (page : ℕ) → 0 < page → IsProper s → IsCeiling s page (pages_up s page) }
{}
