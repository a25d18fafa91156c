//! Numbers in decimal.

ghost use Rattle.std.specs.Prelude.{◌≡◌, ◌^◌, ◌==◌, slice_index};
ghost use Rattle.std.specs.List.{list_all};
ghost use Rattle.std.specs.Char.{is_ascii_digit};
ghost use Rattle.machine.specs.Numbers.{is_numeral, number_below};

fn all_digits(word: &str) -> bool
    ensures { result ≡ list_all is_ascii_digit word.now }
{
    word.bytes().all(|byte| byte.is_ascii_digit())
}

/// Whether a word has at least one character, and only decimal digits.
pub fn is_digits(word: &str) -> bool
    ensures { result ≡ is_numeral word.now }
{
    !word.is_empty() && all_digits(word)
}

/// A sign is not a digit. `parse` accepts this one before an unsigned number.
fn begins_with_plus(word: &str) -> bool
    ensures { result ≡ (slice_index word.now 0 == 43) }
{
    word.as_bytes().first() == Some(&b'+')
}

/// The number that a word of digits writes, if it is below 2^32. Leading zeros are allowed.
pub fn number_of(word: &str) -> Option<u32>
    ensures { result ≡ number_below (2 ^ 32) word.now }
{
    if begins_with_plus(word) {
        return None;
    }
    word.parse::<u32>().ok()
}

/// The number that a word of digits writes, if it is below 2^64. Leading zeros are allowed.
pub fn long_number_of(word: &str) -> Option<u64>
    ensures { result ≡ number_below (2 ^ 64) word.now }
{
    if begins_with_plus(word) {
        return None;
    }
    word.parse::<u64>().ok()
}
