//! The flag of a group, as written to its control file.

ghost use Rattle.std.specs.Prelude.{◌≡◌, ◌==◌};
ghost use Rattle.std.specs.List.{list_all};
ghost use Rattle.machine.specs.Control.{flag_of, flag_in_digits, without_base, negated, flag_spelled, flag_written};

use machine::config::Placement;
use machine::record::OomGroup;

/// The flag of one digit, or `None` for any other text.
fn flag_of(text: &[u8]) -> Option<OomGroup>
    ensures { result ≡ flag_of text.now }
{
    match text {
        b"0" => Some(OomGroup::Single),
        b"1" => Some(OomGroup::Whole),
        _ => None,
    }
}

/// Whether a text is empty or consists of zeros.
fn is_zeros(digits: &[u8]) -> bool
    ensures { result ≡ list_all (λ c. c == 48) digits.now }
{
    digits.iter().all(|digit| *digit == b'0')
}

/// The flag of a number without a sign and without the mark of its base.
fn flag_in_digits(digits: &[u8]) -> Option<OomGroup>
    ensures { result ≡ flag_in_digits digits.now }
{
    let last = digits.len().saturating_sub(1);
    if is_zeros(&digits[..last]) {
        flag_of(&digits[last..])
    } else {
        None
    }
}

/// The number after the mark of base 16, or the text itself if it has no such mark.
fn without_base(text: &[u8]) -> &[u8]
    ensures { result.now ≡ without_base text.now }
{
    if text.starts_with(b"0x") || text.starts_with(b"0X") {
        &text[2..]
    } else {
        text
    }
}

/// The flag of a negative number: only zero has one.
fn negated(flag: Option<OomGroup>) -> Option<OomGroup>
    ensures { result ≡ negated flag }
{
    flag.filter(|flag| *flag == OomGroup::Single)
}

/// The flag that Linux reads from a text: a number that is 0 or 1, in base 16 or not, with at most one sign in front.
fn flag_spelled(text: &[u8]) -> Option<OomGroup>
    ensures { result ≡ flag_spelled text.now }
{
    match text {
        [b'-', number @ ..] => negated(flag_in_digits(without_base(number))),
        [b'+', number @ ..] => flag_in_digits(without_base(number)),
        number => flag_in_digits(without_base(number)),
    }
}

/// The flag that a text writes. By our own placement that is `0` or `1`. By Linux's it is any spelling of these numbers
/// that the kernel reads, as `01`, `0x1` and `-0`. `None` for any other text (kernel: memory_oom_group_write, kstrtoint).
pub fn parse_flag(placement: Placement, text: &str) -> Option<OomGroup>
    ensures { result ≡ flag_written placement text.now }
{
    match placement {
        Placement::Own => flag_of(text.as_bytes()),
        Placement::Linux => flag_spelled(text.as_bytes()),
    }
}
