//! A walk over the lines of a script, together with the answers.

ghost use Rattle.std.specs.Prelude.{◌≡◌, ℕ, ◌+◌, List, [], ◌∷◌, ◌++◌, ◌↔◌, ◌==◌, not, find, position, MatchOption, MatchResult, IsOk, IfErr};
ghost use Rattle.machine.specs.Control.{line};
ghost use Rattle.scripts.specs.Words.{is_blank};
ghost use Rattle.expectations.specs.Expected.{first_text, is_skipped, looks_expected, Expectation, IsLeft, IsNext, MeetsNext};
ghost use Rattle.expectations.specs.Steps.{IsMet, Passes, Stops};

use crate::difference::Difference;

/// A line that begins with this says what is expected.
const MARK: &[u8] = b"#> ";

fn is_blank(byte: u8) -> bool
    ensures { result ≡ is_blank byte }
{
    byte == b' ' || byte == b'\t'
}

/// The first byte of the line's first word, if it has one.
fn first_byte(line: &[u8]) -> Option<u8>
    ensures { result ≡ find (λ b. not (is_blank b)) line.now }
{
    line.iter().copied().find(|byte| !is_blank(*byte))
}

/// Whether the line asks for nothing.
fn is_skipped(line: &[u8]) -> bool
    ensures { result ≡ is_skipped line.now }
{
    match first_byte(line) {
        Some(byte) => byte == b'#',
        None => true,
    }
}

/// The place of the first byte of the line's first word, if it has one.
fn first_place(line: &[u8]) -> Option<usize>
    ensures { result ≡ position (λ b. not (is_blank b)) line.now }
{
    line.iter().position(|byte| !is_blank(*byte))
}

/// Whether the line is a comment that looks as if it expected a text, as `#>0`, and expects none.
pub fn looks_expected(line: &[u8]) -> bool
    ensures { result ≡ looks_expected line.now }
{
    match first_place(line) {
        Some(at) => !line.starts_with(MARK) && line[at..].starts_with(b"#>"),
        None => false,
    }
}

/// What follows this front, if the output begins with it.
fn behind<'a>(output: &'a [u8], front: &[u8]) -> Option<&'a [u8]>
    ensures { MatchOption result ((rest : List ℕ) → output.now ≡ front.now ++ rest → ⊥) (λ rest. output.now ≡ front.now ++ rest.now) }
{
    output.strip_prefix(front)
}

/// What follows this line, if the output begins with it.
fn behind_line<'a>(output: &'a [u8], text: &[u8]) -> Option<&'a [u8]>
    ensures { MatchOption result ((rest : List ℕ) → output.now ≡ line text.now ++ rest → ⊥) (λ rest. output.now ≡ line text.now ++ rest.now) }
{
    match behind(output, text) {
        Some(rest) => behind(rest, b"\n"),
        None => None,
    }
}

fn line_end(output: &[u8]) -> Option<usize>
    ensures { result ≡ position (λ b. b == 10) output.now }
{
    output.iter().position(|byte| *byte == b'\n')
}

/// The text of the first line.
fn first_text(output: &[u8]) -> &[u8]
    ensures { result.now ≡ first_text output.now }
{
    match line_end(output) {
        Some(at) => &output[..at],
        None => output,
    }
}

/// The answers that are left after a walk over lines of a script.
#[derive(Clone, Copy)]
pub struct Walk<'a, 'n> {
    /// The last expected line after which a line asked for something, or 0.
    after: usize,
    /// The last expected line, or 0.
    last: usize,
    /// The output that no line has expected yet.
    output: &'a [u8],
    /// The numbers of the lines that caused it.
    numbers: &'n [usize],
}

impl<'a, 'n> Walk<'a, 'n> {
    pub fn new(output: &'a [u8], numbers: &'n [usize]) -> Walk<'a, 'n>
        ensures after { result.after ≡ 0 }
        ensures last { result.last ≡ 0 }
        ensures output { result.output.now ≡ output.now }
        ensures numbers { result.numbers.now ≡ numbers.now }
    {
        Walk {
            after: 0,
            last: 0,
            output,
            numbers,
        }
    }

    /// Walks over the line of this number.
    pub fn pass(self, number: usize, line: &'a [u8]) -> Result<Walk<'a, 'n>, Difference<'a>>
        ensures { MatchResult result
            (λ w. Passes number self.entry.after self.entry.last line.now self.entry.output.now self.entry.numbers.now w.after w.last w.output.now w.numbers.now)
            (Stops number self.entry.after self.entry.last line.now self.entry.output.now self.entry.numbers.now) }
    {
        if let Some(text) = line.strip_prefix(MARK) {
            return self.meet(number, text);
        }
        if is_skipped(line) {
            return Ok(self);
        }
        Ok(Walk {
            after: self.last,
            ..self
        })
    }

    /// The line of this number expects a text.
    fn meet(self, number: usize, wanted: &'a [u8]) -> Result<Walk<'a, 'n>, Difference<'a>>
        ensures { let expected : Expectation = record { text = wanted.now; after = self.entry.after; before = number } in MatchResult result
            (λ w. (w.after ≡ self.entry.after) × (w.last ≡ number) × MeetsNext expected self.entry.output.now self.entry.numbers.now w.output.now w.numbers.now)
            (λ told. ((output numbers : List ℕ) → MeetsNext expected self.entry.output.now self.entry.numbers.now output numbers → ⊥)
            × IsNext expected self.entry.output.now self.entry.numbers.now told) }
    {
        let Some((answered, numbers)) = self.numbers.split_first() else {
            return Err(Difference::Nothing {
                line: number,
                wanted,
            });
        };
        let got = first_text(self.output);
        if *answered <= self.after {
            return Err(Difference::Unexpected {
                line: *answered,
                got,
            });
        }
        if *answered >= number {
            return Err(Difference::Nothing {
                line: number,
                wanted,
            });
        }
        let Some(output) = behind_line(self.output, wanted) else {
            return Err(Difference::Other {
                line: number,
                from: *answered,
                wanted,
                got,
            });
        };
        Ok(Walk {
            last: number,
            output,
            numbers,
            ..self
        })
    }

    /// After the last line, all answers must have been expected.
    pub fn end(self) -> Result<(), Difference<'a>>
        ensures met { (number : ℕ) → IsOk result ↔ IsMet number self.entry.after self.entry.last [] self.entry.output.now self.entry.numbers.now }
        ensures told { IfErr result (IsLeft self.entry.output.now self.entry.numbers.now) }
    {
        match self.numbers.first() {
            None if self.output.is_empty() => Ok(()),
            answered => Err(Difference::Unexpected {
                line: answered.copied().unwrap_or(0),
                got: first_text(self.output),
            }),
        }
    }
}
