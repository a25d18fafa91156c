//! What a script expects of its run, in lines of its own, and the first place where the answers are something else.
//!
//! A line `#> TEXT` is a comment of the script, and says that TEXT is the next line of output. It belongs to the lines
//! between it and the expected lines before.
#![tactic(auto)]

mod difference;
mod walk;

ghost use Rattle.std.specs.Prelude.{◌↔◌, IsOk, IfErr};
ghost use Rattle.expectations.specs.Expected.{expectations_of, IsFirstOf, Meets};

pub use difference::{Difference, Text};
use scripts::lines::first_line;
use walk::Walk;
pub use walk::looks_expected;

/// Compares the output of a run of the script with what the script expects. `numbers` has, for each line of the output,
/// the number of the script's line that caused it. The error is the first difference.
pub fn compare<'a>(
    script: &'a [u8],
    output: &'a [u8],
    numbers: &[usize],
) -> Result<(), Difference<'a>>
    ensures met { IsOk result ↔ Meets script.now output.now numbers.now }
    ensures told { IfErr result (IsFirstOf (expectations_of script.now) output.now numbers.now) }
{
    let mut walk = Walk::new(output, numbers);
    let mut rest = script;
    let mut number = 0;
    while !rest.is_empty() {
        let (line, behind) = first_line(rest);
        number += 1;
        walk = walk.pass(number, line)?;
        rest = behind;
    }
    walk.end()
}
