//! The phases of a script. A comment `# mark NAME` begins one.

ghost use Rattle.std.specs.Prelude.{◌≡◌, map, IfOk};
ghost use Rattle.charts.specs.Phased.{phase_after, phases_in};

use scripts::lines::first_line;
use std::alloc::{AllocError, Global};

/// A line that begins with this begins a phase. The rest of the line is its name.
const MARK: &[u8] = b"# mark ";

/// The phase of a line, if the line before it is of this phase.
fn phase_after<'s>(phase: &'s [u8], line: &'s [u8]) -> &'s [u8]
    ensures { result.now ≡ phase_after phase.now line.now }
{
    match line.strip_prefix(MARK) {
        Some(name) => name,
        None => phase,
    }
}

/// For each line of the script, the name of its phase: that of the last line `# mark NAME` at or before it. The lines
/// before the first have no name.
pub fn phases(alloc: Global, script: &[u8]) -> Result<Vec<&[u8]>, AllocError>
    ensures { IfOk result (λ phases. map (λ p. p.now) phases.items ≡ phases_in script.now) }
{
    let mut phases = Vec::new(alloc);
    let mut phase: &[u8] = b"";
    let mut rest = script;
    while !rest.is_empty() {
        let (line, after) = first_line(rest);
        phase = phase_after(phase, line);
        phases.push(phase)?;
        rest = after;
    }
    Ok(phases)
}
