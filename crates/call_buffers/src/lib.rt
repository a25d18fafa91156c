//! What the calls of `embedding` and `embedded_exploration` have in common. Each fills two buffers of the caller, one with
//! its answers and one with its messages. It returns a number of [`status`].
#![tactic(auto)]

mod said;
pub mod status;

ghost use Rattle.std.specs.Prelude.{◌≡◌, ◌<◌, ◌≤◌, true, false, [], length};
ghost use Rattle.machine.specs.declared.limit.TheConstants.{SCRIPT_BYTES};
ghost use Rattle.call_buffers.specs.Buffers.{Got, Gives};
ghost use Rattle.call_buffers.specs.Calls.{placement_of};

use machine::config::Placement;
pub use said::{Said, tell, tell_named};
use script_faults::SCRIPT_BYTES;

/// How many bytes each text has. A buffer may have taken only the first of them.
#[repr(C)]
#[derive(Clone, Copy)]
pub struct Lengths {
    pub out: usize,
    pub err: usize,
}

/// The placement for an option `as_linux`.
pub fn placement_of(as_linux: bool) -> Placement
    ensures { result ≡ placement_of as_linux }
{
    if as_linux {
        Placement::Linux
    } else {
        Placement::Own
    }
}

/// Whether the script has more bytes than a script may have.
pub fn is_too_long(script: &[u8]) -> bool
    ensures long { result ≡ true → SCRIPT_BYTES < length script.now }
    ensures short { result ≡ false → length script.now ≤ SCRIPT_BYTES }
{
    script.len() as u64 > SCRIPT_BYTES
}

/// Copies the bytes for which there is room.
fn fill(buffer: &mut [u8], bytes: &[u8])
    ensures got { Got buffer.old buffer.new bytes.now }
    ensures nothing { bytes.now ≡ [] → buffer.new ≡ buffer.old }
{
    let count = buffer.len().min(bytes.len());
    let (front, _) = buffer.split_at_mut(count);
    let (taken, _) = bytes.split_at(count);
    front.copy_from_slice(taken);
}

/// Copies both texts, and returns their lengths.
pub fn give(answers: &[u8], told: &[u8], out: &mut [u8], err: &mut [u8]) -> Lengths
    ensures out { Gives out.old out.new result.out answers.now }
    ensures nothing { answers.now ≡ [] → (result.out ≡ 0) × (out.new ≡ out.old) }
    ensures err { Gives err.old err.new result.err told.now }
    ensures silent { told.now ≡ [] → (result.err ≡ 0) × (err.new ≡ err.old) }
{
    fill(out, answers);
    fill(err, told);
    Lengths {
        out: answers.len(),
        err: told.len(),
    }
}
