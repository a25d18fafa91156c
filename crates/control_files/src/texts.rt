//! The texts of control files.

ghost use Rattle.std.specs.Prelude.{◌≡◌, IfOk};
ghost use Rattle.machine.specs.Control.{text_of, bytes_text, line, key_line, events_text, stat_text};
ghost use Rattle.std.specs.String.{string_bytes};

use machine::amount::Amount;
use machine::page_size::PageSize;
use machine::record::{EventCounts, MemoryStat, OomGroup};
use machine::reply::Shown;
use std::alloc::{AllocError, Global};

/// This number of pages of this size, as a line in bytes.
fn pages_line(alloc: Global, page_size: PageSize, pages: u64) -> Result<String, AllocError>
    ensures { IfOk result (λ s. string_bytes s ≡ line (bytes_text page_size.bytes pages)) }
{
    let bytes = page_size.bytes_of(pages);
    format!(in alloc; "{bytes}\n")
}

/// The line of a key or a type: its name, and its count or its number of bytes.
fn key_line(alloc: Global, name: &str, count: u128) -> Result<String, AllocError>
    ensures { IfOk result (λ s. string_bytes s ≡ key_line name.now count) }
{
    format!(in alloc; "{name} {count}\n")
}

/// How often each of the six keys was counted, one line per key.
fn events_lines(alloc: Global, counts: EventCounts) -> Result<String, AllocError>
    ensures { IfOk result (λ s. string_bytes s ≡ events_text counts) }
{
    let mut lines = key_line(alloc, "low", u128::from(counts.low))?;
    lines.push_str(key_line(alloc, "high", u128::from(counts.high))?.as_str())?;
    lines.push_str(key_line(alloc, "max", u128::from(counts.max))?.as_str())?;
    lines.push_str(key_line(alloc, "oom", u128::from(counts.oom))?.as_str())?;
    lines.push_str(key_line(alloc, "oom_kill", u128::from(counts.oom_kill))?.as_str())?;
    lines.push_str(key_line(alloc, "oom_group_kill", u128::from(counts.oom_group_kill))?.as_str())?;
    Ok(lines)
}

/// The memory of each of the two types, one line per type.
fn stat_lines(alloc: Global, page_size: PageSize, stat: MemoryStat) -> Result<String, AllocError>
    ensures { IfOk result (λ s. string_bytes s ≡ stat_text page_size.bytes stat) }
{
    let mut lines = key_line(alloc, "anon", page_size.bytes_of(stat.anon))?;
    lines.push_str(key_line(alloc, "file", page_size.bytes_of(stat.file))?.as_str())?;
    Ok(lines)
}

/// The text of a control file with these numbers: pages of this size in bytes, a flag, events by key, and pages by type.
/// `AllocError` if memory is refused.
pub fn show_text(alloc: Global, page_size: PageSize, numbers: Shown) -> Result<String, AllocError>
    ensures { IfOk result (λ s. string_bytes s ≡ text_of page_size.bytes numbers) }
{
    match numbers {
        Shown::Pages(pages) | Shown::Amount(Amount::Pages(pages)) => pages_line(
            alloc, page_size, pages,
        ),
        Shown::Amount(Amount::Max) => String::from_str(alloc, "max\n"),
        Shown::Flag(OomGroup::Single) => String::from_str(alloc, "0\n"),
        Shown::Flag(OomGroup::Whole) => String::from_str(alloc, "1\n"),
        Shown::Events(counts) => events_lines(alloc, counts),
        Shown::Stat(stat) => stat_lines(alloc, page_size, stat),
    }
}
