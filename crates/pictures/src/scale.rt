//! Scales, and the numbers along them.

use machine::page_size::PageSize;
use std::alloc::{AllocError, Global};
use std::fmt;
use std::fmt::{Formatter, Write};

/// The places of values on a line: the least at 0, and the greatest at its end.
#[derive(Clone, Copy)]
pub struct Scale {
    pub least: u64,
    pub greatest: u64,
    /// The length of the line.
    pub length: u64,
}

impl Scale {
    /// The place of the value. A value beyond an end is at that end.
    pub fn place(self, value: u64) -> u64 {
        let above = value.saturating_sub(self.least);
        let whole = self.greatest.saturating_sub(self.least).max(1);
        let place = u128::from(above.min(whole)).saturating_mul(u128::from(self.length));
        u64::try_from(place.checked_div(u128::from(whole)).unwrap_or(0)).unwrap_or(self.length)
    }
}

/// The most marks along a line.
const MOST_MARKS: u64 = 8;

/// The distance between round numbers of lines. At most eight of them are below this one.
fn decimal_step(greatest: u64) -> u64 {
    let mut step = 1u64;
    for turn in 0..60u32 {
        if greatest.checked_div(step).unwrap_or(0) <= MOST_MARKS {
            break;
        }
        // 1, 2, 5, 10, 20, 50, and so on.
        step = if turn % 3 == 1 {
            step.saturating_mul(5).checked_div(2).unwrap_or(step)
        } else {
            step.saturating_mul(2)
        };
    }
    step
}

/// The same for numbers of pages: the powers of two.
fn binary_step(greatest: u64) -> u64 {
    let mut step = 1u64;
    for _turn in 0..60u32 {
        if greatest.checked_div(step).unwrap_or(0) <= MOST_MARKS {
            break;
        }
        step = step.saturating_mul(2);
    }
    step
}

fn marks(alloc: Global, scale: Scale, step: u64) -> Result<Vec<u64>, AllocError> {
    let mut marks = Vec::new(alloc);
    let mut at = 0u64;
    for _mark in 0..=MOST_MARKS {
        if at >= scale.least && at <= scale.greatest {
            marks.push(at)?;
        }
        at = at.saturating_add(step);
    }
    Ok(marks)
}

/// Round numbers of lines along a scale.
pub fn line_marks(alloc: Global, scale: Scale) -> Result<Vec<u64>, AllocError> {
    marks(alloc, scale, decimal_step(scale.greatest))
}

/// Round numbers of pages along a scale.
pub fn page_marks(alloc: Global, scale: Scale) -> Result<Vec<u64>, AllocError> {
    marks(alloc, scale, binary_step(scale.greatest))
}

/// A number of pages of this size, as people write bytes: in the greatest of the units G, M and K that leaves no
/// remainder.
#[derive(Clone, Copy)]
pub struct Size {
    pub pages: u64,
    pub page_size: PageSize,
}

impl fmt::Display for Size {
    fn fmt<W: Write>(&self, f: &mut Formatter<W>) -> fmt::Result {
        let bytes = self.page_size.bytes_of(self.pages);
        for (unit, name) in [(1u128 << 30, 'G'), (1u128 << 20, 'M'), (1u128 << 10, 'K')] {
            if bytes >= unit && bytes % unit == 0 {
                return write!(f, "{}{name}", bytes / unit);
            }
        }
        write!(f, "{bytes}")
    }
}
