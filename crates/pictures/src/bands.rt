//! Bands of a heat map: the darker, the more is used.

use crate::ends::RIGHT;
use crate::markup::add_length;
use drafts::Draft;

/// How high a band is.
pub const BAND: u64 = 140;

/// How many degrees of darkness there are.
const DEGREES: u64 = 20;

/// How dark a charge is: 0 if it is nothing, and else at least 1.
pub fn degree(current: u64, whole: u64) -> u64 {
    let parts = current.saturating_mul(DEGREES);
    let whole = whole.max(1);
    let degree = parts.checked_div(whole).unwrap_or(0);
    let rest = parts.checked_rem(whole).unwrap_or(0);
    if rest > 0 {
        degree.saturating_add(1).min(DEGREES)
    } else {
        degree.min(DEGREES)
    }
}

/// Draws a part of the band at this height, from one place to another.
pub fn draw_part(out: &mut Draft, band: u64, from: u64, to: u64, degree: u64) {
    if degree == 0 || to <= from {
        return;
    }
    out.text("<rect");
    add_length(out, "x", from);
    add_length(out, "y", band.saturating_add(10));
    add_length(out, "width", to.saturating_sub(from));
    add_length(out, "height", BAND.saturating_sub(20));
    let percent = degree.saturating_mul(5);
    let (whole, rest) = (percent / 100, percent % 100);
    writeln!(out, " fill-opacity=\"{whole}.{rest:02}\"/>");
}

/// Draws what the degrees of darkness mean, at this height.
pub fn draw_key(out: &mut Draft, y: u64) {
    for part in 0..4u64 {
        let from = RIGHT
            .saturating_add(60)
            .saturating_add(part.saturating_mul(460));
        let degree: u64 = match part {
            0 => 1,
            1 => 5,
            2 => 10,
            _ => 20,
        };
        draw_part(out, y, from, from.saturating_add(140), degree);
        out.text("<text");
        add_length(out, "x", from.saturating_add(180));
        add_length(out, "y", y.saturating_add(BAND / 2));
        out.text(" dy=\"4\" fill=\"#333\">");
        out.number(degree.saturating_mul(5));
        out.text("%</text>\n");
    }
}
