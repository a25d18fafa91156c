//! Marks where charges of a group were refused at its max.

use crate::curves::Columns;
use crate::look::look_of;
use book::GroupLook;
use drafts::Draft;
use pictures::{add_attribute, add_point};

/// How many charges were refused at one place.
#[derive(Clone, Copy)]
struct Refusal {
    /// How far across it is, and the number of its first line.
    across: u64,
    line: u64,
    count: u64,
}

/// The triangles of a group.
#[derive(Clone, Copy)]
pub struct Triangles {
    /// Where they end.
    pub bottom: u64,
    /// How high they are, and half of their width, in pixels.
    pub high: u64,
    pub half: u64,
    pub colour: &'static str,
}

impl Refusal {
    /// Draws a triangle.
    fn draw(self, out: &mut Draft, path: &str, form: Triangles) {
        let (high, half) = (form.high, form.half);
        let above = form.bottom.saturating_sub(high.saturating_mul(10));
        out.text("<path d=\"");
        add_point(out, "M", self.across, above);
        write!(out, "l-{half} {high}");
        out.text("h");
        out.number(half.saturating_mul(2));
        out.text("z\"");
        add_attribute(out, "fill", form.colour);
        out.text("><title>line ");
        out.number(self.line);
        out.text(": ");
        if self.count == 1 {
            out.text("a charge of ");
            out.text(path);
            out.text(" was refused");
        } else {
            out.number(self.count);
            out.text(" charges of ");
            out.text(path);
            out.text(" were refused");
        }
        out.text(" at its memory.max</title></path>\n");
    }
}

/// How many charges were refused at a group since it was looked at before.
fn refused_since(now: GroupLook, then: Option<GroupLook>) -> u64 {
    let before = match then {
        Some(then) if then.number == now.number => then.local.max,
        _ => 0,
    };
    now.local.max.saturating_sub(before)
}

/// Draws a mark at each place where charges of the group at this place were refused. Those at one place are one.
pub fn draw_refusals(
    out: &mut Draft,
    columns: Columns<'_>,
    group: usize,
    path: &str,
    form: Triangles,
) {
    let mut known: Option<GroupLook> = None;
    let mut mark: Option<Refusal> = None;
    for (row, place) in columns.rows.iter().zip(columns.places.iter()) {
        let Some(now) = look_of(row, group) else {
            continue;
        };
        let refused = refused_since(now, known);
        known = Some(now);
        if refused > 0 {
            let fresh = Refusal {
                across: place.across,
                line: place.line,
                count: refused,
            };
            mark = match mark {
                Some(last) if last.across == fresh.across => Some(Refusal {
                    count: last.count.saturating_add(refused),
                    ..last
                }),
                Some(last) => {
                    last.draw(out, path, form);
                    Some(fresh)
                }
                None => Some(fresh),
            };
        }
    }
    if let Some(last) = mark {
        last.draw(out, path, form);
    }
}
