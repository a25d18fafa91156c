//! The picture of a run.

use crate::axis::Axis;
use crate::curves::{Columns, MOST_CURVES, height_of};
use crate::moments::{deaths_of, phases_of};
use crate::sheet::Sheet;
use crate::usage::draw_machine;
use charts::Watched;
use drafts::Draft;
use pictures::{BAND, LEFT, Moments, WIDTH, add_first_part, add_length, add_pixels};
use std::alloc::{AllocError, Global};

/// How high the curves are.
const CURVES: u64 = 3000;

/// How high the smaller picture is.
const MACHINE: u64 = 1300;

/// The place of the first phase, below the title.
const TOP: u64 = 400;

/// How many characters of the title are shown.
const MOST_CHARACTERS: usize = 90;

/// The places of the parts of the picture.
#[derive(Clone, Copy)]
struct Layout {
    /// The place of the first cross.
    crosses: u64,
    groups: Sheet,
    machine: Sheet,
    /// The place of the last line.
    foot: u64,
    are_bands: bool,
    has_phases: bool,
}

fn layout_of(
    alloc: Global,
    groups: usize,
    watched: &Watched<'_>,
    phases: &Moments,
    deaths: &Moments,
) -> Layout {
    let are_bands = groups > MOST_CURVES;
    let height = if are_bands {
        (groups as u64).saturating_mul(BAND)
    } else {
        CURVES
    };
    let key = if are_bands { BAND } else { 0 };
    let crosses = TOP.saturating_add(phases.height());
    let top = crosses
        .saturating_add(deaths.height())
        .saturating_add(80)
        .saturating_add(key);
    let bottom = top.saturating_add(height);
    let below = bottom.saturating_add(450);
    let end = below.saturating_add(MACHINE);
    let groups = Sheet {
        alloc,
        top,
        bottom,
        most: height_of(watched.rows.as_slice(), groups),
        page_size: watched.sizes.page_size,
    };
    let machine = Sheet {
        top: below,
        bottom: end,
        most: u64::from(watched.sizes.frames.max(watched.sizes.swap)),
        ..groups
    };
    Layout {
        crosses,
        groups,
        machine,
        foot: end.saturating_add(420),
        are_bands,
        has_phases: phases.height() > 0,
    }
}

/// Adds the title, which is cut if it is long.
fn add_title(out: &mut Draft, title: &str) {
    out.text("<text");
    add_length(out, "x", LEFT);
    out.text(" y=\"24\" font-size=\"15\">memory.current: ");
    let _shown = add_first_part(out, title, MOST_CHARACTERS);
    out.text("</text>\n");
}

/// Adds the beginning: the size of the picture, and its title.
fn add_first_lines(out: &mut Draft, title: &str, layout: Layout) {
    let height = layout.foot.saturating_add(150);
    out.text("<svg xmlns=\"http://www.w3.org/2000/svg\" viewBox=\"0 0 ");
    add_pixels(out, WIDTH);
    out.text(" ");
    add_pixels(out, height);
    out.text("\" font-family=\"sans-serif\" font-size=\"11\">\n<rect");
    add_length(out, "width", WIDTH);
    add_length(out, "height", height);
    out.text(" fill=\"#fff\"/>\n");
    add_title(out, title);
}

/// Adds the last lines, which say what is drawn.
fn add_last_lines(out: &mut Draft, layout: Layout) {
    out.text("<g fill=\"#555\"><text");
    add_length(out, "x", LEFT);
    add_length(out, "y", layout.foot.saturating_sub(80));
    out.text(">Numbers at the bottom: the line of the script.");
    if layout.has_phases {
        out.text(" All phases are equally wide.");
    }
    out.text("</text>\n<text");
    add_length(out, "x", LEFT);
    add_length(out, "y", layout.foot.saturating_add(80));
    out.text(">");
    out.text(if layout.are_bands {
        "Darkness: how much of its memory.max a group uses, or of the machine if it has no max."
    } else {
        "Thin dashes: memory.max. Dots: memory.min. Dashes and dots: memory.low."
    });
    out.text(" Cross: tasks were killed. Triangle: charges were refused at a max.</text></g>\n");
    out.text("</svg>\n");
}

/// The picture of what was watched, as a page-wide SVG. It shows `memory.current` of each group over the lines of the
/// script. Up to eight groups are curves, with `memory.max`, `memory.min` and `memory.low` in thin dashes and dots of
/// the same colour. More groups are a heat map. A smaller picture below shows the frames and swap blocks of the machine.
///
/// A line with a name begins each phase. All phases are equally wide, and so are the lines before the first of them. A
/// cross is drawn for each task that was killed, with the task and its group, and a triangle if charges were refused at
/// a max. Each has a title.
///
/// `lines` has for each step the number of its line, and `phases` for each line of the script the name of its phase. A
/// setting of more than twice the most that any group was charged with is not drawn.
pub fn picture(
    alloc: Global,
    title: &str,
    lines: &[usize],
    phases: &[&[u8]],
    paths: &[&str],
    watched: &Watched<'_>,
) -> Result<String, AllocError> {
    let axis = Axis::new(alloc, lines, phases)?;
    let rows = watched.rows.as_slice();
    let places = axis.rows(alloc, rows)?;
    let columns = Columns {
        rows,
        places: places.as_slice(),
    };
    let begun = phases_of(alloc, &axis)?;
    let deaths = deaths_of(alloc, &axis, watched.kills.as_slice())?;
    let ticks = axis.ticks(alloc)?;
    let layout = layout_of(alloc, paths.len(), watched, &begun, &deaths);
    let mut out = Draft::new(alloc);
    add_first_lines(&mut out, title, layout);
    if layout.are_bands {
        let memory = u64::from(watched.sizes.frames);
        columns.draw_bands(&mut out, layout.groups, &ticks, paths, memory);
    } else {
        columns.draw_curves(&mut out, layout.groups, &ticks, paths)?;
    }
    draw_machine(&mut out, layout.machine, &ticks, columns, watched.sizes)?;
    begun.draw(&mut out, TOP, layout.machine.bottom);
    deaths.draw(&mut out, layout.crosses, layout.machine.bottom);
    add_last_lines(&mut out, layout);
    out.finish()
}
