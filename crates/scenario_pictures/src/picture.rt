//! The picture of a run.

use crate::bands::draw_bands;
use crate::curves::{MOST_CURVES, draw_curves, height_of};
use crate::moments::{deaths_of, phases_of};
use crate::rows::Chosen;
use crate::sheet::{Across, Sheet};
use crate::story::Story;
use crate::usage::draw_frames;
use drafts::Draft;
use pictures::{BAND, LEFT, Moments, WIDTH, add_first_part, add_length, add_pixels};
use scenario_words::header::Header;
use std::alloc::{AllocError, Global};

/// How high the curves are.
const CURVES: u64 = 3000;

/// How high the smaller picture is.
const FRAMES: u64 = 1300;

/// The place of the first phase, below the title.
const TOP: u64 = 400;

/// How many characters of the title are shown.
const MOST_CHARACTERS: usize = 90;

/// The places of the parts of the picture.
#[derive(Clone, Copy)]
struct Layout {
    /// The place of the first cross.
    crosses: u64,
    groups: Sheet,
    frames: Sheet,
    /// The place of the last line.
    foot: u64,
    are_bands: bool,
}

fn layout_of(
    alloc: Global,
    header: &Header,
    groups: usize,
    story: &Story,
    phases: &Moments,
    deaths: &Moments,
) -> Layout {
    let across = Across::new(story.rows.len());
    let are_bands = groups > MOST_CURVES;
    let height = if are_bands {
        (groups as u64).saturating_mul(BAND)
    } else {
        CURVES
    };
    let key = if are_bands { BAND } else { 0 };
    let crosses = TOP.saturating_add(phases.height());
    let top = crosses
        .saturating_add(deaths.height())
        .saturating_add(80)
        .saturating_add(key);
    let bottom = top.saturating_add(height);
    let below = bottom.saturating_add(450);
    let end = below.saturating_add(FRAMES);
    let groups = Sheet {
        alloc,
        page: header.page,
        across,
        top,
        bottom,
        most: height_of(story, groups),
    };
    let frames = Sheet {
        top: below,
        bottom: end,
        most: u64::from(header.frames.max(header.swap)),
        ..groups
    };
    Layout {
        crosses,
        groups,
        frames,
        foot: end.saturating_add(420),
        are_bands,
    }
}

/// Adds the title, which is cut if it is long.
fn add_title(out: &mut Draft, title: &str) {
    out.text("<text");
    add_length(out, "x", LEFT);
    out.text(" y=\"24\" font-size=\"15\">memory.current: ");
    let _shown = add_first_part(out, title, MOST_CHARACTERS);
    out.text("</text>\n");
}

/// Adds the beginning: the size of the picture, and its title.
fn add_first_lines(out: &mut Draft, title: &str, layout: Layout) {
    let height = layout.foot.saturating_add(150);
    out.text("<svg xmlns=\"http://www.w3.org/2000/svg\" viewBox=\"0 0 ");
    add_pixels(out, WIDTH);
    out.text(" ");
    add_pixels(out, height);
    out.text("\" font-family=\"sans-serif\" font-size=\"11\">\n<rect");
    add_length(out, "width", WIDTH);
    add_length(out, "height", height);
    out.text(" fill=\"#fff\"/>\n");
    add_title(out, title);
}

/// Adds the last line, which says what is drawn.
fn add_last_lines(out: &mut Draft, layout: Layout) {
    out.text("<g fill=\"#555\"><text");
    add_length(out, "x", LEFT);
    add_length(out, "y", layout.foot.saturating_sub(80));
    out.text(">Numbers at the bottom: the line of the scenario, and its round.</text>\n<text");
    add_length(out, "x", LEFT);
    add_length(out, "y", layout.foot.saturating_add(80));
    out.text(">");
    out.text(if layout.are_bands {
        "Darkness: how much of its memory.max a group uses, or of the machine if it has no max."
    } else {
        "Dots: memory.max. A spike is the most during a line; after it, curves show what is left."
    });
    out.text(" Cross: tasks were killed.</text></g>\n</svg>\n");
}

/// The picture of a run over its rows, as SVG. Up to eight groups are curves, with dots for `memory.max`. More groups
/// are a heat map. A smaller picture below shows the frames and swap blocks of the machine. A line with a name begins
/// each phase. Each row in which tasks died has a cross with their names.
pub fn picture_of(
    alloc: Global,
    title: &str,
    header: &Header,
    groups: &[Chosen],
    story: &Story,
) -> Result<String, AllocError> {
    let across = Across::new(story.rows.len());
    let phases = phases_of(alloc, story, across)?;
    let deaths = deaths_of(alloc, story, across)?;
    let layout = layout_of(alloc, header, groups.len(), story, &phases, &deaths);
    let mut out = Draft::new(alloc);
    add_first_lines(&mut out, title, layout);
    if layout.are_bands {
        let memory = u64::from(header.frames);
        draw_bands(&mut out, layout.groups, story, groups, memory);
    } else {
        draw_curves(&mut out, layout.groups, story, groups)?;
    }
    draw_frames(&mut out, layout.frames, story, header)?;
    phases.draw(&mut out, TOP, layout.frames.bottom);
    deaths.draw(&mut out, layout.crosses, layout.frames.bottom);
    add_last_lines(&mut out, layout);
    out.finish()
}
