//! Moments: texts with signs, above the curves of a picture and through them.

use crate::ends::WIDTH;
use crate::labels::add_first_part;
use crate::markup::{add_attribute, add_length, add_pixels, add_point};
use drafts::Draft;
use std::alloc::{AllocError, Global};

/// How wide a character is, at most.
const CHARACTER: u64 = 66;

/// How high a lane is.
const LANE: u64 = 150;

/// How many characters of a text are shown, at most.
const MOST_CHARACTERS: usize = 44;

/// Texts are in lanes, so that none covers another.
#[derive(Drop)]
struct Lanes {
    /// The right end of the last text of each lane.
    ends: Vec<u64>,
    most: usize,
}

/// A text at a place.
#[derive(Drop)]
struct Moment {
    /// Its place, and where the text begins.
    across: u64,
    begin: u64,
    /// The lane of the text. `None` if no lane has room for it.
    lane: Option<usize>,
    /// What is beside its sign, as markup.
    text: Draft,
    /// All of it, as markup.
    title: Draft,
}

/// What is drawn at a moment, above the curves and through them.
#[derive(Clone, Copy)]
pub enum Sign {
    /// A dashed line.
    Line,
    /// A cross, with a thin line below it.
    Cross,
}

/// All moments of a kind, and the lanes of their texts.
#[derive(Drop)]
pub struct Moments {
    all: Vec<Moment>,
    lanes: Lanes,
    sign: Sign,
}

impl Sign {
    fn colour(self) -> &'static str {
        match self {
            Sign::Line => "#777",
            Sign::Cross => "#d62728",
        }
    }

    fn colour_of_text(self) -> &'static str {
        match self {
            Sign::Line => "#333",
            Sign::Cross => "#b01515",
        }
    }

    /// How far it begins above the base line of its text.
    fn height(self) -> u64 {
        match self {
            Sign::Line => 90,
            Sign::Cross => 40,
        }
    }

    /// Draws it at `across`, from `high` down to `low`.
    fn draw(self, out: &mut Draft, across: u64, high: u64, low: u64) {
        out.text("<path d=\"");
        add_point(out, "M", across, high);
        out.text("V");
        add_pixels(out, low);
        match self {
            Sign::Line => out.text("\" stroke-dasharray=\"4 3\"/></g>"),
            Sign::Cross => {
                out.text("\" opacity=\"0.35\"/><path d=\"");
                add_point(out, "M", across, high);
                out.text("m-4 -4l8 8m0 -8l-8 8\" stroke-width=\"2\"/></g>");
            }
        }
    }
}

impl Lanes {
    fn new(alloc: Global, most: usize) -> Lanes {
        Lanes {
            ends: Vec::new(alloc),
            most,
        }
    }

    /// A lane with room from one place to another.
    fn take(&mut self, begin: u64, end: u64) -> Result<Option<usize>, AllocError> {
        for (lane, last) in self.ends.iter_mut().enumerate() {
            if *last <= begin {
                *last = end;
                return Ok(Some(lane));
            }
        }
        let lane = self.ends.len();
        if lane < self.most {
            self.ends.push(end)?;
            return Ok(Some(lane));
        }
        Ok(None)
    }
}

impl Moments {
    /// There is none yet. Their texts will take so many lanes at most.
    pub fn new(alloc: Global, sign: Sign, most: usize) -> Moments {
        Moments {
            all: Vec::new(alloc),
            lanes: Lanes::new(alloc, most),
            sign,
        }
    }

    /// Adds a moment with this text at this place, and with this title, which is markup.
    pub fn add(
        &mut self,
        alloc: Global,
        across: u64,
        text: &str,
        title: Draft,
    ) -> Result<(), AllocError> {
        let mut part = Draft::new(alloc);
        let characters = add_first_part(&mut part, text, MOST_CHARACTERS);
        let width = (characters as u64).saturating_mul(CHARACTER);
        let begin = across.saturating_add(80).min(WIDTH.saturating_sub(width));
        let end = begin.saturating_add(width).saturating_add(80);
        let first = begin.min(across.saturating_sub(60));
        let lane = self.lanes.take(first, end)?;
        self.all.push(Moment {
            across,
            begin,
            lane,
            text: part,
            title,
        })?;
        Ok(())
    }

    /// How high their lanes are together.
    pub fn height(&self) -> u64 {
        (self.lanes.ends.len() as u64).saturating_mul(LANE)
    }

    /// The base line of the text of a moment, whose lanes begin at this height.
    fn down(&self, moment: &Moment, top: u64) -> u64 {
        let lane = match moment.lane {
            None => self.lanes.ends.len(),
            Some(lane) => lane.saturating_add(1),
        };
        top.saturating_add((lane as u64).saturating_mul(LANE))
            .saturating_sub(40)
    }

    /// Draws the text of a moment, if a lane has room for it.
    fn draw_text(&self, out: &mut Draft, moment: &Moment, down: u64) {
        if moment.lane.is_none() {
            return;
        }
        out.text("<text");
        add_length(out, "x", moment.begin);
        add_length(out, "y", down);
        add_attribute(out, "fill", self.sign.colour_of_text());
        out.text(">");
        out.add(&moment.text);
        out.text("</text>");
    }

    /// Draws the sign of a moment, with all of its text as a title, down to `low`.
    fn draw_sign(&self, out: &mut Draft, moment: &Moment, down: u64, low: u64) {
        out.text("<g");
        add_attribute(out, "stroke", self.sign.colour());
        out.text("><title>");
        out.add(&moment.title);
        out.text("</title>");
        let high = down.saturating_sub(self.sign.height());
        self.sign.draw(out, moment.across, high, low);
    }

    /// Draws each with its text in the lanes, which begin at `top`, and its sign down to `bottom`.
    pub fn draw(&self, out: &mut Draft, top: u64, bottom: u64) {
        for moment in self.all.iter() {
            let down = self.down(moment, top);
            self.draw_sign(out, moment, down, bottom);
            self.draw_text(out, moment, down);
            out.text("\n");
        }
    }
}
