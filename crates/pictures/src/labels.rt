//! Names of curves, at their right ends.

use crate::ends::RIGHT;
use crate::markup::{add_attribute, add_escaped, add_escaped_character, add_length, add_point};
use drafts::Draft;
use std::alloc::AllocError;

/// How far apart the names of two curves are, at least.
const APART: u64 = 140;

/// The name of a curve.
#[derive(Drop)]
pub struct Label {
    /// How low its right end is.
    pub end: u64,
    pub colour: &'static str,
    /// Its text, as markup.
    text: Draft,
    /// How low its name is.
    at: u64,
}

impl Label {
    /// A label of a curve that ends here. The text is markup.
    pub fn new(end: u64, colour: &'static str, text: Draft) -> Label {
        Label {
            end,
            colour,
            text,
            at: end,
        }
    }

    /// Draws it to the right of its curve, with a line from the end of the curve.
    fn draw(&self, out: &mut Draft) {
        out.text("<path d=\"");
        add_point(out, "M", RIGHT, self.end);
        add_point(out, "L", RIGHT.saturating_add(120), self.at);
        out.text("h3\" fill=\"none\"");
        add_attribute(out, "stroke", self.colour);
        out.text("/><text");
        add_length(out, "x", RIGHT.saturating_add(170));
        add_length(out, "y", self.at);
        out.text(" dy=\"4\"");
        add_attribute(out, "fill", self.colour);
        out.text(">");
        out.add(&self.text);
        out.text("</text>\n");
    }
}

/// Adds a text that is too long without its beginning, as markup.
pub fn add_last_part(out: &mut Draft, text: &str, most: usize) {
    let left_out = text.chars().count().saturating_sub(most);
    if left_out == 0 {
        add_escaped(out, text);
        return;
    }
    out.text("…");
    for (place, character) in text.chars().enumerate() {
        if place > left_out {
            add_escaped_character(out, character);
        }
    }
}

/// Adds a text that is too long without its end, as markup. The result is how many characters it then has.
pub fn add_first_part(out: &mut Draft, text: &str, most: usize) -> usize {
    let characters = text.chars().count();
    if characters <= most {
        add_escaped(out, text);
        return characters;
    }
    for (place, character) in text.chars().enumerate() {
        if place < most.saturating_sub(1) {
            add_escaped_character(out, character);
        }
    }
    out.text("…");
    most
}

/// Adds a label below those that end no lower.
pub fn add_label(labels: &mut Vec<Label>, label: Label) -> Result<(), AllocError> {
    let mut above = 0usize;
    for other in labels.iter() {
        if other.end <= label.end {
            above = above.saturating_add(1);
        }
    }
    let above = above.min(labels.len());
    labels.insert(above, label)?;
    Ok(())
}

/// Moves names apart, and up again if they would be too low.
fn spread(labels: &mut Vec<Label>, lowest: u64) {
    let mut least = 0u64;
    for label in labels.iter_mut() {
        label.at = label.at.max(least);
        least = label.at.saturating_add(APART);
    }
    let mut most = lowest;
    for after in 0..labels.len() {
        let place = labels.len().saturating_sub(after).saturating_sub(1);
        if let Some(label) = labels.get_mut(place) {
            label.at = label.at.min(most);
            most = label.at.saturating_sub(APART);
        }
    }
}

/// Draws the labels to the right of a part of the picture, which ends at `bottom`.
pub fn draw_labels(out: &mut Draft, mut labels: Vec<Label>, bottom: u64) {
    spread(&mut labels, bottom.saturating_add(60));
    for label in labels.iter() {
        label.draw(out);
    }
}
