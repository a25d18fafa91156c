//! Attributes and texts of pictures, in the words of SVG.

use drafts::Draft;

/// Adds a length in pixels. It is given in tenths of them.
pub fn add_pixels(out: &mut Draft, tenths: u64) {
    write!(out, "{}.{}", tenths / 10, tenths % 10);
}

/// Adds a letter of a path, and the place that it goes to.
pub fn add_point(out: &mut Draft, letter: &str, across: u64, down: u64) {
    out.text(letter);
    add_pixels(out, across);
    out.text(" ");
    add_pixels(out, down);
}

/// Adds an attribute.
pub fn add_attribute(out: &mut Draft, name: &str, value: &str) {
    out.text(" ");
    out.text(name);
    out.text("=\"");
    out.text(value);
    out.text("\"");
}

/// Adds an attribute that is a length, which is given in tenths of a pixel.
pub fn add_length(out: &mut Draft, name: &str, tenths: u64) {
    out.text(" ");
    out.text(name);
    out.text("=\"");
    add_pixels(out, tenths);
    out.text("\"");
}

/// Adds a character. One of markup is written out. XML has no control characters, so each becomes `\u{fffd}`.
pub fn add_escaped_character(out: &mut Draft, one: char) {
    match one {
        '&' => out.text("&amp;"),
        '<' => out.text("&lt;"),
        '>' => out.text("&gt;"),
        '"' => out.text("&quot;"),
        control if (control as u32) < 32 => out.character('\u{fffd}'),
        other => out.character(other),
    }
}

/// Adds a text, each character as [`add_escaped_character`] does.
pub fn add_escaped(out: &mut Draft, text: &str) {
    for one in text.chars() {
        add_escaped_character(out, one);
    }
}
