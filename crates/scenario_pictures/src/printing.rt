//! Places and names, in words.

use drafts::Draft;

/// Adds rounds, the outermost first, with points between them.
pub fn add_rounds(text: &mut Draft, rounds: &[u32]) {
    for (depth, round) in rounds.iter().enumerate() {
        if depth > 0 {
            text.text(".");
        }
        text.number(u64::from(*round));
    }
}

/// Adds `line N`, and the rounds if there are any.
pub fn add_place(text: &mut Draft, line: usize, rounds: &[u32]) {
    text.text("line ");
    text.number(line as u64);
    if !rounds.is_empty() {
        text.text(", round ");
        add_rounds(text, rounds);
    }
}

/// Adds names, with commas between them.
pub fn add_names(text: &mut Draft, names: &[String]) {
    for (place, name) in names.iter().enumerate() {
        if place > 0 {
            text.text(", ");
        }
        text.text(name.as_str());
    }
}
