//! The words of a scenario's lines, as they are written.

use scenarios::lines::Line;
use scenarios::scenario::Scenario;

/// The line with this number, if it has words.
pub fn line_at(scenario: &Scenario, number: usize) -> Option<&Line> {
    for line in &scenario.lines {
        if line.number() == number {
            return Some(line);
        }
    }
    None
}

/// The word at this place of a line, or nothing if the line ends before it.
pub fn source_at(line: &Line, place: usize) -> &str {
    match line.words().get(place) {
        None => "",
        Some(word) => word.source(),
    }
}

/// The place of the word that begins at this column.
pub fn place_at(line: &Line, column: usize) -> Option<usize> {
    line.words().iter().position(|word| word.column() == column)
}
