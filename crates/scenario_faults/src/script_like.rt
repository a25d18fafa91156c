//! Scripts that were taken for scenarios, and scenarios that were taken for scripts.

use crate::written::{line_at, place_at, source_at};
use scenario_words::fault::{Cause, Fault};
use scenarios::lines::Line;
use scenarios::scenario::Scenario;
use text_forms::number::is_digits;

/// What is said of a fault of a script.
pub const SCRIPT_HINT: &str = " (this looks like a script: use \"memcgrun schedule\")";

/// Words that begin a line of a script, and no line of a scenario.
const OF_SCRIPTS: [&str; 10] = [
    "frames",
    "trace",
    "recursiveprot",
    "cat",
    "prot",
    "lowprot",
    "begin",
    "step",
    "finish",
    "go",
];

/// Words that begin a line of a scenario, and no line of a script.
const OF_SCENARIOS: [&str; 9] = [
    "memory",
    "placement",
    "protection",
    "let",
    "repeat",
    "together",
    "show",
    "expect",
    "mark",
];

fn is_of_script(word: &str) -> bool {
    is_digits(word) || OF_SCRIPTS.iter().any(|other| *other == word)
}

/// Whether the first line is a script's. No group is there yet that a scenario could set.
fn begins_as_script(line: &Line, fault: Fault) -> bool {
    let first = source_at(line, 0);
    is_of_script(first) || (first == "set" && line.number() == fault.line)
}

/// Whether a faulty line is a script's: `1 write 0 0 1`, `cat ..` or `task 1 /a`.
fn is_script_line(line: &Line, fault: Fault) -> bool {
    let place = place_at(line, fault.column);
    match fault.cause {
        Cause::NoTask => place == Some(0) && is_of_script(source_at(line, 0)),
        Cause::NotExpected => {
            place == Some(2)
                && source_at(line, 0) == "task"
                && is_digits(source_at(line, 1))
                && source_at(line, 2).starts_with('/')
        }
        _ => false,
    }
}

/// Whether a scenario with this fault looks like a script.
pub fn looks_like_script(scenario: &Scenario, fault: Fault) -> bool {
    let begins = match scenario.lines.first() {
        None => false,
        Some(line) => begins_as_script(line, fault),
    };
    begins
        || match line_at(scenario, fault.line) {
            None => false,
            Some(line) => is_script_line(line, fault),
        }
}

/// Whether a text looks like a scenario: of the lines that are of scenarios alone, or of scripts alone, the first is one
/// of scenarios. A text that begins so is no script that can be read.
pub fn looks_like_scenario(text: &str) -> bool {
    for line in text.lines() {
        let Some(first) = line.split_ascii_whitespace().next() else {
            continue;
        };
        if OF_SCENARIOS.iter().any(|word| *word == first) {
            return true;
        }
        if is_of_script(first) {
            return false;
        }
    }
    false
}
