//! Texts that are being written.
//!
//! A [`Draft`] keeps its first error. So its writers need no result, and [`Draft::finish`] reports the error at the end.
#![tactic(auto)]

use std::alloc::{AllocError, Global};
use std::fmt::Display;

/// A text that is being written. Once memory runs out, nothing more is added, and `finish` fails.
#[derive(Drop)]
pub struct Draft {
    text: String,
    outcome: Result<(), AllocError>,
}

impl Draft {
    /// Nothing is written yet.
    pub fn new(alloc: Global) -> Draft {
        Draft {
            text: String::new(alloc),
            outcome: Ok(()),
        }
    }

    /// Adds a text.
    pub fn text(&mut self, text: &str) {
        if self.outcome.is_ok() {
            self.outcome = self.text.push_str(text);
        }
    }

    /// Adds a character.
    pub fn character(&mut self, character: char) {
        if self.outcome.is_ok() {
            self.outcome = self.text.push(character);
        }
    }

    /// Adds a number.
    pub fn number(&mut self, number: u64) {
        self.write_fmt(number)
    }

    /// Adds what `write!` and `writeln!` format.
    pub fn write_fmt<D: Display + Drop>(&mut self, value: D) {
        if self.outcome.is_ok() {
            self.outcome = self.text.write_fmt(value);
        }
    }

    /// Adds another draft. If that one has failed, so has this one.
    pub fn add(&mut self, other: &Draft) {
        if other.outcome.is_ok() {
            self.text(other.text.as_str());
        } else {
            self.outcome = Err(AllocError);
        }
    }

    /// Whether nothing was written.
    pub fn is_empty(&self) -> bool {
        self.text.is_empty()
    }

    /// How many characters were written.
    pub fn characters(&self) -> usize {
        self.text.chars().count()
    }

    /// The whole text.
    pub fn finish(self) -> Result<String, AllocError> {
        let Draft { text, outcome } = self;
        match outcome {
            Ok(()) => Ok(text),
            Err(error) => Err(error),
        }
    }
}
