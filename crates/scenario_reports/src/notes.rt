//! Words of lines that ask and expect.

ghost use Rattle.std.specs.Prelude.{◌≡◌, ◌++◌, [], true, encode_utf8, IfOk, OnOk};
ghost use Rattle.std.specs.String.{string_bytes};
ghost use Rattle.scenario_lines.specs.Joined.{joined};

use scenario_words::word::Filled;
use std::alloc::{AllocError, Global};

/// A word that is being read.
#[derive(Drop)]
struct Reading {
    source: String,
    text: String,
    quoted: bool,
    inside: bool,
}

impl Reading {
    fn new(alloc: Global) -> Reading
        ensures { string_bytes result.source ≡ [] }
    {
        Reading {
            source: String::new(alloc),
            text: String::new(alloc),
            quoted: false,
            inside: false,
        }
    }

    fn add(&mut self, character: char) -> Result<(), AllocError>
        ensures { OnOk result (string_bytes self.new.source ≡ string_bytes self.old.source ++ encode_utf8 character) }
    {
        self.source.push(character)?;
        if character == '"' {
            self.quoted = true;
            self.inside = !self.inside;
            return Ok(());
        }
        self.text.push(character)
    }

    fn whole(self) -> Filled
        ensures { result.source ≡ string_bytes self.source }
    {
        let Reading {
            source,
            text,
            quoted,
            ..
        } = self;
        Filled {
            line: 0,
            column: 0,
            end: 0,
            source,
            text,
            quoted,
        }
    }
}

/// The words of a line that is printed with a space between each two.
pub fn words_of(alloc: Global, line: &str) -> Result<Vec<Filled>, AllocError>
    ensures { IfOk result (λ words. joined words.items 0 true ≡ line.now) }
{
    let mut words = Vec::new(alloc);
    let mut reading = Reading::new(alloc);
    for character in line.chars() {
        if character == ' ' && !reading.inside {
            words.push(reading.whole())?;
            reading = Reading::new(alloc);
        } else {
            reading.add(character)?;
        }
    }
    words.push(reading.whole())?;
    Ok(words)
}

/// The texts of the words after the first, without their quotes.
pub fn rest_of(alloc: Global, words: &[Filled]) -> Result<String, AllocError> {
    let mut text = String::new(alloc);
    for (place, word) in words.iter().enumerate() {
        if place > 1 {
            text.push(' ')?;
        }
        if place > 0 {
            text.push_str(word.text())?;
        }
    }
    Ok(text)
}
