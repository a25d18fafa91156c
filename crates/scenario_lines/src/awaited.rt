//! Refusals that a scenario expects.

ghost use Rattle.std.specs.Prelude.{◌≡◌, IfOk};
ghost use Rattle.scenario_words.specs.Faults.{Gives, as_is};
ghost use Rattle.scenario_lines.specs.Awaited.{awaited_of, awaited_by, awaited};

use crate::scene::Scene;
use machine::text::Text;
use scenario_words::fault::ExpandError;
use scenario_words::word::{Filled, is_at};
use scenarios::lines::Line;
use std::alloc::{AllocError, Global};

/// An `expect refused WORD`: the number of its line, and the word.
#[derive(Drop)]
pub struct Awaited {
    pub line: usize,
    pub word: Text,
}

/// What a line with these words expects if it is an `expect refused`.
fn awaited_of(alloc: Global, number: usize, words: &[Filled]) -> Result<Option<Awaited>, AllocError>
    ensures { IfOk result (λ found. found ≡ awaited_of number words.now) }
{
    if !is_at(words, 0, "expect") || !is_at(words, 1, "refused") {
        return Ok(None);
    }
    match words.get(2) {
        None => Ok(None),
        Some(word) => {
            let word = Text::new(String::from_str(alloc, word.text())?);
            Ok(Some(Awaited { line: number, word }))
        }
    }
}

/// The same, with the line's holes filled by the oldest values, this number of them.
fn awaited_by(scene: &Scene, line: &Line, values: usize) -> Result<Option<Awaited>, ExpandError>
    ensures { Gives as_is result (awaited_by scene.now line.now values) }
{
    let words = scene.words_before(line, values)?;
    Ok(awaited_of(scene.alloc, line.number(), words.as_slice())?)
}

/// What a line expects if it is an `expect refused`. The oldest values fill its holes, this number of them.
pub fn awaited_in(scene: &Scene, line: &Line, values: usize) -> Result<Option<Awaited>, ExpandError>
    ensures { Gives as_is result (awaited scene.now line.now values) }
{
    if line.kind().opens_block() {
        return Ok(None);
    }
    awaited_by(scene, line, values)
}
