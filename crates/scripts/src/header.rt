//! How many frames the header asks for.

ghost use Rattle.std.specs.Prelude.{◌≡◌, IfOk};
ghost use Rattle.std.specs.Str.Lines.{lines};
ghost use Rattle.scripts.specs.Header.{default_config, word_of, is_skipped, is_of_header, is_frames, frames_of, frames_asked, header_frames};
ghost use Rattle.scripts.specs.Reading.{IsPart};

use crate::context::Context;
use crate::fault::LineError;
use crate::forms::{Speaker, Word, word_named};
use crate::line::read_line;
use crate::lines::{as_text, first_line};
use crate::meaning::Item;
use crate::mode::Mode;
use crate::words::{Token, words_of};
use machine::config::{Config, FileList, Placement, Watermarks};
use machine::limit::USUAL_TURNS;
use machine::page_size::PageSize;
use std::alloc::{AllocError, Global};

/// How many frames there are if the header does not say it.
const DEFAULT_FRAMES: u32 = 64;

/// The configuration if the header says nothing.
pub fn default_config(alloc: Global) -> Config
    ensures { result ≡ default_config }
{
    Config {
        frames: DEFAULT_FRAMES,
        swap: 0,
        files: FileList::new(alloc),
        watermarks: Watermarks { low: 0, high: 0 },
        trace: 65_536,
        turns: USUAL_TURNS,
        recursive: false,
        placement: Placement::Own,
        page_size: PageSize::of_4k(),
    }
}

/// What a line is to the header.
enum Part {
    /// It begins with `frames`.
    Frames,
    /// It is another of the header's lines, or is skipped.
    Other,
    /// The header ends before it.
    Behind,
}

pub fn word_of(words: &[Token<'_>]) -> Option<Word>
    ensures { result ≡ word_of words.now }
{
    match words.first() {
        Some(first) => word_named(Speaker::Shell, first.text()),
        None => None,
    }
}

pub fn is_skipped(words: &[Token<'_>]) -> bool
    ensures { result ≡ is_skipped words.now }
{
    match words.first() {
        Some(first) => first.text().starts_with('#'),
        None => true,
    }
}

pub fn is_of_header(word: Option<Word>) -> bool
    ensures { result ≡ is_of_header word }
{
    match word {
        Some(word) => word.form().header,
        None => false,
    }
}

fn is_frames(word: Option<Word>) -> bool
    ensures { result ≡ is_frames word }
{
    match word {
        Some(word) => word == Word::Frames,
        None => false,
    }
}

#[tactic(auto, using(crate::proofs::LongLines::word_kept, crate::proofs::LongLines::skipped_kept))]
fn part_of(line: &[u8]) -> Part
    ensures { IsPart result line.now }
{
    let Some(text) = as_text(line) else {
        return Part::Behind;
    };
    let words = words_of(text);
    let word = word_of(words.as_slice());
    if !is_skipped(words.as_slice()) && !is_of_header(word) {
        return Part::Behind;
    }
    if is_frames(word) {
        return Part::Frames;
    }
    Part::Other
}

fn frames_of(item: &Item) -> u32
    ensures { result ≡ frames_of item.now }
{
    match item {
        Item::Frames(frames) => *frames,
        _ => DEFAULT_FRAMES,
    }
}

fn frames_asked(alloc: Global, line: &[u8]) -> Result<u32, AllocError>
    ensures { IfOk result (λ frames. frames ≡ frames_asked (Some line.now)) }
{
    let context = Context {
        // The line has the same faults whatever the script is read for.
        mode: Mode::Schedule,
        frames: DEFAULT_FRAMES,
        commands: false,
        given: Vec::new(alloc),
        config: default_config(alloc),
    };
    match read_line(alloc, &context, line) {
        Ok(item) => Ok(frames_of(&item)),
        Err(LineError::Fault(_)) => Ok(DEFAULT_FRAMES),
        Err(LineError::Memory) => Err(AllocError),
    }
}

/// How many frames the header asks for, by the first of its lines that begins with `frames`. It is the default if there
/// is no such line, or if that line has a fault.
pub fn header_frames(alloc: Global, text: &[u8]) -> Result<u32, AllocError>
    ensures { IfOk result (λ frames. frames ≡ header_frames (lines text.now)) }
{
    let mut rest = text;
    while !rest.is_empty() {
        let (line, after) = first_line(rest);
        match part_of(line) {
            Part::Other => rest = after,
            Part::Frames => return frames_asked(alloc, line),
            Part::Behind => return Ok(DEFAULT_FRAMES),
        }
    }
    Ok(DEFAULT_FRAMES)
}
