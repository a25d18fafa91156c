//! The blocks that are at work.

ghost use Rattle.std.specs.Prelude.{◌≡◌, ◌<◌, ◌≤◌, length, map, IfOk, IfSome, OnOk, if◌then◌else◌};
ghost use Rattle.std.specs.String.{string_bytes};
ghost use Rattle.scenario_words.specs.Faults.{Gives, as_is};
ghost use Rattle.expansion.specs.Frames.{until_at, first_until, sources, head_of_words, head_named, head_unnamed, head_of_number, head_of, until_form, once, repeated, named_round, more_rounds, in_next_round};

use scenario_lines::scene::{Scene, checked_name};
use scenario_words::amount::number_within;
use scenario_words::fault::{Cause, ExpandError};
use scenario_words::word::{Filled, ends_at, is_at, word_at};
use std::alloc::{AllocError, Global};
use std::marker::Model;

/// What a block does with its lines.
#[derive(Clone, Copy, Debug, PartialEq, Eq)]
pub enum Block {
    /// The scenario itself: once.
    All,
    /// Again and again.
    Repeat,
    /// All lines together.
    Together,
}

/// A block that is at work.
#[derive(Drop)]
pub struct Frame {
    pub block: Block,
    /// The place of its first line, of the next one, and of the one after its last.
    pub begin: usize,
    pub at: usize,
    pub end: usize,
    /// Which round it is in, from 1, and how many there are.
    pub round: u32,
    pub rounds: u32,
    /// The name that the round has, or a word a round.
    name: Option<String>,
    values: Vec<String>,
    /// How many values were there before it.
    pub scope: usize,
    /// A line that could be refused is right above the next one.
    pub above: bool,
    /// The place of the first word of its `until` condition among the words of the line that opens it.
    pub until: Option<usize>,
    pub words: Vec<Filled>,
}

impl Model for Frame {
    ghost use Rattle.std.specs.Prelude.{map, option_map};
    ghost use Rattle.std.specs.String.{string_bytes};
    ghost use Rattle.expansion.specs.Frames.{FrameNow};

    ghost Value = { FrameNow };

    ghost view = { λ f. record { block = f.block; begin = f.begin; at = f.at; end = f.end; round = f.round; rounds = f.rounds; name = option_map (λ n. string_bytes n) f.name; values = map (λ v. string_bytes v) f.values.items; scope = f.scope; above = f.above; until = f.until; words = f.words.items } };
}

/// What the head of a `repeat` says.
#[derive(Drop)]
struct Head {
    rounds: u32,
    name: Option<String>,
    values: Vec<String>,
    until: Option<usize>,
}

impl Model for Head {
    ghost use Rattle.std.specs.Prelude.{map, option_map};
    ghost use Rattle.std.specs.String.{string_bytes};
    ghost use Rattle.expansion.specs.Frames.{HeadNow};

    ghost Value = { HeadNow };

    ghost view = { λ h. record { rounds = h.rounds; name = option_map (λ n. string_bytes n) h.name; values = map (λ v. string_bytes v) h.values.items; until = h.until } };
}

/// This place if its word is `until`, or none if the words end before it. Another word is a fault.
fn until_at(words: &[Filled], place: usize) -> Result<Option<usize>, ExpandError>
    ensures place { Gives as_is result (until_at words.now place) }
    ensures within { IfOk result (λ until. IfSome until (λ at. at < length words.now)) }
{
    if is_at(words, place, "until") {
        return Ok(Some(place));
    }
    ends_at(words, place)?;
    Ok(None)
}

/// The place of the first `until` from this place on.
fn first_until(words: &[Filled], place: usize) -> Option<usize>
    ensures place { result ≡ first_until words.now place }
    ensures from { IfSome result (λ at. place ≤ at) }
    ensures within { IfSome result (λ at. at < length words.now) }
{
    for at in place..words.len() {
        if is_at(words, at, "until") {
            return Some(at);
        }
    }
    None
}

/// The words from one place to before another, with their quotes.
fn sources(
    alloc: Global,
    words: &[Filled],
    first: usize,
    end: usize,
) -> Result<Vec<String>, AllocError>
    requires order { first ≤ end }
    requires within { end ≤ length words.now }
    ensures { IfOk result (λ copies. map (λ s. string_bytes s) copies.items ≡ sources words.now first end) }
{
    let mut copies = Vec::new(alloc);
    for word in &words[first..end] {
        copies.push(String::from_str(alloc, word.source())?)?;
    }
    Ok(copies)
}

/// `repeat NAME in WORD ..`.
fn head_of_words(alloc: Global, words: &[Filled]) -> Result<Head, ExpandError>
    ensures head { Gives as_is result (head_of_words words.now) }
    ensures until { IfOk result (λ head. IfSome head.until (λ at. at < length words.now)) }
{
    let name = checked_name(word_at(words, 1)?)?;
    word_at(words, 3)?;
    let until = first_until(words, 4);
    let values = sources(alloc, words, 3, until.unwrap_or(words.len()))?;
    let rounds = u32::try_from(values.len()).unwrap_or(u32::MAX);
    let name = String::from_str(alloc, name)?;
    Ok(Head {
        rounds,
        name: Some(name),
        values,
        until,
    })
}

/// `as NAME` follows the number of rounds.
fn head_named(alloc: Global, words: &[Filled], rounds: u32) -> Result<Head, ExpandError>
    ensures head { Gives as_is result (head_named words.now rounds) }
    ensures until { IfOk result (λ head. IfSome head.until (λ at. at < length words.now)) }
{
    let name = checked_name(word_at(words, 3)?)?;
    let until = until_at(words, 4)?;
    let name = String::from_str(alloc, name)?;
    Ok(Head {
        rounds,
        name: Some(name),
        values: Vec::new(alloc),
        until,
    })
}

fn head_unnamed(alloc: Global, words: &[Filled], rounds: u32) -> Result<Head, ExpandError>
    ensures head { Gives as_is result (head_unnamed words.now rounds) }
    ensures until { IfOk result (λ head. IfSome head.until (λ at. at < length words.now)) }
{
    let until = until_at(words, 2)?;
    Ok(Head {
        rounds,
        name: None,
        values: Vec::new(alloc),
        until,
    })
}

/// `repeat N`, or `repeat N as NAME`.
fn head_of_number(alloc: Global, words: &[Filled]) -> Result<Head, ExpandError>
    ensures head { Gives as_is result (head_of_number words.now) }
    ensures until { IfOk result (λ head. IfSome head.until (λ at. at < length words.now)) }
{
    let rounds = number_within(word_at(words, 1)?, 0, 1_000_000)? as u32;
    if is_at(words, 2, "as") {
        head_named(alloc, words, rounds)
    } else {
        head_unnamed(alloc, words, rounds)
    }
}

fn head_of(alloc: Global, words: &[Filled]) -> Result<Head, ExpandError>
    ensures head { Gives as_is result (head_of words.now) }
    ensures until { IfOk result (λ head. IfSome head.until (λ at. at < length words.now)) }
{
    word_at(words, 1)?;
    if is_at(words, 2, "in") {
        head_of_words(alloc, words)
    } else {
        head_of_number(alloc, words)
    }
}

/// Whether `until`, if it is there, is allowed, and a condition follows it.
fn check_until(
    scene: &Scene,
    words: &[Filled],
    no_until: bool,
    until: Option<usize>,
) -> Result<(), ExpandError>
    requires { IfSome until (λ at. at < length words.now) }
    ensures { Gives as_is result (until_form words.now no_until until) }
{
    let Some(place) = until else {
        return Ok(());
    };
    if no_until {
        return Err(word_at(words, place)?.fault(Cause::Until));
    }
    scene.check_condition(words, place + 1, false)
}

impl Frame {
    /// A block that is worked once, from this line to before another.
    pub fn once(alloc: Global, block: Block, begin: usize, end: usize, scope: usize) -> Frame
        ensures { result ≡ once block begin end scope }
    {
        Frame {
            block,
            begin,
            at: begin,
            end,
            round: 1,
            rounds: 1,
            name: None,
            values: Vec::new(alloc),
            scope,
            above: false,
            until: None,
            words: Vec::new(alloc),
        }
    }

    /// The block of a `repeat` with these words, before its first round. `no_until` says whether `until` is a fault.
    pub fn repeated(
        scene: &Scene,
        words: Vec<Filled>,
        begin: usize,
        end: usize,
        no_until: bool,
    ) -> Result<Frame, ExpandError>
        ensures { Gives as_is result (repeated scene.now words.items begin end no_until) }
    {
        let head = head_of(scene.alloc, words.as_slice())?;
        check_until(scene, words.as_slice(), no_until, head.until)?;
        let Head {
            rounds,
            name,
            values,
            until,
        } = head;
        Ok(Frame {
            block: Block::Repeat,
            begin,
            at: end,
            end,
            round: 0,
            rounds,
            name,
            values,
            scope: scene.values(),
            above: false,
            until,
            words,
        })
    }

    /// Gives the round its number and its word.
    pub fn name_round(&self, scene: &mut Scene) -> Result<(), AllocError>
        ensures { OnOk result (scene.new ≡ named_round self.now.name self.now.values self.now.round scene.old) }
    {
        let number = format!(in scene.alloc; "{}", self.round)?;
        scene.set_value("round", number.as_str())?;
        let Some(name) = &self.name else {
            return Ok(());
        };
        let value = match self.values.get((self.round as usize).saturating_sub(1)) {
            None => number.as_str(),
            Some(value) => value.as_str(),
        };
        scene.set_value(name.as_str(), value)
    }

    /// The block at another line. `above` says whether a line that could be refused is right above that.
    pub fn moved(self, at: usize, above: bool) -> Frame
        ensures { result ≡ record self { at = at; above = above } }
    {
        let mut frame = self;
        frame.at = at;
        frame.above = above;
        frame
    }

    /// The next round, if there is one.
    pub fn next_round(&mut self) -> bool
        ensures more { result ≡ more_rounds self.old }
        ensures next { self.new ≡ (if more_rounds self.old then in_next_round self.old else self.old) }
    {
        if self.round >= self.rounds {
            return false;
        }
        self.round = self.round.saturating_add(1);
        self.at = self.begin;
        self.above = false;
        true
    }
}
