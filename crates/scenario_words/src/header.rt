//! The header of a scenario: how large its machine is.

ghost use Rattle.std.specs.Prelude.{◌≡◌, ◌<◌, ◌^◌, ◌-◌, ◌++◌, length, min, IfSome, OnOk};
ghost use Rattle.std.specs.List.{list_any};
ghost use Rattle.std.specs.Option.{option_map};
ghost use Rattle.scenario_words.specs.Faults.{Gives, GivesAlways};
ghost use Rattle.scenario_words.specs.Header.{machine_of, unsaid, file_named, pages_of_file, blocks_of, blocks_left, page_bytes, page_line, pages_line, marks_within, marks_line, new_file, file_line, call_in, failing_line, protection_in, protection_line, placement_in, placement_line, page_said, memory_said, swap_said, marks_said, file_said, failing_said, protection_said, placement_said, said_by, begins, may_repeat, if_new, next_said, first_of, page_or, pages_or, file_shown, with_file, early, all_said, header_said};

use crate::amount::{PageSize, Purpose, number_within, pages_of, pages_within, size_of};
use crate::fault::{Cause, ExpandError};
use crate::names::Names;
use crate::paths::is_group_name;
use crate::word::{Filled, ends_at, is_at, word_at};
use machine::config::{Placement, Watermarks};
use machine::text::Text;
use scenarios::sizes::Size;
use std::alloc::{AllocError, Global};
use std::marker::Model;

const MOST_FRAMES: u32 = 65_536;

const MOST_SWAP: u32 = 65_536;
/// Swap blocks and pages of files together, at most.
const MOST_BLOCKS: u32 = 131_072;

const MOST_FILES: usize = 64;

/// A call of the device.
#[derive(Clone, Copy, Debug, PartialEq, Eq)]
pub enum DeviceCall {
    Read,
    Write,
}

/// A file, by its true name.
#[derive(Drop)]
pub struct FileSize {
    pub name: Text,
    pub pages: u32,
}

/// A call of the device that fails, counted from 1 among those of its kind.
#[derive(Clone, Copy, Debug, PartialEq, Eq)]
pub struct Failing {
    pub call: DeviceCall,
    pub number: u32,
}

/// What the header says, and what counts without it.
#[derive(Drop)]
pub struct Header {
    pub page: PageSize,
    pub frames: u32,
    pub swap: u32,
    pub watermarks: Option<Watermarks>,
    pub files: Vec<FileSize>,
    pub failing: Vec<Failing>,
    pub recursive: bool,
    pub placement: Placement,
}

impl Header {
    /// What counts without a header.
    pub fn new(alloc: Global) -> Header
        ensures { machine_of result ≡ unsaid }
    {
        Header {
            page: PageSize::of_4k(),
            frames: MOST_FRAMES,
            swap: 0,
            watermarks: None,
            files: Vec::new(alloc),
            failing: Vec::new(alloc),
            recursive: true,
            placement: Placement::Linux,
        }
    }

    /// The number of the file of this name.
    pub fn file_named(&self, name: &str) -> Option<usize>
        ensures place { result ≡ file_named self.now.files.items name.now }
        ensures within { IfSome result (λ place. place < length self.now.files.items) }
    {
        self.files
            .iter()
            .position(|file| file.name.as_str() == name)
    }

    /// How many pages this file has.
    pub fn file_pages(&self, file: usize) -> u32
        ensures { result ≡ pages_of_file self.now.files.items file }
    {
        match self.files.get(file) {
            None => 0,
            Some(file) => file.pages,
        }
    }

    fn blocks(&self) -> u32
        ensures { result ≡ min (blocks_of (machine_of self.now)) (2 ^ 32 - 1) }
    {
        let mut blocks = self.swap;
        for file in &self.files {
            blocks = blocks.saturating_add(file.pages);
        }
        blocks
    }

    fn blocks_left(&self) -> u32
        ensures { result ≡ blocks_left (machine_of self.now) }
    {
        MOST_BLOCKS.saturating_sub(self.blocks())
    }

    fn read_page(&mut self, words: &[Filled]) -> Result<(), ExpandError>
        ensures { Gives (λ _. machine_of self.new) result (page_said (machine_of self.old) words.now) }
    {
        self.page = page_of(words)?;
        ends_at(words, 2)
    }

    fn read_memory(&mut self, words: &[Filled]) -> Result<(), ExpandError>
        ensures { Gives (λ _. machine_of self.new) result (memory_said (machine_of self.old) words.now) }
    {
        self.frames = pages_said(words, self.page, 1, MOST_FRAMES)?;
        ends_at(words, 2)
    }

    fn read_swap(&mut self, words: &[Filled]) -> Result<(), ExpandError>
        ensures { Gives (λ _. machine_of self.new) result (swap_said (machine_of self.old) words.now) }
    {
        self.swap = pages_said(words, self.page, 0, MOST_SWAP)?;
        ends_at(words, 2)
    }

    fn read_watermarks(&mut self, words: &[Filled]) -> Result<(), ExpandError>
        ensures { Gives (λ _. machine_of self.new) result (marks_said (machine_of self.old) words.now) }
    {
        self.watermarks = Some(marks_of(words, self.page, self.frames)?);
        ends_at(words, 3)
    }

    /// The name of a new file that a word is.
    fn new_name<'w>(&self, word: &'w Filled) -> Result<&'w str, ExpandError>
        ensures { Gives (λ name. name.now) result (new_file self.now.files.items word.now) }
    {
        let name = word.text();
        if !is_group_name(name) {
            return Err(word.fault(Cause::Name));
        }
        if self.file_named(name).is_some() {
            return Err(word.fault(Cause::FileThere));
        }
        Ok(name)
    }

    /// The name and the pages of a new file.
    fn file_of<'w>(&self, words: &'w [Filled]) -> Result<(&'w str, u32), ExpandError>
        ensures { Gives file_shown result (file_line (machine_of self.now) words.now) }
    {
        let name = self.new_name(word_at(words, 1)?)?;
        let size = word_at(words, 2)?;
        let pages = pages_within(size, Purpose::Used, self.page, 1, self.blocks_left())?;
        let first = word_at(words, 0)?;
        if self.files.len() >= MOST_FILES {
            return Err(first.fault(Cause::TooManyFiles));
        }
        Ok((name, pages))
    }

    fn add_file(
        &mut self,
        alloc: Global,
        names: &mut Names,
        name: &str,
        pages: u32,
    ) -> Result<(), AllocError>
        ensures { OnOk result ((machine_of self.new, names.new) ≡ with_file (machine_of self.old, names.old) (record { name = name.now; pages = pages })) }
    {
        names.mention(alloc, name)?;
        let name = Text::new(String::from_str(alloc, name)?);
        self.files.push(FileSize { name, pages })?;
        Ok(())
    }

    fn read_file(
        &mut self,
        alloc: Global,
        names: &mut Names,
        words: &[Filled],
    ) -> Result<(), ExpandError>
        ensures { Gives (λ _. (machine_of self.new, names.new)) result (file_said (machine_of self.old, names.old) words.now) }
    {
        let (name, pages) = self.file_of(words)?;
        self.add_file(alloc, names, name, pages)?;
        ends_at(words, 3)
    }

    fn read_failing(&mut self, words: &[Filled]) -> Result<(), ExpandError>
        ensures { Gives (λ _. machine_of self.new) result (failing_said (machine_of self.old) words.now) }
    {
        self.failing.push(failing_of(words)?)?;
        ends_at(words, 3)
    }

    fn read_protection(&mut self, words: &[Filled]) -> Result<(), ExpandError>
        ensures { Gives (λ _. machine_of self.new) result (protection_said (machine_of self.old) words.now) }
    {
        self.recursive = protection_in(word_at(words, 1)?)?;
        ends_at(words, 2)
    }

    fn read_placement(&mut self, words: &[Filled]) -> Result<(), ExpandError>
        ensures { Gives (λ _. machine_of self.new) result (placement_said (machine_of self.old) words.now) }
    {
        self.placement = placement_in(word_at(words, 1)?)?;
        ends_at(words, 2)
    }

    /// Reads one of its lines, whose first word is this one.
    fn read_line(
        &mut self,
        alloc: Global,
        names: &mut Names,
        words: &[Filled],
        text: &str,
    ) -> Result<(), ExpandError>
        ensures { Gives (λ _. (machine_of self.new, names.new)) result (said_by (machine_of self.old, names.old) words.now text.now) }
    {
        if text == "page" {
            return self.read_page(words);
        }
        if text == "memory" {
            return self.read_memory(words);
        }
        if text == "swap" {
            return self.read_swap(words);
        }
        if text == "watermarks" {
            return self.read_watermarks(words);
        }
        if text == "file" {
            return self.read_file(alloc, names, words);
        }
        if text == "fault" {
            return self.read_failing(words);
        }
        if text == "protection" {
            return self.read_protection(words);
        }
        self.read_placement(words)
    }

    /// Reads one of its lines, after others.
    fn read_next(
        &mut self,
        alloc: Global,
        names: &mut Names,
        before: &[HeaderLine],
        line: &HeaderLine,
    ) -> Result<(), ExpandError>
        ensures { Gives (λ _. (machine_of self.new, names.new)) result (next_said before.now (machine_of self.old, names.old) line.now) }
    {
        let words = line.words.as_slice();
        let word = word_at(words, 0)?;
        check_new(before, word)?;
        self.read_line(alloc, names, words, word.text())
    }

    /// The page, the memory and the swap count wherever the header says them. A faulty page is the first fault of all.
    /// A faulty memory or swap is skipped here: nothing is known of it yet.
    fn read_early(&mut self, lines: &[HeaderLine]) -> Result<(), ExpandError>
        ensures { Gives (λ _. machine_of self.new) result (early (machine_of self.old) lines.now) }
    {
        self.page = page_or(first_of(lines, "page"), self.page)?;
        self.frames = pages_or(
            first_of(lines, "memory"),
            self.frames,
            self.page,
            1,
            MOST_FRAMES,
        )?;
        self.swap = pages_or(first_of(lines, "swap"), self.swap, self.page, 0, MOST_SWAP)?;
        Ok(())
    }

    fn read_all(
        &mut self,
        alloc: Global,
        names: &mut Names,
        lines: &[HeaderLine],
    ) -> Result<(), ExpandError>
        ensures { Gives (λ _. (machine_of self.new, names.new)) result (all_said (machine_of self.old, names.old) lines.now) }
    {
        self.read_early(lines)?;
        for (place, line) in lines.iter().enumerate() {
            self.read_next(alloc, names, &lines[..place], line)?;
        }
        Ok(())
    }

    /// Reads its lines.
    #[tactic(auto, unfolding(crate::specs::Header::header_said))]
    pub fn read(
        &mut self,
        alloc: Global,
        names: &mut Names,
        lines: &[HeaderLine],
    ) -> Result<(), ExpandError>
        ensures { Gives (λ _. (machine_of self.new, names.new)) result (header_said (machine_of self.old, names.old) lines.now) }
    {
        self.read_all(alloc, names, lines)
    }
}

/// The bytes of a page of this size.
fn page_bytes(size: Size) -> u64
    ensures { result ≡ page_bytes size }
{
    match size {
        Size::Bytes { whole, millionths } => { if millionths == 0 { whole } else { 0 } }
        Size::Pages(pages) => u64::from(pages) * 4096,
    }
}

/// The page that a line says.
fn page_of(words: &[Filled]) -> Result<PageSize, ExpandError>
    ensures { Gives (λ page. page.bytes) result (page_line words.now) }
{
    let word = word_at(words, 1)?;
    let size = size_of(word)?;
    match PageSize::new(page_bytes(size)) {
        None => Err(word.fault(Cause::SizeBounds)),
        Some(page) => Ok(page),
    }
}

/// The pages that a line says.
fn pages_said(words: &[Filled], page: PageSize, least: u32, most: u32) -> Result<u32, ExpandError>
    ensures { Gives (λ x. x) result (pages_line page.bytes least most words.now) }
{
    let word = word_at(words, 1)?;
    pages_within(word, Purpose::Bound, page, least, most)
}

fn marks_within(
    first: &Filled,
    second: &Filled,
    frames: u32,
    low: u64,
    high: u64,
) -> Result<Watermarks, ExpandError>
    ensures { Gives (λ x. x) result (marks_within first.now second.now frames low high) }
{
    if low > high {
        return Err(first.fault(Cause::Watermarks));
    }
    if high > u64::from(frames) {
        return Err(second.fault(Cause::Watermarks));
    }
    Ok(Watermarks {
        low: low as u32,
        high: high as u32,
    })
}

fn marks_of(words: &[Filled], page: PageSize, frames: u32) -> Result<Watermarks, ExpandError>
    ensures { Gives (λ x. x) result (marks_line page.bytes frames words.now) }
{
    let first = word_at(words, 1)?;
    let second = word_at(words, 2)?;
    let low = pages_of(first, Purpose::Bound, page)?;
    let high = pages_of(second, Purpose::Bound, page)?;
    marks_within(first, second, frames, low, high)
}

fn call_in(word: &Filled) -> Result<DeviceCall, ExpandError>
    ensures { Gives (λ x. x) result (call_in word.now) }
{
    if word.is("read") {
        Ok(DeviceCall::Read)
    } else if word.is("write") {
        Ok(DeviceCall::Write)
    } else {
        Err(word.fault(Cause::NotExpected))
    }
}

fn failing_of(words: &[Filled]) -> Result<Failing, ExpandError>
    ensures { Gives (λ x. x) result (failing_line words.now) }
{
    let call = call_in(word_at(words, 1)?)?;
    let word = word_at(words, 2)?;
    let number = number_within(word, 1, 4_294_967_295)?;
    Ok(Failing {
        call,
        number: number as u32,
    })
}

fn protection_in(word: &Filled) -> Result<bool, ExpandError>
    ensures { Gives (λ x. x) result (protection_in word.now) }
{
    if word.is("recursive") {
        Ok(true)
    } else if word.is("plain") {
        Ok(false)
    } else {
        Err(word.fault(Cause::NotExpected))
    }
}

fn placement_in(word: &Filled) -> Result<Placement, ExpandError>
    ensures { Gives (λ x. x) result (placement_in word.now) }
{
    if word.is("linux") {
        Ok(Placement::Linux)
    } else if word.is("plain") {
        Ok(Placement::Own)
    } else {
        Err(word.fault(Cause::NotExpected))
    }
}

/// A line of the header.
#[derive(Drop)]
pub struct HeaderLine {
    pub words: Vec<Filled>,
}

impl Model for HeaderLine {
    ghost use Rattle.std.specs.Prelude.{List};
    ghost use Rattle.scenario_words.specs.Words.{FilledWord};

    ghost Value = { List FilledWord };

    ghost view = { λ l. l.words.items };
}

fn begins_with(line: &HeaderLine, text: &str) -> bool
    ensures { result ≡ begins text.now line.now }
{
    is_at(line.words.as_slice(), 0, text)
}

fn first_of<'l>(lines: &'l [HeaderLine], text: &str) -> Option<&'l HeaderLine>
    ensures { option_map (λ line. line.now) result ≡ first_of lines.now text.now }
{
    for line in lines {
        if begins_with(line, text) {
            return Some(line);
        }
    }
    None
}

/// Whether one of the lines begins with this word.
fn is_among(lines: &[HeaderLine], text: &str) -> bool
    ensures { result ≡ list_any (begins text.now) lines.now }
{
    for line in lines {
        if begins_with(line, text) {
            return true;
        }
    }
    false
}

fn may_repeat(text: &str) -> bool
    ensures { result ≡ may_repeat text.now }
{
    text == "file" || text == "fault"
}

/// No line before may begin with the word of a line of which there is one.
fn check_new(before: &[HeaderLine], word: &Filled) -> Result<(), ExpandError>
    ensures { Gives (λ x. x) result (if_new before.now word.now) }
{
    if !may_repeat(word.text()) && is_among(before, word.text()) {
        Err(word.fault(Cause::Again))
    } else {
        Ok(())
    }
}

/// The page that a line says, or the one that is known, if there is no line.
fn page_or(line: Option<&HeaderLine>, page: PageSize) -> Result<PageSize, ExpandError>
    ensures { Gives (λ page. page.bytes) result (page_or page.bytes (option_map (λ line. line.now) line.entry)) }
{
    match line {
        None => Ok(page),
        Some(line) => page_of(line.words.as_slice()),
    }
}

/// The pages that a line says, or those that are known, if there is no line or it is faulty.
fn pages_or(
    line: Option<&HeaderLine>,
    known: u32,
    page: PageSize,
    least: u32,
    most: u32,
) -> Result<u32, ExpandError>
    ensures { GivesAlways (λ x. x) result (pages_or known page.bytes least most (option_map (λ line. line.now) line.entry)) }
{
    match line {
        None => Ok(known),
        Some(line) => match pages_said(line.words.as_slice(), page, least, most) {
            Err(ExpandError::Memory) => Err(ExpandError::Memory),
            Err(ExpandError::Faulty(_)) => Ok(known),
            Ok(pages) => Ok(pages),
        },
    }
}
