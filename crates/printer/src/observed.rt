//! What is seen of a machine while a script is run: how much groups were charged with, why a task was killed, and which
//! page the device could not move.

use crate::amounts::{Amounts, add_number};
use crate::failure::{Content, Failure};
use crate::killing::{Killed, Killing};
use crate::options::Options;
use crate::source::paths_of;
use book::{Book, GroupLook, PageLook};
use driver::{Config, FailedCall, Schedule};
use machine::config::{File, FileList};
use machine::event::Cause;
use machine::id::GroupId;
use machine::page_size::PageSize;
use machine::record::Kind;
use std::alloc::{AllocError, Global};
use std::io;
use std::io::Write;

/// A path of the script, and what was seen of the groups that had it.
#[derive(Clone, Copy)]
struct Seen<'s> {
    path: &'s str,
    /// The most pages that were charged to one of them and below it after a step.
    peak: u64,
    /// The number of the group that had the path after the last step.
    number: Option<u32>,
    /// The number of its youngest generation then. A group is not aged in the step that makes it, nor the root in
    /// the first step.
    max_seq: u64,
    /// Whether its peak is printed.
    is_told: bool,
}

/// A call of the device that failed, and the page that it was made for.
#[derive(Clone, Copy)]
struct Failed<'s> {
    call: FailedCall,
    page: PageLook,
    /// The path of the group that was charged for the page, if it is one of the observed groups.
    path: Option<&'s str>,
}

/// What is seen of the groups of a script.
#[derive(Drop)]
pub struct Observed<'s> {
    /// Page frames of the machine.
    frames: u32,
    /// How many bytes a page stands for.
    page_size: PageSize,
    /// Swap blocks of the device, which come before the blocks of the files.
    swap: u32,
    /// The files, if something asks for failed calls.
    files: Vec<File>,
    groups: Vec<Seen<'s>>,
    /// How often a group made a younger generation.
    agings: u64,
    /// The kill of the relief that was asked for last, if it kills a task.
    doomed: Option<Killing<'s>>,
    /// The last failed call that was seen.
    failed: Option<Failed<'s>>,
}

impl<'s> Seen<'s> {
    fn new(path: &'s str, is_told: bool) -> Seen<'s> {
        Seen {
            path,
            peak: 0,
            number: None,
            max_seq: 0,
            is_told,
        }
    }

    /// Looks at the group that has the path, and returns how often it was aged since the last look.
    fn look(&mut self, book: &Book) -> u64 {
        let (Some(look), Some(max_seq)) = (book.look(self.path), book.max_seq(self.path)) else {
            self.number = None;
            return 0;
        };
        self.peak = self.peak.max(look.usage);
        if self.number != Some(look.number) {
            self.number = Some(look.number);
            self.max_seq = max_seq;
        }
        let agings = max_seq.saturating_sub(self.max_seq);
        self.max_seq = max_seq;
        agings
    }

    /// Writes the greatest `memory.current`. Bytes need no memory for their text.
    fn write_peak<W: Write>(
        &self,
        to: &mut W,
        page_size: PageSize,
        amounts: Amounts,
        text: &mut String,
    ) -> io::Result<()> {
        let bytes = self.peak.saturating_mul(page_size.bytes);
        match amounts {
            Amounts::Bytes => writeln!(to, "greatest memory.current of {}: {bytes}", self.path),
            Amounts::Human | Amounts::Pages => {
                text.clear();
                add_number(text, page_size, amounts, bytes)?;
                writeln!(to, "greatest memory.current of {}: {text}", self.path)
            }
        }
    }
}

impl<'s> Observed<'s> {
    /// What is to be looked at of the groups that the steps make, if the options ask for it.
    pub fn asked(
        alloc: Global,
        options: Options,
        schedule: &'s Schedule,
        config: &Config,
    ) -> Result<Observed<'s>, AllocError> {
        let mut observed = Observed::nothing(alloc, config);
        if options.summary || options.tells_reasons() || options.tells_kills() {
            observed.groups = Observed::groups_of(alloc, schedule)?;
        }
        if options.tells_reasons() {
            observed.files = copy_of(alloc, &config.files)?;
        }
        Ok(observed)
    }

    /// Nothing is looked at.
    fn nothing(alloc: Global, config: &Config) -> Observed<'s> {
        Observed {
            frames: config.frames,
            page_size: config.page_size,
            swap: config.swap,
            files: Vec::new(alloc),
            groups: Vec::new(alloc),
            agings: 0,
            doomed: None,
            failed: None,
        }
    }

    /// The groups that the steps make, and the root. Nothing was seen of them yet.
    fn groups_of(alloc: Global, schedule: &'s Schedule) -> Result<Vec<Seen<'s>>, AllocError> {
        let paths = paths_of(alloc, schedule)?;
        let mut groups = Vec::new(alloc);
        if !paths.iter().any(|path| *path == "/") {
            groups.push(Seen::new("/", paths.is_empty()))?;
        }
        for path in paths.iter() {
            groups.push(Seen::new(*path, true))?;
        }
        Ok(groups)
    }

    /// Looks at all groups.
    pub fn look(&mut self, book: &Book) {
        for seen in self.groups.iter_mut() {
            self.agings = self.agings.saturating_add(seen.look(book));
        }
    }

    /// Notes that a relief is asked for, for this cause.
    pub fn see_relief(&mut self, book: &Book, cause: Cause) {
        self.doomed = None;
        let Some(victim) = book.victim(cause) else {
            return;
        };
        let Some((path, look)) = self.group_of(book, victim.limit) else {
            return;
        };
        let group = victim.group.and_then(|group| self.group_of(book, group));
        let first = book.next_as_large(&victim, victim.task);
        self.doomed = Some(Killing {
            victim,
            cause,
            path,
            max: look.max,
            usage: look.usage,
            home: self.group_of(book, victim.home).map(|(path, _)| path),
            group: group.map(|(path, _)| path),
            dead: 0,
            frames: self.frames,
            page_size: self.page_size,
            first_tied: first,
            second_tied: first.and_then(|first| book.next_as_large(&victim, first)),
        });
    }

    /// Notes a failed call of the device.
    pub fn see_failure(&mut self, book: &Book, call: FailedCall) {
        self.failed = book.page_in_transfer(call.ticket).map(|page| Failed {
            call,
            page,
            path: self.group_of(book, page.group).map(|(path, _)| path),
        });
    }

    /// The last failed call that was seen. It was to make room for an access, or not.
    pub fn failure(&self, makes_room: bool) -> Option<Failure<'_>> {
        let failed = self.failed?;
        let content = match failed.page.kind {
            Kind::Anon => Content::Memory(failed.page.mapping),
            Kind::File => self.file_at(failed.call.block)?,
        };
        Some(Failure {
            direction: failed.call.direction,
            content,
            path: failed.path,
            makes_room,
        })
    }

    /// The page of a file that has this block of the device.
    fn file_at(&self, block: u32) -> Option<Content<'_>> {
        let mut page = block.checked_sub(self.swap)?;
        for file in self.files.iter() {
            match page.checked_sub(file.pages) {
                Some(rest) => page = rest,
                None => {
                    let name = file.name.as_str();
                    return Some(Content::File { name, page });
                }
            }
        }
        None
    }

    /// The path of the group with this number, and what is known of it, if it is one of the observed groups.
    fn group_of(&self, book: &Book, group: GroupId) -> Option<(&'s str, GroupLook)> {
        for seen in self.groups.iter() {
            if let Some(look) = book.look(seen.path) {
                if look.number == group.0 {
                    return Some((seen.path, look));
                }
            }
        }
        None
    }

    /// Why the task was killed, if the relief that was asked for last killed it.
    pub fn killing_of(&self, killed: Killed) -> Option<Killing<'s>> {
        match self.doomed {
            Some(killing) if killing.victim.task == killed.victim => Some(Killing {
                dead: killed.with_group.unwrap_or(0),
                ..killing
            }),
            _ => None,
        }
    }

    /// Writes a line for each number: how often groups were aged, and the greatest `memory.current` of each.
    pub fn write<W: Write>(&self, to: &mut W, amounts: Amounts) -> io::Result<()> {
        writeln!(to, "agings: {}", self.agings)?;
        let mut peak = String::new(*self.groups.allocator());
        for seen in self.groups.iter() {
            if seen.is_told {
                seen.write_peak(to, self.page_size, amounts, &mut peak)?;
            }
        }
        Ok(())
    }
}

/// Copies of the files.
fn copy_of(alloc: Global, files: &FileList) -> Result<Vec<File>, AllocError> {
    let mut copies = Vec::new(alloc);
    for file in files.as_slice() {
        copies.push(File {
            name: file.name.copy(alloc)?,
            pages: file.pages,
        })?;
    }
    Ok(copies)
}
