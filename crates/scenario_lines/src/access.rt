//! A list of accesses: what one line has a task do, page by page.

ghost use Rattle.std.specs.Prelude.{◌≡◌, ◌<◌, true};
ghost use Rattle.scenario_lines.specs.Pages.{page_count, page_at, fits};
ghost use Rattle.scenario_lines.specs.Access.{command_at, mark_behind, place_behind, file_of};

use crate::pages::Pages;
use machine::command::Command;
use machine::event::{Op, Place};
use std::marker::Model;

/// What is done to each page.
#[derive(Clone, Copy, Debug, PartialEq, Eq)]
pub enum Act {
    /// The task writes a byte of it.
    Write,
    /// The task reads a byte of it.
    Read,
    /// The task gives it up. After the last page the mark is this.
    Free { mark: u32 },
    /// The task reads a byte of the file's.
    FileRead { file: u32 },
    /// The task writes a byte of the file's.
    FileWrite { file: u32 },
}

/// The accesses of one line and one task: a list that is known by its length and by the entry of each place.
#[derive(Clone, Copy)]
pub struct Access {
    pub task: u32,
    pub act: Act,
    pub pages: Pages,
}

impl Model for Access {
    ghost use Rattle.std.specs.Prelude.{◌≡◌, true};
    ghost use Rattle.scenario_lines.specs.Pages.{fits};
    ghost use Rattle.scenario_lines.specs.Access.{AccessNow};

    ghost Value = { AccessNow };

    ghost view = { λ a. record { task = a.task; act = a.act; pages = a.pages } };

    ghost inverse = { λ n. record { task = n.task; act = n.act; pages = n.pages } };

    ghost invariant = { λ a. fits a.pages ≡ true };
}

impl Access {
    /// How many entries it has.
    pub fn count(self) -> u32
        ensures { result ≡ page_count self.pages }
    {
        self.pages.count()
    }

    /// The page of the entry of this place.
    pub fn page_at(self, place: u32) -> u32
        requires { place < page_count self.pages }
        ensures { result ≡ page_at self.pages place }
    {
        self.pages.at(place)
    }

    /// The task's command at this place, from 0. An access reads byte 0 of the page or writes 1 to it.
    pub fn command_at(self, place: u32) -> Command
        requires { place < page_count self.pages }
        ensures { result ≡ command_at self.act (page_at self.pages place) }
    {
        let page = self.page_at(place);
        match self.act {
            Act::Write => Command::Access {
                place: Place::Virtual { page, offset: 0 },
                op: Op::Write(1),
            },
            Act::Read => Command::Access {
                place: Place::Virtual { page, offset: 0 },
                op: Op::Read,
            },
            Act::Free { .. } => Command::Free { page },
            Act::FileRead { file } => Command::Access {
                place: Place::File {
                    file,
                    page,
                    offset: 0,
                },
                op: Op::Read,
            },
            Act::FileWrite { file } => Command::Access {
                place: Place::File {
                    file,
                    page,
                    offset: 0,
                },
                op: Op::Write(1),
            },
        }
    }

    /// The task's mark after the entry of this place, if `mark` is the one before the entry.
    pub fn mark_behind(self, place: u32, mark: u32) -> u32
        requires { place < page_count self.pages }
        ensures { result ≡ mark_behind self.act (page_count self.pages) place (page_at self.pages place) mark }
    {
        match self.act {
            Act::Write => mark.max(self.page_at(place).saturating_add(1)),
            Act::Free { mark: lowered } => {
                if place + 1 == self.count() {
                    lowered
                } else {
                    mark
                }
            }
            Act::Read | Act::FileRead { .. } | Act::FileWrite { .. } => mark,
        }
    }

    /// The file that it is of.
    pub fn file(self) -> Option<u32>
        ensures { result ≡ file_of self.act }
    {
        match self.act {
            Act::FileRead { file } | Act::FileWrite { file } => Some(file),
            Act::Write | Act::Read | Act::Free { .. } => None,
        }
    }

    /// The task's place in the file after the entry of this place, if the line continues from the task's place.
    pub fn place_behind(self, place: u32) -> Option<u32>
        requires { place < page_count self.pages }
        ensures { result ≡ place_behind self.pages (page_at self.pages place) }
    {
        match self.pages {
            Pages::Round { size, .. } => {
                let page = self.page_at(place);
                Some(((u64::from(page) + 1) % u64::from(size)) as u32)
            }
            Pages::Run { .. } | Pages::Drawn { .. } => None,
        }
    }
}
