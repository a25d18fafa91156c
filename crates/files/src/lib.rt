//! Files: which block of the device is the home of which page, and which lists of files are valid.
//!
//! The home blocks follow the swap blocks, file by file in the list's order (kernel: a file system that
//! never moves a block). A file's home blocks are in the order of its pages.
#![tactic(auto)]

ghost use Rattle.std.specs.Prelude.{◌≡◌, ℕ, ◌+◌, ◌≤◌, ◌<◌, ◌^◌, IfOk, Some, None, sum, if◌then◌else◌};
ghost use Rattle.machine.specs.State.{sizes_of, blocks_of, is_config};
ghost use Rattle.files.specs.Files.{home_in};

pub use config::{blocks_behind, blocks_for};

mod config;

use machine::config::FileList;
use std::alloc::{AllocError, Global};
use std::marker::Model;

/// The blocks of one file.
#[derive(Drop)]
struct Extent {
    /// The home of its first page.
    start: u32,
    pages: u32,
}

/// Files, each with its number: its place in the list that they were opened with.
#[derive(Drop)]
pub struct Files {
    first: u32,
    extents: Vec<Extent>,
    /// The block after the last home.
    end: u32,
}

impl Model for Files {
    ghost use Rattle.files.specs.Files.{FilesOf, AreExtents, lengths};

    ghost Value = { FilesOf };

    ghost view = { λ f. record { first = f.first; sizes = lengths f.extents.items } };

    ghost invariant = { λ f. AreExtents f.first f.extents.items f.end };
}

impl Files {
    /// The files of the list. The home of the first page of the first file is this block. `AllocError` if
    /// there is no memory.
    pub fn open(alloc: Global, files: &FileList, first: u32) -> Result<Files, AllocError>
        requires { first + sum (sizes_of files.now) ≤ u32.MAX }
        ensures { IfOk result (λ f. f ≡ record { first = first; sizes = sizes_of files.now }) }
    {
        let mut extents = Vec::new(alloc);
        let mut end = first;
        for file in files.as_slice() {
            extents.push(Extent {
                start: end,
                pages: file.pages,
            })?;
            end += file.pages;
        }
        Ok(Files {
            first,
            extents,
            end,
        })
    }

    /// The block of the first page of the first file.
    pub fn first(&self) -> u32
        ensures { result ≡ self.now.first }
    {
        self.first
    }

    /// How many pages all files have together.
    pub fn pages(&self) -> u32
        ensures { result ≡ sum self.now.sizes }
    {
        self.end - self.first
    }

    /// The home block of a page, if there is such a file and it has the page (kernel: `bmap`).
    pub fn home(&self, file: u32, page: u32) -> Option<u32>
        ensures { result ≡ home_in self.now file page }
    {
        let extent = self.extents.get(file as usize)?;
        if page >= extent.pages {
            return None;
        }
        Some(extent.start + page)
    }

    /// Does nothing. The contract states that all home blocks have numbers.
    pub fn are_numbered(&self)
        ensures { self.now.first + sum self.now.sizes < 2 ^ 32 }
    {
        let _ = &self.extents;
    }

    /// Does nothing. The contract states that no two pages of files have the same home. All homes are at or
    /// after the first one and before the end of the last file.
    pub fn homes_are_apart(&self)
        ensures apart { (file page file' page' block : ℕ) → home_in self.now file page ≡ Some block → home_in self.now file' page' ≡ Some block → (file ≡ file') × (page ≡ page') }
        ensures behind { (file page block : ℕ) → home_in self.now file page ≡ Some block → self.now.first ≤ block }
        ensures within { (file page block : ℕ) → home_in self.now file page ≡ Some block → block < self.now.first + sum self.now.sizes }
    {
        let _ = &self.extents;
    }
}
