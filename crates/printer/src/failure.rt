//! Which page the device could not move, in words for people.

use book::Mapping;
use machine::record::Direction;
use std::fmt;
use std::fmt::{Formatter, Write};

/// What a page contains.
#[derive(Clone, Copy)]
pub enum Content<'a> {
    /// Memory that this virtual page maps, perhaps with others. `None` if no task maps it any more.
    Memory(Option<Mapping>),
    /// A page of the file with this name.
    File { name: &'a str, page: u32 },
}

/// A page that the device could not read in or write out, as it was before its transfer ended.
#[derive(Clone, Copy)]
pub struct Failure<'a> {
    pub direction: Direction,
    pub content: Content<'a>,
    /// The path of the group that was charged for the page, if it was observed.
    pub path: Option<&'a str>,
    /// Whether the page was to leave its frame so that an access gets room.
    pub makes_room: bool,
}

impl Failure<'_> {
    fn write_page<W: Write>(&self, f: &mut Formatter<W>) -> fmt::Result {
        match self.content {
            Content::Memory(Some(mapping)) => {
                write!(f, "page {} of task {}", mapping.page, mapping.task.0)?
            }
            Content::Memory(None) => f.write_str("a page that no task maps any more")?,
            Content::File { name, page } => write!(f, "page {page} of file {name}")?,
        }
        match self.path {
            Some(path) => write!(f, " (charged to {path})"),
            None => Ok(()),
        }
    }
}

impl fmt::Display for Failure<'_> {
    fn fmt<W: Write>(&self, f: &mut Formatter<W>) -> fmt::Result {
        f.write_str("the device failed: ")?;
        self.write_page(f)?;
        match self.direction {
            Direction::In => f.write_str(" could not be read in"),
            Direction::Out if self.makes_room => {
                f.write_str(" could not be written out to make room")
            }
            Direction::Out => f.write_str(" could not be written out"),
        }
    }
}
