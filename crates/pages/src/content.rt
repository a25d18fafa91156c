//! The content of a page, and its properties.

ghost use Rattle.std.specs.Prelude.{◌≡◌, Bool, true};
ghost use Rattle.machine.specs.Lists.{kind_at};
ghost use Rattle.pages.specs.PagesOf as pages;
ghost use Rattle.pages.specs.Records.{content_of, is_dirty, file_at};
ghost use Rattle.pages.specs.declared.owned_page.Content.TheVariants.{Memory, OfFile};
ghost use Rattle.pages.specs.declared.owned_page.FilePage.{FilePage as FilePage_of};

use crate::owned_page::{Content, FilePage};
use crate::way::WayOut;
use machine::record::Kind;

impl Content {
    /// The type of a page with this content.
    pub(crate) fn kind(self) -> Kind
        ensures { result ≡ kind_at (content_of self) }
    {
        match self {
            Content::Memory => Kind::Anon,
            Content::OfFile { .. } => Kind::File,
        }
    }

    /// The page of a file, if the content is one.
    pub(crate) fn file(self) -> Option<FilePage>
        ensures { result ≡ file_at (content_of self) }
    {
        match self {
            Content::Memory => None,
            Content::OfFile { at, .. } => Some(at),
        }
    }

    /// How a page with this content would leave its frame.
    pub(crate) fn way_out(self) -> WayOut
        ensures { result ≡ pages.way_of (content_of self) (is_dirty self) }
    {
        match self {
            Content::Memory => WayOut::ToSwap,
            Content::OfFile { dirty, .. } => {
                if dirty {
                    WayOut::ToHome
                } else {
                    WayOut::Dropped
                }
            }
        }
    }

    /// Notes a write: a page of a file is dirty from now on (kernel: folio_mark_dirty).
    pub(crate) fn make_dirty(&mut self)
        ensures memory { self.old ≡ Memory → self.new ≡ self.old }
        ensures file { (at : FilePage_of) (dirty : Bool) → self.old ≡ OfFile at dirty → self.new ≡ OfFile at true }
    {
        match self {
            Content::Memory => {}
            Content::OfFile { dirty, .. } => *dirty = true,
        }
    }
}
