//! Which types of a group have a page.

ghost use Rattle.std.specs.Prelude.{◌≡◌};
ghost use Rattle.lru_gen.specs.Filled.{usable, with_flag, joined};

use machine::record::Kind;

/// Whether a group has a page of each type. It is stored apart from the lists, so one look shows whether a group has a
/// page.
#[derive(Clone, Copy)]
pub struct Filled {
    pub anon: bool,
    pub file: bool,
}

impl Filled {
    /// No page of either type.
    pub const NONE: Filled = Filled {
        anon: false,
        file: false,
    };

    /// Whether there is a reclaimable page: a file page, or an anonymous one if a swap block is free.
    pub fn has_usable(self, swap_free: bool) -> bool
        ensures { result ≡ usable swap_free self }
    {
        self.file || (swap_free && self.anon)
    }

    /// Sets whether there is a page of this type.
    pub fn set(&mut self, kind: Kind, to: bool)
        ensures { self.new ≡ with_flag kind to self.old }
    {
        match kind {
            Kind::Anon => self.anon = to,
            Kind::File => self.file = to,
        }
    }

    /// Adds the pages of another group to those of this one.
    pub fn join(&mut self, more: Filled)
        ensures { self.new ≡ joined self.old more }
    {
        self.anon = self.anon || more.anon;
        self.file = self.file || more.file;
    }
}
