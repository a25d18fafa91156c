//! What a line stands for: lists of entries that are not written out.

ghost use Rattle.std.specs.Prelude.{◌≡◌, None};
ghost use Rattle.scenario_lines.specs.Acts.{entry_count};

use crate::access::Access;
use machine::command::{Actor, Command};
use machine::text::Text;
use scenario_words::paths::Path;

/// When a list with `until` is cut.
#[derive(Drop)]
pub enum Condition {
    /// Once this task was killed.
    Killed(u32),
    /// Once the charge of a group is this number of pages, or more.
    Current { path: Path, pages: u64 },
}

/// What a line stands for.
#[derive(Drop)]
pub enum Deed {
    /// Accesses of a task, page by page.
    Access(Access),
    /// One command.
    Command(Actor, Command),
    /// A line of the script, by its words.
    Raw(Text),
    /// A `show`, an `expect` or a `mark`, by its words. It is no entry.
    Note(Text),
}

/// A list of entries, which may be cut.
#[derive(Drop)]
pub struct Burst {
    pub deed: Deed,
    pub until: Option<Condition>,
}

impl Burst {
    /// A list that is not cut.
    pub fn new(deed: Deed) -> Burst
        ensures { result ≡ record { deed = deed; until = None } }
    {
        Burst { deed, until: None }
    }

    /// How many entries it has.
    pub fn count(&self) -> u32
        ensures { result ≡ entry_count self.now.deed }
    {
        match &self.deed {
            Deed::Access(access) => access.count(),
            Deed::Command(_, _) | Deed::Raw(_) => 1,
            Deed::Note(_) => 0,
        }
    }
}
