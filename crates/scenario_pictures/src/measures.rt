//! How many pages a run has moved.

use drafts::Draft;
use machine::entry::Entry;
use machine::event::Event;
use machine::reply::Reply;
use scenario_amounts::{Unit, add_size};
use scenario_words::amount::PageSize;

/// Pages that were read in, written out and dropped.
#[derive(Clone, Copy, Default)]
pub struct Moved {
    /// From swap or a file.
    pub read: u64,
    /// To swap or a file.
    pub written: u64,
    /// Clean pages of files, which need no transfer.
    pub dropped: u64,
}

/// Counts pages over the entries of a history, each entry once.
#[derive(Clone, Copy, Default)]
pub struct Meter {
    /// How many entries were counted.
    counted: usize,
    moved: Moved,
}

/// Counts one more.
pub fn bump(count: &mut u64) {
    *count = (*count).saturating_add(1);
}

impl Moved {
    fn count(&mut self, entry: &Entry) {
        match &entry.event {
            Event::Arrived {
                ticket: _,
                bytes: _,
            } => bump(&mut self.read),
            Event::Left(_) => bump(&mut self.written),
            _ => {}
        }
        if entry.reply == Reply::Dropped {
            bump(&mut self.dropped);
        }
    }

    /// What was moved since another moment.
    pub fn since(self, then: Moved) -> Moved {
        Moved {
            read: self.read.saturating_sub(then.read),
            written: self.written.saturating_sub(then.written),
            dropped: self.dropped.saturating_sub(then.dropped),
        }
    }

    /// Adds the numbers with their names.
    pub fn add(self, text: &mut Draft, page: PageSize) {
        add_size(text, page, self.read);
        text.text(" ");
        text.text(Unit::of(page).name());
        text.text(" read in, ");
        add_size(text, page, self.written);
        text.text(" written out, ");
        add_size(text, page, self.dropped);
        text.text(" dropped");
    }
}

impl Meter {
    /// What was moved so far, by the entries of the whole history.
    pub fn read(&mut self, entries: &[Entry]) -> Moved {
        let fresh = entries.get(self.counted..).unwrap_or(&[]);
        for entry in fresh {
            self.moved.count(entry);
        }
        self.counted = entries.len();
        self.moved
    }
}
