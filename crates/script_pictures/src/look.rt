//! What the rows of a run say of a group.

use book::GroupLook;
use charts::Row;
use machine::amount::Amount;

/// A setting of a group.
#[derive(Clone, Copy, PartialEq, Eq)]
pub enum Setting {
    Max,
    Min,
    Low,
}

impl Setting {
    /// How many pages it is, if it is drawn: a max that limits, and a min or low that protects.
    pub fn pages(self, look: &GroupLook) -> Option<u64> {
        match self {
            Setting::Max => finite(look.max),
            Setting::Min => guarded(look.min),
            Setting::Low => guarded(look.low),
        }
    }
}

fn finite(amount: Amount) -> Option<u64> {
    match amount {
        Amount::Max => None,
        Amount::Pages(pages) => Some(pages),
    }
}

/// How much a min or low protects, if it protects anything.
fn guarded(amount: Amount) -> Option<u64> {
    match amount {
        Amount::Pages(0) => None,
        other => finite(other),
    }
}

/// What is known of the group at this place, if it exists.
pub fn look_of(row: &Row, place: usize) -> Option<GroupLook> {
    row.groups.get(place)?.look
}

/// The most pages that a group was charged with.
pub fn peak_of(rows: &[Row], place: usize) -> u64 {
    let mut peak = 0;
    for row in rows {
        if let Some(look) = look_of(row, place) {
            peak = look.usage.max(peak);
        }
    }
    peak
}

/// The greatest of these settings of a group that is no more than this.
pub fn setting_of(rows: &[Row], place: usize, settings: &[Setting], most: u64) -> Option<u64> {
    let mut greatest = None;
    for row in rows {
        let Some(look) = look_of(row, place) else {
            continue;
        };
        for setting in settings {
            match setting.pages(&look) {
                Some(pages) if pages <= most => {
                    greatest = Some(pages.max(greatest.unwrap_or(0)));
                }
                _ => {}
            }
        }
    }
    greatest
}
