//! Numbers and sizes of scenarios, as people read them.
#![tactic(auto)]

ghost use Rattle.std.specs.Prelude.{◌≡◌, ◌-◌, ◌*◌, ◌^◌, min};

use drafts::Draft;
use scenario_words::amount::PageSize;

const SCALES: [u64; 7] = [
    1_000_000_000_000_000_000,
    1_000_000_000_000_000,
    1_000_000_000_000,
    1_000_000_000,
    1_000_000,
    1_000,
    1,
];

/// Bytes of the smallest page whose sizes are shown in MiB.
const MIB_PAGE: u64 = 65_536;

/// Adds a number, with a comma before each three digits.
pub fn add_number(text: &mut Draft, number: u64) {
    let mut begun = false;
    for scale in SCALES {
        let part = number.checked_div(scale).unwrap_or(0) % 1_000;
        if begun {
            write!(text, ",{part:03}");
        } else if part > 0 || scale == 1 {
            text.number(part);
            begun = true;
        }
    }
}

/// The unit of sizes.
#[derive(Clone, Copy)]
pub enum Unit {
    /// 2^20 bytes
    Mib,
    /// 2^10 bytes
    Kib,
}

impl Unit {
    /// The unit for pages of this size: MiB if they have 64K or more, else KiB.
    pub fn of(page: PageSize) -> Unit {
        if page.bytes >= MIB_PAGE {
            Unit::Mib
        } else {
            Unit::Kib
        }
    }

    /// Its name, as sizes have it.
    pub fn name(self) -> &'static str {
        match self {
            Unit::Mib => "MiB",
            Unit::Kib => "KiB",
        }
    }
}

/// Tenths of a MiB, rounded to the nearest. A tie is rounded to the even one.
fn tenths(bytes: u64) -> u64 {
    let eighths = bytes / MIB_PAGE * 5;
    let whole = eighths / 8;
    let rest = eighths % 8;
    if rest > 4 || (rest == 4 && whole % 2 == 1) {
        whole + 1
    } else {
        whole
    }
}

/// Bytes of so many pages, or 2^64 - 1 if they have more.
pub fn bytes_of(page: PageSize, pages: u64) -> u64
    ensures { result ≡ min (pages * page.bytes) (2 ^ 64 - 1) }
{
    pages.saturating_mul(page.bytes)
}

/// Adds the size of so many pages, without the unit.
pub fn add_size(text: &mut Draft, page: PageSize, pages: u64) {
    let bytes = bytes_of(page, pages);
    match Unit::of(page) {
        Unit::Kib => add_number(text, bytes / 1_024),
        Unit::Mib => {
            let tenths = tenths(bytes);
            add_number(text, tenths / 10);
            text.text(".");
            text.number(tenths % 10);
        }
    }
}

/// Adds the size of so many pages, with the unit.
pub fn add_size_in_unit(text: &mut Draft, page: PageSize, pages: u64) {
    add_size(text, page, pages);
    text.text(" ");
    text.text(Unit::of(page).name());
}

/// Adds spaces up to a width, after a text with so many characters.
pub fn add_gap(text: &mut Draft, width: usize, characters: usize) {
    for _ in characters..width {
        text.text(" ");
    }
}

/// Adds a cell at the right of a column of this width.
pub fn add_cell(text: &mut Draft, width: usize, cell: &str) {
    add_gap(text, width, cell.chars().count());
    text.text(cell);
}

/// The same with a cell that was written as a draft.
pub fn add_drafted_cell(text: &mut Draft, width: usize, cell: &Draft) {
    add_gap(text, width, cell.characters());
    text.add(cell);
}
