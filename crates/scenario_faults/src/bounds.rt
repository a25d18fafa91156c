//! What is said of a size that is out of its bounds.

use drafts::Draft;
use scenario_amounts::{add_number, bytes_of};
use scenario_words::amount::{PageSize, Purpose, pages_for};
use scenario_words::header::Header;
use scenario_words::word::Filled;
use scenarios::sizes::{Size, read_size};
use std::alloc::{AllocError, Global};

/// The sizes that a page may have.
const PAGES: [u64; 15] = [
    1 << 12,
    1 << 13,
    1 << 14,
    1 << 15,
    1 << 16,
    1 << 17,
    1 << 18,
    1 << 19,
    1 << 20,
    1 << 21,
    1 << 22,
    1 << 23,
    1 << 24,
    1 << 25,
    1 << 26,
];

/// Units, the largest first.
const UNITS: [(u64, char); 4] = [
    (1 << 40, 'T'),
    (1 << 30, 'G'),
    (1 << 20, 'M'),
    (1 << 10, 'K'),
];

/// Pages of the memory, and of the swap, at most.
const MOST_PAGES: u64 = 65_536;

/// Pages of the swap and of all files, at most.
const MOST_BLOCKS: u64 = 131_072;

/// Pages that a line with `next` reads or writes, at most.
const MOST_DRAWS: u64 = 1_000_000;

/// Adds bytes in the largest unit in which they are a whole number.
fn add_bytes(text: &mut Draft, bytes: u64) {
    for (unit, letter) in UNITS {
        let count = bytes.checked_div(unit).unwrap_or(0);
        if count > 0 && count.saturating_mul(unit) == bytes {
            write!(text, "{count}{letter}");
            return;
        }
    }
    text.number(bytes);
}

/// The smallest page of which so many have at least these bytes.
fn page_for(bytes: u64, pages: u64) -> Option<u64> {
    PAGES
        .iter()
        .copied()
        .find(|page| page.saturating_mul(pages) >= bytes)
}

/// The bytes of a size, rounded up.
fn bytes_in(size: Size, page: PageSize) -> u64 {
    match size {
        Size::Bytes { whole, millionths } => {
            if millionths == 0 {
                whole
            } else {
                whole.saturating_add(1)
            }
        }
        Size::Pages(pages) => bytes_of(page, u64::from(pages)),
    }
}

/// The size of a page.
fn add_page(text: &mut Draft, size: Size) {
    let bytes = bytes_in(size, PageSize::of_4k());
    let page = page_for(bytes, 1).unwrap_or(1 << 26);
    text.text("not the size of a page; write ");
    add_bytes(text, page);
    text.text(", or another power of two from 4K to 64M");
}

/// Adds how many pages would be too many.
fn add_most(text: &mut Draft, page: PageSize, most: u64) {
    text.text("more than ");
    add_number(text, most);
    text.text(" pages of ");
    add_bytes(text, page.bytes);
}

/// Adds the page with which so many bytes are few enough pages, if there is one.
fn add_larger(text: &mut Draft, page: Option<u64>) {
    match page {
        None => text.text("; write a smaller size"),
        Some(page) => {
            text.text("; write \"page ");
            add_bytes(text, page);
            text.text("\" in the header, or a smaller size");
        }
    }
}

/// The memory or the swap.
fn add_memory(text: &mut Draft, page: PageSize, size: Size) {
    add_most(text, page, MOST_PAGES);
    text.text(", which are ");
    add_bytes(text, bytes_of(page, MOST_PAGES));
    match size {
        Size::Pages(_) => text.text("; write a smaller size"),
        Size::Bytes { .. } => add_larger(text, page_for(bytes_in(size, page), MOST_PAGES)),
    }
}

/// Pages of the swap and of the files so far.
fn blocks_of(header: &Header) -> u64 {
    let mut blocks = u64::from(header.swap);
    for file in &header.files {
        blocks = blocks.saturating_add(u64::from(file.pages));
    }
    blocks
}

fn add_file(text: &mut Draft, header: &Header, size: Size) {
    let page = header.page;
    add_most(text, page, MOST_BLOCKS);
    text.text(" for the swap and all files");
    let before = bytes_of(page, blocks_of(header));
    let bytes = before.saturating_add(bytes_in(size, page));
    match size {
        Size::Pages(_) => text.text("; write a smaller size"),
        Size::Bytes { .. } => add_larger(text, page_for(bytes, MOST_BLOCKS)),
    }
}

/// What the sizes of lines with this first word are for.
fn purpose_of(first: &str) -> Purpose {
    if first == "memory" || first == "swap" {
        Purpose::Bound
    } else {
        Purpose::Used
    }
}

/// Adds what is wrong with a size of the line with these words, and what to write.
fn add_bound(text: &mut Draft, header: &Header, words: &[Filled], word: &Filled) {
    let Ok(size) = read_size(word.text()) else {
        text.text("this size is out of its bounds");
        return;
    };
    let page = header.page;
    let first = match words.first() {
        None => "",
        Some(first) => first.text(),
    };
    if first == "page" {
        add_page(text, size);
    } else if pages_for(purpose_of(first), size, page) == 0 {
        text.text("less than a page; write at least ");
        add_bytes(text, page.bytes);
    } else if first == "memory" || first == "swap" {
        add_memory(text, page, size);
    } else if first == "file" {
        add_file(text, header, size);
    } else {
        add_most(text, page, MOST_DRAWS);
        text.text(" in one line; write a smaller size");
    }
}

/// The same, added to a text.
pub fn add_bounds(
    alloc: Global,
    text: &mut String,
    header: &Header,
    words: &[Filled],
    word: &Filled,
) -> Result<(), AllocError> {
    let mut draft = Draft::new(alloc);
    add_bound(&mut draft, header, words, word);
    text.push_str(draft.finish()?.as_str())
}
