//! Which lists of files are possible.

use files::blocks_for;
use machine::config::{Config, File, FileList, Placement, Watermarks};
use machine::page_size::PageSize;
use machine::text::Text;
use std::alloc::{AllocError, Global};

fn add(alloc: Global, files: &mut FileList, name: &str, pages: u32) -> Result<(), AllocError> {
    let name = Text::new(String::from_str(alloc, name)?);
    files.push(File { name, pages })
}

/// This number of files of one page each, named f0, f1 and so on.
fn many(alloc: Global, count: u32) -> Result<FileList, AllocError> {
    let mut files = FileList::new(alloc);
    for number in 0..count {
        let name = Text::new(format!(in alloc; "f{number}")?);
        files.push(File { name, pages: 1 })?;
    }
    Ok(files)
}

/// How many blocks a machine with this swap and these files needs.
fn blocks(swap: u32, files: FileList) -> Option<u32> {
    blocks_for(&Config {
        frames: 1,
        swap,
        files,
        watermarks: Watermarks { low: 0, high: 0 },
        trace: 1,
        turns: 1000,
        recursive: false,
        placement: Placement::Own,
        page_size: PageSize::of_4k(),
    })
}

/// How many blocks a machine needs with this swap, and files of these names and numbers of pages.
fn needed(alloc: Global, swap: u32, rows: &[(&str, u32)]) -> Result<Option<u32>, AllocError> {
    let mut files = FileList::new(alloc);
    for (name, pages) in rows {
        add(alloc, &mut files, name, *pages)?;
    }
    Ok(blocks(swap, files))
}

/// The same with this number of files of one page each.
fn of_many(alloc: Global, count: u32) -> Result<Option<u32>, AllocError> {
    Ok(blocks(2, many(alloc, count)?))
}

/// The swap, the files, and how many blocks are needed, if this is possible.
const LISTS: &[(u32, &[(&str, u32)], Option<u32>)] = &[
    // Names at their limits.
    (0, &[("abcdefghijklmnopqrstuvwxyz.-_123", 1)], Some(1)),
    (0, &[("abcdefghijklmnopqrstuvwxyz.-_1234", 1)], None),
    (0, &[("", 1)], None),
    (0, &[("a/b", 1)], None),
    (0, &[("..", 1)], None),
    (0, &[("...", 1)], Some(1)),
    // No two files have one name.
    (0, &[("f0", 1), ("f1", 1), ("f2", 1), ("f", 1)], Some(4)),
    (0, &[("f0", 1), ("f1", 1), ("f2", 1), ("f1", 1)], None),
    // At most 131,072 blocks, of which 65,536 are of swap, and no empty file.
    (65_536, &[("a", 65_535), ("b", 1)], Some(131_072)),
    (65_536, &[("a", 65_535), ("b", 2)], None),
    (0, &[("a", 131_071), ("b", 1)], Some(131_072)),
    (1, &[("a", 131_071), ("b", 1)], None),
    (1, &[("a", 4_294_967_295), ("b", 1)], None),
    (1, &[("a", 1), ("b", 4_294_967_295)], None),
    (1, &[("a", 1), ("b", 0)], None),
    (65_537, &[("a", 1), ("b", 1)], None),
];

#[test]
fn names_and_sizes_at_their_limits(rt: HostRuntime) {
    for (at, (swap, files, wanted)) in LISTS.iter().enumerate() {
        assert_eq!(rt; needed(rt.alloc(), *swap, files), Ok(*wanted), "list {at}");
    }
}

#[test]
fn at_most_64_files(rt: HostRuntime) {
    let alloc = rt.alloc();
    assert_eq!(rt;
        [of_many(alloc, 0), of_many(alloc, 64), of_many(alloc, 65)],
        [Ok(Some(2)), Ok(Some(66)), Ok(None)]
    );
}
