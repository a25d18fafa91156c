//! Texts of scenarios, as they are read; numbers that are drawn, and nearest words.

use scenarios::draws::draw;
use scenarios::fault::ReadError;
use scenarios::holes::{Named, fill, nearest_name};
use scenarios::lines::{Line, LineKind, literal};
use scenarios::nearest::nearest;
use scenarios::parts::{Which, read_names, read_part};
use scenarios::scenario::read;
use scenarios::size_faults::SizeFaultText;
use scenarios::sizes::{Size, read_size};
use scenarios::unknown::Unknown;
use scenarios::words::Word;
use std::alloc::{AllocError, Global};
use std::test::Fail;

/// The line to print for a text's fault, if it has one.
fn said(alloc: Global, text: &[u8]) -> Result<String, Fail> {
    match read(alloc, text) {
        Ok(_) => Ok(String::from_str(alloc, "no fault")?),
        Err(ReadError::Memory) => Ok(String::from_str(alloc, "out of memory")?),
        Err(ReadError::Faulty(fault)) => Ok(format!(in alloc; "{}", fault.text("a"))?),
    }
}

/// The first words of lines, the lines' numbers, and how many are in their blocks.
fn shape(alloc: Global, lines: &[Line]) -> Result<String, Fail> {
    let mut shape = String::new(alloc);
    for line in lines {
        let name = line.words().first().and_then(|word| literal(word));
        let told = format!(in alloc;
            "{}:{}({}) ",
            line.number(),
            name.unwrap_or("?"),
            line.inside()
        )?;
        shape.push_str(told.as_str())?;
    }
    Ok(shape)
}

#[test]
fn blocks_are_counted(rt: HostRuntime) -> Result<(), Fail> {
    let alloc = rt.alloc();
    let text =
        b"# a comment\nmemory 4M\n\nrepeat 3\n  a read\r\n  together # b\n    b read\n  end\nend\nshow\n";
    let Ok(scenario) = read(alloc, text) else {
        return Err("a fault")?;
    };
    let shape = shape(alloc, scenario.lines.as_slice())?;
    assert_eq!(rt;
        shape.as_str(),
        "2:memory(0) 4:repeat(3) 5:a(0) 6:together(1) 7:b(0) 10:show(0) "
    );
    Ok(())
}

const FAULTS: &[(&[u8], &str)] = &[
    (
        b"group /a\ngroup /\xc3\xa4 \"b c\n",
        "a:2:10: a quote is not closed; write the second quote on this line",
    ),
    (
        b"repeat 2\n  show\nend twice\n",
        "a:3:5: nothing may follow \"end\"; remove this word",
    ),
    (
        b"  end\n",
        "a:1:3: no block is open here; remove this \"end\"",
    ),
    (
        b"\n repeat 2\nx read\n",
        "a:2:2: the block has no end; write \"end\" below its last line",
    ),
    (
        b"ab\xff",
        "a:1:3: the line is not UTF-8; save the file as UTF-8",
    ),
];

#[test]
fn faults_are_said(rt: HostRuntime) -> Result<(), Fail> {
    for (text, line) in FAULTS {
        let found = said(rt.alloc(), text)?;
        assert_eq!(rt; found.as_str(), *line);
    }
    Ok(())
}

/// Adds the column of a word, and the word with these values in place of their names.
fn add_filled(alloc: Global, told: &mut String, word: &Word, values: &[Named]) -> Result<(), Fail> {
    let pieces = word.pieces().ok_or("a brace")?;
    let Ok(filled) = fill(alloc, pieces, values) else {
        return Err("no value")?;
    };
    write!(told, "{}:{}|", word.column(), filled.as_str())?;
    Ok(())
}

/// The same for the words of a text's first line, which is no line of a block.
fn filled(alloc: Global, text: &[u8], values: &[Named]) -> Result<String, Fail> {
    let Ok(scenario) = read(alloc, text) else {
        return Err("a fault")?;
    };
    let line = scenario.lines.first().ok_or("no line")?;
    if line.kind() != LineKind::Other {
        return Err("another kind")?;
    }
    let mut told = String::new(alloc);
    for word in line.words() {
        add_filled(alloc, &mut told, word, values)?;
    }
    Ok(told)
}

/// The name `round`, with this word.
fn round(alloc: Global, word: &str) -> Result<Vec<Named>, AllocError> {
    let name = String::from_str(alloc, "round")?;
    let word = String::from_str(alloc, word)?;
    Ok(vec![in alloc; Named::new(name, word)]?)
}

#[test]
fn a_quote_keeps_what_is_in_it(rt: HostRuntime) -> Result<(), Fail> {
    let values = round(rt.alloc(), "12")?;
    let text = b"group /pods/\"a #{b\" x{round}y#z\n";
    let told = filled(rt.alloc(), text, values.as_slice())?;
    assert_eq!(rt; told.as_str(), "1:group|7:/pods/a #{b|21:x12y|");
    Ok(())
}

/// Of each word of a text's first line the columns at which it begins and ends, as it is written, and a `!` if a brace in
/// it belongs to no `{NAME}`.
fn sources(alloc: Global, text: &str) -> Result<String, Fail> {
    let Ok(scenario) = read(alloc, text.as_bytes()) else {
        return Err("a fault")?;
    };
    let Some(line) = scenario.lines.first() else {
        return Err("no line")?;
    };
    let mut told = String::new(alloc);
    for word in line.words() {
        let mark = if word.pieces().is_none() { "!" } else { "" };
        let one = format!(in alloc; "{}-{} {}{mark}|", word.column(), word.end(), word.source())?;
        told.push_str(one.as_str())?;
    }
    Ok(told)
}

const SOURCES: &[(&str, &str)] = &[
    (
        "group  /größe/\"a #b\" {n}# c",
        "1-6 group|8-21 /größe/\"a #b\"|22-25 {n}|",
    ),
    (
        "show a{ {} \"{\" \"b\"} c",
        "1-5 show|6-8 a{!|9-11 {}!|12-15 \"{\"|16-20 \"b\"}!|21-22 c|",
    ),
];

#[test]
fn words_are_kept_as_they_are_written(rt: HostRuntime) -> Result<(), Fail> {
    for (text, words) in SOURCES {
        let found = sources(rt.alloc(), text)?;
        assert_eq!(rt; found.as_str(), *words);
    }
    Ok(())
}

/// How many whole pages of 4096 bytes a size has, and how many have all of it, or what is said of its word.
fn pages(alloc: Global, word: &str) -> Result<String, Fail> {
    match read_size(word) {
        Ok(size) => Ok(format!(in alloc; "{} {}", size.pages_down(4096), size.pages_up(4096))?),
        Err(fault) => Ok(format!(in alloc; "{}", SizeFaultText { word, fault })?),
    }
}

const SIZES: &[(&str, &str)] = &[
    ("1.5M", "384 384"),
    ("4097", "1 2"),
    (
        "0.0000001K",
        "\"0.0000001K\" is not a size; write a number with K, M, G or T, or 7p for 7 pages",
    ),
    ("4.000001K", "1 2"),
    ("7p", "7 7"),
    ("64MiB", "\"64MiB\" is not a size; write 64M"),
    ("-1", "\"-1\" is not a size; write max"),
];

#[test]
fn sizes_are_exact(rt: HostRuntime) -> Result<(), Fail> {
    for (word, wanted) in SIZES {
        let found = pages(rt.alloc(), word)?;
        assert_eq!(rt; found.as_str(), *wanted);
    }
    Ok(())
}

#[test]
fn parts_and_names(rt: HostRuntime) {
    assert!(rt;
        read_part("4096").is_none()
            && matches!(read_part("1..2p"), Some(Ok(part)) if part.from == Size::Bytes { whole: 1, millionths: 0 } && part.to == Size::Pages(2))
    );
    assert_eq!(rt;
        [
            read_names("web"),
            read_names("web[1..30]"),
            read_names("web[*]"),
            read_names("web[2..1]"),
        ],
        [
            Some(("web", Which::Plain)),
            Some(("web", Which::Range(1, 30))),
            Some(("web", Which::All)),
            None,
        ]
    );
}

#[test]
fn unknown_names_are_said(rt: HostRuntime) -> Result<(), Fail> {
    let unknown = Unknown {
        kind: "word",
        name: "gruop",
        meant: Some("group"),
    };
    let said = format!(in rt.alloc(); "{unknown}")?;
    let values = round(rt.alloc(), "")?;
    let found = nearest_name(rt.alloc(), "rond", values.as_slice());
    assert_eq!(rt;
        (said.as_str(), found),
        (
            "no such word \"gruop\"; did you mean \"group\"?",
            Ok(Some(0))
        )
    );
    Ok(())
}

fn first_four(seed: u32) -> [u32; 4] {
    [
        draw(seed, 1, 0, 1000),
        draw(seed, 2, 0, 1000),
        draw(seed, 3, 0, 1000),
        draw(seed, 4, 0, 1000),
    ]
}

#[test]
fn three_seeds_of_the_language(rt: HostRuntime) {
    assert_eq!(rt;
        [first_four(0), first_four(1), first_four(7)],
        [
            [883, 431, 26, 970],
            [566, 745, 971, 444],
            [389, 16, 900, 582]
        ]
    );
}

const KNOWN: [&str; 5] = ["group", "set", "reclaim", "read", "free"];

const NEAREST: &[(&str, Option<usize>)] = &[
    ("gruop", Some(0)),
    ("raed", Some(3)),
    ("reclam", Some(2)),
    ("frea", Some(4)),
    ("sat", Some(1)),
    ("it", None),
    ("rmdir", None),
];

#[test]
fn swapped_and_missing_letters(rt: HostRuntime) {
    for (word, wanted) in NEAREST {
        assert_eq!(rt; nearest(rt.alloc(), word, &KNOWN), Ok(*wanted), "{word}");
    }
}
