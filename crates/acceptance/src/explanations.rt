//! What else is said of a fault, and why lines are refused, for scripts that no file of cases can have.

use crate::case::{explains, explains_refusals};

#[test]
fn a_byte_that_is_no_text_and_a_mark_of_the_encoding_are_named(rt: HostRuntime) {
    explains(
        &rt,
        "a byte that no character has",
        b"group /a\nfoo\xff\n",
        "case:2: not text\nbyte 4 of the line, 0xff, is not valid UTF-8\n",
    );
    explains(
        &rt,
        "a character that is cut off",
        b"# \xc3\n",
        "case:1: not text\nbyte 3 of the line, 0xc3, is not valid UTF-8\n",
    );
    explains(
        &rt,
        "a mark of UTF-8",
        b"\xef\xbb\xbfgroup /a\n",
        "case:1: unknown word\nword 1 (\"\\u{feff}group\") begins with a byte order mark; save the script without it\n",
    );
    let utf16 = "case:1: not text\nthe script is UTF-16; save it as UTF-8\n";
    explains(
        &rt,
        "a mark of UTF-16, low byte first",
        b"\xff\xfeg\0\n\0",
        utf16,
    );
    explains(
        &rt,
        "a mark of UTF-16, high byte first",
        b"\xfe\xff\0g\0\n",
        utf16,
    );
}

#[test]
fn control_characters_are_written_out(rt: HostRuntime) {
    explains(
        &rt,
        "a carriage return at the end of the last line",
        b"frames 4\r",
        "case:1: bad number\nword 2 (\"4\\r\") is not a number from 1 to 65536\n",
    );
    explains(
        &rt,
        "a vertical tab",
        b"group\x0b/a\n",
        "case:1: unknown word\nword 1 (\"group\\u{b}/a\") is not a command; a line begins with a task's number, group, rmdir, task, attach, set, cat, prot, lowprot, daemon, begin, step, finish, go or a word of the header\n",
    );
    explains(
        &rt,
        "an escape sequence",
        b"group /\x1b[1m\n",
        "case:1: bad name\nword 2 (\"/\\u{1b}[1m\") is not a group's path: it has the character '\\u{1b}'; names have A-Z a-z 0-9 . _ and - only\n",
    );
    explains_refusals(
        &rt,
        "an escape sequence in an amount",
        "group /a\nset /a memory.max \u{1b}[1m\n",
        "error EINVAL\n",
        "case:2: set /a memory.max \\u{1b}[1m: EINVAL, \"\\u{1b}[1m\" is not an amount; write max, or bytes such as 4096, 64K, 64M, 64G or 64T, with no leading zero\n",
    );
}
