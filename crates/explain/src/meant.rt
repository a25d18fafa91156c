//! Which known word may be meant by a word that is not known.

use scenarios::nearest::nearest;
use std::alloc::{AllocError, Global};

/// The first words of lines, except a task's number.
const LINE_WORDS: [&str; 21] = [
    "frames",
    "swap",
    "file",
    "watermarks",
    "recursiveprot",
    "page",
    "trace",
    "fault",
    "group",
    "rmdir",
    "task",
    "attach",
    "set",
    "cat",
    "prot",
    "lowprot",
    "daemon",
    "begin",
    "step",
    "finish",
    "go",
];

/// The words after a task's number.
const TASK_WORDS: [&str; 7] = ["read", "write", "fread", "fwrite", "fork", "free", "exit"];

/// The control files.
const FILES: [&str; 9] = [
    "memory.current",
    "memory.max",
    "memory.min",
    "memory.low",
    "memory.oom.group",
    "memory.events",
    "memory.events.local",
    "memory.stat",
    "memory.reclaim",
];

/// The known word that differs in the case of letters alone, or the nearest one if one is near.
fn meant_of(
    alloc: Global,
    word: &str,
    known: &[&'static str],
) -> Result<Option<&'static str>, AllocError> {
    for name in known {
        if word.eq_ignore_ascii_case(name) {
            return Ok(Some(*name));
        }
    }
    match nearest(alloc, word, known)? {
        None => Ok(None),
        Some(place) => Ok(known.get(place).copied()),
    }
}

/// The first word of a line that may be meant. `mkdir` and `echo` are a shell's own words.
pub fn line_word_meant(alloc: Global, word: &str) -> Result<Option<&'static str>, AllocError> {
    match word {
        "mkdir" => Ok(Some("group")),
        "echo" => Ok(Some("set")),
        _ => meant_of(alloc, word, &LINE_WORDS),
    }
}

/// The word of a task that may be meant.
pub fn task_word_meant(alloc: Global, word: &str) -> Result<Option<&'static str>, AllocError> {
    meant_of(alloc, word, &TASK_WORDS)
}

/// The control file that may be meant.
pub fn file_meant(alloc: Global, name: &str) -> Result<Option<&'static str>, AllocError> {
    meant_of(alloc, name, &FILES)
}

/// Whether Linux has a control file of this name that is not modelled.
pub fn is_of_linux(name: &str) -> bool {
    is_of_memory(name) || is_of_core(name)
}

fn is_of_memory(name: &str) -> bool {
    matches!(
        name,
        "memory.high"
            | "memory.peak"
            | "memory.numa_stat"
            | "memory.pressure"
            | "memory.swap.current"
            | "memory.swap.high"
            | "memory.swap.peak"
            | "memory.swap.max"
            | "memory.swap.events"
            | "memory.zswap.current"
            | "memory.zswap.max"
            | "memory.zswap.writeback"
    )
}

fn is_of_core(name: &str) -> bool {
    matches!(
        name,
        "cgroup.type"
            | "cgroup.procs"
            | "cgroup.threads"
            | "cgroup.controllers"
            | "cgroup.subtree_control"
            | "cgroup.events"
            | "cgroup.max.descendants"
            | "cgroup.max.depth"
            | "cgroup.stat"
            | "cgroup.freeze"
            | "cgroup.kill"
            | "cgroup.pressure"
    )
}
