//! What is perhaps meant by a word.

use crate::paths::add_path;
use scenario_lines::scene::Scene;
use scenario_words::word::is_language;
use scenarios::nearest::nearest;
use std::alloc::{AllocError, Global};

/// Words that a line begins with, if it is not a task's.
const COMMANDS: [&str; 23] = [
    "group",
    "set",
    "reclaim",
    "rmdir",
    "task",
    "attach",
    "daemon",
    "let",
    "raw",
    "show",
    "mark",
    "expect",
    "repeat",
    "together",
    "end",
    "memory",
    "swap",
    "page",
    "watermarks",
    "file",
    "fault",
    "protection",
    "placement",
];

/// A name is suggested only if it is one of so many tasks that were started first.
const MOST_SUGGESTED: u32 = 1_000;

/// The first of these words that is nearest to a word, if one is near.
pub fn near_word(alloc: Global, word: &str, known: &[&str]) -> Result<Option<String>, AllocError> {
    let Some(place) = nearest(alloc, word, known)? else {
        return Ok(None);
    };
    match known.get(place) {
        None => Ok(None),
        Some(near) => Ok(Some(String::from_str(alloc, near)?)),
    }
}

/// The same for texts, and then the words of a second list.
fn near_text(
    alloc: Global,
    word: &str,
    texts: &[String],
    words: &[&str],
) -> Result<Option<String>, AllocError> {
    let mut known = Vec::new(alloc);
    for text in texts {
        known.push(text.as_str())?;
    }
    for other in words {
        known.push(*other)?;
    }
    near_word(alloc, word, known.as_slice())
}

/// The group that is perhaps meant by a path.
pub fn near_group(alloc: Global, scene: &Scene, path: &str) -> Result<Option<String>, AllocError> {
    let mut paths = Vec::new(alloc);
    for group in scene.groups() {
        let mut text = String::new(alloc);
        add_path(&mut text, group.names.as_slice())?;
        paths.push(text)?;
    }
    near_text(alloc, path, paths.as_slice(), &[])
}

/// Whether a name has to be in quotes.
fn needs_quotes(name: &str) -> bool {
    is_language(name) || name.contains(|c: char| " \t#{}[]".contains(c))
}

/// Adds the name of a task as a scenario writes it.
fn add_name(text: &mut String, name: &str, index: Option<u64>) -> Result<(), AllocError> {
    if needs_quotes(name) {
        write!(text, "\"{name}\"")?;
    } else {
        text.push_str(name)?;
    }
    match index {
        None => Ok(()),
        Some(index) => write!(text, "[{index}]"),
    }
}

/// The names of the tasks so far.
fn names_of(alloc: Global, scene: &Scene) -> Result<Vec<String>, AllocError> {
    let mut names = Vec::new(alloc);
    for task in 1..scene.tasks.count().min(MOST_SUGGESTED).saturating_add(1) {
        if let Some((name, index)) = scene.tasks.name_of(task) {
            let mut text = String::new(alloc);
            add_name(&mut text, name, index)?;
            names.push(text)?;
        }
    }
    Ok(names)
}

/// The task that is perhaps meant by a word; or the word of a command, if a line begins with it.
pub fn near_task(
    alloc: Global,
    scene: &Scene,
    word: &str,
    begins: bool,
) -> Result<Option<String>, AllocError> {
    if scene.tasks.has_name(word) {
        return Ok(Some(format!(in alloc; "{word}[*]")?));
    }
    let names = names_of(alloc, scene)?;
    if begins {
        near_text(alloc, word, names.as_slice(), COMMANDS.as_slice())
    } else {
        near_text(alloc, word, names.as_slice(), &[])
    }
}
