//! Which groups rows are of.

use crate::asked::Asked;
use crate::levels::levels_below;
use crate::telling::add_true_path;
use book::Book;
use drafts::Draft;
use machine::text::Text;
use scenario_pictures::Chosen;
use scenario_words::names::Names;
use std::alloc::{AllocError, Global};

/// The groups that rows are of, in the order in which they were made.
#[derive(Drop)]
pub struct Choice {
    /// How many paths were looked at.
    seen: usize,
    pub all: Vec<Chosen>,
}

/// Whether a path is no more levels below a group's than these.
fn is_near(path: &str, group: &str, levels: u32) -> bool {
    match levels_below(path, group) {
        None => false,
        Some(below) => below as u64 <= u64::from(levels),
    }
}

/// Whether rows are of the group with this true path. Without named groups they are of all but the root.
fn is_chosen(asked: &Asked<'_>, path: &str) -> bool {
    let groups = asked.groups;
    if groups.is_empty() {
        return path != "/" && is_near(path, "/", asked.depth.unwrap_or(u32::MAX));
    }
    for group in groups {
        if is_near(path, group, asked.depth.unwrap_or(0)) {
            return true;
        }
    }
    false
}

impl Choice {
    pub fn new(alloc: Global) -> Choice {
        Choice {
            seen: 0,
            all: Vec::new(alloc),
        }
    }

    /// Looks at the paths that are new. The first one is the root's, which is chosen too if it is the only one.
    pub fn look(
        &mut self,
        alloc: Global,
        asked: &Asked<'_>,
        names: &Names,
        paths: &[Text],
    ) -> Result<(), AllocError> {
        let groups = asked.groups;
        let is_alone = paths.len() == 1 && groups.is_empty();
        for script in paths.get(self.seen..).unwrap_or(&[]) {
            let mut path = Draft::new(alloc);
            add_true_path(&mut path, names, script.as_str());
            let path = path.finish()?;
            if is_alone || is_chosen(asked, path.as_str()) {
                let script = script.copy(alloc)?;
                self.all.push(Chosen {
                    script,
                    path,
                    peak: 0,
                })?;
            }
        }
        self.seen = paths.len();
        Ok(())
    }

    /// Notes what the groups are charged with now.
    pub fn note_peaks(&mut self, book: &Book) {
        for chosen in self.all.iter_mut() {
            if let Some(look) = book.look(chosen.script.as_str()) {
                chosen.peak = look.usage.max(chosen.peak);
            }
        }
    }

    /// A row was made.
    pub fn clear_peaks(&mut self) {
        for chosen in self.all.iter_mut() {
            chosen.peak = 0;
        }
    }

    /// The first group that was asked for and that no path is of.
    pub fn missing<'g>(&self, asked: &Asked<'g>) -> Option<&'g str> {
        let groups = asked.groups;
        for group in groups {
            if !self.all.iter().any(|chosen| chosen.path.as_str() == *group) {
                return Some(*group);
            }
        }
        None
    }
}
