//! Paths of groups, by their true names.

ghost use Rattle.std.specs.Prelude.{◌≡◌, ◌∷◌, [], ◌++◌, ◌==◌, ◌↔◌, ◌<◌, List, ℕ, IsTrue, IfOk, length};
ghost use Rattle.std.specs.List.{list_all, slice_split};
ghost use Rattle.machine.specs.Names.{is_slash};
ghost use Rattle.scenario_words.specs.Faults.{Gives};
ghost use Rattle.scenario_words.specs.Paths.{begins_with, same_path, is_below, has_parent, is_group_name, path_behind, path_in, is_path};

use crate::fault::{Cause, ExpandError};
use crate::word::Filled;
use machine::text::Text;
use std::alloc::{AllocError, Global};
use std::marker::Model;

/// A group: its names from the root down.
#[derive(Drop)]
pub struct Path {
    pub names: Vec<Text>,
}

impl Model for Path {
    ghost use Rattle.std.specs.Prelude.{ℕ, List};

    ghost Value = { List (List ℕ) };

    ghost view = { λ p. p.names.items };
}

/// Whether names begin with others.
fn begins_with(names: &[Text], others: &[Text]) -> bool
    ensures { result ≡ begins_with names.now others.now }
{
    let mut rest = names;
    for other in others {
        match rest.split_first() {
            None => return false,
            Some((name, more)) => {
                if other.as_str() != name.as_str() {
                    return false;
                }
                rest = more;
            }
        }
    }
    true
}

impl Path {
    pub fn is_root(&self) -> bool
        ensures { result ≡ (length self.now == 0) }
    {
        self.names.is_empty()
    }

    pub fn is(&self, other: &Path) -> bool
        ensures test { result ≡ same_path self.now other.now }
        ensures same { IsTrue result ↔ (self.now ≡ other.now) }
    {
        self.names.len() == other.names.len()
            && begins_with(self.names.as_slice(), other.names.as_slice())
    }

    /// Whether it is below another.
    pub fn is_below(&self, other: &Path) -> bool
        ensures test { result ≡ is_below self.now other.now }
        ensures longer { IsTrue result ↔ ((n : List ℕ) × (ns : List (List ℕ)) × (self.now ≡ other.now ++ n ∷ ns)) }
    {
        other.names.len() < self.names.len()
            && begins_with(self.names.as_slice(), other.names.as_slice())
    }

    /// Whether another is its parent.
    pub fn has_parent(&self, other: &Path) -> bool
        ensures test { result ≡ has_parent self.now other.now }
        ensures longer { IsTrue result ↔ ((n : List ℕ) × (self.now ≡ other.now ++ n ∷ [])) }
    {
        other.names.len() == self.names.len().saturating_sub(1) && self.is_below(other)
    }

    pub fn copy(&self, alloc: Global) -> Result<Path, AllocError>
        ensures { IfOk result (λ p. p ≡ self.now) }
    {
        let mut names = Vec::new(alloc);
        for name in &self.names {
            names.push(name.copy(alloc)?)?;
        }
        Ok(Path { names })
    }
}

pub(crate) fn is_group_name(name: &str) -> bool
    ensures { result ≡ is_group_name name.now }
{
    !name.is_empty() && name != "." && name != ".."
}

fn all_group_names(text: &str) -> bool
    ensures { result ≡ list_all is_group_name (slice_split is_slash text.now) }
{
    text.split('/').all(|name| is_group_name(name))
}

/// The texts between slashes.
fn split_names(alloc: Global, text: &str) -> Result<Vec<Text>, AllocError>
    ensures { IfOk result (λ names. names.items ≡ slice_split is_slash text.now) }
{
    let mut names = Vec::new(alloc);
    for name in text.split('/') {
        names.push(Text::new(String::from_str(alloc, name)?))?;
    }
    Ok(names)
}

/// The path of a word whose text has this after its first slash.
fn path_behind(alloc: Global, word: &Filled, rest: &str) -> Result<Path, ExpandError>
    ensures { Gives (λ x. x) result (path_behind word.now rest.now) }
{
    if rest.is_empty() {
        return Ok(Path {
            names: Vec::new(alloc),
        });
    }
    if !all_group_names(rest) {
        return Err(word.fault(Cause::Path));
    }
    Ok(Path {
        names: split_names(alloc, rest)?,
    })
}

/// The path that a word is.
#[tactic(auto, unfolding(crate::specs::Paths::path_in))]
pub fn path_of(alloc: Global, word: &Filled) -> Result<Path, ExpandError>
    ensures { Gives (λ x. x) result (path_in word.now) }
{
    match word.text().strip_prefix('/') {
        None => Err(word.fault(Cause::Path)),
        Some(rest) => path_behind(alloc, word, rest),
    }
}

/// Whether a word begins as paths do.
pub fn is_path(word: &Filled) -> bool
    ensures { result ≡ is_path word.now }
{
    word.text().starts_with('/')
}
