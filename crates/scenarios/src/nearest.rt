//! The nearest of known words, for what is said of a word that isn't known.

ghost use Rattle.std.specs.Prelude.{◌≡◌, length, IfOk};
ghost use Rattle.std.specs.Str.{chars};
ghost use Rattle.scenarios.specs.Nearest.{is_near, near_edits, nearer, texts, IsNearest};

use std::alloc::{AllocError, Global};
use strsim::osa_distance;

fn characters(word: &str) -> usize
    ensures { result ≡ length (chars word.now) }
{
    word.chars().count()
}

fn is_near(word: &str, count: usize) -> bool
    ensures { result ≡ is_near word.now count }
{
    count <= 2 && 2 * count < characters(word)
}

/// How many edits lead from a word to a known one, if so few that it may be meant.
fn near_edits(alloc: Global, word: &str, known: &str) -> Result<Option<usize>, AllocError>
    ensures { IfOk result (λ count. count ≡ near_edits word.now known.now) }
{
    let count = osa_distance(alloc, word, known)?;
    if is_near(word, count) {
        Ok(Some(count))
    } else {
        Ok(None)
    }
}

fn nearer(
    best: Option<(usize, usize)>,
    place: usize,
    count: Option<usize>,
) -> Option<(usize, usize)>
    ensures { result ≡ nearer best place count }
{
    match (best, count) {
        (_, None) => best,
        (None, Some(count)) => Some((place, count)),
        (Some(found), Some(count)) => {
            if count < found.1 {
                Some((place, count))
            } else {
                Some(found)
            }
        }
    }
}

/// The place of the known word that is nearest to a word, if one is near: two edits away at most, and less than half of the
/// word's characters. Two neighbours that are swapped are one edit. Of several that are as near it is the first.
pub fn nearest(alloc: Global, word: &str, known: &[&str]) -> Result<Option<usize>, AllocError>
    ensures { IfOk result (IsNearest word.now (texts known.now)) }
{
    let mut best = None;
    for (place, name) in known.iter().enumerate() {
        best = nearer(best, place, near_edits(alloc, word, name)?);
    }
    match best {
        None => Ok(None),
        Some((place, _)) => Ok(Some(place)),
    }
}
