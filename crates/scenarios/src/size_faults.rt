//! What is said of a word that is no size.

use crate::sizes::{SizeFault, short_unit};
use std::fmt;

/// What is wrong with a word that is no size, and what to write.
#[derive(Clone, Copy)]
pub struct SizeFaultText<'a> {
    pub word: &'a str,
    pub fault: SizeFault,
}

impl fmt::Display for SizeFaultText<'_> {
    ghost use Rattle.std.specs.Prelude.{Some};
    ghost use Rattle.scenarios.specs.SizeFaultTexts.{size_fault_text};

    ghost output = { λ t. Some (size_fault_text t.word.now t.fault) };

    fn fmt<W: fmt::Write>(&self, f: &mut fmt::Formatter<W>) -> fmt::Result {
        let word = self.word;
        match self.fault {
            SizeFault::NotSize => write!(
                f,
                "\"{word}\" is not a size; write a number with K, M, G or T, or 7p for 7 pages"
            ),
            SizeFault::TooLarge => write!(
                f,
                "the size \"{word}\" is above 1048576T or 4294967295p; write a smaller one"
            ),
            SizeFault::LongUnit => write!(
                f,
                "\"{word}\" is not a size; write {}",
                short_unit(word)
            ),
            SizeFault::Unlimited => write!(f, "\"{word}\" is not a size; write max"),
            SizeFault::Percent => write!(
                f,
                "\"{word}\" is not a size; write the amount itself, as 64M"
            ),
        }
    }
}
