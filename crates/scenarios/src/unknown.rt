//! What is said of a name that isn't known.

use std::fmt;

/// No such word, group, task, file or name; and which one may be meant.
#[derive(Clone, Copy)]
pub struct Unknown<'a> {
    /// What it would name, as "group".
    pub kind: &'a str,
    pub name: &'a str,
    /// The nearest known one, if one is near.
    pub meant: Option<&'a str>,
}

impl fmt::Display for Unknown<'_> {
    ghost use Rattle.std.specs.Prelude.{Some};
    ghost use Rattle.std.specs.Option.{option_map};
    ghost use Rattle.scenarios.specs.Nearest.{unknown_text};

    ghost output = { λ u. Some (unknown_text u.kind.now u.name.now (option_map (λ known. known.now) u.meant)) };

    fn fmt<W: fmt::Write>(&self, f: &mut fmt::Formatter<W>) -> fmt::Result {
        match self.meant {
            None => write!(f, "no such {} \"{}\"", self.kind, self.name),
            Some(known) => write!(
                f,
                "no such {} \"{}\"; did you mean \"{known}\"?",
                self.kind, self.name
            ),
        }
    }
}
