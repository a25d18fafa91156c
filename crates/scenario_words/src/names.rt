//! Names of the script, for those of the scenario that a script can't have.

ghost use Rattle.std.specs.Prelude.{◌≡◌, ℕ, ◌<◌, ◌^◌, ◌++◌, List, [], true, Some, length, position, IfSome, OnOk};
ghost use Rattle.std.specs.String.{string_bytes};
ghost use Rattle.std.specs.Str.{bytes_eq};
ghost use Rattle.scenario_words.specs.Names.{is_own, script_name, mentioned, path_text, is_mentioned, true_name};

use machine::text::Text;
use std::alloc::{AllocError, Global};
use std::marker::Model;
use text_forms::name::is_name;
use text_forms::number::number_of;

/// The names that a script can't have, in the order of their first mention.
#[derive(Drop)]
pub struct Names {
    others: Vec<Text>,
}

impl Model for Names {
    ghost use Rattle.std.specs.Prelude.{ℕ, List};

    ghost Value = { List (List ℕ) };

    ghost view = { λ n. n.others.items };
}

/// Whether a script has a name as it is.
pub fn is_own(name: &str) -> bool
    ensures { result ≡ is_own name.now }
{
    is_name(name) && !name.starts_with("_x")
}

impl Names {
    /// None yet.
    pub fn new(alloc: Global) -> Names
        ensures { result ≡ [] }
    {
        Names {
            others: Vec::new(alloc),
        }
    }

    /// The place of a name among them.
    fn place_of(&self, name: &str) -> Option<usize>
        ensures place { result ≡ position (λ n. bytes_eq n name.now) self.now }
        ensures within { IfSome result (λ place. place < length self.now) }
    {
        self.others.iter().position(|other| other.as_str() == name)
    }

    /// A name is mentioned: it is the last of those that a script can't have, if it is one and new.
    pub fn mention(&mut self, alloc: Global, name: &str) -> Result<(), AllocError>
        ensures { OnOk result (self.new ≡ mentioned self.old name.now) }
    {
        if is_own(name) {
            return Ok(());
        }
        match self.place_of(name) {
            Some(_) => Ok(()),
            None => {
                let name = Text::new(String::from_str(alloc, name)?);
                self.others.push(name)?;
                Ok(())
            }
        }
    }

    /// Adds the script's name of a name.
    pub fn add_name(&self, text: &mut String, name: &str) -> Result<(), AllocError>
        ensures { OnOk result (string_bytes text.new ≡ string_bytes text.old ++ script_name self.now name.now) }
    {
        if is_own(name) {
            return text.push_str(name);
        }
        let number = match self.place_of(name) {
            Some(place) => place + 1,
            None => self.others.len() + 1,
        };
        write!(text, "_x{number}")
    }

    /// The true name of a script's name.
    pub fn true_name<'n>(&'n self, name: &'n str) -> &'n str {
        let number = match name.strip_prefix("_x") {
            None => None,
            Some(digits) => number_of(digits),
        };
        let Some(number) = number else {
            return name;
        };
        match self.others.get((number as usize).saturating_sub(1)) {
            None => name,
            Some(other) => other.as_str(),
        }
    }

    /// Adds the script's path of these names, from the root down.
    pub fn add_path(&self, text: &mut String, path: &[Text]) -> Result<(), AllocError>
        ensures { OnOk result (string_bytes text.new ≡ string_bytes text.old ++ path_text self.now path.now) }
    {
        if path.is_empty() {
            return text.push('/');
        }
        for name in path {
            text.push('/')?;
            self.add_name(text, name.as_str())?;
        }
        Ok(())
    }
}

/// A law: each name of the script belongs to one name of the scenario, and no later mention changes it.
pub fn names_stay_apart()
    ensures back { (others : List (List ℕ)) (name : List ℕ) → length others < 2 ^ 64 → is_mentioned others name ≡ true → true_name others (script_name others name) ≡ Some name }
    ensures apart { (others : List (List ℕ)) (a b : List ℕ) → length others < 2 ^ 64 → is_mentioned others a ≡ true → is_mentioned others b ≡ true → script_name others a ≡ script_name others b → a ≡ b }
    ensures kept { (others : List (List ℕ)) (name later : List ℕ) → is_mentioned others name ≡ true → script_name (mentioned others later) name ≡ script_name others name }
{}
