//! Why the machine refused a line, if its command and the answer say so.

use crate::run::Run;
use drafts::Draft;
use driver::{Actor, Command, Word};
use expansion::expansion::Expansion;
use explain::{Told, reason_of};
use scenario_reports::commands::{add_refusal, true_command};
use scenario_reports::telling::add_unmoved;
use std::alloc::AllocError;

impl<'p> Run<'p> {
    /// Adds why a command was answered with a word, in brackets.
    pub fn add_why(
        &self,
        expansion: &Expansion<'_>,
        text: &mut Draft,
        actor: Actor,
        command: &Command,
        word: Word,
    ) -> Result<(), AllocError> {
        if word == Word::Io {
            if let Some(unmoved) = self.watch.unmoved() {
                let scene = expansion.scene();
                let makes_room = matches!(command, Command::Access { .. });
                text.text(" (");
                add_unmoved(text, scene, self.watch.paths(), unmoved, makes_room);
                text.text(")");
                return Ok(());
            }
        }
        let command = true_command(self.alloc, expansion.names(), command)?;
        let told = Told {
            actor,
            command: &command,
            line: "",
            number: 0,
            in_turns: false,
            turns: 0,
            alloc: self.alloc,
        };
        if let Some(reason) = reason_of(told, word) {
            text.text(" (");
            add_refusal(text, expansion.scene(), reason);
            text.text(")");
        }
        Ok(())
    }
}
