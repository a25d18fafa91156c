//! What is seen of a run: its answers, why tasks are killed, and which page the device could not move.

ghost use Rattle.std.specs.Prelude.{◌≡◌, ◌++◌, List};
ghost use Rattle.machine.specs.declared.command.Reply.{Reply as Told_by};

use book::Book;
use driver::{Answer, Closed, FailedCall, Reply, Sink};
use machine::amount::Amount;
use machine::event::Cause;
use machine::id::GroupId;
use machine::text::Text;
use scenario_reports::causes::{Doomed, Unmoved, path_at};
use std::alloc::{AllocError, Global};

/// Keeps the answers of an entry, why tasks were killed, and which page could not be moved.
#[derive(Drop)]
pub struct Watch {
    /// The script's paths of all groups that were ever made, the root first.
    paths: Vec<Text>,
    answers: Vec<Reply>,
    /// The relief that was asked for last.
    doomed: Option<Doomed>,
    /// For each kill of the answers, its relief.
    kills: Vec<Option<Doomed>>,
    /// The last failed call of the entry.
    unmoved: Option<Unmoved>,
}

/// The place of the group with this number among the paths.
fn place_of(paths: &[Text], book: &Book, group: GroupId) -> Option<usize> {
    for (place, path) in paths.iter().enumerate() {
        if let Some(look) = book.look(path.as_str()) {
            if look.number == group.0 {
                return Some(place);
            }
        }
    }
    None
}

/// Finds the groups of a kill.
fn find_groups(doomed: &mut Doomed, paths: &[Text], book: &Book) {
    doomed.limit = place_of(paths, book, doomed.victim.limit);
    if let Some(group) = doomed.victim.group {
        doomed.group = place_of(paths, book, group);
    }
    if let Some(place) = doomed.limit {
        if let Some(path) = paths.get(place) {
            if let Some(look) = book.look(path.as_str()) {
                doomed.max = look.max;
            }
        }
    }
}

/// Finds the groups of all kills.
fn find_all_groups(kills: &mut Vec<Option<Doomed>>, paths: &[Text], book: &Book) {
    for kill in kills.iter_mut() {
        if let Some(doomed) = kill {
            find_groups(doomed, paths, book);
        }
    }
}

fn is_kill(answer: &Answer) -> bool {
    match answer {
        Answer::Kill(_)
        | Answer::KillAll {
            victim: _,
            tasks: _,
        } => true,
        _ => false,
    }
}

impl Watch {
    /// Nothing was seen yet.
    pub fn new(alloc: Global) -> Result<Watch, AllocError> {
        let root = Text::new(String::from_str(alloc, "/")?);
        Ok(Watch {
            paths: vec![in alloc; root]?,
            answers: Vec::new(alloc),
            doomed: None,
            kills: Vec::new(alloc),
            unmoved: None,
        })
    }

    /// The group of this path is perhaps made.
    pub fn add_path(&mut self, alloc: Global, path: &Text) -> Result<(), AllocError> {
        if !self
            .paths
            .iter()
            .any(|other| other.as_str() == path.as_str())
        {
            self.paths.push(path.copy(alloc)?)?;
        }
        Ok(())
    }

    /// The paths of all groups that were ever made, the root first.
    pub fn paths(&self) -> &[Text] {
        self.paths.as_slice()
    }

    /// The path at this place.
    pub fn path_at(&self, place: usize) -> &str {
        path_at(self.paths.as_slice(), place)
    }

    /// Another entry begins.
    pub fn clear(&mut self) {
        self.answers.clear();
        self.kills.clear();
        self.unmoved = None;
    }

    /// The answers were seen.
    pub fn clear_answers(&mut self) {
        self.answers.clear();
    }

    pub fn answers(&self) -> &[Reply] {
        self.answers.as_slice()
    }

    /// Why the kill at this place among those of the answers was made.
    pub fn kill_at(&self, place: usize) -> Option<Doomed> {
        match self.kills.get(place) {
            Some(Some(doomed)) => Some(*doomed),
            _ => None,
        }
    }

    /// The page that the device could not move, of the last such call of the entry.
    pub fn unmoved(&self) -> Option<Unmoved> {
        self.unmoved
    }

    /// What a group whose max was lowered is charged with.
    fn usage_of(&self, book: &Book, cause: Cause, group: GroupId) -> u64 {
        match cause {
            Cause::Charge(_) | Cause::Frame => 0,
            Cause::Lower(_) => {
                let Some(place) = place_of(self.paths.as_slice(), book, group) else {
                    return 0;
                };
                match book.look(self.path_at(place)) {
                    None => 0,
                    Some(look) => look.usage,
                }
            }
        }
    }
}

impl Sink for Watch {
    ghost use Rattle.std.specs.Prelude.{◌≡◌, ◌++◌};
    ghost use Rattle.std.proofs.Common.{refl, sym, ap, ◌∙◌, append_assoc, append-nil};

    ghost took = { λ a b xs. b.answers.items ≡ a.answers.items ++ xs };

    ghost failed = { λ a b begun. b.answers.items ≡ a.answers.items };

    ghost saw = { λ a b pasts. Unit {0} };

    fn take(&mut self, _step: usize, reply: Reply) -> Result<(), Closed> {
        if is_kill(&reply.answer) {
            self.kills.push(self.doomed).map_err(|_| Closed)?;
        }
        self.answers.push(reply).map_err(|_| Closed)
    }

    fn look(&mut self, _step: usize, book: &Book) {
        find_all_groups(&mut self.kills, self.paths.as_slice(), book);
    }

    fn see_relief(&mut self, _step: usize, book: &Book, cause: Cause) {
        self.doomed = None;
        let Some(victim) = book.victim(cause) else {
            return;
        };
        let first = book.next_as_large(&victim, victim.task);
        self.doomed = Some(Doomed {
            victim,
            cause,
            usage: self.usage_of(book, cause, victim.limit),
            limit: None,
            group: None,
            max: Amount::Max,
            first_tied: first,
            second_tied: first.and_then(|first| book.next_as_large(&victim, first)),
        });
    }

    fn see_failure(&mut self, _step: usize, book: &Book, call: FailedCall) {
        self.unmoved = match book.page_in_transfer(call.ticket) {
            None => None,
            Some(page) => Some(Unmoved {
                direction: call.direction,
                block: call.block,
                page,
                group: place_of(self.paths.as_slice(), book, page.group),
            }),
        };
    }

    ghost nothing = { λ s. sym (append-nil s.answers.items) };

    ghost more = { λ a b c xs ys first second. second ∙ (ap (λ (rs : List Told_by). rs ++ ys) first ∙ append_assoc a.answers.items xs ys) };

    ghost stays = { λ s. refl };

    ghost unseen = { λ s. tt };

    ghost further = { λ a b c ps qs first second. tt };
}
