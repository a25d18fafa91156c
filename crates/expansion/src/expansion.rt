//! The entries that a scenario stands for, one after the other.

ghost use Rattle.std.specs.Prelude.{ℕ, ◌≡◌, ◌<◌, ◌≤◌, ◌+◌, ◌-◌, ◌^◌, ◌||◌, true, not, [], ◌∷◌, ◌++◌, List, length, is_some, option_copied, option_map, min, None, Some, Ok, IfOk, OnOk, IfSome, if◌then◌else◌};
ghost use Rattle.scenario_words.specs.Faults.{Gives, GivesAlways, as_is};
ghost use Rattle.scenario_words.specs.Header.{machine_of};
ghost use Rattle.scenarios.specs.Lines.{opens_block};
ghost use Rattle.scenario_lines.specs.HeaderLines.{header_read};
ghost use Rattle.scenario_lines.specs.LineLists.{line_lists, may_be_refused};
ghost use Rattle.scenario_lines.specs.Scene.{at_first};
ghost use Rattle.expansion.specs.Frames.{FrameNow, repeated, named_round};
ghost use Rattle.expansion.specs.Standings.{after_entry, after_rest};
ghost use Rattle.expansion.specs.Together.{PlacedNow, TogetherNow, list_of};
ghost use Rattle.expansion.specs.Walk.{expanded, Gathered, item_count, item_at, stands, placed_by, lists_gathered};
ghost use Rattle.expansion.specs.ToCome.{known, is_quiet, still, is_said, Steps, Comes, Begins, Works, IsIdle, from_frame, told_last, told_of, waits, item_before, line_item, line_in, one_told, none_told, IsTurnOf, one_turn, repeats, gathering, round_ended, opened_in, with_repeat, with_together, one_gathered, added_in, lists_in, line_gathered, line_queued};

use crate::frames::{Block, Frame};
use crate::together::{Placed, Together, Turn, leave_behind, leave_one, leave_rest};
use machine::command::{Actor, Command};
use machine::text::Text;
use scenario_lines::awaited::{Awaited, awaited_in};
use scenario_lines::burst::{Burst, Condition, Deed};
use scenario_lines::joined::joined;
use scenario_lines::lines::{bursts_of, check_together, may_be_refused};
use scenario_lines::scene::Scene;
use scenario_lines::tasks::{Standing, copy_standings};
use scenario_words::fault::{Cause, ExpandError};
use scenario_words::header::Header;
use scenario_words::names::Names;
use scenario_words::word::{Filled, ends_at, word_at};
use scenarios::holes::Named;
use scenarios::lines::{Line, LineKind};
use scenarios::scenario::Scenario;
use std::alloc::{AllocError, Global};
use std::collections::VecDeque;

/// What comes next.
#[derive(Drop)]
pub enum Item {
    /// An entry of the schedule: a command of the actor, from its beginning to its end.
    Entry(Actor, Command),
    /// A line of the script, by its words.
    Raw(Text),
    /// A `show`, an `expect` or a `mark`, by its words.
    Note(Text),
    /// A list with `until` begins, which the run cuts. Its first entry does not come if the run cuts it here.
    Opened,
    /// A list with `until`, of the line of this number, has ended without being cut by the run.
    Unreached(usize),
}

/// How the lists with `until` are cut.
#[derive(Drop)]
pub enum Cuts {
    /// At these lengths, in their order. The entries end with the longest list of the first one that has no length.
    Given(Vec<u64>),
    /// By the run, which says when a condition holds.
    ByRun,
}

/// A list with `until` that is at work.
#[derive(Drop)]
struct OpenList {
    /// How many entries are left of it, if that is known.
    left: Option<u64>,
    /// Nothing of it comes any more: it was cut.
    cut: bool,
    /// The tasks' marks and places after the entries that are left. The cut sets them.
    standings: Vec<Standing>,
    /// The notes after its last entry. They count if no other entry comes.
    notes: Vec<Placed>,
}

/// The entries and notes of a scenario, in their order. It keeps what is known between two lines, the blocks that are
/// at work, and what the line at work stands for.
#[derive(Drop)]
pub struct Expansion<'p> {
    lines: &'p [Line],
    scene: Scene,
    cuts: Cuts,
    /// How many of the lengths were used.
    used: usize,
    frames: Vec<Frame>,
    rounds: Vec<u32>,
    /// The number of the line at work.
    line: usize,
    queue: VecDeque<Burst>,
    /// What is at work of the line, and how many entries of it were taken.
    current: Option<Burst>,
    taken: u32,
    /// The members of a `together`, while they are gathered, and then while they are worked.
    gathered: Option<Together>,
    together: Option<Together>,
    open: Option<OpenList>,
    /// Notes that come next.
    notes: VecDeque<Placed>,
    /// A list that the run cuts has begun, or has ended without a cut. That comes next.
    opened: bool,
    unreached: Option<usize>,
    /// The words of the line at work.
    words: Vec<Filled>,
    /// The turn of the last item, if it is of lists that are worked together.
    told_turn: Option<Turn>,
    /// The line and the rounds of the last item.
    told_line: usize,
    told_rounds: Vec<u32>,
}

fn copy_rounds(alloc: Global, rounds: &[u32]) -> Result<Vec<u32>, AllocError>
    ensures { IfOk result (λ copy. copy.items ≡ rounds.now) }
{
    Vec::from_slice(alloc, rounds)
}

/// The item of a place of a list: an entry, or the note that it is.
fn item_of(alloc: Global, deed: &Deed, place: u32) -> Result<Item, AllocError>
    requires { place < item_count deed.now }
    ensures { IfOk result (λ item. item ≡ item_at deed.now place) }
{
    match deed {
        Deed::Access(access) => {
            Ok(Item::Entry(Actor::Task(access.task), access.command_at(place)))
        }
        Deed::Command(actor, command) => Ok(Item::Entry(*actor, command.copy(alloc)?)),
        Deed::Raw(words) => Ok(Item::Raw(words.copy(alloc)?)),
        Deed::Note(words) => Ok(Item::Note(words.copy(alloc)?)),
    }
}

impl<'p> Expansion<'p> {
    /// The expansion of a scenario, with these words instead of those of its `let` lines. It reads the header.
    pub fn new(
        alloc: Global,
        scenario: &'p Scenario,
        settings: Vec<Named>,
        cuts: Cuts,
    ) -> Result<Expansion<'p>, ExpandError>
        ensures begins { Begins (expanded scenario.now.lines.items settings.items) result }
        ensures header { IfOk result (λ x. (count : ℕ) × (header_read (at_first settings.items) scenario.now.lines.items ≡ Ok (count, known x))) }
    {
        let mut scene = Scene::new(alloc, settings);
        let lines = scenario.lines.as_slice();
        let begin = scene.read_header(lines)?;
        let frame = Frame::once(alloc, Block::All, begin, lines.len(), scene.values());
        let frames = vec![in alloc; frame]?;
        Ok(Expansion {
            lines,
            scene,
            cuts,
            used: 0,
            frames,
            rounds: Vec::new(alloc),
            line: 0,
            queue: VecDeque::new(alloc),
            current: None,
            taken: 0,
            gathered: None,
            together: None,
            open: None,
            notes: VecDeque::new(alloc),
            opened: false,
            unreached: None,
            words: Vec::new(alloc),
            told_turn: None,
            told_line: 0,
            told_rounds: Vec::new(alloc),
        })
    }

    pub fn header(&self) -> &Header
        ensures { machine_of result.now ≡ (known self.now).machine }
    {
        &self.scene.header
    }

    pub fn names(&self) -> &Names
        ensures { result.now ≡ (known self.now).names }
    {
        &self.scene.names
    }

    pub fn scene(&self) -> &Scene
        ensures { result.now ≡ known self.now }
    {
        &self.scene
    }

    /// The number of the line that the last item is of.
    pub fn line(&self) -> usize
        ensures { result ≡ (told_last self.now).line }
    {
        self.told_line
    }

    /// Its rounds, the outermost first.
    pub fn rounds(&self) -> &[u32]
        ensures { result.now ≡ (told_last self.now).rounds }
    {
        self.told_rounds.as_slice()
    }

    /// The words of the scenario's line that the last item is of, with their quotes.
    pub fn words(&self) -> Result<Text, AllocError>
        ensures { IfOk result (λ words. words ≡ (told_last self.now).words) }
    {
        let alloc = self.scene.alloc;
        if let (Some(together), Some(turn)) = (&self.together, self.told_turn) {
            if let Some(placed) = together.placed(turn) {
                return placed.words.copy(alloc);
            }
        }
        Ok(Text::new(joined(alloc, self.words.as_slice(), 0, true)?))
    }

    /// The `expect refused` lines that are about the last item, the innermost first: each is right after the item's
    /// line, or after a block that the item is in.
    pub fn awaited(&self) -> Result<Vec<Awaited>, ExpandError> {
        let mut found = Vec::new(self.scene.alloc);
        let mut values = self.scene.values();
        for frame in self.frames.iter().rev() {
            if frame.at < frame.end {
                if let Some(line) = self.lines.get(frame.at) {
                    if let Some(awaited) = awaited_in(&self.scene, line, values)? {
                        found.push(awaited)?;
                    }
                }
            }
            values = frame.scope;
        }
        Ok(found)
    }

    /// How many lengths there are that no list has taken.
    pub fn unused_cuts(&self) -> usize {
        match &self.cuts {
            Cuts::Given(lengths) => lengths.len().saturating_sub(self.used),
            Cuts::ByRun => 0,
        }
    }

    /// The condition of the list with `until` that is at work, if its names are there.
    pub fn condition(&self) -> Result<Option<Condition>, ExpandError> {
        if self.open.is_none() {
            return Ok(None);
        }
        for frame in &self.frames {
            if let Some(place) = frame.until {
                let words = frame.words.as_slice();
                let judged = self.scene.condition(words, place.saturating_add(1), None);
                return match judged {
                    Ok(condition) => Ok(Some(condition)),
                    Err(ExpandError::Memory) => Err(ExpandError::Memory),
                    Err(ExpandError::Faulty(_)) => Ok(None),
                };
            }
        }
        self.condition_of_line()
    }

    fn condition_of_line(&self) -> Result<Option<Condition>, ExpandError> {
        let Some(burst) = &self.current else {
            return Ok(None);
        };
        match &burst.until {
            None => Ok(None),
            Some(Condition::Killed(task)) => Ok(Some(Condition::Killed(*task))),
            Some(Condition::Current { path, pages }) => Ok(Some(Condition::Current {
                path: path.copy(self.scene.alloc)?,
                pages: *pages,
            })),
        }
    }

    /// The condition holds: no further entry of the list with `until` comes. If no such list is at work, nothing changes.
    pub fn cut(&mut self)
        ensures same { is_said (still self.old) ≡ true → still self.new ≡ still self.old }
    {
        if let Some(open) = &mut self.open {
            open.left = Some(0);
        }
    }

    /// The length of the next list with `until`, if one is given.
    fn next_length(&mut self) -> Option<u64>
        ensures { self.new.frames ≡ self.old.frames }
    {
        match &self.cuts {
            Cuts::ByRun => None,
            Cuts::Given(lengths) => {
                let length = lengths.get(self.used).copied();
                self.used = self.used.saturating_add(1);
                length
            }
        }
    }

    /// A list with `until` begins.
    fn open_list(&mut self)
        ensures { self.new.frames ≡ self.old.frames }
    {
        let alloc = self.scene.alloc;
        let left = if self.scene.loose {
            None
        } else {
            self.next_length()
        };
        self.opened = !self.ends_openly();
        self.open = Some(OpenList {
            left,
            cut: false,
            standings: Vec::new(alloc),
            notes: Vec::new(alloc),
        });
    }

    /// A list with `until` ends. It is of the line with this number.
    fn close_list(&mut self, line: usize) -> Result<(), ExpandError> {
        let Some(open) = self.open.take() else {
            return Ok(());
        };
        let OpenList {
            left,
            cut,
            standings,
            notes,
        } = open;
        if cut {
            self.scene.tasks.stand(standings);
            return Ok(());
        }
        for note in notes {
            self.notes.push_back(note)?;
        }
        if left.is_none() {
            if self.ends_openly() {
                self.scene.loose = true;
            } else {
                self.unreached = Some(line);
            }
        }
        Ok(())
    }

    /// Whether a list without a length is the last one.
    fn ends_openly(&self) -> bool {
        match &self.cuts {
            Cuts::Given(_) => true,
            Cuts::ByRun => false,
        }
    }

    /// The tasks' marks and places after the entries that are left, if the list is cut here.
    fn left_standings(&mut self) -> Result<Vec<Standing>, AllocError> {
        let alloc = self.scene.alloc;
        let now = copy_standings(alloc, self.scene.tasks.standings())?;
        let Some(together) = &self.together else {
            return Ok(now);
        };
        let Some(before) = &together.before else {
            return Ok(now);
        };
        let before = copy_standings(alloc, before.as_slice())?;
        self.scene.tasks.stand(before);
        together.leave_taken(&mut self.scene.tasks)?;
        let left = copy_standings(alloc, self.scene.tasks.standings())?;
        self.scene.tasks.stand(now);
        Ok(left)
    }

    /// Whether an entry comes, or was cut away.
    fn admit_entry(&mut self) -> Result<bool, ExpandError>
        ensures comes { self.old.open ≡ None → GivesAlways as_is result (not self.old.scene.loose) }
        ensures same { self.old.open ≡ None → OnOk result (self.new ≡ self.old) }
    {
        if self.scene.loose {
            return Ok(false);
        }
        let cuts_here = match &self.open {
            None => return Ok(true),
            Some(open) => {
                if open.cut {
                    return Ok(false);
                }
                open.left == Some(0)
            }
        };
        let standings = if cuts_here {
            Some(self.left_standings()?)
        } else {
            None
        };
        if let Some(open) = &mut self.open {
            match standings {
                Some(standings) => {
                    open.cut = true;
                    open.standings = standings;
                }
                None => {
                    if let Some(left) = open.left {
                        open.left = Some(left.saturating_sub(1));
                    }
                }
            }
        }
        Ok(!cuts_here)
    }

    /// Whether a note comes now, was cut away, or waits for whether another entry comes.
    fn admit_note(&mut self, words: &Text) -> Result<bool, ExpandError>
        ensures comes { self.old.open ≡ None → GivesAlways as_is result (not self.old.scene.loose) }
        ensures same { self.old.open ≡ None → OnOk result (self.new ≡ self.old) }
    {
        if self.scene.loose {
            return Ok(false);
        }
        let waits = match &self.open {
            None => return Ok(true),
            Some(open) => {
                if open.cut {
                    return Ok(false);
                }
                open.left == Some(0)
            }
        };
        if waits {
            self.keep_note(words)?;
        }
        Ok(!waits)
    }

    /// Keeps a note until it is known whether another entry of the list at work comes.
    fn keep_note(&mut self, words: &Text) -> Result<(), AllocError> {
        let placed = self.placed_note(words)?;
        if let Some(open) = &mut self.open {
            open.notes.push(placed)?;
        }
        Ok(())
    }

    /// A note of the line at work.
    fn placed_note(&self, words: &Text) -> Result<Placed, AllocError> {
        let alloc = self.scene.alloc;
        let rounds = copy_rounds(alloc, self.rounds.as_slice())?;
        let printed = words.copy(alloc)?;
        let words = words.copy(alloc)?;
        Ok(Placed {
            line: self.line,
            rounds,
            deed: Deed::Note(printed),
            words,
        })
    }

    /// The item comes from the line at work.
    fn tell(&mut self) -> Result<(), AllocError>
        ensures told { OnOk result (self.new ≡ record self.old { told_turn = None; told_line = self.old.line; told_rounds = self.new.told_rounds }) }
        ensures rounds { OnOk result (self.new.told_rounds.items ≡ self.old.rounds.items) }
    {
        self.told_turn = None;
        self.told_line = self.line;
        if self.told_rounds.as_slice() != self.rounds.as_slice() {
            self.told_rounds = copy_rounds(self.scene.alloc, self.rounds.as_slice())?;
        }
        Ok(())
    }
}

/// What a step of the work gave.
#[derive(Drop)]
enum Stepped {
    Item(Item),
    /// Nothing that comes.
    Nothing,
    /// The scenario is at its end.
    Ended,
}

/// The line of a place, before the end of a block.
fn line_in(lines: &[Line], at: usize, end: usize) -> Option<&Line>
    ensures { option_copied result ≡ line_in lines.now at end }
{
    if at < end { lines.get(at) } else { None }
}

/// The place behind a line with so many lines in its block. The block around it ends before this place.
fn place_behind(at: usize, inside: usize, end: usize) -> usize
    ensures behind { at < end → result ≡ min (at + 1 + inside) end }
    ensures within { at < end → at + 1 ≤ 2 ^ 64 - 1 }
{
    at.saturating_add(1).saturating_add(inside).min(end)
}

/// Whether a line could be refused, or one in its block.
fn could_be_refused(line: &Line, words: &[Filled]) -> bool
    ensures { result ≡ (opens_block line.now.kind || may_be_refused words.now) }
{
    line.kind().opens_block() || may_be_refused(words)
}

/// The item of a place of a list, if there is one.
fn next_item(alloc: Global, deed: &Deed, place: u32) -> Result<Option<Item>, AllocError>
    ensures item { IfOk result (λ item. item ≡ item_before deed.now place) }
    ensures within { IfOk result (λ item. IfSome item (λ _. place + 1 ≤ 2 ^ 32 - 1)) }
{
    if place < items_of(deed) {
        Ok(Some(item_of(alloc, deed, place)?))
    } else {
        Ok(None)
    }
}

/// The next turn of lists that are worked together, with its entry.
fn turn_of(alloc: Global, together: &Together) -> Result<Option<(Turn, Item)>, AllocError>
    ensures { IfOk result (IsTurnOf together.now.members) }
{
    let Some(turn) = together.next() else {
        return Ok(None);
    };
    let Some(placed) = together.placed(turn) else {
        return Ok(None);
    };
    Ok(Some((turn, item_of(alloc, &placed.deed, turn.place)?)))
}

/// How many items a list has: its entries, or one note.
fn items_of(deed: &Deed) -> u32
    ensures { result ≡ item_count deed.now }
{
    match deed {
        Deed::Access(access) => access.count(),
        Deed::Command(_, _) | Deed::Raw(_) | Deed::Note(_) => 1,
    }
}

impl<'p> Expansion<'p> {
    /// The next entry or note, or none at the end. An error is the first fault.
    pub fn next(&mut self) -> Result<Option<Item>, ExpandError>
        ensures comes { is_said (still self.old) ≡ true → Comes (still self.old) result (told_last self.new) (still self.new) }
    {
        for _ in 0..u64::MAX {
            match self.step()? {
                Stepped::Item(item) => return Ok(Some(item)),
                Stepped::Nothing => {}
                Stepped::Ended => return Ok(None),
            }
        }
        // So many steps take centuries. The end has not come.
        Err(ExpandError::Memory)
    }

    fn step(&mut self) -> Result<Stepped, ExpandError>
        ensures steps { is_said (still self.old) ≡ true → Steps (still self.old) result (told_last self.new) (still self.new) }
    {
        if self.waits() {
            return Ok(self.tell_waiting());
        }
        if self.together.is_some() {
            return self.step_together();
        }
        if self.current.is_some() {
            return self.step_line();
        }
        if self.queue.is_empty() {
            return self.advance();
        }
        self.begin_list();
        Ok(Stepped::Nothing)
    }

    /// Whether something waits to be told.
    fn waits(&self) -> bool
        ensures { result ≡ waits self.now }
    {
        !self.notes.is_empty() || self.opened || self.unreached.is_some()
    }

    /// What waits comes.
    fn tell_waiting(&mut self) -> Stepped {
        if let Some(note) = self.notes.pop_front() {
            return self.tell_note(note);
        }
        if self.opened {
            self.opened = false;
            return Stepped::Item(Item::Opened);
        }
        match self.unreached.take() {
            Some(line) => Stepped::Item(Item::Unreached(line)),
            None => Stepped::Nothing,
        }
    }

    /// The next list of the line is at work.
    fn begin_list(&mut self)
        ensures { (b : Burst) (bs : List Burst) → self.old.queue.items ≡ b ∷ bs → b.until ≡ None → (self.new.queue.items ≡ bs) × (self.new ≡ record self.old { queue = self.new.queue; current = Some b; taken = 0 }) }
    {
        if let Some(burst) = self.queue.pop_front() {
            if burst.until.is_some() {
                self.open_list();
            }
            self.current = Some(burst);
            self.taken = 0;
        }
    }

    /// A note that waited comes.
    fn tell_note(&mut self, note: Placed) -> Stepped {
        let Placed {
            line,
            rounds,
            deed,
            ..
        } = note;
        self.told_turn = None;
        self.told_line = line;
        self.told_rounds = rounds;
        match deed {
            Deed::Note(words) => Stepped::Item(Item::Note(words)),
            Deed::Access(_) | Deed::Command(_, _) | Deed::Raw(_) => Stepped::Nothing,
        }
    }

    /// Whether an item comes. An entry changes the tasks' marks and places, also if it was cut away.
    fn admit(&mut self, item: &Item, place: u32) -> Result<bool, ExpandError>
        ensures comes { (b : Burst) → self.old.open ≡ None → self.old.current ≡ Some b → item.now ≡ item_at b.deed place → GivesAlways as_is result (not self.old.scene.loose) }
        ensures leaves { (b : Burst) → self.old.open ≡ None → self.old.current ≡ Some b → item.now ≡ item_at b.deed place → OnOk result (self.new ≡ record self.old { scene = stands self.old.scene (after_entry b.deed place self.old.scene.tasks.standings) }) }
    {
        match item {
            Item::Note(words) => self.admit_note(words),
            Item::Opened | Item::Unreached(_) => Ok(true),
            Item::Entry(_, _) | Item::Raw(_) => {
                let comes = self.admit_entry()?;
                if let Some(burst) = &self.current {
                    leave_one(&mut self.scene.tasks, &burst.deed, place)?;
                }
                Ok(comes)
            }
        }
    }

    /// The next item of the line at work, if there is one.
    fn item_of_line(&self) -> Result<Option<Item>, AllocError>
        ensures item { IfOk result (λ item. item ≡ line_item self.now.current self.now.taken) }
        ensures within { IfOk result (λ item. IfSome item (λ _. self.now.taken + 1 ≤ 2 ^ 32 - 1)) }
    {
        match &self.current {
            None => Ok(None),
            Some(burst) => next_item(self.scene.alloc, &burst.deed, self.taken),
        }
    }

    /// The line at work has no item left.
    fn end_line(&mut self) -> Result<(), ExpandError>
        ensures { (b : Burst) → self.old.current ≡ Some b → b.until ≡ None → GivesAlways (λ _. self.new) result (record self.old { current = None }) }
    {
        let Some(burst) = self.current.take() else {
            return Ok(());
        };
        if burst.until.is_some() {
            self.close_list(self.line)?;
        }
        Ok(())
    }

    /// The next item of the line at work.
    fn step_line(&mut self) -> Result<Stepped, ExpandError>
        ensures steps { (b : Burst) → is_said (still self.old) ≡ true → self.old.together ≡ None → self.old.current ≡ Some b → Steps (still self.old) result (told_last self.new) (still self.new) }
    {
        let Some(item) = self.item_of_line()? else {
            self.end_line()?;
            return Ok(Stepped::Nothing);
        };
        if self.take_item(&item)? {
            Ok(Stepped::Item(item))
        } else {
            Ok(Stepped::Nothing)
        }
    }

    /// Takes the next item of the line at work. Whether it comes, or was cut away.
    fn take_item(&mut self, item: &Item) -> Result<bool, ExpandError>
        ensures comes { (b : Burst) → self.old.open ≡ None → self.old.current ≡ Some b → item.now ≡ item_at b.deed self.old.taken → GivesAlways as_is result (not self.old.scene.loose) }
        ensures taken { (b : Burst) → self.old.open ≡ None → self.old.current ≡ Some b → item.now ≡ item_at b.deed self.old.taken → IfOk result (λ comes. self.new ≡ (if comes then one_told b self.new.told_rounds self.old else none_told b self.old)) }
        ensures rounds { (b : Burst) → self.old.open ≡ None → self.old.current ≡ Some b → item.now ≡ item_at b.deed self.old.taken → IfOk result (λ comes. comes ≡ true → self.new.told_rounds.items ≡ self.old.rounds.items) }
    {
        let place = self.taken;
        let comes = self.admit(item, place)?;
        self.taken = place.saturating_add(1);
        if comes {
            self.tell()?;
        } else {
            // If one entry of a list doesn't come, no later one does.
            self.leave_line()?;
        }
        Ok(comes)
    }

    /// The items that are left of the line at work don't come.
    fn leave_line(&mut self) -> Result<(), AllocError>
        ensures { (b : Burst) → self.old.current ≡ Some b → OnOk result (self.new ≡ record self.old { taken = item_count b.deed; scene = stands self.old.scene (after_rest b.deed self.old.taken self.old.scene.tasks.standings) }) }
    {
        let Some(burst) = &self.current else {
            return Ok(());
        };
        leave_rest(&mut self.scene.tasks, &burst.deed, self.taken)?;
        self.taken = items_of(&burst.deed);
        Ok(())
    }

    /// Leaves out the items that are left of the line at work, or of the lists that are worked together. The tasks'
    /// marks and places are as after the last of them. A list that a given length cuts is not shortened.
    pub fn pass_over(&mut self) -> Result<(), AllocError> {
        if let Some(open) = &self.open {
            if open.left.is_some() {
                return Ok(());
            }
        }
        if self.together.is_some() {
            self.together = None;
            return Ok(());
        }
        self.leave_line()
    }

    /// The next turn of the lists that are worked together, with its entry.
    fn together_turn(&self) -> Result<Option<(Turn, Item)>, AllocError>
        ensures { (t : TogetherNow) → self.now.together ≡ Some t → IfOk result (IsTurnOf t.members) }
    {
        match &self.together {
            None => Ok(None),
            Some(together) => turn_of(self.scene.alloc, together),
        }
    }

    /// The item comes from the list of this turn.
    fn tell_turn(&mut self, turn: Turn) -> Result<(), AllocError>
        ensures told { OnOk result (self.new ≡ record self.old { told_turn = self.new.told_turn; told_line = self.new.told_line; told_rounds = self.new.told_rounds }) }
        ensures list { (t : TogetherNow) (p : PlacedNow) → self.old.together ≡ Some t → list_of t.members turn ≡ Some p → OnOk result ((self.new.told_turn ≡ Some turn) × (self.new.told_line ≡ p.line) × (self.new.told_rounds.items ≡ p.rounds)) }
    {
        let Some(together) = &self.together else {
            return Ok(());
        };
        let Some(placed) = together.placed(turn) else {
            return Ok(());
        };
        self.told_turn = Some(turn);
        self.told_line = placed.line;
        if self.told_rounds.as_slice() != placed.rounds.as_slice() {
            self.told_rounds = copy_rounds(self.scene.alloc, placed.rounds.as_slice())?;
        }
        Ok(())
    }

    fn step_together(&mut self) -> Result<Stepped, ExpandError>
        ensures steps { (t : TogetherNow) → is_said (still self.old) ≡ true → self.old.together ≡ Some t → Steps (still self.old) result (told_last self.new) (still self.new) }
    {
        let Some((turn, item)) = self.together_turn()? else {
            self.together = None;
            return Ok(Stepped::Nothing);
        };
        if self.take_turn(turn)? {
            Ok(Stepped::Item(item))
        } else {
            Ok(Stepped::Nothing)
        }
    }

    /// Takes the entry of a turn. Whether it comes, or was cut away.
    fn take_turn(&mut self, turn: Turn) -> Result<bool, ExpandError>
        ensures comes { self.old.open ≡ None → GivesAlways as_is result (not self.old.scene.loose) }
        ensures taken { (t : TogetherNow) (p : PlacedNow) → self.old.open ≡ None → self.old.together ≡ Some t → OnOk result (self.new ≡ record self.old { together = one_turn t turn.member; told_turn = self.new.told_turn; told_line = self.new.told_line; told_rounds = self.new.told_rounds }) }
        ensures told { (t : TogetherNow) (p : PlacedNow) → self.old.open ≡ None → self.old.together ≡ Some t → list_of t.members turn ≡ Some p → IfOk result (λ comes. comes ≡ true → (self.new.told_turn ≡ Some turn) × (self.new.told_line ≡ p.line) × (self.new.told_rounds.items ≡ p.rounds)) }
    {
        let comes = self.admit_entry()?;
        if comes {
            self.tell_turn(turn)?;
        }
        if let Some(together) = &mut self.together {
            together.take(turn.member);
        }
        Ok(comes)
    }

    /// The next line, the next round, or the end of a block.
    fn advance(&mut self) -> Result<Stepped, ExpandError>
        ensures steps { is_said (still self.old) ≡ true → IsIdle self.old → Steps (still self.old) result (told_last self.new) (still self.new) }
    {
        let Some(frame) = self.frames.pop() else {
            return Ok(Stepped::Ended);
        };
        match line_in(self.lines, frame.at, frame.end) {
            None => self.end_round(frame)?,
            Some(line) => self.open_line(frame, line)?,
        }
        Ok(Stepped::Nothing)
    }

    /// The next line of a block, which was the innermost one.
    fn open_line(&mut self, frame: Frame, line: &Line) -> Result<(), ExpandError>
        ensures works { is_said (from_frame frame self.old) ≡ true → is_quiet self.old ≡ true → IsIdle self.old → line_in self.old.lines.now frame.at frame.end ≡ Some line.now → Works (from_frame frame self.old) result (still self.new) }
    {
        let begin = frame.at.saturating_add(1);
        let behind = place_behind(frame.at, line.inside(), frame.end);
        let above = frame.above;
        let words = self.scene.words_of(line)?;
        let refusable = could_be_refused(line, words.as_slice());
        self.frames.push(frame.moved(behind, refusable))?;
        self.line = line.number();
        match line.kind() {
            LineKind::Repeat => self.open_repeat(words, begin, behind),
            LineKind::Together => self.open_together(words.as_slice(), begin, behind),
            LineKind::Header | LineKind::Let | LineKind::End | LineKind::Other => {
                self.work_line(words, above)
            }
        }
    }

    /// What a line stands for comes next, or is one more member of what is worked together.
    fn work_line(&mut self, words: Vec<Filled>, above: bool) -> Result<(), ExpandError>
        ensures lists { self.old.gathered ≡ None → Gives (λ _. (self.new.queue.items, self.new.scene)) result (line_queued self.old.scene words.items above) }
        ensures queued { self.old.gathered ≡ None → OnOk result (self.new ≡ record self.old { queue = self.new.queue; scene = self.new.scene; words = words }) }
        ensures members { (g : Gathered) → gathering self.old ≡ Some g → Gives (λ _. gathering self.new) result (line_gathered (told_of self.old.line self.old.rounds.items words.items) (repeats self.old.frames.items) words.items above g) }
        ensures others { (g : Gathered) → gathering self.old ≡ Some g → OnOk result (self.new ≡ record self.old { gathered = self.new.gathered; scene = self.new.scene; words = words }) }
    {
        if self.gathered.is_some() {
            self.gather_line(words.as_slice(), above)?;
        } else {
            self.queue_line(words.as_slice(), above)?;
        }
        self.scene.note_sizes(words.as_slice())?;
        self.words = words;
        Ok(())
    }

    /// What a line stands for comes next.
    fn queue_line(&mut self, words: &[Filled], above: bool) -> Result<(), ExpandError>
        ensures lists { Gives (λ _. (self.new.queue.items, self.new.scene)) result (line_lists self.old.scene words.now above) }
        ensures others { OnOk result (self.new ≡ record self.old { queue = self.new.queue; scene = self.new.scene }) }
    {
        let bursts = bursts_of(&mut self.scene, words, above)?;
        self.queue = VecDeque::from_vec(bursts);
        Ok(())
    }

    /// What a line stands for is one more member, or more, of what is worked together.
    fn gather_line(&mut self, words: &[Filled], above: bool) -> Result<(), ExpandError>
        ensures members { (g : Gathered) → gathering self.old ≡ Some g → Gives (λ _. gathering self.new) result (lists_in (told_of self.old.line self.old.rounds.items words.now) (repeats self.old.frames.items) words.now above g) }
        ensures others { OnOk result (self.new ≡ record self.old { scene = self.new.scene; gathered = self.new.gathered }) }
    {
        check_together(words)?;
        let bursts = bursts_of(&mut self.scene, words, above)?;
        Ok(self.gather(bursts, words)?)
    }

    fn in_repeat(&self) -> bool
        ensures { result ≡ repeats self.now.frames.items }
    {
        match self.frames.last() {
            None => false,
            Some(frame) => frame.block == Block::Repeat,
        }
    }

    /// Each list is a member, except the lists in a `repeat`: they form one member.
    fn gather(&mut self, bursts: Vec<Burst>, words: &[Filled]) -> Result<(), AllocError>
        ensures members { IfOk result (λ _. gathering self.new ≡ option_map (lists_gathered (told_of self.old.line self.old.rounds.items words.now) (repeats self.old.frames.items) bursts.items) (gathering self.old)) }
        ensures others { OnOk result (self.new ≡ record self.old { scene = self.new.scene; gathered = self.new.gathered }) }
    {
        let in_repeat = self.in_repeat();
        for burst in bursts {
            self.gather_one(burst, words, in_repeat)?;
        }
        Ok(())
    }

    fn gather_one(
        &mut self,
        burst: Burst,
        words: &[Filled],
        in_repeat: bool,
    ) -> Result<(), AllocError>
        ensures members { OnOk result (gathering self.new ≡ option_map (one_gathered (told_of self.old.line self.old.rounds.items words.now) in_repeat burst) (gathering self.old)) }
        ensures others { OnOk result (self.new ≡ record self.old { scene = self.new.scene; gathered = self.new.gathered }) }
    {
        leave_behind(&mut self.scene.tasks, &burst.deed, burst.count())?;
        let Burst { deed, .. } = burst;
        let placed = self.placed(deed, words)?;
        self.add_gathered(placed, in_repeat)
    }

    /// What a line stands for, with the line at work, its rounds and its words.
    fn placed(&self, deed: Deed, words: &[Filled]) -> Result<Placed, AllocError>
        ensures { IfOk result (λ placed. placed ≡ placed_by (told_of self.now.line self.now.rounds.items words.now) deed) }
    {
        let alloc = self.scene.alloc;
        let words = Text::new(joined(alloc, words, 0, true)?);
        let rounds = copy_rounds(alloc, self.rounds.as_slice())?;
        Ok(Placed {
            line: self.line,
            rounds,
            deed,
            words,
        })
    }

    /// Adds a list to the last member, or to a new one if it is in no `repeat`.
    fn add_gathered(&mut self, placed: Placed, in_repeat: bool) -> Result<(), AllocError>
        ensures { OnOk result (self.new ≡ record self.old { gathered = added_in in_repeat placed self.old.gathered }) }
    {
        let alloc = self.scene.alloc;
        match &mut self.gathered {
            None => Ok(()),
            Some(gathered) => {
                if !in_repeat {
                    gathered.add_member(alloc)?;
                }
                gathered.add(placed)
            }
        }
    }

    fn open_repeat(
        &mut self,
        words: Vec<Filled>,
        begin: usize,
        end: usize,
    ) -> Result<(), ExpandError>
        ensures frames { Gives (λ _. self.new.frames.items) result (with_repeat self.old words.items begin end) }
        ensures others { (f : FrameNow) → repeated self.old.scene words.items begin end (is_some self.old.gathered || self.old.scene.in_until) ≡ Ok f → f.until ≡ None → OnOk result (self.new ≡ record self.old { frames = self.new.frames; gathered = opened_in (repeats self.old.frames.items) self.old.gathered }) }
    {
        let no_until = self.has_no_until();
        let frame = Frame::repeated(&self.scene, words, begin, end, no_until)?;
        self.open_member()?;
        if frame.until.is_some() {
            self.open_until();
        }
        self.frames.push(frame)?;
        Ok(())
    }

    /// Whether `until` is a fault here.
    fn has_no_until(&self) -> bool
        ensures { result ≡ (is_some self.now.gathered || self.now.scene.in_until) }
    {
        self.gathered.is_some() || self.scene.in_until
    }

    /// A `repeat` is a member, if it is in no other.
    fn open_member(&mut self) -> Result<(), AllocError>
        ensures { OnOk result (self.new ≡ record self.old { gathered = opened_in (repeats self.old.frames.items) self.old.gathered }) }
    {
        let alloc = self.scene.alloc;
        let in_repeat = self.in_repeat();
        match &mut self.gathered {
            None => Ok(()),
            Some(gathered) => {
                if in_repeat {
                    Ok(())
                } else {
                    gathered.add_member(alloc)
                }
            }
        }
    }

    /// A `repeat` with `until` begins.
    fn open_until(&mut self)
        ensures { self.new.frames ≡ self.old.frames }
    {
        self.open_list();
        self.scene.in_until = true;
    }

    fn open_together(
        &mut self,
        words: &[Filled],
        begin: usize,
        end: usize,
    ) -> Result<(), ExpandError>
        ensures frames { Gives (λ _. self.new.frames.items) result (with_together self.old words.now begin end) }
        ensures others { self.old.open ≡ None → OnOk result (self.new ≡ record self.old { frames = self.new.frames; gathered = Some (record { members = []; before = None }) }) }
    {
        let alloc = self.scene.alloc;
        if self.gathered.is_some() {
            return Err(word_at(words, 0)?.fault(Cause::Together));
        }
        ends_at(words, 1)?;
        let before = if self.open.is_some() {
            Some(copy_standings(alloc, self.scene.tasks.standings())?)
        } else {
            None
        };
        self.gathered = Some(Together::new(alloc, before));
        let scope = self.scene.values();
        self.frames
            .push(Frame::once(alloc, Block::Together, begin, end, scope))?;
        Ok(())
    }

    /// The lines of a block are at their end.
    fn end_round(&mut self, frame: Frame) -> Result<(), ExpandError>
        ensures works { is_said (from_frame frame self.old) ≡ true → is_quiet self.old ≡ true → IsIdle self.old → line_in self.old.lines.now frame.at frame.end ≡ None → Works (from_frame frame self.old) result (still self.new) }
    {
        match frame.block {
            Block::All => Ok(()),
            Block::Together => {
                self.together = self.gathered.take();
                Ok(())
            }
            Block::Repeat => self.end_repeated(frame),
        }
    }

    fn end_repeated(&mut self, frame: Frame) -> Result<(), ExpandError>
        ensures ends { frame.until ≡ None → GivesAlways as_is result tt }
        ensures scene { frame.until ≡ None → OnOk result (self.new.scene ≡ (round_ended frame self.old.scene self.old.rounds.items self.old.frames.items).0) }
        ensures rounds { frame.until ≡ None → OnOk result (self.new.rounds.items ≡ (round_ended frame self.old.scene self.old.rounds.items self.old.frames.items).1) }
        ensures frames { frame.until ≡ None → OnOk result (self.new.frames.items ≡ (round_ended frame self.old.scene self.old.rounds.items self.old.frames.items).2) }
        ensures others { frame.until ≡ None → OnOk result (self.new ≡ record self.old { scene = self.new.scene; rounds = self.new.rounds; frames = self.new.frames }) }
    {
        let mut frame = frame;
        if frame.round > 0 {
            self.scene.keep_values(frame.scope);
            let _round = self.rounds.pop();
        }
        if frame.next_round() {
            return Ok(self.begin_round(frame)?);
        }
        match frame.until {
            None => Ok(()),
            Some(place) => self.end_until(frame.words.as_slice(), place.saturating_add(1)),
        }
    }

    fn begin_round(&mut self, frame: Frame) -> Result<(), AllocError>
        ensures scene { OnOk result (self.new.scene ≡ named_round frame.name frame.values frame.round self.old.scene) }
        ensures rounds { OnOk result (self.new.rounds.items ≡ self.old.rounds.items ++ frame.round ∷ []) }
        ensures frames { OnOk result (self.new.frames.items ≡ self.old.frames.items ++ frame ∷ []) }
        ensures others { OnOk result (self.new ≡ record self.old { scene = self.new.scene; rounds = self.new.rounds; frames = self.new.frames }) }
    {
        frame.name_round(&mut self.scene)?;
        self.rounds.push(frame.round)?;
        self.frames.push(frame)?;
        Ok(())
    }

    /// The list of a `repeat` with `until` ends. Its condition begins at this place of these words.
    fn end_until(&mut self, words: &[Filled], place: usize) -> Result<(), ExpandError> {
        self.scene.in_until = false;
        self.scene.condition(words, place, None)?;
        self.scene.note_condition(words, place)?;
        self.close_list(word_at(words, 0)?.line)
    }
}
