//! Lists that are worked together.

ghost use Rattle.std.specs.Prelude.{◌≡◌, ◌<◌, ◌-◌, [], ◌∷◌, ◌++◌, true, slice_get, option_copied, option_map, IfSome, OnOk, OnErr, if◌then◌else◌};
ghost use Rattle.scenario_lines.specs.Pages.{page_count};
ghost use Rattle.expansion.specs.Merge.{has_next, member_at, IsNext};
ghost use Rattle.expansion.specs.Standings.{mark_after, place_after, after_access, after_own, after_command, after_entry, after_entries, after_first, after_rest, standing};
ghost use Rattle.expansion.specs.Together.{entries, total, cursors_of, new_member, with_list, added, added_some, taken_once, member_or, has_left, taken_of, taken_if_left, next_entry, list_of, with_place, counted, one_taken, after_lists, after_members};

use crate::merge::{Cursor, next_member};
use machine::command::{Actor, Command};
use machine::text::Text;
use scenario_lines::access::{Access, Act};
use scenario_lines::burst::Deed;
use scenario_lines::tasks::{Standing, Tasks};
use std::alloc::{AllocError, Global};
use std::marker::Model;

/// What a line stands for, with the line's number and its rounds.
#[derive(Drop)]
pub struct Placed {
    pub line: usize,
    pub rounds: Vec<u32>,
    pub deed: Deed,
    /// The words of the line.
    pub words: Text,
}

impl Model for Placed {
    ghost use Rattle.expansion.specs.Together.{PlacedNow};

    ghost Value = { PlacedNow };

    ghost view = { λ p. record { line = p.line; rounds = p.rounds.items; deed = p.deed; words = p.words } };
}

impl Placed {
    /// How many entries it has.
    fn count(&self) -> u32
        ensures { result ≡ entries self.now }
    {
        match &self.deed {
            Deed::Access(access) => access.count(),
            Deed::Command(_, _) | Deed::Raw(_) => 1,
            Deed::Note(_) => 0,
        }
    }
}

/// A member: a list, of which some entries were taken.
#[derive(Drop)]
struct Member {
    list: Vec<Placed>,
    /// Which of the list is at work.
    at: usize,
    /// How many entries of that were taken.
    taken: u32,
}

impl Model for Member {
    ghost use Rattle.std.specs.Prelude.{◌+◌};
    ghost use Rattle.expansion.specs.Together.{MemberNow, total_before, IsIn, NoneEmpty};

    ghost Value = { MemberNow };

    ghost view = { λ m. record { lists = m.list.items; taken = total_before m.at m.list.items + m.taken } };

    ghost invariant = { λ m. IsIn m.list.items m.at m.taken × NoneEmpty m.list.items };
}

/// The members of a `together`, in their order.
#[derive(Drop)]
pub struct Together {
    members: Vec<Member>,
    cursors: Vec<Cursor>,
    /// The tasks' marks and places before it, if it may be cut.
    pub before: Option<Vec<Standing>>,
}

impl Model for Together {
    ghost use Rattle.std.specs.Prelude.{◌≡◌, option_map};
    ghost use Rattle.expansion.specs.Together.{TogetherNow, cursors_of};

    ghost Value = { TogetherNow };

    ghost view = { λ t. record { members = t.members.items; before = option_map (λ b. b.items) t.before } };

    ghost invariant = { λ t. t.cursors.items ≡ cursors_of t.members.items };
}

/// Which entry comes next: that of this place in a list of a member's.
#[derive(Clone, Copy, Debug)]
pub struct Turn {
    pub member: usize,
    pub at: usize,
    pub place: u32,
}

/// The task's mark is this.
fn leave_mark(tasks: &mut Tasks, access: Access, place: u32) -> Result<(), AllocError>
    requires { place < page_count access.pages }
    ensures { OnOk result (tasks.new ≡ standing tasks.old (mark_after access place tasks.old.standings)) }
{
    let mark = tasks.mark(access.task);
    let behind = access.mark_behind(place, mark);
    if behind == mark {
        Ok(())
    } else {
        tasks.set_mark(access.task, behind)
    }
}

/// The task is at this place of a file.
fn leave_place(tasks: &mut Tasks, access: Access, file: u32, place: u32) -> Result<(), AllocError>
    requires { place < page_count access.pages }
    ensures { OnOk result (tasks.new ≡ standing tasks.old (place_after access file place tasks.old.standings)) }
{
    match access.place_behind(place) {
        None => Ok(()),
        Some(there) => tasks.set_place(access.task, file, there),
    }
}

/// Changes the task's mark and places as the entry of this place does.
fn leave_access(tasks: &mut Tasks, access: Access, place: u32) -> Result<(), AllocError>
    ensures { OnOk result (tasks.new ≡ standing tasks.old (after_access access place tasks.old.standings)) }
{
    if place >= access.count() {
        return Ok(());
    }
    match access.act {
        Act::Read => Ok(()),
        Act::Write => leave_mark(tasks, access, place),
        Act::Free { .. } => leave_mark(tasks, access, place),
        Act::FileRead { file } => leave_place(tasks, access, file, place),
        Act::FileWrite { file } => leave_place(tasks, access, file, place),
    }
}

/// The same for a command of a task: a child has its parent's mark.
fn leave_own(tasks: &mut Tasks, task: u32, command: &Command) -> Result<(), AllocError>
    ensures { OnOk result (tasks.new ≡ standing tasks.old (after_own task command.now tasks.old.standings)) }
{
    match command {
        Command::Fork { child } => {
            let mark = tasks.mark(task);
            tasks.set_mark(*child, mark)
        }
        _ => Ok(()),
    }
}

/// The same for any command.
fn leave_command(tasks: &mut Tasks, actor: Actor, command: &Command) -> Result<(), AllocError>
    ensures { OnOk result (tasks.new ≡ standing tasks.old (after_command actor command.now tasks.old.standings)) }
{
    match actor {
        Actor::Task(task) => leave_own(tasks, task, command),
        Actor::Shell => Ok(()),
        Actor::Control => Ok(()),
        Actor::Daemon => Ok(()),
    }
}

/// Changes the tasks' marks and places as accesses do, from one place to before another.
fn leave_accesses(tasks: &mut Tasks, access: Access, from: u32, end: u32) -> Result<(), AllocError>
    ensures { OnOk result (tasks.new ≡ standing tasks.old (after_entries (Deed.Access access) from (end - from) tasks.old.standings)) }
{
    for place in from..end {
        leave_access(tasks, access, place)?;
    }
    Ok(())
}

/// Changes the tasks' marks and places as the first `many` entries of a list do.
pub fn leave_behind(tasks: &mut Tasks, deed: &Deed, many: u32) -> Result<(), AllocError>
    ensures { OnOk result (tasks.new ≡ standing tasks.old (after_first deed.now many tasks.old.standings)) }
{
    match deed {
        Deed::Access(access) => leave_accesses(tasks, *access, 0, many.min(access.count())),
        Deed::Command(actor, command) => {
            if many == 0 {
                Ok(())
            } else {
                leave_command(tasks, *actor, command)
            }
        }
        Deed::Raw(_) => Ok(()),
        Deed::Note(_) => Ok(()),
    }
}

/// Changes the tasks' marks and places as the entries of a list from this place on do.
pub fn leave_rest(tasks: &mut Tasks, deed: &Deed, from: u32) -> Result<(), AllocError>
    ensures { OnOk result (tasks.new ≡ standing tasks.old (after_rest deed.now from tasks.old.standings)) }
{
    match deed {
        Deed::Access(access) => leave_accesses(tasks, *access, from, access.count()),
        Deed::Command(actor, command) => {
            if from == 0 {
                leave_command(tasks, *actor, command)
            } else {
                Ok(())
            }
        }
        Deed::Raw(_) => Ok(()),
        Deed::Note(_) => Ok(()),
    }
}

/// Changes the tasks' marks and places as an entry of any list does.
pub fn leave_one(tasks: &mut Tasks, deed: &Deed, place: u32) -> Result<(), AllocError>
    ensures { OnOk result (tasks.new ≡ standing tasks.old (after_entry deed.now place tasks.old.standings)) }
{
    match deed {
        Deed::Access(access) => leave_access(tasks, *access, place),
        Deed::Command(actor, command) => leave_command(tasks, *actor, command),
        Deed::Raw(_) => Ok(()),
        Deed::Note(_) => Ok(()),
    }
}

impl Together {
    /// No member yet. `before` is what the tasks' marks and places are before it.
    pub fn new(alloc: Global, before: Option<Vec<Standing>>) -> Together
        ensures { result ≡ record { members = []; before = option_map (λ b. b.items) before } }
    {
        Together {
            members: Vec::new(alloc),
            cursors: Vec::new(alloc),
            before,
        }
    }

    /// One member more, which is empty.
    pub fn add_member(&mut self, alloc: Global) -> Result<(), AllocError>
        ensures added { OnOk result (self.new ≡ record self.old { members = self.old.members ++ new_member ∷ [] }) }
        ensures same { OnErr result (self.new ≡ self.old) }
    {
        self.cursors.push(Cursor { count: 0, taken: 0 })?;
        let member = Member {
            list: Vec::new(alloc),
            at: 0,
            taken: 0,
        };
        match self.members.push(member) {
            Ok(()) => Ok(()),
            Err(_) => {
                let _cursor = self.cursors.pop();
                Err(AllocError)
            }
        }
    }

    /// A list at the end of the last member, if it has an entry.
    pub fn add(&mut self, placed: Placed) -> Result<(), AllocError>
        ensures added { OnOk result (self.new ≡ record self.old { members = added_some placed self.old.members }) }
        ensures same { OnErr result (self.new ≡ self.old) }
    {
        let count = u64::from(placed.count());
        if count == 0 {
            return Ok(());
        }
        push(&mut self.members, placed)?;
        add_entries(&mut self.cursors, count);
        Ok(())
    }

    /// Which entry comes next.
    pub fn next(&self) -> Option<Turn>
        ensures member { IsNext (cursors_of self.now.members) (option_map (λ turn. turn.member) result) }
        ensures entry { IfSome result (λ turn. option_map (with_place turn.place) (list_of self.now.members turn) ≡ next_entry (member_or (slice_get self.now.members turn.member))) }
    {
        let member = next_member(self.cursors.as_slice())?;
        let found = self.members.get(member)?;
        Some(found.turn(member))
    }

    /// The list of a turn.
    pub fn placed(&self, turn: Turn) -> Option<&Placed>
        ensures { option_copied result ≡ list_of self.now.members turn }
    {
        self.members.get(turn.member)?.list.get(turn.at)
    }

    /// An entry of this member was taken, if it has one left.
    pub fn take(&mut self, member: usize)
        ensures { self.new ≡ record self.old { members = taken_if_left self.old.members member } }
    {
        if take_at(&mut self.cursors, member) {
            take_in(&mut self.members, member);
        }
    }

    /// Changes the tasks' marks and places as the entries that were taken do, one member after the other.
    pub fn leave_taken(&self, tasks: &mut Tasks) -> Result<(), AllocError>
        ensures { OnOk result (tasks.new ≡ standing tasks.old (after_members self.now.members tasks.old.standings)) }
    {
        for member in &self.members {
            member.leave_taken(tasks)?;
        }
        Ok(())
    }
}

/// Adds a list to the last member.
fn push(members: &mut Vec<Member>, placed: Placed) -> Result<(), AllocError>
    requires { 0 < entries placed }
    ensures added { OnOk result (members.new.items ≡ added placed members.old.items) }
    ensures same { OnErr result (members.new.items ≡ members.old.items) }
{
    let many = members.len();
    if many == 0 {
        return Ok(());
    }
    let last = &mut members[many - 1];
    last.add(placed)
}

/// The last member has so many entries more.
fn add_entries(cursors: &mut Vec<Cursor>, count: u64)
    ensures { cursors.new.items ≡ counted count cursors.old.items }
{
    let many = cursors.len();
    if many > 0 {
        let last = cursors[many - 1];
        cursors[many - 1] = Cursor {
            count: last.count.saturating_add(count),
            taken: last.taken,
        };
    }
}

/// An entry of this member was taken, if it has one left. Whether it has.
fn take_at(cursors: &mut Vec<Cursor>, member: usize) -> bool
    ensures left { result ≡ has_next (member_at cursors.old.items member) }
    ensures taken { cursors.new.items ≡ (if result then one_taken cursors.old.items member else cursors.old.items) }
{
    if member >= cursors.len() {
        return false;
    }
    let found = cursors[member];
    if !found.has_next() {
        return false;
    }
    cursors[member] = Cursor {
        count: found.count,
        taken: found.taken + 1,
    };
    true
}

/// The same of the member itself.
fn take_in(members: &mut Vec<Member>, member: usize)
    requires { has_left members.old.items member ≡ true }
    ensures { members.new.items ≡ taken_of members.old.items member }
{
    if member < members.len() {
        let found = &mut members[member];
        found.take();
    }
}

fn list_at(lists: &[Placed], at: usize) -> Option<&Placed>
    ensures { option_copied result ≡ slice_get lists.now at }
{
    lists.get(at)
}

impl Member {
    /// A list at its end.
    fn add(&mut self, placed: Placed) -> Result<(), AllocError>
        requires { 0 < entries placed }
        ensures added { OnOk result (self.new ≡ with_list placed self.old) }
        ensures same { OnErr result (self.new ≡ self.old) }
    {
        self.list.push(placed)?;
        Ok(())
    }

    /// Its next entry, if it is the member of this number.
    fn turn(&self, member: usize) -> Turn
        ensures member { result.member ≡ member }
        ensures entry { option_map (with_place result.place) (slice_get self.now.lists result.at) ≡ next_entry self.now }
    {
        Turn {
            member,
            at: self.at,
            place: self.taken,
        }
    }

    /// Its next entry was taken. The last entry of a list is followed by the first of the next list.
    fn take(&mut self)
        requires { self.old.taken < total self.old.lists }
        ensures { self.new ≡ taken_once self.old }
    {
        let Some(placed) = list_at(self.list.as_slice(), self.at) else {
            return;
        };
        let taken = self.taken.saturating_add(1);
        if taken < placed.count() {
            self.taken = taken;
        } else {
            self.at = self.at.saturating_add(1);
            self.taken = 0;
        }
    }

    fn leave_taken(&self, tasks: &mut Tasks) -> Result<(), AllocError>
        ensures { OnOk result (tasks.new ≡ standing tasks.old (after_lists self.now.lists self.now.taken tasks.old.standings)) }
    {
        for (place, placed) in self.list.iter().enumerate() {
            if place < self.at {
                leave_behind(tasks, &placed.deed, placed.count())?;
            } else if place == self.at {
                leave_behind(tasks, &placed.deed, self.taken)?;
            }
        }
        Ok(())
    }
}
