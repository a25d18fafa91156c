//! What is known between two lines of a scenario.

ghost use Rattle.std.specs.Prelude.{◌≡◌, ◌-◌, ◌+◌, ◌<◌, length, position, fold, IfOk, OnOk, IfSome};
ghost use Rattle.std.specs.List.{list_any};
ghost use Rattle.std.specs.String.{string_bytes};
ghost use Rattle.scenario_words.specs.Faults.{Gives, as_is};
ghost use Rattle.scenario_words.specs.Names.{mentioned};
ghost use Rattle.scenario_words.specs.Paths.{same_path};
ghost use Rattle.scenario_words.specs.Words.{filled_words};
ghost use Rattle.scenario_words.specs.declared.task_names.Index.TheVariants.{All};
ghost use Rattle.scenario_lines.specs.HeaderLines.{words_here, line_here, lines_here, lines_said, begun_noted, all_begun_noted, all_noted, with_noted, header_read};
ghost use Rattle.scenario_lines.specs.Rounding.{sizes_noted, condition_noted};
ghost use Rattle.scenario_lines.specs.Scene.{SceneNow, at_first, is_brace, checked_name, with_value, oldest, let_line, is_there, is_parent_there, has_below, without, group_there, group_below_root, path_of_new, with_group, made_group, removed_group, script_path, start_task, one_task, tasks_from, alone, tasks_by, tasks_there, own_number, task_there, killed_form, current_form, condition_form, killed_named, killed_at, current_at, condition_at};

use crate::burst::Condition;
use crate::rounded::{Rounded, add_condition, add_sizes};
use crate::tasks::{MOST_TASKS, Tasks};
use machine::text::Text;
use scenario_words::amount::{PageSize, Purpose, pages_of};
use scenario_words::fault::{Cause, ExpandError};
use scenario_words::header::{Header, HeaderLine};
use scenario_words::names::Names;
use scenario_words::paths::{Path, is_path, path_of};
use scenario_words::task_names::{Index, TaskNames, task_name, task_names};
use scenario_words::word::{
    Filled, ends_at, expect_at, fill_words, is_at, is_header_word, word_at,
};
use scenarios::holes::{Named, value_of};
use scenarios::lines::Line;
use std::alloc::{AllocError, Global};
use std::marker::Model;

/// What the lines above say: values of names, groups, tasks, files, and names that a script can't have.
#[derive(Drop)]
pub struct Scene {
    pub alloc: Global,
    pub header: Header,
    pub names: Names,
    /// The newest value of a name comes first.
    values: Vec<Named>,
    /// The words that replace those of `let` lines.
    settings: Vec<Named>,
    groups: Vec<Path>,
    pub tasks: Tasks,
    /// An `until` above has no length, so that marks are not known.
    pub loose: bool,
    /// The line is in a block with `until`.
    pub in_until: bool,
    /// The sizes that were rounded, each place once.
    rounded: Vec<Rounded>,
}

impl Model for Scene {
    ghost use Rattle.scenario_words.specs.Header.{machine_of};
    ghost use Rattle.scenario_lines.specs.Scene.{SceneNow};

    ghost Value = { SceneNow };

    ghost view = { λ s. record { machine = machine_of s.header; names = s.names; values = s.values.items; settings = s.settings.items; groups = s.groups.items; tasks = s.tasks; loose = s.loose; in_until = s.in_until; rounded = s.rounded.items } };
}

impl Scene {
    /// Nothing is known yet, except the words that replace those of `let` lines.
    pub fn new(alloc: Global, settings: Vec<Named>) -> Scene
        ensures { result ≡ at_first settings.items }
    {
        Scene {
            alloc,
            header: Header::new(alloc),
            names: Names::new(alloc),
            values: Vec::new(alloc),
            settings,
            groups: Vec::new(alloc),
            tasks: Tasks::new(alloc),
            loose: false,
            in_until: false,
            rounded: Vec::new(alloc),
        }
    }

    /// The bytes of a page.
    pub fn page(&self) -> PageSize
        ensures { result.bytes ≡ self.now.machine.page }
    {
        self.header.page
    }

    /// The words of a line, with their holes filled.
    pub fn words_of(&self, line: &Line) -> Result<Vec<Filled>, ExpandError>
        ensures { Gives (λ words. words.items) result (filled_words line.now.number line.now.words self.now.values) }
    {
        let values = self.values.as_slice();
        fill_words(self.alloc, line.number(), line.words(), values)
    }

    /// The same, with only the oldest values, this number of them.
    pub fn words_before(&self, line: &Line, many: usize) -> Result<Vec<Filled>, ExpandError>
        ensures { Gives (λ words. words.items) result (filled_words line.now.number line.now.words (oldest self.now.values many)) }
    {
        let newer = self.values.len().saturating_sub(many);
        let values = self.values.get(newer..).unwrap_or(&[]);
        fill_words(self.alloc, line.number(), line.words(), values)
    }

    /// The sizes so far that were rounded to whole pages. Each place is there once.
    pub fn rounded(&self) -> &[Rounded]
        ensures { result.now ≡ self.now.rounded }
    {
        self.rounded.as_slice()
    }

    /// Notes which sizes of a line without a fault were rounded.
    pub fn note_sizes(&mut self, words: &[Filled]) -> Result<(), AllocError>
        ensures others { self.new ≡ record self.old { rounded = self.new.rounded } }
        ensures noted { OnOk result (self.new.rounded ≡ sizes_noted self.old.machine.page self.old.rounded words.now) }
    {
        let page = self.page();
        add_sizes(self.alloc, &mut self.rounded, words, page)
    }

    /// The same for the condition that begins at this place.
    pub fn note_condition(&mut self, words: &[Filled], place: usize) -> Result<(), AllocError>
        ensures others { self.new ≡ record self.old { rounded = self.new.rounded } }
        ensures noted { OnOk result (self.new.rounded ≡ condition_noted self.old.machine.page self.old.rounded words.now place) }
    {
        let page = self.page();
        add_condition(self.alloc, &mut self.rounded, words, place, page)
    }

    /// How many values there are.
    pub fn values(&self) -> usize
        ensures { result ≡ length self.now.values }
    {
        self.values.len()
    }

    /// A name has this value from here on.
    pub fn set_value(&mut self, name: &str, source: &str) -> Result<(), AllocError>
        ensures { OnOk result (self.new ≡ with_value self.old name.now source.now) }
    {
        let name = String::from_str(self.alloc, name)?;
        let source = String::from_str(self.alloc, source)?;
        self.values.insert(0, Named::new(name, source))?;
        Ok(())
    }

    /// Only the oldest values are left, this number of them.
    pub fn keep_values(&mut self, many: usize)
        ensures { self.new ≡ record self.old { values = oldest self.old.values many } }
    {
        keep_oldest(&mut self.values, many);
    }

    /// `let NAME WORD`.
    pub fn name_word(&mut self, words: &[Filled]) -> Result<(), ExpandError>
        ensures { Gives (λ _. self.new) result (let_line self.old words.now) }
    {
        let name = checked_name(word_at(words, 1)?)?;
        let word = word_at(words, 2)?;
        ends_at(words, 3)?;
        let source = match value_of(self.settings.as_slice(), name) {
            None => String::from_str(self.alloc, word.source.as_str())?,
            Some(other) => String::from_str(self.alloc, other)?,
        };
        self.set_value(name, source.as_str())?;
        Ok(())
    }

    /// Reads the words of a line that may be one of the first, and says whether it is. A line of the header is added to
    /// the others, and a `let` names a value.
    fn words_here(&mut self, lines: &mut Vec<HeaderLine>, line: &Line) -> Result<bool, ExpandError>
        ensures { Gives (λ goes. (goes, lines.new.items, self.new)) result (words_here self.old lines.old.items line.now) }
    {
        let words = self.words_of(line)?;
        let first = word_at(words.as_slice(), 0)?;
        if first.is("let") {
            self.name_word(words.as_slice())?;
            return Ok(true);
        }
        if !first.is_quoted() && is_header_word(first.text()) {
            lines.push(HeaderLine { words })?;
            return Ok(true);
        }
        Ok(false)
    }

    /// The same. A line that opens a block is none of the first.
    fn line_here(&mut self, lines: &mut Vec<HeaderLine>, line: &Line) -> Result<bool, ExpandError>
        ensures { Gives (λ goes. (goes, lines.new.items, self.new)) result (line_here self.old lines.old.items line.now) }
    {
        if line.kind().opens_block() {
            return Ok(false);
        }
        self.words_here(lines, line)
    }

    /// Reads the lines before the first other one, and gives how many they are.
    fn lines_here(
        &mut self,
        lines: &mut Vec<HeaderLine>,
        all: &[Line],
    ) -> Result<usize, ExpandError>
        ensures { Gives (λ count. (count, lines.new.items, self.new)) result (lines_here self.old lines.old.items all.now) }
    {
        for (count, line) in all.iter().enumerate() {
            if !self.line_here(lines, line)? {
                return Ok(count);
            }
        }
        Ok(all.len())
    }

    /// The header has these lines.
    fn read_lines(&mut self, lines: &[HeaderLine]) -> Result<(), ExpandError>
        ensures { Gives (λ _. self.new) result (lines_said self.old lines.now) }
    {
        self.header.read(self.alloc, &mut self.names, lines)
    }

    /// Reads the header of a scenario with these lines, and gives how many it has.
    pub fn read_header(&mut self, all: &[Line]) -> Result<usize, ExpandError>
        ensures { Gives (λ count. (count, self.new)) result (header_read self.old all.now) }
    {
        let mut lines = Vec::new(self.alloc);
        let count = self.lines_here(&mut lines, all)?;
        self.read_lines(lines.as_slice())?;
        self.note_header(lines.as_slice())?;
        Ok(count)
    }

    /// Notes which sizes of the header were rounded, in the order in which they count.
    fn note_header(&mut self, lines: &[HeaderLine]) -> Result<(), AllocError>
        ensures { OnOk result (self.new ≡ with_noted self.old lines.now) }
    {
        self.note_begun(lines, "memory")?;
        self.note_begun(lines, "swap")?;
        self.note_all(lines)
    }

    /// Notes the sizes of these lines.
    fn note_all(&mut self, lines: &[HeaderLine]) -> Result<(), AllocError>
        ensures { OnOk result (self.new ≡ record self.old { rounded = all_noted self.old.machine.page self.old.rounded lines.now }) }
    {
        for line in lines {
            self.note_sizes(line.words.as_slice())?;
        }
        Ok(())
    }

    /// The same for the lines that begin with this word.
    fn note_begun(&mut self, lines: &[HeaderLine], first: &str) -> Result<(), AllocError>
        ensures { OnOk result (self.new ≡ record self.old { rounded = all_begun_noted self.old.machine.page first.now self.old.rounded lines.now }) }
    {
        for line in lines {
            self.note_line(line.words.as_slice(), first)?;
        }
        Ok(())
    }

    /// The same for one line.
    fn note_line(&mut self, words: &[Filled], first: &str) -> Result<(), AllocError>
        ensures others { self.new ≡ record self.old { rounded = self.new.rounded } }
        ensures noted { OnOk result (self.new.rounded ≡ begun_noted self.old.machine.page first.now self.old.rounded words.now) }
    {
        if is_at(words, 0, first) {
            return self.note_sizes(words);
        }
        Ok(())
    }

    /// The groups that are there, the last one made last.
    pub fn groups(&self) -> &[Path]
        ensures { result.now ≡ self.now.groups }
    {
        self.groups.as_slice()
    }

    /// The group of a word, which is there.
    pub fn group_there(&self, word: &Filled) -> Result<Path, ExpandError>
        ensures { Gives (λ path. path) result (group_there self.now word.now) }
    {
        let path = path_of(self.alloc, word)?;
        if is_there(self.groups.as_slice(), &path) {
            Ok(path)
        } else {
            Err(word.fault(Cause::NoGroup))
        }
    }

    /// The same, except that the root is a fault.
    pub fn group_below_root(&self, word: &Filled) -> Result<Path, ExpandError>
        ensures { Gives (λ path. path) result (group_below_root self.now word.now) }
    {
        let path = self.group_there(word)?;
        if path.is_root() {
            Err(word.fault(Cause::Root))
        } else {
            Ok(path)
        }
    }

    /// The path of a group that can be made.
    fn path_of_new(&self, word: &Filled) -> Result<Path, ExpandError>
        ensures { Gives (λ path. path) result (path_of_new self.now word.now) }
    {
        let path = path_of(self.alloc, word)?;
        if is_there(self.groups.as_slice(), &path) {
            return Err(word.fault(Cause::GroupThere));
        }
        if !is_parent_there(self.groups.as_slice(), &path) {
            return Err(word.fault(Cause::NoGroup));
        }
        Ok(path)
    }

    /// A group of this path is there from here on.
    fn add_group(&mut self, path: &Path) -> Result<(), AllocError>
        ensures { OnOk result (self.new ≡ with_group self.old path.now) }
    {
        mention_all(self.alloc, &mut self.names, path.names.as_slice())?;
        self.groups.push(path.copy(self.alloc)?)?;
        Ok(())
    }

    /// Makes the group of a word, and gives its path.
    pub fn make_group(&mut self, word: &Filled) -> Result<Path, ExpandError>
        ensures { Gives (λ path. (path, self.new)) result (made_group self.old word.now) }
    {
        let path = self.path_of_new(word)?;
        self.add_group(&path)?;
        Ok(path)
    }

    /// Removes the group of a word, and gives its path.
    pub fn remove_group(&mut self, word: &Filled) -> Result<Path, ExpandError>
        ensures { Gives (λ path. (path, self.new)) result (removed_group self.old word.now) }
    {
        let path = self.group_below_root(word)?;
        if has_below(self.groups.as_slice(), &path) {
            return Err(word.fault(Cause::GroupsBelow));
        }
        remove(&mut self.groups, &path);
        Ok(path)
    }

    /// The script's path of a group.
    pub fn script_path(&self, path: &Path) -> Result<Text, AllocError>
        ensures { IfOk result (λ text. text ≡ script_path self.now path.now) }
    {
        let mut text = String::new(self.alloc);
        self.names.add_path(&mut text, path.names.as_slice())?;
        Ok(Text::new(text))
    }

    /// Starts a task of this name and index, which a word has, and gives its number.
    pub fn start_task(
        &mut self,
        word: &Filled,
        name: &str,
        index: Option<u64>,
    ) -> Result<u32, ExpandError>
        ensures { Gives (λ task. (task, self.new)) result (start_task self.old word.now name.now index) }
    {
        if self.tasks.named(name, index)?.is_some() {
            return Err(word.fault(Cause::TaskThere));
        }
        if self.tasks.count() >= MOST_TASKS {
            return Err(word.fault(Cause::TooManyTasks));
        }
        Ok(self.tasks.add(name, index)?)
    }

    /// The number of the task of a name and an index.
    fn one_task(&self, word: &Filled, name: &str, index: Option<u64>) -> Result<u32, ExpandError>
        ensures { Gives as_is result (one_task self.now.tasks.started word.now name.now index) }
    {
        match self.tasks.named(name, index)? {
            None => Err(word.fault(Cause::NoTask)),
            Some(task) => Ok(task),
        }
    }

    /// The numbers of the tasks of a name, from one number to another.
    fn tasks_between(
        &self,
        word: &Filled,
        name: &str,
        first: u64,
        last: u64,
    ) -> Result<Vec<u32>, ExpandError>
        ensures { Gives (λ tasks. tasks.items) result (tasks_from self.now.tasks.started word.now name.now first (last + 1 - first)) }
    {
        let mut tasks = Vec::new(self.alloc);
        for number in first..=last {
            tasks.push(self.one_task(word, name, Some(number))?)?;
        }
        Ok(tasks)
    }

    /// The numbers of all tasks of a name.
    fn tasks_named(&self, word: &Filled, name: &str) -> Result<Vec<u32>, ExpandError>
        ensures { Gives (λ tasks. tasks.items) result (tasks_by self.now.tasks.started word.now name.now All) }
    {
        let tasks = self.tasks.all_named(name)?;
        if tasks.is_empty() {
            Err(word.fault(Cause::NoTask))
        } else {
            Ok(tasks)
        }
    }

    /// The number of one task.
    fn tasks_alone(
        &self,
        word: &Filled,
        name: &str,
        index: Option<u64>,
    ) -> Result<Vec<u32>, ExpandError>
        ensures { Gives (λ tasks. tasks.items) result (alone (one_task self.now.tasks.started word.now name.now index)) }
    {
        let task = self.one_task(word, name, index)?;
        Ok(vec![in self.alloc; task]?)
    }

    /// The numbers of the tasks that these names are.
    fn tasks_of(&self, word: &Filled, names: &TaskNames) -> Result<Vec<u32>, ExpandError>
        ensures { Gives (λ tasks. tasks.items) result (tasks_by self.now.tasks.started word.now (string_bytes names.now.name) names.now.index) }
    {
        let name = names.name.as_str();
        match names.index {
            Index::Plain => self.tasks_alone(word, name, None),
            Index::One(number) => self.tasks_alone(word, name, Some(number)),
            Index::Range(first, last) => self.tasks_between(word, name, first, last),
            Index::All => self.tasks_named(word, name),
        }
    }

    /// The tasks that a word names, each by its number. All are there.
    pub fn tasks_there(&self, word: &Filled) -> Result<Vec<u32>, ExpandError>
        ensures { Gives (λ tasks. tasks.items) result (tasks_there self.now word.now) }
    {
        let names = task_names(self.alloc, word)?;
        self.tasks_of(word, &names)
    }

    /// The one task that a word names.
    pub fn task_there(&self, word: &Filled) -> Result<u32, ExpandError>
        ensures { Gives as_is result (task_there self.now word.now) }
    {
        let names = task_name(self.alloc, word)?;
        self.one_task(word, names.name.as_str(), own_number(names.index))
    }

    /// Reads the form of a condition, which begins at this place: of the `write` of a task it may leave the name out.
    pub fn check_condition(
        &self,
        words: &[Filled],
        place: usize,
        of_task: bool,
    ) -> Result<(), ExpandError>
        ensures { Gives as_is result (condition_form words.now place of_task) }
    {
        let word = word_at(words, place)?;
        if word.is("killed") {
            return check_killed(words, place, of_task);
        }
        if !is_path(word) {
            return Err(word.fault(Cause::NotExpected));
        }
        check_current(words, place)
    }

    /// The condition that a task was killed. The word after this place names it.
    fn killed_named(&self, words: &[Filled], place: usize) -> Result<Condition, ExpandError>
        requires { place < length words.now }
        ensures { Gives as_is result (killed_named self.now words.now place) }
    {
        let name = word_at(words, place + 1)?;
        Ok(Condition::Killed(self.task_there(name)?))
    }

    /// The same, or the task whose line it is.
    fn killed(
        &self,
        words: &[Filled],
        place: usize,
        task: Option<u32>,
    ) -> Result<Condition, ExpandError>
        requires { place < length words.now }
        ensures { Gives as_is result (killed_at self.now words.now place task) }
    {
        match task {
            None => self.killed_named(words, place),
            Some(task) => {
                if place + 1 < words.len() {
                    self.killed_named(words, place)
                } else {
                    Ok(Condition::Killed(task))
                }
            }
        }
    }

    /// The condition that the charge of a group is a size or more.
    fn current(
        &self,
        words: &[Filled],
        place: usize,
        word: &Filled,
    ) -> Result<Condition, ExpandError>
        requires { place < length words.now }
        ensures { Gives as_is result (current_at self.now words.now place word.now) }
    {
        let path = self.group_below_root(word)?;
        let size = word_at(words, place + 2)?;
        let pages = pages_of(size, Purpose::Used, self.page())?;
        Ok(Condition::Current { path, pages })
    }

    /// The condition at this place, by the groups and tasks that are there.
    pub fn condition(
        &self,
        words: &[Filled],
        place: usize,
        task: Option<u32>,
    ) -> Result<Condition, ExpandError>
        ensures { Gives as_is result (condition_at self.now words.now place task) }
    {
        let word = word_at(words, place)?;
        if word.is("killed") {
            self.killed(words, place, task)
        } else {
            self.current(words, place, word)
        }
    }
}

/// Only the oldest values are left, this number of them.
fn keep_oldest(values: &mut Vec<Named>, many: usize)
    ensures { values.new.items ≡ oldest values.old.items many }
{
    for _ in many..values.len() {
        let _newest = values.remove(0);
    }
}

fn is_there(groups: &[Path], path: &Path) -> bool
    ensures { result ≡ is_there groups.now path.now }
{
    if path.is_root() {
        return true;
    }
    for group in groups {
        if group.is(path) {
            return true;
        }
    }
    false
}

fn is_parent_there(groups: &[Path], path: &Path) -> bool
    ensures { result ≡ is_parent_there groups.now path.now }
{
    if path.names.len() == 1 {
        return true;
    }
    for group in groups {
        if path.has_parent(group) {
            return true;
        }
    }
    false
}

fn has_below(groups: &[Path], path: &Path) -> bool
    ensures { result ≡ has_below groups.now path.now }
{
    for group in groups {
        if group.is_below(path) {
            return true;
        }
    }
    false
}

fn place_of(groups: &[Path], path: &Path) -> Option<usize>
    ensures place { result ≡ position (λ group. same_path group path.now) groups.now }
    ensures within { IfSome result (λ place. place < length groups.now) }
{
    groups.iter().position(|group| group.is(path))
}

/// Removes the group of a path, if it is there.
fn remove(groups: &mut Vec<Path>, path: &Path)
    ensures { groups.new.items ≡ without groups.old.items path.now }
{
    match place_of(groups.as_slice(), path) {
        None => {}
        Some(place) => {
            let _removed = groups.remove(place);
        }
    }
}

/// Mentions these names.
fn mention_all(alloc: Global, names: &mut Names, path: &[Text]) -> Result<(), AllocError>
    ensures { OnOk result (names.new ≡ fold mentioned names.old path.now) }
{
    for name in path {
        names.mention(alloc, name.as_str())?;
    }
    Ok(())
}

/// A task's own number, if it has one.
pub fn own_number(index: Index) -> Option<u64>
    ensures { result ≡ own_number index }
{
    match index {
        Index::One(number) => Some(number),
        Index::Plain => None,
        Index::Range(_, _) => None,
        Index::All => None,
    }
}

/// `killed NAME`, or `killed` if it is of a task.
fn check_killed(words: &[Filled], place: usize, of_task: bool) -> Result<(), ExpandError>
    requires { place < length words.now }
    ensures { Gives as_is result (killed_form words.now place of_task) }
{
    if place + 1 < words.len() {
        return ends_at(words, place + 2);
    }
    if of_task {
        return Ok(());
    }
    word_at(words, place + 1)?;
    Ok(())
}

/// `PATH current SIZE`.
fn check_current(words: &[Filled], place: usize) -> Result<(), ExpandError>
    requires { place < length words.now }
    ensures { Gives as_is result (current_form words.now place) }
{
    expect_at(words, place + 1, "current")?;
    word_at(words, place + 2)?;
    ends_at(words, place + 3)
}

fn has_brace(text: &str) -> bool
    ensures { result ≡ list_any is_brace text.now }
{
    text.as_bytes()
        .iter()
        .any(|byte| *byte == b'{' || *byte == b'}')
}

/// A word that may name another: without quotes and braces.
pub fn checked_name(word: &Filled) -> Result<&str, ExpandError>
    ensures { Gives (λ name. name.now) result (checked_name word.now) }
{
    if word.quoted || word.text().is_empty() || has_brace(word.text()) {
        return Err(word.fault(Cause::Name));
    }
    Ok(word.text())
}
