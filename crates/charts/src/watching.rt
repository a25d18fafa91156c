//! Watches the groups of some paths through a run.

ghost use Rattle.std.specs.Prelude.{◌≡◌, ◌⊎◌, ◌++◌, ◌∷◌, [], map, option_map, true, false, IfOk, IfErr, OnOk};
ghost use Rattle.machine.specs.Call.{Past};
ghost use Rattle.book.specs.Looks.{look_at, stat_at};
ghost use Rattle.driver.specs.Schedule.{fits};
ghost use Rattle.driver.specs.Sinks.{IsCut};
ghost use Rattle.schedules.specs.Steps.{all_steps};
ghost use Rattle.charts.specs.Watched.{shown_at, row_at, machine_at, seen_at, expanded, IsWatched};
ghost use Rattle.charts.specs.WatchLaws.{IsOpened, IsShown};

use crate::kills::{Kill, Kills};
use block_store::BlockDevice;
use book::{Book, GroupLook};
use driver::{Closed, Config, FailedCall, Reply, Sink, Steps, Stop, run_into};
use machine::config::Watermarks;
use machine::event::Cause;
use machine::id::TaskId;
use machine::page_size::PageSize;
use machine::record::MemoryStat;
use machine::refusal::Refusal;
use std::alloc::{AllocError, Global};

/// What is shown of a path's group at one time: nothing if no group has the path.
#[derive(Clone, Copy, Debug, PartialEq, Eq)]
pub struct Shown {
    pub look: Option<GroupLook>,
    /// What its pages hold, if that was asked for.
    pub stat: Option<MemoryStat>,
}

/// The numbers of the machine at one time, in pages.
#[derive(Clone, Copy, Debug, PartialEq, Eq)]
pub struct Machine {
    /// Frames with a page.
    pub used: u64,
    /// Frames without one.
    pub free: u64,
    /// Swap blocks with a page.
    pub swap: u64,
}

/// What is shown of the machine and of all paths. It is the same after each of `steps` consecutive steps.
#[derive(Drop)]
pub struct Row {
    pub machine: Machine,
    pub groups: Vec<Shown>,
    pub steps: u64,
}

/// What the configuration says of a machine.
#[derive(Clone, Copy)]
pub struct Sizes {
    pub frames: u32,
    /// Swap blocks.
    pub swap: u32,
    pub watermarks: Watermarks,
    pub has_files: bool,
    /// How many bytes a page stands for.
    pub page_size: PageSize,
}

impl Sizes {
    fn of(config: &Config) -> Sizes
        ensures frames { result.frames ≡ config.now.frames }
        ensures swap { result.swap ≡ config.now.swap }
        ensures files { result.has_files ≡ false → config.now.files ≡ [] }
    {
        Sizes {
            frames: config.frames,
            swap: config.swap,
            watermarks: config.watermarks,
            has_files: !config.files.as_slice().is_empty(),
            page_size: config.page_size,
        }
    }
}

/// What a run showed.
#[derive(Drop)]
pub struct Watched<'p> {
    pub sizes: Sizes,
    /// In order of the steps.
    pub rows: Vec<Row>,
    pub kills: Vec<Kill<'p>>,
}

/// Looks at the groups of some paths.
#[derive(Drop)]
struct Watcher<'p> {
    alloc: Global,
    sizes: Sizes,
    paths: &'p [&'p str],
    is_detailed: bool,
    rows: Vec<Row>,
    kills: Kills<'p>,
    /// Memory was refused.
    is_lost: bool,
}

/// What the pages of a group hold, on a machine without files.
fn stat_without_files(look: Option<GroupLook>) -> Option<MemoryStat>
    ensures { result ≡ option_map (λ g. record { anon = g.usage; file = 0 }) look }
{
    match look {
        None => None,
        Some(look) => Some(MemoryStat {
            anon: look.usage,
            file: 0,
        }),
    }
}

/// What the pages of the group of this path hold. [`Book::stat`] goes through all page numbers, so it is asked only if
/// there are files.
fn stat_of(book: &Book, path: &str, look: Option<GroupLook>, sizes: Sizes) -> Option<MemoryStat>
    requires { look ≡ look_at book.now.state path.now }
    ensures { IsOpened sizes book.now → result ≡ stat_at book.now.state path.now }
{
    if sizes.has_files {
        return book.stat(path);
    }
    book.history_is_right();
    stat_without_files(look)
}

/// What is shown of the group of this path.
fn show(book: &Book, path: &str, sizes: Sizes, is_detailed: bool) -> Shown
    ensures { IsOpened sizes book.now → result ≡ shown_at is_detailed book.now path.now }
{
    let look = book.look(path);
    Shown {
        look,
        stat: if is_detailed {
            stat_of(book, path, look, sizes)
        } else {
            None
        },
    }
}

/// What is shown of the groups of all paths.
fn row_of(
    alloc: Global,
    book: &Book,
    paths: &[&str],
    sizes: Sizes,
    is_detailed: bool,
) -> Result<Vec<Shown>, AllocError>
    ensures { IfOk result (λ row. IsOpened sizes book.now → row.items ≡ row_at is_detailed (map (λ p. p.now) paths.now) book.now) }
{
    let mut row = Vec::new(alloc);
    for at in 0..paths.len() {
        row.push(show(book, paths[at], sizes, is_detailed))?;
    }
    Ok(row)
}

/// What is shown of the machine.
fn machine_of(book: &Book, sizes: Sizes) -> Machine
    ensures { IsOpened sizes book.now → result ≡ machine_at book.now }
{
    let tally = book.tally();
    Machine {
        used: u64::from(sizes.frames.saturating_sub(tally.free_frames)),
        free: u64::from(tally.free_frames),
        swap: u64::from(sizes.swap.saturating_sub(tally.free_blocks)),
    }
}

fn are_looks_equal(left: Option<GroupLook>, right: Option<GroupLook>) -> bool
    ensures { result ≡ true → left ≡ right }
{
    match (left, right) {
        (None, None) => true,
        (Some(left), Some(right)) => left == right,
        _ => false,
    }
}

fn are_stats_equal(left: Option<MemoryStat>, right: Option<MemoryStat>) -> bool
    ensures { result ≡ true → left ≡ right }
{
    match (left, right) {
        (None, None) => true,
        (Some(left), Some(right)) => left == right,
        _ => false,
    }
}

fn is_equal(left: &Shown, right: &Shown) -> bool
    ensures { result ≡ true → left.now ≡ right.now }
{
    are_looks_equal(left.look, right.look) && are_stats_equal(left.stat, right.stat)
}

fn is_same(left: &[Shown], right: &[Shown]) -> bool
    ensures { result ≡ true → left.now ≡ right.now }
{
    if left.len() != right.len() {
        return false;
    }
    for (at, shown) in left.iter().enumerate() {
        if !is_equal(shown, &right[at]) {
            return false;
        }
    }
    true
}

/// Whether the row shows this.
fn shows(row: &Row, machine: Machine, groups: &[Shown]) -> bool
    ensures { result ≡ true → (row.now.machine ≡ machine) × (row.now.groups.items ≡ groups.now) }
{
    row.machine == machine && is_same(&row.groups, groups)
}

/// Adds a row for one step. If it fails, rows are lost.
fn add_row(rows: &mut Vec<Row>, machine: Machine, groups: Vec<Shown>) -> Result<(), AllocError>
    ensures { OnOk result (expanded rows.new.items ≡ expanded rows.old.items ++ record { machine = machine; groups = groups.items } ∷ []) }
{
    match rows.pop() {
        None => rows.push(Row {
            machine,
            groups,
            steps: 1,
        })?,
        Some(last) => {
            if shows(&last, machine, &groups) && last.steps < u64::MAX {
                let steps = last.steps + 1;
                rows.push(Row {
                    machine,
                    groups,
                    steps,
                })?;
            } else {
                rows.push(last)?;
                rows.push(Row {
                    machine,
                    groups,
                    steps: 1,
                })?;
            }
        }
    }
    Ok(())
}

impl<'p> Watcher<'p> {
    fn add(&mut self, book: &Book) -> Result<(), AllocError>
        ensures paths { (self.new.paths ≡ self.old.paths) × (self.new.is_detailed ≡ self.old.is_detailed) × (self.new.is_lost ≡ self.old.is_lost) }
        ensures sizes { self.new.sizes ≡ self.old.sizes }
        ensures added { OnOk result (IsOpened self.old.sizes book.now → expanded self.new.rows.items ≡ expanded self.old.rows.items ++ seen_at self.old.is_detailed (map (λ p. p.now) self.old.paths.now) book.now ∷ []) }
    {
        self.kills.find(book, self.paths)?;
        let groups = row_of(self.alloc, book, self.paths, self.sizes, self.is_detailed)?;
        let machine = machine_of(book, self.sizes);
        add_row(&mut self.rows, machine, groups)
    }
}

impl<'p> Sink for Watcher<'p> {
    ghost took = { λ a b xs. Unit {0} };

    ghost failed = { λ a b begun. Unit {0} };

    ghost saw = { λ a b pasts. IsShown a.is_lost b.is_lost a.is_detailed b.is_detailed a.sizes b.sizes (map (λ p. p.now) a.paths.now) (map (λ p. p.now) b.paths.now) a.rows.items b.rows.items pasts };

    fn take(&mut self, step: usize, reply: Reply) -> Result<(), Closed> {
        if self.kills.take(step, &reply.answer).is_err() {
            self.is_lost = true;
        }
        if self.is_lost { Err(Closed) } else { Ok(()) }
    }

    fn look(&mut self, _step: usize, book: &Book) {
        if !self.is_lost && self.add(book).is_err() {
            self.is_lost = true;
        }
    }

    fn see_relief(&mut self, _step: usize, book: &Book, _cause: Cause) {
        if !self.is_lost && self.kills.find(book, self.paths).is_err() {
            self.is_lost = true;
        }
    }

    fn see_failure(&mut self, _step: usize, _book: &Book, _call: FailedCall) {}

    ghost use Rattle.charts.specs.WatchLaws.{shown-none, shown-more};

    ghost nothing = { λ s. tt };

    ghost more = { λ a b c xs ys first second. tt };

    ghost stays = { λ s. tt };

    ghost unseen = { λ s. shown-none s.is_lost s.is_detailed s.sizes (map (λ p. p.now) s.paths.now) s.rows.items };

    ghost further = { λ a b c ps qs first second. shown-more a.is_lost b.is_lost c.is_lost a.is_detailed b.is_detailed c.is_detailed a.sizes b.sizes c.sizes (map (λ p. p.now) a.paths.now) (map (λ p. p.now) b.paths.now) (map (λ p. p.now) c.paths.now) a.rows.items b.rows.items c.rows.items ps qs first second };
}

/// Runs a schedule, and keeps what the groups of these paths are charged with after each step, and how many frames and
/// swap blocks are in use. It also keeps what the pages of the groups hold, if that is asked for.
///
/// It fails as [`driver::run`] does.
pub fn watch<'p, D: BlockDevice>(
    alloc: Global,
    config: Config,
    device: &mut D,
    steps: Steps<'_>,
    paths: &'p [&'p str],
    is_detailed: bool,
) -> Result<Watched<'p>, Refusal>
    ensures watched { IfOk result (λ w. IsWatched config (D.disk device.old) (all_steps steps.entry) (map (λ p. p.now) paths.now) is_detailed w.rows.items) }
    ensures err { IfErr result (λ cause. (cause ≡ Refusal.Invalid) × (fits config (D.disk device.old) ≡ false) ⊎ (cause ≡ Refusal.NoMemory) × (fits config (D.disk device.old) ≡ true)) }
{
    let sizes = Sizes::of(&config);
    let mut watcher = Watcher {
        alloc,
        sizes,
        paths,
        is_detailed,
        rows: Vec::new(alloc),
        kills: Kills::new(alloc),
        is_lost: false,
    };
    let ran = run_into(alloc, config, device, steps, &mut watcher);
    let Watcher {
        rows,
        kills,
        is_lost,
        ..
    } = watcher;
    match ran {
        Err(Stop::Refused(cause)) => Err(cause),
        Err(Stop::Closed) => Err(Refusal::NoMemory),
        Ok(_) => {
            if is_lost {
                return Err(Refusal::NoMemory);
            }
            Ok(Watched {
                sizes,
                rows,
                kills: kills.all,
            })
        }
    }
}
