//! The joined parts, and reading them.

ghost use Rattle.std.specs.Prelude.{◌≡◌, ℕ, ◌+◌, ◌<◌, ◌≤◌, [], true, Some, IfSome, IfOk, length};
ghost use Rattle.machine.specs.Tree.{is_live};
ghost use Rattle.machine.specs.State.{first_state, opening_of, is_config};
ghost use Rattle.machine.specs.Pages.{page_at, is_frame_taken, used_frames, used_swap, in_transfer};
ghost use Rattle.machine.specs.Tasks.{lives, group_of_task, mapped_at};
ghost use Rattle.machine.specs.Access.{task_pages};
ghost use Rattle.machine.specs.Lists.{first_order, ListsHeld, AreGenerations};
ghost use Rattle.pages.specs.PagesOf.{AreInFlight, AreFiled};
ghost use Rattle.page_state.specs.States.{byte_at};
ghost use Rattle.page_state.specs.Mapped.{AreMapped};

use crate::parts::Parts;
use files::Files;
use group_tree::{Flags, Tree};
use machine::config::{Config, Placement, Watermarks};
use machine::page_size::PageSize;
use memory_events::Events;
use pages::Pages;
use reclaim::Cursors;
use spaces::Spaces;
use std::alloc::{AllocError, Global};
use std::marker::Model;

/// The groups with their limits and flags, the pages with what they own, the tasks with what they map, and
/// the counts of events. [`State::close`] must spend it.
#[must_use]
pub struct State {
    pub(crate) config: Config,
    pub(crate) tree: Tree,
    pub(crate) flags: Flags,
    pub(crate) parts: Parts,
    pub(crate) cursors: Cursors,
    pub(crate) events: Events,
    pub(crate) spaces: Spaces,
}

impl Model for State {
    ghost use Rattle.page_state.specs.States.{StateOf};

    ghost Value = { StateOf };

    ghost use Rattle.page_state.specs.Joined.{joined_of, IsJoined};

    ghost view = { joined_of };

    ghost invariant = { IsJoined };
}

impl State {
    /// Only the root, with all frames and all swap blocks free.
    pub fn open(alloc: Global, config: Config) -> Result<State, AllocError>
        requires { is_config config ≡ true }
        ensures tables { IfOk result (λ s. s.tables ≡ first_state (opening_of config)) }
        ensures order { IfOk result (λ s. s.order ≡ first_order (opening_of config)) }
        ensures bytes { IfOk result (λ s. (t v o : ℕ) → byte_at s t v o ≡ 0) }
        ensures flights { IfOk result (λ s. s.flights ≡ []) }
    {
        let tree = Tree::open(alloc)?;
        let flags = Flags::new(alloc)?;
        let events = Events::new(alloc)?;
        let cursors = Cursors::new(alloc)?;
        let files = Files::open(alloc, &config.files, config.swap)?;
        let parts = Parts::open(alloc, config.frames, config.swap, files)?;
        let Ok(spaces) = Spaces::new(alloc, parts.pages.numbers()) else {
            parts.close();
            return Err(AllocError);
        };
        Ok(State {
            config,
            tree,
            flags,
            parts,
            cursors,
            events,
            spaces,
        })
    }

    /// Spends it: each frame and each slot goes back, and each charge is uncharged.
    pub fn close(self) {
        let State {
            config: _,
            tree: _,
            flags: _,
            parts,
            cursors: _,
            events: _,
            spaces: _,
        } = self;
        parts.close();
    }

    /// The groups.
    pub fn tree(&self) -> &Tree
        ensures { result.now ≡ self.now.tables.tree }
    {
        &self.tree
    }

    /// Which groups the OOM killer kills as one.
    pub fn flags(&self) -> &Flags
        ensures { result.now.flags ≡ self.now.tables.flags }
    {
        &self.flags
    }

    /// How many frames are free.
    pub fn free_frames(&self) -> u32
        ensures { result + used_frames self.now.tables.pages ≡ self.now.tables.opening.frames }
    {
        self.parts.pool.free()
    }

    /// How many swap blocks are free.
    pub fn free_blocks(&self) -> u32
        ensures { result + used_swap self.now.tables.pages ≡ self.now.tables.opening.swap }
    {
        self.parts.slots.free()
    }

    /// How many pages are in transfer.
    pub fn transfers(&self) -> u32
        ensures { result ≡ in_transfer self.now.tables.pages }
    {
        self.parts.moving.len() as u32
    }

    /// The daemon's watermarks.
    pub fn watermarks(&self) -> Watermarks
        ensures { result ≡ self.now.tables.opening.watermarks }
    {
        self.config.watermarks
    }

    /// Which generation list a page enters when it is read in.
    pub fn placement(&self) -> Placement
        ensures { result ≡ self.now.tables.opening.placement }
    {
        self.config.placement
    }

    /// How many bytes a page stands for in amounts and texts.
    pub fn page_size(&self) -> PageSize
        ensures { result.bytes ≡ self.now.tables.opening.page_size }
    {
        self.config.page_size
    }

    /// The limit of the trace, in entries.
    pub fn limit(&self) -> usize
        ensures { result ≡ self.now.tables.opening.trace_limit }
    {
        self.config.trace as usize
    }

    /// The tasks, and what their virtual pages map.
    pub fn spaces(&self) -> &Spaces
        ensures tasks { result.now.tasks ≡ self.now.tables.tasks }
        ensures page_tables { result.now.page_tables ≡ self.now.tables.page_tables }
    {
        &self.spaces
    }

    /// The pages, lent for reading.
    pub fn pages(&self) -> &Pages
        ensures pages { result.now.pages ≡ self.now.tables.pages }
        ensures bytes { result.now.bytes ≡ self.now.bytes }
        ensures flights { result.now.flights ≡ self.now.flights }
        ensures files { result.now.files ≡ record { first = self.now.tables.opening.swap; sizes = self.now.tables.opening.files } }
    {
        &self.parts.pages
    }

    /// Does nothing. The contract states what holds of all joined parts:
    ///
    /// - What the opening determined is within its limits.
    /// - The root exists, and so do the group of each live task and the group of each page.
    /// - The pages that are mapped exist, live tasks map them, and no page of a file is mapped.
    /// - The transfers in flight are those of the pages in transfer.
    /// - No page of a file exists twice, and each has its home.
    /// - Each held page is on the list of its group and type, once, and no other page is.
    /// - Each group has its lists, two to four generations of each type, and its cursor.
    /// - Each frame that a page has is one of the opening's.
    pub fn is_joined(&self)
        ensures limit { self.now.tables.opening.trace_limit ≤ 1048576 }
        ensures root { is_live self.now.tables.tree 0 ≡ true }
        ensures homes { (t : ℕ) → lives self.now.tables.tasks t ≡ true → is_live self.now.tables.tree (group_of_task self.now.tables.tasks t) ≡ true }
        ensures groups { (p : ℕ) → IfSome (page_at self.now.tables.pages p) (λ page. is_live self.now.tables.tree page.group ≡ true) }
        ensures mapped { AreMapped self.now.tables.pages self.now.tables.page_tables }
        ensures owners { (t v p : ℕ) → mapped_at self.now.tables.page_tables t v ≡ Some p → lives self.now.tables.tasks t ≡ true }
        ensures inside { (t v p : ℕ) → mapped_at self.now.tables.page_tables t v ≡ Some p → v < task_pages }
        ensures flights { AreInFlight self.now.tables.pages self.now.flights }
        ensures filed { AreFiled (record { first = self.now.tables.opening.swap; sizes = self.now.tables.opening.files }) self.now.tables.pages }
        ensures listed { ListsHeld self.now.tables.pages self.now.order.held }
        ensures generations { AreGenerations self.now.order.held }
        ensures lists { length self.now.order.held.groups ≡ length self.now.tables.tree }
        ensures cursors { length self.now.order.cursors ≡ length self.now.tables.tree }
        ensures framed { (f : ℕ) → is_frame_taken self.now.tables.pages f ≡ true → f < self.now.tables.opening.frames }
    {
        self.parts.counters.are_counted();
        self.parts.pages.are_in_flight();
        self.parts.pages.are_filed();
        self.parts.held.are_generations();
        self.spaces.owners();
    }
}
