//! A book with the marks of its frames.

ghost use Rattle.std.specs.Prelude.{◌≡◌, ◌⊎◌, ℕ, ◌+◌, ◌<◌, ◌≤◌, true, false, reverse, IfOk, IfErr, OnErr};
ghost use Rattle.machine.specs.Pages.{used_frames};
ghost use Rattle.machine.specs.State.{opening_of, is_config};
ghost use Rattle.machine.specs.History.{Honest, Right, at_first};
ghost use Rattle.machine.specs.Legal.{Legal};
ghost use Rattle.machine.specs.Call.{Past, first_past, Called};
ghost use Rattle.book.specs.Passes.{is_current};
ghost use Rattle.book_events.specs.Events.{event_of, reply_of};
ghost use Rattle.book_events.specs.Replies.{Replies, KeepsTicket, HandsOut};
ghost use Rattle.driver.specs.Hits.{HitsWithin};
ghost use Rattle.driver.specs.Schedule.{MarksAfter};
ghost use Rattle.turns.specs.Tickets.{blocks_in, OwnEvent, OwnReply, IsHanded};

use crate::calls;
use crate::hits::HitMarks;
use book::{Book, Event, Pass, Reply};
use machine::config::{Config, Placement, Watermarks};
use machine::page_size::PageSize;
use machine::refusal::Refusal;
use std::alloc::{AllocError, Global};
use std::marker::Model;

/// A book whose pages are marked when they are hit. A contract sees it as the book's past.
///
/// It must be spent, by [`MarkedBook::into_book`].
#[must_use]
pub struct MarkedBook {
    book: Book,
    hits: HitMarks,
}

impl Model for MarkedBook {
    ghost use Rattle.machine.specs.Call.{Past};

    ghost Value = { Past };

    ghost use Rattle.std.specs.Prelude.{◌≡◌};

    ghost view = { λ m. m.book };

    ghost invariant = { λ m. m.hits ≡ m.book.state.opening.frames };
}

impl MarkedBook {
    /// A book with only the root group. It fails as [`Book::open`] does.
    pub fn open(alloc: Global, config: Config) -> Result<MarkedBook, Refusal>
        ensures opens { IfOk result (λ book. book ≡ first_past (opening_of config)) }
        ensures sized { IfOk result (λ book. is_config config ≡ true) }
        ensures err { IfErr result (λ cause. (cause ≡ Refusal.Invalid) × (is_config config ≡ false) ⊎ (cause ≡ Refusal.NoMemory) × (is_config config ≡ true)) }
    {
        let frames = config.frames;
        let book = Book::open(alloc, config)?;
        match HitMarks::open(alloc, frames) {
            Ok(hits) => Ok(MarkedBook { book, hits }),
            Err(AllocError) => {
                let _ = book.close();
                Err(Refusal::NoMemory)
            }
        }
    }

    /// The book.
    pub fn book(&self) -> &Book
        ensures { result.now ≡ self.now }
    {
        &self.book
    }

    /// The number of free frames, as the book says.
    pub fn free_frames(&self) -> u32
        ensures { result + used_frames self.now.state.pages ≡ self.now.state.opening.frames }
    {
        self.book.free_frames()
    }

    /// The daemon's watermarks, as the book says.
    pub fn watermarks(&self) -> Watermarks
        ensures { result ≡ self.now.state.opening.watermarks }
    {
        self.book.watermarks()
    }

    /// Where pages that are read in enter the generation lists, as the book says.
    pub fn placement(&self) -> Placement
        ensures { result ≡ self.now.state.opening.placement }
    {
        self.book.placement()
    }

    /// How many bytes a page stands for in amounts and texts.
    pub fn page_size(&self) -> PageSize
        ensures { result.bytes ≡ self.now.state.opening.page_size }
    {
        self.book.page_size()
    }

    /// Does nothing. The clause says what holds of the book's history.
    pub fn history_is_right(&self)
        ensures legal { Legal self.now.state.opening self.now.history self.now.state }
        ensures right { (files : ℕ → ℕ → ℕ → ℕ) → Honest (at_first files) self.now.history → Right (at_first files) self.now.history }
    {
        self.book.history_is_right();
    }

    /// A pass for another worker. It fails as [`Book::pass`] does.
    pub fn pass(&mut self) -> Result<Pass, Refusal>
        ensures pass { IfOk result (λ pass. pass.caller.worker ≡ self.old.passes) }
        ensures current { IfOk result (λ pass. is_current self.new pass ≡ true) }
        ensures ok { IfOk result (λ pass. self.new ≡ record self.old { passes = self.old.passes + 1 }) }
        ensures unchanged { OnErr result (self.new ≡ self.old) }
    {
        self.book.pass()
    }

    /// One event of the book, by a pass that is current, as [`calls::call`] asks it. If `marks` is set, a page that the
    /// event hits is marked.
    pub fn call(&mut self, pass: &mut Pass, event: Event, marks: bool) -> Reply
        requires current { is_current self.old pass.old ≡ true }
        requires room { 2 ≤ pass.old.room }
        requires own { OwnEvent pass.old.caller.worker (blocks_in self.old.state.opening) event }
        ensures called { (mid : Past) × Called self.old pass.old.caller (event_of event) (reply_of result) mid × HandsOut mid pass.old.caller.worker result × MarksAfter marks pass.old.caller mid (reply_of result) self.new }
        ensures keeps { KeepsTicket pass.old.caller.worker event result }
        ensures replies { Replies event result }
        ensures own { OwnReply pass.old.caller.worker (blocks_in self.old.state.opening) result }
        ensures handed { IsHanded result }
        ensures pass { pass.new.caller ≡ pass.old.caller }
        ensures current { is_current self.new pass.new ≡ true }
        ensures room { pass.old.room ≤ pass.new.room + 1 }
        ensures opening { self.new.state.opening ≡ self.old.state.opening }
    {
        let reply = calls::call(&mut self.book, pass, event);
        self.mark_hit(pass, &reply, marks);
        reply
    }

    /// Marks the page that the reply reports as hit, if there is one and `marks` is set.
    fn mark_hit(&mut self, pass: &mut Pass, reply: &Reply, marks: bool)
        requires within { HitsWithin self.old.state.opening.frames reply.now }
        requires current { is_current self.old pass.old ≡ true }
        requires room { 0 < pass.old.room }
        ensures marks { MarksAfter marks pass.old.caller self.old (reply_of reply.now) self.new }
        ensures pass { pass.new ≡ pass.old }
        ensures current { is_current self.new pass.new ≡ true }
        ensures opening { self.new.state.opening ≡ self.old.state.opening }
    {
        if let Reply::Done {
            byte: _,
            hit: Some(frame),
        } = reply
        {
            if marks {
                let bits = self.hits.note(frame.0);
                let word = frame.0 / 64;
                calls::merge(&mut self.book, pass, word, bits);
            }
        }
    }

    /// Returns the book.
    pub fn into_book(self) -> Book
        ensures { result ≡ self }
    {
        let MarkedBook { book, hits: _ } = self;
        book
    }
}
