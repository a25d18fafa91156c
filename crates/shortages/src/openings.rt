//! What is opened: a book, its passes and their room, and marks of frames.

use crate::hunt::Hunt;
use crate::walk::config;
use book::{Book, Pass};
use machine::config::Config;
use machine::refusal::Refusal;
use marks::Marks;

/// How many frames the opened marks have.
const FRAMES: u32 = 100;

/// The step is refused for this cause, which has to be `NoMemory`.
fn deny(hunt: &mut Hunt, name: &'static str, cause: Refusal) {
    hunt.demand(
        cause == Refusal::NoMemory,
        "an opening is refused for another cause",
    );
    hunt.refused(name);
}

/// Opens a book, takes five passes from it, and closes it.
pub fn open(hunt: &mut Hunt) {
    match config(hunt.alloc()) {
        Ok(config) if hunt.begins() => open_with(hunt, config),
        Ok(_) => {}
        Err(_) => hunt.demand(false, "there is nothing to open"),
    }
}

fn open_with(hunt: &mut Hunt, config: Config) {
    let opened = match Book::open(hunt.alloc(), config) {
        Ok(book) => Ok(book),
        Err(cause) => {
            deny(hunt, "open", cause);
            open_again(hunt)
        }
    };
    match opened {
        Ok(mut book) => {
            give_passes(hunt, &mut book);
            let _ = book.close();
        }
        Err(_) => hunt.demand(false, "a book is not opened"),
    }
}

fn open_again(hunt: &Hunt) -> Result<Book, Refusal> {
    match config(hunt.alloc()) {
        Ok(config) => Book::open(hunt.alloc(), config),
        Err(_) => Err(Refusal::NoMemory),
    }
}

/// The book makes room for passes at the first pass, and at the fifth.
fn give_passes(hunt: &mut Hunt, book: &mut Book) {
    if let Some(mut pass) = give(hunt, book, "first pass") {
        reserve(hunt, &mut pass, "reserve");
        reserve(hunt, &mut pass, "reserve what is there");
    }
    give(hunt, book, "second pass");
    give(hunt, book, "third pass");
    give(hunt, book, "fourth pass");
    give(hunt, book, "fifth pass");
}

fn give(hunt: &mut Hunt, book: &mut Book, name: &'static str) -> Option<Pass> {
    let passes = book.passes();
    let given = match book.pass() {
        Ok(pass) => Some(pass),
        Err(cause) => {
            deny(hunt, name, cause);
            hunt.demand(book.passes() == passes, "a refused pass is counted");
            book.pass().ok()
        }
    };
    let worker = given.as_ref().map(|pass| pass.worker().0);
    hunt.demand(worker == Some(passes), "a pass is another worker's");
    given
}

fn reserve(hunt: &mut Hunt, pass: &mut Pass, name: &'static str) {
    if let Err(cause) = pass.reserve(1) {
        deny(hunt, name, cause);
        let again = pass.reserve(1);
        hunt.demand(again.is_ok(), "a pass gets no room");
    }
}

/// Opens marks.
pub fn open_marks(hunt: &mut Hunt) {
    if !hunt.begins() {
        return;
    }
    let opened = match Marks::open(hunt.alloc(), FRAMES) {
        Ok(opened) => Some(opened),
        Err(_) => {
            hunt.refused("marks");
            Marks::open(hunt.alloc(), FRAMES).ok()
        }
    };
    let frames = opened.map(|(marks, _)| marks.frames());
    hunt.demand(frames == Some(FRAMES), "marks are not opened");
}
