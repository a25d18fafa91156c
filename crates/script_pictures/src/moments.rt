//! What happened at a line, above the curves: phases that begin, and deaths.

use crate::axis::{Axis, Place};
use charts::Kill;
use drafts::Draft;
use pictures::{Moments, Sign, add_escaped};
use std::alloc::{AllocError, Global};

/// The most kills that the text of a cross names.
const MOST_NAMED: usize = 3;

/// The phases that begin.
pub fn phases_of(alloc: Global, axis: &Axis<'_>) -> Result<Moments, AllocError> {
    let mut phases = Moments::new(alloc, Sign::Line, 3);
    for part in axis.parts.iter() {
        if !part.name.is_empty() {
            let mut title = Draft::new(alloc);
            add_escaped(&mut title, part.name);
            phases.add(alloc, part.left, part.name, title)?;
        }
    }
    Ok(phases)
}

/// The kills at one place.
#[derive(Drop)]
struct Deaths {
    /// The first line, and the number of the last.
    place: Place,
    last: u64,
    count: usize,
    /// The first of them.
    text: Draft,
    /// All of them, as markup.
    all: Draft,
}

/// Adds who was killed: the text with the path as it is, or as markup.
fn add_killed(text: &mut Draft, kill: Kill<'_>, is_markup: bool) {
    let task = u64::from(kill.task.0);
    if kill.with_group.is_none() {
        text.text("task ");
        text.number(task);
        text.text(" in ");
    } else {
        text.text("group ");
    }
    if is_markup {
        add_escaped(text, kill.path);
    } else {
        text.text(kill.path);
    }
    if let Some(tasks) = kill.with_group {
        text.text(": task ");
        text.number(task);
        if tasks != 1 {
            write!(text, " and {} more", tasks.saturating_sub(1));
        }
    }
}

impl Deaths {
    fn new(alloc: Global, place: Place) -> Deaths {
        Deaths {
            place,
            last: place.line,
            count: 0,
            text: Draft::new(alloc),
            all: Draft::new(alloc),
        }
    }

    /// Adds a kill of the line with this number.
    fn add(&mut self, line: u64, kill: Kill<'_>) {
        self.last = line;
        if self.count > 0 {
            self.all.text(", ");
        }
        add_killed(&mut self.all, kill, true);
        if self.count < MOST_NAMED {
            if self.count > 0 {
                self.text.text(", ");
            }
            add_killed(&mut self.text, kill, false);
        }
        self.count = self.count.saturating_add(1);
    }

    /// The lines, and all who were killed, as markup.
    fn title(&self, alloc: Global) -> Draft {
        let mut title = Draft::new(alloc);
        title.text(if self.place.line == self.last {
            "line "
        } else {
            "lines "
        });
        title.number(self.place.line);
        if self.place.line != self.last {
            title.text(" to ");
            title.number(self.last);
        }
        title.text(": killed ");
        title.add(&self.all);
        title
    }

    /// Adds the moment of these kills.
    fn note(mut self, alloc: Global, moments: &mut Moments) -> Result<(), AllocError> {
        let title = self.title(alloc);
        let more = self.count.saturating_sub(MOST_NAMED);
        if more > 0 {
            write!(self.text, " and {more} more");
        }
        let text = self.text.finish()?;
        moments.add(alloc, self.place.across, text.as_str(), title)
    }
}

/// The lines in which tasks were killed. Those at one place are one.
pub fn deaths_of(
    alloc: Global,
    axis: &Axis<'_>,
    kills: &[Kill<'_>],
) -> Result<Moments, AllocError> {
    let mut moments = Moments::new(alloc, Sign::Cross, 5);
    let mut last: Option<Deaths> = None;
    for kill in kills {
        let place = axis.step(kill.step as u64);
        let mut deaths = match last {
            Some(deaths) if deaths.place.across == place.across => deaths,
            Some(others) => {
                others.note(alloc, &mut moments)?;
                Deaths::new(alloc, place)
            }
            None => Deaths::new(alloc, place),
        };
        deaths.add(place.line, *kill);
        last = Some(deaths);
    }
    if let Some(deaths) = last {
        deaths.note(alloc, &mut moments)?;
    }
    Ok(moments)
}
