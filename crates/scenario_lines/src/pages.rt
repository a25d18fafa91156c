//! The pages that a line names, in their order.

ghost use Rattle.std.specs.Prelude.{◌≡◌, ◌<◌, true};
ghost use Rattle.scenario_lines.specs.Pages.{page_count, page_at, fits, run_between};

use scenarios::draws::draw;

/// Pages of a task or of a file, known by their number and by the one of each place. No list of them is kept.
#[derive(Clone, Copy, Debug, PartialEq, Eq)]
pub enum Pages {
    /// `count` pages, in sequence.
    Run {
        first: u32,
        count: u32,
    },
    /// `count` pages, each drawn from those of a part. One may come twice.
    Drawn {
        from: u32,
        to: u32,
        seed: u32,
        count: u32,
    },
    /// `count` pages of a file that has `size` pages. Its last page is followed by its first.
    Round {
        first: u32,
        size: u32,
        count: u32,
    },
}

impl Pages {
    /// Those from a first one to before another.
    pub fn between(first: u32, after: u32) -> Pages
        ensures sound { fits result ≡ true }
        ensures is { result ≡ run_between first after }
    {
        Pages::Run {
            first,
            count: after.saturating_sub(first),
        }
    }

    /// How many they are.
    pub fn count(self) -> u32
        ensures { result ≡ page_count self }
    {
        match self {
            Pages::Run { count, .. } | Pages::Drawn { count, .. } | Pages::Round { count, .. } => {
                count
            }
        }
    }

    /// Whether each of them is a number: a run ends within them, and the part to draw from or the file is not empty.
    pub fn fits(self) -> bool
        ensures { result ≡ fits self }
    {
        match self {
            Pages::Run { first, count } => count <= u32::MAX - first,
            Pages::Drawn { from, to, .. } => from < to,
            Pages::Round { size, .. } => 0 < size,
        }
    }

    /// The one of this place, from 0.
    pub fn at(self, place: u32) -> u32
        requires sound { fits self ≡ true }
        requires within { place < page_count self }
        ensures { result ≡ page_at self place }
    {
        match self {
            Pages::Run { first, .. } => first + place,
            Pages::Drawn { from, to, seed, .. } => draw(seed, place + 1, from, to),
            Pages::Round { first, size, .. } => {
                ((u64::from(first) + u64::from(place)) % u64::from(size)) as u32
            }
        }
    }
}
