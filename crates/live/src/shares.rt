//! How many transfers a pass began and ended.

ghost use Rattle.std.specs.Prelude.{◌≡◌};
ghost use Rattle.machine.specs.Transfers.{ends_transfer};
ghost use Rattle.live.specs.Matching.{begins, asks_end, ends, begun, ended, has_share};

use book::{Asked, Kept};
use machine::event::Event;
use machine::reply::Reply;

fn begins(kept: &Kept) -> bool
    ensures { result ≡ begins kept.now }
{
    match kept {
        Kept::Call { asked: _, said } => match said {
            Reply::Fetch(_) | Reply::Out(_) => true,
            _ => false,
        },
        Kept::Find { path: _, found: _ } => false,
    }
}

fn is_end(event: &Event) -> bool
    ensures { result ≡ ends_transfer event.now }
{
    match event {
        Event::Arrived { .. } => true,
        Event::FetchFailed(_) | Event::Left(_) | Event::LeaveFailed(_) => true,
        _ => false,
    }
}

fn asks_end(asked: &Asked) -> bool
    ensures { result ≡ asks_end asked.now }
{
    match asked {
        Asked::Arrival(_) => true,
        Asked::Whole(event) => is_end(event),
    }
}

fn ends(kept: &Kept) -> bool
    ensures { result ≡ ends kept.now }
{
    match kept {
        Kept::Call {
            asked,
            said: Reply::Ok,
        } => asks_end(asked),
        _ => false,
    }
}

fn begun(kept: &[Kept]) -> usize
    ensures { result ≡ begun kept.now }
{
    let mut count = 0;
    for one in kept {
        if begins(one) {
            count += 1;
        }
    }
    count
}

fn ended(kept: &[Kept]) -> usize
    ensures { result ≡ ended kept.now }
{
    let mut count = 0;
    for one in kept {
        if ends(one) {
            count += 1;
        }
    }
    count
}

/// Whether it began more transfers than it ended.
pub fn has_share(kept: &[Kept]) -> bool
    ensures { result ≡ has_share kept.now }
{
    ended(kept) < begun(kept)
}
