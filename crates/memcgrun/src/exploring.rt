//! What `memcgrun explore` does.

ghost use Rattle.std.specs.Prelude.{◌≤◌};

use command_line::Exploration;
use explore::{Asked, Choice, Fault, Sample, Verdict, explore_script};
use std::alloc::Global;
use std::io::Write;

/// The sample, if one is asked for.
fn sample_of(exploration: &Exploration<'_>) -> Option<Sample> {
    match exploration.sample {
        Some(orders) => Some(Sample {
            orders,
            seed: exploration.seed.unwrap_or(0),
        }),
        None => None,
    }
}

fn choice_of(exploration: &Exploration<'_>) -> Choice {
    if exploration.every {
        Choice::Any
    } else {
        Choice::DeviceFirst
    }
}

/// What an exploration is asked for. What is not given is as usual.
fn asked_of(exploration: &Exploration<'_>) -> Asked {
    let usual = Asked::default();
    Asked {
        orders: exploration.orders.unwrap_or(usual.orders),
        sample: sample_of(exploration),
        turns: exploration.turns.unwrap_or(usual.turns),
        choice: choice_of(exploration),
        waits: exploration.waits,
        placement: exploration.placement,
        show: exploration.show,
    }
}

/// Reports why a script was not explored.
fn tell_fault<E: Write>(err: &mut E, name: &str, fault: Fault) {
    // The status reports the failure even if its line can't be written.
    let _ = match fault {
        Fault::Memory => writeln!(err, "memcgrun: out of memory"),
        fault => {
            if fault.is_silent() {
                return;
            }
            writeln!(err, "{name}: {fault}")
        }
    };
}

/// Reports that not all orders were run, or that there is more than the one outcome that was expected. The result says
/// whether it reported something.
fn tell_verdict<E: Write>(
    err: &mut E,
    name: &str,
    exploration: &Exploration<'_>,
    verdict: Verdict,
) -> bool {
    // The status reports the failure even if its line can't be written.
    let _ = match verdict {
        Verdict::Sample(_) => return false,
        Verdict::All(outcomes) => {
            if !exploration.expects_one || outcomes == 1 {
                return false;
            }
            writeln!(err, "{name}: expected one outcome, got {outcomes}")
        }
        Verdict::MoreOrders(orders) => writeln!(
            err,
            "{name}: more than {orders} orders: not all were run; --orders N allows more"
        ),
        Verdict::MoreTurns(turns) => writeln!(
            err,
            "{name}: an order has more than {turns} turns: not all were run; --turns N allows more"
        ),
    };
    true
}

/// Explores a script that was read. The status is 0 if all orders were run, or all of the sample, and all that was
/// expected is so.
pub fn explore_bytes<O: Write, E: Write>(
    alloc: Global,
    exploration: &Exploration<'_>,
    name: &str,
    bytes: &[u8],
    out: &mut O,
    err: &mut E,
) -> u8
    ensures success_or_failure { result ≤ 1 }
{
    match explore_script(alloc, asked_of(exploration), bytes, out) {
        Ok(verdict) => {
            if tell_verdict(err, name, exploration, verdict) {
                1
            } else {
                0
            }
        }
        Err(fault) => {
            tell_fault(err, name, fault);
            1
        }
    }
}
