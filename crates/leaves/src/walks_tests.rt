//! Walks over every order of some actors' turns.

use orders::Fault;
use std::alloc::{AllocError, Global};
use walks::{Machine, Walk, walk_all};

/// Actors with a number of turns each. It gathers how long each run was.
#[derive(Drop)]
struct Counters {
    turns: Vec<u32>,
    left: Vec<u32>,
    taken: u32,
    lengths: Vec<u32>,
    /// From the second run on, no actor is ready.
    gives_up: bool,
}

impl Machine for Counters {
    ghost came = { λ m run. Unit {0} };

    ghost may = { λ m ready. Unit {0} };

    ghost gathered = { λ m runs. Unit {0} };

    ghost stays = { λ a b. Unit {0} };

    ghost same = { λ m. tt };

    ghost further = { λ a b c first second. tt };

    fn begin(&mut self) -> Result<(), AllocError> {
        self.left.clear();
        self.left.extend_from_slice(&self.turns)?;
        self.taken = 0;
        if self.gives_up && !self.lengths.is_empty() {
            self.left.clear();
        }
        Ok(())
    }

    fn ready(&self, alloc: Global) -> Result<Vec<u32>, AllocError> {
        let mut ready = Vec::new(alloc);
        for (who, turns) in self.left.iter().enumerate() {
            if *turns > 0 && who < 1000 {
                ready.push(who as u32)?;
            }
        }
        Ok(ready)
    }

    fn turn(&mut self, _ready: &[u32], who: u32) -> Result<(), AllocError> {
        if let Some(turns) = self.left.get_mut(who as usize) {
            *turns = turns.saturating_sub(1);
        }
        self.taken = self.taken.saturating_add(1);
        Ok(())
    }

    fn end(&mut self) -> Result<(), AllocError> {
        self.lengths.push(self.taken)?;
        Ok(())
    }
}

fn machine_of(alloc: Global, turns: &[u32], gives_up: bool) -> Result<Counters, AllocError> {
    Ok(Counters {
        turns: turns.to_vec(alloc)?,
        left: Vec::new(alloc),
        taken: 0,
        lengths: Vec::new(alloc),
        gives_up,
    })
}

/// What a walk over a machine's orders finds, how many runs with all turns it made, and how many others.
fn walked(
    alloc: Global,
    turns: &[u32],
    gives_up: bool,
    depth: usize,
    most: u64,
) -> Result<(Result<Walk, Fault>, usize, usize), AllocError> {
    let mut machine = machine_of(alloc, turns, gives_up)?;
    let found = walk_all(alloc, &mut machine, depth, most);
    let all = turns.iter().fold(0u32, |all, some| all.wrapping_add(*some));
    let runs = machine
        .lengths
        .iter()
        .filter(|length| **length == all)
        .count();
    Ok((found, runs, machine.lengths.len().wrapping_sub(runs)))
}

/// The turns of each actor, whether the machine gives up, the most turns and runs, what the walk finds, and how many runs
/// with all turns it made.
const WALKS: &[(&[u32], bool, usize, u64, Result<Walk, Fault>, usize)] = &[
    // Two turns and three have 10 orders; three, three and three have 9! / (3! 3! 3!) = 1,680.
    (&[2, 3], false, 5, 100, Ok(Walk::All(10)), 10),
    (&[3, 3, 3], false, 9, 2000, Ok(Walk::All(1680)), 1680),
    // A limit that is one too small is noticed, for the runs and for their turns.
    (&[2, 3], false, 5, 9, Ok(Walk::Stopped), 9),
    (&[2, 3], false, 4, 100, Ok(Walk::TooDeep), 0),
    // From the second run on, no actor is ready.
    (&[2, 3], true, 5, 100, Err(Fault::Changed), 1),
];

#[test]
fn every_order_is_walked_once(rt: HostRuntime) {
    for (turns, gives_up, depth, most, wanted, runs) in WALKS {
        let found = walked(rt.alloc(), turns, *gives_up, *depth, *most);
        assert_eq!(rt;
            found,
            Ok((*wanted, *runs, 0)),
            "{turns:?}, at most {depth} turns and {most} runs"
        );
    }
}
