//! The words of `memcgrun explore`.

use crate::forms::{EVERY, EXPECT_ONE, ORDERS, SAMPLE, SEED, SHOW, TURNS, WAIT};
use crate::options::FILE;
use crate::words::placement_of;
use clap::ArgMatches;
use machine::config::Placement;

/// What an exploration is asked for, and the path of its script.
#[derive(Clone, Copy)]
pub struct Exploration<'a> {
    pub file: &'a str,
    /// The most orders that are run, if they are given.
    pub orders: Option<u64>,
    /// How many orders are drawn at random, if not all are run.
    pub sample: Option<u64>,
    /// The seed of the sample, if it is given.
    pub seed: Option<u64>,
    /// The most turns of an order, if they are given.
    pub turns: Option<u32>,
    /// Every order is run, and not only those in which calls of the device come first.
    pub every: bool,
    pub placement: Placement,
    /// The outcome whose first order is shown as a script.
    pub show: Option<u64>,
    /// A second outcome is a failure.
    pub expects_one: bool,
    /// Commands wait for the end of a transfer.
    pub waits: bool,
}

/// What the words of the subcommand ask for.
pub fn exploration_of<'a>(explore: &ArgMatches<'a>) -> Exploration<'a> {
    Exploration {
        file: explore.get_str(FILE).unwrap_or(""),
        orders: explore.get_one(ORDERS),
        sample: explore.get_one(SAMPLE),
        seed: explore.get_one(SEED),
        turns: explore.get_one(TURNS),
        every: explore.get_flag(EVERY),
        placement: placement_of(explore),
        show: explore.get_one(SHOW),
        expects_one: explore.get_flag(EXPECT_ONE),
        waits: explore.get_flag(WAIT),
    }
}
