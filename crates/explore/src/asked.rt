//! What an exploration is asked for.

use explorer::Choice;
use machine::config::Placement;

/// A sample of the orders.
#[derive(Clone, Copy, Debug, PartialEq, Eq)]
pub struct Sample {
    /// How many orders are drawn at random.
    pub orders: u64,
    /// The same seed draws the same orders.
    pub seed: u64,
}

/// What an exploration is asked for.
#[derive(Clone, Copy, Debug, PartialEq, Eq)]
pub struct Asked {
    /// The most orders that are run. A sample has its own number.
    pub orders: u64,
    /// A sample is run in place of all orders.
    pub sample: Option<Sample>,
    /// The most turns of an order.
    pub turns: u32,
    /// Which actors can take the next turn. If a call of the device can fail, this is not heeded: each that is ready can.
    pub choice: Choice,
    /// Whether commands wait for the end of a transfer. Then an order with an answer `busy` in the work is left out.
    pub waits: bool,
    /// Where pages that are read in enter the generation lists.
    pub placement: Placement,
    /// The outcome, counted from 1, whose first order is shown as a script, in place of the list of outcomes.
    pub show: Option<u64>,
}

impl Default for Asked {
    /// All orders in which device calls come first, if there are at most 100,000 of at most 1,000 turns, with our own
    /// placement. Each outcome is listed, those with `busy` too.
    fn default() -> Asked {
        Asked {
            orders: 100_000,
            sample: None,
            turns: 1000,
            choice: Choice::DeviceFirst,
            waits: false,
            placement: Placement::Own,
            show: None,
        }
    }
}
