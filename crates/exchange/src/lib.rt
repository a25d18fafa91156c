//! Which turns can change places: laws of schedules.
//!
//! Nothing here runs. A law is the contract of a function that does nothing.
#![tactic(auto)]

ghost use Rattle.exchange.specs.Exchange.{TurnsChangePlaces, CallsChangePlaces, CallsMayGoFirst, RunsAreQuiet};
ghost use Rattle.exchange.specs.Outcomes.{DeviceFirstLosesNothing};

/// A turn that leaves the device alone, and after it a call of the device by another actor, can change places: they lead
/// to the same world, and each shows the same.
pub fn turns_change_places()
    ensures { TurnsChangePlaces }
{}

/// Two calls of different blocks can change places, if no call fails.
pub fn calls_change_places()
    ensures { CallsChangePlaces }
{}

/// Each whole walk has another one with the same end and the same answers, in which device calls are made as soon as they
/// are picked.
pub fn calls_may_go_first()
    ensures { CallsMayGoFirst }
{}

/// In a world that a run over a device without faults leads to, no call fails, and different actors call different
/// blocks.
pub fn runs_are_quiet()
    ensures { RunsAreQuiet }
{}

/// If no call of the device fails, each outcome of an order of some work is one of an order of equal length with device
/// calls first. If no command met a page in transfer, none does in that order.
pub fn device_first_loses_nothing()
    ensures { DeviceFirstLosesNothing }
{}
