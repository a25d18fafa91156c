//! Laws of the paths. Each is the contract of a function that does nothing.

ghost use Rattle.orders.specs.Paths.{PathsAreThePaths};
ghost use Rattle.orders.specs.Runs.{RunsHaveATree};

/// The definition `paths` lists the paths of a tree: all of them, each once, in the order of their numbers. The
/// conditions are that ready actors are given in rising order, and that no path is longer than the depth.
pub fn paths_are_the_paths()
    ensures { PathsAreThePaths }
{}

/// Runs that agree with each other are runs of one tree. So nothing has to be assumed of the machine that was run, not
/// even that the same turns make the same actors ready again.
pub fn runs_have_a_tree()
    ensures { RunsHaveATree }
{}
