//! How a script is run, how its answers are shown, and what is said besides them.

ghost use Rattle.std.specs.Prelude.{◌≡◌};
ghost use Rattle.printer.specs.Asked.{plain};

use crate::amounts::Amounts;
use machine::config::Placement;
use machine::limit::USUAL_TURNS;
use machine::page_size::PageSize;

/// How a script is run, how its answers are shown, and what is said besides them. By default, answers are shown as
/// they are, and nothing else is said. A script's fault is reported with its line and its cause.
#[derive(Clone, Copy, Debug, PartialEq, Eq)]
pub struct Options {
    /// How amounts of memory in answers are printed.
    pub amounts: Amounts,
    /// One line after the last answer says what an audit of the run finds.
    pub audit: bool,
    /// For each line that is refused and each task that is killed, a line says why, as it comes. For a script's
    /// fault, a second line says which word is wrong, and what its place asks for.
    pub explain: bool,
    /// Each line of an answer begins with the number of its line of the script, and with that line's words.
    pub labels: bool,
    /// Each line of an answer begins with the number of its line of the script.
    pub lines: bool,
    /// Where pages that are read in enter the generation lists.
    pub placement: Placement,
    /// A terminal shows how many of the lines are done, while the run continues.
    pub progress: bool,
    /// After each 10,000 lines of the script, a line says how many are done.
    pub progress_lines: bool,
    /// Bytes that tasks read are not printed, and neither are commands of killed tasks.
    pub quiet: bool,
    /// One line after the last answer says how many lines failed, with which words, and what to do. Where no line failed,
    /// the line is left out. A summary has this line too.
    pub refusals: bool,
    /// The first line that is refused ends the run, and is its fault.
    pub strict: bool,
    /// A few lines after the last answer say how much was done.
    pub summary: bool,
    /// The most turns of a line that is run to its answer. What is not done by then continues at later lines of its
    /// actor.
    pub turns: u32,
}

/// What is asked for, and how many bytes a page stands for in what is printed.
#[derive(Clone, Copy)]
pub(crate) struct Printing {
    pub options: Options,
    pub page_size: PageSize,
}

impl Default for Options {
    /// Nothing is asked for, amounts are printed in bytes, pages enter the lists by our own rule, and a line takes 1,000 turns
    /// at most.
    fn default() -> Options
        ensures { result ≡ plain }
    {
        Options {
            amounts: Amounts::Bytes,
            audit: false,
            explain: false,
            labels: false,
            lines: false,
            placement: Placement::Own,
            progress: false,
            progress_lines: false,
            quiet: false,
            refusals: false,
            strict: false,
            summary: false,
            turns: USUAL_TURNS,
        }
    }
}

impl Options {
    ghost use Rattle.printer.specs.Asked.{marks_lines, places_faults};

    /// Whether something comes before the lines of answers.
    pub(crate) fn marks_lines(self) -> bool
        ensures { result ≡ marks_lines self }
    {
        self.lines || self.labels
    }

    /// Whether the lines of faults begin with the name of the script's file.
    pub fn places_faults(self) -> bool
        ensures { result ≡ places_faults self }
    {
        self.explain || self.strict
    }

    /// Whether something says why a line was refused.
    pub(crate) fn tells_reasons(self) -> bool {
        self.explain || self.strict
    }

    /// Whether something says more of a kill than its answer does.
    pub(crate) fn tells_kills(self) -> bool {
        self.explain || self.labels
    }

    /// Whether the text of the script's lines is asked for.
    pub(crate) fn shows_lines(self) -> bool {
        self.labels || self.explain || self.strict
    }
}
