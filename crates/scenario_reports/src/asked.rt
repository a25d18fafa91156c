//! What a run of a scenario is asked for.

/// What `simulate` prints.
#[derive(Clone, Copy, Debug, Default, PartialEq, Eq)]
pub enum Prints {
    /// Who is killed, what is refused, tables and expectations, as lines for a reader.
    #[default]
    Report,
    /// A picture of the whole run, as SVG.
    Chart,
    /// A row for each line of the scenario and group, as comma-separated values.
    Csv,
    /// An object for each row and each event, in a line of its own, as JSON.
    Json,
    /// What is not as expected alone: the report's lines of refusals and of expectations that are not met. Each begins
    /// with the file's name and the number of the line, as `a.scenario:6:`. If all is as expected, one line says so.
    Unmet,
}

/// What a run of a scenario is asked for.
#[derive(Clone, Copy)]
pub struct Asked<'a> {
    /// The name of the scenario's file.
    pub name: &'a str,
    /// Texts `NAME=WORD`: each puts its word in place of the word of each `let NAME`.
    pub settings: &'a [&'a str],
    /// The run goes on after a line that is refused.
    pub go_on: bool,
    pub prints: Prints,
    /// Each row of this number is printed. The last row of a phase and those in which a task died always are.
    pub every: u32,
    /// The paths of the groups that rows are of, as the scenario writes them. All groups, if it has none.
    pub groups: &'a [&'a str],
    /// Rows are of groups at most this many levels below the root.
    pub depth: Option<u32>,
}
