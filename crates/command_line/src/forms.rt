//! The subcommands and their options, in the order in which help lists them.

use crate::options::{Beside, Files, Form, Row, Value};

pub const AS_LINUX: &str = "as-linux";

pub const AUDIT: &str = "audit";

pub const CHART: &str = "chart";

pub const CSV: &str = "csv";

pub const CUTS: &str = "cuts";

pub const DEPTH: &str = "depth";

pub const EVERY: &str = "every";

pub const EXPECT_ONE: &str = "expect-one";

pub const EXPLAIN: &str = "explain";

pub const GO_ON: &str = "go-on";

pub const GROUPS: &str = "groups";

pub const HUMAN: &str = "human";

pub const JSON: &str = "json";

pub const LABELS: &str = "labels";

pub const LINES: &str = "lines";

pub const ORDERS: &str = "orders";

pub const PAGES: &str = "pages";

pub const PROGRESS: &str = "progress";

pub const QUIET: &str = "quiet";

pub const SAMPLE: &str = "sample";

pub const SEED: &str = "seed";

pub const SET: &str = "set";

pub const SHOW: &str = "show";

pub const STRICT: &str = "strict";

pub const SUMMARY: &str = "summary";

pub const TURNS: &str = "turns";

pub const UNBUFFERED: &str = "unbuffered";

pub const VARY: &str = "vary";

pub const WAIT: &str = "wait";

const AS_LINUX_ROW: Row = Row {
    name: AS_LINUX,
    value: Value::Absent,
    beside: Beside::Any,
    help: "Put pages that are read in on the generation lists as Linux does",
};

const EXPLAIN_ROW: Row = Row {
    name: EXPLAIN,
    value: Value::Absent,
    beside: Beside::Any,
    help: "Print why each line failed and each task was killed, on standard error",
};

const LABELS_ROW: Row = Row {
    name: LABELS,
    value: Value::Absent,
    beside: Beside::Any,
    help: "Print the number and the text of its line before each answer",
};

const LINES_ROW: Row = Row {
    name: LINES,
    value: Value::Absent,
    beside: Beside::Any,
    help: "Print the number of its line before each answer",
};

const SUMMARY_ROW: Row = Row {
    name: SUMMARY,
    value: Value::Absent,
    beside: Beside::Any,
    help: "Print totals at the end, on standard error",
};

const TURNS_ROW: Row = Row {
    name: TURNS,
    value: Value::Number("N"),
    beside: Beside::Any,
    help: "Maximum number of turns per line, 0 for no limit [default: 1000]",
};

const SET_ROW: Row = Row {
    name: SET,
    value: Value::Texts("NAME=WORD"),
    beside: Beside::Any,
    help: "Use WORD in place of the word that let NAME gives",
};

const SCHEDULE: &[Row] = &[
    AS_LINUX_ROW,
    Row {
        name: AUDIT,
        value: Value::Absent,
        beside: Beside::Any,
        help: "After the last answer, print the result of auditing the run",
    },
    EXPLAIN_ROW,
    Row {
        name: HUMAN,
        value: Value::Absent,
        beside: Beside::Any,
        help: "Print amounts of memory in K, M, G or T, as 23.4M",
    },
    LABELS_ROW,
    LINES_ROW,
    Row {
        name: PAGES,
        value: Value::Absent,
        beside: Beside::Without(&[HUMAN]),
        help: "Print amounts of memory in pages",
    },
    Row {
        name: PROGRESS,
        value: Value::Absent,
        beside: Beside::Any,
        help: "Show how many lines are done; not on a terminal, each 10,000 lines",
    },
    Row {
        name: QUIET,
        value: Value::Absent,
        beside: Beside::Any,
        help: "Do not print the bytes that tasks read, nor lines of killed tasks",
    },
    Row {
        name: STRICT,
        value: Value::Absent,
        beside: Beside::Any,
        help: "Stop at the first line that fails, and say why",
    },
    SUMMARY_ROW,
    TURNS_ROW,
    Row {
        name: UNBUFFERED,
        value: Value::Absent,
        beside: Beside::Any,
        help: "Write each answer at once, even to a file or a pipe",
    },
];

const RUN: &[Row] = &[
    AS_LINUX_ROW,
    EXPLAIN_ROW,
    LABELS_ROW,
    LINES_ROW,
    Row {
        name: SHOW,
        value: Value::MaybeTexts("PATH"),
        beside: Beside::Any,
        help: "Before the verdict, print this group's files, or those of all groups; may be repeated",
    },
    SUMMARY_ROW,
];

const CHARTS: &[Row] = &[
    AS_LINUX_ROW,
    Row {
        name: CSV,
        value: Value::Absent,
        beside: Beside::Any,
        help: "Print a CSV table instead of the picture",
    },
    Row {
        name: EXPLAIN,
        value: Value::Absent,
        beside: Beside::Any,
        help: "Print a second line that says what is wrong with a faulty line",
    },
    Row {
        name: STRICT,
        value: Value::Absent,
        beside: Beside::Any,
        help: "Draw nothing if a line fails, and say why",
    },
    TURNS_ROW,
];

const CHECK: &[Row] = &[
    AS_LINUX_ROW,
    EXPLAIN_ROW,
    Row {
        name: LABELS,
        value: Value::Absent,
        beside: Beside::Any,
        help: "Print the number and the text of its line before an answer that differs",
    },
    Row {
        name: STRICT,
        value: Value::Absent,
        beside: Beside::Any,
        help: "Stop a script at the first line that fails, even if that is expected",
    },
    TURNS_ROW,
];

const EXPLORE: &[Row] = &[
    AS_LINUX_ROW,
    Row {
        name: EVERY,
        value: Value::Absent,
        beside: Beside::Any,
        help: "Run also the orders in which other turns come before a call of the device",
    },
    Row {
        name: EXPECT_ONE,
        value: Value::Absent,
        beside: Beside::Any,
        help: "Fail if there is a second outcome",
    },
    Row {
        name: ORDERS,
        value: Value::LargeNumber("N"),
        beside: Beside::Any,
        help: "Maximum number of orders [default: 100000]",
    },
    Row {
        name: SAMPLE,
        value: Value::Count("N"),
        beside: Beside::Without(&[EXPECT_ONE, ORDERS]),
        help: "Run N orders, drawn at random, in place of all",
    },
    Row {
        name: SEED,
        value: Value::LargeNumber("N"),
        beside: Beside::With(SAMPLE),
        help: "Draw sample N; the same number draws the same orders [default: 0]",
    },
    Row {
        name: SHOW,
        value: Value::LargeNumber("N"),
        beside: Beside::Any,
        help: "Print outcome N as a script that `schedule` and `check` run",
    },
    Row {
        name: TURNS,
        value: Value::Number("N"),
        beside: Beside::Any,
        help: "Maximum number of turns of an order [default: 1000]",
    },
    Row {
        name: WAIT,
        value: Value::Absent,
        beside: Beside::Any,
        help: "Leave out the orders in which a command of the work is answered `busy`, as if it waited",
    },
];

const SIMULATE: &[Row] = &[
    Row {
        name: CHART,
        value: Value::Absent,
        beside: Beside::Any,
        help: "Draw memory.current of each group over the lines, as SVG",
    },
    Row {
        name: CSV,
        value: Value::Absent,
        beside: Beside::Any,
        help: "Print a row for each line and group, as CSV",
    },
    Row {
        name: DEPTH,
        value: Value::Number("N"),
        beside: Beside::Output,
        help: "Show groups at most N levels below the root, or below those of --groups",
    },
    Row {
        name: EVERY,
        value: Value::Number("N"),
        beside: Beside::Output,
        help: "Show each N-th row, the last row of each phase, and rows in which a task was killed",
    },
    Row {
        name: GO_ON,
        value: Value::Absent,
        beside: Beside::Any,
        help: "Go on after a line that is refused",
    },
    Row {
        name: GROUPS,
        value: Value::Texts("PATH"),
        beside: Beside::Output,
        help: "Show this group; may be repeated",
    },
    Row {
        name: JSON,
        value: Value::Absent,
        beside: Beside::Any,
        help: "Print an object for each line and event, as JSON",
    },
    SET_ROW,
    Row {
        name: VARY,
        value: Value::Text("NAME=FROM..TO/STEP"),
        beside: Beside::Without(&[CHART, DEPTH, EVERY, GROUPS]),
        help: "Run once for each value of let NAME, and print a row for each",
    },
];

const EXPAND: &[Row] = &[
    SET_ROW,
    Row {
        name: CUTS,
        value: Value::LargeNumbers("N,.."),
        beside: Beside::Any,
        help: "Lengths of the lists with until, in their order",
    },
];

/// The subcommands.
pub const FORMS: [Form; 7] = [
    Form {
        name: "schedule",
        about: "Run a script line by line and print the answers",
        files: Files::One,
        file_help: "Script to run; - is standard input",
        options: SCHEDULE,
        output: &[],
    },
    Form {
        name: "run",
        about: "Run a script with one thread for each task",
        files: Files::One,
        file_help: "Script to run; - is standard input",
        options: RUN,
        output: &[],
    },
    Form {
        name: "chart",
        about: "Draw memory.current of each group over the lines of a script, as SVG",
        files: Files::One,
        file_help: "Script to run; - is standard input; a line `# mark NAME` begins a phase",
        options: CHARTS,
        output: &[],
    },
    Form {
        name: "check",
        about: "Compare scripts with their `#> ..` lines, and scenarios with their `expect` lines",
        files: Files::Many,
        file_help: "Scripts and scenarios to check; - is standard input",
        options: CHECK,
        output: &[],
    },
    Form {
        name: "explore",
        about: "List all outcomes that the tasks of a script can have together",
        files: Files::One,
        file_help: "Script to explore; - is standard input",
        options: EXPLORE,
        output: &[],
    },
    Form {
        name: "simulate",
        about: "Run a scenario and print who is killed, its tables and its expectations",
        files: Files::One,
        file_help: "Scenario to read",
        options: SIMULATE,
        output: &[CHART, CSV, JSON],
    },
    Form {
        name: "expand",
        about: "Print the script of a scenario",
        files: Files::One,
        file_help: "Scenario to read",
        options: EXPAND,
        output: &[],
    },
];
