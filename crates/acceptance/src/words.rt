//! What command lines ask for, and what is said of faulty ones.

use command_line::{
    Asked, ChartForm, Exploration, Purpose, Refused, Request, Scenario, Subcommand, Wish,
    read_words, text_about,
};
use machine::config::Placement;
use printer::{Amounts, Options};
use scenario_reports::asked::Prints;
use std::alloc::{AllocError, Global};

fn tell_flags(text: &mut String, flags: &[(bool, &str)]) -> Result<(), AllocError> {
    for (is_set, name) in flags {
        if *is_set {
            write!(text, " {name}")?;
        }
    }
    Ok(())
}

fn tell_number(text: &mut String, name: &str, number: Option<u64>) -> Result<(), AllocError> {
    match number {
        Some(number) => write!(text, " {name}={number}"),
        None => Ok(()),
    }
}

fn tell_words(text: &mut String, name: &str, words: &[&str]) -> Result<(), AllocError> {
    for word in words {
        write!(text, " {name}={word}")?;
    }
    Ok(())
}

/// Names the options that are not as they are by default.
fn tell_options(text: &mut String, options: Options) -> Result<(), AllocError> {
    let Options {
        amounts,
        audit,
        explain,
        labels,
        lines,
        placement,
        progress,
        progress_lines,
        quiet,
        refusals,
        strict,
        summary,
        turns,
    } = options;
    let flags = [
        (amounts == Amounts::Human, "human"),
        (amounts == Amounts::Pages, "pages"),
        (audit, "audit"),
        (explain, "explain"),
        (labels, "labels"),
        (lines, "lines"),
        (placement == Placement::Linux, "as-linux"),
        (progress, "progress"),
        (progress_lines, "progress-lines"),
        (quiet, "quiet"),
        (refusals, "refusals"),
        (strict, "strict"),
        (summary, "summary"),
    ];
    tell_flags(text, &flags)?;
    let turns = Some(u64::from(turns)).filter(|turns| *turns != 1000);
    tell_number(text, "turns", turns)
}

fn tell_request(text: &mut String, request: &Request<'_>) -> Result<(), AllocError> {
    let name = match request.subcommand {
        Subcommand::Schedule => "schedule",
        Subcommand::Run => "run",
        Subcommand::Chart(ChartForm::Picture) => "chart",
        Subcommand::Chart(ChartForm::Table) => "table",
    };
    text.push_str(name)?;
    tell_options(text, request.options)?;
    tell_flags(text, &[(request.is_unbuffered, "unbuffered")])?;
    tell_words(text, "file", &[request.file])
}

fn tell_exploration(text: &mut String, exploration: &Exploration<'_>) -> Result<(), AllocError> {
    let Exploration {
        file,
        orders,
        sample,
        seed,
        turns,
        every,
        placement,
        show,
        expects_one,
        waits,
    } = *exploration;
    text.push_str("explore")?;
    let flags = [
        (every, "every"),
        (placement == Placement::Linux, "as-linux"),
        (expects_one, "expect-one"),
        (waits, "wait"),
    ];
    tell_flags(text, &flags)?;
    tell_number(text, "orders", orders)?;
    tell_number(text, "sample", sample)?;
    tell_number(text, "seed", seed)?;
    tell_number(text, "show", show)?;
    tell_number(text, "turns", turns.map(|turns| u64::from(turns)))?;
    tell_words(text, "file", &[file])
}

fn tell_wish(text: &mut String, wish: &Wish<'_>) -> Result<(), AllocError> {
    let prints = match wish.prints {
        Prints::Report => "report",
        Prints::Chart => "chart",
        Prints::Csv => "csv",
        Prints::Json => "json",
        Prints::Unmet => "unmet",
    };
    write!(text, "simulate {prints}")?;
    tell_flags(text, &[(wish.go_on, "go-on")])?;
    tell_number(text, "every", Some(u64::from(wish.every)))?;
    tell_number(text, "depth", wish.depth.map(|depth| u64::from(depth)))?;
    tell_words(text, "group", &wish.groups)?;
    match wish.vary {
        Some(values) => tell_words(text, "vary", &[values]),
        None => Ok(()),
    }
}

fn tell_scenario(text: &mut String, scenario: &Scenario<'_>) -> Result<(), AllocError> {
    match &scenario.purpose {
        Purpose::Simulate(wish) => tell_wish(text, wish)?,
        Purpose::Expand(lengths) => {
            text.push_str("expand")?;
            for length in lengths {
                write!(text, " cut={length}")?;
            }
        }
    }
    tell_words(text, "set", &scenario.settings)?;
    tell_words(text, "file", &[scenario.file])
}

fn tell_asked(text: &mut String, asked: &Asked<'_>) -> Result<(), AllocError> {
    match asked {
        Asked::Script(request, shown) => {
            tell_request(text, request)?;
            tell_words(text, "show", shown)
        }
        Asked::Check(options, files) => {
            text.push_str("check")?;
            tell_options(text, *options)?;
            tell_words(text, "file", files)
        }
        Asked::Explore(exploration) => tell_exploration(text, exploration),
        Asked::Scenario(scenario) => tell_scenario(text, scenario),
    }
}

/// Whether the text was asked for, and the text.
fn tell_refused(alloc: Global, text: &mut String, refused: &Refused) -> Result<(), AllocError> {
    match refused {
        Refused::Memory => text.push_str("no memory"),
        Refused::Text(error) => {
            text.push_str(if error.use_stderr() {
                "fault: "
            } else {
                "help: "
            })?;
            text.push_str(text_about(alloc, error)?.as_str())
        }
    }
}

fn words_of(alloc: Global, line: &str) -> Result<Vec<String>, AllocError> {
    let mut words = Vec::new(alloc);
    for word in line.split(' ') {
        words.push(word.to_string(alloc)?)?;
    }
    Ok(words)
}

/// What a command line asks for. Options are named if they are not as they are by default.
fn meaning(alloc: Global, line: &str) -> Result<String, AllocError> {
    let words = words_of(alloc, line)?;
    let mut text = String::new(alloc);
    match read_words(alloc, &words) {
        Ok(asked) => tell_asked(&mut text, &asked)?,
        Err(refused) => tell_refused(alloc, &mut text, &refused)?,
    }
    Ok(text)
}

const MEANINGS: &[(&str, &str)] = &[
    // A script.
    ("memcgrun schedule a", "schedule file=a"),
    ("memcgrun schedule -- a", "schedule file=a"),
    ("memcgrun schedule --audit a", "schedule audit file=a"),
    ("memcgrun schedule --explain a", "schedule explain file=a"),
    ("memcgrun schedule a --explain", "schedule explain file=a"),
    (
        "memcgrun schedule --explain -- a",
        "schedule explain file=a",
    ),
    ("memcgrun schedule --human a", "schedule human file=a"),
    ("memcgrun schedule a --pages", "schedule pages file=a"),
    ("memcgrun schedule --labels a", "schedule labels file=a"),
    ("memcgrun schedule --lines a", "schedule lines file=a"),
    ("memcgrun schedule --progress a", "schedule progress file=a"),
    ("memcgrun schedule --quiet a", "schedule quiet file=a"),
    ("memcgrun schedule --strict a", "schedule strict file=a"),
    ("memcgrun schedule a --summary", "schedule summary file=a"),
    (
        "memcgrun schedule --labels --quiet a --strict",
        "schedule labels quiet strict file=a",
    ),
    // Turns. A machine needs less than 2^32 turns for any line, so that number stands for no limit.
    ("memcgrun schedule --turns 1 a", "schedule turns=1 file=a"),
    (
        "memcgrun schedule a --turns 4294967295",
        "schedule turns=4294967295 file=a",
    ),
    (
        "memcgrun schedule --turns=25000 a",
        "schedule turns=25000 file=a",
    ),
    (
        "memcgrun schedule --turns 0 a",
        "schedule turns=4294967295 file=a",
    ),
    // Answers as they come.
    (
        "memcgrun schedule --unbuffered a",
        "schedule unbuffered file=a",
    ),
    // A chart.
    ("memcgrun chart a", "chart file=a"),
    ("memcgrun chart --csv a", "table file=a"),
    ("memcgrun chart a --turns 7", "chart turns=7 file=a"),
    ("memcgrun chart --strict a", "chart strict file=a"),
    // A run on threads, and what it shows at its end. An empty path stands for all groups.
    ("memcgrun run a", "run file=a"),
    ("memcgrun run -- a", "run file=a"),
    ("memcgrun run --explain a", "run explain file=a"),
    (
        "memcgrun run a --explain --labels",
        "run explain labels file=a",
    ),
    ("memcgrun run --lines a", "run lines file=a"),
    ("memcgrun run --show a", "run file=a show="),
    (
        "memcgrun run a --show --summary",
        "run summary file=a show=",
    ),
    (
        "memcgrun run --show=/b --summary --show=/a/c a",
        "run summary file=a show=/b show=/a/c",
    ),
    (
        "memcgrun run --show=/b --show -- a",
        "run file=a show=/b show=",
    ),
    // Pages as Linux places them.
    ("memcgrun schedule --as-linux a", "schedule as-linux file=a"),
    ("memcgrun schedule a --as-linux", "schedule as-linux file=a"),
    ("memcgrun run --as-linux a", "run as-linux file=a"),
    ("memcgrun chart --as-linux a", "chart as-linux file=a"),
    (
        "memcgrun check --as-linux a b",
        "check as-linux file=a file=b",
    ),
    // Checks.
    ("memcgrun check a", "check file=a"),
    ("memcgrun check a b a", "check file=a file=b file=a"),
    ("memcgrun check -- a -b", "check file=a file=-b"),
    (
        "memcgrun check --strict --labels a --explain --turns 0",
        "check explain labels strict turns=4294967295 file=a",
    ),
    // Explorations.
    ("memcgrun explore a", "explore file=a"),
    (
        "memcgrun explore --show 2 --orders 7 a --turns 9 --expect-one --as-linux --every --wait",
        "explore every as-linux expect-one wait orders=7 show=2 turns=9 file=a",
    ),
    (
        "memcgrun explore --sample 5 --seed 3 a",
        "explore sample=5 seed=3 file=a",
    ),
    // Scenarios.
    (
        "memcgrun simulate x --set a=1 --go-on --set b=2 --json --groups /a --groups /b --every 5 --depth 2",
        "simulate json go-on every=5 depth=2 group=/a group=/b set=a=1 set=b=2 file=x",
    ),
    (
        "memcgrun simulate x --vary max=1M..5M/1M --csv --set a=1",
        "simulate csv every=1 vary=max=1M..5M/1M set=a=1 file=x",
    ),
    ("memcgrun expand --cuts 3,0 x", "expand cut=3 cut=0 file=x"),
    // No script is named as an option.
    (
        "memcgrun run --strict a",
        "fault: error: unexpected argument '--strict' found\n\nUsage: memcgrun run [OPTIONS] <FILE>\n\nFor more information, try '--help'.\n",
    ),
    (
        "memcgrun check --labls a",
        "fault: error: unexpected argument '--labls' found\n\n  tip: a similar argument exists: '--labels'\n\nUsage: memcgrun check --labels <FILE>...\n\nFor more information, try '--help'.\n",
    ),
    (
        "memcgrun check --quiet a",
        "fault: error: unexpected argument '--quiet' found\n\nUsage: memcgrun check [OPTIONS] <FILE>...\n\nFor more information, try '--help'.\n",
    ),
];

#[test]
fn command_lines_mean_what_they_say(rt: HostRuntime) {
    for (line, wanted) in MEANINGS {
        let found = meaning(rt.alloc(), line).expect(&rt, "no memory");
        assert_eq!(rt; found.as_str(), *wanted, "{line}");
    }
}

/// How the answer begins, what it has and how it ends, and the command lines that are answered so.
const TOLD: &[(&str, &str, &str, &[&str])] = &[
    (
        "fault: ",
        "Usage: memcgrun",
        "\n",
        &[
            "memcgrun",
            "memcgrun a",
            "memcgrun schedule",
            "memcgrun schedule a b",
            "memcgrun schedule -x a",
            "memcgrun schedule --explain",
            "memcgrun schedule --lines --lines a",
            "memcgrun --summary schedule a",
            "memcgrun schedule --human --pages a",
            "memcgrun check --human a",
            "memcgrun schedule --turns -1 a",
            "memcgrun schedule --turns 1 --turns 2 a",
            "memcgrun --explain schedule a",
            "memcgrun run",
            "memcgrun run a b",
            "memcgrun run --audit a",
            "memcgrun run --strict a",
            "memcgrun run --summary --summary a",
            "memcgrun schedule --show a",
            "memcgrun run --explain",
            "memcgrun --explain run a",
            "memcgrun check",
            "memcgrun check --lines a",
            "memcgrun simulate",
            "memcgrun simulate --cuts 1 a",
            "memcgrun simulate --csv --json a",
            "memcgrun simulate --chart --csv a",
            "memcgrun simulate --chart --json a",
            "memcgrun simulate --every 2 a",
            "memcgrun simulate --vary a=1 --chart a",
            "memcgrun simulate --vary a=1 --vary b=2 a",
            "memcgrun expand --go-on a",
            "memcgrun chart",
            "memcgrun chart --audit a",
            "memcgrun explore",
            "memcgrun explore --strict a",
            "memcgrun explore --seed 3 a",
            "memcgrun explore --sample 5 --expect-one a",
            "memcgrun explore --sample 5 --orders 9 a",
            "memcgrun walk a",
        ],
    ),
    (
        "help: ",
        "Usage: memcgrun",
        "\n",
        &[
            "memcgrun check --help",
            "memcgrun expand --help",
            "memcgrun explore --help",
            "memcgrun chart --help",
            "memcgrun run --help",
            "memcgrun help run",
            "memcgrun schedule --help",
            "memcgrun help",
            "memcgrun help schedule",
            "memcgrun -h",
            "memcgrun --help",
        ],
    ),
    // Numbers that are none.
    (
        "fault: ",
        "'--every",
        "\n",
        &[
            "memcgrun simulate --chart --every x a",
            "memcgrun simulate --csv --every=-1 a",
        ],
    ),
    (
        "fault: ",
        "'--turns <N>'",
        "\n",
        &[
            "memcgrun schedule --turns a",
            "memcgrun schedule --turns 1.5 a",
            "memcgrun chart --turns 4294967296 a",
        ],
    ),
    // The version is one line, with the logic.
    (
        "help: memcgrun 0.2.0 (logic ",
        "",
        ")\n",
        &["memcgrun --version", "memcgrun -V"],
    ),
];

#[test]
fn other_words_are_answered(rt: HostRuntime) {
    for (begin, part, end, lines) in TOLD {
        for line in *lines {
            let found = meaning(rt.alloc(), line).expect(&rt, "no memory");
            let is_told = found.starts_with(*begin)
                && found.contains(*part)
                && found.ends_with(*end);
            assert!(rt; is_told, "{line}: {found}");
        }
    }
}
