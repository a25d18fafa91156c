//! Charts: the picture and the table of a run, worked out by hand.

use std::process::Abort;
use std::str;
use subcommands::{Drawing, Options, chart, status_of};

/// A group has room for two pages. The task's third is refused, and it is killed.
const KILLED: &str =
    "group /a\nset /a memory.max 8K\ntask 1 /a\n1 write 0 0 1\n1 write 1 0 1\n1 write 2 0 1\n";

const KILLED_TABLE: &str = "\
line,group,current,anon,file,max,min,low,refused,oom,oom_kill,used,free,swap,phase
1,/a,0,0,0,max,0,0,0,0,0,0,262144,0,
2,/a,0,0,0,8192,0,0,0,0,0,0,262144,0,
3,/a,0,0,0,8192,0,0,0,0,0,0,262144,0,
4,/a,4096,4096,0,8192,0,0,0,0,0,4096,258048,0,
5,/a,8192,8192,0,8192,0,0,0,0,0,8192,253952,0,
6,/a,0,0,0,8192,0,0,1,1,1,0,262144,0,
";

/// A script is charted: the status, what is drawn, and what is said.
fn charted<R: AllocGlobal>(
    rt: &R,
    strict: bool,
    kind: Drawing,
    title: &str,
    script: &str,
) -> (u8, Vec<u8>, Vec<u8>) {
    let mut out = Vec::new(rt.alloc());
    let mut err = Vec::new(rt.alloc());
    let options = Options {
        strict,
        ..Options::default()
    };
    let script = script.as_bytes();
    let ran = chart(rt.alloc(), options, kind, title, script, &mut out);
    (status_of(ran, &mut err), out, err)
}

/// The script has this table.
fn lists<R: Abort + AllocGlobal>(rt: &R, strict: bool, script: &str, table: &str) {
    let (status, out, _) = charted(rt, strict, Drawing::Table, "", script);
    assert_eq!(rt; (status, str::from_utf8(&out)), (0, Ok(table)));
}

/// The script is not drawn, and this is said.
fn refuses<R: Abort + AllocGlobal>(rt: &R, strict: bool, kind: Drawing, script: &str, line: &str) {
    let (status, out, err) = charted(rt, strict, kind, "a.memcg", script);
    assert_eq!(rt; (status, out.len()), (1, 0));
    assert_eq!(rt; str::from_utf8(&err), Ok(line));
}

/// The script has a picture, in which each of these stands.
fn draws<R: Abort + AllocGlobal>(rt: &R, title: &str, script: &str, parts: &[&str]) {
    let (status, out, _) = charted(rt, false, Drawing::Picture, title, script);
    let text = str::from_utf8(&out).unwrap_or("");
    let is_whole = status == 0 && text.starts_with("<svg ") && text.ends_with("</svg>\n");
    assert!(rt; is_whole, "{text}");
    for part in parts {
        assert!(rt; text.contains(*part), "no {part} in {text}");
    }
}

/// The script has a picture, in which this does not stand.
fn does_not_draw<R: Abort + AllocGlobal>(rt: &R, script: &str, part: &str) {
    let (status, out, _) = charted(rt, false, Drawing::Picture, "", script);
    let text = str::from_utf8(&out).unwrap_or("");
    assert!(rt; status == 0 && text.ends_with("</svg>\n"), "{text}");
    assert!(rt; !text.contains(part), "{part} in {text}");
}

#[test]
fn a_table_has_each_line_where_the_group_is_there(rt: HostRuntime) {
    lists(&rt, false, KILLED, KILLED_TABLE);
    // The lines of a group that is made again continue in the same place. After line 5 no group has the path.
    let script = "group /a\ntask 1 /a\n1 write 0 0 1\n1 exit\nrmdir /a\ngroup /a\n";
    let table = "\
line,group,current,anon,file,max,min,low,refused,oom,oom_kill,used,free,swap,phase
1,/a,0,0,0,max,0,0,0,0,0,0,262144,0,
2,/a,0,0,0,max,0,0,0,0,0,0,262144,0,
3,/a,4096,4096,0,max,0,0,0,0,0,4096,258048,0,
4,/a,0,0,0,max,0,0,0,0,0,0,262144,0,
6,/a,0,0,0,max,0,0,0,0,0,0,262144,0,
";
    lists(&rt, false, script, table);
}

#[test]
fn a_picture_has_the_curve_the_marks_and_a_max_that_is_near(rt: HostRuntime) {
    draws(
        &rt,
        "a<b",
        KILLED,
        &[
            ">memory.current: a&lt;b</text>",
            // Six lines are 110 pixels wide, from 90 to 750. Two pages are 300 pixels high, from 363 up to 63.
            "\"M90.0 363.0V363.0H420.0V213.0H530.0V63.0H640.0V363.0H750.0\"",
            // Who died is written beside the cross, which is at the left end of line 6.
            "<title>line 6: killed task 1 in /a</title><path d=\"M640.0 ",
            ">task 1 in /a</text>",
            "<title>line 6: a charge of /a was refused at its memory.max</title>",
            "/a, peak 8K",
        ],
    );
    // A max of 1G is not drawn if no more than a page is charged.
    let script = "group /a\nset /a memory.max 1G\ntask 1 /a\n1 write 0 0 1\n";
    draws(&rt, "", script, &["/a, peak 4K"]);
    does_not_draw(&rt, script, "stroke-dasharray=\"8 4\"");
}

const LOW: &str =
    "swap 4\ngroup /a\nset /a memory.low 8K\ntask 1 /a\n1 write 0 0 1\n1 write 1 0 1\nset / memory.reclaim 4K\n";

// The low is drawn as the max and the min are, each in dashes of its own, and is listed after them.
#[test]
fn a_low_is_drawn_and_listed(rt: HostRuntime) {
    let table = "\
line,group,current,anon,file,max,min,low,refused,oom,oom_kill,used,free,swap,phase
2,/a,0,0,0,max,0,0,0,0,0,0,262144,0,
3,/a,0,0,0,max,0,8192,0,0,0,0,262144,0,
4,/a,0,0,0,max,0,8192,0,0,0,0,262144,0,
5,/a,4096,4096,0,max,0,8192,0,0,0,4096,258048,0,
6,/a,8192,8192,0,max,0,8192,0,0,0,8192,253952,0,
7,/a,4096,4096,0,max,0,8192,0,0,0,4096,258048,4096,
";
    lists(&rt, false, LOW, table);
    // From line 3 on the low is at two pages, 300 pixels high. There is no min to be drawn.
    let parts = [
        "stroke-dasharray=\"8 3 2 3\"",
        "d=\"M200.0 48.0V48.0H750.0\"",
    ];
    draws(&rt, "", LOW, &parts);
    does_not_draw(&rt, LOW, "stroke-dasharray=\"2 3\"");
}

const PHASES: &str =
    "group /a\n# mark fill, \"a\"\ntask 1 /a\n1 write 0 0 1\n1 write 1 0 1\n#mark b\n1 write 2 0 1\n# mark\n# mark rest\n1 exit\n";

// A mark names the lines from it on, in quotes if it has a comma. The lines before the first have no phase.
#[test]
fn phases_are_listed_and_are_equally_wide(rt: HostRuntime) {
    let table = "\
line,group,current,anon,file,max,min,low,refused,oom,oom_kill,used,free,swap,phase
1,/a,0,0,0,max,0,0,0,0,0,0,262144,0,
3,/a,0,0,0,max,0,0,0,0,0,0,262144,0,\"fill, \"\"a\"\"\"
4,/a,4096,4096,0,max,0,0,0,0,0,4096,258048,0,\"fill, \"\"a\"\"\"
5,/a,8192,8192,0,max,0,0,0,0,0,8192,253952,0,\"fill, \"\"a\"\"\"
7,/a,12288,12288,0,max,0,0,0,0,0,12288,249856,0,\"fill, \"\"a\"\"\"
10,/a,0,0,0,max,0,0,0,0,0,0,262144,0,rest
";
    lists(&rt, false, PHASES, table);
    // Line 1 is as wide as lines 2 to 8 and lines 9 to 10: 220 pixels. In the second part lines are 31.4 pixels wide.
    // Both names are above the curves, which are 300 pixels high, from 363 up to 63.
    let parts = [
        "\"M90.0 363.0V363.0H372.8V263.0H404.2V163.0H467.1V63.0H640.0V363.0H750.0\"",
        "<title>fill, &quot;a&quot;</title><path d=\"M310.0 ",
        "<title>rest</title><path d=\"M530.0 ",
        "All phases are equally wide.",
    ];
    draws(&rt, "", PHASES, &parts);
}

#[test]
fn a_group_that_is_killed_as_one_is_named(rt: HostRuntime) {
    let script =
        "group /a\nset /a memory.oom.group 1\nset /a memory.max 8K\ntask 1 /a\ntask 2 /a\n1 write 0 0 1\n1 write 1 0 1\n2 write 0 0 1\n";
    let parts = [
        "<title>line 8: killed group /a: task 1 and 1 more</title>",
        ">group /a: task 1 and 1 more</text>",
    ];
    draws(&rt, "", script, &parts);
}

const TWO: &str = "group /a\ngroup /b\ntask 1 /a\ntask 2 /b\n1 write 0 0 1\n2 write 0 0 1\n";

const NINE: &str =
    "group /a\ngroup /b\ngroup /c\ngroup /d\ngroup /e\ngroup /f\ngroup /g\ngroup /h\ngroup /i\nset /a memory.max 8K\ntask 1 /a\n1 write 0 0 1\n";

// Curves that lie on each other have other dashes. More than eight groups are bands.
#[test]
fn groups_are_told_apart(rt: HostRuntime) {
    let parts = [
        "stroke-dasharray=\"none\"><title>/a, peak 4K</title>",
        "stroke-dasharray=\"13 6\"><title>/b, peak 4K</title>",
    ];
    draws(&rt, "", TWO, &parts);
    does_not_draw(&rt, TWO, "fill-opacity");
    let parts = [
        // Line 12 is the last of 12, each 55 pixels wide. One page is half of the max.
        "<rect x=\"695.0\" y=\"63.0\" width=\"55.0\" height=\"12.0\" fill-opacity=\"0.50\"/>",
        ">/i<title>/i, peak 0</title>",
    ];
    draws(&rt, "", NINE, &parts);
    does_not_draw(&rt, NINE, "stroke-width=\"2.5\"");
}

// Below are the frames in use and free, the watermarks, and the swap in use.
#[test]
fn the_machine_is_drawn_below(rt: HostRuntime) {
    let script =
        "frames 4\nswap 4\nwatermarks 1 2\ngroup /a\ntask 1 /a\n1 write 0 0 1\nset / memory.reclaim 4K\n";
    // The smaller picture is 130 pixels high, from 523 up to 393: 32.5 pixels are a page. Four lines are 165 pixels wide.
    let parts = [
        "\"M90.0 523.0V523.0H420.0V490.5H585.0V523.0H750.0\"",
        "\"M90.0 393.0V393.0H420.0V425.5H585.0V393.0H750.0\"",
        "\"M90.0 523.0V523.0H585.0V490.5H750.0\"",
        "\"M90.0 458.0H750.0\"",
        "memory in use 0",
        "free memory 16K",
        "swap in use 4K",
        "low mark 4K",
        "high mark 8K",
    ];
    draws(&rt, "", script, &parts);
}

#[test]
fn a_faulty_script_is_not_drawn(rt: HostRuntime) {
    let line = "line 1: unknown word\n";
    refuses(&rt, false, Drawing::Picture, "gruop /a\n", line);
}

#[test]
fn a_strict_chart_is_not_drawn_if_a_line_is_refused(rt: HostRuntime) {
    let script = "group /a\nset /b memory.max 4K\ngroup /b\n";
    let line = "a.memcg:2: set /b memory.max 4K: ENOENT, there is no group /b\n";
    refuses(&rt, true, Drawing::Table, script, line);
    // A kill is no refusal.
    lists(&rt, true, KILLED, KILLED_TABLE);
}
