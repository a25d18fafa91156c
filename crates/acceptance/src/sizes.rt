//! Runs of the largest possible sizes, and scripts that are longer than a person would write.

use crate::case::{faults_in_all, prints_all};

// The limit is set in the first turn. Then each kill takes one turn, and so does finding that there is room.
#[test]
fn an_answer_in_the_last_turn_counts(rt: HostRuntime) {
    prints_all(
        &rt,
        "998 kills and two turns more",
        "\
frames 1000
group /a
task {1-998} /a
{1-998} write 0 0 1
set /a memory.max 0
cat /a memory.current
",
        "killed {1-998}\n0\n",
    );
}

#[test]
fn a_limit_that_is_lowered_stops_after_1000_turns(rt: HostRuntime) {
    prints_all(
        &rt,
        "it stays the shell's command, whose next turns go on with it",
        "\
frames 1000
group /a
task {1-1000} /a
{1-1000} write 0 0 1
set /a memory.max 0
begin cat /a memory.max
finish control
step shell
cat /a memory.current
cat /a memory.current
",
        "killed {1-999}\nerror turn limit\n0\nkilled 1000\nerror Underway\n0\n",
    );
}

#[test]
fn a_script_may_have_many_lines(rt: HostRuntime) {
    let script = "task 1 /\n1 read 0 {1-3999}\ngroup /a/b/{1-6000}\n";
    let printed = "3999 * 1 0\n6000 * error ENOENT\n";
    let name = "ten thousand, the first without an answer";
    prints_all(&rt, name, script, printed);
    let script = "task 1 /\n1 read 0 {1-3999}\ngroup /a/b/{1-6000}\nfoo\n";
    let name = "and one more, which is faulty";
    faults_in_all(&rt, name, script, "line 10001: unknown word\n");
}

#[test]
fn a_line_may_be_long(rt: HostRuntime) {
    let script = "# {65536*1}\n{65536* }\nfoo\n";
    let line = "line 3: unknown word\n";
    faults_in_all(&rt, "a comment, and a line of spaces", script, line);
    let script = "group /a\nset /a memory.max {65536*1}\ncat /a {65536*1}\n";
    let printed = "error EINVAL\nerror ENOENT\n";
    prints_all(&rt, "an amount, and a file's name", script, printed);
    let script = "group{65536* }/a\ncat{65536* }/a{65536* }memory.max\n";
    prints_all(&rt, "spaces between words", script, "max\n");
    let script = "group /{65536*1}\n";
    faults_in_all(&rt, "a path", script, "line 1: bad name\n");
    let script = "{65536*1} read 0 0\n";
    faults_in_all(&rt, "a number", script, "line 1: bad number\n");
    let script = "x{65536*1}\n";
    let name = "a word that is not known";
    faults_in_all(&rt, name, script, "line 1: unknown word\n");
}
