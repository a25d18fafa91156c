//! How many turns a line takes at most, if the caller sets it. In the first turn a page is chosen, in the second it is
//! written, and after the third it has left. Another turn ends the command.

use crate::case::prints_in_turns;

const MANY: &str = "\
frames 400
swap 400
group /a
task 1 /a
1 write {1-334} 0 1
set /a memory.reclaim 1336K
begin cat /a memory.current
finish control
";

const KILLED: &str = "group /a\ntask 1 /a\n1 write 0 0 1\nset /a memory.max 0\n";

#[test]
fn a_line_takes_as_many_turns_as_are_asked_for(rt: HostRuntime) {
    // Three turns for each page, and one that finds the end. The page whose transfer is open is still charged.
    prints_in_turns(&rt, "all of them", 1003, MANY, "0\n");
    let printed = "error turn limit\n0\n";
    prints_in_turns(&rt, "the end is not found", 1002, MANY, printed);
    let printed = "error turn limit\n4096\n";
    prints_in_turns(&rt, "one is on its way", 1001, MANY, printed);
    let printed = "killed 1\n";
    prints_in_turns(&rt, "the max, the kill and the room", 3, KILLED, printed);
    let printed = "killed 1\nerror turn limit\n";
    prints_in_turns(&rt, "without the room", 2, KILLED, printed);
    let printed = "error turn limit\n";
    prints_in_turns(&rt, "the max alone", 1, KILLED, printed);
}
