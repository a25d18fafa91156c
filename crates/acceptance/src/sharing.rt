//! The largest number of tasks that show one page, and a child of a task with all its pages.

use crate::case::prints_all;

// Each task forks the next one. The page is written out once for all of them, and is read in once: a second write and a
// second read of the device would fail. Then all exit except the last.
#[test]
fn a_page_that_1024_tasks_show_goes_with_the_last_of_them(rt: HostRuntime) {
    prints_all(
        &rt,
        "and is written in place by it",
        "\
swap 1
fault write 2
fault read 2
group /a
set /a memory.max 4096
task 1 /a
1 write 0 0 7
{1-1023} fork {n+1}
set /a memory.reclaim 4096
cat /a memory.current
{1-1024} read 0 0
cat /a memory.current
{1-1023} exit
1024 write 0 1 8
1024 read 0 0
1024 read 0 1
cat /a memory.current
1024 exit
cat /a memory.current
",
        "0\n{1-1024} 7\n4096\n1024 7\n1024 8\n4096\n0\n",
    );
}

// There are frames for that many copies. No frame is needed until a page is written to.
#[test]
fn a_child_shows_all_1024_pages_of_its_parent(rt: HostRuntime) {
    prints_all(
        &rt,
        "and copies those that it writes to",
        "\
frames 2048
group /a
task 1 /a
1 write {0-1023} 0 1
1 fork 2
cat /a memory.current
2 read {0-1023} 0
cat /a memory.current
2 write 1023 0 3
cat /a memory.current
2 write {0-1023} 0 2
cat /a memory.current
1 read 1023 0
1 free {0-1023}
cat /a memory.current
2 read {0-1023} 0
1 exit
cat /a memory.current
2 exit
cat /a memory.current
",
        "\
4194304
1024 * 2 1
4194304
4198400
8388608
1 1
4194304
1024 * 2 2
4194304
0
",
    );
}
