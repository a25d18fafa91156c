//! Groups that are removed. There are more of them than there may be at one time.

use crate::case::prints_all;

// More groups than may be live at one time have the path, one after the other. Each leaves a page to the parent.
#[test]
fn a_path_is_made_again_300_times(rt: HostRuntime) {
    prints_all(
        &rt,
        "and the parent has all their pages",
        "\
frames 300
group /p
group /q
group /p/a; task {1-300} /p/a; {n} write 0 0 9; attach {n} /q; rmdir /p/a
cat /p memory.current
cat /q memory.current
group /p/a
cat /p/a memory.current
{1-300} read 0 0
{1-300} exit
cat /p memory.current
",
        "1228800\n0\n0\n{1-300} 9\n0\n",
    );
}
