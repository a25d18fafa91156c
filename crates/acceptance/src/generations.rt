//! Many pages of one group, some of which are used. Those stay in their frames. Three tasks make 1,000 pages each, one after
//! the other.

use crate::case::prints_all;

// Each of the first ten pages is used. Then 600 are evicted: those of task 1 from the 11th to the 610th.
#[test]
fn of_three_thousand_pages_the_first_go_that_were_not_used(rt: HostRuntime) {
    prints_all(
        &rt,
        "600 of them, and two come back",
        "\
frames 3000
swap 600
group /a
task {1-3} /a
1 write {1-1000} 0 1
2 write {1-1000} 0 1
3 write {1-1000} 0 1
1 read {1-10} 0
set /a memory.reclaim 1200K
set /a memory.reclaim 1200K
cat /a memory.current
1 read {1-10} 0
1 read 611 0
cat /a memory.current
1 read 610 0
1 read 11 0
cat /a memory.current
",
        "\
10 * 1 1
9830400
10 * 1 1
1 1
9830400
1 1
1 1
9838592
",
    );
}

// All are used, so that none is left that was not. Then 300 are evicted, from the first on.
#[test]
fn of_three_thousand_pages_that_were_all_used_the_first_go(rt: HostRuntime) {
    prints_all(
        &rt,
        "300 of them, and two come back",
        "\
frames 3000
swap 600
group /a
task {1-3} /a
1 write {1-1000} 0 1
2 write {1-1000} 0 1
3 write {1-1000} 0 1
1 write {1-1000} 0 2
2 write {1-1000} 0 2
3 write {1-1000} 0 2
set /a memory.reclaim 1200K
cat /a memory.current
1 read 301 0
cat /a memory.current
1 read 300 0
1 read 1 0
cat /a memory.current
",
        "11059200\n1 2\n11059200\n1 2\n1 2\n11067392\n",
    );
}
