//! What a script may look like: where its lines end.

use crate::case::prints;

#[test]
fn lines_end_with_a_line_feed_or_two_characters_or_the_script(rt: HostRuntime) {
    prints(&rt, "a space", " ", "");
    prints(
        &rt,
        "empty lines, spaces and tabs",
        "\n \n\t\n \t \n\r\n",
        "",
    );
    prints(&rt, "a comment without a line feed", "# a comment", "");
    prints(
        &rt,
        "the last line may lack its line feed",
        "group /a\ncat /a memory.max",
        "max\n",
    );
    prints(
        &rt,
        "a carriage return before a line feed is dropped",
        "frames 4\r\ngroup /a\r\n# a comment\r\n\r\ncat /a memory.max\r\n",
        "max\n",
    );
    prints(
        &rt,
        "so are those of a line that is begun, and of its turns",
        "begin\t group   /a\r\n \tstep  control \nbegin cat /a\tmemory.max\n finish\tcontrol",
        "max\n",
    );
    prints(
        &rt,
        "all of it at once",
        "frames 16\ngroup /a\r\n\n# two\ntask 1 /a\n1 write 0 0 9\n1 read 0 0\r\ncat /a memory.current",
        "1 9\n4096\n",
    );
    prints(
        &rt,
        "what the header may say of the device, with zeros in front",
        "\tswap  0002\r\n fault\t read \t01\r\nfault write 0000000000000000000002",
        "",
    );
    prints(
        &rt,
        "watermarks, with zeros in front",
        "\twatermarks  00\t 0002\r\nframes 2",
        "",
    );
    prints(
        &rt,
        "watermarks, prot and the daemon",
        "\
 \twatermarks\t1   2 \r
group /a
\tprot  /\t/a \r
  begin \tprot / /a\t
 step\t control
 daemon\t
begin  daemon \r
\tstep \t daemon
finish\tdaemon",
        "0\n0\ndaemon idle\n",
    );
}
