// Lists the recording on standard input: a line for each frame, and a last line with the counts.
// The same program as `frames`, beside a recording that another implementation made, since a program is run on one `stdin` alone.
#![tactic(auto)]

use std::io;

fn main(rt: HostRuntime) -> io::Result<()> {
    recording::print(&rt)
}
