// Lists the recording on standard input: a line for each frame, and a last line with the counts.
// It is run on the recording beside it, which has every kind of line; `frames_captured` runs the same on one of another implementation, since a program has one `stdin`.
#![tactic(auto)]

use std::io;

fn main(rt: HostRuntime) -> io::Result<()> {
    recording::print(&rt)
}
