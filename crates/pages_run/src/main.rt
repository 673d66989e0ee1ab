// The examples of docs/NAMES.md.
#![tactic(auto)]

use std::io;

fn main(rt: HostRuntime) -> io::Result<()> {
    replays::run(rt.stdin(), rt.stdout())
}
