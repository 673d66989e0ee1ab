// Stores the sets that standard input describes, damages them, and prints for each whether it is well formed.
// docs/vectors/wellformed.py says what a line of the input means.
#![tactic(auto)]

mod damage;
mod lines;

use script::input::read_full;
use std::io;

fn main(rt: HostRuntime) -> io::Result<()> {
    let mut text = [0u8; 262144];
    let n = read_full(&mut rt.stdin(), &mut text)?;
    let mut mem = [0u8; 51300];
    lines::run(rt.stdout(), &text[..n], &mut mem)
}
