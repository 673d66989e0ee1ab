// Writes a set of hand-made rows by the calls of `row`, and prints its memory in hex;
// then changes single bytes, and says for each whether the memory is still an encoding.
#![tactic(auto)]

mod dump;
mod pokes;
mod rows;

use answer::Counts;
use row::Layout;
use std::io;

fn main(rt: HostRuntime) -> io::Result<()> {
    let stdout = rt.stdout();
    let mut mem = [170u8; Layout::LENGTH];
    row::write::clear(&mut mem);
    let none = Counts::none();
    let first = rows::record_declaration(&mut mem, none);
    rows::close(&mut mem, 0, none, first);
    let second = rows::enum_declaration(&mut mem, first);
    rows::close(&mut mem, 1, first, second);
    dump::dump(stdout, &mem)?;
    pokes::pokes(stdout, &mut mem)
}
