// One byte changed: is the memory still the encoding of a set?
use std::io;
use std::io::Stdout;

// Places, and what the byte there becomes.
const POKES: [(usize, u8); 16] = [
    // The header.
    (0, 3),
    (2, 17),
    (65, 128),
    // The first row.
    (66, 9),
    (72, 4),
    (74, 1),
    // The length of a default, where there is none and where there is one; a row's own string longer into its default.
    (73, 1),
    (243, 7),
    (242, 2),
    // Bytes to spare.
    (780, 1),
    (34881, 1),
    (51265, 255),
    // Changes that give another set.
    (66, 40),
    (69, 5),
    (34882, 255),
    (34900, 255),
];

// The byte's place, what it becomes, and the answer; then it is as it was.
fn poke(stdout: Stdout, mem: &mut [u8], at: usize, byte: u8) -> io::Result<()> {
    if mem.len() <= at {
        return Ok(());
    }
    print!(stdout; "{at:04x}{byte:02x}")?;
    let old = mem[at];
    mem[at] = byte;
    let answer = if row::tidy::is_encoding(mem) {
        "yes"
    } else {
        "no"
    };
    mem[at] = old;
    println!(stdout; " {answer}")
}

pub(crate) fn pokes(stdout: Stdout, mem: &mut [u8]) -> io::Result<()> {
    for (at, byte) in POKES {
        poke(stdout, mem, at, byte)?;
    }
    Ok(())
}
