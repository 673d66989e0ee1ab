// Memory in lines of hex: a line for each row, and lines of zeros left out.
use row::Layout;
use std::io;
use std::io::Stdout;

fn hex(stdout: Stdout, s: &[u8]) -> io::Result<()> {
    for b in s {
        print!(stdout; "{b:02x}")?;
    }
    Ok(())
}

// Where the line starts, and its bytes, at most n; nothing where all are zero.
fn line(stdout: Stdout, mem: &[u8], at: usize, n: usize) -> io::Result<()> {
    if mem.len() <= at {
        return Ok(());
    }
    let rest = &mem[at..];
    let bytes = &rest[..n.min(rest.len())];
    if ground::all_zero(bytes) {
        return Ok(());
    }
    print!(stdout; "{at:04x} ")?;
    hex(stdout, bytes)?;
    println!(stdout)
}

// The first line has 32 bytes, so that each row, of 34 bytes, has a line.
pub(crate) fn dump(stdout: Stdout, mem: &[u8]) -> io::Result<()> {
    line(stdout, mem, 0, 32)?;
    for at in (32..Layout::LENGTH).step_by(34) {
        line(stdout, mem, at, 34)?;
    }
    Ok(())
}
