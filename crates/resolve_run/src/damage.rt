// Verdicts on memory, as it is and with one byte changed.
use row::Layout;
use std::io;
use std::io::Stdout;

// 1 where the first n bytes are a well-formed set, 0 where they are not.
pub(crate) fn judge(stdout: Stdout, mem: &[u8], n: usize) -> io::Result<()> {
    if mem.len() < n {
        return Ok(());
    }
    print!(stdout; "{}", u8::from(formed::well_formed(&mem[..n])))
}

// The verdict with another byte at a place; then it is as it was.
fn with_byte(stdout: Stdout, mem: &mut [u8], at: usize, b: u8) -> io::Result<()> {
    if mem.len() <= at {
        return Ok(());
    }
    let old = mem[at];
    mem[at] = b;
    let judged = judge(stdout, mem, Layout::LENGTH);
    mem[at] = old;
    judged
}

fn byte(stdout: Stdout, mem: &mut [u8], at: usize) -> io::Result<()> {
    let old = ground::byte_at(mem, at);
    with_byte(stdout, mem, at, old.wrapping_add(1))?;
    with_byte(stdout, mem, at, old.wrapping_sub(1))?;
    with_byte(stdout, mem, at, old ^ 128)
}

// Each of n bytes, by three values.
pub(crate) fn bytes(stdout: Stdout, mem: &mut [u8], at: usize, n: usize) -> io::Result<()> {
    for i in at..at.saturating_add(n) {
        if mem.len() <= i {
            return Ok(());
        }
        byte(stdout, mem, i)?;
    }
    println!(stdout)
}
