// The lines of the input, one command each.
ghost use Rattle.std.specs.Prelude.{◌<◌};

use crate::damage;
use ground::byte_at;
use script::hex::nibble;
use std::io;
use std::io::Stdout;

// The number of two digits, then of four.
fn two(line: &[u8], at: usize) -> u8
    requires { at < 100 }
{
    16 * nibble(byte_at(line, at)) + nibble(byte_at(line, at + 1))
}

fn four(line: &[u8], at: usize) -> usize
    requires { at < 98 }
    ensures { result < 65536 }
{
    if line.len() <= at + 2 {
        return 0;
    }
    256 * usize::from(two(line, at)) + usize::from(two(line, at + 2))
}

// The bytes of a line from its sixth character on, stored from a place on.
fn store(mem: &mut [u8], line: &[u8]) {
    let Some(digits) = line.get(5..) else {
        return;
    };
    let mut at = four(line, 1);
    for pair in digits.chunks(2) {
        if mem.len() <= at {
            return;
        }
        mem[at] = two(pair, 0);
        at += 1;
    }
}

fn command(stdout: Stdout, mem: &mut [u8], line: &[u8]) -> io::Result<()> {
    match byte_at(line, 0) {
        b'c' => mem.fill(0),
        b's' => store(mem, line),
        b'j' => damage::judge(stdout, mem, four(line, 1))?,
        b'd' => damage::bytes(stdout, mem, four(line, 1), four(line, 5))?,
        b'n' => println!(stdout)?,
        _ => {}
    }
    Ok(())
}

pub(crate) fn run(stdout: Stdout, text: &[u8], mem: &mut [u8]) -> io::Result<()> {
    for line in text.split(|b| *b == b'\n') {
        command(stdout, mem, line)?;
    }
    Ok(())
}
