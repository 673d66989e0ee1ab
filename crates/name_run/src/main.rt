// Writes a line for every string of up to four bytes over the six a 1 _ . C3 A9, by length and then in the order of the
// six: the string, whether it is a simple name, a name and a namespace, and its full names in "", "n" and "n.m". Bytes
// are written in hex, none as `-`, and so is a full name of what is no name.
#![tactic(auto)]

ghost use Rattle.std.specs.Prelude.{◌≤◌};

use name::Full;
use std::io;
use std::io::Stdout;

// The six bytes of the strings.
const SYMBOLS: [u8; 6] = [b'a', b'1', b'_', b'.', 0xc3, 0xa9];

fn print_bytes(stdout: Stdout, s: &[u8]) -> io::Result<()> {
    if s.is_empty() {
        print!(stdout; "-")?;
    }
    for b in s {
        print!(stdout; "{b:02x}")?;
    }
    Ok(())
}

fn print_flag(stdout: Stdout, flag: bool) -> io::Result<()> {
    print!(stdout; " {}", u8::from(flag))
}

fn print_full(stdout: Stdout, namespace: &[u8], s: &[u8]) -> io::Result<()> {
    print!(stdout; " ")?;
    let mut out = [0u8; Full::LONGEST];
    match name::full_name(namespace, s, &mut out) {
        None => print!(stdout; "!"),
        Some(n) => print_bytes(stdout, &out[0..n]),
    }
}

fn print_line(stdout: Stdout, s: &[u8]) -> io::Result<()> {
    print_bytes(stdout, s)?;
    print_flag(stdout, name::is_simple(s))?;
    print_flag(stdout, name::is_name(s))?;
    print_flag(stdout, name::is_namespace(s))?;
    if name::is_name(s) {
        print_full(stdout, b"", s)?;
        print_full(stdout, b"n", s)?;
        print_full(stdout, b"n.m", s)?;
        println!(stdout)
    } else {
        println!(stdout; " - - -")
    }
}

// The first `count` strings of n bytes.
fn print_strings(stdout: Stdout, n: usize, count: usize) -> io::Result<()>
    requires { n ≤ 4 }
{
    let start = 4 - n;
    for k in 0..count {
        let s = [
            SYMBOLS[k / 216 % 6],
            SYMBOLS[k / 36 % 6],
            SYMBOLS[k / 6 % 6],
            SYMBOLS[k % 6],
        ];
        print_line(stdout, &s[start..])?;
    }
    Ok(())
}

fn main(rt: HostRuntime) -> io::Result<()> {
    let stdout = rt.stdout();
    print_strings(stdout, 0, 1)?;
    print_strings(stdout, 1, 6)?;
    print_strings(stdout, 2, 36)?;
    print_strings(stdout, 3, 216)?;
    print_strings(stdout, 4, 1296)
}
