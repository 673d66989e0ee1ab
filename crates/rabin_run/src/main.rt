// Writes fingerprints, a line each: the signed number and its eight bytes, lowest first. The inputs are no bytes, 95, 15, "hello world",
// each single byte, and the first 1,000 bytes of the sequence 0, 1, .., 255, 0, ..
#![tactic(auto)]

use rabin::Rabin;
use std::io;
use std::io::Stdout;

fn main(rt: HostRuntime) -> io::Result<()> {
    let stdout = rt.stdout();
    line(stdout, b"")?;
    line(stdout, &[0x95])?;
    line(stdout, &[0x15])?;
    line(stdout, b"hello world")?;
    for b in 0..=255 {
        line(stdout, &[b])?;
    }
    line(stdout, &counting())
}

fn line(stdout: Stdout, bytes: &[u8]) -> io::Result<()> {
    let print = Rabin::new().update(bytes);
    let sign = if print.result() < 0 { "-" } else { "" };
    print!(stdout; "{sign}{} ", ground::magnitude(print.result()))?;
    for b in print.bytes() {
        print!(stdout; "{b:02x}")?;
    }
    println!(stdout)
}

fn counting() -> [u8; 1000] {
    let mut bytes = [0u8; 1000];
    for i in 0..1000 {
        bytes[i] = (i % 256) as u8;
    }
    bytes
}
