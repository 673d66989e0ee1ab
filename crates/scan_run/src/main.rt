// Scans each text of a list on standard input, and writes for each what the scan finds.
// A line is a text in hexadecimal digits, in lower case, or `-` for the text of no bytes.
#![tactic(auto)]

ghost use Rattle.std.specs.Prelude.{◌<◌, ◌≤◌, length, IfOk};

use answer::Fault;
use std::io;
use std::io::{Read, Stdin, Stdout};

// A line so far: how many bytes of its text are there, and the digit that waits for its second.
#[derive(Clone, Copy)]
struct Line {
    n: usize,
    high: Option<u8>,
}

// The number that a hexadecimal digit stands for; 0 for another byte.
fn value(digit: u8) -> u8
    ensures { result < 16 }
{
    match digit {
        b'0'..=b'9' => digit - b'0',
        b'a'..=b'f' => digit - b'a' + 10,
        _ => 0,
    }
}

fn report(stdout: Stdout, found: Result<(), Fault>) -> io::Result<()> {
    match found {
        Ok(()) => println!(stdout; "ok"),
        Err(f) => println!(stdout; "refused {} {}", f.why.number(), f.at),
    }
}

// One byte of a line more. At its end the text is scanned.
fn take_byte(stdout: Stdout, text: &mut [u8], line: Line, b: u8) -> io::Result<Line>
    requires { line.n ≤ length text.old }
    ensures { IfOk result (λ next. next.n ≤ length text.new) }
{
    let n = line.n;
    if b == b'\n' {
        report(stdout, json_scan::scan(&text[..n]))?;
        return Ok(Line { n: 0, high: None });
    }
    let Some(high) = line.high else {
        return Ok(Line { n, high: Some(b) });
    };
    if n >= text.len() {
        return Ok(Line { n, high: None });
    }
    text[n] = value(high) * 16 + value(b);
    Ok(Line {
        n: n + 1,
        high: None,
    })
}

fn take_bytes(stdout: Stdout, bytes: &[u8], text: &mut [u8], start: Line) -> io::Result<Line>
    requires { start.n ≤ length text.old }
    ensures { IfOk result (λ next. next.n ≤ length text.new) }
{
    let mut line = start;
    for b in bytes {
        line = take_byte(stdout, text, line, *b)?;
    }
    Ok(line)
}

// Reads once, and answers how many bytes came: none at the end.
fn read_some(mut stdin: Stdin, bytes: &mut [u8]) -> io::Result<usize>
    ensures { IfOk result (λ n. n ≤ length bytes.new) }
{
    stdin.read(bytes)
}

fn scan_all(stdin: Stdin, stdout: Stdout, bytes: &mut [u8], text: &mut [u8]) -> io::Result<()> {
    let mut line = Line { n: 0, high: None };
    for _ in 0..u64::MAX {
        let n = read_some(stdin, bytes)?;
        if n == 0 {
            return Ok(());
        }
        line = take_bytes(stdout, &bytes[..n], text, line)?;
    }
    Ok(())
}

fn main(rt: HostRuntime) -> io::Result<()> {
    let mut bytes = [0u8; 65536];
    let mut text = [0u8; 65536];
    scan_all(rt.stdin(), rt.stdout(), &mut bytes, &mut text)
}
