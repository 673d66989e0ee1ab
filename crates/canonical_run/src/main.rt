// Reads declarations, a line of hex each, and writes for each the canonical text in hex and the fingerprint, or the refusal.
#![tactic(auto)]

use canonical::Written;
use row::Layout;
use script::answers::put_refusal;
use script::hex::unhex;
use script::input::next_line;
use script::output::{Output, flush, put, put_hex, put_signed};
use std::io;
use std::io::Stdin;

// The fingerprint behind the first `at` bytes of output, and the line's end.
fn put_print(stdout: &mut Output, mem: &[u8], out: &mut [u8], at: usize) -> usize {
    match canonical::fingerprint(mem, 0) {
        Err(r) => put_refusal(stdout, out, at, r),
        Ok(n) => {
            let a = put_signed(stdout, out, at, n);
            put(stdout, out, a, b"\n")
        }
    }
}

// The canonical text and the fingerprint of the first declaration.
fn put_canonical(stdout: &mut Output, mem: &[u8], buffer: &mut [u8], out: &mut [u8]) -> usize {
    match canonical::canonical(mem, 0, buffer, 0) {
        Err(r) => put_refusal(stdout, out, 0, r),
        Ok(n) => {
            if buffer.len() < n {
                return 0;
            }
            let a = put_hex(stdout, out, 0, &buffer[..n]);
            let b = put(stdout, out, a, b" ");
            put_print(stdout, mem, out, b)
        }
    }
}

// The answer to a text, in a set of its own.
fn answer(
    stdout: &mut Output,
    text: &[u8],
    mem: &mut [u8],
    buffer: &mut [u8],
    out: &mut [u8],
) -> usize {
    let _ = set::open(mem);
    match set::put(mem, 0, text) {
        Err(r) => put_refusal(stdout, out, 0, r),
        Ok(_) => put_canonical(stdout, mem, buffer, out),
    }
}

fn answer_line(
    stdout: &mut Output,
    line: &[u8],
    text: &mut [u8],
    mem: &mut [u8],
    buffer: &mut [u8],
    out: &mut [u8],
) -> usize {
    match unhex(line, text) {
        Some(n) if n <= text.len() => answer(stdout, &text[..n], mem, buffer, out),
        Some(_) => 0,
        None => put(stdout, out, 0, b"what?\n"),
    }
}

fn run(
    stdin: Stdin,
    stdout: &mut Output,
    input: &mut [u8],
    text: &mut [u8],
    mem: &mut [u8],
    buffer: &mut [u8],
    out: &mut [u8],
) -> io::Result<()> {
    let mut before = None;
    for _ in 0..u64::MAX {
        let Some(line) = next_line(stdin, input, before)? else {
            return Ok(());
        };
        let end = answer_line(stdout, &input[line.from..line.to], text, mem, buffer, out);
        flush(stdout, out, end)?;
        before = Some(line);
    }
    Ok(())
}

fn main(rt: HostRuntime) -> io::Result<()> {
    let mut stdout = Output::new(rt.stdout());
    let mut input = [0u8; 131072];
    let mut text = [0u8; 65536];
    let mut mem = [0u8; Layout::LENGTH];
    let mut buffer = [0u8; Written::LONGEST];
    let mut out = [0u8; 65536];
    run(
        rt.stdin(),
        &mut stdout,
        &mut input,
        &mut text,
        &mut mem,
        &mut buffer,
        &mut out,
    )
}
