// Reads declarations, a line of hex each, and writes for each its rows and how many rows and string bytes there are, or its
// first fault. Rows that do not fit a set are left out. Of a line that does not fit the buffer the first bytes are read: they
// are more than a text may have.
#![tactic(auto)]

use answer::Counts;
use row::Layout;
use schema::Walked;
use script::answers::{put_fault, put_rows, put_spaced};
use script::hex::unhex;
use script::input::next_line;
use script::output::{Output, flush, put};
use std::io;
use std::io::Stdin;

// The rows of a draft, where all are there.
fn put_draft(stdout: &mut Output, out: &mut [u8], draft: &[u8], counts: Counts) -> usize {
    if Counts::ROWS < counts.rows || Counts::STRING_BYTES < counts.string_bytes {
        return 0;
    }
    put_rows(stdout, out, 0, draft, 0, counts.rows)
}

fn put_counts(stdout: &mut Output, out: &mut [u8], at: usize, counts: Counts) -> usize {
    let a = put(stdout, out, at, b"end");
    let b = put_spaced(stdout, out, a, counts.rows as u64);
    let c = put_spaced(stdout, out, b, counts.string_bytes as u64);
    put(stdout, out, c, b"\n")
}

// The answer to a text.
fn answer(stdout: &mut Output, text: &[u8], draft: &mut [u8], out: &mut [u8]) -> usize {
    match schema::declare(text, draft) {
        Err(f) => put_fault(stdout, out, 0, f),
        Ok(counts) => {
            let at = put_draft(stdout, out, draft, counts);
            put_counts(stdout, out, at, counts)
        }
    }
}

fn answer_line(
    stdout: &mut Output,
    word: &[u8],
    text: &mut [u8],
    draft: &mut [u8],
    out: &mut [u8],
) -> io::Result<()> {
    let at = match unhex(word, text) {
        Some(n) if n <= text.len() => answer(stdout, &text[..n], draft, out),
        Some(_) => return Ok(()),
        None => put(stdout, out, 0, b"what?\n"),
    };
    flush(stdout, out, at)
}

fn run(
    stdin: Stdin,
    stdout: &mut Output,
    input: &mut [u8],
    text: &mut [u8],
    draft: &mut [u8],
    out: &mut [u8],
) -> io::Result<()> {
    let mut before = None;
    for _ in 0..u64::MAX {
        let Some(line) = next_line(stdin, input, before)? else {
            return Ok(());
        };
        answer_line(stdout, &input[line.from..line.to], text, draft, out)?;
        before = Some(line);
    }
    Ok(())
}

fn main(rt: HostRuntime) -> io::Result<()> {
    let mut stdout = Output::new(rt.stdout());
    let mut input = [0u8; 262144];
    let mut text = [0u8; 131072];
    let mut draft = [0u8; Layout::LENGTH];
    let mut out = [0u8; 65536];
    run(
        rt.stdin(),
        &mut stdout,
        &mut input,
        &mut text,
        &mut draft,
        &mut out,
    )
}
