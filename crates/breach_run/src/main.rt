// Reads strings, a line each, as they are written between quotes, and writes for each what becomes of seven declarations that have
// it in seven places: `ok`, or the number and the position of the fault. The places: a definition's name, its alias, a reference, a
// namespace, a field's name, its alias, a symbol.
#![tactic(auto)]

ghost use Rattle.std.specs.Prelude.{◌≤◌, length};

use answer::Fault;
use ground::copy;
use row::Layout;
use schema::Walked;
use script::input::next_line;
use script::output::{Output, flush, put, put_decimal};
use std::io;
use std::io::Stdin;

fn put_fault(stdout: &mut Output, out: &mut [u8], at: usize, f: Fault) -> usize {
    let a = put_decimal(stdout, out, at, u64::from(f.why.number()));
    let b = put(stdout, out, a, b":");
    put_decimal(stdout, out, b, f.at as u64)
}

// The answer to a text.
fn put_answer(
    stdout: &mut Output,
    out: &mut [u8],
    at: usize,
    text: &[u8],
    draft: &mut [u8],
) -> usize {
    match schema::declare(text, draft) {
        Err(f) => put_fault(stdout, out, at, f),
        Ok(_) => put(stdout, out, at, b"ok"),
    }
}

// Puts bytes behind the first `at` of a text, and answers how many there are then. Where there is no room the text counts as full: no
// string that is asked for is so long.
fn append(text: &mut [u8], at: usize, s: &[u8]) -> usize
    ensures { result ≤ length text.new }
{
    if text.len() < at || text.len() - at < s.len() {
        return text.len();
    }
    copy(text, at, s);
    at + s.len()
}

// The answer to the text that has a string between its front and its back, and what ends the answer.
fn put_framed(
    stdout: &mut Output,
    out: &mut [u8],
    at: usize,
    draft: &mut [u8],
    front: &[u8],
    string: &[u8],
    back: &[u8],
    end: &[u8],
) -> usize {
    let mut text = [0u8; 8192];
    let a = append(&mut text, 0, front);
    let b = append(&mut text, a, string);
    let n = append(&mut text, b, back);
    let all = &text[..];
    let next = put_answer(stdout, out, at, &all[..n], draft);
    put(stdout, out, next, end)
}

// A definition's name, its alias.
fn put_defined(stdout: &mut Output, out: &mut [u8], draft: &mut [u8], s: &[u8]) -> usize {
    let name = b"{\"type\":\"fixed\",\"name\":\"";
    let alias = b"{\"type\":\"fixed\",\"name\":\"A\",\"aliases\":[\"";
    let a = put_framed(stdout, out, 0, draft, name, s, b"\",\"size\":1}", b" ");
    put_framed(stdout, out, a, draft, alias, s, b"\"],\"size\":1}", b" ")
}

// A reference, a namespace.
fn put_names(stdout: &mut Output, out: &mut [u8], at: usize, draft: &mut [u8], s: &[u8]) -> usize {
    let reference = b"{\"type\":\"array\",\"items\":\"";
    let namespace = b"{\"type\":\"fixed\",\"name\":\"A\",\"namespace\":\"";
    let a = put_framed(stdout, out, at, draft, reference, s, b"\"}", b" ");
    put_framed(stdout, out, a, draft, namespace, s, b"\",\"size\":1}", b" ")
}

// A field's name, its alias, a symbol.
fn put_simple_names(
    stdout: &mut Output,
    out: &mut [u8],
    at: usize,
    draft: &mut [u8],
    s: &[u8],
) -> usize {
    let field = b"{\"type\":\"record\",\"name\":\"R\",\"fields\":[{\"name\":\"";
    let alias = b"{\"type\":\"record\",\"name\":\"R\",\"fields\":[{\"name\":\"f\",\"aliases\":[\"";
    let symbol = b"{\"type\":\"enum\",\"name\":\"E\",\"symbols\":[\"";
    let a = put_framed(
        stdout,
        out,
        at,
        draft,
        field,
        s,
        b"\",\"type\":\"int\"}]}",
        b" ",
    );
    let b = put_framed(
        stdout,
        out,
        a,
        draft,
        alias,
        s,
        b"\"],\"type\":\"int\"}]}",
        b" ",
    );
    put_framed(stdout, out, b, draft, symbol, s, b"\"]}", b"\n")
}

fn answer_line(stdout: &mut Output, s: &[u8], draft: &mut [u8], out: &mut [u8]) -> io::Result<()> {
    let a = put_defined(stdout, out, draft, s);
    let b = put_names(stdout, out, a, draft, s);
    let c = put_simple_names(stdout, out, b, draft, s);
    flush(stdout, out, c)
}

fn run(
    stdin: Stdin,
    stdout: &mut Output,
    input: &mut [u8],
    draft: &mut [u8],
    out: &mut [u8],
) -> io::Result<()> {
    let mut before = None;
    for _ in 0..u64::MAX {
        let Some(line) = next_line(stdin, input, before)? else {
            return Ok(());
        };
        answer_line(stdout, &input[line.from..line.to], draft, out)?;
        before = Some(line);
    }
    Ok(())
}

fn main(rt: HostRuntime) -> io::Result<()> {
    let mut stdout = Output::new(rt.stdout());
    let mut input = [0u8; 65536];
    let mut draft = [0u8; Layout::LENGTH];
    let mut out = [0u8; 65536];
    run(rt.stdin(), &mut stdout, &mut input, &mut draft, &mut out)
}
