// Standard input in parts that marks separate, as LF does lines. A part is handed out before more is read than what came with it.
ghost use Rattle.std.specs.Prelude.{◌≡◌, ◌<◌, ◌≤◌, length, IfOk, IfSome};
ghost use Rattle.script.specs.Input.{Within};

use std::io;
use std::io::{Read, Stdin};

// A part without its mark: the buffer's bytes from `from` to `to`. Those from `next` to `end` were read and are left.
// Behind the last part the input ends. A part that does not fit the buffer with its mark is cut, and its rest is skipped.
#[derive(Clone, Copy)]
pub struct Part {
    pub from: usize,
    pub to: usize,
    pub last: bool,
    pub cut: bool,
    pub next: usize,
    pub end: usize,
}

// The buffer's first n bytes, and nothing is left.
fn front(n: usize, last: bool, cut: bool) -> Part
    ensures { Within n result }
{
    Part {
        from: 0,
        to: n,
        last,
        cut,
        next: 0,
        end: 0,
    }
}

// Its mark stands at `to`, and the bytes behind it are left.
fn marked(from: usize, to: usize, end: usize) -> Part
    requires { (from ≤ to) × (to < end) }
    ensures { Within end result }
{
    Part {
        from,
        to,
        last: false,
        cut: false,
        next: to + 1,
        end,
    }
}

// Where the first mark stands of the bytes from `from` to `end`.
fn mark_at(buf: &[u8], mark: u8, from: usize, end: usize) -> Option<usize>
    requires { (from ≤ end) × (end ≤ length buf.now) }
    ensures { IfSome result (λ at. (from ≤ at) × (at < end)) }
{
    let at = buf[from..end].iter().position(|b| *b == mark)?;
    Some(from + at)
}

// Reads once, behind the first n bytes, and answers how many bytes there are then: n at the input's end.
fn read_more<R: Read>(from: &mut R, buf: &mut [u8], n: usize) -> io::Result<usize>
    requires { n ≤ length buf.old }
    ensures { IfOk result (λ more. (n ≤ more) × (more ≤ length buf.new)) }
{
    let got = from.read(&mut buf[n..])?;
    Ok(n + got)
}

// Reads until the buffer is full or the input ends, and answers how many bytes there are. After a read that failed the buffer holds anything.
pub fn read_full<R: Read>(from: &mut R, buf: &mut [u8]) -> io::Result<usize>
    ensures read { IfOk result (λ n. n ≤ length buf.new) }
    ensures kept { length buf.new ≡ length buf.old }
{
    let mut to = 0;
    // Each turn goes on by what a read gave, so no range fits.
    while to < buf.len() {
        let more = read_more(from, buf, to)?;
        if more <= to {
            return Ok(to);
        }
        to = more;
    }
    Ok(to)
}

// Reads until the part ends of which the buffer's first n bytes are there.
fn read_part(mut stdin: Stdin, buf: &mut [u8], mark: u8, n: usize) -> io::Result<Part>
    requires { n ≤ length buf.old }
    ensures { IfOk result (Within (length buf.new)) }
{
    let mut to = n;
    // Each turn goes on by what a read gave, so no range fits.
    while to < buf.len() {
        let more = read_more(&mut stdin, buf, to)?;
        if more <= to {
            return Ok(front(to, true, false));
        }
        if let Some(at) = mark_at(buf, mark, to, more) {
            return Ok(marked(0, at, more));
        }
        to = more;
    }
    Ok(front(to, to == 0, 0 < to))
}

// Reads until the part that was cut ends.
fn skip_part(stdin: Stdin, buf: &mut [u8], mark: u8) -> io::Result<Part>
    ensures { IfOk result (Within (length buf.new)) }
{
    for _ in 0..u64::MAX {
        let rest = read_part(stdin, buf, mark, 0)?;
        if !rest.cut {
            return Ok(rest);
        }
    }
    Ok(front(0, true, false))
}

// The part; where it was cut, what its rest has left.
fn past_cut(
    stdin: Stdin,
    buf: &mut [u8],
    mark: u8,
    part: Option<Part>,
) -> io::Result<Option<Part>> {
    match part {
        Some(part) if part.cut => Ok(Some(skip_part(stdin, buf, mark)?)),
        _ => Ok(part),
    }
}

// From where to where the bytes stand that a part has left. What no part of this buffer has left counts as nothing.
fn left(buf: &[u8], part: Option<Part>) -> (usize, usize)
    ensures { (result.0 ≤ result.1) × (result.1 ≤ length buf.now) }
{
    match part {
        Some(part) if part.next <= part.end && part.end <= buf.len() => (part.next, part.end),
        _ => (0, 0),
    }
}

// The part after a part; the first where there is none before it. After a read that failed the buffer holds anything, and nothing is left
// in it.
pub fn next_part(stdin: Stdin, buf: &mut [u8], mark: u8, before: Option<Part>) -> io::Result<Part>
    ensures read { IfOk result (Within (length buf.new)) }
    ensures kept { length buf.new ≡ length buf.old }
{
    // A read that fails while the rest of a part that was cut is skipped counts as nothing: what comes behind it is read.
    let before = past_cut(stdin, buf, mark, before).unwrap_or(None);
    let (from, end) = left(buf, before);
    if let Some(at) = mark_at(buf, mark, from, end) {
        return Ok(marked(from, at, end));
    }
    buf.copy_within(from..end, 0);
    read_part(stdin, buf, mark, end - from)
}

// The line after a line; none at the input's end.
pub fn next_line(stdin: Stdin, buf: &mut [u8], before: Option<Part>) -> io::Result<Option<Part>>
    ensures read { IfOk result (λ line. IfSome line (Within (length buf.new))) }
    ensures kept { length buf.new ≡ length buf.old }
{
    // Here it ends the reading.
    let before = past_cut(stdin, buf, b'\n', before)?;
    let line = next_part(stdin, buf, b'\n', before)?;
    if line.last && line.to == 0 {
        return Ok(None);
    }
    Ok(Some(line))
}
