// Text for standard output is collected in a buffer, and written where the buffer is full or a program asks for it.
// Each function puts something behind the first `at` bytes of the buffer, and answers how many bytes there are then.
ghost use Rattle.std.specs.Prelude.{◌≡◌, ◌+◌, ◌<◌, leb, length};
ghost use Rattle.script.specs.Numbers.{decimal_of, signed_of};
ghost use Rattle.script.specs.Hex.{hex_of};
ghost use Rattle.script.specs.Hex.{glyph as Hex·glyph};
ghost use Rattle.script.specs.Put.{Put};

use ground::{copy, magnitude};
use std::io::{Error, Stdout};

// Standard output. After a write that failed nothing more is written.
#[derive(Drop)]
pub struct Output {
    to: Stdout,
    failure: Option<Error>,
}

impl Output {
    pub fn new(to: Stdout) -> Self {
        Output { to, failure: None }
    }

    fn write(&mut self, bytes: &[u8]) {
        if self.failure.is_none() {
            self.failure = self.to.write_all(bytes).err();
        }
    }

    // Writes the first `at` bytes of a buffer.
    fn write_front(&mut self, out: &[u8], at: usize) {
        if at <= out.len() {
            self.write(&out[0..at]);
        }
    }
}

// Writes the first `at` bytes of a buffer; fails where this write or an earlier one failed.
pub fn flush(stdout: &mut Output, out: &[u8], at: usize) -> std::io::Result<()> {
    stdout.write_front(out, at);
    match stdout.failure {
        None => Ok(()),
        Some(e) => Err(e),
    }
}

// Is there room for n bytes behind the first `at`?
fn has_room(out: &[u8], at: usize, n: usize) -> bool
    ensures { result ≡ leb (at + n) (length out.now) }
{
    at <= out.len() && n <= out.len() - at
}

pub fn put(stdout: &mut Output, out: &mut [u8], at: usize, s: &[u8]) -> usize
    ensures { Put out.old at s.now out.new result }
{
    if has_room(out, at, s.len()) {
        copy(out, at, s);
        return at + s.len();
    }
    stdout.write_front(out, at);
    if s.len() <= out.len() {
        copy(out, 0, s);
        return s.len();
    }
    stdout.write(s);
    0
}

pub fn put_decimal(stdout: &mut Output, out: &mut [u8], at: usize, n: u64) -> usize
    ensures { Put out.old at (decimal_of n) out.new result }
{
    let mut digits = [0u8; 20];
    let k = io::decimal(n, &mut digits);
    put(stdout, out, at, &digits[0..k])
}

pub fn put_signed(stdout: &mut Output, out: &mut [u8], at: usize, n: i64) -> usize
    ensures { Put out.old at (signed_of n) out.new result }
{
    if n < 0 {
        let next = put(stdout, out, at, b"-");
        return put_decimal(stdout, out, next, magnitude(n));
    }
    put_decimal(stdout, out, at, magnitude(n))
}

fn glyph(d: u8) -> u8
    requires { d < 16 }
    ensures { result ≡ Hex·glyph d }
{
    if d < 10 { b'0' + d } else { b'a' + d - 10 }
}

pub fn put_hex(stdout: &mut Output, out: &mut [u8], at: usize, s: &[u8]) -> usize
    ensures { Put out.old at (hex_of s.now) out.new result }
{
    if s.is_empty() {
        return put(stdout, out, at, b"-");
    }
    let mut end = at;
    for b in s {
        let pair = [glyph(*b / 16), glyph(*b % 16)];
        end = put(stdout, out, end, &pair);
    }
    end
}
