// Text in columns, where each byte takes one.
use script::output::{Output, put};

pub(crate) fn put_blanks(stdout: &mut Output, out: &mut [u8], at: usize, n: usize) -> usize {
    let mut end = at;
    for _ in 0..n {
        end = put(stdout, out, end, b" ");
    }
    end
}

// Text, and blanks behind it up to a width.
pub(crate) fn put_left(
    stdout: &mut Output,
    out: &mut [u8],
    at: usize,
    s: &[u8],
    width: usize,
) -> usize {
    let end = put(stdout, out, at, s);
    put_blanks(stdout, out, end, width.saturating_sub(s.len()))
}

// A number, and blanks before it up to a width.
pub(crate) fn put_right(
    stdout: &mut Output,
    out: &mut [u8],
    at: usize,
    n: u64,
    width: usize,
) -> usize {
    let mut digits = [0u8; 20];
    let k = io::decimal(n, &mut digits);
    let start = put_blanks(stdout, out, at, width.saturating_sub(k));
    put(stdout, out, start, &digits[0..k])
}

// How a byte is shown: a tab, a CR or an LF as a blank, any other that is not printable ASCII as `?`.
fn shown(b: u8) -> u8 {
    match b {
        b'\t' | b'\n' | b'\r' => b' ',
        b' '..=b'~' => b,
        _ => b'?',
    }
}

pub(crate) fn put_shown(stdout: &mut Output, out: &mut [u8], at: usize, s: &[u8]) -> usize {
    let mut end = at;
    for b in s {
        end = put(stdout, out, end, &[shown(*b)]);
    }
    end
}
