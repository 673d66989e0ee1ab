// The line of a text around a position, with a caret under it.
ghost use Rattle.std.specs.Prelude.{◌≤◌, length};

use crate::code::put_code;
use crate::columns::{put_blanks, put_shown};
use crate::lines::line_end;
use crate::spot::{Spot, spot_of};
use script::output::{Output, put, put_decimal};

fn put_spot(stdout: &mut Output, out: &mut [u8], at: usize, spot: Spot) -> usize {
    let a = put(stdout, out, at, b"  line ");
    let b = put_decimal(stdout, out, a, spot.line as u64);
    let c = put(stdout, out, b, b", column ");
    let d = put_decimal(stdout, out, c, spot.column as u64);
    put(stdout, out, d, b"\n")
}

// Four columns: dots where something is left out.
fn put_margin(stdout: &mut Output, out: &mut [u8], at: usize, cut: bool) -> usize {
    put(stdout, out, at, if cut { b"... " } else { b"    " })
}

fn put_rest(stdout: &mut Output, out: &mut [u8], at: usize, cut: bool) -> usize {
    if cut {
        put(stdout, out, at, b" ...\n")
    } else {
        put(stdout, out, at, b"\n")
    }
}

// The code point of a character, where it is to be told and not ASCII.
fn put_letter(stdout: &mut Output, out: &mut [u8], at: usize, code: Option<u32>) -> usize {
    match code {
        Some(code) if 128 <= code => {
            let a = put(stdout, out, at, b" U+");
            put_code(stdout, out, a, code)
        }
        _ => at,
    }
}

// A caret behind n blanks, and which character stands above it.
fn put_caret(stdout: &mut Output, out: &mut [u8], at: usize, n: usize, code: Option<u32>) -> usize {
    let a = put_blanks(stdout, out, at, n);
    let b = put(stdout, out, a, b"^");
    let c = put_letter(stdout, out, b, code);
    put(stdout, out, c, b"\n")
}

// Of the line from `start` to `end` at most 100 bytes, 60 of them before the position.
fn put_line(
    stdout: &mut Output,
    out: &mut [u8],
    at: usize,
    text: &[u8],
    start: usize,
    end: usize,
    p: usize,
    code: Option<u32>,
) -> usize
    requires { (start ≤ p) × (p ≤ end) × (end ≤ length text.now) }
{
    let from = start.max(p.saturating_sub(60));
    let to = end.min(p + 40);
    let a = put_margin(stdout, out, at, start < from);
    let b = put_shown(stdout, out, a, &text[from..to]);
    let c = put_rest(stdout, out, b, to < end);
    put_caret(stdout, out, c, 4 + (p - from), code)
}

// Line and column of a position, and the line with a caret; the character there, where it is to be told, by its code point.
pub(crate) fn put_excerpt(
    stdout: &mut Output,
    out: &mut [u8],
    at: usize,
    text: &[u8],
    position: usize,
    code: Option<u32>,
) -> usize {
    let p = position.min(text.len());
    let spot = spot_of(text, p);
    let start = (p + 1).saturating_sub(spot.column);
    let end = line_end(text, p);
    let a = put_spot(stdout, out, at, spot);
    put_line(stdout, out, a, text, start, end, p, code)
}
