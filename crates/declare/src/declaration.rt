// A declaration that the set took: its place, rows, canonical text and fingerprint.
ghost use Rattle.std.specs.Prelude.{◌≡◌, length};
ghost use Rattle.row.specs.Layout.{layout_length};

use crate::table::put_table;
use answer::Counts;
use canonical::{Written, canonical, fingerprint};
use rabin::Rabin;
use script::output::{Output, put, put_decimal, put_hex, put_signed};

fn put_counts(stdout: &mut Output, out: &mut [u8], at: usize, place: usize, rows: usize) -> usize {
    let a = put(stdout, out, at, b": place ");
    let b = put_decimal(stdout, out, a, place as u64);
    let c = put(stdout, out, b, b", rows ");
    let d = put_decimal(stdout, out, c, rows as u64);
    put(stdout, out, d, b"\n")
}

fn put_text(stdout: &mut Output, out: &mut [u8], at: usize, text: &[u8]) -> usize {
    let a = put(stdout, out, at, b"  canonical text, ");
    let b = put_decimal(stdout, out, a, text.len() as u64);
    let c = put(stdout, out, b, b" bytes\n  ");
    let d = put(stdout, out, c, text);
    put(stdout, out, d, b"\n")
}

fn put_canonical(
    stdout: &mut Output,
    out: &mut [u8],
    at: usize,
    mem: &[u8],
    place: usize,
) -> usize {
    let mut text = [0u8; Written::LONGEST];
    match canonical(mem, place, &mut text, 0) {
        Err(_) => at,
        Ok(n) => put_text(stdout, out, at, &text[..n.min(Written::LONGEST)]),
    }
}

// Bytes, each behind a blank.
fn put_octets(stdout: &mut Output, out: &mut [u8], at: usize, bytes: &[u8]) -> usize {
    let mut end = at;
    for b in bytes {
        let next = put(stdout, out, end, b" ");
        end = put_hex(stdout, out, next, &[*b]);
    }
    end
}

// A fingerprint as a signed number, in hexadecimal digits, and as its bytes, lowest first.
fn put_print(stdout: &mut Output, out: &mut [u8], at: usize, state: i64) -> usize {
    let a = put(stdout, out, at, b"  fingerprint  ");
    let b = put_signed(stdout, out, a, state);
    let c = put(stdout, out, b, b"\n  hex          ");
    let d = put_hex(stdout, out, c, &state.to_be_bytes());
    let e = put(stdout, out, d, b"\n  bytes       ");
    let f = put_octets(stdout, out, e, &Rabin { state }.bytes());
    put(stdout, out, f, b"\n")
}

fn put_fingerprint(
    stdout: &mut Output,
    out: &mut [u8],
    at: usize,
    mem: &[u8],
    place: usize,
) -> usize {
    match fingerprint(mem, place) {
        Err(_) => at,
        Ok(state) => put_print(stdout, out, at, state),
    }
}

// The last declaration of a set, which had the counts `before` without it and has the counts `after` now.
pub(crate) fn put_declaration(
    stdout: &mut Output,
    out: &mut [u8],
    at: usize,
    mem: &[u8],
    before: Counts,
    after: Counts,
) -> usize
    requires { length mem.now ≡ layout_length }
{
    let place = before.declarations;
    let start = before.rows;
    let end = after.rows.min(Counts::ROWS);
    let a = put_counts(stdout, out, at, place, end.saturating_sub(start));
    let b = put_table(stdout, out, a, mem, start, end);
    let c = put_canonical(stdout, out, b, mem, place);
    let d = put_fingerprint(stdout, out, c, mem, place);
    put(stdout, out, d, b"\n")
}
