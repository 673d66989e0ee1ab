// The rows of a declaration as a table.
ghost use Rattle.std.specs.Prelude.{◌≡◌, ◌≤◌, length};
ghost use Rattle.row.specs.Layout.{row_limit, layout_length};

use crate::columns::{put_left, put_right, put_shown};
use decimals::limit;
use row::read::{default_of, read_row, string_of};
use row::{Entry, Kind};
use script::answers::kind_word;
use script::output::{Output, put, put_decimal};

fn put_size(stdout: &mut Output, out: &mut [u8], at: usize, row: Entry) -> usize {
    if !matches!(row.kind, Kind::Fixed) {
        return at;
    }
    let a = put(stdout, out, at, b"  size ");
    put_decimal(stdout, out, a, row.size)
}

fn put_holds(stdout: &mut Output, out: &mut [u8], at: usize, row: Entry) -> usize {
    let a = put(stdout, out, at, b"decimal, precision ");
    let b = put_decimal(stdout, out, a, row.precision);
    let c = put(stdout, out, b, b", scale ");
    put_decimal(stdout, out, c, row.scale)
}

// Why there is no decimal, by the note.
fn reason(note: u8) -> &'static [u8] {
    match note {
        2 => b"no decimal, precision missing",
        3 => b"no decimal, precision not digits up to 2^64 - 1",
        4 => b"no decimal, scale not digits up to 2^64 - 1",
        5 => b"no decimal, precision 0",
        6 => b"no decimal, precision below scale",
        _ => b"",
    }
}

// The limit that the precision is above.
fn put_limit(stdout: &mut Output, out: &mut [u8], at: usize, size: u64) -> usize {
    let a = put(stdout, out, at, b"no decimal, precision above ");
    let b = put_decimal(stdout, out, a, limit(size));
    let c = put(stdout, out, b, b", the limit of size ");
    put_decimal(stdout, out, c, size)
}

// The note of a decimal, where there is one.
fn put_note(stdout: &mut Output, out: &mut [u8], at: usize, row: Entry) -> usize {
    if row.note == 0 {
        return at;
    }
    let a = put(stdout, out, at, b"  note ");
    let b = put_decimal(stdout, out, a, u64::from(row.note));
    let c = put(stdout, out, b, b": ");
    match row.note {
        1 => put_holds(stdout, out, c, row),
        7 => put_limit(stdout, out, c, row.size),
        note => put(stdout, out, c, reason(note)),
    }
}

// A field's default as it is written, where there is one.
fn put_default(stdout: &mut Output, out: &mut [u8], at: usize, default: &[u8]) -> usize {
    if default.is_empty() {
        return at;
    }
    let a = put(stdout, out, at, b"  default ");
    put_shown(stdout, out, a, default)
}

// Does anything stand behind the name?
fn has_more(row: Entry, default: &[u8]) -> bool {
    matches!(row.kind, Kind::Fixed) || 0 < row.note || !default.is_empty()
}

// The name, the numbers and the default, as far as there are any.
fn put_end(
    stdout: &mut Output,
    out: &mut [u8],
    at: usize,
    row: Entry,
    name: &[u8],
    default: &[u8],
    width: usize,
) -> usize {
    if has_more(row, default) {
        let a = put(stdout, out, at, b"  ");
        let b = put_left(stdout, out, a, name, width);
        let c = put_size(stdout, out, b, row);
        let d = put_note(stdout, out, c, row);
        return put_default(stdout, out, d, default);
    }
    if name.is_empty() {
        return at;
    }
    let a = put(stdout, out, at, b"  ");
    put(stdout, out, a, name)
}

// The columns that every row has.
fn put_front(stdout: &mut Output, out: &mut [u8], at: usize, n: usize, row: Entry) -> usize {
    let a = put_right(stdout, out, at, n as u64, 6);
    let b = put(stdout, out, a, b"  ");
    let c = put_left(stdout, out, b, kind_word(row.kind), 11);
    let d = put_right(stdout, out, c, u64::from(row.depth), 7);
    put_right(stdout, out, d, u64::from(row.position), 10)
}

fn put_row(
    stdout: &mut Output,
    out: &mut [u8],
    at: usize,
    n: usize,
    row: Entry,
    name: &[u8],
    default: &[u8],
    width: usize,
) -> usize {
    let a = put_front(stdout, out, at, n, row);
    let b = put_end(stdout, out, a, row, name, default, width);
    put(stdout, out, b, b"\n")
}

// How long the longest name is, at most 40.
fn widest(mem: &[u8], start: usize, end: usize) -> usize
    requires { (length mem.now ≡ layout_length) × (end ≤ row_limit) }
{
    let mut width = 0;
    for i in start..end {
        width = width.max(string_of(mem, i).len().min(40));
    }
    width
}

fn put_each(
    stdout: &mut Output,
    out: &mut [u8],
    at: usize,
    mem: &[u8],
    start: usize,
    end: usize,
    width: usize,
) -> usize
    requires { (length mem.now ≡ layout_length) × (end ≤ row_limit) }
{
    let mut to = at;
    for i in start..end {
        let row = read_row(mem, i);
        let name = string_of(mem, i);
        let default = default_of(mem, i);
        to = put_row(stdout, out, to, i - start, row, name, default, width);
    }
    to
}

// The rows of a set's memory from `start` to `end`, numbered from 0.
pub(crate) fn put_table(
    stdout: &mut Output,
    out: &mut [u8],
    at: usize,
    mem: &[u8],
    start: usize,
    end: usize,
) -> usize
    requires { (length mem.now ≡ layout_length) × (end ≤ row_limit) }
{
    let a = put(
        stdout,
        out,
        at,
        b"   row  kind         depth  position  name\n",
    );
    let width = widest(mem, start, end);
    put_each(stdout, out, a, mem, start, end, width)
}
