// The lines of an answer, put into a buffer as by `output`.
ghost use Rattle.std.specs.Prelude.{◌≡◌, ◌+◌, ◌<◌, ◌≤◌, length};
ghost use Rattle.row.specs.Layout.{row_limit, layout_length};
ghost use Rattle.script.specs.Put.{Put};
ghost use Rattle.script.specs.Lines.{kind_word, spaced, fault_line, refusal_line, own_size, default_position, row_numbers, spaced_hex, row_line, row_lines, has_rows, rows_text};

use crate::output::{Output, put, put_decimal, put_hex};
use answer::{Counts, Fault, Refusal};
use row::read::{default_of, read_row, string_of};
use row::{Entry, Kind, Layout};

// A space, and a number.
pub fn put_spaced(stdout: &mut Output, out: &mut [u8], at: usize, n: u64) -> usize
    ensures { Put out.old at (spaced n) out.new result }
{
    let next = put(stdout, out, at, b" ");
    put_decimal(stdout, out, next, n)
}

pub fn put_fault(stdout: &mut Output, out: &mut [u8], at: usize, f: Fault) -> usize
    ensures { Put out.old at (fault_line f) out.new result }
{
    let a = put(stdout, out, at, b"refused");
    let b = put_spaced(stdout, out, a, u64::from(f.why.number()));
    let c = put_spaced(stdout, out, b, f.at as u64);
    put(stdout, out, c, b"\n")
}

pub fn put_refusal(stdout: &mut Output, out: &mut [u8], at: usize, r: Refusal) -> usize
    ensures { Put out.old at (refusal_line r) out.new result }
{
    let a = put(stdout, out, at, b"refused");
    let b = put_spaced(stdout, out, a, u64::from(r.why.number()));
    let c = put_spaced(stdout, out, b, r.place as u64);
    let d = put_spaced(stdout, out, c, r.at as u64);
    put(stdout, out, d, b"\n")
}

pub fn kind_word(kind: Kind) -> &'static [u8]
    ensures { result.now ≡ kind_word kind }
{
    match kind {
        Kind::Null => b"null",
        Kind::Boolean => b"boolean",
        Kind::Int => b"int",
        Kind::Long => b"long",
        Kind::Float => b"float",
        Kind::Double => b"double",
        Kind::Bytes => b"bytes",
        Kind::String => b"string",
        Kind::Reference => b"reference",
        Kind::Array => b"array",
        Kind::Map => b"map",
        Kind::Union => b"union",
        Kind::Record => b"record",
        Kind::Enum => b"enum",
        Kind::Fixed => b"fixed",
        Kind::Field => b"field",
        Kind::Symbol => b"symbol",
        Kind::Alias => b"alias",
        Kind::FieldAlias => b"field-alias",
    }
}

// The size of a fixed; a row with a default has none.
#[tactic(auto, unfolding(crate::specs::Lines::own_size))]
fn own_size(row: Entry, default: &[u8]) -> u64
    ensures { result ≡ own_size row default.now }
{
    if default.is_empty() { row.size } else { 0 }
}

// The position of the default, 0 where there is none.
#[tactic(auto, unfolding(crate::specs::Lines::default_position))]
fn default_position(row: Entry, default: &[u8]) -> u64
    ensures { result ≡ default_position row default.now }
{
    if default.is_empty() { 0 } else { row.size }
}

fn put_numbers(stdout: &mut Output, out: &mut [u8], at: usize, row: Entry, size: u64) -> usize
    ensures { Put out.old at (row_numbers row size) out.new result }
{
    let a = put_spaced(stdout, out, at, u64::from(row.depth));
    let b = put_spaced(stdout, out, a, u64::from(row.position));
    let c = put_spaced(stdout, out, b, size);
    let d = put_spaced(stdout, out, c, u64::from(row.note));
    let e = put_spaced(stdout, out, d, row.precision);
    put_spaced(stdout, out, e, row.scale)
}

// A space, and bytes.
fn put_spaced_hex(stdout: &mut Output, out: &mut [u8], at: usize, bytes: &[u8]) -> usize
    ensures { Put out.old at (spaced_hex bytes.now) out.new result }
{
    let next = put(stdout, out, at, b" ");
    put_hex(stdout, out, next, bytes)
}

// A row, its string and its default.
pub fn put_row(
    stdout: &mut Output,
    out: &mut [u8],
    at: usize,
    row: Entry,
    text: &[u8],
    default: &[u8],
) -> usize
    ensures { Put out.old at (row_line row text.now default.now) out.new result }
{
    let a = put(stdout, out, at, b"row ");
    let b = put(stdout, out, a, kind_word(row.kind));
    let c = put_numbers(stdout, out, b, row, own_size(row, default));
    let d = put_spaced_hex(stdout, out, c, text);
    let e = put_spaced(stdout, out, d, default_position(row, default));
    let f = put_spaced_hex(stdout, out, e, default);
    put(stdout, out, f, b"\n")
}

// n rows of a set's memory from row `start` on, which it has.
fn put_each(
    stdout: &mut Output,
    out: &mut [u8],
    at: usize,
    mem: &[u8],
    start: usize,
    n: usize,
) -> usize
    requires { (length mem.now ≡ layout_length) × (start + n ≤ row_limit) }
    ensures { Put out.old at (row_lines mem.now n start) out.new result }
{
    let mut end = at;
    for i in start..start + n {
        let row = read_row(mem, i);
        let text = string_of(mem, i);
        let default = default_of(mem, i);
        end = put_row(stdout, out, end, row, text, default);
    }
    end
}

#[tactic(auto, unfolding(crate::specs::Lines::has_rows))]
fn has_rows(mem: &[u8], start: usize, n: usize) -> bool
    ensures { result ≡ has_rows mem.now n start }
{
    mem.len() == Layout::LENGTH && start <= Counts::ROWS && n <= Counts::ROWS - start
}

// n rows of a set's memory from row `start` on; nothing where it does not have them.
pub fn put_rows(
    stdout: &mut Output,
    out: &mut [u8],
    at: usize,
    mem: &[u8],
    start: usize,
    n: usize,
) -> usize
    ensures { Put out.old at (rows_text mem.now n start) out.new result }
{
    if !has_rows(mem, start, n) {
        return at;
    }
    put_each(stdout, out, at, mem, start, n)
}
