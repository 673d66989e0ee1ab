// Two declarations of hand-made rows: each kind at least once, and numbers of more than one byte.
use answer::Counts;
use row::write::{push, push_both};
use row::{Entry, Kind};

// A row without numbers.
fn plain(kind: Kind, depth: u16, position: u16) -> Entry {
    Entry {
        kind,
        depth,
        position,
        size: 0,
        note: 0,
        precision: 0,
        scale: 0,
    }
}

fn decimal(kind: Kind, depth: u16, position: u16) -> Entry {
    Entry {
        note: 1,
        precision: 72623859790382856,
        scale: 258,
        ..plain(kind, depth, position)
    }
}

// A field whose default stands at a place of the text.
fn defaulted(depth: u16, position: u16, at: u64) -> Entry {
    Entry {
        size: at,
        ..plain(Kind::Field, depth, position)
    }
}

fn fixed(depth: u16, position: u16, size: u64) -> Entry {
    Entry {
        size,
        note: 6,
        ..plain(Kind::Fixed, depth, position)
    }
}

fn record_rows(mem: &mut [u8], counts: Counts) -> Counts {
    let a = push(mem, counts, plain(Kind::Record, 0, 26), b"a.R");
    let b = push(mem, a, plain(Kind::Alias, 1, 41), b"a.Old");
    push(mem, b, plain(Kind::Field, 1, 300), b"x")
}

fn field_rows(mem: &mut [u8], counts: Counts) -> Counts {
    let a = push(mem, counts, plain(Kind::FieldAlias, 2, 310), b"y");
    let b = push(mem, a, plain(Kind::Int, 2, 320), b"");
    push_both(mem, b, defaulted(1, 400, 773), b"u", b"[ null ]")
}

fn union_rows(mem: &mut [u8], counts: Counts) -> Counts {
    let a = push(mem, counts, plain(Kind::Union, 2, 410), b"");
    let b = push(mem, a, plain(Kind::Null, 3, 411), b"");
    push(mem, b, plain(Kind::Boolean, 3, 418), b"")
}

fn number_rows(mem: &mut [u8], counts: Counts) -> Counts {
    let a = push(mem, counts, plain(Kind::Long, 3, 428), b"");
    let b = push(mem, a, plain(Kind::Float, 3, 435), b"");
    push(mem, b, plain(Kind::Double, 3, 443), b"")
}

fn byte_rows(mem: &mut [u8], counts: Counts) -> Counts {
    let a = push(mem, counts, decimal(Kind::Bytes, 3, 460), b"");
    let b = push(mem, a, plain(Kind::String, 3, 500), b"");
    push(mem, b, plain(Kind::Array, 3, 520), b"")
}

fn nested_rows(mem: &mut [u8], counts: Counts) -> Counts {
    let a = push(mem, counts, plain(Kind::Map, 4, 540), b"");
    let b = push(mem, a, fixed(5, 560, 4294967301), b"a.F");
    push(mem, b, plain(Kind::Reference, 3, 600), b"a.R")
}

fn first_half(mem: &mut [u8], counts: Counts) -> Counts {
    let a = record_rows(mem, counts);
    let b = field_rows(mem, a);
    union_rows(mem, b)
}

fn second_half(mem: &mut [u8], counts: Counts) -> Counts {
    let a = number_rows(mem, counts);
    let b = byte_rows(mem, a);
    nested_rows(mem, b)
}

// The rows of a record.
pub(crate) fn record_declaration(mem: &mut [u8], counts: Counts) -> Counts {
    let half = first_half(mem, counts);
    second_half(mem, half)
}

// The rows of an enum.
pub(crate) fn enum_declaration(mem: &mut [u8], counts: Counts) -> Counts {
    let a = push(mem, counts, plain(Kind::Enum, 0, 32767), b"E");
    let b = push(mem, a, plain(Kind::Symbol, 1, 25), b"NORTH");
    push(mem, b, plain(Kind::Symbol, 513, 32766), b"SOUTH")
}

// The rows between two counts are the declaration at a place.
pub(crate) fn close(mem: &mut [u8], place: usize, before: Counts, after: Counts) {
    let Some(n) = after.rows.checked_sub(before.rows) else {
        return;
    };
    if n <= Counts::ROWS && place < Counts::DECLARATIONS {
        row::write::declare(mem, place, n);
    }
}
