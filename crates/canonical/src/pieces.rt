// What each row writes into the part of the buffer that it is lent, before its parts and behind them.
ghost use Rattle.std.specs.Prelude.{◌≡◌, ◌++◌, ◌+◌, ◌≤◌, length};
ghost use Rattle.row.specs.Layout.{string_limit};
ghost use Rattle.row.specs.declared.kind.Kind.TheVariants.{Fixed};
ghost use Rattle.canonical.specs.Pieces.{quoted, named, opening, closing};
ghost use Rattle.canonical.specs.Walk.{word_of, row_cost};
ghost use Rattle.canonical.specs.Wrote.{Wrote};

use crate::decimal::write_decimal;
use ground::copy;
use row::Kind;

// Stores s from `at` on, as far as there is room. The place behind it comes back.
pub(crate) fn put(part: &mut [u8], at: usize, s: &[u8]) -> usize
    requires { at + length s.now ≤ 4294967296 }
    ensures { Wrote part.old at part.new result s.now }
{
    copy(part, at, s);
    at + s.len()
}

fn quoted(name: &[u8], part: &mut [u8]) -> usize
    requires { length name.now ≤ string_limit }
    ensures { Wrote part.old 0 part.new result (quoted name.now) }
{
    let a = put(part, 0, b"\"");
    let b = put(part, a, name);
    put(part, b, b"\"")
}

// An object's name, then `rest`.
fn named(name: &[u8], rest: &[u8], part: &mut [u8]) -> usize
    requires { (length name.now ≤ string_limit) × (length rest.now ≤ row_cost) }
    ensures { Wrote part.old 0 part.new result (named name.now ++ rest.now) }
{
    let a = put(part, 0, b"{\"name\":\"");
    let b = put(part, a, name);
    let c = put(part, b, b"\"");
    put(part, c, rest)
}

fn fixed(name: &[u8], size: u64, part: &mut [u8]) -> usize
    requires { length name.now ≤ string_limit }
    ensures { Wrote part.old 0 part.new result (opening Fixed name.now size) }
{
    let at = named(name, b",\"type\":\"fixed\",\"size\":", part);
    let from = at.min(part.len());
    at + write_decimal(size, &mut part[from..])
}

// A primitive is its word alone.
fn word(kind: Kind, part: &mut [u8]) -> usize
    ensures { Wrote part.old 0 part.new result (word_of kind) }
{
    match kind {
        Kind::Null => put(part, 0, b"\"null\""),
        Kind::Boolean => put(part, 0, b"\"boolean\""),
        Kind::Int => put(part, 0, b"\"int\""),
        Kind::Long => put(part, 0, b"\"long\""),
        Kind::Float => put(part, 0, b"\"float\""),
        Kind::Double => put(part, 0, b"\"double\""),
        Kind::Bytes => put(part, 0, b"\"bytes\""),
        Kind::String => put(part, 0, b"\"string\""),
        _ => 0,
    }
}

// Before its parts.
pub(crate) fn opening(kind: Kind, name: &[u8], size: u64, part: &mut [u8]) -> usize
    requires { length name.now ≤ string_limit }
    ensures { Wrote part.old 0 part.new result (opening kind name.now size) }
{
    match kind {
        Kind::Reference | Kind::Symbol => quoted(name, part),
        Kind::Array => put(part, 0, b"{\"type\":\"array\",\"items\":"),
        Kind::Map => put(part, 0, b"{\"type\":\"map\",\"values\":"),
        Kind::Union => put(part, 0, b"["),
        Kind::Record => named(name, b",\"type\":\"record\",\"fields\":[", part),
        Kind::Enum => named(name, b",\"type\":\"enum\",\"symbols\":[", part),
        Kind::Fixed => fixed(name, size, part),
        Kind::Field => named(name, b",\"type\":", part),
        Kind::Alias | Kind::FieldAlias => 0,
        _ => word(kind, part),
    }
}

// Behind its parts.
pub(crate) fn closing(kind: Kind, part: &mut [u8]) -> usize
    ensures { Wrote part.old 0 part.new result (closing kind) }
{
    match kind {
        Kind::Array | Kind::Map | Kind::Fixed | Kind::Field => put(part, 0, b"}"),
        Kind::Union => put(part, 0, b"]"),
        Kind::Record | Kind::Enum => put(part, 0, b"]}"),
        _ => 0,
    }
}
