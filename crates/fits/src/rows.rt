// Types by the numbers of their rows.
ghost use Rattle.std.specs.Prelude.{◌≡◌, ◌+◌, ◌≤◌, ◌<◌, length};
ghost use Rattle.row.specs.Layout.{row_limit, layout_length};
ghost use Rattle.row.specs.Memory.{entry_at, row_at};
ghost use Rattle.view.specs.Known.{Known};
ghost use Rattle.view.specs.Strings.{string_at};
ghost use Rattle.resolve.specs.Kinds.{is_kind};
ghost use Rattle.resolve.specs.Rules.{some};
ghost use Rattle.fits.specs.Types.{parts_under, type_of, has_default};
ghost use Rattle.fits.specs.Fits.{is_symbol};
ghost use Rattle.fits.specs.Steps.{is_nested, type_at, parts_from};

use row::Kind;
use row::read::{default_of, depth_at, kind_at, string_of};
use view::string_is;

// Is row i of a kind?
#[tactic(auto, unfolding(resolve::specs::Kinds::is_kind))]
pub fn is_of(mem: &[u8], i: usize, kind: Kind) -> bool
    requires { (length mem.now ≡ layout_length) × (i < row_limit) }
    ensures { result ≡ is_kind kind (entry_at mem.now i).kind }
{
    kind_at(mem, i) == kind
}

// Are there values inside the values of a kind?
#[tactic(auto, unfolding(crate::specs::Steps::is_nested, resolve::specs::Kinds::is_kind))]
pub fn is_nested(kind: Kind) -> bool
    ensures { result ≡ is_nested kind }
{
    matches!(kind, Kind::Array | Kind::Map | Kind::Record)
}

// The row of the type among the rows behind a field, which start at a place.
pub fn type_row(mem: &[u8], n: usize, start: usize) -> usize
    requires { (length mem.now ≡ layout_length) × (n ≤ row_limit) }
    ensures { type_at mem.now n result ≡ type_of (type_at mem.now n start) }
{
    for i in start..n {
        if !is_of(mem, i, Kind::FieldAlias) {
            return i;
        }
    }
    n
}

// Has the field at row i a default of its own?
pub fn has_default(mem: &[u8], i: usize) -> bool
    requires { (length mem.now ≡ layout_length) × (i < row_limit) }
    ensures { result ≡ has_default (row_at mem.now i) }
{
    !default_of(mem, i).is_empty()
}

// Is row i a symbol, and the string at `at` the symbol?
fn is_symbol(mem: &[u8], n: usize, i: usize, text: &[u8], ends: &[u16], at: usize) -> bool
    requires { (length mem.now ≡ layout_length) × (i < n) × (n ≤ row_limit) × Known text.now ends.now }
    ensures { result ≡ is_symbol (string_at text.now at) (type_at mem.now n i) }
{
    is_of(mem, i, Kind::Symbol) && string_is(text, ends, at, string_of(mem, i))
}

// The next row, from a place on, that stands directly under a row of a depth, of those that stand under it; n where there is none.
pub fn next_part(mem: &[u8], n: usize, start: usize, depth: usize) -> usize
    requires { (length mem.now ≡ layout_length) × (n ≤ row_limit) × (start ≤ n) × (depth < 65536) }
    ensures { (start ≤ result) × (result ≤ n) × (parts_from mem.now n depth result ≡ parts_under depth (type_at mem.now n start)) }
{
    for i in start..n {
        let d = depth_at(mem, i);
        if d <= depth {
            return n;
        }
        if d == depth + 1 {
            return i;
        }
    }
    n
}

// Is the string at `at` a symbol of the enum whose row is of a depth? The rows behind it start at a place.
pub fn has_symbol(
    mem: &[u8],
    n: usize,
    start: usize,
    depth: usize,
    text: &[u8],
    ends: &[u16],
    at: usize,
) -> bool
    requires { (length mem.now ≡ layout_length) × (n ≤ row_limit) × (start ≤ n) × (depth < 65536) × Known text.now ends.now }
    ensures { result ≡ some (is_symbol (string_at text.now at)) (parts_under depth (type_at mem.now n start)) }
{
    let mut i = next_part(mem, n, start, depth);
    // Each step goes to the next part, which may stand many rows on: no range fits.
    while i < n {
        if is_symbol(mem, n, i, text, ends, at) {
            return true;
        }
        i = next_part(mem, n, i + 1, depth);
    }
    false
}
