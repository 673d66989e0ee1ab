// Types whose values have no values inside.
ghost use Rattle.std.specs.Prelude.{◌≡◌, Bool, false, ◌&&◌, List, ℕ, ◌+◌, ◌≤◌, ◌<◌, length};
ghost use Rattle.row.specs.Layout.{row_limit, layout_length};
ghost use Rattle.row.specs.Rows.{Row};
ghost use Rattle.row.specs.Memory.{entry_at, row_at};
ghost use Rattle.view.specs.Known.{Known};
ghost use Rattle.view.specs.Strings.{string_at};
ghost use Rattle.values.specs.Values.{is_string};
ghost use Rattle.resolve.specs.Rules.{some};
ghost use Rattle.fits.specs.Types.{parts_under};
ghost use Rattle.fits.specs.Fits.{is_symbol, plain_fits};
ghost use Rattle.fits.specs.Steps.{is_nested, type_at};

use crate::rows::has_symbol;
use row::Kind;
use row::read::{depth_at, kind_at, size_at};
use values::{is_boolean, is_bytes, is_fixed, is_null, is_number, is_string, is_whole};

// Is the value at `at` a symbol of the enum at a row?
fn is_of_enum(mem: &[u8], n: usize, text: &[u8], ends: &[u16], row: usize, at: usize) -> bool
    requires { (length mem.now ≡ layout_length) × (n ≤ row_limit) × (row < n) × Known text.now ends.now }
    ensures { result ≡ (is_string text.now at && some (is_symbol (string_at text.now at)) (parts_under (entry_at mem.now row).depth (type_at mem.now n (row + 1)))) }
{
    is_string(text, at) && has_symbol(mem, n, row + 1, depth_at(mem, row), text, ends, at)
}

// Does the value at `at` fit the type at a row, of a kind that has no values inside?
pub fn leaf(mem: &[u8], n: usize, text: &[u8], ends: &[u16], row: usize, at: usize) -> bool
    requires { (length mem.now ≡ layout_length) × (n ≤ row_limit) × (row < n) × Known text.now ends.now }
    ensures { (go : List Row → ℕ → Bool) → is_nested (entry_at mem.now row).kind ≡ false → result ≡ plain_fits text.now go (type_at mem.now n row) at }
{
    match kind_at(mem, row) {
        Kind::Null => is_null(text, at),
        Kind::Boolean => is_boolean(text, at),
        Kind::Int => is_whole(text, at, 2147483648),
        Kind::Long => is_whole(text, at, 9223372036854775808),
        Kind::Float | Kind::Double => is_number(text, at),
        Kind::Bytes => is_bytes(text, at),
        Kind::String => is_string(text, at),
        Kind::Fixed => is_fixed(text, at, size_at(mem, row)),
        Kind::Enum => is_of_enum(mem, n, text, ends, row, at),
        _ => false,
    }
}
