// The numbers that a row keeps, by its kind.
ghost use Rattle.std.specs.Prelude.{◌≡◌, ◌<◌, length};
ghost use Rattle.row.specs.Layout.{row_limit, layout_length};
ghost use Rattle.row.specs.Memory.{entry_at, row_at};
ghost use Rattle.resolve.specs.Rules.{good_size, good_note, good_precision, good_decimal, good_numbers};

use decimals::limit;
use json_scan::Scan;
use row::Kind;
use row::read::{default_of, note_at, position_at, precision_at, scale_at, size_at};

// The size of row i of a kind: a fixed's, or where there is a default the position of that.
#[tactic(auto, unfolding(crate::specs::Rules::good_size, crate::specs::Kinds::is_kind, name::specs::Name::is_empty))]
fn good_size(mem: &[u8], kind: Kind, i: usize, size: u64) -> bool
    requires { (length mem.now ≡ layout_length) × (i < row_limit) × (kind ≡ (entry_at mem.now i).kind) × (size ≡ (entry_at mem.now i).size) }
    ensures { result ≡ good_size (row_at mem.now i) }
{
    size == 0 || kind == Kind::Fixed || !default_of(mem, i).is_empty() && size < Scan::TEXT as u64
}

#[tactic(auto, unfolding(crate::specs::Rules::good_note, crate::specs::Kinds::is_kind))]
fn good_note(kind: Kind, note: u8) -> bool
    ensures { result ≡ good_note kind note }
{
    match kind {
        Kind::Fixed => note <= 7,
        Kind::Bytes => note <= 6,
        _ => note == 0,
    }
}

#[tactic(auto, unfolding(crate::specs::Rules::good_precision, crate::specs::Kinds::is_kind))]
fn good_precision(kind: Kind, size: u64, precision: u64) -> bool
    ensures { result ≡ good_precision kind size precision }
{
    kind != Kind::Fixed || precision <= limit(size)
}

#[tactic(auto, unfolding(crate::specs::Rules::good_decimal))]
fn good_decimal(note: u8, precision: u64, scale: u64) -> bool
    ensures { result ≡ good_decimal note precision scale }
{
    if note == 1 {
        precision != 0 && scale <= precision
    } else {
        precision == 0 && scale == 0
    }
}

// Row i of a kind.
#[tactic(auto, unfolding(crate::specs::Rules::good_numbers))]
pub fn good_numbers(mem: &[u8], kind: Kind, i: usize) -> bool
    requires { (length mem.now ≡ layout_length) × (i < row_limit) × (kind ≡ (entry_at mem.now i).kind) }
    ensures { result ≡ good_numbers (row_at mem.now i) }
{
    let size = size_at(mem, i);
    let note = note_at(mem, i);
    let precision = precision_at(mem, i);
    position_at(mem, i) < Scan::TEXT
        && good_size(mem, kind, i, size)
        && good_note(kind, note)
        && good_precision(kind, size, precision)
        && good_decimal(note, precision, scale_at(mem, i))
}
