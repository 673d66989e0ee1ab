// The full name of a row, by its declaration's place and its number there.
ghost use Rattle.std.specs.Prelude.{◌≡◌, true, ◌<◌, length};
ghost use Rattle.row.specs.Layout.{row_limit, strings_start, layout_length};
ghost use Rattle.row.specs.Sets.{decode};
ghost use Rattle.row.specs.Memory.{behind};
ghost use Rattle.formed.specs.WellFormed.{well_formed};
ghost use Rattle.set.specs.Naming.{has_full_name, name_in, full_name_in, start_in, full_name_start, numbers_of_naming, naming_of};
ghost use Rattle.set.specs.Steps.{row_name, row_name_start};

use crate::append::refused;
use answer::{Answer, Why};
use formed::well_formed;
use row::Kind;
use row::read::{declarations, kind_at, rows_before, rows_of, string_of};

// Definitions, their aliases and references have a full name.
#[tactic(auto, unfolding(crate::specs::Naming::has_full_name, resolve::specs::Kinds::is_named, resolve::specs::Kinds::is_definition, resolve::specs::Kinds::is_kind))]
fn has_full_name(k: Kind) -> bool
    ensures { result ≡ has_full_name k }
{
    matches!(
        k,
        Kind::Record | Kind::Enum | Kind::Fixed | Kind::Reference | Kind::Alias
    )
}

// The full name of row i of the memory, no bytes where it has none.
fn name_of(mem: &[u8], i: usize) -> &[u8]
    requires { (length mem.now ≡ layout_length) × (i < row_limit) }
    ensures { (result.now ≡ row_name mem.now i) × (result.ref_ptr ≡ behind mem.entry.ref_ptr (row_name_start mem.now i)) }
{
    if has_full_name(kind_at(mem, i)) {
        return string_of(mem, i);
    }
    &mem[0..0]
}

// The full name of a row of a set, no bytes where there is none.
fn name_at(mem: &[u8], place: usize, row: usize) -> &[u8]
    requires { well_formed mem.now ≡ true }
    ensures { (result.now ≡ name_in (decode mem.now) place row)
        × (result.ref_ptr ≡ behind mem.entry.ref_ptr (start_in strings_start (decode mem.now) place row)) }
{
    if declarations(mem) <= place || rows_of(mem, place) <= row {
        return &mem[0..0];
    }
    name_of(mem, rows_before(mem, place) + row)
}

// The full name of a row, no bytes where it is refused. It is the part of the memory that the row says: its bytes, and the pointer to the first of them,
// which is that of the memory and so many bytes on. An equal string of another row stands at another place.
pub fn full_name(mem: &[u8], place: usize, row: usize) -> &[u8]
    ensures { (result.now ≡ full_name_in mem.now place row)
        × (result.ref_ptr ≡ behind mem.entry.ref_ptr (full_name_start mem.now place row)) }
{
    if well_formed(mem) {
        return name_at(mem, place, row);
    }
    &mem[0..0]
}

// Whether a row has a full name, and if not, why.
pub fn naming_of(mem: &[u8], place: usize, row: usize) -> Answer<usize>
    ensures { numbers_of_naming result ≡ naming_of mem.now place row }
{
    if !well_formed(mem) {
        return refused(Why::NotWellFormed, place);
    }
    let name = name_at(mem, place, row);
    if name.is_empty() {
        return refused(Why::NoSuchPlace, place);
    }
    Ok(name.len())
}
