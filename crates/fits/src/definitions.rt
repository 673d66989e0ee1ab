// The table of definitions that were found: the entry of a row is 0, or 1 + the row that defines what it refers to.
ghost use Rattle.std.specs.Prelude.{◌≡◌, ◌+◌, ◌≤◌, ◌<◌, length, get_or, set};
ghost use Rattle.row.specs.Layout.{row_limit, layout_length};
ghost use Rattle.row.specs.Sets.{rows_from};
ghost use Rattle.row.specs.Memory.{text_at};
ghost use Rattle.resolve.specs.Resolve.{definition_in};
ghost use Rattle.fits.specs.Steps.{type_at, Found};

use resolve::definition_of;

// What the table holds for a row, 0 where it holds nothing.
fn held(found: &[u16], row: usize) -> usize
    ensures { result ≡ get_or found.now row 0 }
{
    if row < found.len() {
        return usize::from(found[row]);
    }
    0
}

// Notes that what a row refers to is defined at row d, where there is room.
fn keep(found: &mut [u16], row: usize, d: usize)
    requires { d < 65535 }
    ensures { found.new ≡ set found.old row (d + 1) }
{
    if row < found.len() {
        found[row] = (d + 1) as u16;
    }
}

// The row that defines what a row refers to, of the first n; n where none does. The table is asked first, and told.
pub fn definition(mem: &[u8], n: usize, found: &mut [u16], row: usize) -> usize
    requires { (length mem.now ≡ layout_length) × (n ≤ row_limit) × (row < n) × Found mem.now n found.old }
    ensures { (type_at mem.now n result ≡ definition_in (text_at mem.now row) (rows_from mem.now n 0))
        × Found mem.now n found.new }
{
    let known = held(found, row);
    if known != 0 {
        return known - 1;
    }
    let d = definition_of(mem, n, row);
    keep(found, row, d);
    d
}
