// Tables of what was found once: the entry of a row is another row, if one is known. Nothing is trusted to be there.
ghost use Rattle.std.specs.Prelude.{◌≡◌, ◌+◌, ◌≤◌, ◌<◌, Some, None, length, get_or, set};
ghost use Rattle.row.specs.Layout.{row_limit, layout_length};
ghost use Rattle.row.specs.Sets.{rows_from};
ghost use Rattle.row.specs.Memory.{text_at, entry_at};
ghost use Rattle.resolve.specs.Resolve.{definition_in};
ghost use Rattle.walk.specs.Steps.{type_at, Found, Follows, FirstPart};

use crate::rows::next_part;
use resolve::definition_of;
use row::read::depth_at;

// The row that a table holds for a row, if it holds one.
fn held(table: &[Option<u16>], row: usize) -> Option<usize>
    ensures { result ≡ get_or table.now row None }
{
    let d = (*table.get(row)?)?;
    Some(usize::from(d))
}

// Notes row d for a row, where there is room.
fn keep(table: &mut [Option<u16>], row: usize, d: usize)
    requires { d < 65536 }
    ensures { table.new ≡ set table.old row (Some d) }
{
    if row < table.len() {
        table[row] = Some(d as u16);
    }
}

// The row that defines what a row refers to, of the first n; n where none does. The table is asked first, and told.
pub(crate) fn definition(mem: &[u8], n: usize, found: &mut [Option<u16>], row: usize) -> usize
    requires { (length mem.now ≡ layout_length) × (n ≤ row_limit) × (row < n) × Found mem.now n found.old }
    ensures { (result ≤ n) × (type_at mem.now n result ≡ definition_in (text_at mem.now row) (rows_from mem.now n 0))
        × Found mem.now n found.new }
{
    if let Some(d) = held(found, row) {
        return d;
    }
    let d = definition_of(mem, n, row);
    keep(found, row, d);
    d
}

// The part behind the part at a row; n where there is none. The table is asked first, and told.
pub(crate) fn follower(mem: &[u8], n: usize, next: &mut [Option<u16>], row: usize) -> usize
    requires { (length mem.now ≡ layout_length) × (n ≤ row_limit) × (row < row_limit) × Follows mem.now n next.old }
    ensures { FirstPart mem.now n (entry_at mem.now row).depth (row + 1) result
        × Follows mem.now n next.new }
{
    if let Some(d) = held(next, row) {
        return d;
    }
    let d = next_part(mem, n, row + 1, depth_at(mem, row));
    keep(next, row, d);
    d
}
