// The table of verdicts.
ghost use Rattle.std.specs.Prelude.{◌≡◌, ◌≤◌, ◌<◌};
ghost use Rattle.row.specs.Layout.{row_limit};
ghost use Rattle.fits.specs.Steps.{entry_at, noted};

// The places of values that a table has room for.
pub const PLACES: usize = 256;

// What the table holds of row r at a place, 0 where it holds nothing.
pub fn asked(table: &[u8], n: usize, row: usize, at: usize) -> usize
    requires { n ≤ row_limit }
    ensures { result ≡ entry_at n table.now row at }
{
    if n <= row || PLACES <= at {
        return 0;
    }
    let i = at * n + row;
    if table.len() <= i {
        return 0;
    }
    usize::from(table[i])
}

// Notes it, where there is room.
pub fn note(table: &mut [u8], n: usize, row: usize, at: usize, v: usize)
    requires { (n ≤ row_limit) × (v < 256) }
    ensures { table.new ≡ noted n table.old row at v }
{
    if n <= row || PLACES <= at {
        return;
    }
    let i = at * n + row;
    if i < table.len() {
        table[i] = v as u8;
    }
}
