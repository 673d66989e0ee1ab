// Defaults among the rows of a set: which rows have one, and the first that does not fit its field's type.
ghost use Rattle.std.specs.Prelude.{◌≡◌, ◌+◌, ◌≤◌, ◌<◌, length};
ghost use Rattle.row.specs.Layout.{row_limit, layout_length};
ghost use Rattle.row.specs.Sets.{rows_from};
ghost use Rattle.row.specs.Memory.{row_at};
ghost use Rattle.resolve.specs.Rules.{some};
ghost use Rattle.fits.specs.Types.{has_default};
ghost use Rattle.fits.specs.Misfits.{default_fits, misfit_in};
ghost use Rattle.fits.specs.Steps.{type_at, Found};

use crate::fits;
use crate::rows::{has_default, type_row};
use answer::{Counts, Fault, Why};
use row::read::{default_of, size_at};

// Has one of the n rows from `start` on a default?
pub fn has_defaults(mem: &[u8], start: usize, n: usize) -> bool
    requires { (length mem.now ≡ layout_length) × (start + n ≤ row_limit) }
    ensures { result ≡ some has_default (rows_from mem.now n start) }
{
    let end = start + n;
    for i in start..end {
        if has_default(mem, i) {
            return true;
        }
    }
    false
}

// Has row i of n no default, or one that fits?
fn default_fits(mem: &[u8], n: usize, i: usize, found: &mut [u16]) -> bool
    requires { (length mem.now ≡ layout_length) × (i < n) × (n ≤ row_limit) × Found mem.now n found.old }
    ensures { (result ≡ default_fits (rows_from mem.now n 0) (row_at mem.now i) (type_at mem.now n (i + 1)))
        × Found mem.now n found.new }
{
    if !has_default(mem, i) {
        return true;
    }
    let own = type_row(mem, n, i + 1);
    fits(mem, n, own, default_of(mem, i), found)
}

// 47 of the n rows from `start` on, the last ones that are looked at: the first default that does not fit, by its position. A
// definition that one default leads to is found once for all. The tables are large: ask first whether there is a default.
pub fn first_misfit(mem: &[u8], start: usize, n: usize) -> Result<(), Fault>
    requires { (length mem.now ≡ layout_length) × (start + n ≤ row_limit) }
    ensures { result ≡ misfit_in (rows_from mem.now (start + n) 0) (rows_from mem.now n start) }
{
    let mut found: [u16; Counts::ROWS] = [0; Counts::ROWS];
    let end = start + n;
    for i in start..end {
        if !default_fits(mem, end, i, &mut found) {
            return Err(Fault {
                why: Why::DefaultDoesNotFit,
                at: size_at(mem, i) as usize,
            });
        }
    }
    Ok(())
}
