// Does a value fit a type? The value is a text of its own, the type a row of a set's memory. And which default of a set does not?
#![tactic(auto)]

mod definitions;
mod leaves;
mod misfits;
mod rows;
mod table;
mod walk;

ghost use Rattle.std.specs.Prelude.{◌≡◌, suc, ◌-◌, ◌≤◌, length};
ghost use Rattle.json_scan.specs.Json.{deepest};
ghost use Rattle.row.specs.Layout.{row_limit, layout_length};
ghost use Rattle.row.specs.Sets.{rows_from};
ghost use Rattle.view.specs.Known.{Known};
ghost use Rattle.fits.specs.Fits.{fits};
ghost use Rattle.fits.specs.Steps.{Found};

use ground::byte_at;
use json_scan::Scan;
pub use misfits::{first_misfit, has_defaults};
use table::PLACES;
use view::find_ends;
use walk::fits_at;

// Has the text's value a value inside? It has none where its first byte is no bracket, or its second closes that.
fn is_deep(text: &[u8]) -> bool {
    match byte_at(text, 0) {
        b'[' => byte_at(text, 1) != b']',
        b'{' => byte_at(text, 1) != b'}',
        _ => false,
    }
}

// With no table of verdicts.
fn without_table(mem: &[u8], n: usize, row: usize, text: &[u8], found: &mut [u16]) -> bool
    requires { (length mem.now ≡ layout_length) × (n ≤ row_limit) × Found mem.now n found.old }
    ensures { (result ≡ fits (rows_from mem.now n 0) text.now (suc deepest) (rows_from mem.now (n - row) row) 0)
        × Found mem.now n found.new }
{
    let ends: [u16; 0] = [0; 0];
    let mut verdicts: [u8; 0] = [0; 0];
    let left = Scan::NESTING + 1;
    fits_at(mem, n, text, &ends, &mut verdicts, found, left, row, 0)
}

// With a table of N verdicts.
fn with_table<const N: usize>(
    mem: &[u8],
    n: usize,
    row: usize,
    text: &[u8],
    ends: &[u16],
    found: &mut [u16],
) -> bool
    requires { (length mem.now ≡ layout_length) × (n ≤ row_limit) × Known text.now ends.now × Found mem.now n found.old × (N ≤ 262144) }
    ensures { (result ≡ fits (rows_from mem.now n 0) text.now (suc deepest) (rows_from mem.now (n - row) row) 0)
        × Found mem.now n found.new }
{
    let mut verdicts: [u8; N] = [0; N];
    let left = Scan::NESTING + 1;
    fits_at(mem, n, text, ends, &mut verdicts, found, left, row, 0)
}

// With a table of the text's ends, and one of verdicts that has an entry for each row and place.
fn with_tables(mem: &[u8], n: usize, row: usize, text: &[u8], found: &mut [u16]) -> bool
    requires { (length mem.now ≡ layout_length) × (n ≤ row_limit) × (length text.now ≤ 256) × Found mem.now n found.old }
    ensures { (result ≡ fits (rows_from mem.now n 0) text.now (suc deepest) (rows_from mem.now (n - row) row) 0)
        × Found mem.now n found.new }
{
    let mut ends: [u16; PLACES] = [0; PLACES];
    find_ends(text, &mut ends);
    let size = text.len() * n;
    if size <= 4096 {
        return with_table::<4096>(mem, n, row, text, &ends, found);
    }
    if size <= 32768 {
        return with_table::<32768>(mem, n, row, text, &ends, found);
    }
    with_table::<262144>(mem, n, row, text, &ends, found)
}

// Does the value that is the text fit the type at a row, of the first n rows? No text that is kept has more than 255 bytes; one
// of more than 256 is walked without a table of verdicts.
pub fn fits(mem: &[u8], n: usize, row: usize, text: &[u8], found: &mut [u16]) -> bool
    requires { (length mem.now ≡ layout_length) × (n ≤ row_limit) × Found mem.now n found.old }
    ensures { (result ≡ fits (rows_from mem.now n 0) text.now (suc deepest) (rows_from mem.now (n - row) row) 0)
        × Found mem.now n found.new }
{
    if text.len() <= PLACES && is_deep(text) {
        return with_tables(mem, n, row, text, found);
    }
    without_table(mem, n, row, text, found)
}
