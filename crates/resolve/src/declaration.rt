// One declaration: a preorder tree of good rows.
ghost use Rattle.std.specs.Prelude.{◌≡◌, ◌+◌, ◌-◌, ◌≤◌, ◌<◌, length};
ghost use Rattle.row.specs.Layout.{row_limit, layout_length};
ghost use Rattle.row.specs.Sets.{rows_from};
ghost use Rattle.row.specs.Memory.{row_at};
ghost use Rattle.resolve.specs.Rules.{good_row, good_rows, climbs, is_declaration};
ghost use Rattle.resolve.specs.Steps.{Sized};

use crate::clash::no_clash;
use crate::kinds::is_schema;
use crate::numbers::good_numbers;
use crate::strings::good_strings;
use crate::tree::good_parts;
use chains::SLOTS;
use row::read::{depth_at, kind_at};

// Row i of a declaration that ends before `end`.
#[tactic(auto, unfolding(crate::specs::Rules::good_row))]
fn good_row(mem: &[u8], i: usize, end: usize, first: &mut [u16], next: &mut [u16]) -> bool
    requires { (length mem.now ≡ layout_length) × (i < end) × (end ≤ row_limit) × Sized first.old next.old }
    ensures { (result ≡ good_row (row_at mem.now i) (rows_from mem.now (end - (i + 1)) (i + 1))) × Sized first.new next.new }
{
    let kind = kind_at(mem, i);
    good_strings(mem, kind, i)
        && good_numbers(mem, kind, i)
        && good_parts(mem, i, end)
        && no_clash(mem, i, end, first, next)
}

fn good_rows(mem: &[u8], start: usize, end: usize, first: &mut [u16], next: &mut [u16]) -> bool
    requires { (length mem.now ≡ layout_length) × (start ≤ end) × (end ≤ row_limit) × Sized first.old next.old }
    ensures { (result ≡ good_rows (rows_from mem.now (end - start) start)) × Sized first.new next.new }
{
    for i in start..end {
        if !good_row(mem, i, end, first, next) {
            return false;
        }
    }
    true
}

// The rows behind a row of depth 0.
fn climbs_on(mem: &[u8], start: usize, end: usize) -> bool
    requires { (length mem.now ≡ layout_length) × (start ≤ end) × (end ≤ row_limit) }
    ensures { result ≡ climbs 0 (rows_from mem.now (end - start) start) }
{
    let mut depth = 0;
    for i in start..end {
        let d = depth_at(mem, i);
        if d == 0 || depth + 1 < d {
            return false;
        }
        depth = d;
    }
    true
}

// Are the n rows from `start` on one declaration? The tables are lent, whatever they hold.
pub fn is_declaration_by(
    mem: &[u8],
    start: usize,
    n: usize,
    first: &mut [u16],
    next: &mut [u16],
) -> bool
    requires { (length mem.now ≡ layout_length) × (start + n ≤ row_limit) × Sized first.old next.old }
    ensures { (result ≡ is_declaration (rows_from mem.now n start)) × Sized first.new next.new }
{
    n != 0
        && depth_at(mem, start) == 0
        && is_schema(kind_at(mem, start))
        && climbs_on(mem, start + 1, start + n)
        && good_rows(mem, start, start + n, first, next)
}

// Are the n rows from `start` on one declaration?
pub fn is_declaration(mem: &[u8], start: usize, n: usize) -> bool
    requires { (length mem.now ≡ layout_length) × (start + n ≤ row_limit) }
    ensures { result ≡ is_declaration (rows_from mem.now n start) }
{
    let mut first: [u16; SLOTS] = [0; SLOTS];
    let mut next: [u16; SLOTS] = [0; SLOTS];
    is_declaration_by(mem, start, n, &mut first, &mut next)
}
