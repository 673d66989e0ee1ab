// Whether bytes are a well-formed set.
#![tactic(auto)]

ghost use Rattle.std.specs.Prelude.{◌≡◌, [], ◌≤◌, length};
ghost use Rattle.name.specs.Name.{every};
ghost use Rattle.row.specs.Layout.{declaration_limit, row_limit, layout_length};
ghost use Rattle.row.specs.Sets.{count_in, rows_from, decode};
ghost use Rattle.row.specs.Memory.{rows_before};
ghost use Rattle.resolve.specs.Rules.{is_declaration};
ghost use Rattle.resolve.specs.Resolve.{fault_in, is_resolved};
ghost use Rattle.formed.specs.WellFormed.{defaults_fit, well_formed};

use chains::SLOTS;
use fits::{first_misfit, has_defaults};
use resolve::{first_fault, is_declaration_by};
use row::read::{declarations, rows_before, rows_of};
use row::tidy::is_encoding;

// Are the rows of each of the n places one declaration? One pair of tables serves them all.
fn are_declarations(mem: &[u8], n: usize) -> bool
    requires { (length mem.now ≡ layout_length) × (n ≡ count_in mem.now) × (n ≤ declaration_limit) × (rows_before mem.now n ≤ row_limit) }
    ensures { result ≡ every is_declaration (decode mem.now) }
{
    let mut first: [u16; SLOTS] = [0; SLOTS];
    let mut next: [u16; SLOTS] = [0; SLOTS];
    let mut start = 0;
    for place in 0..n {
        let rows = rows_of(mem, place);
        if !is_declaration_by(mem, start, rows, &mut first, &mut next) {
            return false;
        }
        start += rows;
    }
    true
}

// Is 25 and 26 nowhere in the first n rows?
fn is_resolved(mem: &[u8], n: usize) -> bool
    requires { (length mem.now ≡ layout_length) × (n ≤ row_limit) }
    ensures { result ≡ is_resolved (fault_in [] (rows_from mem.now n 0)) }
{
    first_fault(mem, 0, mem, 0, n).is_ok()
}

// Is 47 nowhere in the n places? Each is asked among all rows up to its end.
fn places_fit(mem: &[u8], n: usize) -> bool
    requires { (length mem.now ≡ layout_length) × (n ≡ count_in mem.now) × (n ≤ declaration_limit) × (rows_before mem.now n ≤ row_limit) }
    ensures { result ≡ defaults_fit [] (decode mem.now) }
{
    let mut start = 0;
    for place in 0..n {
        let rows = rows_of(mem, place);
        if first_misfit(mem, start, rows).is_err() {
            return false;
        }
        start += rows;
    }
    true
}

// The same, of places that have so many rows. Most sets have no default, and cost no more than to see that.
fn defaults_fit(mem: &[u8], n: usize, rows: usize) -> bool
    requires { (length mem.now ≡ layout_length) × (n ≡ count_in mem.now) × (n ≤ declaration_limit) × (rows_before mem.now n ≤ row_limit) × (rows ≡ rows_before mem.now n) }
    ensures { result ≡ defaults_fit [] (decode mem.now) }
{
    !has_defaults(mem, 0, rows) || places_fit(mem, n)
}

// For any bytes: are they the encoding of a set that keeps the rules?
pub fn well_formed(mem: &[u8]) -> bool
    ensures { result ≡ well_formed mem.now }
{
    if !is_encoding(mem) {
        return false;
    }
    let n = declarations(mem);
    if !are_declarations(mem, n) {
        return false;
    }
    let rows = rows_before(mem, n);
    is_resolved(mem, rows) && defaults_fit(mem, n, rows)
}
