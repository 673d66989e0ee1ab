// Names over rows: what is defined, and the first row that breaks 25 or 26.
ghost use Rattle.std.specs.Prelude.{◌≡◌, ◌++◌, ◌+◌, ◌-◌, ◌≤◌, ◌<◌, length, get_or};
ghost use Rattle.chains.specs.Chains.{slots, slot_of, on_chain};
ghost use Rattle.chains.specs.Marks.{mark_of};
ghost use Rattle.row.specs.Layout.{row_limit, layout_length};
ghost use Rattle.row.specs.Sets.{rows_from};
ghost use Rattle.row.specs.Memory.{text_at, row_at};
ghost use Rattle.resolve.specs.Resolve.{defines, is_defined, definition_in, fault_of, fault_in};
ghost use Rattle.resolve.specs.Steps.{Sized, is_named_at, KeepsNames, first_with, next_with};

use crate::kinds::{is_definition, is_named};
use answer::{Fault, Why};
use chains::{SLOTS, at, enter, mark, slot};
use ground::same;
use row::Kind;
use row::read::{kind_at, position_at, string_of};

// Does row i define the name?
#[tactic(auto, unfolding(crate::specs::Resolve::defines))]
fn is_definition_of(mem: &[u8], i: usize, name: &[u8]) -> bool
    requires { (length mem.now ≡ layout_length) × (i < row_limit) }
    ensures { result ≡ defines name.now (row_at mem.now i) }
{
    is_definition(kind_at(mem, i)) && same(string_of(mem, i), name)
}

// Is the name defined by one of the n rows from `start` on? The one place where a name is looked up.
pub fn is_defined(mem: &[u8], start: usize, n: usize, name: &[u8]) -> bool
    requires { (length mem.now ≡ layout_length) × (start + n ≤ row_limit) }
    ensures { result ≡ is_defined (rows_from mem.now n start) name.now }
{
    for i in start..start + n {
        if is_definition_of(mem, i, name) {
            return true;
        }
    }
    false
}

// The row that defines what row i refers to, of the first n; n where none does.
pub fn definition_of(mem: &[u8], n: usize, i: usize) -> usize
    requires { (length mem.now ≡ layout_length) × (n ≤ row_limit) × (i < row_limit) }
    ensures { (result ≤ n) × (rows_from mem.now (n - result) result ≡ definition_in (text_at mem.now i) (rows_from mem.now n 0)) }
{
    let name = string_of(mem, i);
    for d in 0..n {
        if is_definition_of(mem, d, name) {
            return d;
        }
    }
    n
}

// Does row number a define the name, of the first rows of a set and then the rows of another memory from `start` on?
#[tactic(auto, unfolding(crate::specs::Steps::is_named_at, crate::specs::Steps::in_line))]
fn is_named_at(set: &[u8], earlier: usize, from: &[u8], start: usize, name: &[u8], a: usize) -> bool
    requires { (length set.now ≡ layout_length) × (earlier ≤ row_limit) × (length from.now ≡ layout_length) × (earlier ≤ a → start + (a - earlier) < row_limit) }
    ensures { result ≡ is_named_at set.now earlier from.now start name.now a }
{
    if a < earlier {
        is_definition_of(set, a, name)
    } else {
        is_definition_of(from, start + (a - earlier), name)
    }
}

// Is the name defined by one of the first n of these rows? Those on its chain are looked at.
fn is_known(
    set: &[u8],
    earlier: usize,
    from: &[u8],
    start: usize,
    n: usize,
    first: &[u16],
    next: &[u16],
    name: &[u8],
) -> bool
    requires { (length set.now ≡ layout_length) × (earlier ≤ row_limit) × (length from.now ≡ layout_length) × (start + n ≤ row_limit)
        × Sized first.now next.now }
    ensures { result ≡ on_chain (is_named_at set.now earlier from.now start name.now) next.now (earlier + n) (get_or first.now (slot_of (mark_of name.now) 0) 0) }
{
    // The chain goes on where the table says, so no range fits.
    let mut left = earlier + n;
    let mut h = at(first, slot(mark(name), 0));
    while 0 < h {
        if left < h {
            return false;
        }
        left = h - 1;
        if is_named_at(set, earlier, from, start, name, left) {
            return true;
        }
        h = at(next, left);
    }
    false
}

// 25 or 26 of the row behind the first rows of a set and i rows of `from`.
fn fault_of(
    set: &[u8],
    earlier: usize,
    from: &[u8],
    start: usize,
    i: usize,
    first: &[u16],
    next: &[u16],
) -> Result<(), Fault>
    requires { (length set.now ≡ layout_length) × (earlier ≤ row_limit) × (length from.now ≡ layout_length) × (start + i < row_limit)
        × Sized first.now next.now × KeepsNames set.now earlier from.now start first.now next.now (earlier + i) }
    ensures { result ≡ fault_of (rows_from set.now earlier 0 ++ rows_from from.now i start) (row_at from.now (start + i)) }
{
    let row = start + i;
    let kind = kind_at(from, row);
    if !is_named(kind) {
        return Ok(());
    }
    let known = is_known(
        set,
        earlier,
        from,
        start,
        i,
        first,
        next,
        string_of(from, row),
    );
    let at = position_at(from, row);
    if known && is_definition(kind) {
        return Err(Fault {
            why: Why::DefinedAlready,
            at,
        });
    }
    if !known && kind == Kind::Reference {
        return Err(Fault {
            why: Why::ReferenceUnknown,
            at,
        });
    }
    Ok(())
}

// Row i is entered as number a under its name, if it is a definition.
#[tactic(auto, unfolding(crate::specs::Steps::first_with, crate::specs::Steps::next_with))]
fn enter_row(mem: &[u8], i: usize, a: usize, first: &mut [u16], next: &mut [u16])
    requires { (length mem.now ≡ layout_length) × (i < row_limit) × (a < slots) × Sized first.old next.old }
    ensures { (first.new ≡ first_with (row_at mem.now i) a first.old)
        × (next.new ≡ next_with (row_at mem.now i) a first.old next.old) }
{
    if is_definition(kind_at(mem, i)) {
        enter(first, next, slot(mark(string_of(mem, i)), 0), a);
    }
}

// The definitions among the first n rows are entered.
fn enter_rows(set: &[u8], n: usize, first: &mut [u16], next: &mut [u16])
    requires { (length set.now ≡ layout_length) × (n ≤ row_limit) × Sized first.old next.old }
    ensures { Sized first.new next.new × KeepsNames set.now n set.now 0 first.new next.new n }
{
    for a in 0..n {
        enter_row(set, a, a, first, next);
    }
}

// The first fault of the n rows of `from` from `start` on, behind the first rows of a set, with the position that its row recorded;
// Ok where each name resolves. Both memories have the layout's length, and may be the same.
pub fn first_fault(
    set: &[u8],
    earlier: usize,
    from: &[u8],
    start: usize,
    n: usize,
) -> Result<(), Fault>
    requires { (length set.now ≡ layout_length) × (earlier ≤ row_limit) × (length from.now ≡ layout_length) × (start + n ≤ row_limit) }
    ensures { result ≡ fault_in (rows_from set.now earlier 0) (rows_from from.now n start) }
{
    let mut first: [u16; SLOTS] = [0; SLOTS];
    let mut next: [u16; SLOTS] = [0; SLOTS];
    enter_rows(set, earlier, &mut first, &mut next);
    for i in 0..n {
        fault_of(set, earlier, from, start, i, &first, &next)?;
        enter_row(from, start + i, earlier + i, &mut first, &mut next);
    }
    Ok(())
}
