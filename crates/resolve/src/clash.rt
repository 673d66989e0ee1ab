// 11, 14 and 19: two rows under a row that may not stand there together.
ghost use Rattle.std.specs.Prelude.{◌≡◌, ◌+◌, ◌-◌, ◌≤◌, ◌<◌, length, get_or};
ghost use Rattle.chains.specs.Chains.{slots, on_chain};
ghost use Rattle.ground.specs.Bytes.{same};
ghost use Rattle.row.specs.Layout.{row_limit, layout_length};
ghost use Rattle.row.specs.Rows.{Row};
ghost use Rattle.row.specs.Sets.{rows_from};
ghost use Rattle.row.specs.Memory.{entry_at, row_at, text_at};
ghost use Rattle.row.specs.declared.kind.Kind.{Kind};
ghost use Rattle.resolve.specs.Rules.{is_at, is_field_name, takes_name, same_symbol, same_schema, same_member, clash, some, no_clash};
ghost use Rattle.resolve.specs.Steps.{is_ruled, may_meet, Sized, told_by_name, key_of, meets_at, KeepsUnder};

use crate::kinds::is_named;
use chains::{at, enter, mark, slot};
use ground::same;
use row::Kind;
use row::read::{depth_at, kind_at, string_of};

fn same_text(mem: &[u8], a: usize, b: usize) -> bool
    requires { (length mem.now ≡ layout_length) × (a < row_limit) × (b < row_limit) }
    ensures { result ≡ same (text_at mem.now a) (text_at mem.now b) }
{
    same(string_of(mem, a), string_of(mem, b))
}

#[tactic(auto, unfolding(crate::specs::Rules::is_at, crate::specs::Kinds::is_kind))]
fn is_at(mem: &[u8], kind: Kind, depth: usize, i: usize) -> bool
    requires { (length mem.now ≡ layout_length) × (i < row_limit) }
    ensures { result ≡ is_at kind depth (row_at mem.now i) }
{
    kind_at(mem, i) == kind && depth_at(mem, i) == depth
}

// ---- 11

#[tactic(auto, unfolding(crate::specs::Rules::is_field_name))]
fn is_field_name(mem: &[u8], depth: usize, i: usize) -> bool
    requires { (length mem.now ≡ layout_length) × (i < row_limit) × (depth < 65536) }
    ensures { result ≡ is_field_name depth (row_at mem.now i) }
{
    is_at(mem, Kind::Field, depth + 1, i) || is_at(mem, Kind::FieldAlias, depth + 2, i)
}

#[tactic(auto, unfolding(crate::specs::Rules::takes_name))]
fn takes_name(mem: &[u8], depth: usize, a: usize, b: usize) -> bool
    requires { (length mem.now ≡ layout_length) × (a < row_limit) × (b < row_limit) × (depth < 65536) }
    ensures { result ≡ takes_name depth (row_at mem.now a) (row_at mem.now b) }
{
    is_field_name(mem, depth, a) && is_at(mem, Kind::Field, depth + 1, b) && same_text(mem, a, b)
}

// ---- 14

#[tactic(auto, unfolding(crate::specs::Rules::same_symbol))]
fn same_symbol(mem: &[u8], depth: usize, a: usize, b: usize) -> bool
    requires { (length mem.now ≡ layout_length) × (a < row_limit) × (b < row_limit) × (depth < 65536) }
    ensures { result ≡ same_symbol depth (row_at mem.now a) (row_at mem.now b) }
{
    is_at(mem, Kind::Symbol, depth + 1, a)
        && is_at(mem, Kind::Symbol, depth + 1, b)
        && same_text(mem, a, b)
}

// ---- 19

#[tactic(auto, unfolding(crate::specs::Rules::same_schema, crate::specs::Kinds::is_kind))]
fn same_schema(mem: &[u8], a: usize, b: usize) -> bool
    requires { (length mem.now ≡ layout_length) × (a < row_limit) × (b < row_limit) }
    ensures { result ≡ same_schema (row_at mem.now a) (row_at mem.now b) }
{
    let first = kind_at(mem, a);
    let second = kind_at(mem, b);
    if is_named(first) {
        is_named(second) && same_text(mem, a, b)
    } else {
        first == second
    }
}

#[tactic(auto, unfolding(crate::specs::Rules::same_member))]
fn same_member(mem: &[u8], depth: usize, a: usize, b: usize) -> bool
    requires { (length mem.now ≡ layout_length) × (a < row_limit) × (b < row_limit) × (depth < 65536) }
    ensures { result ≡ same_member depth (row_at mem.now a) (row_at mem.now b) }
{
    depth_at(mem, a) == depth + 1 && depth_at(mem, b) == depth + 1 && same_schema(mem, a, b)
}

// ---- the three, by the kind of the row that they stand under

#[tactic(auto, unfolding(crate::specs::Rules::clash, crate::specs::Kinds::is_kind))]
fn is_clash(mem: &[u8], kind: Kind, depth: usize, a: usize, b: usize) -> bool
    requires { (length mem.now ≡ layout_length) × (a < row_limit) × (b < row_limit) × (depth < 65536) }
    ensures { result ≡ clash kind depth (row_at mem.now a) (row_at mem.now b) }
{
    match kind {
        Kind::Record => takes_name(mem, depth, a, b),
        Kind::Enum => same_symbol(mem, depth, a, b),
        Kind::Union => same_member(mem, depth, a, b),
        _ => false,
    }
}

// Kinds that one of the three is asked of.
#[tactic(auto, unfolding(crate::specs::Steps::is_ruled, crate::specs::Kinds::is_kind))]
fn is_ruled(kind: Kind) -> bool
    ensures { result ≡ is_ruled kind }
{
    matches!(kind, Kind::Record | Kind::Enum | Kind::Union)
}

// Could row i clash with another? Most rows are passed by this test alone.
#[tactic(auto, unfolding(crate::specs::Steps::may_meet, crate::specs::Kinds::is_kind))]
fn may_meet(mem: &[u8], kind: Kind, depth: usize, i: usize) -> bool
    requires { (length mem.now ≡ layout_length) × (i < row_limit) × (depth < 65536) }
    ensures { result ≡ may_meet kind depth (row_at mem.now i) }
{
    match kind {
        Kind::Record => is_field_name(mem, depth, i),
        Kind::Enum => is_at(mem, Kind::Symbol, depth + 1, i),
        _ => depth_at(mem, i) == depth + 1,
    }
}

// Under a row of a kind: is a row of kind k told by its name?
#[tactic(auto, unfolding(crate::specs::Steps::told_by_name, crate::specs::Kinds::is_kind))]
fn told_by_name(kind: Kind, k: Kind) -> bool
    ensures { result ≡ told_by_name kind k }
{
    matches!(kind, Kind::Record | Kind::Enum) || is_named(k)
}

// A number that two rows that clash under a row of a kind have alike.
#[tactic(auto, unfolding(crate::specs::Steps::key_of))]
fn key(mem: &[u8], kind: Kind, i: usize) -> usize
    requires { (length mem.now ≡ layout_length) × (i < row_limit) }
    ensures { result ≡ key_of kind (row_at mem.now i) }
{
    let k = kind_at(mem, i);
    if told_by_name(kind, k) {
        mark(string_of(mem, i))
    } else {
        usize::from(k.number())
    }
}

// Does row j clash with one before it, of those behind row i that are on the chain of a slot?
fn is_met(
    mem: &[u8],
    kind: Kind,
    depth: usize,
    i: usize,
    j: usize,
    first: &[u16],
    next: &[u16],
    slot: usize,
) -> bool
    requires { (length mem.now ≡ layout_length) × (i < j) × (j < row_limit) × (depth < 65536) × Sized first.now next.now × (slot < slots)
        × (kind ≡ (entry_at mem.now i).kind) }
    ensures { result ≡ on_chain (meets_at mem.now (entry_at mem.now i).kind depth i j) next.now j (get_or first.now slot 0) }
{
    // The chain goes on where the table says, so no range fits.
    let mut left = j;
    let mut h = at(first, slot);
    while i + 1 < h {
        if left < h {
            return false;
        }
        left = h - 1;
        if is_clash(mem, kind, depth, left, j) {
            return true;
        }
        h = at(next, left);
    }
    false
}

// Does row j clash with one before it, of those behind row i? It is entered for the rows behind it.
fn meets_earlier(
    mem: &[u8],
    kind: Kind,
    depth: usize,
    i: usize,
    j: usize,
    first: &mut [u16],
    next: &mut [u16],
) -> bool
    requires { (length mem.now ≡ layout_length) × (i < j) × (j < row_limit) × (depth < 65536) × Sized first.old next.old
        × (kind ≡ (entry_at mem.now i).kind) × KeepsUnder mem.now (entry_at mem.now i).kind depth i first.old next.old j }
    ensures { (result ≡ some (λ (a : Row). clash (entry_at mem.now i).kind depth a (row_at mem.now j)) (rows_from mem.now (j - (i + 1)) (i + 1)))
        × Sized first.new next.new × KeepsUnder mem.now (entry_at mem.now i).kind depth i first.new next.new (j + 1) }
{
    let s = slot(key(mem, kind, j), i);
    let met = is_met(mem, kind, depth, i, j, first, next, s);
    enter(first, next, s, j);
    met
}

// Do no two rows under row i clash, of those before `end`? Whatever the tables hold.
pub fn no_clash(mem: &[u8], i: usize, end: usize, first: &mut [u16], next: &mut [u16]) -> bool
    requires { (length mem.now ≡ layout_length) × (i < end) × (end ≤ row_limit) × Sized first.old next.old }
    ensures { (result ≡ no_clash (row_at mem.now i) (rows_from mem.now (end - (i + 1)) (i + 1))) × Sized first.new next.new }
{
    let kind = kind_at(mem, i);
    if !is_ruled(kind) {
        return true;
    }
    let depth = depth_at(mem, i);
    for j in i + 1..end {
        if depth_at(mem, j) <= depth {
            return true;
        }
        if may_meet(mem, kind, depth, j) && meets_earlier(mem, kind, depth, i, j, first, next) {
            return false;
        }
    }
    true
}
