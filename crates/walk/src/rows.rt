// Types and their parts by the numbers of their rows. Row n, behind the last, has the empty type: it stands where there is no part, and is visited as any other
// row is, which an Option would have to be opened for at each use.
ghost use Rattle.std.specs.Prelude.{◌≡◌, [], ◌+◌, ◌≤◌, ◌<◌, ltb, length, get_or};
ghost use Rattle.row.specs.Layout.{row_limit, layout_length};
ghost use Rattle.row.specs.Kinds.{kind_number};
ghost use Rattle.row.specs.Memory.{entry_at};
ghost use Rattle.row.specs.declared.kind.Kind.{Kind};
ghost use Rattle.walk.specs.Parts.{is_part, parts_at, inside, is_map};
ghost use Rattle.walk.specs.Steps.{type_at, FirstPart, Follows};

use crate::tables::follower;
use resolve::is_kind;
use row::Kind;
use row::read::{depth_at, kind_number};

// Aliases are no parts.
fn is_part(kind: u8) -> bool
    ensures { (k : Kind) → kind ≡ kind_number k → result ≡ is_part k }
{
    !is_kind(Kind::Alias, kind) && !is_kind(Kind::FieldAlias, kind)
}

// The first part of a depth from a row on, up to the first row that is less deep; n where there is none.
pub(crate) fn next_part(mem: &[u8], n: usize, start: usize, depth: usize) -> usize
    requires { (length mem.now ≡ layout_length) × (n ≤ row_limit) }
    ensures { FirstPart mem.now n depth start result }
{
    for i in start..n {
        let d = depth_at(mem, i);
        if d < depth {
            return n;
        }
        if d == depth && is_part(kind_number(mem, i)) {
            return i;
        }
    }
    n
}

// The first part of the row at i.
pub(crate) fn first_part(mem: &[u8], n: usize, i: usize) -> usize
    requires { (length mem.now ≡ layout_length) × (n ≤ row_limit) × (i < row_limit) }
    ensures { FirstPart mem.now n ((entry_at mem.now i).depth + 1) (i + 1) result }
{
    next_part(mem, n, i + 1, depth_at(mem, i) + 1)
}

// The part with a number of the row at i, from 0; n where there is none.
pub(crate) fn part_number(
    mem: &[u8],
    n: usize,
    next: &mut [Option<u16>],
    i: usize,
    number: u64,
) -> usize
    requires { (length mem.now ≡ layout_length) × (n ≤ row_limit) × (i < n) × Follows mem.now n next.old }
    ensures { (result ≤ n)
        × (type_at mem.now n result ≡ get_or (parts_at ((entry_at mem.now i).depth + 1) (type_at mem.now n (i + 1))) number [])
        × (ltb result n ≡ ltb number (length (parts_at ((entry_at mem.now i).depth + 1) (type_at mem.now n (i + 1)))))
        × Follows mem.now n next.new }
{
    let mut r = first_part(mem, n, i);
    for _ in 0..number {
        if n <= r {
            return n;
        }
        r = follower(mem, n, next, r);
    }
    r
}

// Is the type at row i a map?
pub(crate) fn is_map(mem: &[u8], n: usize, i: usize) -> bool
    requires { (length mem.now ≡ layout_length) × (n ≤ row_limit) }
    ensures { result ≡ is_map (type_at mem.now n i) }
{
    i < n && is_kind(Kind::Map, kind_number(mem, i))
}

// The type of an array's items or a map's values.
pub(crate) fn inside(mem: &[u8], n: usize, i: usize) -> usize
    requires { (length mem.now ≡ layout_length) × (n ≤ row_limit) }
    ensures { (result ≤ n) × (type_at mem.now n result ≡ inside (type_at mem.now n i)) }
{
    if i < n { first_part(mem, n, i) } else { n }
}
