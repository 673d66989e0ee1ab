// The text of a row with all that stands under it. Each piece's writer is lent the part of the buffer from its place on.
ghost use Rattle.std.specs.Prelude.{◌≡◌, cond, [], ◌+◌, ◌≤◌, ◌<◌, length};
ghost use Rattle.ground.specs.Ascii.{ascii};
ghost use Rattle.row.specs.Layout.{row_limit, layout_length};
ghost use Rattle.canonical.specs.Canonical.{is_written};
ghost use Rattle.canonical.specs.Walk.{piece_text, parts_text, is_part, text_limit};
ghost use Rattle.canonical.specs.Wrote.{Wrote};

use crate::pieces::{closing, opening, put};
use row::Kind;
use row::read::{depth_at, kind_at, read_row, string_of};

// Aliases are dropped.
#[tactic(auto, unfolding(crate::specs::Canonical::is_written, resolve::specs::Kinds::is_kind))]
fn is_written(kind: Kind) -> bool
    ensures { result ≡ is_written kind }
{
    !matches!(kind, Kind::Alias | Kind::FieldAlias)
}

// Is row i one of the parts of a row of a depth that it stands under?
#[tactic(auto, unfolding(crate::specs::Walk::is_part))]
fn is_part(mem: &[u8], depth: usize, i: usize) -> bool
    requires { (length mem.now ≡ layout_length) × (i < row_limit) × (depth < 65536) }
    ensures { result ≡ is_part mem.now depth i }
{
    depth_at(mem, i) == depth + 1 && is_written(kind_at(mem, i))
}

// A comma stands before each part but the first.
fn comma(first: bool, at: usize, part: &mut [u8]) -> usize
    requires { at ≤ text_limit }
    ensures { Wrote part.old at part.new result (cond first [] (ascii ",")) }
{
    if first { at } else { put(part, at, b",") }
}

// The parts of a row of a depth, with commas between: of the rows from `start` on that stand under it, those one deeper.
#[cycle(write_parts_write_piece)]
fn write_parts(
    mem: &[u8],
    start: usize,
    end: usize,
    depth: usize,
    left: usize,
    part: &mut [u8],
) -> usize
    requires { (length mem.now ≡ layout_length) × (end ≤ row_limit) × (depth < 65536) × (length (parts_text mem.now left start end depth) ≤ text_limit) }
    ensures { Wrote part.old 0 part.new result (parts_text mem.now left start end depth) }
{
    let mut at = 0;
    let mut first = true;
    for i in start..end {
        if depth_at(mem, i) <= depth {
            return at;
        }
        if is_part(mem, depth, i) {
            let to = comma(first, at, part);
            let from = to.min(part.len());
            at = to + write_piece(mem, i, end, left, &mut part[from..]);
            first = false;
        }
    }
    at
}

// Row i with what stands under it, `left` rows deep at most, in a declaration that ends before `end`.
#[cycle(write_parts_write_piece)]
pub(crate) fn write_piece(mem: &[u8], i: usize, end: usize, left: usize, part: &mut [u8]) -> usize
    requires { (length mem.now ≡ layout_length) × (i < end) × (end ≤ row_limit) × (length (piece_text mem.now left i end) ≤ text_limit) }
    ensures { Wrote part.old 0 part.new result (piece_text mem.now left i end) }
{
    if left == 0 {
        return 0;
    }
    let e = read_row(mem, i);
    let kind = e.kind;
    let at = opening(kind, string_of(mem, i), e.size, part);
    let from = at.min(part.len());
    let depth = usize::from(e.depth);
    let to = at + write_parts(mem, i + 1, end, depth, left - 1, &mut part[from..]);
    let last = to.min(part.len());
    to + closing(kind, &mut part[last..])
}
