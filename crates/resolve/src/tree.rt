// The rows under a row: which kinds stand there.
ghost use Rattle.std.specs.Prelude.{◌≡◌, ◌+◌, ◌-◌, ◌≤◌, ◌<◌, length};
ghost use Rattle.row.specs.Layout.{row_limit, layout_length};
ghost use Rattle.row.specs.Sets.{rows_from};
ghost use Rattle.row.specs.Memory.{row_at};
ghost use Rattle.resolve.specs.Rules.{good_parts};

use crate::kinds::{is_leading, is_part_of, may_end};
use row::read::{depth_at, kind_at};

// Do the rows under row i, of those before `end`, have the kinds that may stand there?
pub fn good_parts(mem: &[u8], i: usize, end: usize) -> bool
    requires { (length mem.now ≡ layout_length) × (i < end) × (end ≤ row_limit) }
    ensures { result ≡ good_parts (row_at mem.now i) (rows_from mem.now (end - (i + 1)) (i + 1)) }
{
    let kind = kind_at(mem, i);
    let depth = depth_at(mem, i);
    let mut n = 0;
    for j in i + 1..end {
        let d = depth_at(mem, j);
        if d <= depth {
            return may_end(kind, n);
        }
        if d != depth + 1 {
            continue;
        }
        let k = kind_at(mem, j);
        if is_leading(kind, n, k) {
            continue;
        }
        if !is_part_of(kind, k) {
            return false;
        }
        n += 1;
    }
    may_end(kind, n)
}
