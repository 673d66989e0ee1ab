// Whether bytes are the encoding of a set, in one pass.
ghost use Rattle.std.specs.Prelude.{◌≡◌, ◌≤◌, ◌<◌, length, MatchOption};
ghost use Rattle.row.specs.Layout.{declaration_limit, row_limit, string_limit, layout_length};
ghost use Rattle.row.specs.Sets.{is_encoding};
ghost use Rattle.row.specs.Memory.{from_row};
ghost use Rattle.row.specs.Tidy.{tidy_row, rows_end, spare_zero};

use crate::kind::Kind;
use crate::layout::Layout;
use crate::read::{declarations, rows_before, strings_length, text_start};
use answer::Counts;
use ground::all_zero;

// Does row i have a kind, and do its strings lie from `end` on in the string area?
fn tidy_row(mem: &[u8], i: usize, end: usize) -> bool
    requires { (length mem.now ≡ layout_length) × (i < row_limit) × (end ≤ string_limit) }
    ensures { result ≡ tidy_row end (from_row mem.now i) }
{
    let number = mem[Layout::ROWS + Layout::ROW * i];
    Kind::known(number) == number
        && text_start(mem, i) == end
        && end + strings_length(mem, i) <= Counts::STRING_BYTES
}

// Where the strings of the first n rows end; None where a row is not as it should be.
fn rows_end(mem: &[u8], n: usize) -> Option<usize>
    requires { (length mem.now ≡ layout_length) × (n ≤ row_limit) }
    ensures { MatchOption result (string_limit < rows_end mem.now n) (λ end. (end ≡ rows_end mem.now n) × (end ≤ string_limit)) }
{
    let mut end = 0;
    for i in 0..n {
        if !tidy_row(mem, i, end) {
            return None;
        }
        end += strings_length(mem, i);
    }
    Some(end)
}

// Is all zero but n declarations, `rows` rows and `end` string bytes?
#[tactic(auto, unfolding(crate::specs::Tidy::spare_zero, ground::specs::Bytes::part))]
fn spare_zero(mem: &[u8], n: usize, rows: usize, end: usize) -> bool
    requires { (length mem.now ≡ layout_length) × (n ≤ declaration_limit) × (rows ≤ row_limit) × (end ≤ string_limit) }
    ensures { result ≡ spare_zero mem.now n rows end }
{
    all_zero(&mem[2 + 2 * n..Layout::ROWS])
        && all_zero(&mem[Layout::ROWS + Layout::ROW * rows..Layout::STRINGS])
        && all_zero(&mem[Layout::STRINGS + end..Layout::LENGTH])
}

// Are the bytes the encoding of a set within the limits?
pub fn is_encoding(mem: &[u8]) -> bool
    ensures { result ≡ is_encoding mem.now }
{
    if mem.len() != Layout::LENGTH {
        return false;
    }
    let n = declarations(mem);
    if Counts::DECLARATIONS < n {
        return false;
    }
    let rows = rows_before(mem, n);
    if Counts::ROWS < rows {
        return false;
    }
    match rows_end(mem, rows) {
        Some(end) => spare_zero(mem, n, rows, end),
        None => false,
    }
}
