// Reading a set's memory.
ghost use Rattle.std.specs.Prelude.{◌≡◌, ◌≤◌, ◌<◌, min, length};
ghost use Rattle.ground.specs.Bytes.{part};
ghost use Rattle.row.specs.Kinds.{kind_number};
ghost use Rattle.row.specs.Layout.{declaration_limit, row_limit, layout_length};
ghost use Rattle.row.specs.Rows.{text_start, text_length, default_length, strings_length};
ghost use Rattle.row.specs.Sets.{count_in};
ghost use Rattle.row.specs.Memory.{from_row, entry_at, text_at, default_at, text_place, default_place, behind, size_at, rows_before, strings_before, counts_in};

use crate::Entry;
use crate::kind::Kind;
use crate::layout::Layout;
use crate::number::{u16_at, u64_at};
use answer::Counts;

// The kind of row i.
pub fn kind_at(mem: &[u8], i: usize) -> Kind
    requires { (length mem.now ≡ layout_length) × (i < row_limit) }
    ensures { result ≡ (entry_at mem.now i).kind }
{
    let at = Layout::ROWS + Layout::ROW * i;
    Kind::of(mem[at])
}

// The number of that kind.
pub fn kind_number(mem: &[u8], i: usize) -> u8
    requires { (length mem.now ≡ layout_length) × (i < row_limit) }
    ensures { result ≡ kind_number (entry_at mem.now i).kind }
{
    kind_at(mem, i).number()
}

// Each number of row i alone.
pub fn depth_at(mem: &[u8], i: usize) -> usize
    requires { (length mem.now ≡ layout_length) × (i < row_limit) }
    ensures { (result ≡ (entry_at mem.now i).depth) × (result < 65536) }
{
    let at = Layout::ROWS + Layout::ROW * i;
    usize::from(u16_at(mem, at + 2))
}

pub fn position_at(mem: &[u8], i: usize) -> usize
    requires { (length mem.now ≡ layout_length) × (i < row_limit) }
    ensures { result ≡ (entry_at mem.now i).position }
{
    let at = Layout::ROWS + Layout::ROW * i;
    usize::from(u16_at(mem, at + 4))
}

pub fn size_at(mem: &[u8], i: usize) -> u64
    requires { (length mem.now ≡ layout_length) × (i < row_limit) }
    ensures { result ≡ (entry_at mem.now i).size }
{
    let at = Layout::ROWS + Layout::ROW * i;
    u64_at(mem, at + 10)
}

pub fn note_at(mem: &[u8], i: usize) -> u8
    requires { (length mem.now ≡ layout_length) × (i < row_limit) }
    ensures { result ≡ (entry_at mem.now i).note }
{
    let at = Layout::ROWS + Layout::ROW * i;
    mem[at + 1]
}

pub fn precision_at(mem: &[u8], i: usize) -> u64
    requires { (length mem.now ≡ layout_length) × (i < row_limit) }
    ensures { result ≡ (entry_at mem.now i).precision }
{
    let at = Layout::ROWS + Layout::ROW * i;
    u64_at(mem, at + 18)
}

pub fn scale_at(mem: &[u8], i: usize) -> u64
    requires { (length mem.now ≡ layout_length) × (i < row_limit) }
    ensures { result ≡ (entry_at mem.now i).scale }
{
    let at = Layout::ROWS + Layout::ROW * i;
    u64_at(mem, at + 26)
}

// Row i, all but its strings.
pub fn read_row(mem: &[u8], i: usize) -> Entry
    requires { (length mem.now ≡ layout_length) × (i < row_limit) }
    ensures { result ≡ entry_at mem.now i }
{
    let at = Layout::ROWS + Layout::ROW * i;
    Entry {
        kind: Kind::of(mem[at]),
        depth: u16_at(mem, at + 2),
        position: u16_at(mem, at + 4),
        size: u64_at(mem, at + 10),
        note: mem[at + 1],
        precision: u64_at(mem, at + 18),
        scale: u64_at(mem, at + 26),
    }
}

// How long the string of row i is.
fn text_length(mem: &[u8], i: usize) -> usize
    requires { (length mem.now ≡ layout_length) × (i < row_limit) }
    ensures { (result ≡ text_length (from_row mem.now i)) × (result < 256) }
{
    let at = Layout::ROWS + Layout::ROW * i;
    usize::from(mem[at + 6])
}

// How long its default is.
fn default_length(mem: &[u8], i: usize) -> usize
    requires { (length mem.now ≡ layout_length) × (i < row_limit) }
    ensures { (result ≡ default_length (from_row mem.now i)) × (result < 256) }
{
    let at = Layout::ROWS + Layout::ROW * i;
    usize::from(mem[at + 7])
}

// How long both are together.
pub(crate) fn strings_length(mem: &[u8], i: usize) -> usize
    requires { (length mem.now ≡ layout_length) × (i < row_limit) }
    ensures { (result ≡ strings_length (from_row mem.now i)) × (result < 512) }
{
    text_length(mem, i) + default_length(mem, i)
}

// Where they lie in the string area.
pub(crate) fn text_start(mem: &[u8], i: usize) -> usize
    requires { (length mem.now ≡ layout_length) × (i < row_limit) }
    ensures { (result ≡ text_start (from_row mem.now i)) × (result < 65536) }
{
    let at = Layout::ROWS + Layout::ROW * i;
    usize::from(u16_at(mem, at + 8))
}

// The n bytes of s from a place on, or as many of them as there are: a part of s, not only equal bytes.
fn cut(s: &[u8], at: usize, n: usize) -> &[u8]
    ensures { (result.now ≡ part s.now at n) × (result.ref_ptr ≡ behind s.entry.ref_ptr (min at (length s.now))) }
{
    let from = at.min(s.len());
    let n = n.min(s.len() - from);
    &s[from..from + n]
}

// The string of row i, a part of the memory; of one that does not lie in the string area, the part that does.
pub fn string_of(mem: &[u8], i: usize) -> &[u8]
    requires { (length mem.now ≡ layout_length) × (i < row_limit) }
    ensures { (result.now ≡ text_at mem.now i) × (result.ref_ptr ≡ behind mem.entry.ref_ptr (text_place mem.now i)) }
{
    let start = text_start(mem, i);
    let n = text_length(mem, i);
    cut(&mem[Layout::STRINGS..], start, n)
}

// The default of row i, a part of the memory, no bytes where it has none; of one that does not lie in the string area, the part that does.
pub fn default_of(mem: &[u8], i: usize) -> &[u8]
    requires { (length mem.now ≡ layout_length) × (i < row_limit) }
    ensures { (result.now ≡ default_at mem.now i) × (result.ref_ptr ≡ behind mem.entry.ref_ptr (default_place mem.now i)) }
{
    let start = text_start(mem, i) + text_length(mem, i);
    let n = default_length(mem, i);
    cut(&mem[Layout::STRINGS..], start, n)
}

// How many string bytes the first n rows have.
pub fn strings_before(mem: &[u8], n: usize) -> usize
    requires { (length mem.now ≡ layout_length) × (n ≤ row_limit) }
    ensures { result ≡ strings_before mem.now n }
{
    if n == 0 {
        return 0;
    }
    text_start(mem, n - 1) + strings_length(mem, n - 1)
}

// The number of declarations.
pub fn declarations(mem: &[u8]) -> usize
    requires { length mem.now ≡ layout_length }
    ensures { result ≡ count_in mem.now }
{
    usize::from(u16_at(mem, 0))
}

// How many rows the declaration at a place has.
pub fn rows_of(mem: &[u8], place: usize) -> usize
    requires { (length mem.now ≡ layout_length) × (place < declaration_limit) }
    ensures { (result ≡ size_at mem.now place) × (result < 65536) }
{
    usize::from(u16_at(mem, 2 + 2 * place))
}

// How many rows the declarations before a place have.
pub fn rows_before(mem: &[u8], place: usize) -> usize
    requires { (length mem.now ≡ layout_length) × (place ≤ declaration_limit) }
    ensures { result ≡ rows_before mem.now place }
{
    let mut sum = 0;
    for i in 0..place {
        sum += rows_of(mem, i);
    }
    sum
}

// The three counts of the set.
pub fn counts(mem: &[u8]) -> Counts
    requires { (length mem.now ≡ layout_length) × (count_in mem.now ≤ declaration_limit) × (rows_before mem.now (count_in mem.now) ≤ row_limit) }
    ensures { result ≡ counts_in mem.now }
{
    let n = declarations(mem);
    let rows = rows_before(mem, n);
    Counts::new(n, rows, strings_before(mem, rows))
}
