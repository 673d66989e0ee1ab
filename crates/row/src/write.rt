// Writing a set's memory.
ghost use Rattle.std.specs.Prelude.{◌≡◌, ◌+◌, ◌≤◌, ◌<◌, length};
ghost use Rattle.ground.specs.Bytes.{store};
ghost use Rattle.row.specs.Layout.{declaration_limit, row_limit, string_limit, layout_length};
ghost use Rattle.row.specs.Rows.{row_of, with_default, strings_of, encode_row};
ghost use Rattle.row.specs.Sets.{zeros, rows_from};
ghost use Rattle.row.specs.Memory.{counted, has_room, written, pushed, counted_all, pushed_all, declared};

use crate::Entry;
use crate::layout::Layout;
use crate::read::{default_of, read_row, string_of};
use answer::Counts;
use ground::copy;

// All bytes zero: the empty set.
pub fn clear(mem: &mut [u8])
    ensures { mem.new ≡ zeros (length mem.old) }
{
    mem.fill(0);
}

// The bytes of a row whose strings lie from `start` on in the string area.
fn bytes_of(row: Entry, start: u16, text: &[u8], default: &[u8]) -> [u8; Layout::ROW]
    ensures { result ≡ encode_row start (with_default row text.now default.now) }
{
    let mut bytes = [0; Layout::ROW];
    bytes[0] = row.kind.number();
    bytes[1] = row.note;
    bytes[2..4].copy_from_slice(&row.depth.to_le_bytes());
    bytes[4..6].copy_from_slice(&row.position.to_le_bytes());
    bytes[6] = (text.len() % 256) as u8;
    bytes[7] = (default.len() % 256) as u8;
    bytes[8..10].copy_from_slice(&start.to_le_bytes());
    bytes[10..18].copy_from_slice(&row.size.to_le_bytes());
    bytes[18..26].copy_from_slice(&row.precision.to_le_bytes());
    bytes[26..].copy_from_slice(&row.scale.to_le_bytes());
    bytes
}

// A row at its place in memory, and its strings, which lie from `start` on, apart.
fn write_row(mem: &mut [u8], at: usize, row: Entry, start: u16, text: &[u8], default: &[u8])
    requires { at < 65536 }
    ensures { mem.new ≡ store mem.old at (encode_row start (with_default row text.now default.now)) }
{
    let bytes = bytes_of(row, start, text, default);
    copy(mem, at, &bytes);
}

// One row more, and the n bytes of its strings.
#[tactic(auto, unfolding(crate::specs::Memory::counted))]
fn count(counts: Counts, n: usize) -> Counts
    ensures { result ≡ counted counts n }
{
    let rows = counts.rows.saturating_add(1);
    let bytes = counts.string_bytes.saturating_add(n);
    Counts::new(counts.declarations, rows, bytes)
}

// Is there room for one row more, and the n bytes of its strings?
#[tactic(auto, unfolding(crate::specs::Memory::has_room))]
fn has_room(counts: Counts, n: usize) -> bool
    ensures { result ≡ has_room counts n }
{
    counts.rows < Counts::ROWS
        && n <= Counts::STRING_BYTES
        && counts.string_bytes <= Counts::STRING_BYTES - n
}

// The row behind those that are counted, and its strings behind theirs.
fn write(mem: &mut [u8], counts: Counts, row: Entry, text: &[u8], default: &[u8])
    requires { (counts.rows < row_limit) × (counts.string_bytes + (length text.now + length default.now) ≤ string_limit) }
    ensures { mem.new ≡ written mem.old counts (with_default row text.now default.now) }
{
    let rows = counts.rows;
    let used = counts.string_bytes;
    write_row(
        mem,
        Layout::ROWS + Layout::ROW * rows,
        row,
        used as u16,
        text,
        default,
    );
    copy(mem, Layout::STRINGS + used, text);
    copy(mem, Layout::STRINGS + used + text.len(), default);
}

// One row more with its strings, behind those that are counted; past a limit it is counted and not written.
pub fn push_both(mem: &mut [u8], counts: Counts, row: Entry, text: &[u8], default: &[u8]) -> Counts
    ensures { (result ≡ counted counts (length (strings_of (with_default row text.now default.now))))
        × (mem.new ≡ pushed mem.old counts (with_default row text.now default.now)) }
{
    let n = text.len().saturating_add(default.len());
    if has_room(counts, n) {
        write(mem, counts, row, text, default);
    }
    count(counts, n)
}

// The same of a row without a default.
pub fn push(mem: &mut [u8], counts: Counts, row: Entry, text: &[u8]) -> Counts
    ensures { (result ≡ counted counts (length text.now))
        × (mem.new ≡ pushed mem.old counts (row_of row text.now)) }
{
    push_both(mem, counts, row, text, &[])
}

// The n rows of `from` from row `start` on, pushed one after the other.
pub fn push_rows(mem: &mut [u8], counts: Counts, from: &[u8], start: usize, n: usize) -> Counts
    requires { (length «from».now ≡ layout_length) × (start + n ≤ row_limit) }
    ensures { (result ≡ counted_all counts (rows_from «from».now n start))
        × (mem.new ≡ pushed_all mem.old counts (rows_from «from».now n start)) }
{
    let mut sum = counts;
    for i in start..start + n {
        let row = read_row(from, i);
        sum = push_both(mem, sum, row, string_of(from, i), default_of(from, i));
    }
    sum
}

// The n rows behind those of the declarations before a place are that place's, the last declaration's.
pub fn declare(mem: &mut [u8], place: usize, n: usize)
    requires { (place < declaration_limit) × (n < 65536) }
    ensures { mem.new ≡ declared mem.old place n }
{
    copy(mem, 2 + 2 * place, &(n as u16).to_le_bytes());
    copy(mem, 0, &(place as u16 + 1).to_le_bytes());
}
