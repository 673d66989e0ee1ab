// Frames of what is still to come, three numbers each: a row, the entries of a block that are left, where the block's size stands. The row says which it is,
// 1,024 more in a record's frame: so it has its bound whatever stands there, where an enum's rows would need a promise about all frames.
ghost use Rattle.std.specs.Prelude.{◌≡◌, List, None, ℕ, ◌+◌, ◌-◌, ◌*◌, ◌<◌, ◌≤◌, length, get_or};
ghost use Rattle.row.specs.Layout.{row_limit, layout_length};
ghost use Rattle.walk.specs.Walk.{steps, key};
ghost use Rattle.walk.specs.Steps.{type_at, Follows, Reads, is_right, pushed, here_of, pending, Bounded, Listed, to_do, before, Turned, on_blocks, on_block};

use crate::leaves::{counted, fault, is_size, number};
use crate::rows::{inside, is_map};
use crate::states::Here;
use crate::tables::follower;
use answer::{Counts, Fault, Why};
use binary::{absolute, is_negative, long_at};

// At another offset, with another row to visit.
pub(crate) fn moved(here: Here, at: usize, row: Option<usize>) -> Here
    ensures { result ≡ here_of at here.left here.given here.depth row }
{
    Here { at, row, ..here }
}

// With one frame more, and another row to visit.
pub(crate) fn deeper(here: Here, row: Option<usize>) -> Here
    requires { here.depth < steps }
    ensures { result ≡ here_of here.at here.left here.given (here.depth + 1) row }
{
    Here {
        depth: here.depth + 1,
        row,
        ..here
    }
}

// With no row to visit, and so many frames.
fn popped(here: Here, depth: usize) -> Here
    ensures { result ≡ here_of here.at here.left here.given depth None }
{
    Here {
        depth,
        row: None,
        ..here
    }
}

// Frame d becomes these three numbers.
pub(crate) fn push(frames: &mut [usize], d: usize, row: usize, left: usize, size: usize)
    requires { (d < steps) × (length frames.old ≡ 3 * steps) }
    ensures { frames.new ≡ pushed frames.old d row left size }
{
    let at = 3 * d;
    frames[at] = row;
    frames[at + 1] = left;
    frames[at + 2] = size;
}

// A block whose count was read, v; one below 0 is followed by the block's size. Its entries are pushed.
fn block(bytes: &[u8], frames: &mut [usize], row: usize, v: u64, here: Here) -> Result<Here, Fault>
    requires { (row < row_limit) × (0 < here.at) × (here.depth + here.left < steps) × Bounded bytes.now frames.old here }
    ensures { (m : List ℕ) (n : ℕ) (list : List ℕ) → Listed list here
        → Turned m n bytes.now frames.new list (on_block m n bytes.now frames.old list row v here) (before here) result }
{
    let at = here.at;
    let count = absolute(v) as usize;
    if !is_negative(v) {
        push(frames, here.depth, row, count, 0);
        return Ok(deeper(here, None));
    }
    let (_, to) = number(long_at(bytes, at), bytes, at)?;
    push(frames, here.depth, row, count, at);
    Ok(deeper(moved(here, to, None), None))
}

// The header of a block of the array or map at a row, which takes a step: its entries are pushed, or there is no block more.
pub(crate) fn header(
    bytes: &[u8],
    frames: &mut [usize],
    row: usize,
    here: Here,
) -> Result<Here, Fault>
    requires { (row < row_limit) × (here.row ≡ None) × Bounded bytes.now frames.old here }
    ensures { (m : List ℕ) (n : ℕ) (list : List ℕ) → Listed list here
        → Turned m n bytes.now frames.new list (on_blocks m n bytes.now frames.old list row here) (to_do here) result }
{
    let at = here.at;
    if here.left == 0 {
        return Err(fault(Why::TooManySteps, at));
    }
    let (v, to) = number(long_at(bytes, at), bytes, at)?;
    let next = Here {
        at: to,
        left: here.left - 1,
        row: None,
        ..here
    };
    if v == 0 {
        return Ok(next);
    }
    block(bytes, frames, row, v, next)
}

// The last frame is of a record's parts: the next one is to be visited, or there is none.
fn resume_parts(
    mem: &[u8],
    n: usize,
    bytes: &[u8],
    next: &mut [Option<u16>],
    frames: &mut [usize],
    here: Here,
) -> Result<Here, Fault>
    requires { (length mem.now ≡ layout_length) × (n ≤ row_limit) × Follows mem.now n next.old × (0 < here.depth) × (here.row ≡ None)
        × Bounded bytes.now frames.old here × (row_limit ≤ get_or frames.old (3 * (here.depth - 1)) 0) }
    ensures { ((list : List ℕ) → Listed list here
        → Turned mem.now n bytes.now frames.new list (pending mem.now n bytes.now frames.old list here) (to_do here) result)
        × Follows mem.now n next.new }
{
    let top = here.depth - 1;
    let part = follower(mem, n, next, frames[3 * top] % Counts::ROWS);
    if n <= part {
        return Ok(popped(here, top));
    }
    frames[3 * top] = Counts::ROWS + part;
    Ok(moved(here, here.at, Some(part)))
}

// Has a block that ends here no size, or the right one?
fn is_right(bytes: &[u8], size: usize, to: usize) -> bool
    ensures { result ≡ is_right bytes.now size to }
{
    size == 0 || is_size(bytes, size, to)
}

// The last frame is of a block that has no entry left: its size, if it has one, is right, and a header comes.
fn end_block(bytes: &[u8], frames: &mut [usize], row: usize, here: Here) -> Result<Here, Fault>
    requires { (row < row_limit) × (0 < here.depth) × (here.row ≡ None) × Bounded bytes.now frames.old here
        × (row ≡ get_or frames.old (3 * (here.depth - 1)) 0) × (get_or frames.old (3 * (here.depth - 1) + 1) 0 ≡ 0) }
    ensures { (m : List ℕ) (n : ℕ) (list : List ℕ) → Listed list here
        → Turned m n bytes.now frames.new list (pending m n bytes.now frames.old list here) (to_do here) result }
{
    let top = here.depth - 1;
    let size = frames[3 * top + 2];
    if !is_right(bytes, size, here.at) {
        return Err(fault(Why::BlockSizeWrong, size));
    }
    header(bytes, frames, row, popped(here, top))
}

// The offset of an entry's datum: behind the key, in a map.
fn key(mem: &[u8], n: usize, bytes: &[u8], row: usize, at: usize) -> Result<usize, Fault>
    requires { (length mem.now ≡ layout_length) × (n ≤ row_limit) × (at ≤ length bytes.now) }
    ensures { Reads bytes.now at result (key bytes.now (type_at mem.now n row)) }
{
    if is_map(mem, n, row) {
        counted(bytes, at)
    } else {
        Ok(at)
    }
}

// The last frame is of a block with an entry left.
fn resume_entry(
    mem: &[u8],
    n: usize,
    bytes: &[u8],
    frames: &mut [usize],
    row: usize,
    here: Here,
) -> Result<Here, Fault>
    requires { (length mem.now ≡ layout_length) × (n ≤ row_limit) × (row < row_limit) × (0 < here.depth) × (here.row ≡ None) × Bounded bytes.now frames.old here
        × (row ≡ get_or frames.old (3 * (here.depth - 1)) 0) × (0 < get_or frames.old (3 * (here.depth - 1) + 1) 0) }
    ensures { (list : List ℕ) → Listed list here
        → Turned mem.now n bytes.now frames.new list (pending mem.now n bytes.now frames.old list here) (to_do here) result }
{
    let top = here.depth - 1;
    frames[3 * top + 1] -= 1;
    let to = key(mem, n, bytes, row, here.at)?;
    Ok(moved(here, to, Some(inside(mem, n, row))))
}

// No row is to be visited now: the last frame says what comes.
pub(crate) fn resume(
    mem: &[u8],
    n: usize,
    bytes: &[u8],
    next: &mut [Option<u16>],
    frames: &mut [usize],
    here: Here,
) -> Result<Here, Fault>
    requires { (length mem.now ≡ layout_length) × (n ≤ row_limit) × Follows mem.now n next.old × (0 < here.depth) × (here.row ≡ None)
        × Bounded bytes.now frames.old here }
    ensures { ((list : List ℕ) → Listed list here
        → Turned mem.now n bytes.now frames.new list (pending mem.now n bytes.now frames.old list here) (to_do here) result)
        × Follows mem.now n next.new }
{
    let top = here.depth - 1;
    let row = frames[3 * top];
    if Counts::ROWS <= row {
        return resume_parts(mem, n, bytes, next, frames, here);
    }
    if frames[3 * top + 1] == 0 {
        return end_block(bytes, frames, row, here);
    }
    resume_entry(mem, n, bytes, frames, row, here)
}
