// A row is visited: its step is taken, and what its datum is by its kind.
ghost use Rattle.std.specs.Prelude.{◌≡◌, true, List, Some, None, ℕ, ◌+◌, ◌-◌, ◌*◌, ◌<◌, ◌≤◌, length, set};
ghost use Rattle.row.specs.Layout.{row_limit, layout_length};
ghost use Rattle.row.specs.Memory.{entry_at};
ghost use Rattle.row.specs.declared.kind.Kind.TheVariants.{Record, Field, Union, Enum};
ghost use Rattle.walk.specs.Walk.{steps};
ghost use Rattle.walk.specs.Steps.{is_leaf, Found, Follows, here_of, pending, Bounded, Listed, to_do, before, Turned, on_datum};

use crate::frames::{deeper, header, moved, push};
use crate::leaves::{choice, fault, leaf};
use crate::rows::{first_part, part_number};
use crate::states::Here;
use crate::tables::definition;
use answer::{Counts, Fault, Why};
use row::Kind;
use row::read::{kind_at, size_at};

// A datum without parts.
fn plain(bytes: &[u8], kind: Kind, size: u64, here: Here) -> Result<Here, Fault>
    requires { here.at ≤ length bytes.now }
    ensures { (m : List ℕ) (n : ℕ) (frames list : List ℕ) (row : ℕ) → row < n → kind ≡ (entry_at m row).kind → size ≡ (entry_at m row).size → is_leaf kind ≡ true
        → Bounded bytes.now frames here → Listed list here
        → Turned m n bytes.now frames list (on_datum m n bytes.now frames list row here) (before here) result }
{
    let to = leaf(bytes, kind, size, here.at)?;
    Ok(moved(here, to, None))
}

// A record: its first part is to be visited, and a frame keeps the place.
fn record_at(
    mem: &[u8],
    n: usize,
    bytes: &[u8],
    frames: &mut [usize],
    row: usize,
    here: Here,
) -> Result<Here, Fault>
    requires { (length mem.now ≡ layout_length) × (n ≤ row_limit) × (row < n) × ((entry_at mem.now row).kind ≡ Record) × (here.depth + here.left < steps) × (here.row ≡ None)
        × Bounded bytes.now frames.old here }
    ensures { (list : List ℕ) → Listed list here
        → Turned mem.now n bytes.now frames.new list (on_datum mem.now n bytes.now frames.old list row here) (before here) result }
{
    let part = first_part(mem, n, row);
    if n <= part {
        return Ok(here);
    }
    push(frames, here.depth, Counts::ROWS + part, 0, 0);
    Ok(deeper(here, Some(part)))
}

// The offset where the walk stands is given, and another row is to be visited.
fn given(list: &mut [usize], here: Here, at: usize, row: usize) -> Here
    requires { (here.given < steps) × (length list.old ≡ steps + 1) }
    ensures { (result ≡ here_of at here.left (here.given + 1) here.depth (Some row))
        × (list.new ≡ set list.old here.given at) }
{
    let i = here.given;
    list[i] = at;
    Here {
        at,
        given: here.given + 1,
        row: Some(row),
        ..here
    }
}

// A union: the offset of the branch is given, and its row is to be visited.
fn branch(
    mem: &[u8],
    n: usize,
    bytes: &[u8],
    next: &mut [Option<u16>],
    list: &mut [usize],
    row: usize,
    here: Here,
) -> Result<Here, Fault>
    requires { (length mem.now ≡ layout_length) × (n ≤ row_limit) × (row < n) × ((entry_at mem.now row).kind ≡ Union) × Follows mem.now n next.old
        × (here.given + here.left < steps) × (here.at ≤ length bytes.now) × Listed list.old here }
    ensures { ((frames : List ℕ) → Bounded bytes.now frames here
        → Turned mem.now n bytes.now frames list.new (on_datum mem.now n bytes.now frames list.old row here) (before here) result)
        × Follows mem.now n next.new }
{
    let (v, to) = choice(bytes, here.at)?;
    let part = part_number(mem, n, next, row, v);
    if n <= part {
        return Err(fault(Why::OutOfRange, here.at));
    }
    Ok(given(list, here, to, part))
}

// An enum: there is such a symbol.
fn symbol(
    mem: &[u8],
    n: usize,
    bytes: &[u8],
    next: &mut [Option<u16>],
    row: usize,
    here: Here,
) -> Result<Here, Fault>
    requires { (length mem.now ≡ layout_length) × (n ≤ row_limit) × (row < n) × ((entry_at mem.now row).kind ≡ Enum) × Follows mem.now n next.old
        × (here.at ≤ length bytes.now) }
    ensures { ((frames list : List ℕ) → Bounded bytes.now frames here → Listed list here
        → Turned mem.now n bytes.now frames list (on_datum mem.now n bytes.now frames list row here) (before here) result)
        × Follows mem.now n next.new }
{
    let (v, to) = choice(bytes, here.at)?;
    if n <= part_number(mem, n, next, row, v) {
        return Err(fault(Why::OutOfRange, here.at));
    }
    Ok(moved(here, to, None))
}

// What the datum at a row is, once its step is taken.
fn datum(
    mem: &[u8],
    n: usize,
    bytes: &[u8],
    found: &mut [Option<u16>],
    next: &mut [Option<u16>],
    frames: &mut [usize],
    list: &mut [usize],
    row: usize,
    here: Here,
) -> Result<Here, Fault>
    requires { (length mem.now ≡ layout_length) × (n ≤ row_limit) × (row < n) × Found mem.now n found.old × Follows mem.now n next.old
        × (here.row ≡ None) × (here.depth + here.left < steps) × (here.given + here.left < steps) × Bounded bytes.now frames.old here × Listed list.old here }
    ensures { Turned mem.now n bytes.now frames.new list.new
        (on_datum mem.now n bytes.now frames.old list.old row here) (before here) result
        × Found mem.now n found.new × Follows mem.now n next.new }
{
    let kind = kind_at(mem, row);
    match kind {
        Kind::Reference => Ok(moved(here, here.at, Some(definition(mem, n, found, row)))),
        Kind::Record => record_at(mem, n, bytes, frames, row, here),
        Kind::Field => Ok(given(list, here, here.at, first_part(mem, n, row))),
        Kind::Union => branch(mem, n, bytes, next, list, row, here),
        Kind::Enum => symbol(mem, n, bytes, next, row, here),
        Kind::Array | Kind::Map => header(bytes, frames, row, here),
        _ => plain(bytes, kind, size_at(mem, row), here),
    }
}

// The row that is to be visited takes a step.
pub(crate) fn visit(
    mem: &[u8],
    n: usize,
    bytes: &[u8],
    found: &mut [Option<u16>],
    next: &mut [Option<u16>],
    frames: &mut [usize],
    list: &mut [usize],
    row: usize,
    here: Here,
) -> Result<Here, Fault>
    requires { (length mem.now ≡ layout_length) × (n ≤ row_limit) × Found mem.now n found.old × Follows mem.now n next.old
        × (here.row ≡ Some row) × Bounded bytes.now frames.old here × Listed list.old here }
    ensures { Turned mem.now n bytes.now frames.new list.new
        (pending mem.now n bytes.now frames.old list.old here) (to_do here) result
        × Found mem.now n found.new × Follows mem.now n next.new }
{
    if here.left == 0 {
        return Err(fault(Why::TooManySteps, here.at));
    }
    let step = Here {
        left: here.left - 1,
        row: None,
        ..here
    };
    if n <= row {
        return Ok(step);
    }
    datum(mem, n, bytes, found, next, frames, list, row, step)
}
