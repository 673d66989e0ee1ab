// The walk of a datum by the rows of its type.
#![tactic(auto)]

mod frames;
mod leaves;
mod rows;
pub mod states;
mod tables;
mod turns;

ghost use Rattle.std.specs.Prelude.{◌≡◌, ◌+◌, ◌≤◌, ◌<◌, length};
ghost use Rattle.row.specs.Layout.{row_limit, layout_length};
ghost use Rattle.row.specs.Sets.{rows_from};
ghost use Rattle.walk.specs.Walk.{walked, steps};
ghost use Rattle.walk.specs.Steps.{type_at, Gave};

use answer::{Counts, Fault};
use frames::resume;
use states::Here;
use turns::visit;

// A walk has so many steps. Each offset that it gives costs one, and the end's is one more.
pub const STEPS: usize = 4096;

pub const OFFSETS: usize = STEPS + 1;

// A frame is three numbers, and costs a step.
const FRAMES: usize = 3 * STEPS;

// Walks the datum that stands in the bytes from an offset on, by the type at a row of the first n: where it ends, and how many offsets were given. They go
// into the list, which is spoilt where the walk stops.
pub fn walk(
    mem: &[u8],
    n: usize,
    row: usize,
    bytes: &[u8],
    at: usize,
    list: &mut [usize],
) -> Result<(usize, usize), Fault>
    requires { (length mem.now ≡ layout_length) × (n ≤ row_limit) × (row < n) × (at ≤ length bytes.now) × (length list.old ≡ steps + 1) }
    ensures { Gave list.new (walked (rows_from mem.now n 0) bytes.now (type_at mem.now n row) at) result }
{
    let mut frames: [usize; FRAMES] = [0; FRAMES];
    let mut found: [Option<u16>; Counts::ROWS] = [None; Counts::ROWS];
    let mut next: [Option<u16>; Counts::ROWS] = [None; Counts::ROWS];
    let mut here = Here {
        at,
        left: STEPS,
        given: 0,
        depth: 0,
        row: Some(row),
    };
    // Tried: `?` at both calls; a walk of 335 records took 36 microseconds for 34.
    loop {
        match here.row {
            Some(row) => match visit(
                mem,
                n,
                bytes,
                &mut found,
                &mut next,
                &mut frames,
                list,
                row,
                here,
            ) {
                Ok(h) => here = h,
                Err(f) => return Err(f),
            },
            None if here.depth == 0 => return Ok((here.at, here.given)),
            None => match resume(mem, n, bytes, &mut next, &mut frames, here) {
                Ok(h) => here = h,
                Err(f) => return Err(f),
            },
        }
    }
}
