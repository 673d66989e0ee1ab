// Reads declarations, and says of each for people what it holds, or what is wrong with it and where.
//
// Without arguments they come from standard input: one text, or several as a JSON text sequence (RFC 7464), where the byte 1E
// begins each. With arguments each argument names a file that holds one. All go into one set, in order.
#![tactic(auto)]

mod answers;
mod code;
mod columns;
mod complaint;
mod declaration;
mod excerpt;
mod files;
mod lines;
mod refusal;
mod sentences;
mod sequence;
mod spot;
mod table;
mod tally;

ghost use Rattle.std.specs.Prelude.{◌≡◌, length};
ghost use Rattle.row.specs.Layout.{layout_length};

use files::answer_files;
use row::Layout;
use script::output::{Output, flush};
use sequence::answer_sequence;
use std::env::{Env, FillError};
use std::io;
use tally::{Tally, put_tally};

// How many arguments there are, with the program's own name.
fn arg_count(rt: &impl Env) -> usize {
    let mut start = [0u8; 1];
    for i in 0..usize::MAX {
        if let Err(FillError::NotPresent) = rt.arg(i, &mut start) {
            return i;
        }
    }
    usize::MAX
}

// Every text in turn.
fn answer_all(
    rt: &HostRuntime,
    stdout: &mut Output,
    mem: &mut [u8],
    text: &mut [u8],
    out: &mut [u8],
) -> io::Result<Tally>
    requires { length mem.old ≡ layout_length }
{
    let n = arg_count(rt);
    if n < 2 {
        return answer_sequence(rt.stdin(), stdout, rt.stderr(), mem, text, out);
    }
    answer_files(rt, stdout, n, mem, text, out)
}

fn main(rt: HostRuntime) -> io::Result<()> {
    let mut mem = [0u8; Layout::LENGTH];
    let mut text = [0u8; 65536];
    let mut out = [0u8; 65536];
    let mut stdout = Output::new(rt.stdout());
    let _ = set::open(&mut mem);
    let tally = answer_all(&rt, &mut stdout, &mut mem, &mut text, &mut out)?;
    let end = put_tally(&mut stdout, &mut out, 0, tally);
    flush(&mut stdout, &out, end)
}
