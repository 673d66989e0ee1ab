// The answer to a text.
ghost use Rattle.std.specs.Prelude.{◌≡◌, length};
ghost use Rattle.row.specs.Layout.{layout_length};

use crate::declaration::put_declaration;
use crate::refusal::put_refusal;
use crate::tally::Tally;
use script::output::{Output, flush};
use std::io;

// Puts a text at the end of the set, and writes what comes of it behind the heading that the first `at` bytes of the buffer are.
pub(crate) fn answer(
    stdout: &mut Output,
    mem: &mut [u8],
    text: &[u8],
    out: &mut [u8],
    at: usize,
    tally: Tally,
) -> io::Result<Tally>
    requires { length mem.old ≡ layout_length }
{
    let before = tally.counts;
    match set::put(mem, before.declarations, text) {
        Err(r) => {
            let end = put_refusal(stdout, out, at, text, r);
            flush(stdout, out, end)?;
            Ok(tally.refused())
        }
        Ok(after) => {
            let end = put_declaration(stdout, out, at, mem, before, after);
            flush(stdout, out, end)?;
            Ok(tally.accepted(after))
        }
    }
}
