// One declaration more: the one operation that changes a set.
ghost use Rattle.std.specs.Prelude.{◌≡◌, true, List, ◌+◌, ◌≤◌, ◌<◌, length, Err};
ghost use Rattle.row.specs.Layout.{declaration_limit, row_limit, layout_length};
ghost use Rattle.row.specs.Rows.{Row};
ghost use Rattle.row.specs.Sets.{count_in, rows_from, decode};
ghost use Rattle.fits.specs.Misfits.{misfit_in};
ghost use Rattle.formed.specs.WellFormed.{well_formed};
ghost use Rattle.set.specs.Lists.{append};
ghost use Rattle.set.specs.Steps.{counted_more, pushed_more, joined, Drafted, IsDraft, Ended};

use answer::{Answer, Counts, Fault, Refusal, Why};
use fits::{first_misfit, has_defaults};
use resolve::first_fault;
use row::read::counts;
use row::write::{declare, push_rows};

// A refusal that has no byte position.
pub(crate) fn refused<T>(why: Why, place: usize) -> Answer<T>
    ensures { result ≡ Err (record { why = why; place = place; at = 0 }) }
{
    Err(Refusal { why, place, at: 0 })
}

// The n rows of `from` from row `start` on, written behind those that are counted, as one declaration more.
pub(crate) fn push(mem: &mut [u8], counts: Counts, from: &[u8], start: usize, n: usize) -> Counts
    requires { (counts.declarations < declaration_limit) × (length «from».now ≡ layout_length) × (start + n ≤ row_limit) }
    ensures { (result ≡ counted_more counts (rows_from «from».now n start))
        × (mem.new ≡ pushed_more mem.old counts (rows_from «from».now n start)) }
{
    let place = counts.declarations;
    let sum = push_rows(mem, counts, from, start, n);
    declare(mem, place, n);
    Counts::new(place + 1, sum.rows, sum.string_bytes)
}

// One declaration more, for whose rows n, `bytes` and the memory `from` stand, but for 47; or 23 to 26, and all is as it was.
pub(crate) fn join(
    mem: &mut [u8],
    from: &[u8],
    start: usize,
    n: usize,
    bytes: usize,
) -> Answer<Counts>
    requires { (well_formed mem.old ≡ true) × (count_in mem.old < declaration_limit) × IsDraft «from».now start n bytes }
    ensures { (rows : List Row) → Drafted «from».now start n bytes rows
        → Ended mem.old mem.new result (joined (decode mem.old) rows) }
{
    let sum = counts(mem);
    let place = sum.declarations;
    if Counts::ROWS - sum.rows < n {
        return refused(Why::TooManyRows, place);
    }
    if Counts::STRING_BYTES - sum.string_bytes < bytes {
        return refused(Why::TooManyStringBytes, place);
    }
    match first_fault(mem, sum.rows, from, start, n) {
        Err(f) => Err(f.placed(place)),
        Ok(()) => Ok(push(mem, sum, from, start, n)),
    }
}

// 47 of the last n rows, from `start` on. The check lays out large tables, so it is asked first whether there is a default.
fn misfit(out: &[u8], start: usize, n: usize) -> Result<(), Fault>
    requires { (length out.now ≡ layout_length) × (start + n ≤ row_limit) }
    ensures { result ≡ misfit_in (rows_from out.now (start + n) 0) (rows_from out.now n start) }
{
    if has_defaults(out, start, n) {
        return first_misfit(out, start, n);
    }
    Ok(())
}

// The same with 47, in memory that holds anything where it is refused.
pub(crate) fn append(
    out: &mut [u8],
    from: &[u8],
    start: usize,
    n: usize,
    bytes: usize,
) -> Answer<Counts>
    requires { (well_formed out.old ≡ true) × (count_in out.old < declaration_limit) × IsDraft «from».now start n bytes }
    ensures { (rows : List Row) → Drafted «from».now start n bytes rows
        → Ended out.new out.new result (append (decode out.old) rows) }
{
    let sum = counts(out);
    let c = join(out, from, start, n, bytes)?;
    match misfit(out, sum.rows, n) {
        Err(f) => Err(f.placed(sum.declarations)),
        Ok(()) => Ok(c),
    }
}
