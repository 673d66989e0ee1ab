// The calls that change a set.
ghost use Rattle.std.specs.Prelude.{◌≡◌, true, List, ◌∷◌, ◌+◌, ◌≤◌, ◌<◌, length, take, drop};
ghost use Rattle.answer.specs.Answers.{numbers_of};
ghost use Rattle.row.specs.Layout.{declaration_limit, row_limit, layout_length};
ghost use Rattle.row.specs.Rows.{Row};
ghost use Rattle.row.specs.Sets.{zeros, count_in, rows_from, encode, decode};
ghost use Rattle.resolve.specs.Rules.{some};
ghost use Rattle.fits.specs.Types.{has_default};
ghost use Rattle.schema.specs.Schema.{declared};
ghost use Rattle.formed.specs.WellFormed.{well_formed};
ghost use Rattle.set.specs.Lists.{Result, append, append_all};
ghost use Rattle.set.specs.Calls.{answer_of, memory_of, opened, put};
ghost use Rattle.set.specs.Steps.{Drafted, IsDraft, Wrote, Ended};

use crate::append::{append, join, push, refused};
use answer::{Answer, Counts, Why};
use fits::has_defaults;
use formed::well_formed;
use ground::copy;
use row::Layout;
use row::read::{counts, declarations, rows_before, rows_of, strings_before};
use row::write::clear;
use schema::{Walked, declare};

// Memory of the layout's length becomes the empty set, whatever it held.
pub fn open(mem: &mut [u8]) -> Answer<Counts>
    ensures { (numbers_of result ≡ answer_of (opened mem.old))
        × (mem.new ≡ memory_of mem.old (opened mem.old)) }
{
    if mem.len() != Layout::LENGTH {
        return refused(Why::NotWellFormed, 0);
    }
    clear(mem);
    Ok(Counts::none())
}

// The rows of a text in an empty draft, or its first fault.
fn read_text(text: &[u8], draft: &mut [u8]) -> Walked
    requires { draft.old ≡ zeros layout_length }
    ensures { Wrote draft.new result (declared text.now) }
{
    declare(text, draft)
}

// The declarations of a set before a place, into memory that is zero.
fn copy_before(mem: &[u8], place: usize, out: &mut [u8])
    requires { (well_formed mem.now ≡ true) × (place ≤ count_in mem.now) × (out.old ≡ zeros layout_length) }
    ensures { out.new ≡ encode (take place (decode mem.now)) }
{
    let mut sum = Counts::none();
    for i in 0..place {
        let n = rows_of(mem, i);
        sum = push(out, sum, mem, sum.rows, n);
    }
}

// The declarations of a set from a place on, appended in turn until one is refused.
fn append_from(out: &mut [u8], mem: &[u8], place: usize) -> Answer<Counts>
    requires { (well_formed out.old ≡ true) × (well_formed mem.now ≡ true) × (count_in out.old ≡ place) × (place ≤ count_in mem.now) }
    ensures { Ended out.new out.new result (append_all (decode out.old) (drop place (decode mem.now))) }
{
    let n = declarations(mem);
    let mut start = rows_before(mem, place);
    for i in place..n {
        let rows = rows_of(mem, i);
        let end = start + rows;
        let bytes = strings_before(mem, end) - strings_before(mem, start);
        append(out, mem, start, rows, bytes)?;
        start = end;
    }
    Ok(counts(out))
}

// Memory becomes what the scratch memory holds, unless that was refused.
fn settle(mem: &mut [u8], out: &[u8], a: Answer<Counts>) -> Answer<Counts>
    requires { length mem.old ≡ length out.now }
    ensures { (x : Result) → Ended out.now out.now a x → Ended mem.old mem.new result x }
{
    let c = a?;
    copy(mem, 0, out);
    Ok(c)
}

// The rows of a draft in place of a declaration: the declarations before it, the draft, those behind it.
fn put_inside(mem: &mut [u8], place: usize, draft: &[u8], n: usize, bytes: usize) -> Answer<Counts>
    requires { (well_formed mem.old ≡ true) × (place < count_in mem.old) × IsDraft draft.now 0 n bytes }
    ensures { (rows : List Row) → Drafted draft.now 0 n bytes rows
        → Ended mem.old mem.new result (append_all (take place (decode mem.old)) (rows ∷ drop (place + 1) (decode mem.old))) }
{
    let mut out = [0u8; Layout::LENGTH];
    copy_before(mem, place, &mut out);
    append(&mut out, draft, 0, n, bytes)?;
    let b = append_from(&mut out, mem, place + 1);
    settle(mem, &out, b)
}

// Has one of the n rows of a draft a default? More rows than a set may have are not asked.
fn asks_to_fit(draft: &[u8], n: usize) -> bool
    requires { length draft.now ≡ layout_length }
    ensures { n ≤ row_limit → result ≡ some has_default (rows_from draft.now n 0) }
{
    if Counts::ROWS < n {
        return false;
    }
    has_defaults(draft, 0, n)
}

// The rows of a draft as one declaration more. Rows that have a default are appended to a copy first.
fn put_last(mem: &mut [u8], draft: &[u8], n: usize, bytes: usize) -> Answer<Counts>
    requires { (well_formed mem.old ≡ true) × (count_in mem.old < declaration_limit) × IsDraft draft.now 0 n bytes }
    ensures { (rows : List Row) → Drafted draft.now 0 n bytes rows
        → Ended mem.old mem.new result (append (decode mem.old) rows) }
{
    if !asks_to_fit(draft, n) {
        return join(mem, draft, 0, n, bytes);
    }
    let mut out = [0u8; Layout::LENGTH];
    copy(&mut out, 0, mem);
    let a = append(&mut out, draft, 0, n, bytes);
    settle(mem, &out, a)
}

// The rows of a draft at a place: one declaration more where the place is the count.
fn put_rows(mem: &mut [u8], place: usize, draft: &[u8], n: usize, bytes: usize) -> Answer<Counts>
    requires { (well_formed mem.old ≡ true) × (place ≤ count_in mem.old) × (place < declaration_limit) × IsDraft draft.now 0 n bytes }
    ensures { (rows : List Row) → Drafted draft.now 0 n bytes rows
        → Ended mem.old mem.new result (append_all (take place (decode mem.old)) (rows ∷ drop (place + 1) (decode mem.old))) }
{
    if declarations(mem) <= place {
        return put_last(mem, draft, n, bytes);
    }
    put_inside(mem, place, draft, n, bytes)
}

// A declaration at a place, by its text: another one there or, where the place is the count, one more.
pub fn put(mem: &mut [u8], place: usize, text: &[u8]) -> Answer<Counts>
    ensures { (numbers_of result ≡ answer_of (put mem.old place text.now))
        × (mem.new ≡ memory_of mem.old (put mem.old place text.now)) }
{
    if !well_formed(mem) {
        return refused(Why::NotWellFormed, place);
    }
    if declarations(mem) < place {
        return refused(Why::NoSuchPlace, place);
    }
    if Counts::DECLARATIONS <= place {
        return refused(Why::TooManyDeclarations, Counts::DECLARATIONS);
    }
    let mut draft = [0u8; Layout::LENGTH];
    match read_text(text, &mut draft) {
        Err(f) => Err(f.placed(place)),
        Ok(c) => put_rows(mem, place, &draft, c.rows, c.string_bytes),
    }
}
