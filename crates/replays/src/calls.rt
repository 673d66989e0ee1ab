// The calls of the library, and their answers.
use crate::memory::first;
use crate::report::{put_answer, put_last, put_ok, put_refusal_with, put_what};
use answer::{Refusal, Why};
use commands::Call;
use formed::well_formed;
use rabin::Rabin;
use row::read::{declarations, rows_before, rows_of};
use script::answers::{put_refusal, put_rows, put_spaced};
use script::output::{Output, put, put_signed};

// The full name, or where it is empty what the call says that tells why.
fn name(stdout: &mut Output, mem: &[u8], place: usize, row: usize, out: &mut [u8]) -> usize {
    let name = set::full_name(mem, place, row);
    if name.is_empty()
        && let Err(r) = set::naming_of(mem, place, row)
    {
        return put_refusal(stdout, out, 0, r);
    }
    let at = put(stdout, out, 0, b"ok");
    put_last(stdout, out, at, name)
}

fn canonical_into(
    stdout: &mut Output,
    mem: &[u8],
    place: usize,
    offset: usize,
    buffer: &mut [u8],
    out: &mut [u8],
) -> usize {
    buffer.fill(170);
    match canonical::canonical(mem, place, buffer, offset) {
        Err(r) => put_refusal_with(stdout, out, r, buffer),
        Ok(n) => {
            let a = put(stdout, out, 0, b"ok");
            let b = put_spaced(stdout, out, a, n as u64);
            put_last(stdout, out, b, buffer)
        }
    }
}

fn canonical_text(
    stdout: &mut Output,
    mem: &[u8],
    place: usize,
    offset: usize,
    room: usize,
    buffer: &mut [u8],
    out: &mut [u8],
) -> usize {
    if buffer.len() < room {
        return put_what(stdout, out);
    }
    canonical_into(stdout, mem, place, offset, &mut buffer[..room], out)
}

fn fingerprint(stdout: &mut Output, mem: &[u8], place: usize, out: &mut [u8]) -> usize {
    match canonical::fingerprint(mem, place) {
        Err(r) => put_refusal(stdout, out, 0, r),
        Ok(n) => {
            let a = put(stdout, out, 0, b"ok ");
            let b = put_signed(stdout, out, a, n);
            put_last(stdout, out, b, &Rabin { state: n }.bytes())
        }
    }
}

fn put_refused(stdout: &mut Output, out: &mut [u8], why: Why, place: usize) -> usize {
    put_refusal(stdout, out, 0, Refusal { why, place, at: 0 })
}

fn rows(stdout: &mut Output, mem: &[u8], place: usize, out: &mut [u8]) -> usize {
    if !well_formed(mem) {
        return put_refused(stdout, out, Why::NotWellFormed, place);
    }
    if declarations(mem) <= place {
        return put_refused(stdout, out, Why::NoSuchPlace, place);
    }
    let start = rows_before(mem, place);
    let n = rows_of(mem, place);
    let end = put_rows(stdout, out, 0, mem, start, n);
    put(stdout, out, end, b"end\n")
}

fn scan(stdout: &mut Output, text: &[u8], out: &mut [u8]) -> usize {
    match json_scan::scan(text) {
        Ok(()) => put_ok(stdout, out),
        Err(f) => put_refusal(stdout, out, 0, f.placed(0)),
    }
}

fn digest(stdout: &mut Output, mem: &[u8], out: &mut [u8]) -> usize {
    let at = put(stdout, out, 0, b"digest");
    put_last(stdout, out, at, &Rabin::new().update(mem).bytes())
}

// The answer to a call; memory is what is lent to it.
pub(crate) fn answer(
    stdout: &mut Output,
    call: Call,
    text: &[u8],
    mem: &mut [u8],
    buffer: &mut [u8],
    out: &mut [u8],
) -> usize {
    match call {
        Call::Open => put_answer(stdout, out, set::open(mem)),
        Call::Put(place, n) => put_answer(stdout, out, set::put(mem, place, first(text, n))),
        Call::Name(place, row) => name(stdout, mem, place, row, out),
        Call::Canonical(place, offset, room) => canonical_text(
            stdout, mem, place, offset, room, buffer, out,
        ),
        Call::Fingerprint(place) => fingerprint(stdout, mem, place, out),
        Call::Rows(place) => rows(stdout, mem, place, out),
        Call::Scan(n) => scan(stdout, first(text, n), out),
        Call::Digest => digest(stdout, mem, out),
    }
}
