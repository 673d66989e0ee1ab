// The lines of answers. Each is put at the start of the output buffer; how many bytes there are then comes back.
use answer::{Answer, Counts, Refusal};
use script::answers::{put_refusal, put_spaced};
use script::output::{Output, put, put_hex};

pub(crate) fn put_ok(stdout: &mut Output, out: &mut [u8]) -> usize {
    put(stdout, out, 0, b"ok\n")
}

pub(crate) fn put_what(stdout: &mut Output, out: &mut [u8]) -> usize {
    put(stdout, out, 0, b"what?\n")
}

// A space, bytes, and the line's end.
pub(crate) fn put_last(stdout: &mut Output, out: &mut [u8], at: usize, bytes: &[u8]) -> usize {
    let a = put(stdout, out, at, b" ");
    let b = put_hex(stdout, out, a, bytes);
    put(stdout, out, b, b"\n")
}

fn put_counts(stdout: &mut Output, out: &mut [u8], counts: Counts) -> usize {
    let a = put(stdout, out, 0, b"ok");
    let b = put_spaced(stdout, out, a, counts.declarations as u64);
    let c = put_spaced(stdout, out, b, counts.rows as u64);
    let d = put_spaced(stdout, out, c, counts.string_bytes as u64);
    put(stdout, out, d, b"\n")
}

pub(crate) fn put_answer(stdout: &mut Output, out: &mut [u8], answer: Answer<Counts>) -> usize {
    match answer {
        Ok(c) => put_counts(stdout, out, c),
        Err(r) => put_refusal(stdout, out, 0, r),
    }
}

// A refusal, and the caller's buffer afterwards.
pub(crate) fn put_refusal_with(
    stdout: &mut Output,
    out: &mut [u8],
    r: Refusal,
    bytes: &[u8],
) -> usize {
    let a = put(stdout, out, 0, b"refused");
    let b = put_spaced(stdout, out, a, u64::from(r.why.number()));
    let c = put_spaced(stdout, out, b, r.place as u64);
    let d = put_spaced(stdout, out, c, r.at as u64);
    put_last(stdout, out, d, bytes)
}
