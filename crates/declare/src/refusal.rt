// A refusal: its number, place and position, what it means, and where in the text that is.
use crate::excerpt::put_excerpt;
use crate::sentences::sentence;
use answer::{Refusal, Why};
use breach::code_at;
use script::output::{Output, put, put_decimal};

// A refusal that the set gives has no byte of the text: its position is 0.
fn has_byte(why: Why) -> bool {
    !matches!(
        why,
        Why::NotWellFormed
            | Why::NoSuchPlace
            | Why::TooManyDeclarations
            | Why::TooManyRows
            | Why::TooManyStringBytes
    )
}

fn put_numbers(stdout: &mut Output, out: &mut [u8], at: usize, r: Refusal) -> usize {
    let a = put(stdout, out, at, b": refusal ");
    let b = put_decimal(stdout, out, a, u64::from(r.why.number()));
    let c = put(stdout, out, b, b", place ");
    let d = put_decimal(stdout, out, c, r.place as u64);
    let e = put(stdout, out, d, b", position ");
    let f = put_decimal(stdout, out, e, r.at as u64);
    put(stdout, out, f, b"\n")
}

// The code point of the character that a refused name has at the position, or of the closing quote.
fn letter(text: &[u8], r: Refusal) -> Option<u32> {
    match r.why {
        Why::NotAName => Some(code_at(text, r.at)),
        _ => None,
    }
}

fn put_where(stdout: &mut Output, out: &mut [u8], at: usize, text: &[u8], r: Refusal) -> usize {
    if !has_byte(r.why) {
        return at;
    }
    if text.is_empty() {
        return put(stdout, out, at, b"  The text is empty.\n");
    }
    put_excerpt(stdout, out, at, text, r.at, letter(text, r))
}

pub(crate) fn put_refusal(
    stdout: &mut Output,
    out: &mut [u8],
    at: usize,
    text: &[u8],
    r: Refusal,
) -> usize {
    let a = put_numbers(stdout, out, at, r);
    let b = put(stdout, out, a, b"  ");
    let c = put(stdout, out, b, sentence(r.why));
    let d = put(stdout, out, c, b"\n");
    let e = put_where(stdout, out, d, text, r);
    put(stdout, out, e, b"\n")
}
