// Numbers (RFC 8259, section 6).
ghost use Rattle.json_scan.specs.Json.{is_digit, done, num, e, minus};
ghost use Rattle.json_scan.specs.Meets.{Passes, Reads, Digits, Ends, powered, pointed};

use crate::byte::{is_digit, is_e, is_sign};
use crate::step::{Step, past, within};
use ground::byte_at;

// Past the digits.
pub(crate) fn digits(text: &[u8], from: usize) -> usize
    ensures { Passes is_digit text.now from result }
{
    past(text, from, is_digit)
}

// One digit or more.
pub(crate) fn some_digits(text: &[u8], from: usize) -> Step
    ensures { Digits text.now from result }
{
    let e = within(text, from, b'0', b'9')?;
    Ok(digits(text, e))
}

// An exponent, after its e.
pub(crate) fn power(text: &[u8], at: usize) -> Step
    ensures { Reads text.now at (num e) done result }
{
    if is_sign(byte_at(text, at)) {
        some_digits(text, at + 1)
    } else {
        some_digits(text, at)
    }
}

// An exponent, which may be missing.
pub(crate) fn exponent(text: &[u8], at: usize) -> Step
    ensures { Ends powered text.now at result }
{
    if is_e(byte_at(text, at)) {
        power(text, at + 1)
    } else {
        Ok(at)
    }
}

// A fraction and an exponent, each of which may be missing.
pub(crate) fn fraction(text: &[u8], at: usize) -> Step
    ensures { Ends pointed text.now at result }
{
    if byte_at(text, at) == b'.' {
        let e = some_digits(text, at + 1)?;
        exponent(text, e)
    } else {
        exponent(text, at)
    }
}

// A number from its first digit.
pub(crate) fn number(text: &[u8], at: usize) -> Step
    ensures { Reads text.now at (num minus) done result }
{
    if byte_at(text, at) == b'0' {
        fraction(text, at + 1)
    } else {
        let e = some_digits(text, at)?;
        fraction(text, e)
    }
}
