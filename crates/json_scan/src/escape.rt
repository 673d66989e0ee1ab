// Escapes in strings: a surrogate is half of a pair.
ghost use Rattle.std.specs.Prelude.{◌≡◌};
ghost use Rattle.json_scan.specs.Json.{is_hex, str, plain, esc, h1, h2d, g5, g7, Place};
ghost use Rattle.json_scan.specs.Meets.{Reads, one_of, then_one};

use crate::byte::{inside, is_d, is_hex, is_high, is_low, is_short};
use crate::step::{Step, bad, byte, take};
use ground::byte_at;

// One hexadecimal digit.
pub(crate) fn hex(text: &[u8], at: usize) -> Step
    ensures { result ≡ one_of is_hex text.now at }
{
    let b = byte_at(text, at);
    let ok = is_hex(b);
    take(text, at, ok)
}

pub(crate) fn two_hex(text: &[u8], at: usize) -> Step
    ensures { result ≡ then_one is_hex text.now (one_of is_hex text.now at) }
{
    let e = hex(text, at)?;
    hex(text, e)
}

// The low half of a pair of surrogates, after the high one.
pub(crate) fn low_half(text: &[u8], at: usize) -> Step
    ensures { (w : Place) → Reads text.now at (str w g5) (str w plain) result }
{
    let e = byte(text, at, b'\\')?;
    let g = byte(text, e, b'u')?;
    low_digits(text, g)
}

pub(crate) fn low_digits(text: &[u8], at: usize) -> Step
    ensures { (w : Place) → Reads text.now at (str w g7) (str w plain) result }
{
    if !is_d(byte_at(text, at)) {
        return bad(at);
    }
    let next = at + 1;
    if !is_low(byte_at(text, next)) {
        return bad(next);
    }
    two_hex(text, next + 1)
}

// After the first digit d of an escape.
pub(crate) fn after_d(text: &[u8], at: usize) -> Step
    ensures { (w : Place) → Reads text.now at (str w h2d) (str w plain) result }
{
    let b = byte_at(text, at);
    if inside(48, 55, b) {
        return two_hex(text, at + 1);
    }
    if !is_high(b) {
        return bad(at);
    }
    let e = two_hex(text, at + 1)?;
    low_half(text, e)
}

// The four digits of an escape.
pub(crate) fn four_hex(text: &[u8], at: usize) -> Step
    ensures { (w : Place) → Reads text.now at (str w h1) (str w plain) result }
{
    if is_d(byte_at(text, at)) {
        return after_d(text, at + 1);
    }
    let e = two_hex(text, at)?;
    two_hex(text, e)
}

pub(crate) fn escape(text: &[u8], at: usize) -> Step
    ensures { (w : Place) → Reads text.now at (str w esc) (str w plain) result }
{
    let b = byte_at(text, at);
    if is_short(b) {
        Ok(at + 1)
    } else if b == b'u' {
        four_hex(text, at + 1)
    } else {
        bad(at)
    }
}
