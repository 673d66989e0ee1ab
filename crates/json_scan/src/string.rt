// Strings.
ghost use Rattle.std.specs.Prelude.{◌≡◌, ◌≢◌, ◌<◌, get_or, length};
ghost use Rattle.json_scan.specs.Json.{str, plain, Place, closed, is_unescaped};
ghost use Rattle.json_scan.specs.Meets.{Passes, Reads};

use crate::byte::is_unescaped;
use crate::escape::escape;
use crate::step::{Step, bad, past};
use crate::utf8::wide_char;

// Past the bytes that stand for themselves.
pub(crate) fn unescaped(text: &[u8], from: usize) -> usize
    ensures { Passes is_unescaped text.now from result }
{
    past(text, from, is_unescaped)
}

// One character or escape of a string, whose first byte is b, and no quote.
// A `match` was tried: texts of escapes took a tenth longer.
pub(crate) fn piece(text: &[u8], at: usize, b: u8) -> Step
    requires within { at < length text.now }
    requires first { b ≡ get_or text.now at 0 }
    requires no_quote { b ≢ 34 }
    ensures { (w : Place) → Reads text.now at (str w plain) (str w plain) result }
{
    if b < 32 {
        bad(at)
    } else if b == 92 {
        escape(text, at + 1)
    } else if b < 128 {
        Ok(at + 1)
    } else {
        wide_char(text, at, b)
    }
}

// A string from the byte after its first quote. What stands at a place decides where the next one is, so no range or iterator fits.
pub(crate) fn string(text: &[u8], from: usize) -> Step
    ensures { (w : Place) → Reads text.now from (str w plain) (closed w) result }
{
    let mut at = from;
    while at < text.len() {
        at = unescaped(text, at);
        if at >= text.len() {
            return bad(at);
        }
        let b = text[at];
        if b == b'"' {
            return Ok(at + 1);
        }
        at = piece(text, at, b)?;
    }
    bad(at)
}
