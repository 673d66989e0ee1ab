// Characters of several bytes (RFC 3629).
ghost use Rattle.std.specs.Prelude.{◌≡◌, ◌<◌, get_or, length};
ghost use Rattle.json_scan.specs.Json.{inside, Place};
ghost use Rattle.json_scan.specs.Meets.{Wide, one_of, then_one};

use crate::byte::inside;
use crate::step::{Step, bad, within};

// Two or three bytes of a character after its first.
pub(crate) fn two_more(text: &[u8], at: usize, lo: u8, hi: u8) -> Step
    requires { 0 < lo }
    ensures { result ≡ then_one (inside 128 191) text.now (one_of (inside lo hi) text.now at) }
{
    let e = within(text, at, lo, hi)?;
    within(text, e, 0x80, 0xbf)
}

pub(crate) fn three_more(text: &[u8], at: usize, lo: u8, hi: u8) -> Step
    requires { 0 < lo }
    ensures { result ≡ then_one (inside 128 191) text.now (then_one (inside 128 191) text.now (one_of (inside lo hi) text.now at)) }
{
    let e = two_more(text, at, lo, hi)?;
    within(text, e, 0x80, 0xbf)
}

// A character of more than one byte, whose first is b.
// A `match` was tried: texts of escapes and characters of several lengths took a tenth longer.
pub(crate) fn wide_char(text: &[u8], at: usize, b: u8) -> Step
    requires within { at < length text.now }
    requires first { b ≡ get_or text.now at 0 }
    ensures { (w : Place) → Wide w text.now at b result }
{
    if inside(0xc2, 0xdf, b) {
        within(text, at + 1, 0x80, 0xbf)
    } else if b == 0xe0 {
        two_more(text, at + 1, 0xa0, 0xbf)
    } else if b == 0xed {
        two_more(text, at + 1, 0x80, 0x9f)
    } else if inside(0xe1, 0xef, b) {
        two_more(text, at + 1, 0x80, 0xbf)
    } else if b == 0xf0 {
        three_more(text, at + 1, 0x90, 0xbf)
    } else if b == 0xf4 {
        three_more(text, at + 1, 0x80, 0x8f)
    } else if inside(0xf1, 0xf3, b) {
        three_more(text, at + 1, 0x80, 0xbf)
    } else {
        bad(at)
    }
}
