// Strings by the table: those without escapes as they stand in the text.
ghost use Rattle.std.specs.Prelude.{◌≡◌, ◌+◌, length, IfSome};
ghost use Rattle.ground.specs.Bytes.{same, store};
ghost use Rattle.view.specs.Known.{Known, Literal};
ghost use Rattle.view.specs.Strings.{string_at};

use super::strings::{read_copy, read_is, read_same};
use super::table::known;
use ground::{byte_at, copy, same};

// The string at `at` as it stands in the text, if its bytes are known to stand for themselves.
pub fn literal<'a>(text: &'a [u8], ends: &[u16], at: usize) -> Option<&'a [u8]>
    requires { Known text.now ends.now }
    ensures string { IfSome result (λ s. s.now ≡ string_at text.now at) }
    ensures ended { IfSome result (λ s. Literal text.now at (at + 2 + length s.now)) }
{
    if byte_at(text, at) != b'"' {
        return None;
    }
    let e = known(ends, at);
    if e == 0 {
        return None;
    }
    Some(&text[at + 1..e - 1])
}

// The string at `at` as far as there is room; returns its length.
pub fn string_copy(text: &[u8], ends: &[u16], at: usize, out: &mut [u8]) -> usize
    requires { Known text.now ends.now }
    ensures { (result ≡ length (string_at text.now at)) × (out.new ≡ store out.old 0 (string_at text.now at)) }
{
    if let Some(own) = literal(text, ends, at) {
        copy(out, 0, own);
        return own.len();
    }
    read_copy(text, at, out)
}

// Is the string at `at` the word?
pub fn string_is(text: &[u8], ends: &[u16], at: usize, word: &[u8]) -> bool
    requires { Known text.now ends.now }
    ensures { result ≡ same (string_at text.now at) word.now }
{
    if let Some(own) = literal(text, ends, at) {
        return same(own, word);
    }
    read_is(text, at, word)
}

// Are the strings at the two places the same?
pub fn strings_same(text: &[u8], ends: &[u16], one: usize, other: usize) -> bool
    requires { Known text.now ends.now }
    ensures { result ≡ same (string_at text.now one) (string_at text.now other) }
{
    if let Some(own) = literal(text, ends, other) {
        return string_is(text, ends, one, own);
    }
    read_same(text, one, other)
}
