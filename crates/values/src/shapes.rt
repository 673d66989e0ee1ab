// What the value at a place of a text is.
ghost use Rattle.std.specs.Prelude.{◌≡◌, ◌<◌};
ghost use Rattle.view.specs.Strings.{string_at};
ghost use Rattle.values.specs.Values.{is_null, is_boolean, is_number, is_string, is_array, is_object, up_to, is_whole, goes_on, is_bytes, is_fixed};
ghost use Rattle.values.specs.Steps.{narrow_size};

use ground::byte_at;
use view::{next_byte, opening, size_literal};

pub fn is_null(text: &[u8], at: usize) -> bool
    ensures { result ≡ is_null text.now at }
{
    byte_at(text, at) == b'n'
}

#[tactic(auto, unfolding(crate::specs::Values::is_boolean))]
pub fn is_boolean(text: &[u8], at: usize) -> bool
    ensures { result ≡ is_boolean text.now at }
{
    matches!(byte_at(text, at), b't' | b'f')
}

#[tactic(auto, unfolding(crate::specs::Values::is_number))]
pub fn is_number(text: &[u8], at: usize) -> bool
    ensures { result ≡ is_number text.now at }
{
    matches!(byte_at(text, at), b'-' | b'0'..=b'9')
}

pub fn is_string(text: &[u8], at: usize) -> bool
    ensures { result ≡ is_string text.now at }
{
    byte_at(text, at) == b'"'
}

pub fn is_array(text: &[u8], at: usize) -> bool
    ensures { result ≡ is_array text.now at }
{
    byte_at(text, at) == b'['
}

pub fn is_object(text: &[u8], at: usize) -> bool
    ensures { result ≡ is_object text.now at }
{
    byte_at(text, at) == b'{'
}

#[tactic(auto, unfolding(crate::specs::Values::up_to))]
fn up_to(most: u64, size: Option<u64>) -> bool
    ensures { result ≡ up_to most size }
{
    size.is_some_and(|v| v <= most)
}

// A whole number from -half up to half - 1.
pub fn is_whole(text: &[u8], at: usize, half: u64) -> bool
    requires { 0 < half }
    ensures { result ≡ is_whole half text.now at }
{
    if byte_at(text, at) == b'-' {
        return up_to(half, size_literal(text, at + 1));
    }
    up_to(half - 1, size_literal(text, at))
}

#[tactic(auto, unfolding(crate::specs::Values::goes_on))]
fn goes_on(b: u8) -> bool
    ensures { result ≡ goes_on b }
{
    matches!(b, 0x80..=0xbf)
}

// How many characters the string at `at` has, if each is one up to U+00FF.
fn narrow_size(text: &[u8], at: usize) -> Option<u64>
    ensures { result ≡ narrow_size (string_at text.now at) }
{
    let mut c = opening(text, at);
    let mut n: u64 = 0;
    while let Some((b, next)) = next_byte(text, c) {
        if 0xc4 <= b {
            return None;
        }
        c = next;
        if goes_on(b) {
            continue;
        }
        n += 1;
    }
    Some(n)
}

#[tactic(auto, unfolding(crate::specs::Values::is_bytes, crate::specs::Steps::narrow_size))]
pub fn is_bytes(text: &[u8], at: usize) -> bool
    ensures { result ≡ is_bytes text.now at }
{
    is_string(text, at) && narrow_size(text, at).is_some()
}

#[tactic(auto, unfolding(crate::specs::Values::is_fixed, crate::specs::Values::is_bytes, crate::specs::Steps::narrow_size))]
pub fn is_fixed(text: &[u8], at: usize, size: u64) -> bool
    ensures { result ≡ is_fixed size text.now at }
{
    is_string(text, at) && narrow_size(text, at) == Some(size)
}
