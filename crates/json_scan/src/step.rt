// Readers of one byte, of white space and of a word.
ghost use Rattle.std.specs.List.{All};
ghost use Rattle.std.specs.Prelude.{◌≡◌, ℕ, Bool, true, false, ◌<◌, length, Err};
ghost use Rattle.json_scan.specs.Json.{is_space, is_byte, inside, done, spelt};
ghost use Rattle.json_scan.specs.Meets.{Passes, Reads, one_of, took};

use crate::byte::{inside, is_space};
use answer::{Fault, Why};
use ground::byte_at;

// Where a reader stopped: past what it read, or at a fault.
pub(crate) type Step = Result<usize, Fault>;

// After an element: another one follows, or the bracket is closed.
#[derive(Clone, Copy)]
pub(crate) enum More {
    Again(usize),
    Closed(usize),
}

pub(crate) fn bad(at: usize) -> Step
    ensures { result ≡ Err (record { why = Why.NotJson; at = at }) }
{
    Err(Fault {
        why: Why::NotJson,
        at,
    })
}

// Past the bytes of a class.
pub(crate) fn past<F: Fn(u8) -> bool>(text: &[u8], from: usize, is: F) -> usize
    requires { F.IsAlwaysCallable is }
    ensures { (c : ℕ → Bool) → ((b : ℕ) (r : Bool) → F.post is b r → r ≡ c b) → c 0 ≡ false → Passes c text.now from result }
{
    for at in from..text.len() {
        if !is(text[at]) {
            return at;
        }
    }
    text.len().max(from)
}

// Past the white space.
pub(crate) fn skip(text: &[u8], from: usize) -> usize
    ensures { Passes is_space text.now from result }
{
    past(text, from, is_space)
}

// Past the byte, if it is what must come.
pub(crate) fn take(text: &[u8], at: usize, ok: bool) -> Step
    requires { ok ≡ true → at < length text.now }
    ensures { result ≡ took ok at }
{
    if ok { Ok(at + 1) } else { bad(at) }
}

// One byte from lo to hi.
pub(crate) fn within(text: &[u8], at: usize, lo: u8, hi: u8) -> Step
    requires { 0 < lo }
    ensures { result ≡ one_of (inside lo hi) text.now at }
{
    let b = byte_at(text, at);
    let ok = inside(lo, hi, b);
    take(text, at, ok)
}

// The one byte x.
pub(crate) fn byte(text: &[u8], at: usize, x: u8) -> Step
    requires { 0 < x }
    ensures { result ≡ one_of (is_byte x) text.now at }
{
    let b = byte_at(text, at);
    take(text, at, b == x)
}

// The rest of a literal, which is not empty, and has no byte 0.
pub(crate) fn literal(text: &[u8], from: usize, word: &[u8]) -> Step
    requires some { 0 < length word.now }
    requires letters { All (λ x. 0 < x) word.now }
    ensures { Reads text.now from (spelt word.now) done result }
{
    let mut at = from;
    for x in word {
        at = byte(text, at, *x)?;
    }
    Ok(at)
}
