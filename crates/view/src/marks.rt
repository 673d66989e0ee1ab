// The marks of strings: numbers by which most strings that differ are told apart.
ghost use Rattle.std.specs.Prelude.{◌≡◌, ◌+◌, ◌*◌, ◌<◌, ◌≤◌, length, get_or, drop};
ghost use Rattle.view.specs.Known.{Known};
ghost use Rattle.view.specs.Marks.{mark_step, marking, marked, mark_from, mark_of, Held};
ghost use Rattle.view.specs.Strings.{string_at};

use super::literals::literal;
use super::strings::{next_byte, opening};

// What a mark begins with.
const START: u64 = 1442695040888963407;

// In a string: the mark of the bytes that were read, but for the last n, at most two, whose number is w.
#[derive(Clone, Copy)]
pub struct Marking {
    pub h: u64,
    pub w: u64,
    pub n: u64,
}

// The mark with the number of some bytes behind it.
#[tactic(auto, unfolding(crate::specs::Marks::mark_step))]
fn more(h: u64, w: u64) -> u64
    requires { w < 67108864 }
    ensures { result ≡ mark_step h w }
{
    h % 4294967296 * (2654435769 + w) + h / 4294967296 + w
}

// The number of three bytes.
fn three(s: &[u8], i: usize) -> u64
    requires { i + 2 < length s.now }
    ensures { (result ≡ get_or s.now i 0 + 256 * get_or s.now (i + 1) 0 + 65536 * get_or s.now (i + 2) 0) × (result < 16777216) }
{
    let a = u64::from(s[i]);
    let b = u64::from(s[i + 1]);
    let c = u64::from(s[i + 2]);
    a + 256 * b + 65536 * c
}

// The mark with the last bytes, from a place on, of which there are at most two.
fn last(h: u64, s: &[u8], i: usize) -> u64
    requires { (i ≤ length s.now) × (length s.now ≤ i + 2) }
    ensures { result ≡ mark_from (marking h 0 0) (drop i s.now) }
{
    let left = s.len() - i;
    if left == 0 {
        return more(h, 0);
    }
    let a = u64::from(s[i]);
    if left == 1 {
        return more(h, a + 16777216);
    }
    let b = u64::from(s[i + 1]);
    more(h, a + 256 * b + 33554432)
}

// The mark of these bytes, three at a turn.
pub fn mark_of(s: &[u8]) -> u64
    ensures { result ≡ mark_of s.now }
{
    let mut h: u64 = START;
    let turns = s.len() / 3;
    for i in 0..turns {
        h = more(h, three(s, 3 * i));
    }
    last(h, s, 3 * turns)
}

// One byte more.
fn with_byte(m: Marking, b: u8) -> Marking
    requires { Held m }
    ensures { (result ≡ marked m b) × Held result }
{
    let x = u64::from(b);
    match m.n {
        0 => Marking { w: x, n: 1, ..m },
        1 => Marking {
            w: m.w + 256 * x,
            n: 2,
            ..m
        },
        _ => Marking {
            h: more(m.h, m.w + 65536 * x),
            w: 0,
            n: 0,
        },
    }
}

// The same of a string with escapes, a byte at a turn.
fn spelled_mark(text: &[u8], at: usize) -> u64
    ensures { result ≡ mark_of (string_at text.now at) }
{
    let mut c = opening(text, at);
    let mut m = Marking {
        h: START,
        w: 0,
        n: 0,
    };
    while let Some((b, next)) = next_byte(text, c) {
        m = with_byte(m, b);
        c = next;
    }
    more(m.h, m.w + 16777216 * m.n)
}

// The mark of the string at `at`.
pub fn mark(text: &[u8], ends: &[u16], at: usize) -> u64
    requires { Known text.now ends.now }
    ensures { result ≡ mark_of (string_at text.now at) }
{
    if let Some(own) = literal(text, ends, at) {
        return mark_of(own);
    }
    spelled_mark(text, at)
}
