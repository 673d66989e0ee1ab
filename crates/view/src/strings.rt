// Strings with escapes undone.
ghost use Rattle.std.specs.Prelude.{◌≡◌, eqb, ◌<◌, ◌≤◌, length, set};
ghost use Rattle.ground.specs.Bytes.{byte_at, same, store};
ghost use Rattle.view.specs.Strings.{hex_of, unit_at, utf8_of, short_of, is_stop, part_of, Spells, part_at, left_of, Within, Reads, string_at, Plainly};

use ground::byte_at;

// A part of a string, undone: its first n bytes, and where the next part stands.
#[derive(Clone, Copy)]
pub struct Piece {
    pub next: usize,
    pub n: usize,
    pub bytes: [u8; 4],
}

// In a string: the part at `at`, of which the first `passed` bytes are read.
#[derive(Clone, Copy)]
pub struct Cursor {
    pub at: usize,
    pub passed: usize,
}

#[tactic(auto, unfolding(crate::specs::Strings::hex_of))]
fn hex(b: u8) -> u32
    ensures { (result ≡ hex_of b) × (result < 16) }
{
    match b {
        b'0'..=b'9' => u32::from(b - 48),
        b'A'..=b'F' => u32::from(b - 55),
        b'a'..=b'f' => u32::from(b - 87),
        _ => 0,
    }
}

// The number of four hexadecimal digits.
fn unit(text: &[u8], at: usize) -> u32
    requires { at < 18446744073709551600 }
    ensures { (result ≡ unit_at text.now at) × (result < 65536) }
{
    let a = hex(byte_at(text, at));
    let b = hex(byte_at(text, at + 1));
    let c = hex(byte_at(text, at + 2));
    let d = hex(byte_at(text, at + 3));
    a * 4096 + b * 256 + c * 16 + d
}

// A character in UTF-8.
fn utf8(code: u32, next: usize) -> Piece
    requires { code < 1114112 }
    ensures { Spells result (part_of next (utf8_of code)) }
{
    if code < 128 {
        return Piece {
            next,
            n: 1,
            bytes: [code as u8, 0, 0, 0],
        };
    }
    if code < 2048 {
        return Piece {
            next,
            n: 2,
            bytes: [(192 + code / 64) as u8, (128 + code % 64) as u8, 0, 0],
        };
    }
    if code < 65536 {
        return Piece {
            next,
            n: 3,
            bytes: [
                (224 + code / 4096) as u8,
                (128 + code / 64 % 64) as u8,
                (128 + code % 64) as u8,
                0,
            ],
        };
    }
    Piece {
        next,
        n: 4,
        bytes: [
            (240 + code / 262144) as u8,
            (128 + code / 4096 % 64) as u8,
            (128 + code / 64 % 64) as u8,
            (128 + code % 64) as u8,
        ],
    }
}

// What a letter after a backslash stands for.
#[tactic(auto, unfolding(crate::specs::Strings::short_of))]
fn short(b: u8) -> u8
    ensures { result ≡ short_of b }
{
    match b {
        b'b' => 8,
        b'f' => 12,
        b'n' => b'\n',
        b'r' => b'\r',
        b't' => b'\t',
        _ => b,
    }
}

// Does a string end at this byte? On scanned text at the closing quote alone.
#[tactic(auto, unfolding(crate::specs::Strings::is_stop))]
pub fn is_stop(b: u8) -> bool
    ensures { result ≡ is_stop b }
{
    b == b'"' || b < 32
}

// The escape whose backslash is at `at`.
fn escape_at(text: &[u8], at: usize) -> Piece
    requires { (at < length text.now) × (byte_at text.now at ≡ 92) }
    ensures { Spells result (part_at text.now at) }
{
    let c = byte_at(text, at + 1);
    if c != b'u' {
        return Piece {
            next: at + 2,
            n: 1,
            bytes: [short(c), 0, 0, 0],
        };
    }
    let u = unit(text, at + 2);
    if u / 1024 == 54 {
        let l = unit(text, at + 8);
        return utf8(65536 + u % 1024 * 1024 + l % 1024, at + 12);
    }
    utf8(u, at + 6)
}

// The part at `at`: the byte that stands there, or an escape.
pub fn part_at(text: &[u8], at: usize) -> Piece
    requires { at < length text.now }
    ensures { Spells result (part_at text.now at) }
{
    let b = byte_at(text, at);
    if b == b'\\' {
        return escape_at(text, at);
    }
    Piece {
        next: at + 1,
        n: 1,
        bytes: [b, 0, 0, 0],
    }
}

// The next byte of a string, and what comes behind it; none at its end.
pub fn next_byte(text: &[u8], c: Cursor) -> Option<(u8, Cursor)>
    requires { Within text.now c }
    ensures { Reads text.now (left_of text.now c) result }
{
    let at = c.at;
    let i = c.passed;
    let b = byte_at(text, at);
    if is_stop(b) {
        return None;
    }
    if b != b'\\' {
        let next = Cursor {
            at: at + 1,
            passed: 0,
        };
        return Some((b, next));
    }
    let x = escape_at(text, at);
    let bytes = x.bytes;
    let u = bytes[i];
    if i + 1 < x.n {
        return Some((u, Cursor { at, passed: i + 1 }));
    }
    let next = Cursor {
        at: x.next,
        passed: 0,
    };
    Some((u, next))
}

// Before the first byte of the string at `at`.
pub fn opening(text: &[u8], at: usize) -> Cursor
    ensures { (left_of text.now result ≡ string_at text.now at) × Within text.now result }
{
    if byte_at(text, at) == b'"' {
        return Cursor {
            at: at + 1,
            passed: 0,
        };
    }
    Cursor {
        at: text.len(),
        passed: 0,
    }
}

// Past the bytes at `at` that stand for themselves. Most letters stand behind both marks.
pub(crate) fn plain_end(text: &[u8], at: usize) -> usize
    requires { at ≤ length text.now }
    ensures { Plainly text.now at result }
{
    // A `for` over the places was tried: the table of a declaration took two fifths longer to fill.
    let mut p = at;
    while p < text.len() {
        let b = text[p];
        if b > b'\\' {
            p += 1;
            continue;
        }
        if b == b'\\' || is_stop(b) {
            return p;
        }
        p += 1;
    }
    p
}

fn spelled_length(text: &[u8], at: usize) -> usize
    ensures { result ≡ length (string_at text.now at) }
{
    let mut c = opening(text, at);
    // Where the next byte stands is told by the one before it, so no range fits.
    let mut n: usize = 0;
    while let Some((_, next)) = next_byte(text, c) {
        n += 1;
        c = next;
    }
    n
}

// The length of the string at `at`.
pub fn string_length(text: &[u8], at: usize) -> usize
    ensures { result ≡ length (string_at text.now at) }
{
    if byte_at(text, at) == b'"' {
        let start = at + 1;
        let e = plain_end(text, start);
        if is_stop(byte_at(text, e)) {
            return e - start;
        }
    }
    spelled_length(text, at)
}

// Has the string at `at` n bytes? No more of it is read than tells.
fn has_length(text: &[u8], at: usize, n: usize) -> bool
    ensures { result ≡ eqb (length (string_at text.now at)) n }
{
    let mut c = opening(text, at);
    // Where the next byte stands is told by the one before it, so no range fits.
    let mut more = n;
    while let Some((_, next)) = next_byte(text, c) {
        if more == 0 {
            return false;
        }
        more -= 1;
        c = next;
    }
    more == 0
}

// Is the string at `at` the word? What an escape is can be told from its front alone, so bytes are compared from the first.
pub(crate) fn read_is(text: &[u8], at: usize, word: &[u8]) -> bool
    ensures { result ≡ same (string_at text.now at) word.now }
{
    if !has_length(text, at, word.len()) {
        return false;
    }
    let mut c = opening(text, at);
    for x in word {
        let Some((b, next)) = next_byte(text, c) else {
            return false;
        };
        if *x != b {
            return false;
        }
        c = next;
    }
    true
}

// Stores a byte where there is room.
fn put(out: &mut [u8], i: usize, b: u8)
    ensures { out.new ≡ set out.old i b }
{
    if i < out.len() {
        out[i] = b;
    }
}

// The string at `at` as far as there is room; returns its length.
pub(crate) fn read_copy(text: &[u8], at: usize, out: &mut [u8]) -> usize
    ensures { (result ≡ length (string_at text.now at)) × (out.new ≡ store out.old 0 (string_at text.now at)) }
{
    let mut c = opening(text, at);
    // Where the next byte stands is told by the one before it, so no range fits.
    let mut i: usize = 0;
    while let Some((b, next)) = next_byte(text, c) {
        put(out, i, b);
        i += 1;
        c = next;
    }
    i
}

// Are the strings at the two places the same?
pub(crate) fn read_same(text: &[u8], one: usize, other: usize) -> bool
    ensures { result ≡ same (string_at text.now one) (string_at text.now other) }
{
    if !has_length(text, one, string_length(text, other)) {
        return false;
    }
    let mut c = opening(text, one);
    let mut d = opening(text, other);
    while let Some((a, after)) = next_byte(text, c) {
        let Some((b, behind)) = next_byte(text, d) else {
            return false;
        };
        if a != b {
            return false;
        }
        c = after;
        d = behind;
    }
    true
}
