// The characters of a string in the text.
ghost use Rattle.std.specs.Prelude.{◌≡◌, ◌<◌, ◌≤◌, length, take};
ghost use Rattle.view.specs.Strings.{Spells};
ghost use Rattle.breach.specs.Characters.{size_of, character_at, code_of, code_at};

use ground::byte_at;
use view::{Piece, part_at};

// How many bytes a character has, by the first of them.
fn size_of(b: u8) -> usize
    ensures { result ≡ size_of b }
{
    if b < 192 {
        return 1;
    }
    if b < 224 {
        return 2;
    }
    if b < 240 {
        return 3;
    }
    4
}

// The character at `at`, by its own bytes or by an escape.
pub(crate) fn character_at(text: &[u8], at: usize) -> Piece
    requires { at < length text.now }
    ensures { Spells result (character_at text.now at) }
{
    let a = byte_at(text, at);
    let n = size_of(a);
    if n == 1 {
        return part_at(text, at);
    }
    let b = byte_at(text, at + 1);
    let c = byte_at(text, at + 2);
    let d = byte_at(text, at + 3);
    Piece {
        next: at + n,
        n,
        bytes: [a, b, c, d],
    }
}

// The code point of a character of n bytes.
fn code_of(n: usize, bytes: [u8; 4]) -> u32
    requires { (0 < n) × (n ≤ 4) }
    ensures { result ≡ code_of (take n bytes) }
{
    let a = bytes[0] as u32;
    let b = (bytes[1] % 64) as u32;
    let c = (bytes[2] % 64) as u32;
    let d = (bytes[3] % 64) as u32;
    if n == 1 {
        return a;
    }
    if n == 2 {
        return a % 32 * 64 + b;
    }
    if n == 3 {
        return a % 16 * 4096 + b * 64 + c;
    }
    a % 8 * 262144 + b * 4096 + c * 64 + d
}

// The code point of the character or escape at `at`.
pub fn code_at(text: &[u8], at: usize) -> u32
    ensures { result ≡ code_at text.now at }
{
    if at < text.len() {
        let x = character_at(text, at);
        let bytes = x.bytes;
        return code_of(x.n, bytes);
    }
    0
}
