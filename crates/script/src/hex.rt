// Bytes in lowercase hexadecimal digits; no bytes are written `-`.
ghost use Rattle.std.specs.Prelude.{◌≡◌, ◌<◌, length};
ghost use Rattle.ground.specs.Bytes.{store};
ghost use Rattle.script.specs.Hex.{is_hex, nibble, all_hex, bytes_of, is_bytes, unhexed, word_bytes};

use ground::{copy, same};

fn is_hex(b: u8) -> bool
    ensures { result ≡ is_hex b }
{
    matches!(b, b'0'..=b'9' | b'a'..=b'f')
}

// What a digit stands for; 0 for any other byte.
pub fn nibble(b: u8) -> u8
    ensures { (result ≡ nibble b) × (result < 16) }
{
    match b {
        b'0'..=b'9' => b - b'0',
        b'a'..=b'f' => b - b'a' + 10,
        _ => 0,
    }
}

fn all_hex(word: &[u8]) -> bool
    ensures { result ≡ all_hex word.now }
{
    word.iter().all(|b| is_hex(*b))
}

// Does a word stand for bytes?
#[tactic(auto, unfolding(crate::specs::Hex::is_bytes))]
fn is_bytes(word: &[u8]) -> bool
    ensures { result ≡ is_bytes word.now }
{
    same(word, b"-") || (!word.is_empty() && word.len() % 2 == 0 && all_hex(word))
}

// The bytes that pairs of digits stand for, as far as there is room; answers how many there are.
fn pairs(word: &[u8], out: &mut [u8]) -> usize
    ensures { (result ≡ length (bytes_of word.now)) × (out.new ≡ store out.old 0 (bytes_of word.now)) }
{
    let count = word.len() / 2;
    for n in 0..count {
        let byte = nibble(word[2 * n]) * 16 + nibble(word[2 * n + 1]);
        copy(out, n, &[byte]);
    }
    count
}

// The bytes of a word, as far as there is room for them; answers how many there are, if it stands for bytes.
#[tactic(auto, using(ground::proofs::Laws::store_none), unfolding(crate::specs::Hex::unhexed, crate::specs::Hex::word_bytes))]
pub fn unhex(word: &[u8], out: &mut [u8]) -> Option<usize>
    ensures { (result ≡ unhexed word.now) × (out.new ≡ store out.old 0 (word_bytes word.now)) }
{
    if is_bytes(word) {
        Some(pairs(word, out))
    } else {
        None
    }
}
