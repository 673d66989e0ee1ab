// The words that are reserved as last part of a full name.
ghost use Rattle.std.specs.Prelude.{◌≡◌, map};
ghost use Rattle.name.specs.Name.{is_one_of, is_reserved};

use crate::last_part;
use ground::same;

const WORDS: [&[u8]; 11] = [
    b"null", b"boolean", b"int", b"long", b"float", b"double", b"bytes", b"string", b"record",
    b"enum", b"fixed",
];

fn is_one_of(s: &[u8], words: &[&[u8]]) -> bool
    ensures { result ≡ is_one_of (map (λ w. w.now) words.now) s.now }
{
    words.iter().any(|word| same(s, word))
}

// Asked of a name as written or of its full name: the last part is the same.
pub fn is_reserved(full: &[u8]) -> bool
    ensures { result ≡ is_reserved full.now }
{
    is_one_of(last_part(full), &WORDS)
}
