// Decimal numbers: digits only, no sign.
ghost use Rattle.std.specs.Prelude.{◌≡◌};
ghost use Rattle.script.specs.Numbers.{number_of, octet_of};

// The number that a word is, if it is one and fits.
pub fn decimal(word: &[u8]) -> Option<usize>
    ensures { result ≡ number_of word.now }
{
    if word.is_empty() {
        return None;
    }
    let mut v: usize = 0;
    for b in word {
        if !b.is_ascii_digit() {
            return None;
        }
        v = v.checked_mul(10)?.checked_add(usize::from(*b - b'0'))?;
    }
    Some(v)
}

// A number that fits a byte.
#[tactic(auto, unfolding(crate::specs::Numbers::octet_of))]
pub fn decimal_byte(word: &[u8]) -> Option<u8>
    ensures { result ≡ octet_of (number_of word.now) }
{
    u8::try_from(decimal(word)?).ok()
}
