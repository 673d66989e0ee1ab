// Size literals.
ghost use Rattle.std.specs.Prelude.{◌≡◌, ◌<◌};
ghost use Rattle.view.specs.Size.{size_of};

use super::bytes::{is_delimiter, is_digit};
use ground::byte_at;

// The number of digits only that stands at `at`, if there is one and it fits.
pub fn size_literal(text: &[u8], at: usize) -> Option<u64>
    ensures { result ≡ size_of text.now at }
{
    if !is_digit(byte_at(text, at)) {
        return None;
    }
    let mut v: u64 = 0;
    for p in at..text.len() {
        let b = text[p];
        if !is_digit(b) {
            return is_delimiter(b).then_some(v);
        }
        let d = u64::from(b - b'0');
        v = v.checked_mul(10)?.checked_add(d)?;
    }
    Some(v)
}
