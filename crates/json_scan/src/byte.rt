// Classes of bytes.

ghost use Rattle.std.specs.Prelude.{◌≡◌};
ghost use Rattle.json_scan.specs.Json.{is_space, is_unescaped, is_digit, is_hex, is_d, is_e, is_sign, is_high, is_low, is_short, inside};

// Four tests, most often met first: `matches!` was tried, and deeply nested brackets took a sixth longer.
pub(crate) fn is_space(b: u8) -> bool
    ensures { result ≡ is_space b }
{
    b == b' ' || b == b'\t' || b == b'\n' || b == b'\r'
}

pub(crate) fn is_unescaped(b: u8) -> bool
    ensures { result ≡ is_unescaped b }
{
    32 <= b && b <= 127 && b != b'"' && b != b'\\'
}

// Is b from lo to hi?
pub(crate) fn inside(lo: u8, hi: u8, b: u8) -> bool
    ensures { result ≡ inside lo hi b }
{
    lo <= b && b <= hi
}

pub(crate) fn is_digit(b: u8) -> bool
    ensures { result ≡ is_digit b }
{
    b.is_ascii_digit()
}

// `is_ascii_hexdigit` was tried: texts of escapes took a twelfth longer.
pub(crate) fn is_hex(b: u8) -> bool
    ensures { result ≡ is_hex b }
{
    inside(b'0', b'9', b) || inside(b'A', b'F', b) || inside(b'a', b'f', b)
}

pub(crate) fn is_d(b: u8) -> bool
    ensures { result ≡ is_d b }
{
    b == b'd' || b == b'D'
}

pub(crate) fn is_e(b: u8) -> bool
    ensures { result ≡ is_e b }
{
    b == b'e' || b == b'E'
}

pub(crate) fn is_sign(b: u8) -> bool
    ensures { result ≡ is_sign b }
{
    b == b'+' || b == b'-'
}

// The second digit of a high surrogate, and of a low one.
pub(crate) fn is_high(b: u8) -> bool
    ensures { result ≡ is_high b }
{
    inside(b'8', b'9', b) || inside(b'A', b'B', b) || inside(b'a', b'b', b)
}

pub(crate) fn is_low(b: u8) -> bool
    ensures { result ≡ is_low b }
{
    inside(b'C', b'F', b) || inside(b'c', b'f', b)
}

pub(crate) fn is_short(b: u8) -> bool
    ensures { result ≡ is_short b }
{
    matches!(b, b'"' | b'\\' | b'/' | b'b' | b'f' | b'n' | b'r' | b't')
}
