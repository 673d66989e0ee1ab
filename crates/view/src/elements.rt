// The elements of an array.
ghost use Rattle.std.specs.Prelude.{◌≡◌};
ghost use Rattle.view.specs.Known.{Known};
ghost use Rattle.view.specs.Elements.{value_from, first_element, next_element};

use super::ends::end;
use super::shape::starts_value;
use super::space::skip;
use ground::byte_at;

// The value past the white space at `at`, if one stands there.
fn value_from(text: &[u8], at: usize) -> Option<usize>
    ensures { result ≡ value_from text.now at }
{
    let p = skip(text, at);
    if starts_value(byte_at(text, p)) {
        return Some(p);
    }
    None
}

// The first element of the array at `at`.
pub fn first_element(text: &[u8], at: usize) -> Option<usize>
    ensures { result ≡ first_element text.now at }
{
    if byte_at(text, at) == b'[' {
        return value_from(text, at + 1);
    }
    None
}

// The element behind the one at `at`.
pub fn next_element(text: &[u8], ends: &[u16], at: usize) -> Option<usize>
    requires { Known text.now ends.now }
    ensures { result ≡ next_element text.now at }
{
    let e = skip(text, end(text, ends, at));
    if byte_at(text, e) == b',' {
        return value_from(text, e + 1);
    }
    None
}
