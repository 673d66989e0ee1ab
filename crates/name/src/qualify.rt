// The full name of a name in a namespace.
ghost use Rattle.std.specs.Prelude.{◌≡◌, ◌∷◌, ◌++◌};
ghost use Rattle.name.specs.Name.{dot, full_name};
ghost use Rattle.name.specs.Full.{answer_of, buffer_after};

use crate::has_dot;
use crate::rule::starts_with_dot;
use ground::copy;

// A full name, of which so many bytes at most are kept.
#[derive(Clone, Copy)]
pub struct Full {}

impl Full {
    pub const LONGEST: usize = 255;
}

// A full name that stands in one piece.
fn keep(s: &[u8], out: &mut [u8; Full::LONGEST]) -> Option<usize>
    ensures { (result ≡ answer_of s.now) × (out.new ≡ buffer_after out.old s.now) }
{
    let n = s.len();
    if Full::LONGEST < n {
        return None;
    }
    copy(out, 0, s);
    Some(n)
}

// Namespace, dot, name.
fn keep_within(namespace: &[u8], s: &[u8], out: &mut [u8; Full::LONGEST]) -> Option<usize>
    ensures { (result ≡ answer_of (namespace.now ++ (dot ∷ s.now))) × (out.new ≡ buffer_after out.old (namespace.now ++ (dot ∷ s.now))) }
{
    let before = namespace.len();
    let n = before + 1 + s.len();
    if Full::LONGEST < n {
        return None;
    }
    copy(out, 0, namespace);
    out[before] = b'.';
    copy(out, before + 1, s);
    Some(n)
}

// The full name of a name as it is written, in an enclosing namespace. The buffer is as long as the longest that is
// kept, so there is room for whatever fits, and what does not fit leaves it as it was.
pub fn full_name(namespace: &[u8], written: &[u8], out: &mut [u8; Full::LONGEST]) -> Option<usize>
    ensures { (result ≡ answer_of (full_name namespace.now written.now)) × (out.new ≡ buffer_after out.old (full_name namespace.now written.now)) }
{
    if starts_with_dot(written) {
        return keep(&written[1..], out);
    }
    if namespace.len() == 0 {
        return keep(written, out);
    }
    if has_dot(written) {
        return keep(written, out);
    }
    keep_within(namespace, written, out)
}
