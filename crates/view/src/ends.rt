// Where a value ends.
ghost use Rattle.std.specs.Prelude.{◌≡◌, ◌||◌, ◌+◌, ◌-◌, ◌≤◌, ◌<◌, eqb};
ghost use Rattle.view.specs.Known.{Known};
ghost use Rattle.view.specs.Ends.{literal_end, depth_after, closing_of, end_of};

use super::bytes::is_delimiter;
use super::table::known;
use ground::byte_at;

fn literal_end(text: &[u8], at: usize) -> usize
    ensures { result ≡ literal_end text.now at }
{
    for p in at..text.len() {
        if is_delimiter(text[p]) {
            return p;
        }
    }
    text.len().max(at)
}

// How many brackets are open behind a byte outside of strings.
#[tactic(auto, unfolding(crate::specs::Ends::depth_after))]
fn depth_after(b: u8, d: usize) -> usize
    requires { d < 18446744073709551615 }
    ensures { (result ≡ depth_after 0 b d) × (result ≤ d + 1) }
{
    match b {
        b'[' | b'{' => d + 1,
        b']' | b'}' => d.saturating_sub(1),
        _ => d,
    }
}

// Past the closing quote of the string that is open at `at`. A backslash takes the byte behind it along.
pub(crate) fn past_escapes(text: &[u8], at: usize) -> usize
    ensures { result ≡ closing_of text.now 1 0 at }
{
    // The byte decides how far the next step goes, so no range fits.
    let mut p = at;
    while p < text.len() {
        let b = text[p];
        p += 1;
        if b == b'"' {
            return p;
        }
        if b == b'\\' {
            if p < text.len() {
                p += 1;
            }
        }
    }
    p
}

// The same, and faster: most strings have no backslash, and most letters stand behind it.
fn past_string(text: &[u8], at: usize) -> usize
    ensures { result ≡ closing_of text.now 1 0 at }
{
    for p in at..text.len() {
        let b = text[p];
        if b > b'\\' {
            continue;
        }
        if b == b'"' {
            return p + 1;
        }
        if b == b'\\' {
            return past_escapes(text, p);
        }
    }
    text.len().max(at)
}

// Past the bracket that closes the one that is open at `at`. No bracket stands below the first.
fn past_bracket(text: &[u8], at: usize) -> usize
    ensures { result ≡ closing_of text.now 0 1 at }
{
    // The byte decides how far the next step goes, so no range fits.
    let mut p = at;
    let mut d: usize = 1;
    while p < text.len() {
        let b = text[p];
        p += 1;
        if b == b'"' {
            p = past_string(text, p);
            continue;
        }
        if b < b'[' {
            continue;
        }
        d = depth_after(b, d);
        if d == 0 {
            return p;
        }
    }
    p
}

// Does an array or an object start with this byte?
pub(crate) fn is_bracket(b: u8) -> bool
    ensures { result ≡ (eqb b 91 || eqb b 123) }
{
    b == b'[' || b == b'{'
}

// Where the value that starts at `at` ends, byte by byte.
fn read_end(text: &[u8], at: usize) -> usize
    ensures { result ≡ end_of text.now at }
{
    let b = byte_at(text, at);
    if b == b'"' {
        return past_string(text, at + 1);
    }
    if is_bracket(b) {
        return past_bracket(text, at + 1);
    }
    literal_end(text, at)
}

// The same, from the table where it is known.
pub fn end(text: &[u8], ends: &[u16], at: usize) -> usize
    requires { Known text.now ends.now }
    ensures { result ≡ end_of text.now at }
{
    let e = known(ends, at);
    if 0 < e {
        return e;
    }
    read_end(text, at)
}
