// The table of ends: where the strings without escapes, the arrays and the objects of a text end.
ghost use Rattle.std.specs.Prelude.{◌≡◌, ◌||◌, ◌+◌, ◌<◌, ◌≤◌, eqb, length, get_or, set};
ghost use Rattle.json_scan.specs.Json.{longest, deepest};
ghost use Rattle.view.specs.Ends.{closing_of};
ghost use Rattle.view.specs.Known.{end_in, Known, Stack};

use super::ends::{is_bracket, past_escapes};
use super::strings::plain_end;
use ground::byte_at;
use json_scan::Scan;

// What the table holds for a place, 0 where nothing is known.
pub fn known(ends: &[u16], at: usize) -> usize
    ensures { result ≡ end_in ends.now at }
{
    if at < ends.len() {
        return usize::from(ends[at]);
    }
    0
}

// Stores where the value at a place ends, if the table has room for it.
fn note(ends: &mut [u16], at: usize, end: usize)
    requires { end < 65536 }
    ensures { ends.new ≡ set ends.old at end }
{
    if at < ends.len() {
        ends[at] = end as u16;
    }
}

// Past the string at `at`, which is noted where its bytes stand for themselves.
fn note_string(text: &[u8], at: usize, ends: &mut [u16]) -> usize
    requires { (length text.now ≤ longest) × (at < length text.now) × (get_or text.now at 0 ≡ 34) × Known text.now ends.old }
    ensures { (result ≡ closing_of text.now 1 0 (at + 1)) × Known text.now ends.new }
{
    let e = plain_end(text, at + 1);
    if byte_at(text, e) == b'"' {
        note(ends, at, e + 1);
        return e + 1;
    }
    past_escapes(text, e)
}

// Keeps the place of a bracket that opens.
fn keep(kept: &mut [u16; Scan::NESTING], depth: usize, at: usize)
    requires { (length kept.old ≡ deepest) × (at < 65536) }
    ensures { kept.new ≡ set kept.old depth at }
{
    if depth < Scan::NESTING {
        kept[depth] = at as u16;
    }
}

// Does an array or an object end with this byte?
fn is_closing(b: u8) -> bool
    ensures { result ≡ (eqb b 93 || eqb b 125) }
{
    b == b']' || b == b'}'
}

// How many brackets are open behind the byte at `at`, outside of strings. One that opens is kept, one that closes is noted.
fn note_bracket(
    text: &[u8],
    at: usize,
    kept: &mut [u16; Scan::NESTING],
    depth: usize,
    ends: &mut [u16],
) -> usize
    requires { (length text.now ≤ longest) × (at < length text.now) × (get_or text.now at 0 ≡ 34 → ⊥) × Stack text.now kept.old depth at × Known text.now ends.old }
    ensures { Stack text.now kept.new result (at + 1) × Known text.now ends.new }
{
    let b = text[at];
    if is_bracket(b) {
        keep(kept, depth, at);
        return depth + 1;
    }
    if !is_closing(b) {
        return depth;
    }
    if depth == 0 {
        return 0;
    }
    let last = depth - 1;
    if last < Scan::NESTING {
        note(ends, usize::from(kept[last]), at + 1);
    }
    last
}

// Fills the table for a text. Most bytes outside of strings stand below the brackets.
pub fn find_ends(text: &[u8], ends: &mut [u16])
    requires { (length text.now ≤ longest) × Known text.now ends.old }
    ensures { Known text.now ends.new }
{
    let mut kept: [u16; Scan::NESTING] = [0; Scan::NESTING];
    let mut depth: usize = 0;
    // The byte decides how far the next step goes, so no range fits.
    let mut p: usize = 0;
    while p < text.len() {
        let b = text[p];
        if b == b'"' {
            p = note_string(text, p, ends);
            continue;
        }
        if b < b'[' {
            p += 1;
            continue;
        }
        depth = note_bracket(text, p, &mut kept, depth, ends);
        p += 1;
    }
}
