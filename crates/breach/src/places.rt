// Where a string breaks the rule of simple names, of names, of namespaces: at the first character after which none can follow, or
// at the closing quote.
ghost use Rattle.std.specs.Prelude.{◌≡◌, cond, [], suc, length};
ghost use Rattle.name.specs.Name.{is_simple, is_dotted, is_name, is_namespace};
ghost use Rattle.view.specs.Strings.{is_stop};
ghost use Rattle.ground.specs.Bytes.{byte_at};
ghost use Rattle.breach.specs.Breach.{breach_from, breach_at};

use super::characters::character_at;
use ground::byte_at;
use name::may_stand;
use view::is_stop;

fn is_end(text: &[u8], at: usize) -> bool
    ensures { result ≡ is_stop (byte_at text.now at) }
{
    is_stop(byte_at(text, at))
}

// From `at` on, where a simple name must start: simple names joined by dots, or one alone.
fn breach_from(text: &[u8], at: usize, dots: bool) -> usize
    ensures { result ≡ breach_from (cond dots is_dotted is_simple) text.now (suc (length text.now)) [] at }
{
    let mut first = true;
    let mut p = at;
    while !is_end(text, p) {
        let x = character_at(text, p);
        let bytes = x.bytes;
        let b = bytes[0];
        if !may_stand(b, first, dots) {
            return p;
        }
        first = b == b'.';
        p = x.next;
    }
    p
}

pub fn simple_breach(text: &[u8], at: usize) -> usize
    ensures { result ≡ breach_at is_simple text.now at }
{
    if byte_at(text, at) == b'"' {
        return breach_from(text, at + 1, false);
    }
    at
}

pub fn namespace_breach(text: &[u8], at: usize) -> usize
    ensures { result ≡ breach_at is_namespace text.now at }
{
    if byte_at(text, at) == b'"' {
        return breach_from(text, at + 1, true);
    }
    at
}

// Behind a leading dot stands one simple name.
pub fn name_breach(text: &[u8], at: usize) -> usize
    ensures { result ≡ breach_at is_name text.now at }
{
    if byte_at(text, at) != b'"' {
        return at;
    }
    let start = at + 1;
    if is_end(text, start) {
        return start;
    }
    let x = character_at(text, start);
    let bytes = x.bytes;
    if bytes[0] == b'.' {
        return breach_from(text, x.next, false);
    }
    breach_from(text, start, true)
}
