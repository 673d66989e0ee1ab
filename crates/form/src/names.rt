// The strings of a declaration that have to be names: their full names, and the checks 7, 8, 9.
ghost use Rattle.std.specs.Prelude.{◌≡◌, false, ◌≤◌, length};
ghost use Rattle.ground.specs.Bytes.{part, store};
ghost use Rattle.name.specs.Name.{is_simple, is_name, is_namespace, has_dot, full_name};
ghost use Rattle.json_scan.specs.Json.{longest};
ghost use Rattle.view.specs.Strings.{string_at};
ghost use Rattle.view.specs.Known.{Known};
ghost use Rattle.form.specs.Checks.{must, ◌then◌};
ghost use Rattle.form.specs.Names.{not_a_name, kept, unreserved, simple_check, full_at, reference_check, alias_check, defined_at, spaced_check, definition_check, named, kept_in};

use super::check::{Check, must};
use super::spots::as_text;
use answer::{Fault, Why};
use breach::{name_breach, namespace_breach, simple_breach};
use ground::copy;
use json_scan::Scan;
use name::{Full, full_name, has_dot, is_name, is_namespace, is_reserved, is_simple};
use view::{Members, literal, string_copy};

// 7, and where the string at `at` breaks the rule of simple names.
fn not_simple(text: &[u8], at: usize) -> Fault
    ensures { result ≡ not_a_name is_simple text.now at }
{
    Fault {
        why: Why::NotAName,
        at: simple_breach(text, at),
    }
}

// The same of the rule of names.
fn not_a_name(text: &[u8], at: usize) -> Fault
    ensures { result ≡ not_a_name is_name text.now at }
{
    Fault {
        why: Why::NotAName,
        at: name_breach(text, at),
    }
}

// The same of the rule of namespaces.
fn not_a_namespace(text: &[u8], at: usize) -> Fault
    ensures { result ≡ not_a_name is_namespace text.now at }
{
    Fault {
        why: Why::NotAName,
        at: namespace_breach(text, at),
    }
}

// A simple name that can be kept, the string at `at`: 7, 9.
fn simple(text: &[u8], written: &[u8], at: usize) -> Check
    ensures { result ≡ must (is_simple written.now) (not_a_name is_simple text.now at) then kept written.now at }
{
    if !is_simple(written) {
        return Err(not_simple(text, at));
    }
    must(written.len() <= Full::LONGEST, Why::StringTooLong, at)
}

// A field's name or alias, a symbol: the string at `at` must be a simple name.
pub fn simple_check(text: &[u8], ends: &[u16], at: usize, word: &mut [u8; Scan::TEXT]) -> Check
    requires { (length text.now ≤ longest) × Known text.now ends.now }
    ensures { result ≡ simple_check text.now at }
{
    if let Some(own) = literal(text, ends, at) {
        return simple(text, own, at);
    }
    let n = string_copy(text, ends, at, word);
    let all = &word[..];
    simple(text, &all[0..n], at)
}

// The full name of what is written at `at`, in a namespace: 9.
fn qualified(
    namespace: &[u8],
    written: &[u8],
    at: usize,
    full: &mut [u8; Full::LONGEST],
) -> Result<usize, Fault>
    ensures { (result ≡ named (kept (full_name namespace.now written.now) at) (full_name namespace.now written.now)) × (full.new ≡ kept_in full.old (kept (full_name namespace.now written.now) at) (full_name namespace.now written.now)) }
{
    match full_name(namespace, written, full) {
        Some(n) => Ok(n),
        None => Err(Fault {
            why: Why::StringTooLong,
            at,
        }),
    }
}

// The same of a name that is given to something: 8, 9. The last part of what is written is that of the full name.
fn given(
    namespace: &[u8],
    written: &[u8],
    at: usize,
    full: &mut [u8; Full::LONGEST],
) -> Result<usize, Fault>
    ensures { (result ≡ named (unreserved (full_name namespace.now written.now) at then kept (full_name namespace.now written.now) at) (full_name namespace.now written.now)) × (full.new ≡ kept_in full.old (unreserved (full_name namespace.now written.now) at then kept (full_name namespace.now written.now) at) (full_name namespace.now written.now)) }
{
    if is_reserved(written) {
        return Err(Fault {
            why: Why::Reserved,
            at,
        });
    }
    qualified(namespace, written, at, full)
}

// A reference: 7, 9.
pub fn reference(
    text: &[u8],
    ends: &[u16],
    namespace: &[u8],
    at: usize,
    word: &mut [u8; Scan::TEXT],
    full: &mut [u8; Full::LONGEST],
) -> Result<usize, Fault>
    requires { (length text.now ≤ longest) × Known text.now ends.now }
    ensures { (result ≡ named (reference_check text.now namespace.now at) (full_at text.now namespace.now at)) × (full.new ≡ kept_in full.old (reference_check text.now namespace.now at) (full_at text.now namespace.now at)) }
{
    let n = string_copy(text, ends, at, word);
    let all = &word[..];
    if !is_name(&all[0..n]) {
        return Err(not_a_name(text, at));
    }
    qualified(namespace, &all[0..n], at, full)
}

// An alias of a definition, in the definition's own namespace: 7, 8, 9.
pub fn alias(
    text: &[u8],
    ends: &[u16],
    namespace: &[u8],
    at: usize,
    word: &mut [u8; Scan::TEXT],
    full: &mut [u8; Full::LONGEST],
) -> Result<usize, Fault>
    requires { (length text.now ≤ longest) × Known text.now ends.now }
    ensures { (result ≡ named (alias_check text.now namespace.now at) (full_at text.now namespace.now at)) × (full.new ≡ kept_in full.old (alias_check text.now namespace.now at) (full_at text.now namespace.now at)) }
{
    let n = string_copy(text, ends, at, word);
    let all = &word[..];
    if !is_name(&all[0..n]) {
        return Err(not_a_name(text, at));
    }
    given(namespace, &all[0..n], at, full)
}

// The name without a dot in the first n bytes of `word`, in the namespace that is written at `space`: the namespace's 7,
// 8, 9. The name moves to an array of its own, as far as one is kept, and the namespace takes its place.
fn in_namespace(
    text: &[u8],
    ends: &[u16],
    space: usize,
    n: usize,
    at: usize,
    word: &mut [u8; Scan::TEXT],
    full: &mut [u8; Full::LONGEST],
) -> Result<usize, Fault>
    requires { (length text.now ≤ longest) × Known text.now ends.now × (n ≤ longest) × (has_dot (part word.old 0 n) ≡ false) }
    ensures { (result ≡ named (spaced_check text.now space (part word.old 0 n) at) (full_name (string_at text.now space) (part word.old 0 n))) × (full.new ≡ kept_in full.old (spaced_check text.now space (part word.old 0 n) at) (full_name (string_at text.now space) (part word.old 0 n))) }
{
    let mut own: [u8; Full::LONGEST] = [0; Full::LONGEST];
    let all = &word[..];
    let reserved = is_reserved(&all[0..n]);
    copy(&mut own, 0, &all[0..n]);
    let k = string_copy(text, ends, space, word);
    let namespace = &word[..];
    if !is_namespace(&namespace[0..k]) {
        return Err(not_a_namespace(text, space));
    }
    if reserved {
        return Err(Fault {
            why: Why::Reserved,
            at,
        });
    }
    if Full::LONGEST < n {
        return Err(Fault {
            why: Why::StringTooLong,
            at,
        });
    }
    qualified(&namespace[0..k], &own[0..n], at, full)
}

// A definition with these members, its name at `at`: 7, the namespace's 7, 8, 9.
pub fn definition(
    text: &[u8],
    ends: &[u16],
    enclosing: &[u8],
    members: Members,
    at: usize,
    word: &mut [u8; Scan::TEXT],
    full: &mut [u8; Full::LONGEST],
) -> Result<usize, Fault>
    requires { (length text.now ≤ longest) × Known text.now ends.now }
    ensures { (result ≡ named (definition_check text.now enclosing.now members at) (defined_at text.now enclosing.now members at)) × (full.new ≡ kept_in full.old (definition_check text.now enclosing.now members at) (defined_at text.now enclosing.now members at)) }
{
    let n = string_copy(text, ends, at, word);
    let all = &word[..];
    if !is_name(&all[0..n]) {
        return Err(not_a_name(text, at));
    }
    if has_dot(&all[0..n]) {
        return given(enclosing, &all[0..n], at, full);
    }
    let namespace = members.namespace;
    let Some(q) = as_text(text, namespace) else {
        return given(enclosing, &all[0..n], at, full);
    };
    in_namespace(text, ends, q, n, at, word, full)
}
