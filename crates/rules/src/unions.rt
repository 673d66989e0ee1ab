// Union: none may be a union, no two of one unnamed kind, no two of one full name.
ghost use Rattle.std.specs.Prelude.{◌≡◌, List, ℕ, ◌≤◌, length};
ghost use Rattle.json_scan.specs.Json.{longest};
ghost use Rattle.view.specs.Elements.{elements};
ghost use Rattle.view.specs.Strings.{string_at};
ghost use Rattle.view.specs.Known.{Known};
ghost use Rattle.name.specs.Full.{kept_limit, answer_of, buffer_after};
ghost use Rattle.form.specs.Names.{full_at};
ghost use Rattle.form.specs.Forms.{form_of, word_kind};
ghost use Rattle.rules.specs.Unions.{unnamed, called, clash, word_head, head_of, head_number, name_of, by_name, apart_of, name_after, before, is_new, union_check};

use super::standing::Standing;
use answer::{Fault, Why};
use form::{Check, Form, as_text, find, must, word_kind};
use ground::same;
use json_scan::Scan;
use name::{Full, full_name};
use row::Kind;
use view::{Members, first_element, next_element, string_copy};

// ---- schemas that are told apart by their kind

// The number of the kind that a string names, 0 where it is a reference.
fn word_number(text: &[u8], ends: &[u16], at: usize) -> u8
    requires { Known text.now ends.now }
    ensures { (namespace : List ℕ) → result ≡ head_number (word_head text.now namespace at (word_kind (string_at text.now at))) }
{
    let named = word_kind(text, ends, at);
    if named == Kind::Reference {
        return 0;
    }
    named.number()
}

// The number of an unnamed schema's kind, 0 where the schema is told by its full name.
fn head_number(text: &[u8], ends: &[u16], at: usize) -> u8
    requires { Known text.now ends.now }
    ensures { (namespace : List ℕ) → result ≡ head_number (head_of text.now namespace (form_of text.now at)) }
{
    let found = find(text, ends, at);
    let form = found.form;
    match form {
        Form::Word(p, _) => word_number(text, ends, p),
        Form::ArrayOf(_) => Kind::Array.number(),
        Form::MapOf(_) => Kind::Map.number(),
        Form::UnionOf(_) => Kind::Union.number(),
        Form::RecordOf(_) => 0,
        Form::EnumOf(_) => 0,
        Form::FixedOf(_) => 0,
        Form::Wrong(_) => 0,
    }
}

// Is no member of the union that stands before `member` of this kind?
fn is_new_kind(text: &[u8], ends: &[u16], array: usize, member: usize, kind: Kind) -> bool
    requires { Known text.now ends.now }
    ensures { (namespace : List ℕ) → result ≡ is_new text.now namespace (unnamed kind) (before member (elements text.now array)) }
{
    let number = kind.number();
    let mut spot = first_element(text, array);
    while let Some(p) = spot {
        if p == member {
            return true;
        }
        if head_number(text, ends, p) == number {
            return false;
        }
        spot = next_element(text, ends, p);
    }
    true
}

// 19, for a schema of an unnamed kind, in whatever namespace.
#[tactic(auto, unfolding(crate::specs::Unions::union_check))]
pub fn new_kind(text: &[u8], ends: &[u16], standing: Standing, kind: Kind) -> Check
    requires { Known text.now ends.now }
    ensures { (namespace : List ℕ) → result ≡ union_check text.now namespace standing (unnamed kind) }
{
    let Standing::MemberOf(array, member) = standing else {
        return Ok(());
    };
    if kind == Kind::Union {
        return Err(Fault {
            why: Why::UnionRuleBroken,
            at: member,
        });
    }
    must(
        is_new_kind(text, ends, array, member, kind),
        Why::UnionRuleBroken,
        member,
    )
}

// ---- schemas that are told apart by their full name

// What tells a schema apart: the number of its kind, or its full name, which is in a buffer unless it is too long to be kept.
#[derive(Clone, Copy)]
pub enum Apart {
    Kind(u8),
    Name(usize),
    LongName,
}

fn by_name(full: Option<usize>) -> Apart
    ensures { result ≡ by_name full }
{
    match full {
        Some(n) => Apart::Name(n),
        None => Apart::LongName,
    }
}

// The full name of what is written at `at`, in a namespace.
fn full_at(
    text: &[u8],
    ends: &[u16],
    namespace: &[u8],
    at: usize,
    word: &mut [u8; Scan::TEXT],
    full: &mut [u8; Full::LONGEST],
) -> Option<usize>
    requires { (length text.now ≤ longest) × Known text.now ends.now }
    ensures { (result ≡ answer_of (full_at text.now namespace.now at)) × (full.new ≡ buffer_after full.old (full_at text.now namespace.now at)) }
{
    let n = string_copy(text, ends, at, word);
    let all = &word[..];
    full_name(namespace, &all[0..n], full)
}

// Of a written name at most a dot is dropped: one of more bytes has no full name that is kept.
const WRITTEN: usize = Full::LONGEST + 1;

// The full name of what is written at `at`, in the namespace at `space`.
fn full_in(
    text: &[u8],
    ends: &[u16],
    space: usize,
    at: usize,
    word: &mut [u8; Scan::TEXT],
    full: &mut [u8; Full::LONGEST],
) -> Option<usize>
    requires { (length text.now ≤ longest) × Known text.now ends.now }
    ensures { (result ≡ answer_of (full_at text.now (string_at text.now space) at)) × (full.new ≡ buffer_after full.old (full_at text.now (string_at text.now space) at)) }
{
    let mut own: [u8; WRITTEN] = [0; WRITTEN];
    let n = string_copy(text, ends, at, &mut own);
    if WRITTEN < n {
        return None;
    }
    let k = string_copy(text, ends, space, word);
    let all = &word[..];
    full_name(&all[0..k], &own[0..n], full)
}

// The full name of the definition with these members; one without a name has none.
fn definition_full(
    text: &[u8],
    ends: &[u16],
    enclosing: &[u8],
    members: Members,
    word: &mut [u8; Scan::TEXT],
    full: &mut [u8; Full::LONGEST],
) -> Option<usize>
    requires { (length text.now ≤ longest) × Known text.now ends.now }
    ensures { (result ≡ answer_of (name_of text.now enclosing.now members)) × (full.new ≡ buffer_after full.old (name_of text.now enclosing.now members)) }
{
    let own = members.name;
    let Some(p) = as_text(text, own) else {
        return full_name(b"", b"", full);
    };
    let namespace = members.namespace;
    let Some(q) = as_text(text, namespace) else {
        return full_at(text, ends, enclosing, p, word, full);
    };
    full_in(text, ends, q, p, word, full)
}

// What tells a string apart.
#[tactic(auto, unfolding(crate::specs::Unions::apart_of, crate::specs::Unions::name_after))]
fn word_apart(
    text: &[u8],
    ends: &[u16],
    namespace: &[u8],
    at: usize,
    word: &mut [u8; Scan::TEXT],
    full: &mut [u8; Full::LONGEST],
) -> Apart
    requires { (length text.now ≤ longest) × Known text.now ends.now }
    ensures { (result ≡ apart_of (word_head text.now namespace.now at (word_kind (string_at text.now at)))) × (full.new ≡ name_after full.old (word_head text.now namespace.now at (word_kind (string_at text.now at)))) }
{
    let kind = word_kind(text, ends, at);
    if kind == Kind::Reference {
        return by_name(full_at(text, ends, namespace, at, word, full));
    }
    Apart::Kind(kind.number())
}

// What tells the schema at a place apart.
pub(crate) fn told_apart(
    text: &[u8],
    ends: &[u16],
    namespace: &[u8],
    at: usize,
    word: &mut [u8; Scan::TEXT],
    full: &mut [u8; Full::LONGEST],
) -> Apart
    requires { (length text.now ≤ longest) × Known text.now ends.now }
    ensures { (result ≡ apart_of (head_of text.now namespace.now (form_of text.now at))) × (full.new ≡ name_after full.old (head_of text.now namespace.now (form_of text.now at))) }
{
    let found = find(text, ends, at);
    let form = found.form;
    let members = found.members;
    match form {
        Form::Word(p, _) => word_apart(text, ends, namespace, p, word, full),
        Form::ArrayOf(_) => Apart::Kind(Kind::Array.number()),
        Form::MapOf(_) => Apart::Kind(Kind::Map.number()),
        Form::UnionOf(_) => Apart::Kind(Kind::Union.number()),
        Form::RecordOf(_) => {
            by_name(definition_full(text, ends, namespace, members, word, full))
        }
        Form::EnumOf(_) => by_name(definition_full(text, ends, namespace, members, word, full)),
        Form::FixedOf(_) => by_name(definition_full(text, ends, namespace, members, word, full)),
        Form::Wrong(_) => by_name(full_name(b"", b"", full)),
    }
}

// Has the schema at a place this full name? One that is too long is no other's.
fn is_head(
    text: &[u8],
    ends: &[u16],
    namespace: &[u8],
    at: usize,
    name: &[u8],
    word: &mut [u8; Scan::TEXT],
    other: &mut [u8; Full::LONGEST],
) -> bool
    requires { (length text.now ≤ longest) × (length name.now ≤ kept_limit) × Known text.now ends.now }
    ensures { result ≡ clash (head_of text.now namespace.now (form_of text.now at)) (called name.now) }
{
    match told_apart(text, ends, namespace, at, word, other) {
        Apart::Kind(_) => false,
        Apart::LongName => false,
        Apart::Name(n) => {
            let whole = &other[..];
            same(&whole[0..n], name)
        }
    }
}

// Has no member of the union that stands before `member` this full name?
pub(crate) fn is_new_name(
    text: &[u8],
    ends: &[u16],
    namespace: &[u8],
    array: usize,
    member: usize,
    name: &[u8],
    word: &mut [u8; Scan::TEXT],
) -> bool
    requires { (length text.now ≤ longest) × (length name.now ≤ kept_limit) × Known text.now ends.now }
    ensures { result ≡ is_new text.now namespace.now (called name.now) (before member (elements text.now array)) }
{
    let mut other: [u8; Full::LONGEST] = [0; Full::LONGEST];
    let mut spot = first_element(text, array);
    while let Some(p) = spot {
        if p == member {
            return true;
        }
        if is_head(text, ends, namespace, p, name, word, &mut other) {
            return false;
        }
        spot = next_element(text, ends, p);
    }
    true
}

// 19, for a schema with a full name, in a namespace.
pub fn new_name(
    text: &[u8],
    ends: &[u16],
    namespace: &[u8],
    standing: Standing,
    name: &[u8],
    word: &mut [u8; Scan::TEXT],
) -> Check
    requires { (length text.now ≤ longest) × (length name.now ≤ kept_limit) × Known text.now ends.now }
    ensures { result ≡ union_check text.now namespace.now standing (called name.now) }
{
    let Standing::MemberOf(array, member) = standing else {
        return Ok(());
    };
    must(
        is_new_name(text, ends, namespace, array, member, name, word),
        Why::UnionRuleBroken,
        member,
    )
}
