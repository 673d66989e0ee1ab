// The members of an object by key.
ghost use Rattle.std.specs.Prelude.{◌≡◌, cond, eqb, Some};
ghost use Rattle.ground.specs.Bytes.{same};
ghost use Rattle.view.specs.Strings.{string_at};
ghost use Rattle.view.specs.Known.{Known};
ghost use Rattle.view.specs.Members.{key_from, first_key, key_behind, entry_of, key_number, members_of, title_number, titles_of, name_key, namespace_key, symbols_key, size_key, scale_key};

use super::ends::end;
use super::literals::literal;
use super::shape::starts_value;
use super::space::skip;
use super::strings::{read_copy, read_is};
use ground::{byte_at, same};

// The values of an object's members, by the keys that a declaration looks at; of two under one key the last.
#[derive(Clone, Copy)]
pub struct Members {
    pub typed: Option<usize>,
    pub name: Option<usize>,
    pub namespace: Option<usize>,
    pub aliases: Option<usize>,
    pub fields: Option<usize>,
    pub symbols: Option<usize>,
    pub default: Option<usize>,
    pub size: Option<usize>,
    pub items: Option<usize>,
    pub values: Option<usize>,
    pub logical_type: Option<usize>,
    pub precision: Option<usize>,
    pub scale: Option<usize>,
}

// The numbers of the keys; `OTHER` is that of every other key.
impl Members {
    const TYPE: usize = 0;

    const NAME: usize = 1;

    const NAMESPACE: usize = 2;

    const ALIASES: usize = 3;

    const FIELDS: usize = 4;

    const SYMBOLS: usize = 5;

    const DEFAULT: usize = 6;

    const SIZE: usize = 7;

    const ITEMS: usize = 8;

    const VALUES: usize = 9;

    const LOGICAL_TYPE: usize = 10;

    const PRECISION: usize = 11;

    const SCALE: usize = 12;

    const OTHER: usize = 13;
}

// Of these the two that name an object.
#[derive(Clone, Copy)]
pub struct Titles {
    pub name: Option<usize>,
    pub aliases: Option<usize>,
}

// A member: the places of its key and of its value.
#[derive(Clone, Copy)]
pub struct Member {
    pub key: usize,
    pub value: usize,
}

// The member past the white space at `at`, if one stands there.
fn member_from(text: &[u8], ends: &[u16], at: usize) -> Option<Member>
    requires { Known text.now ends.now }
    ensures { result ≡ entry_of text.now (key_from text.now at) }
{
    let key = skip(text, at);
    if byte_at(text, key) != b'"' {
        return None;
    }
    let colon = skip(text, end(text, ends, key));
    if byte_at(text, colon) != b':' {
        return None;
    }
    let value = skip(text, colon + 1);
    if starts_value(byte_at(text, value)) {
        return Some(Member { key, value });
    }
    None
}

// The first member of the object at `at`.
pub fn first_member(text: &[u8], ends: &[u16], at: usize) -> Option<Member>
    requires { Known text.now ends.now }
    ensures { result ≡ entry_of text.now (first_key text.now at) }
{
    if byte_at(text, at) == b'{' {
        return member_from(text, ends, at + 1);
    }
    None
}

// The member behind the one whose value is at `at`.
pub fn next_member(text: &[u8], ends: &[u16], at: usize) -> Option<Member>
    requires { Known text.now ends.now }
    ensures { result ≡ entry_of text.now (key_behind text.now at) }
{
    let e = skip(text, end(text, ends, at));
    if byte_at(text, e) == b',' {
        return member_from(text, ends, e + 1);
    }
    None
}

// The number, where the key is the word.
fn number_if(key: &[u8], word: &[u8], number: usize) -> usize
    ensures { result ≡ cond (same key.now word.now) number 13 }
{
    if same(key, word) {
        return number;
    }
    Members::OTHER
}

// The number of a key that starts with an n.
fn number_n(key: &[u8]) -> usize
    ensures { result ≡ cond (same key.now name_key) 1 (cond (same key.now namespace_key) 2 13) }
{
    if same(key, b"name") {
        return Members::NAME;
    }
    number_if(key, b"namespace", Members::NAMESPACE)
}

// The number of a key that starts with an s.
fn number_s(key: &[u8]) -> usize
    ensures { result ≡ cond (same key.now symbols_key) 5 (cond (same key.now size_key) 7 (cond (same key.now scale_key) 12 13)) }
{
    if same(key, b"symbols") {
        return Members::SYMBOLS;
    }
    if same(key, b"size") {
        return Members::SIZE;
    }
    number_if(key, b"scale", Members::SCALE)
}

// The number of a key. Its first byte leaves at most three to compare it with.
fn number_of(key: &[u8]) -> usize
    ensures { result ≡ key_number key.now }
{
    match byte_at(key, 0) {
        b't' => number_if(key, b"type", Members::TYPE),
        b'n' => number_n(key),
        b's' => number_s(key),
        b'a' => number_if(key, b"aliases", Members::ALIASES),
        b'f' => number_if(key, b"fields", Members::FIELDS),
        b'd' => number_if(key, b"default", Members::DEFAULT),
        b'i' => number_if(key, b"items", Members::ITEMS),
        b'v' => number_if(key, b"values", Members::VALUES),
        b'l' => number_if(key, b"logicalType", Members::LOGICAL_TYPE),
        b'p' => number_if(key, b"precision", Members::PRECISION),
        _ => Members::OTHER,
    }
}

// The number of the key at `at`. No key that has a number is longer than 16 bytes.
fn key_number(text: &[u8], ends: &[u16], at: usize) -> usize
    requires { Known text.now ends.now }
    ensures { result ≡ key_number (string_at text.now at) }
{
    if let Some(own) = literal(text, ends, at) {
        return number_of(own);
    }
    let mut key: [u8; 16] = [0; 16];
    let n = read_copy(text, at, &mut key);
    if 16 < n {
        return Members::OTHER;
    }
    number_of(&key[0..n])
}

// The values of the object at `at`, by key, in one pass.
pub fn members_at(text: &[u8], ends: &[u16], at: usize) -> Members
    requires { Known text.now ends.now }
    ensures { result ≡ members_of text.now at }
{
    let mut found = [None; 14];
    let mut entry = first_member(text, ends, at);
    while let Some(Member { key, value }) = entry {
        let n = key_number(text, ends, key);
        found[n] = Some(value);
        entry = next_member(text, ends, value);
    }
    Members {
        typed: found[Members::TYPE],
        name: found[Members::NAME],
        namespace: found[Members::NAMESPACE],
        aliases: found[Members::ALIASES],
        fields: found[Members::FIELDS],
        symbols: found[Members::SYMBOLS],
        default: found[Members::DEFAULT],
        size: found[Members::SIZE],
        items: found[Members::ITEMS],
        values: found[Members::VALUES],
        logical_type: found[Members::LOGICAL_TYPE],
        precision: found[Members::PRECISION],
        scale: found[Members::SCALE],
    }
}

// The number of a key that is `name` or `aliases`. Its first byte leaves at most one to compare it with.
fn title_of(key: &[u8]) -> usize
    ensures { result ≡ title_number key.now }
{
    match byte_at(key, 0) {
        b'n' => number_if(key, b"name", Members::NAME),
        b'a' => number_if(key, b"aliases", Members::ALIASES),
        _ => Members::OTHER,
    }
}

// The same for the key at `at`, escapes undone.
fn read_title(text: &[u8], at: usize) -> usize
    ensures { result ≡ title_number (string_at text.now at) }
{
    if read_is(text, at, b"name") {
        return Members::NAME;
    }
    if read_is(text, at, b"aliases") {
        return Members::ALIASES;
    }
    Members::OTHER
}

// The same by the table.
fn title_number(text: &[u8], ends: &[u16], at: usize) -> usize
    requires { Known text.now ends.now }
    ensures { result ≡ title_number (string_at text.now at) }
{
    if let Some(own) = literal(text, ends, at) {
        return title_of(own);
    }
    read_title(text, at)
}

// The value, where the key's number is the one looked for; else what was found before.
fn found_if(number: usize, wanted: usize, value: usize, found: Option<usize>) -> Option<usize>
    ensures { result ≡ cond (eqb number wanted) (Some value) found }
{
    if number == wanted {
        return Some(value);
    }
    found
}

// The values of the object at `at` that name it, in one pass.
pub fn titles_at(text: &[u8], ends: &[u16], at: usize) -> Titles
    requires { Known text.now ends.now }
    ensures { result ≡ titles_of text.now at }
{
    let mut name = None;
    let mut aliases = None;
    let mut entry = first_member(text, ends, at);
    while let Some(Member { key, value }) = entry {
        let n = title_number(text, ends, key);
        name = found_if(n, Members::NAME, value, name);
        aliases = found_if(n, Members::ALIASES, value, aliases);
        entry = next_member(text, ends, value);
    }
    Titles { name, aliases }
}
