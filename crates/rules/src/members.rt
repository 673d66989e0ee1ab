// The members of a union that are surely new. One pass enters what tells each apart in a table of marks, and so no member of a long union
// is compared with each one before it.
ghost use Rattle.std.specs.Prelude.{◌≡◌, not, ◌&&◌, [], ◌∷◌, map, ◌≤◌, eqb, length};
ghost use Rattle.name.specs.Full.{kept_limit};
ghost use Rattle.json_scan.specs.Json.{longest};
ghost use Rattle.row.specs.Kinds.{kind_number};
ghost use Rattle.row.specs.declared.kind.Kind.TheVariants.{Union};
ghost use Rattle.view.specs.Elements.{elements};
ghost use Rattle.view.specs.Known.{Known};
ghost use Rattle.view.specs.Marks.{mark_of};
ghost use Rattle.seen.specs.Seen.{Sized, is_marked, entered, Holds};
ghost use Rattle.rules.specs.Unions.{called, before, is_new};
ghost use Rattle.rules.specs.Members.{key_at, Enters, Sure, standing_of};

use super::bytes::bytes_at;
use super::standing::Standing;
use super::unions::{Apart, is_new_name, told_apart};
use json_scan::Scan;
use name::Full;
use row::Kind;
use seen::{enter, forget};
use view::{first_element, mark_of, next_element};

// Enters the number of a kind. Is it surely new, and that of no union?
fn enter_kind(kind: u8, table: &mut [u64]) -> bool
    requires { Sized table.old }
    ensures { (result ≡ (not (eqb kind (kind_number Union)) && not (is_marked table.old (mark_of (kind ∷ []))))) × (table.new ≡ entered table.old (mark_of (kind ∷ []))) }
{
    let bytes = [kind];
    let was = enter(table, mark_of(&bytes));
    if kind == Kind::Union.number() {
        return false;
    }
    !was
}

// Enters the full name of a member. Has no member before it that name? Where the mark is there, they are asked.
fn enter_name(
    text: &[u8],
    ends: &[u16],
    namespace: &[u8],
    array: usize,
    member: usize,
    name: &[u8],
    table: &mut [u64],
    word: &mut [u8; Scan::TEXT],
) -> bool
    requires { (length text.now ≤ longest) × (length name.now ≤ kept_limit) × Known text.now ends.now × Sized table.old × Holds table.old (map (key_at text.now namespace.now) (before member (elements text.now array))) }
    ensures { (result ≡ is_new text.now namespace.now (called name.now) (before member (elements text.now array))) × (table.new ≡ entered table.old (mark_of name.now)) }
{
    if !enter(table, mark_of(name)) {
        return true;
    }
    is_new_name(text, ends, namespace, array, member, name, word)
}

// Enters what tells a member apart. Is it surely new?
fn enter_member(
    text: &[u8],
    ends: &[u16],
    namespace: &[u8],
    array: usize,
    member: usize,
    table: &mut [u64],
    word: &mut [u8; Scan::TEXT],
    full: &mut [u8; Full::LONGEST],
) -> bool
    requires { (length text.now ≤ longest) × Known text.now ends.now × Sized table.old × Holds table.old (map (key_at text.now namespace.now) (before member (elements text.now array))) }
    ensures { Enters text.now namespace.now array member table.old table.new result }
{
    match told_apart(text, ends, namespace, member, word, full) {
        Apart::LongName => false,
        Apart::Kind(kind) => enter_kind(kind, table),
        Apart::Name(n) => {
            let all = &full[..];
            enter_name(
                text,
                ends,
                namespace,
                array,
                member,
                &all[0..n],
                table,
                word,
            )
        }
    }
}

// The place of the first member that is not surely new, with an empty table; the text's end where all are.
fn new_until(
    text: &[u8],
    ends: &[u16],
    namespace: &[u8],
    array: usize,
    table: &mut [u64],
    word: &mut [u8; Scan::TEXT],
) -> usize
    requires { (length text.now ≤ longest) × Known text.now ends.now × Sized table.old }
    ensures { Sure text.now namespace.now array result }
{
    let mut full: [u8; Full::LONGEST] = [0; Full::LONGEST];
    let mut spot = first_element(text, array);
    while let Some(p) = spot {
        if !enter_member(text, ends, namespace, array, p, table, word, &mut full) {
            return p;
        }
        spot = next_element(text, ends, p);
    }
    text.len()
}

// A union is small with at most so many members, or with fewer bytes.
const FEW: usize = 8;

const FEW_BYTES: usize = 48;

// Has the array at most so few elements?
fn is_small(text: &[u8], ends: &[u16], array: usize) -> bool
    requires { Known text.now ends.now }
{
    let mut spot = first_element(text, array);
    for _ in 0..FEW {
        let Some(p) = spot else {
            return true;
        };
        spot = next_element(text, ends, p);
    }
    false
}

// A place before which all members of the union are new. Of a small union none is looked at. What the table holds is forgotten.
pub fn surely_new(
    text: &[u8],
    ends: &[u16],
    namespace: &[u8],
    array: usize,
    table: &mut [u64],
    word: &mut [u8; Scan::TEXT],
) -> usize
    requires { (length text.now ≤ longest) × Known text.now ends.now × Sized table.old }
    ensures { Sure text.now namespace.now array result }
{
    let long = bytes_at(text, ends, array);
    if long < FEW_BYTES {
        return 0;
    }
    if is_small(text, ends, array) {
        return 0;
    }
    let n = forget(table, long);
    new_until(text, ends, namespace, array, &mut table[0..n], word)
}

// How the member of a union stands that has all members before a place new: one of them as if it stood alone.
pub fn stands(array: usize, member: usize, sure: usize) -> Standing
    ensures { result ≡ standing_of array member sure }
{
    if member < sure {
        return Standing::Alone;
    }
    Standing::MemberOf(array, member)
}
