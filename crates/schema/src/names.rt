// Rows that hold a name, one by one and in a loop.
ghost use Rattle.std.specs.Prelude.{◌≡◌, ◌≤◌, ◌<◌, length};
ghost use Rattle.json_scan.specs.Json.{longest};
ghost use Rattle.row.specs.Rows.{with_default, strings_of};
ghost use Rattle.row.specs.Memory.{counted, pushed};
ghost use Rattle.view.specs.Elements.{elements_at, elements};
ghost use Rattle.view.specs.Strings.{string_at};
ghost use Rattle.view.specs.Known.{Known};
ghost use Rattle.form.specs.Notes.{noted};
ghost use Rattle.schema.specs.Out.{each};
ghost use Rattle.schema.specs.Schema.{row_with, alias_rows, field_alias_rows, symbol_rows};
ghost use Rattle.schema.specs.Did.{Did, entry};

use super::walked::Walked;
use answer::Counts;
use form::note::Note;
use form::{alias, simple_check};
use json_scan::Scan;
use name::Full;
use row::write::{push, push_both};
use row::{Entry, Kind};
use view::{first_element, literal, next_element, string_copy};

// The row of a kind at a depth, all but its string.
pub(crate) fn entry(kind: Kind, depth: u16, at: usize, size: u64, note: Note) -> Entry
    requires { at < 65536 }
    ensures { result ≡ entry kind depth at size note }
{
    Entry {
        kind,
        depth,
        position: at as u16,
        size,
        note: note.note,
        precision: note.precision,
        scale: note.scale,
    }
}

// A row with no size and no note, and its string.
pub(crate) fn put(
    draft: &mut [u8],
    counts: Counts,
    kind: Kind,
    depth: u16,
    at: usize,
    text: &[u8],
) -> Counts
    requires { at < 65536 }
    ensures { (result ≡ counted counts (length text.now))
        × (draft.new ≡ pushed draft.old counts (row_with kind depth at text.now 0 (noted 0))) }
{
    let row = entry(kind, depth, at, 0, Note::NONE);
    push(draft, counts, row, text)
}

// A row with the string at `at`, and a default.
pub(crate) fn put_both(
    text: &[u8],
    ends: &[u16],
    row: Entry,
    at: usize,
    default: &[u8],
    draft: &mut [u8],
    counts: Counts,
    word: &mut [u8; Scan::TEXT],
) -> Counts
    requires { (length text.now ≤ longest) × Known text.now ends.now }
    ensures { (result ≡ counted counts (length (strings_of (with_default row (string_at text.now at) default.now))))
        × (draft.new ≡ pushed draft.old counts (with_default row (string_at text.now at) default.now)) }
{
    if let Some(own) = literal(text, ends, at) {
        return push_both(draft, counts, row, own, default);
    }
    let n = string_copy(text, ends, at, word);
    let all = &word[..];
    push_both(draft, counts, row, &all[0..n], default)
}

// A row with no size and no note, with the string at `at`.
pub(crate) fn put_string(
    text: &[u8],
    ends: &[u16],
    kind: Kind,
    depth: u16,
    at: usize,
    draft: &mut [u8],
    counts: Counts,
    word: &mut [u8; Scan::TEXT],
) -> Counts
    requires { (length text.now ≤ longest) × (at < 65536) × Known text.now ends.now }
    ensures { (result ≡ counted counts (length (string_at text.now at)))
        × (draft.new ≡ pushed draft.old counts (row_with kind depth at (string_at text.now at) 0 (noted 0))) }
{
    let row = entry(kind, depth, at, 0, Note::NONE);
    put_both(text, ends, row, at, b"", draft, counts, word)
}

// ---- aliases of a definition

fn put_alias(
    text: &[u8],
    ends: &[u16],
    namespace: &[u8],
    word: &mut [u8; Scan::TEXT],
    full: &mut [u8; Full::LONGEST],
    draft: &mut [u8],
    counts: Counts,
    depth: u16,
    at: usize,
) -> Walked
    requires { (length text.now ≤ longest) × Known text.now ends.now }
    ensures { Did draft.old counts draft.new result (alias_rows text.now namespace.now depth at) }
{
    let n = alias(text, ends, namespace, at, word, full)?;
    let all = &full[..];
    Ok(put(draft, counts, Kind::Alias, depth, at, &all[0..n]))
}

// Those from a place on, in the definition's own namespace.
pub(crate) fn put_aliases(
    text: &[u8],
    ends: &[u16],
    namespace: &[u8],
    depth: u16,
    first: Option<usize>,
    draft: &mut [u8],
    counts: Counts,
    word: &mut [u8; Scan::TEXT],
) -> Walked
    requires { (length text.now ≤ longest) × Known text.now ends.now }
    ensures { Did draft.old counts draft.new result (each (alias_rows text.now namespace.now depth) (elements_at text.now first)) }
{
    let mut full: [u8; Full::LONGEST] = [0; Full::LONGEST];
    let mut sum = counts;
    let mut spot = first;
    while let Some(p) = spot {
        sum = put_alias(text, ends, namespace, word, &mut full, draft, sum, depth, p)?;
        spot = next_element(text, ends, p);
    }
    Ok(sum)
}

// ---- aliases of a field

fn put_field_alias(
    text: &[u8],
    ends: &[u16],
    depth: u16,
    at: usize,
    draft: &mut [u8],
    counts: Counts,
    word: &mut [u8; Scan::TEXT],
) -> Walked
    requires { (length text.now ≤ longest) × Known text.now ends.now }
    ensures { Did draft.old counts draft.new result (field_alias_rows text.now depth at) }
{
    simple_check(text, ends, at, word)?;
    Ok(put_string(text, ends, Kind::FieldAlias, depth, at, draft, counts, word))
}

// Those from a place on.
pub(crate) fn put_field_aliases(
    text: &[u8],
    ends: &[u16],
    depth: u16,
    first: Option<usize>,
    draft: &mut [u8],
    counts: Counts,
    word: &mut [u8; Scan::TEXT],
) -> Walked
    requires { (length text.now ≤ longest) × Known text.now ends.now }
    ensures { Did draft.old counts draft.new result (each (field_alias_rows text.now depth) (elements_at text.now first)) }
{
    let mut sum = counts;
    let mut spot = first;
    while let Some(p) = spot {
        sum = put_field_alias(text, ends, depth, p, draft, sum, word)?;
        spot = next_element(text, ends, p);
    }
    Ok(sum)
}

// ---- the symbols of an enum, which were checked

pub(crate) fn put_symbols(
    text: &[u8],
    ends: &[u16],
    depth: u16,
    array: usize,
    draft: &mut [u8],
    counts: Counts,
    word: &mut [u8; Scan::TEXT],
) -> Walked
    requires { (length text.now ≤ longest) × Known text.now ends.now }
    ensures { Did draft.old counts draft.new result (each (symbol_rows text.now depth) (elements text.now array)) }
{
    let mut sum = counts;
    let mut spot = first_element(text, array);
    while let Some(p) = spot {
        sum = put_string(text, ends, Kind::Symbol, depth, p, draft, sum, word);
        spot = next_element(text, ends, p);
    }
    Ok(sum)
}
