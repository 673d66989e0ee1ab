// Schemas that are written as a string: primitives and references.
ghost use Rattle.std.specs.Prelude.{◌≡◌, cond, ◌≤◌, ◌<◌, eqb, length};
ghost use Rattle.json_scan.specs.Json.{longest};
ghost use Rattle.row.specs.Kinds.{kind_number};
ghost use Rattle.row.specs.declared.kind.Kind.TheVariants.{Bytes};
ghost use Rattle.form.specs.Notes.{noted, note_of};
ghost use Rattle.form.specs.declared.note.Plain.TheVariants as over;
ghost use Rattle.schema.specs.Schema.{reference_rows};
ghost use Rattle.schema.specs.Did.{Did, around, primitive_with, word_with};
ghost use Rattle.view.specs.Known.{Known};

use super::names::{entry, put};
use super::walked::Walked;
use answer::Counts;
use form::note::{Note, Plain};
use form::{decimal_note, reference, word_kind};
use json_scan::Scan;
use name::Full;
use row::Kind;
use row::write::push;
use rules::{Standing, new_kind, new_name};
use view::Members;

// The reference at `at`.
fn put_reference(
    text: &[u8],
    ends: &[u16],
    namespace: &[u8],
    word: &mut [u8; Scan::TEXT],
    full: &mut [u8; Full::LONGEST],
    draft: &mut [u8],
    counts: Counts,
    standing: Standing,
    depth: u16,
    at: usize,
) -> Walked
    requires { (length text.now ≤ longest) × Known text.now ends.now }
    ensures { Did draft.old counts draft.new result (reference_rows text.now (around namespace.now standing) depth at) }
{
    let n = reference(text, ends, namespace, at, word, full)?;
    let all = &full[..];
    new_name(text, ends, namespace, standing, &all[0..n], word)?;
    Ok(put(draft, counts, Kind::Reference, depth, at, &all[0..n]))
}

// Of bytes alone, the decimal's note.
fn note_of(text: &[u8], ends: &[u16], kind: Kind, members: Members) -> Note
    requires { Known text.now ends.now }
    ensures { result ≡ cond (eqb (kind_number kind) (kind_number Bytes)) (note_of text.now members over.Bytes) (noted 0) }
{
    if kind == Kind::Bytes {
        return decimal_note(text, ends, members, Plain::Bytes);
    }
    Note::NONE
}

// The primitive at `at`, the `type` of the object with these members.
fn put_primitive(
    text: &[u8],
    ends: &[u16],
    namespace: &[u8],
    standing: Standing,
    depth: u16,
    kind: Kind,
    at: usize,
    members: Members,
    draft: &mut [u8],
    counts: Counts,
) -> Walked
    requires { (at < 65536) × Known text.now ends.now }
    ensures { Did draft.old counts draft.new result (primitive_with text.now (around namespace.now standing) depth kind at members) }
{
    new_kind(text, ends, standing, kind)?;
    let note = note_of(text, ends, kind, members);
    let row = entry(kind, depth, at, 0, note);
    Ok(push(draft, counts, row, b""))
}

// The string at `at`, with the members of the object whose `type` it is.
pub(crate) fn put_word(
    text: &[u8],
    ends: &[u16],
    namespace: &[u8],
    word: &mut [u8; Scan::TEXT],
    full: &mut [u8; Full::LONGEST],
    draft: &mut [u8],
    counts: Counts,
    standing: Standing,
    depth: u16,
    at: usize,
    members: Members,
) -> Walked
    requires { (length text.now ≤ longest) × Known text.now ends.now }
    ensures { Did draft.old counts draft.new result (word_with text.now (around namespace.now standing) depth at members) }
{
    let kind = word_kind(text, ends, at);
    if kind == Kind::Reference {
        return put_reference(
            text, ends, namespace, word, full, draft, counts, standing, depth, at,
        );
    }
    put_primitive(
        text, ends, namespace, standing, depth, kind, at, members, draft, counts,
    )
}
