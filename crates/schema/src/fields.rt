// A field but for its type, and the names of all fields.
ghost use Rattle.std.specs.Prelude.{◌≡◌, List, [], ℕ, ◌≤◌, ◌<◌, length};
ghost use Rattle.json_scan.specs.Json.{longest};
ghost use Rattle.row.specs.Rows.{strings_of};
ghost use Rattle.row.specs.Memory.{counted, pushed};
ghost use Rattle.rules.specs.Fields.{field_names_check};
ghost use Rattle.form.specs.Spots.{fields_in};
ghost use Rattle.schema.specs.Out.{read, after};
ghost use Rattle.schema.specs.Schema.{field_row, kept_check};
ghost use Rattle.schema.specs.Did.{Did, InText, field_head};
ghost use Rattle.view.specs.Known.{Known};
ghost use Rattle.seen.specs.Seen.{Sized};

use super::names::{entry, put_both, put_field_aliases, put_string};
use super::walked::Walked;
use answer::{Counts, Fault, Why};
use form::note::Note;
use form::{Check, as_text, first_alias, simple_check};
use json_scan::Scan;
use name::Full;
use row::Kind;
use rules::field_names;
use view::{Members, end};

// The row of the field whose name stands at `at`; with a default it keeps the default's text and position.
fn put_field_row(
    text: &[u8],
    ends: &[u16],
    depth: u16,
    at: usize,
    default: Option<usize>,
    draft: &mut [u8],
    counts: Counts,
    word: &mut [u8; Scan::TEXT],
) -> Counts
    requires { (length text.now ≤ longest) × (at < 65536) × InText text.now default × Known text.now ends.now }
    ensures { (result ≡ counted counts (length (strings_of (field_row text.now depth at default))))
        × (draft.new ≡ pushed draft.old counts (field_row text.now depth at default)) }
{
    let Some(v) = default else {
        return put_string(text, ends, Kind::Field, depth, at, draft, counts, word);
    };
    let row = entry(Kind::Field, depth, at, v as u64, Note::NONE);
    let stop = end(text, ends, v);
    put_both(text, ends, row, at, &text[v..stop], draft, counts, word)
}

// 48: as it is written, a default has at most the bytes that are kept of a string.
fn kept_check(text: &[u8], ends: &[u16], default: Option<usize>) -> Check
    requires { InText text.now default × Known text.now ends.now }
    ensures { result ≡ kept_check text.now default }
{
    let Some(v) = default else {
        return Ok(());
    };
    let stop = end(text, ends, v);
    if Full::LONGEST < stop - v {
        return Err(Fault {
            why: Why::DefaultTooLong,
            at: v,
        });
    }
    Ok(())
}

// The field at `at` with these members: its name, its row, its aliases, its default's length.
pub(crate) fn put_field_head(
    text: &[u8],
    ends: &[u16],
    depth: u16,
    at: usize,
    members: Members,
    draft: &mut [u8],
    counts: Counts,
    word: &mut [u8; Scan::TEXT],
) -> Walked
    requires { (length text.now ≤ longest) × (depth < 65535) × InText text.now members.default × Known text.now ends.now }
    ensures { Did draft.old counts draft.new result (field_head text.now depth at members) }
{
    let name = members.name;
    let Some(q) = as_text(text, name) else {
        return Err(Fault {
            why: Why::NameMissing,
            at,
        });
    };
    simple_check(text, ends, q, word)?;
    let default = members.default;
    let next = put_field_row(text, ends, depth, q, default, draft, counts, word);
    let aliases = members.aliases;
    let first = first_alias(text, ends, aliases);
    let last = put_field_aliases(text, ends, depth + 1, first, draft, next, word)?;
    kept_check(text, ends, default)?;
    Ok(last)
}

// 11, for the `fields` at a place, whose rows are counted.
pub(crate) fn named_apart(
    text: &[u8],
    ends: &[u16],
    array: usize,
    counts: Counts,
    table: &mut [u64],
) -> Walked
    requires { Known text.now ends.now × Sized table.old }
    ensures { (m : List ℕ) → Did m counts m result (after (field_names_check text.now [] (fields_in text.now array)) (read [])) }
{
    field_names(text, ends, array, table)?;
    Ok(counts)
}
