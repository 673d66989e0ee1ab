// Any schema: records, unions, arrays and maps read the schemas in them.
ghost use Rattle.std.specs.Prelude.{◌+◌, ◌<◌};
ghost use Rattle.form.specs.Checks.{fault};
ghost use Rattle.form.specs.Spots.{fields_in};
ghost use Rattle.schema.specs.Out.{refused};
ghost use Rattle.schema.specs.Schema.{schema_of, within, part_rows, union_rows, record_rows, fields_rows};
ghost use Rattle.schema.specs.Did.{Did, Asks, around, element_rows};
ghost use Rattle.view.specs.Known.{Known};
ghost use Rattle.seen.specs.Seen.{Sized};

use super::definitions::{define, put_enum, put_fixed};
use super::fields::{named_apart, put_field_head};
use super::names::put;
use super::walked::Walked;
use super::words::put_word;
use answer::{Counts, Fault, Why};
use form::note::Note;
use form::{Form, as_array, find, is_object};
use json_scan::Scan;
use name::{Full, namespace_part};
use row::Kind;
use rules::{Standing, new_kind, stands, surely_new};
use view::{Members, first_element, members_at, next_element};

// The schema at `at`, in which `left` may nest.
#[cycle(put_field_put_fields_put_part_put_record_put_schema_put_union)]
pub(crate) fn put_schema(
    text: &[u8],
    ends: &[u16],
    namespace: &[u8],
    standing: Standing,
    at: usize,
    depth: u16,
    left: usize,
    draft: &mut [u8],
    counts: Counts,
    word: &mut [u8; Scan::TEXT],
    table: &mut [u64],
) -> Walked
    requires { (Asks text.now depth left) × Known text.now ends.now × Sized table.old }
    ensures { Did draft.old counts draft.new result (schema_of left text.now (around namespace.now standing) depth at) }
{
    if left == 0 {
        return Err(Fault {
            why: Why::NestedTooDeep,
            at,
        });
    }
    let found = find(text, ends, at);
    let form = found.form;
    let members = found.members;
    let items = members.items;
    let values = members.values;
    let less = left - 1;
    let mut full: [u8; Full::LONGEST] = [0; Full::LONGEST];
    match form {
        Form::Wrong(f) => Err(f),
        Form::Word(q, _) => put_word(
            text, ends, namespace, word, &mut full, draft, counts, standing, depth, q, members,
        ),
        Form::ArrayOf(p) => put_part(
            text,
            ends,
            namespace,
            standing,
            Kind::Array,
            p,
            items,
            Why::ItemsMissing,
            depth,
            less,
            draft,
            counts,
            word,
            table,
        ),
        Form::MapOf(p) => put_part(
            text,
            ends,
            namespace,
            standing,
            Kind::Map,
            p,
            values,
            Why::ValuesMissing,
            depth,
            less,
            draft,
            counts,
            word,
            table,
        ),
        Form::UnionOf(p) => put_union(
            text, ends, namespace, standing, p, depth, less, draft, counts, word, table,
        ),
        Form::RecordOf(p) => put_record(
            text, ends, namespace, word, &mut full, draft, counts, standing, p, members, depth,
            less, table,
        ),
        Form::EnumOf(p) => put_enum(
            text, ends, namespace, standing, depth, p, members, draft, counts, word, table,
        ),
        Form::FixedOf(p) => put_fixed(
            text, ends, namespace, standing, depth, p, members, draft, counts, word,
        ),
    }
}

// The array or map at `at`, and its one part.
#[cycle(put_field_put_fields_put_part_put_record_put_schema_put_union)]
fn put_part(
    text: &[u8],
    ends: &[u16],
    namespace: &[u8],
    standing: Standing,
    kind: Kind,
    at: usize,
    part: Option<usize>,
    missing: Why,
    depth: u16,
    left: usize,
    draft: &mut [u8],
    counts: Counts,
    word: &mut [u8; Scan::TEXT],
    table: &mut [u64],
) -> Walked
    requires { Asks text.now (depth + 1) left × (at < 65536) × Known text.now ends.now × Sized table.old }
    ensures { Did draft.old counts draft.new result (part_rows (schema_of left text.now) text.now (around namespace.now standing) kind depth at part (refused (fault missing at))) }
{
    new_kind(text, ends, standing, kind)?;
    let Some(q) = part else {
        return Err(Fault { why: missing, at });
    };
    let next = put(draft, counts, kind, depth, at, b"");
    put_schema(
        text,
        ends,
        namespace,
        Standing::Alone,
        q,
        depth + 1,
        left,
        draft,
        next,
        word,
        table,
    )
}

// The union at `at`.
#[cycle(put_field_put_fields_put_part_put_record_put_schema_put_union)]
fn put_union(
    text: &[u8],
    ends: &[u16],
    namespace: &[u8],
    standing: Standing,
    at: usize,
    depth: u16,
    left: usize,
    draft: &mut [u8],
    counts: Counts,
    word: &mut [u8; Scan::TEXT],
    table: &mut [u64],
) -> Walked
    requires { Asks text.now (depth + 1) left × (at < 65536) × Known text.now ends.now × Sized table.old }
    ensures { Did draft.old counts draft.new result (union_rows (schema_of left text.now) text.now (around namespace.now standing) depth at) }
{
    new_kind(text, ends, standing, Kind::Union)?;
    let sure = surely_new(text, ends, namespace, at, table, word);
    let mut sum = put(draft, counts, Kind::Union, depth, at, b"");
    let mut spot = first_element(text, at);
    while let Some(p) = spot {
        let member = stands(at, p, sure);
        sum = put_schema(
            text,
            ends,
            namespace,
            member,
            p,
            depth + 1,
            left,
            draft,
            sum,
            word,
            table,
        )?;
        spot = next_element(text, ends, p);
    }
    Ok(sum)
}

// The record at `at`: its fields see its own namespace.
#[cycle(put_field_put_fields_put_part_put_record_put_schema_put_union)]
fn put_record(
    text: &[u8],
    ends: &[u16],
    namespace: &[u8],
    word: &mut [u8; Scan::TEXT],
    full: &mut [u8; Full::LONGEST],
    draft: &mut [u8],
    counts: Counts,
    standing: Standing,
    at: usize,
    members: Members,
    depth: u16,
    left: usize,
    table: &mut [u64],
) -> Walked
    requires { (Asks text.now (depth + 2) left) × Known text.now ends.now × Sized table.old }
    ensures { Did draft.old counts draft.new result (record_rows (schema_of left text.now) text.now (around namespace.now standing) depth at members) }
{
    let defined = define(
        text,
        ends,
        namespace,
        word,
        full,
        draft,
        counts,
        standing,
        Kind::Record,
        depth,
        at,
        members,
        0,
        Note::NONE,
    )?;
    let fields = members.fields;
    let Some(v) = as_array(text, fields) else {
        return Err(Fault {
            why: Why::FieldsMissing,
            at,
        });
    };
    let n = defined.name;
    let next = defined.next;
    let all = &full[..];
    let own = namespace_part(&all[0..n]);
    put_fields(
        text,
        ends,
        own,
        v,
        depth + 1,
        left,
        draft,
        next,
        word,
        table,
    )
}

// The fields in the array, and then their names in order.
#[cycle(put_field_put_fields_put_part_put_record_put_schema_put_union)]
fn put_fields(
    text: &[u8],
    ends: &[u16],
    namespace: &[u8],
    array: usize,
    depth: u16,
    left: usize,
    draft: &mut [u8],
    counts: Counts,
    word: &mut [u8; Scan::TEXT],
    table: &mut [u64],
) -> Walked
    requires { (Asks text.now (depth + 1) left) × Known text.now ends.now × Sized table.old }
    ensures { Did draft.old counts draft.new result (fields_rows (schema_of left text.now (within namespace.now)) text.now depth (fields_in text.now array)) }
{
    let mut sum = counts;
    let mut spot = first_element(text, array);
    while let Some(p) = spot {
        sum = put_field(
            text, ends, namespace, p, depth, left, draft, sum, word, table,
        )?;
        spot = next_element(text, ends, p);
    }
    named_apart(text, ends, array, sum, table)
}

// The field at `at`, and its type; what is no object is no field.
#[cycle(put_field_put_fields_put_part_put_record_put_schema_put_union)]
fn put_field(
    text: &[u8],
    ends: &[u16],
    namespace: &[u8],
    at: usize,
    depth: u16,
    left: usize,
    draft: &mut [u8],
    counts: Counts,
    word: &mut [u8; Scan::TEXT],
    table: &mut [u64],
) -> Walked
    requires { (Asks text.now (depth + 1) left) × Known text.now ends.now × Sized table.old }
    ensures { Did draft.old counts draft.new result (element_rows (schema_of left text.now (within namespace.now)) text.now depth at) }
{
    if !is_object(text, at) {
        return Ok(counts);
    }
    let members = members_at(text, ends, at);
    let next = put_field_head(text, ends, depth, at, members, draft, counts, word)?;
    let typed = members.typed;
    let Some(q) = typed else {
        return Err(Fault {
            why: Why::TypeMissing,
            at,
        });
    };
    put_schema(
        text,
        ends,
        namespace,
        Standing::Alone,
        q,
        depth + 1,
        left,
        draft,
        next,
        word,
        table,
    )
}
