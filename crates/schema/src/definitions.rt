// Definitions: their name, row and aliases; enums and fixeds.
ghost use Rattle.std.specs.Prelude.{◌+◌, ◌≤◌, ◌<◌, length};
ghost use Rattle.name.specs.Full.{kept_limit};
ghost use Rattle.json_scan.specs.Json.{longest};
ghost use Rattle.schema.specs.Schema.{enum_rows, fixed_rows};
ghost use Rattle.schema.specs.Did.{Did, Titled, around, headed, head_rows, symbols_rows};
ghost use Rattle.rules.specs.Unions.{name_of};
ghost use Rattle.view.specs.Known.{Known};
ghost use Rattle.seen.specs.Seen.{Sized};

use super::names::{entry, put_aliases, put_symbols};
use super::walked::{Defined, Walked};
use answer::{Counts, Fault, Why};
use form::names::definition;
use form::note::{Note, Plain};
use form::{as_array, as_text, decimal_note, first_alias};
use json_scan::Scan;
use name::{Full, namespace_part};
use row::write::push;
use row::{Entry, Kind};
use rules::{Standing, default_check, new_name, symbols_check};
use view::{Members, size_literal};

// 19, the row with the full name, the aliases, which see the full name's namespace.
fn put_definition(
    text: &[u8],
    ends: &[u16],
    namespace: &[u8],
    standing: Standing,
    row: Entry,
    full: &[u8],
    aliases: Option<usize>,
    draft: &mut [u8],
    counts: Counts,
    word: &mut [u8; Scan::TEXT],
) -> Walked
    requires { (length text.now ≤ longest) × (length full.now ≤ kept_limit) × (row.depth < 65535) × Known text.now ends.now }
    ensures { Did draft.old counts draft.new result (headed text.now (around namespace.now standing) row full.now aliases) }
{
    new_name(text, ends, namespace, standing, full, word)?;
    let depth = row.depth;
    let next = push(draft, counts, row, full);
    let first = first_alias(text, ends, aliases);
    put_aliases(
        text,
        ends,
        namespace_part(full),
        depth + 1,
        first,
        draft,
        next,
        word,
    )
}

// The definition at `at` with these members, up to its aliases.
pub(crate) fn define(
    text: &[u8],
    ends: &[u16],
    namespace: &[u8],
    word: &mut [u8; Scan::TEXT],
    full: &mut [u8; Full::LONGEST],
    draft: &mut [u8],
    counts: Counts,
    standing: Standing,
    kind: Kind,
    depth: u16,
    at: usize,
    members: Members,
    size: u64,
    note: Note,
) -> Result<Defined, Fault>
    requires { (length text.now ≤ longest) × (depth < 65535) × Known text.now ends.now }
    ensures { Titled draft.old counts draft.new result full.new (name_of text.now namespace.now members) (head_rows text.now (around namespace.now standing) kind depth at members size note) }
{
    let name = members.name;
    let Some(q) = as_text(text, name) else {
        return Err(Fault {
            why: Why::NameMissing,
            at,
        });
    };
    let n = definition(text, ends, namespace, members, q, word, full)?;
    let row = entry(kind, depth, q, size, note);
    let aliases = members.aliases;
    let all = &full[..];
    let next = put_definition(
        text,
        ends,
        namespace,
        standing,
        row,
        &all[0..n],
        aliases,
        draft,
        counts,
        word,
    )?;
    Ok(Defined { name: n, next })
}

// ---- enums

// The symbols of the enum at `at` with these members.
fn put_checked_symbols(
    text: &[u8],
    ends: &[u16],
    depth: u16,
    at: usize,
    members: Members,
    draft: &mut [u8],
    counts: Counts,
    word: &mut [u8; Scan::TEXT],
    table: &mut [u64],
) -> Walked
    requires { (length text.now ≤ longest) × Known text.now ends.now × Sized table.old }
    ensures { Did draft.old counts draft.new result (symbols_rows text.now depth at members) }
{
    let symbols = members.symbols;
    let Some(v) = as_array(text, symbols) else {
        return Err(Fault {
            why: Why::SymbolsMissing,
            at,
        });
    };
    symbols_check(text, ends, v, table, word)?;
    let default = members.default;
    default_check(text, ends, default, v)?;
    put_symbols(text, ends, depth, v, draft, counts, word)
}

pub(crate) fn put_enum(
    text: &[u8],
    ends: &[u16],
    namespace: &[u8],
    standing: Standing,
    depth: u16,
    at: usize,
    members: Members,
    draft: &mut [u8],
    counts: Counts,
    word: &mut [u8; Scan::TEXT],
    table: &mut [u64],
) -> Walked
    requires { (length text.now ≤ longest) × (depth < 65535) × Known text.now ends.now × Sized table.old }
    ensures { Did draft.old counts draft.new result (enum_rows text.now (around namespace.now standing) depth at members) }
{
    let mut full: [u8; Full::LONGEST] = [0; Full::LONGEST];
    let defined = define(
        text,
        ends,
        namespace,
        word,
        &mut full,
        draft,
        counts,
        standing,
        Kind::Enum,
        depth,
        at,
        members,
        0,
        Note::NONE,
    )?;
    let next = defined.next;
    put_checked_symbols(text, ends, depth + 1, at, members, draft, next, word, table)
}

// ---- fixeds

pub(crate) fn put_fixed(
    text: &[u8],
    ends: &[u16],
    namespace: &[u8],
    standing: Standing,
    depth: u16,
    at: usize,
    members: Members,
    draft: &mut [u8],
    counts: Counts,
    word: &mut [u8; Scan::TEXT],
) -> Walked
    requires { (length text.now ≤ longest) × (depth < 65535) × Known text.now ends.now }
    ensures { Did draft.old counts draft.new result (fixed_rows text.now (around namespace.now standing) depth at members) }
{
    let spot = members.size;
    let Some(v) = spot else {
        return Err(Fault {
            why: Why::SizeMissing,
            at,
        });
    };
    let Some(size) = size_literal(text, v) else {
        return Err(Fault {
            why: Why::NotASize,
            at: v,
        });
    };
    let mut full: [u8; Full::LONGEST] = [0; Full::LONGEST];
    let note = decimal_note(text, ends, members, Plain::Fixed(size));
    let defined = define(
        text,
        ends,
        namespace,
        word,
        &mut full,
        draft,
        counts,
        standing,
        Kind::Fixed,
        depth,
        at,
        members,
        size,
        note,
    )?;
    Ok(defined.next)
}
