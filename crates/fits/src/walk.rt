// A value and a type, walked together. What is inside a value is answered by the same functions; a verdict that was found is
// noted, and none is sought twice; the same for the definition that a reference stands for.
ghost use Rattle.std.specs.Prelude.{◌≡◌, true, ◌&&◌, ◌+◌, ◌≤◌, ◌<◌, length};
ghost use Rattle.name.specs.Name.{every};
ghost use Rattle.json_scan.specs.Json.{deepest};
ghost use Rattle.row.specs.Layout.{row_limit, layout_length};
ghost use Rattle.row.specs.Sets.{rows_from};
ghost use Rattle.row.specs.Memory.{entry_at};
ghost use Rattle.view.specs.Known.{Known};
ghost use Rattle.view.specs.Elements.{elements};
ghost use Rattle.view.specs.Members.{members_at};
ghost use Rattle.values.specs.Values.{is_array, is_object};
ghost use Rattle.resolve.specs.Rules.{some};
ghost use Rattle.fits.specs.Types.{parts_under};
ghost use Rattle.fits.specs.Fits.{member_fits, field_fits, plain_fits, one_fits, any_fits};
ghost use Rattle.fits.specs.Steps.{is_nested, type_at, fitting, Verdicts, Found};

use crate::definitions::definition;
use crate::leaves::leaf;
use crate::rows::{has_default, is_nested, is_of, next_part, type_row};
use crate::table::{asked, note};
use row::Kind;
use row::read::{depth_at, kind_at, string_of};
use values::{is_array, is_object, under_key, under_word};
use view::{Member, first_element, first_member, next_element, next_member};

// An array, each of whose elements fits the type at a row.
#[cycle(any_array_field_fits_at_map_nested_one_plain_record_of_some_one)]
fn array(
    mem: &[u8],
    n: usize,
    text: &[u8],
    ends: &[u16],
    verdicts: &mut [u8],
    found: &mut [u16],
    left: usize,
    items: usize,
    at: usize,
) -> bool
    requires { (length mem.now ≡ layout_length) × (n ≤ row_limit) × Known text.now ends.now × Verdicts mem.now n text.now verdicts.old × Found mem.now n found.old × (left ≤ deepest) }
    ensures { (result ≡ (is_array text.now at && every (fitting mem.now n text.now left (type_at mem.now n items)) (elements text.now at)))
        × Verdicts mem.now n text.now verdicts.new × Found mem.now n found.new }
{
    if !is_array(text, at) {
        return false;
    }
    let mut spot = first_element(text, at);
    while let Some(p) = spot {
        if !fits_at(mem, n, text, ends, verdicts, found, left, items, p) {
            return false;
        }
        spot = next_element(text, ends, p);
    }
    true
}

// An object, under each of whose keys the value that counts fits the type at a row.
#[cycle(any_array_field_fits_at_map_nested_one_plain_record_of_some_one)]
fn map(
    mem: &[u8],
    n: usize,
    text: &[u8],
    ends: &[u16],
    verdicts: &mut [u8],
    found: &mut [u16],
    left: usize,
    values: usize,
    at: usize,
) -> bool
    requires { (length mem.now ≡ layout_length) × (n ≤ row_limit) × Known text.now ends.now × Verdicts mem.now n text.now verdicts.old × Found mem.now n found.old × (left ≤ deepest) }
    ensures { (result ≡ (is_object text.now at && every (member_fits text.now (fitting mem.now n text.now left) (type_at mem.now n values) at) (members_at text.now at)))
        × Verdicts mem.now n text.now verdicts.new × Found mem.now n found.new }
{
    if !is_object(text, at) {
        return false;
    }
    let mut entry = first_member(text, ends, at);
    while let Some(Member { key, value }) = entry {
        let Some(v) = under_key(text, ends, at, key) else {
            return false;
        };
        if !fits_at(mem, n, text, ends, verdicts, found, left, values, v) {
            return false;
        }
        entry = next_member(text, ends, value);
    }
    true
}

// A row, if it is a field: its value in the object at `at` fits its type, or it has none and a default.
#[cycle(any_array_field_fits_at_map_nested_one_plain_record_of_some_one)]
fn field(
    mem: &[u8],
    n: usize,
    text: &[u8],
    ends: &[u16],
    verdicts: &mut [u8],
    found: &mut [u16],
    left: usize,
    row: usize,
    at: usize,
) -> bool
    requires { (length mem.now ≡ layout_length) × (n ≤ row_limit) × Known text.now ends.now × Verdicts mem.now n text.now verdicts.old × Found mem.now n found.old × (left ≤ deepest) × (row < n) }
    ensures { (result ≡ field_fits text.now (fitting mem.now n text.now left) at (type_at mem.now n row))
        × Verdicts mem.now n text.now verdicts.new × Found mem.now n found.new }
{
    if !is_of(mem, row, Kind::Field) {
        return true;
    }
    let Some(v) = under_word(text, ends, at, string_of(mem, row)) else {
        return has_default(mem, row);
    };
    let own = type_row(mem, n, row + 1);
    fits_at(mem, n, text, ends, verdicts, found, left, own, v)
}

// An object that fits each field of the record at a row.
#[cycle(any_array_field_fits_at_map_nested_one_plain_record_of_some_one)]
fn record_of(
    mem: &[u8],
    n: usize,
    text: &[u8],
    ends: &[u16],
    verdicts: &mut [u8],
    found: &mut [u16],
    left: usize,
    row: usize,
    at: usize,
) -> bool
    requires { (length mem.now ≡ layout_length) × (n ≤ row_limit) × Known text.now ends.now × Verdicts mem.now n text.now verdicts.old × Found mem.now n found.old × (left ≤ deepest) × (row < n) }
    ensures { (result ≡ (is_object text.now at && every (field_fits text.now (fitting mem.now n text.now left) at) (parts_under (entry_at mem.now row).depth (type_at mem.now n (row + 1)))))
        × Verdicts mem.now n text.now verdicts.new × Found mem.now n found.new }
{
    if !is_object(text, at) {
        return false;
    }
    let depth = depth_at(mem, row);
    let mut i = next_part(mem, n, row + 1, depth);
    // Each step goes to the next part, which may stand many rows on: no range fits.
    while i < n {
        if !field(mem, n, text, ends, verdicts, found, left, i, at) {
            return false;
        }
        i = next_part(mem, n, i + 1, depth);
    }
    true
}

// A type whose values have values inside, by its kind.
#[cycle(any_array_field_fits_at_map_nested_one_plain_record_of_some_one)]
fn nested(
    mem: &[u8],
    n: usize,
    text: &[u8],
    ends: &[u16],
    verdicts: &mut [u8],
    found: &mut [u16],
    left: usize,
    row: usize,
    at: usize,
) -> bool
    requires { (length mem.now ≡ layout_length) × (n ≤ row_limit) × Known text.now ends.now × Verdicts mem.now n text.now verdicts.old × Found mem.now n found.old × (left ≤ deepest) × (row < n) × (is_nested (entry_at mem.now row).kind ≡ true) }
    ensures { (result ≡ plain_fits text.now (fitting mem.now n text.now left) (type_at mem.now n row) at)
        × Verdicts mem.now n text.now verdicts.new × Found mem.now n found.new }
{
    if is_of(mem, row, Kind::Array) {
        return array(mem, n, text, ends, verdicts, found, left, row + 1, at);
    }
    if is_of(mem, row, Kind::Map) {
        return map(mem, n, text, ends, verdicts, found, left, row + 1, at);
    }
    record_of(mem, n, text, ends, verdicts, found, left, row, at)
}

// A type that is no union and no reference. Where there are values inside, the table is asked first, and told.
#[cycle(any_array_field_fits_at_map_nested_one_plain_record_of_some_one)]
fn plain(
    mem: &[u8],
    n: usize,
    text: &[u8],
    ends: &[u16],
    verdicts: &mut [u8],
    found: &mut [u16],
    left: usize,
    row: usize,
    at: usize,
) -> bool
    requires { (length mem.now ≡ layout_length) × (n ≤ row_limit) × Known text.now ends.now × Verdicts mem.now n text.now verdicts.old × Found mem.now n found.old × (left ≤ deepest) }
    ensures { (result ≡ plain_fits text.now (fitting mem.now n text.now left) (type_at mem.now n row) at)
        × Verdicts mem.now n text.now verdicts.new × Found mem.now n found.new }
{
    if n <= row {
        return false;
    }
    if !is_nested(kind_at(mem, row)) {
        return leaf(mem, n, text, ends, row, at);
    }
    let no = left * 2 + 1;
    let yes = left * 2 + 2;
    let held = asked(verdicts, n, row, at);
    if held == no {
        return false;
    }
    if held == yes {
        return true;
    }
    if nested(mem, n, text, ends, verdicts, found, left, row, at) {
        note(verdicts, n, row, at, yes);
        return true;
    }
    note(verdicts, n, row, at, no);
    false
}

// A type that is no union: what it refers to, or itself.
#[cycle(any_array_field_fits_at_map_nested_one_plain_record_of_some_one)]
fn one(
    mem: &[u8],
    n: usize,
    text: &[u8],
    ends: &[u16],
    verdicts: &mut [u8],
    found: &mut [u16],
    left: usize,
    row: usize,
    at: usize,
) -> bool
    requires { (length mem.now ≡ layout_length) × (n ≤ row_limit) × Known text.now ends.now × Verdicts mem.now n text.now verdicts.old × Found mem.now n found.old × (left ≤ deepest) × (row < n) }
    ensures { (result ≡ one_fits (rows_from mem.now n 0) text.now (fitting mem.now n text.now left) at (type_at mem.now n row))
        × Verdicts mem.now n text.now verdicts.new × Found mem.now n found.new }
{
    if is_of(mem, row, Kind::Reference) {
        let defined = definition(mem, n, found, row);
        return plain(mem, n, text, ends, verdicts, found, left, defined, at);
    }
    plain(mem, n, text, ends, verdicts, found, left, row, at)
}

// Some member of the union at a row.
#[cycle(any_array_field_fits_at_map_nested_one_plain_record_of_some_one)]
fn some_one(
    mem: &[u8],
    n: usize,
    text: &[u8],
    ends: &[u16],
    verdicts: &mut [u8],
    found: &mut [u16],
    left: usize,
    row: usize,
    at: usize,
) -> bool
    requires { (length mem.now ≡ layout_length) × (n ≤ row_limit) × Known text.now ends.now × Verdicts mem.now n text.now verdicts.old × Found mem.now n found.old × (left ≤ deepest) × (row < n) }
    ensures { (result ≡ some (one_fits (rows_from mem.now n 0) text.now (fitting mem.now n text.now left) at) (parts_under (entry_at mem.now row).depth (type_at mem.now n (row + 1))))
        × Verdicts mem.now n text.now verdicts.new × Found mem.now n found.new }
{
    let depth = depth_at(mem, row);
    let mut m = next_part(mem, n, row + 1, depth);
    // Each step goes to the next part, which may stand many rows on: no range fits.
    while m < n {
        if one(mem, n, text, ends, verdicts, found, left, m, at) {
            return true;
        }
        m = next_part(mem, n, m + 1, depth);
    }
    false
}

// Any type: a union by its members.
#[cycle(any_array_field_fits_at_map_nested_one_plain_record_of_some_one)]
fn any(
    mem: &[u8],
    n: usize,
    text: &[u8],
    ends: &[u16],
    verdicts: &mut [u8],
    found: &mut [u16],
    left: usize,
    row: usize,
    at: usize,
) -> bool
    requires { (length mem.now ≡ layout_length) × (n ≤ row_limit) × Known text.now ends.now × Verdicts mem.now n text.now verdicts.old × Found mem.now n found.old × (left ≤ deepest) }
    ensures { (result ≡ any_fits (rows_from mem.now n 0) text.now (fitting mem.now n text.now left) (type_at mem.now n row) at)
        × Verdicts mem.now n text.now verdicts.new × Found mem.now n found.new }
{
    if n <= row {
        return false;
    }
    if is_of(mem, row, Kind::Union) {
        return some_one(mem, n, text, ends, verdicts, found, left, row, at);
    }
    one(mem, n, text, ends, verdicts, found, left, row, at)
}

// Does the value at `at` fit the type at a row, with so much nesting left?
#[cycle(any_array_field_fits_at_map_nested_one_plain_record_of_some_one)]
pub fn fits_at(
    mem: &[u8],
    n: usize,
    text: &[u8],
    ends: &[u16],
    verdicts: &mut [u8],
    found: &mut [u16],
    left: usize,
    row: usize,
    at: usize,
) -> bool
    requires { (length mem.now ≡ layout_length) × (n ≤ row_limit) × Known text.now ends.now × Verdicts mem.now n text.now verdicts.old × Found mem.now n found.old × (left ≤ deepest + 1) }
    ensures { (result ≡ fitting mem.now n text.now left (type_at mem.now n row) at)
        × Verdicts mem.now n text.now verdicts.new × Found mem.now n found.new }
{
    if left == 0 {
        return false;
    }
    any(mem, n, text, ends, verdicts, found, left - 1, row, at)
}
