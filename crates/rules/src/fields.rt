// Field names in order: refused if equal to an earlier field's name or alias.
ghost use Rattle.std.specs.Prelude.{◌≡◌, not, cond, ◌&&◌, [], ◌∷◌, map, Ok};
ghost use Rattle.answer.specs.declared.refusal.Why.TheVariants.{FieldNameTaken};
ghost use Rattle.name.specs.Name.{is_one_of};
ghost use Rattle.view.specs.Strings.{string_at};
ghost use Rattle.view.specs.Elements.{elements};
ghost use Rattle.view.specs.Values.{shape_at};
ghost use Rattle.view.specs.Known.{Known};
ghost use Rattle.view.specs.Marks.{mark_of};
ghost use Rattle.seen.specs.Seen.{Sized, is_marked, Holds};
ghost use Rattle.form.specs.Checks.{fault, must};
ghost use Rattle.form.specs.Spots.{on_spot, is_object, as_text, aliases_in, fields_in};
ghost use Rattle.rules.specs.Unions.{before};
ghost use Rattle.rules.specs.Fields.{field_name_at, field_name, taken_by, taken_among, entered_all, field_names_check};

use super::bytes::bytes_at;
use answer::Why;
use form::{Check, as_text, first_alias, is_object, must};
use seen::{enter, forget};
use view::{first_element, mark, next_element, strings_same, titles_at};

// Where the name of the field at `at` is, whose member `name` has its value at the place.
fn name_at(text: &[u8], at: usize, name: Option<usize>) -> usize
    ensures { result ≡ on_spot (as_text text.now name) (λ q. q) at }
{
    match as_text(text, name) {
        Some(p) => p,
        None => at,
    }
}

// Is the string at `at` one of the strings of `aliases`, whose value is at the place?
fn is_alias(text: &[u8], ends: &[u16], aliases: Option<usize>, at: usize) -> bool
    requires { Known text.now ends.now }
    ensures { result ≡ is_one_of (map (string_at text.now) (aliases_in text.now aliases)) (string_at text.now at) }
{
    let mut spot = first_alias(text, ends, aliases);
    while let Some(p) = spot {
        if strings_same(text, ends, at, p) {
            return true;
        }
        spot = next_element(text, ends, p);
    }
    false
}

// Does the field take the string at `at`, as its name or an alias?
fn takes(text: &[u8], ends: &[u16], field: usize, at: usize) -> bool
    requires { Known text.now ends.now }
    ensures { result ≡ is_one_of (taken_by text.now field) (string_at text.now at) }
{
    let titles = titles_at(text, ends, field);
    let name = titles.name;
    if strings_same(text, ends, at, name_at(text, field, name)) {
        return true;
    }
    let aliases = titles.aliases;
    is_alias(text, ends, aliases, at)
}

// Is what stands here a field that takes the string at `at`?
fn is_taker(text: &[u8], ends: &[u16], field: usize, at: usize) -> bool
    requires { Known text.now ends.now }
    ensures { result ≡ (is_object (shape_at text.now field) && is_one_of (taken_by text.now field) (string_at text.now at)) }
{
    if is_object(text, field) {
        return takes(text, ends, field, at);
    }
    false
}

// Does a field of the array that stands before a place take the string at `at`?
fn is_taken(text: &[u8], ends: &[u16], array: usize, place: usize, at: usize) -> bool
    requires { Known text.now ends.now }
    ensures { result ≡ is_one_of (taken_among text.now (before place (elements text.now array))) (string_at text.now at) }
{
    let mut spot = first_element(text, array);
    while let Some(p) = spot {
        if p == place {
            return false;
        }
        if is_taker(text, ends, p, at) {
            return true;
        }
        spot = next_element(text, ends, p);
    }
    false
}

// Enters the strings of `aliases`, whose value is at the place.
fn enter_aliases(text: &[u8], ends: &[u16], aliases: Option<usize>, table: &mut [u64])
    requires { Known text.now ends.now × Sized table.old }
    ensures { table.new ≡ entered_all table.old (map (string_at text.now) (aliases_in text.now aliases)) }
{
    let mut spot = first_alias(text, ends, aliases);
    while let Some(p) = spot {
        let own = mark(text, ends, p);
        enter(table, own);
        spot = next_element(text, ends, p);
    }
}

// Enters what a field takes, its name and its aliases. Was its name marked before?
fn enter_names(
    text: &[u8],
    ends: &[u16],
    name: usize,
    aliases: Option<usize>,
    table: &mut [u64],
) -> bool
    requires { Known text.now ends.now × Sized table.old }
    ensures { (result ≡ is_marked table.old (mark_of (string_at text.now name))) × (table.new ≡ entered_all table.old (string_at text.now name ∷ map (string_at text.now) (aliases_in text.now aliases))) }
{
    let own = mark(text, ends, name);
    let was = enter(table, own);
    enter_aliases(text, ends, aliases, table);
    was
}

// 11, for what stands at one place of the array: where it is no object it is no field. What the fields before it take is
// entered; a name that is not marked is surely new, and for one that is they are asked.
fn field_name(text: &[u8], ends: &[u16], array: usize, at: usize, table: &mut [u64]) -> Check
    requires { Known text.now ends.now × Sized table.old × Holds table.old (taken_among text.now (before at (elements text.now array))) }
    ensures { (result ≡ cond (is_object (shape_at text.now at)) (must (not (is_one_of (taken_among text.now (before at (elements text.now array))) (field_name text.now at))) (fault FieldNameTaken (field_name_at text.now at))) (Ok tt)) × (table.new ≡ entered_all table.old (cond (is_object (shape_at text.now at)) (taken_by text.now at) [])) }
{
    if !is_object(text, at) {
        return Ok(());
    }
    let titles = titles_at(text, ends, at);
    let spot = titles.name;
    let name = name_at(text, at, spot);
    let aliases = titles.aliases;
    if !enter_names(text, ends, name, aliases, table) {
        return Ok(());
    }
    must(
        !is_taken(text, ends, array, at, name),
        Why::FieldNameTaken,
        name,
    )
}

// 11, for the `fields` at a place, with an empty table.
fn all_names(text: &[u8], ends: &[u16], array: usize, table: &mut [u64]) -> Check
    requires { Known text.now ends.now × Sized table.old }
    ensures { result ≡ field_names_check text.now [] (fields_in text.now array) }
{
    let mut spot = first_element(text, array);
    while let Some(p) = spot {
        field_name(text, ends, array, p, table)?;
        spot = next_element(text, ends, p);
    }
    Ok(())
}

// 11, for the `fields` at a place. What the table holds is forgotten.
pub fn field_names(text: &[u8], ends: &[u16], array: usize, table: &mut [u64]) -> Check
    requires { Known text.now ends.now × Sized table.old }
    ensures { result ≡ field_names_check text.now [] (fields_in text.now array) }
{
    let n = forget(table, bytes_at(text, ends, array));
    all_names(text, ends, array, &mut table[0..n])
}
