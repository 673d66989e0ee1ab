// The symbols of an enum: all strings, each simple and new; its default.
ghost use Rattle.std.specs.Prelude.{◌≡◌, not, [], map, ◌≤◌, length};
ghost use Rattle.answer.specs.declared.refusal.Why.TheVariants.{SymbolNotAString, SymbolTwice};
ghost use Rattle.name.specs.Name.{is_one_of};
ghost use Rattle.json_scan.specs.Json.{longest};
ghost use Rattle.view.specs.Values.{shape_at};
ghost use Rattle.view.specs.Strings.{string_at};
ghost use Rattle.view.specs.Elements.{elements};
ghost use Rattle.view.specs.Known.{Known};
ghost use Rattle.view.specs.Marks.{mark_of};
ghost use Rattle.seen.specs.Seen.{Sized, entered, Holds};
ghost use Rattle.form.specs.Checks.{fault, must, ◌then◌, each_of};
ghost use Rattle.form.specs.Spots.{is_text};
ghost use Rattle.form.specs.Names.{simple_check};
ghost use Rattle.rules.specs.Unions.{before};
ghost use Rattle.rules.specs.Symbols.{symbols_new, symbols_check, default_check};

use super::bytes::bytes_at;
use answer::{Fault, Why};
use form::{Check, is_text, must, simple_check};
use json_scan::Scan;
use seen::{enter, forget};
use view::{first_element, mark, next_element, strings_same};

// 13: the first element that is no string.
fn all_strings(text: &[u8], ends: &[u16], array: usize) -> Check
    requires { Known text.now ends.now }
    ensures { result ≡ each_of (λ q. must (is_text (shape_at text.now q)) (fault SymbolNotAString q)) (elements text.now array) }
{
    let mut spot = first_element(text, array);
    while let Some(p) = spot {
        if !is_text(text, p) {
            return Err(Fault {
                why: Why::SymbolNotAString,
                at: p,
            });
        }
        spot = next_element(text, ends, p);
    }
    Ok(())
}

// Is the string at `at` one of the array's strings that stand before a place?
fn is_among(text: &[u8], ends: &[u16], array: usize, place: usize, at: usize) -> bool
    requires { Known text.now ends.now }
    ensures { result ≡ is_one_of (map (string_at text.now) (before place (elements text.now array))) (string_at text.now at) }
{
    let mut spot = first_element(text, array);
    while let Some(p) = spot {
        if p == place {
            return false;
        }
        if strings_same(text, ends, at, p) {
            return true;
        }
        spot = next_element(text, ends, p);
    }
    false
}

// Enters the string at `at`. Is it one of the array's strings that stand before it, which are entered?
fn enter_symbol(text: &[u8], ends: &[u16], array: usize, at: usize, table: &mut [u64]) -> bool
    requires { Known text.now ends.now × Sized table.old × Holds table.old (map (string_at text.now) (before at (elements text.now array))) }
    ensures { (result ≡ is_one_of (map (string_at text.now) (before at (elements text.now array))) (string_at text.now at)) × (table.new ≡ entered table.old (mark_of (string_at text.now at))) }
{
    let own = mark(text, ends, at);
    if enter(table, own) {
        return is_among(text, ends, array, at, at);
    }
    false
}

// A symbol: 7, 9, 14.
fn symbol(
    text: &[u8],
    ends: &[u16],
    array: usize,
    at: usize,
    table: &mut [u64],
    word: &mut [u8; Scan::TEXT],
) -> Check
    requires { (length text.now ≤ longest) × Known text.now ends.now × Sized table.old × Holds table.old (map (string_at text.now) (before at (elements text.now array))) }
    ensures { (result ≡ simple_check text.now at then must (not (is_one_of (map (string_at text.now) (before at (elements text.now array))) (string_at text.now at))) (fault SymbolTwice at)) × (table.new ≡ entered table.old (mark_of (string_at text.now at))) }
{
    let twice = enter_symbol(text, ends, array, at, table);
    simple_check(text, ends, at, word)?;
    must(!twice, Why::SymbolTwice, at)
}

// 7, 9, 14 for each, with an empty table.
fn each_symbol(
    text: &[u8],
    ends: &[u16],
    array: usize,
    table: &mut [u64],
    word: &mut [u8; Scan::TEXT],
) -> Check
    requires { (length text.now ≤ longest) × Known text.now ends.now × Sized table.old }
    ensures { result ≡ symbols_new text.now [] (elements text.now array) }
{
    let mut spot = first_element(text, array);
    while let Some(p) = spot {
        symbol(text, ends, array, p, table, word)?;
        spot = next_element(text, ends, p);
    }
    Ok(())
}

// 7, 9, 14 for each. What the table holds is forgotten.
fn each_new(
    text: &[u8],
    ends: &[u16],
    array: usize,
    table: &mut [u64],
    word: &mut [u8; Scan::TEXT],
) -> Check
    requires { (length text.now ≤ longest) × Known text.now ends.now × Sized table.old }
    ensures { result ≡ symbols_new text.now [] (elements text.now array) }
{
    let n = forget(table, bytes_at(text, ends, array));
    each_symbol(text, ends, array, &mut table[0..n], word)
}

// The `symbols` at a place: 13 for all, then 7, 9, 14 for each.
pub fn symbols_check(
    text: &[u8],
    ends: &[u16],
    array: usize,
    table: &mut [u64],
    word: &mut [u8; Scan::TEXT],
) -> Check
    requires { (length text.now ≤ longest) × Known text.now ends.now × Sized table.old }
    ensures { result ≡ symbols_check text.now (elements text.now array) }
{
    all_strings(text, ends, array)?;
    each_new(text, ends, array, table, word)
}

// The `default` of the enum with the `symbols` at a place: 15, 16. All symbols stand before the text's end.
pub fn default_check(text: &[u8], ends: &[u16], spot: Option<usize>, array: usize) -> Check
    requires { Known text.now ends.now }
    ensures { result ≡ default_check text.now spot (elements text.now array) }
{
    let Some(p) = spot else {
        return Ok(());
    };
    if !is_text(text, p) {
        return Err(Fault {
            why: Why::DefaultNotAString,
            at: p,
        });
    }
    must(
        is_among(text, ends, array, text.len(), p),
        Why::DefaultNotASymbol,
        p,
    )
}
