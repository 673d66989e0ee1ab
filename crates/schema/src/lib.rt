// From a declaration's text to its rows.
#![tactic(auto)]

mod definitions;
mod fields;
mod names;
mod schemas;
pub mod walked;
mod words;

ghost use Rattle.std.specs.Prelude.{◌≤◌, length};
ghost use Rattle.answer.specs.Limits.{no_counts};
ghost use Rattle.json_scan.specs.Json.{longest};
ghost use Rattle.view.specs.Known.{Known};
ghost use Rattle.seen.specs.Seen.{Sized};
ghost use Rattle.schema.specs.Schema.{declared, rows_of};
ghost use Rattle.schema.specs.Did.{Did};

use answer::Counts;
use form::Form;
use json_scan::{Scan, scan};
use rules::Standing;
use schemas::put_schema;
use seen::SHARE;
use view::{find_ends, value_start};
pub use walked::Walked;

// The rows of a text that was scanned, with a table of ends that may know nothing yet.
fn walk(text: &[u8], ends: &mut [u16], table: &mut [u64], draft: &mut [u8]) -> Walked
    requires { (length text.now ≤ longest) × Known text.now ends.old × Sized table.old }
    ensures { Did draft.old no_counts draft.new result (rows_of text.now) }
{
    find_ends(text, ends);
    let mut word: [u8; Scan::TEXT] = [0; Scan::TEXT];
    let at = value_start(text);
    let none = Counts::none();
    put_schema(
        text,
        ends,
        b"",
        Standing::Alone,
        at,
        0,
        Form::MOST_NESTED,
        draft,
        none,
        &mut word,
        table,
    )
}

// A text of at most so many bytes gets the smallest table of ends, one of at most so many the second.
const SHORT: usize = 2048;

const MIDDLING: usize = 8192;

// The rows of a declaration, pushed onto the draft from its first row on, or its first fault. A short text needs small tables.
pub fn declare(text: &[u8], draft: &mut [u8]) -> Walked
    ensures { Did draft.old no_counts draft.new result (declared text.now) }
{
    scan(text)?;
    if text.len() <= SHORT {
        let mut few: [u16; SHORT] = [0; SHORT];
        let mut names: [u64; SHORT / SHARE] = [0; SHORT / SHARE];
        return walk(text, &mut few, &mut names, draft);
    }
    if text.len() <= MIDDLING {
        let mut some: [u16; MIDDLING] = [0; MIDDLING];
        let mut names: [u64; MIDDLING / SHARE] = [0; MIDDLING / SHARE];
        return walk(text, &mut some, &mut names, draft);
    }
    let mut all: [u16; Scan::TEXT] = [0; Scan::TEXT];
    let mut names: [u64; Scan::TEXT / SHARE] = [0; Scan::TEXT / SHARE];
    walk(text, &mut all, &mut names, draft)
}
