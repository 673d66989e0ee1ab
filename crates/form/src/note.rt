// A decimal's note, precision and scale.
ghost use Rattle.std.specs.Prelude.{◌≡◌};
ghost use Rattle.form.specs.Notes.{noted, exceeds, compared, with_scale, with_precision, is_decimal, note_of};
ghost use Rattle.view.specs.Known.{Known};

use super::spots::as_text;
use decimals::limit;
use view::{Members, size_literal, string_is};

// The note, 0 where there is no decimal; precision and scale where it is 1.
#[derive(Clone, Copy)]
pub struct Note {
    pub note: u8,
    pub precision: u64,
    pub scale: u64,
}

impl Note {
    // There is no decimal.
    pub const NONE: Note = Note {
        note: 0,
        precision: 0,
        scale: 0,
    };
}

// The type that is left where no decimal holds: bytes, or a fixed with its size. No Option: None would not say that bytes are left.
#[derive(Clone, Copy)]
pub enum Plain {
    Bytes,
    Fixed(u64),
}

fn noted(note: u8) -> Note
    ensures { result ≡ noted note }
{
    Note {
        note,
        precision: 0,
        scale: 0,
    }
}

fn exceeds(plain: Plain, precision: u64) -> bool
    ensures { result ≡ exceeds plain precision }
{
    match plain {
        Plain::Bytes => false,
        Plain::Fixed(size) => limit(size) < precision,
    }
}

fn compared(plain: Plain, precision: u64, scale: u64) -> Note
    ensures { result ≡ compared plain precision scale }
{
    if precision == 0 {
        return noted(5);
    }
    if precision < scale {
        return noted(6);
    }
    if exceeds(plain, precision) {
        return noted(7);
    }
    Note {
        note: 1,
        precision,
        scale,
    }
}

fn with_scale(text: &[u8], members: Members, plain: Plain, precision: u64) -> Note
    ensures { result ≡ with_scale text.now members plain precision }
{
    let spot = members.scale;
    let Some(p) = spot else {
        return compared(plain, precision, 0);
    };
    match size_literal(text, p) {
        Some(scale) => compared(plain, precision, scale),
        None => noted(4),
    }
}

fn with_precision(text: &[u8], members: Members, plain: Plain) -> Note
    ensures { result ≡ with_precision text.now members plain }
{
    let spot = members.precision;
    let Some(p) = spot else {
        return noted(2);
    };
    match size_literal(text, p) {
        Some(precision) => with_scale(text, members, plain, precision),
        None => noted(3),
    }
}

fn is_decimal(text: &[u8], ends: &[u16], members: Members) -> bool
    requires { Known text.now ends.now }
    ensures { result ≡ is_decimal text.now members }
{
    let spot = members.logical_type;
    let Some(p) = as_text(text, spot) else {
        return false;
    };
    string_is(text, ends, p, b"decimal")
}

// The note of the object with these members, whose own `type` is the string `bytes` or `fixed`.
pub fn decimal_note(text: &[u8], ends: &[u16], members: Members, plain: Plain) -> Note
    requires { Known text.now ends.now }
    ensures { result ≡ note_of text.now members plain }
{
    if is_decimal(text, ends, members) {
        return with_precision(text, members, plain);
    }
    Note::NONE
}
