// Values: the readers of values, arrays and objects call each other.
ghost use Rattle.std.specs.Prelude.{◌≡◌, ◌<◌, get_or};
ghost use Rattle.json_scan.specs.Json.{val, key, colon, square, brace, first, key0};
ghost use Rattle.json_scan.specs.Meets.{Reads, ReadsIn, Brackets, Follows, Simple};

use crate::number::number;
use crate::step::{More, Step, bad, byte, literal, skip};
use crate::string::string;
use answer::{Fault, Why};
use ground::byte_at;

// A value that is no array and no object.
pub(crate) fn scalar(text: &[u8], at: usize, b: u8) -> Step
    requires { b ≡ get_or text.now at 0 }
    ensures { Simple text.now at b result }
{
    match b {
        b'"' => string(text, at + 1),
        b'-' => number(text, at + 1),
        b't' => literal(text, at + 1, b"rue"),
        b'f' => literal(text, at + 1, b"alse"),
        b'n' => literal(text, at + 1, b"ull"),
        b'0'..=b'9' => number(text, at),
        _ => bad(at),
    }
}

// After an element or a member.
pub(crate) fn next_item(text: &[u8], from: usize, close: u8) -> Result<More, Fault>
    requires { 0 < close }
    ensures { Follows text.now from close result }
{
    let at = skip(text, from);
    let b = byte_at(text, at);
    if b == close {
        Ok(More::Closed(at + 1))
    } else if b == b',' {
        Ok(More::Again(at + 1))
    } else {
        Err(Fault {
            why: Why::NotJson,
            at,
        })
    }
}

// A key with its colon.
pub(crate) fn key(text: &[u8], from: usize) -> Step
    ensures { Reads text.now from key val result }
{
    let at = skip(text, from);
    let s = byte(text, at, b'"')?;
    let e = string(text, s)?;
    colon(text, e)
}

pub(crate) fn colon(text: &[u8], from: usize) -> Step
    ensures { Reads text.now from colon val result }
{
    let at = skip(text, from);
    byte(text, at, b':')
}

// A value, in brackets of which `left` more may be opened.
// One function that counts `left` down, with `?`, was tried: numbers took a seventh longer, deeply nested brackets a tenth.
#[cycle(array_object_value)]
pub(crate) fn value(text: &[u8], from: usize, left: usize) -> Step
    ensures { ReadsIn text.now from left val result }
{
    let at = skip(text, from);
    let b = byte_at(text, at);
    if b == b'[' {
        if left == 0 {
            return Err(Fault {
                why: Why::NestedTooDeep,
                at,
            });
        }
        array(text, at + 1, left - 1)
    } else if b == b'{' {
        if left == 0 {
            return Err(Fault {
                why: Why::NestedTooDeep,
                at,
            });
        }
        object(text, at + 1, left - 1)
    } else {
        scalar(text, at, b)
    }
}

// An array, after its bracket.
#[cycle(array_object_value)]
pub(crate) fn array(text: &[u8], from: usize, left: usize) -> Step
    ensures { Brackets text.now from left square first result }
{
    let start = skip(text, from);
    if byte_at(text, start) == b']' {
        return Ok(start + 1);
    }
    let mut at = start;
    loop {
        let e = value(text, at, left)?;
        match next_item(text, e, b']')? {
            More::Again(a) => {
                at = a;
            }
            More::Closed(a) => return Ok(a),
        }
    }
}

// An object, after its brace.
#[cycle(array_object_value)]
pub(crate) fn object(text: &[u8], from: usize, left: usize) -> Step
    ensures { Brackets text.now from left brace key0 result }
{
    let start = skip(text, from);
    if byte_at(text, start) == b'}' {
        return Ok(start + 1);
    }
    let mut at = start;
    loop {
        let v = key(text, at)?;
        let e = value(text, v, left)?;
        match next_item(text, e, b'}')? {
            More::Again(a) => {
                at = a;
            }
            More::Closed(a) => return Ok(a),
        }
    }
}
