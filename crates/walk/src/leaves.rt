// Data that have no parts: what each reader says of the bytes from an offset on, the offset behind the datum or what is wrong.
ghost use Rattle.std.specs.Prelude.{◌≡◌, ◌≤◌, length};
ghost use Rattle.binary.specs.Numbers.{long_at};
ghost use Rattle.walk.specs.Walk.{passed, flag, counted, is_size};
ghost use Rattle.walk.specs.Steps.{numbered, leaf_of, Reads, Chooses};

use answer::{Fault, Why};
use binary::number::{Number, NumberError};
use binary::{absolute, int_at, is_negative, long_at};
use row::Kind;

pub(crate) fn fault(why: Why, at: usize) -> Fault
    ensures { result ≡ record { why = why; at = at } }
{
    Fault { why, at }
}

// A number that was asked for at an offset.
#[tactic(auto, unfolding(crate::specs::Steps::numbered))]
pub(crate) fn number(read: Number, bytes: &[u8], at: usize) -> Result<(u64, usize), Fault>
    ensures { result ≡ numbered (length bytes.now) at read }
{
    match read {
        Ok(n) => Ok(n),
        Err(NumberError::Cut) => Err(fault(Why::CutShort, bytes.len())),
        Err(NumberError::Wrong) => Err(fault(Why::NumberWrong, at)),
    }
}

// So many bytes, whatever they are.
fn pass(bytes: &[u8], at: usize, n: u64) -> Result<usize, Fault>
    requires { at ≤ length bytes.now }
    ensures { Reads bytes.now at result (passed bytes.now n) }
{
    let room = bytes.len() - at;
    if (room as u64) < n {
        return Err(fault(Why::CutShort, bytes.len()));
    }
    Ok(at + n as usize)
}

// A boolean.
fn flag(bytes: &[u8], at: usize) -> Result<usize, Fault>
    ensures { Reads bytes.now at result (flag bytes.now) }
{
    let Some(byte) = bytes.get(at) else {
        return Err(fault(Why::CutShort, bytes.len()));
    };
    if 1 < *byte {
        return Err(fault(Why::OutOfRange, at));
    }
    Ok(at + 1)
}

// A length, and so many bytes.
pub(crate) fn counted(bytes: &[u8], at: usize) -> Result<usize, Fault>
    ensures { Reads bytes.now at result (counted bytes.now) }
{
    let (v, to) = number(long_at(bytes, at), bytes, at)?;
    if is_negative(v) {
        return Err(fault(Why::NumberWrong, at));
    }
    pass(bytes, to, absolute(v))
}

// A datum that has no parts, by its kind; a fixed has a size.
pub(crate) fn leaf(bytes: &[u8], kind: Kind, size: u64, at: usize) -> Result<usize, Fault>
    requires { at ≤ length bytes.now }
    ensures { Reads bytes.now at result (leaf_of bytes.now kind size) }
{
    match kind {
        Kind::Boolean => flag(bytes, at),
        Kind::Int => Ok(number(int_at(bytes, at), bytes, at)?.1),
        Kind::Long => Ok(number(long_at(bytes, at), bytes, at)?.1),
        Kind::Float => pass(bytes, at, 4),
        Kind::Double => pass(bytes, at, 8),
        Kind::Bytes | Kind::String => counted(bytes, at),
        Kind::Fixed => pass(bytes, at, size),
        _ => Ok(at),
    }
}

// An int that says which part, from 0, and the offset behind it.
pub(crate) fn choice(bytes: &[u8], at: usize) -> Result<(u64, usize), Fault>
    ensures { Chooses bytes.now at result }
{
    let (v, to) = number(int_at(bytes, at), bytes, at)?;
    if is_negative(v) {
        Err(fault(Why::OutOfRange, at))
    } else {
        Ok((absolute(v), to))
    }
}

// Is the size that stands at an offset right for a block that ends here?
pub(crate) fn is_size(bytes: &[u8], size: usize, to: usize) -> bool
    ensures { result ≡ is_size (long_at bytes.now size) to }
{
    let Ok((z, from)) = long_at(bytes, size) else {
        return false;
    };
    if is_negative(z) || to < from {
        return false;
    }
    absolute(z) == (to - from) as u64
}
