// Numbers in Avro's binary encoding.
#![tactic(auto)]

pub mod number;

ghost use Rattle.std.specs.Prelude.{◌≡◌, ◌≤◌, ◌<◌, ◌^◌, length, drop};
ghost use Rattle.binary.specs.Numbers.{groups, within, int_at, long_at, is_negative, absolute};

use number::{Number, NumberError};

// A number of at most so many groups, of 64 bits. Before the tenth group the power is at most 2^63, so that nothing overflows: of
// a tenth group only 0 and 1 fit.
fn read(bytes: &[u8], at: usize, most: usize) -> Number
    requires { (0 < most) × (most ≤ 10) }
    ensures { result ≡ within (2 ^ 64) at (groups most (drop at bytes.now)) }
{
    let Some(rest) = bytes.get(at..) else {
        return Err(NumberError::Cut);
    };
    let mut value: u64 = 0;
    let mut power: u64 = 1;
    for i in 0..most {
        let Some(group) = rest.get(i) else {
            return Err(NumberError::Cut);
        };
        let b = u64::from(*group);
        if b < 128 {
            if i == 9 && 1 < b {
                return Err(NumberError::Wrong);
            }
            return Ok((value + power * b, at + i + 1));
        }
        if i == 9 {
            return Err(NumberError::Wrong);
        }
        value += power * (b - 128);
        power *= 128;
    }
    Err(NumberError::Wrong)
}

// The int that stands at a place; past the end of the input it is cut off.
pub fn int_at(bytes: &[u8], at: usize) -> Number
    ensures { result ≡ int_at bytes.now at }
{
    let (value, to) = read(bytes, at, 5)?;
    if value <= u64::from(u32::MAX) {
        Ok((value, to))
    } else {
        Err(NumberError::Wrong)
    }
}

// The long that stands at a place; past the end of the input it is cut off.
#[tactic(auto, unfolding(crate::specs::Numbers::long_at))]
pub fn long_at(bytes: &[u8], at: usize) -> Number
    ensures { result ≡ long_at bytes.now at }
{
    read(bytes, at, 10)
}

// Does what is written stand for a number below 0?
#[tactic(auto, unfolding(crate::specs::Numbers::is_negative))]
pub fn is_negative(v: u64) -> bool
    ensures { result ≡ is_negative v }
{
    v % 2 == 1
}

// How far from 0 the number is that it stands for; at most 2^63.
#[tactic(auto, unfolding(crate::specs::Numbers::absolute))]
pub fn absolute(v: u64) -> u64
    ensures { result ≡ absolute v }
{
    v / 2 + v % 2
}
