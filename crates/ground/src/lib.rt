// Strings of bytes, as every other crate reads, compares and copies them; and the size of a signed number.
#![tactic(auto)]

ghost use Rattle.std.specs.Prelude.{◌≡◌, nat_abs};
ghost use Rattle.ground.specs.Bytes.{byte_at, same, all_zero, store};

// The byte at a place, 0 past the end.
#[tactic(auto, unfolding(crate::specs::Bytes::byte_at))]
pub fn byte_at(s: &[u8], at: usize) -> u8
    ensures { result ≡ byte_at s.now at }
{
    s.get(at).copied().unwrap_or(0)
}

// Are the two the same bytes? Lengths first, then bytes from the last: most strings that are compared differ, and most that differ
// share their beginning.
pub fn same(a: &[u8], b: &[u8]) -> bool
    ensures { result ≡ same a.now b.now }
{
    a.len() == b.len() && a.iter().rev().eq(b.iter().rev())
}

// Is every byte 0? No way out of the loop before its end, so that it goes by many bytes at a turn. (Tried: `all`, which stops at the
// first byte that is not 0; it takes 24 times as long over 50,000 zeros.)
#[tactic(auto, using(crate::proofs::Loops::zero_turn, crate::proofs::Loops::zero_end))]
pub fn all_zero(s: &[u8]) -> bool
    ensures { result ≡ all_zero s.now }
{
    let mut most = 0u8;
    for b in s {
        most = most.max(*b);
    }
    most == 0
}

// Stores the bytes of `from` in `to`, from `at` on, as far as there is room. No way out of the loop before its end, so that it goes
// by many bytes at a turn; by copy_from_slice an archive for C would want memmove from outside.
pub fn copy(to: &mut [u8], at: usize, from: &[u8])
    ensures { to.new ≡ store to.old at «from».now }
{
    let n = from.len().min(to.len().saturating_sub(at));
    for i in 0..n {
        to[at + i] = from[i];
    }
}

// A signed number without its sign.
pub fn magnitude(s: i64) -> u64
    ensures { result ≡ nat_abs s }
{
    s.unsigned_abs()
}
