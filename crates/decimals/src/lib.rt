// How many digits a decimal over a fixed may have: sixteen limits, one for each size from 1 to 16.
#![tactic(auto)]

ghost use Rattle.std.specs.Prelude.{◌≡◌};
ghost use Rattle.decimals.specs.Limits.{limit_of};

// The limit of each size from 1 byte on.
const LIMITS: [u8; 16] = [2, 4, 6, 9, 11, 14, 16, 18, 21, 23, 26, 28, 31, 33, 35, 38];

// The largest precision of a decimal over a fixed of this size. A size of 0 allows none; above 16 the limit stays 38.
#[tactic(auto, using(crate::proofs::Laws::limit_none, crate::proofs::Laws::limit_read, crate::proofs::Laws::limit_stays), unfolding(crate::specs::Limits::limits))]
pub fn limit(size: u64) -> u64
    ensures { result ≡ limit_of size }
{
    match size {
        0 => 0,
        1..=16 => u64::from(LIMITS[(size - 1) as usize]),
        _ => 38,
    }
}
