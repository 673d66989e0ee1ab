// Chains of numbers by slots, in two lent tables: the numbers that were entered under a slot, the last one first. What is on a chain
// is looked at, so that no mark and no slot is trusted with anything; what was entered is on the chain of its slot.
#![tactic(auto)]

ghost use Rattle.std.specs.Prelude.{◌≡◌, ◌+◌, ◌*◌, ◌<◌, length, get_or, set};
ghost use Rattle.chains.specs.Marks.{short_from, spread, mark_of};
ghost use Rattle.chains.specs.Chains.{slots, slot_of};

// A table has so many slots.
pub const SLOTS: usize = 2048;

// The bytes of a short string as a number.
fn short(s: &[u8]) -> usize
    ensures { result ≡ short_from 0 s.now }
{
    s.iter()
        .fold(0, |h, b| h % 72057594037927936 * 256 + usize::from(*b))
}

#[tactic(auto, unfolding(crate::specs::Marks::spread))]
fn spread(n: usize) -> usize
    ensures { (result ≡ spread n) × (result < 2 * slots) }
{
    let low = n % 4294967296 * 2654435761 / 2097152 % SLOTS;
    let high = n / 4294967296 * 2246822519 / 2097152 % SLOTS;
    low + high
}

// A number by which most strings that differ are told apart.
pub fn mark(s: &[u8]) -> usize
    ensures { result ≡ mark_of s.now }
{
    let n = s.len() % SLOTS;
    let (Some(front), Some(back)) = (s.first_chunk::<8>(), s.last_chunk::<8>()) else {
        return n + spread(short(s));
    };
    n + spread(usize::from_le_bytes(*front)) + spread(usize::from_le_bytes(*back))
}

// The slot of a mark; those of different owners lie apart.
#[tactic(auto, unfolding(crate::specs::Chains::slot_of))]
pub fn slot(mark: usize, owner: usize) -> usize
    ensures { (result ≡ slot_of mark owner) × (result < slots) }
{
    (mark % SLOTS + owner % SLOTS * 37) % SLOTS
}

// What a table has at a place: of a slot the number that was entered last, plus 1; of a number the one before it, plus 1.
pub fn at(table: &[u16], i: usize) -> usize
    requires { i < length table.now }
    ensures { result ≡ get_or table.now i 0 }
{
    usize::from(table[i])
}

// A number is entered under a slot.
pub fn enter(first: &mut [u16], next: &mut [u16], slot: usize, n: usize)
    requires { (slot < length first.old) × (n < length next.old) × (n < 65535) }
    ensures { (first.new ≡ set first.old slot (n + 1)) × (next.new ≡ set next.old n (get_or first.old slot 0)) }
{
    next[n] = first[slot];
    first[slot] = (n + 1) as u16;
}
