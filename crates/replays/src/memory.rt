// The program's memory, and the bytes that a command gives.
ghost use Rattle.std.specs.Prelude.{◌≡◌, length, take};
ghost use Rattle.replays.specs.Memory.{has_room, poked};

use ground::copy;
use row::Layout;

// What is there to lend: more than a set takes.
pub(crate) const MEMORY: usize = Layout::LENGTH + 64;

// Does the memory have n bytes from a place on?
fn has_room(mem: &[u8], at: usize, n: usize) -> bool
    ensures { result ≡ has_room mem.now at n }
{
    at <= mem.len() && n <= mem.len() - at
}

// The bytes into memory, if all of them have room.
#[tactic(auto, unfolding(crate::specs::Memory::poked))]
pub(crate) fn poke(mem: &mut [u8], at: usize, bytes: &[u8]) -> bool
    ensures { (result ≡ has_room mem.old at (length bytes.now))
        × (mem.new ≡ poked mem.old at bytes.now) }
{
    let fits = has_room(mem, at, bytes.len());
    if fits {
        copy(mem, at, bytes);
    }
    fits
}

// The first n bytes, or all where they are fewer.
pub(crate) fn first(bytes: &[u8], n: usize) -> &[u8]
    ensures { result.now ≡ take n bytes.now }
{
    &bytes[..n.min(bytes.len())]
}
