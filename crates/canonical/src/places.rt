// The place of a fingerprint: one check of memory serves all places.
ghost use Rattle.std.specs.Prelude.{◌≡◌, true, ◌<◌, length};
ghost use Rattle.ground.specs.Bytes.{same};
ghost use Rattle.row.specs.Sets.{decode};
ghost use Rattle.formed.specs.WellFormed.{well_formed};
ghost use Rattle.canonical.specs.Calls.{rows_at};
ghost use Rattle.canonical.specs.Walk.{text_limit};
ghost use Rattle.canonical.specs.Places.{print_bytes, place_with};

use crate::answers::Written;
use crate::calls::print_of;
use ground::same;
use rabin::Rabin;
use row::read::declarations;

// Has the declaration at a place these fingerprint bytes?
fn has_print(mem: &[u8], place: usize, print: &[u8], text: &mut [u8]) -> bool
    requires { (well_formed mem.now ≡ true) × (place < length (decode mem.now)) × (length text.old ≡ text_limit) }
    ensures { (result ≡ same print.now (print_bytes (rows_at (decode mem.now) place)))
        × (length text.new ≡ length text.old) }
{
    let state = Rabin {
        state: print_of(mem, place, text),
    };
    let bytes = state.bytes();
    same(print, &bytes)
}

// The first place whose declaration has these fingerprint bytes; the number of declarations where none has. The caller has checked
// the memory, and the text's buffer is laid out once for all places.
pub fn place_with(mem: &[u8], print: &[u8]) -> usize
    requires { well_formed mem.now ≡ true }
    ensures { result ≡ place_with print.now (decode mem.now) }
{
    let n = declarations(mem);
    let mut text = [0u8; Written::LONGEST];
    for place in 0..n {
        if has_print(mem, place, print, &mut text) {
            return place;
        }
    }
    n
}
