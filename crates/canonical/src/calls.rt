// The calls: the canonical text's length, the text into the caller's buffer, its fingerprint.
ghost use Rattle.std.specs.Prelude.{◌≡◌, true, ◌+◌, ◌<◌, leb, length, MatchResult};
ghost use Rattle.rabin.specs.Rabin.{rabin_of};
ghost use Rattle.row.specs.Sets.{decode};
ghost use Rattle.formed.specs.WellFormed.{well_formed};
ghost use Rattle.canonical.specs.Canonical.{canonical_of};
ghost use Rattle.canonical.specs.Calls.{refused, rows_at, text_at, written_at, numbers_of_written, length_of, buffer_after, numbers_of_print, print_of};
ghost use Rattle.canonical.specs.Walk.{text_limit};
ghost use Rattle.canonical.specs.Wrote.{Wrote};

use crate::answers::Written;
use crate::text::write_piece;
use answer::{Answer, Refusal, Why};
use formed::well_formed;
use row::read::{declarations, rows_before, rows_of};

// The canonical text of the declaration at a place, as far as the part has room.
fn write_declaration(mem: &[u8], place: usize, part: &mut [u8]) -> usize
    requires { (well_formed mem.now ≡ true) × (place < length (decode mem.now)) }
    ensures { Wrote part.old 0 part.new result (canonical_of (rows_at (decode mem.now) place)) }
{
    let start = rows_before(mem, place);
    let n = rows_of(mem, place);
    write_piece(mem, start, start + n, n, part)
}

// Is memory a well-formed set, and is there a declaration at the place?
fn found(mem: &[u8], place: usize) -> Answer<()>
    ensures { MatchResult result (λ _. (well_formed mem.now ≡ true) × (place < length (decode mem.now))) (λ r. text_at mem.now place ≡ refused r) }
{
    if !well_formed(mem) {
        return Err(Refusal {
            why: Why::NotWellFormed,
            place,
            at: 0,
        });
    }
    if declarations(mem) <= place {
        return Err(Refusal {
            why: Why::NoSuchPlace,
            place,
            at: 0,
        });
    }
    Ok(())
}

// How long the canonical text of the declaration at a place is: written where there is no room.
pub fn canonical_length(mem: &[u8], place: usize) -> Answer<usize>
    ensures { numbers_of_written result ≡ length_of (text_at mem.now place) }
{
    found(mem, place)?;
    Ok(write_declaration(mem, place, &mut []))
}

// Is there room for n bytes from an offset on?
fn has_room(n: usize, offset: usize, room: usize) -> bool
    ensures { result ≡ leb (offset + n) room }
{
    n <= room && offset <= room - n
}

// The canonical text of the declaration at a place into a buffer, from an offset on.
pub fn canonical(mem: &[u8], place: usize, buffer: &mut [u8], offset: usize) -> Answer<usize>
    ensures { (numbers_of_written result ≡ length_of (written_at mem.now place offset (length buffer.old)))
        × (buffer.new ≡ buffer_after (written_at mem.now place offset (length buffer.old)) buffer.old offset) }
{
    let n = canonical_length(mem, place)?;
    if !has_room(n, offset, buffer.len()) {
        return Err(Refusal {
            why: Why::NoRoom,
            place,
            at: n,
        });
    }
    write_declaration(mem, place, &mut buffer[offset..]);
    Ok(n)
}

// The fingerprint of the canonical text of the declaration at a place, by way of a buffer that has room for any such text.
pub(crate) fn print_of(mem: &[u8], place: usize, text: &mut [u8]) -> i64
    requires { (well_formed mem.now ≡ true) × (place < length (decode mem.now)) × (length text.old ≡ text_limit) }
    ensures { (result ≡ rabin_of (canonical_of (rows_at (decode mem.now) place))) × (length text.new ≡ length text.old) }
{
    let n = write_declaration(mem, place, text);
    rabin::fingerprint(&text[0..n])
}

// The fingerprint of the canonical text of the declaration at a place.
pub fn fingerprint(mem: &[u8], place: usize) -> Answer<i64>
    ensures { numbers_of_print result ≡ print_of (text_at mem.now place) }
{
    found(mem, place)?;
    let mut text = [0u8; Written::LONGEST];
    Ok(print_of(mem, place, &mut text))
}
