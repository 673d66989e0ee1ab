// The calls: a whole summary, the place of a fingerprint, a datum by the declaration at a place.
ghost use Rattle.std.specs.Prelude.{◌≡◌, true, false, ◌+◌, ◌≤◌, ◌<◌, length, take, MatchResult};
ghost use Rattle.answer.specs.declared.refusal.Why.TheVariants.{NotWellFormed, FingerprintUnknown};
ghost use Rattle.rabin.specs.Rabin.{bytes_of};
ghost use Rattle.row.specs.Sets.{decode};
ghost use Rattle.canonical.specs.Places.{place_with};
ghost use Rattle.formed.specs.WellFormed.{well_formed};
ghost use Rattle.summary.specs.Summary.{refusal, datum_in, in_room, marker_at, summary_of, datum_of, place_of};
ghost use Rattle.summary.specs.Calls.{numbers_of_offsets, reading_of, list_after, numbers_of_place, finding_of};

use answer::{Answer, Refusal, Why};
use canonical::place_with;
use formed::well_formed;
use rabin::Rabin;
use row::read::{declarations, rows_before};
use walk::{OFFSETS, walk};

fn refusal(why: Why, place: usize, at: usize) -> Refusal
    ensures { result ≡ refusal why place at }
{
    Refusal { why, place, at }
}

// 20, with a place, where the memory is not well formed.
fn checked(mem: &[u8], place: usize) -> Answer<()>
    ensures { MatchResult result (λ _. well_formed mem.now ≡ true)
        (λ r. (well_formed mem.now ≡ false) × (r ≡ refusal NotWellFormed place 0)) }
{
    if well_formed(mem) {
        Ok(())
    } else {
        Err(refusal(Why::NotWellFormed, place, 0))
    }
}

// The datum of the declaration at a place, in the bytes from an offset on: that place, and how many offsets are in the list; 29 has the place that was asked
// for.
fn read(
    mem: &[u8],
    place: usize,
    bytes: &[u8],
    at: usize,
    asked: usize,
    list: &mut [usize],
) -> Answer<(usize, usize)>
    requires { (well_formed mem.now ≡ true) × (place < length (decode mem.now)) × (at ≤ length bytes.now) }
    ensures { (numbers_of_offsets result ≡ reading_of (in_room asked (length list.old) (datum_in (decode mem.now) place bytes.now at)))
        × (list.new ≡ list_after (in_room asked (length list.old) (datum_in (decode mem.now) place bytes.now at)) list.old) }
{
    let mut offsets: [usize; OFFSETS] = [0; OFFSETS];
    let rows = rows_before(mem, declarations(mem));
    let start = rows_before(mem, place);
    let (to, given) = walk(mem, rows, start, bytes, at, &mut offsets).map_err(|f| f.placed(place))?;
    if to < bytes.len() {
        return Err(refusal(Why::BytesLeftOver, place, to));
    }
    let n = given + 1;
    if list.len() < n {
        return Err(refusal(Why::NoRoom, asked, n));
    }
    offsets[given] = to;
    list[..n].copy_from_slice(&offsets[..n]);
    Ok((place, n))
}

// Where the marker C3 01 is wrong or cut; 2 where it is right.
#[tactic(auto, unfolding(crate::specs::Summary::marker_at))]
fn marker_at(bytes: &[u8]) -> usize
    ensures { result ≡ marker_at bytes.now }
{
    match bytes {
        [0xc3, 1, ..] => 2,
        [0xc3] => 1,
        _ => 0,
    }
}

// The first place whose declaration has these fingerprint bytes; 41, at a position, where none has.
fn place_of(mem: &[u8], print: &[u8], at: usize) -> Answer<usize>
    requires { well_formed mem.now ≡ true }
    ensures { MatchResult result (λ place. (place ≡ place_with print.now (decode mem.now)) × (place < length (decode mem.now)))
        (λ r. (length (decode mem.now) ≤ place_with print.now (decode mem.now)) × (r ≡ refusal FingerprintUnknown 0 at)) }
{
    let place = place_with(mem, print);
    if place < declarations(mem) {
        Ok(place)
    } else {
        Err(refusal(Why::FingerprintUnknown, 0, at))
    }
}

// A whole summary: its declaration is found by its fingerprint, and its datum is walked. Offsets count the marker's first byte as 0. The answer is the
// declaration's place, and how many offsets are in the list.
pub fn summary(mem: &[u8], bytes: &[u8], list: &mut [usize]) -> Answer<(usize, usize)>
    ensures { (numbers_of_offsets result ≡ reading_of (summary_of mem.now bytes.now (length list.old)))
        × (list.new ≡ list_after (summary_of mem.now bytes.now (length list.old)) list.old) }
{
    checked(mem, 0)?;
    let marker = marker_at(bytes);
    if marker != 2 {
        return Err(refusal(Why::MarkerWrong, 0, marker));
    }
    if bytes.len() < 10 {
        return Err(refusal(Why::CutShort, 0, bytes.len()));
    }
    let place = place_of(mem, &bytes[2..10], 2)?;
    read(mem, place, bytes, 10, 0, list)
}

// The first place whose declaration has a fingerprint.
pub fn find(mem: &[u8], fingerprint: i64) -> Answer<usize>
    ensures { numbers_of_place result ≡ finding_of (place_of mem.now (bytes_of fingerprint)) }
{
    checked(mem, 0)?;
    let print = Rabin { state: fingerprint }.bytes();
    place_of(mem, &print, 0)
}

// A datum by the declaration at a place. Offsets count its first byte as 0.
pub fn datum(mem: &[u8], place: usize, bytes: &[u8], list: &mut [usize]) -> Answer<(usize, usize)>
    ensures { (numbers_of_offsets result ≡ reading_of (datum_of mem.now place bytes.now (length list.old)))
        × (list.new ≡ list_after (datum_of mem.now place bytes.now (length list.old)) list.old) }
{
    checked(mem, place)?;
    if declarations(mem) <= place {
        return Err(refusal(Why::NoSuchPlace, place, 0));
    }
    read(mem, place, bytes, 0, place, list)
}
