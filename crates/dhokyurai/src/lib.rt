// The calls of a set for C and Rust, on pointers, lengths and numbers. include/dhokyurai.h says what each promises.
// Each answers 0 where it is accepted, and else the refusal's number.
#![tactic(auto)]

mod numbers;

ghost use Rattle.std.specs.Prelude.{◌≡◌, length};
ghost use Rattle.ground.specs.Bytes.{store};
ghost use Rattle.rabin.specs.Rabin.{bytes_of};
ghost use Rattle.row.specs.Layout.{layout_length};
ghost use Rattle.set.specs.Calls.{answer_of, memory_of, opened, put};
ghost use Rattle.set.specs.Naming.{full_name_in, naming_of};
ghost use Rattle.canonical.specs.Calls.{text_at, written_at, length_of, buffer_after, print_of};
ghost use Rattle.summary.specs.Summary.{summary_of, place_of, datum_of};
ghost use Rattle.summary.specs.Calls.{reading_of, list_after, finding_of};
ghost use Rattle.dhokyurai.specs.Signed.{signed};

use answer::Numbers;
use ground::copy;
use row::Layout;

// How many bytes the memory of a set has.
#[unsafe(no_mangle)]
pub extern "C" fn dhokyurai_memory_length() -> usize
    ensures { result ≡ layout_length }
{
    Layout::LENGTH
}

#[unsafe(no_mangle)]
pub extern "C" fn dhokyurai_open(
    memory: &mut [u8],
    a: &mut usize,
    b: &mut usize,
    c: &mut usize,
) -> u8
    ensures { (result ≡ (answer_of (opened memory.old)).number)
        × (memory.new ≡ memory_of memory.old (opened memory.old))
        × (a.new ≡ (answer_of (opened memory.old)).first)
        × (b.new ≡ (answer_of (opened memory.old)).second)
        × (c.new ≡ (answer_of (opened memory.old)).third) }
{
    let n = Numbers::of(set::open(memory));
    *a = n.first;
    *b = n.second;
    *c = n.third;
    n.number
}

#[unsafe(no_mangle)]
pub extern "C" fn dhokyurai_put(
    memory: &mut [u8],
    place: usize,
    text: &[u8],
    a: &mut usize,
    b: &mut usize,
    c: &mut usize,
) -> u8
    ensures { (result ≡ (answer_of (put memory.old place text.now)).number)
        × (memory.new ≡ memory_of memory.old (put memory.old place text.now))
        × (a.new ≡ (answer_of (put memory.old place text.now)).first)
        × (b.new ≡ (answer_of (put memory.old place text.now)).second)
        × (c.new ≡ (answer_of (put memory.old place text.now)).third) }
{
    let n = Numbers::of(set::put(memory, place, text));
    *a = n.first;
    *b = n.second;
    *c = n.third;
    n.number
}

// The full name's length; where there is no name, why. So memory is checked once for a name that is there.
fn named(memory: &[u8], place: usize, row: usize, name: &[u8]) -> Numbers
    requires { name.now ≡ full_name_in memory.now place row }
    ensures { result ≡ naming_of memory.now place row }
{
    if name.len() == 0 {
        return numbers::of_value(set::naming_of(memory, place, row));
    }
    Numbers::accepted(name.len())
}

// The full name of a row into a buffer, as far as there is room; 255 bytes hold any.
#[unsafe(no_mangle)]
pub extern "C" fn dhokyurai_full_name(
    memory: &[u8],
    place: usize,
    row: usize,
    buffer: &mut [u8],
    a: &mut usize,
    b: &mut usize,
) -> u8
    ensures { (result ≡ (naming_of memory.now place row).number)
        × (buffer.new ≡ store buffer.old 0 (full_name_in memory.now place row))
        × (a.new ≡ (naming_of memory.now place row).first)
        × (b.new ≡ (naming_of memory.now place row).second) }
{
    let name = set::full_name(memory, place, row);
    copy(buffer, 0, name);
    let n = named(memory, place, row, name);
    *a = n.first;
    *b = n.second;
    n.number
}

// The canonical text of the declaration at a place into a buffer, from an offset on.
#[unsafe(no_mangle)]
pub extern "C" fn dhokyurai_canonical(
    memory: &[u8],
    place: usize,
    buffer: &mut [u8],
    offset: usize,
    a: &mut usize,
    b: &mut usize,
) -> u8
    ensures { (result ≡ (length_of (written_at memory.now place offset (length buffer.old))).number)
        × (buffer.new ≡ buffer_after (written_at memory.now place offset (length buffer.old)) buffer.old offset)
        × (a.new ≡ (length_of (written_at memory.now place offset (length buffer.old))).first)
        × (b.new ≡ (length_of (written_at memory.now place offset (length buffer.old))).second) }
{
    let n = numbers::of_value(canonical::canonical(memory, place, buffer, offset));
    *a = n.first;
    *b = n.second;
    n.number
}

// How long it is.
#[unsafe(no_mangle)]
pub extern "C" fn dhokyurai_canonical_length(
    memory: &[u8],
    place: usize,
    a: &mut usize,
    b: &mut usize,
) -> u8
    ensures { (result ≡ (length_of (text_at memory.now place)).number)
        × (a.new ≡ (length_of (text_at memory.now place)).first)
        × (b.new ≡ (length_of (text_at memory.now place)).second) }
{
    let n = numbers::of_value(canonical::canonical_length(memory, place));
    *a = n.first;
    *b = n.second;
    n.number
}

// Its fingerprint.
#[unsafe(no_mangle)]
pub extern "C" fn dhokyurai_fingerprint(
    memory: &[u8],
    place: usize,
    fingerprint: &mut i64,
    a: &mut usize,
    b: &mut usize,
) -> u8
    ensures { (result ≡ (print_of (text_at memory.now place)).0.number)
        × (fingerprint.new ≡ signed (print_of (text_at memory.now place)).1)
        × (a.new ≡ (print_of (text_at memory.now place)).0.first)
        × (b.new ≡ (print_of (text_at memory.now place)).0.second) }
{
    let p = canonical::fingerprint(memory, place);
    *fingerprint = numbers::value(p);
    let n = numbers::of_print(p);
    *a = n.first;
    *b = n.second;
    n.number
}

// A summary in Avro's single-object encoding: the place of its declaration, and the offsets of its data into a list.
#[unsafe(no_mangle)]
pub extern "C" fn dhokyurai_summary(
    memory: &[u8],
    summary: &[u8],
    list: &mut [usize],
    a: &mut usize,
    b: &mut usize,
) -> u8
    ensures { (result ≡ (reading_of (summary_of memory.now summary.now (length list.old))).number)
        × (list.new ≡ list_after (summary_of memory.now summary.now (length list.old)) list.old)
        × (a.new ≡ (reading_of (summary_of memory.now summary.now (length list.old))).first)
        × (b.new ≡ (reading_of (summary_of memory.now summary.now (length list.old))).second) }
{
    let n = numbers::of_offsets(summary::summary(memory, summary, list));
    *a = n.first;
    *b = n.second;
    n.number
}

// The place of a fingerprint.
#[unsafe(no_mangle)]
pub extern "C" fn dhokyurai_find(
    memory: &[u8],
    fingerprint: i64,
    a: &mut usize,
    b: &mut usize,
) -> u8
    ensures { (result ≡ (finding_of (place_of memory.now (bytes_of fingerprint))).number)
        × (a.new ≡ (finding_of (place_of memory.now (bytes_of fingerprint))).first)
        × (b.new ≡ (finding_of (place_of memory.now (bytes_of fingerprint))).second) }
{
    let n = numbers::of_value(summary::find(memory, fingerprint));
    *a = n.first;
    *b = n.second;
    n.number
}

// A datum alone, by the declaration at a place: its offsets into a list.
#[unsafe(no_mangle)]
pub extern "C" fn dhokyurai_datum(
    memory: &[u8],
    place: usize,
    datum: &[u8],
    list: &mut [usize],
    a: &mut usize,
    b: &mut usize,
) -> u8
    ensures { (result ≡ (reading_of (datum_of memory.now place datum.now (length list.old))).number)
        × (list.new ≡ list_after (datum_of memory.now place datum.now (length list.old)) list.old)
        × (a.new ≡ (reading_of (datum_of memory.now place datum.now (length list.old))).first)
        × (b.new ≡ (reading_of (datum_of memory.now place datum.now (length list.old))).second) }
{
    let n = numbers::of_offsets(summary::datum(memory, place, datum, list));
    *a = n.first;
    *b = n.second;
    n.number
}
