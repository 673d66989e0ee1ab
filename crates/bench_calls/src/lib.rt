// What bench/ times, as functions that C can call.
#![tactic(auto)]

ghost use Rattle.std.specs.Prelude.{◌≡◌, length};
ghost use Rattle.answer.specs.Answers.{numbers_of};
ghost use Rattle.bench_calls.specs.Places.{place_of, rows_read, rows_in, length_in, offsets_in};
ghost use Rattle.canonical.specs.Calls.{written_at, numbers_of_written, length_of, buffer_after};
ghost use Rattle.ground.specs.Bytes.{same};
ghost use Rattle.json_scan.specs.Json.{scanned};
ghost use Rattle.rabin.specs.Rabin.{rabin_of};
ghost use Rattle.formed.specs.WellFormed.{well_formed};
ghost use Rattle.schema.specs.Schema.{declared};
ghost use Rattle.set.specs.Calls.{answer_of, memory_of, put};
ghost use Rattle.summary.specs.Calls.{numbers_of_offsets, reading_of, list_after};
ghost use Rattle.summary.specs.Summary.{summary_of, datum_of};

use answer::{Answer, Counts};

#[unsafe(no_mangle)]
pub extern "C" fn bench_fingerprint(bytes: &[u8]) -> i64
    ensures { result ≡ rabin_of bytes.now }
{
    rabin::fingerprint(bytes)
}

#[unsafe(no_mangle)]
pub extern "C" fn bench_same(a: &[u8], b: &[u8]) -> bool
    ensures { result ≡ same a.now b.now }
{
    ground::same(a, b)
}

// The text's length where it is whole, else the place of its fault.
#[unsafe(no_mangle)]
pub extern "C" fn bench_scan(text: &[u8]) -> usize
    ensures { result ≡ place_of (scanned text.now) (length text.now) }
{
    match json_scan::scan(text) {
        Ok(()) => text.len(),
        Err(f) => f.at,
    }
}

// How many rows a declaration has, 0 where it is refused; they are in the draft.
#[unsafe(no_mangle)]
pub extern "C" fn bench_declare(text: &[u8], draft: &mut [u8]) -> usize
    ensures { result ≡ rows_read (declared text.now) }
{
    match schema::declare(text, draft) {
        Ok(counts) => counts.rows,
        Err(_) => 0,
    }
}

#[unsafe(no_mangle)]
pub extern "C" fn bench_well_formed(memory: &[u8]) -> bool
    ensures { result ≡ well_formed memory.now }
{
    formed::well_formed(memory)
}

fn rows_in(a: Answer<Counts>) -> usize
    ensures { result ≡ rows_in (numbers_of a) }
{
    match a {
        Ok(c) => c.rows,
        Err(_) => 0,
    }
}

// How many rows the set has then, 0 where the text is refused.
#[unsafe(no_mangle)]
pub extern "C" fn bench_put(memory: &mut [u8], place: usize, text: &[u8]) -> usize
    ensures { (result ≡ rows_in (answer_of (put memory.old place text.now)))
        × (memory.new ≡ memory_of memory.old (put memory.old place text.now)) }
{
    rows_in(set::put(memory, place, text))
}

fn length_in(w: Answer<usize>) -> usize
    ensures { result ≡ length_in (numbers_of_written w) }
{
    match w {
        Ok(n) => n,
        Err(_) => 0,
    }
}

// How long the canonical text is, 0 where it is refused.
#[unsafe(no_mangle)]
pub extern "C" fn bench_canonical(memory: &[u8], place: usize, buffer: &mut [u8]) -> usize
    ensures { (result ≡ length_in (length_of (written_at memory.now place 0 (length buffer.old))))
        × (buffer.new ≡ buffer_after (written_at memory.now place 0 (length buffer.old)) buffer.old 0) }
{
    length_in(canonical::canonical(memory, place, buffer, 0))
}

fn offsets_in(o: Answer<(usize, usize)>) -> usize
    ensures { result ≡ offsets_in (numbers_of_offsets o) }
{
    match o {
        Ok((_, n)) => n,
        Err(_) => 0,
    }
}

// How many offsets a summary gives, 0 where it is refused; they are in the list.
#[unsafe(no_mangle)]
pub extern "C" fn bench_summary(memory: &[u8], summary: &[u8], list: &mut [usize]) -> usize
    ensures { (result ≡ offsets_in (reading_of (summary_of memory.now summary.now (length list.old))))
        × (list.new ≡ list_after (summary_of memory.now summary.now (length list.old)) list.old) }
{
    offsets_in(summary::summary(memory, summary, list))
}

// The same of a datum alone, by the declaration at a place.
#[unsafe(no_mangle)]
pub extern "C" fn bench_datum(
    memory: &[u8],
    place: usize,
    datum: &[u8],
    list: &mut [usize],
) -> usize
    ensures { (result ≡ offsets_in (reading_of (datum_of memory.now place datum.now (length list.old))))
        × (list.new ≡ list_after (datum_of memory.now place datum.now (length list.old)) list.old) }
{
    offsets_in(summary::datum(memory, place, datum, list))
}
