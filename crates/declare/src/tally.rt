// What became of the texts.
use answer::Counts;
use script::output::{Output, put, put_decimal};

// The set's counts, how many texts were tried, how many of them were refused, and how many files were not read.
#[derive(Clone, Copy)]
pub(crate) struct Tally {
    pub(crate) counts: Counts,
    pub(crate) texts: usize,
    pub(crate) refused: usize,
    pub(crate) unread: usize,
}

impl Tally {
    pub(crate) fn none() -> Self {
        Tally {
            counts: Counts::none(),
            texts: 0,
            refused: 0,
            unread: 0,
        }
    }

    // One more text is tried.
    pub(crate) fn tried(self) -> Tally {
        Tally {
            texts: self.texts.saturating_add(1),
            ..self
        }
    }

    // It was accepted, and the set has these counts.
    pub(crate) fn accepted(self, counts: Counts) -> Tally {
        Tally { counts, ..self }
    }

    // It was refused.
    pub(crate) fn refused(self) -> Tally {
        Tally {
            refused: self.refused.saturating_add(1),
            ..self
        }
    }

    // It could not be read.
    pub(crate) fn unread(self) -> Tally {
        Tally {
            unread: self.unread.saturating_add(1),
            ..self
        }
    }
}

// The set's counts.
fn put_counts(stdout: &mut Output, out: &mut [u8], at: usize, counts: Counts) -> usize {
    let a = put(stdout, out, at, b"set: declarations ");
    let b = put_decimal(stdout, out, a, counts.declarations as u64);
    let c = put(stdout, out, b, b", rows ");
    let d = put_decimal(stdout, out, c, counts.rows as u64);
    let e = put(stdout, out, d, b", string bytes ");
    put_decimal(stdout, out, e, counts.string_bytes as u64)
}

fn put_unread(stdout: &mut Output, out: &mut [u8], at: usize, n: usize) -> usize {
    if n == 0 {
        return at;
    }
    let a = put(stdout, out, at, b", not read ");
    put_decimal(stdout, out, a, n as u64)
}

pub(crate) fn put_tally(stdout: &mut Output, out: &mut [u8], at: usize, tally: Tally) -> usize {
    let a = put_counts(stdout, out, at, tally.counts);
    let b = put(stdout, out, a, b"; refused ");
    let c = put_decimal(stdout, out, b, tally.refused as u64);
    let d = put_unread(stdout, out, c, tally.unread);
    put(stdout, out, d, b"\n")
}
