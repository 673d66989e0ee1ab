// The three counts of a set, and their limits.
ghost use Rattle.std.specs.Prelude.{◌≡◌};
ghost use Rattle.answer.specs.Limits.{no_counts, counts_of};

// How many declarations, rows and string bytes a set holds.
#[derive(Clone, Copy)]
pub struct Counts {
    pub declarations: usize,
    pub rows: usize,
    pub string_bytes: usize,
}

impl Counts {
    pub const DECLARATIONS: usize = 32;

    pub const ROWS: usize = 1024;

    pub const STRING_BYTES: usize = 16384;

    pub fn new(declarations: usize, rows: usize, string_bytes: usize) -> Self
        ensures { result ≡ counts_of declarations rows string_bytes }
    {
        Counts {
            declarations,
            rows,
            string_bytes,
        }
    }

    // The counts of the empty set.
    pub fn none() -> Self
        ensures { result ≡ no_counts }
    {
        Counts::new(0, 0, 0)
    }
}
