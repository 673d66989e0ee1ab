// The limit of a canonical text.
use answer::Counts;

// How long a canonical text may be.
#[derive(Clone, Copy)]
pub struct Written {}

impl Written {
    // A row takes at most so many bytes, beside its string.
    const ROW: usize = 64;

    // No canonical text is longer.
    pub const LONGEST: usize = Written::ROW * Counts::ROWS + Counts::STRING_BYTES;
}
