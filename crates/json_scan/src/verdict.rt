// The limits of a text.
#[derive(Clone, Copy)]
pub struct Scan {}

impl Scan {
    // The most bytes that a text may have.
    pub const TEXT: usize = 32768;

    // The most brackets that may be open at once.
    pub const NESTING: usize = 64;
}
