// Where a walk is.

// How many offsets were given, the offset, the steps that are left, how many frames are open, and the row to visit now, if there is one. The offset is not first:
// there it would share its word with a fault's kind in a Result, and be put together again at each turn.
#[derive(Clone, Copy)]
pub struct Here {
    pub given: usize,
    pub at: usize,
    pub left: usize,
    pub depth: usize,
    pub row: Option<usize>,
}
