// Where things lie in a set's memory: docs/LAYOUT.md in numbers.
use answer::Counts;

#[derive(Clone, Copy)]
pub struct Layout {}

impl Layout {
    // Each row, its strings apart.
    pub(crate) const ROW: usize = 34;

    // The rows follow the header: the number of declarations, and how many rows each place has.
    pub(crate) const ROWS: usize = 2 + 2 * Counts::DECLARATIONS;

    // The strings follow the rows.
    pub(crate) const STRINGS: usize = Layout::ROWS + Layout::ROW * Counts::ROWS;

    pub const LENGTH: usize = Layout::STRINGS + Counts::STRING_BYTES;
}
