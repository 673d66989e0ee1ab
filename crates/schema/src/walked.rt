// What a walk answers.
use answer::{Counts, Fault};

// The counts with the rows that were read, or the first fault.
pub type Walked = Result<Counts, Fault>;

// A definition's name, its row and its aliases were read: the length of its full name, and the counts.
#[derive(Clone, Copy)]
pub struct Defined {
    pub name: usize,
    pub next: Counts,
}
