// Where a schema stands: alone, or as the member of a union at a place. No Option: None would not say that the schema stands alone.
#[derive(Clone, Copy)]
pub enum Standing {
    Alone,
    MemberOf(usize, usize),
}
