// Rows, and the memory of a set, whose layout is that of docs/LAYOUT.md.
#![tactic(auto)]

pub mod kind;
pub mod layout;
mod number;
pub mod read;
pub mod tidy;
pub mod write;

pub use kind::Kind;
pub use layout::Layout;

// A row by value, all but its strings. The size is that of a fixed, or the position of a field's default.
#[derive(Clone, Copy)]
pub struct Entry {
    pub kind: Kind,
    pub depth: u16,
    pub position: u16,
    pub size: u64,
    pub note: u8,
    pub precision: u64,
    pub scale: u64,
}
