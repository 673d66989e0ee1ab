// A set of declarations in lent memory: open, put, full names.
#![tactic(auto)]

mod append;
mod calls;
mod names;

pub use calls::{open, put};
pub use names::{full_name, naming_of};
