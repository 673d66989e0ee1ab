// Canonical text and fingerprint of a declaration in a set.
#![tactic(auto)]

pub mod answers;
mod calls;
mod decimal;
mod pieces;
mod places;
mod text;

pub use answers::Written;
pub use calls::{canonical, canonical_length, fingerprint};
pub use places::place_with;
