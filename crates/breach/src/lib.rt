// Where in the text a string breaks a rule for names, and which character stands there.
#![tactic(auto)]

mod characters;
mod places;

pub use characters::code_at;
pub use places::{name_breach, namespace_breach, simple_breach};
