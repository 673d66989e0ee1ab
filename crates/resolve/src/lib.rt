// The rules that the rows of a declaration keep, and resolution of names over the rows of a set.
#![tactic(auto)]

mod clash;
mod declaration;
mod defaults;
mod kinds;
mod names;
mod numbers;
mod strings;
mod tree;

pub use declaration::{is_declaration, is_declaration_by};
pub use kinds::is_kind;
pub use names::{definition_of, first_fault, is_defined};
