// The rules that look at several strings of a declaration's text and need no row: 11, 13 to 16, 19.
#![tactic(auto)]

mod bytes;
pub mod fields;
pub mod members;
pub mod standing;
pub mod symbols;
pub mod unions;

pub use fields::field_names;
pub use members::{stands, surely_new};
pub use standing::Standing;
pub use symbols::{default_check, symbols_check};
pub use unions::{new_kind, new_name};
