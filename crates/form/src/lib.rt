// What a declaration's text says at a place: forms, decimals' notes, and the names with their checks 7, 8, 9.
#![tactic(auto)]

pub mod check;
pub mod forms;
pub mod names;
pub mod note;
pub mod spots;

pub use check::{Check, must};
pub use forms::{Form, Found, find, word_kind};
pub use names::{alias, definition, reference, simple_check};
pub use note::{Note, Plain, decimal_note};
pub use spots::{all_texts, as_array, as_text, first_alias, is_object, is_text};
