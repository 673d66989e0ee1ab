// Values by their places in a text: what a value is, and the value under a key of an object.
#![tactic(auto)]

mod members;
mod shapes;

pub use members::{under_key, under_word};
pub use shapes::{
    is_array, is_boolean, is_bytes, is_fixed, is_null, is_number, is_object, is_string, is_whole,
};
