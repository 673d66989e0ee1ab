// Views of scanned JSON text by position. On any other bytes, and at any position, they still end and stay within the text.
#![tactic(auto)]

mod bytes;
pub mod elements;
pub mod ends;
pub mod literals;
pub mod marks;
pub mod members;
pub mod shape;
pub mod sizes;
pub mod space;
pub mod strings;
pub mod table;

pub use elements::{first_element, next_element};
pub use ends::end;
pub use literals::{literal, string_copy, string_is, strings_same};
pub use marks::{mark, mark_of};
pub use members::{Member, Members, Titles, first_member, members_at, next_member, titles_at};
pub use shape::{Shape, shape_at};
pub use sizes::size_literal;
pub use space::value_start;
pub use strings::{Cursor, Piece, is_stop, next_byte, opening, part_at, string_length};
pub use table::find_ends;
