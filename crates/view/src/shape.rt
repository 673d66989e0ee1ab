// The kind of a value, by its first byte.
ghost use Rattle.std.specs.Prelude.{◌≡◌};
ghost use Rattle.view.specs.Values.{shape_of, shape_at, is_value, starts_value};

use ground::byte_at;

// What a value is. `Nothing`: no value starts here.
#[derive(Clone, Copy)]
pub enum Shape {
    Text,
    Number,
    Object,
    Array,
    Word,
    Nothing,
}

#[tactic(auto, unfolding(crate::specs::Values::shape_of))]
fn shape_of(b: u8) -> Shape
    ensures { result ≡ shape_of b }
{
    match b {
        b'"' => Shape::Text,
        b'[' => Shape::Array,
        b'{' => Shape::Object,
        b'-' | b'0'..=b'9' => Shape::Number,
        b't' | b'f' | b'n' => Shape::Word,
        _ => Shape::Nothing,
    }
}

// The kind of the value at `at`.
pub fn shape_at(text: &[u8], at: usize) -> Shape
    ensures { result ≡ shape_at text.now at }
{
    shape_of(byte_at(text, at))
}

#[tactic(auto, unfolding(crate::specs::Values::is_value))]
fn is_value(s: Shape) -> bool
    ensures { result ≡ is_value s }
{
    !matches!(s, Shape::Nothing)
}

// Does a value start with this byte?
pub fn starts_value(b: u8) -> bool
    ensures { result ≡ starts_value b }
{
    is_value(shape_of(b))
}
