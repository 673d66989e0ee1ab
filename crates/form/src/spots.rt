// Places of values, and what a declaration takes them for.
ghost use Rattle.std.specs.Prelude.{◌≡◌};
ghost use Rattle.view.specs.Values.{shape_at};
ghost use Rattle.view.specs.Elements.{elements, elements_at};
ghost use Rattle.view.specs.Known.{Known};
ghost use Rattle.form.specs.Spots.{is_text, is_object, is_array, as_text, as_array, all_texts, aliases_in};

use view::{Shape, first_element, next_element, shape_at};

// Does a string stand here?
pub fn is_text(text: &[u8], at: usize) -> bool
    ensures { result ≡ is_text (shape_at text.now at) }
{
    matches!(shape_at(text, at), Shape::Text)
}

// Does an object?
pub fn is_object(text: &[u8], at: usize) -> bool
    ensures { result ≡ is_object (shape_at text.now at) }
{
    matches!(shape_at(text, at), Shape::Object)
}

// Does an array?
pub fn is_array(text: &[u8], at: usize) -> bool
    ensures { result ≡ is_array (shape_at text.now at) }
{
    matches!(shape_at(text, at), Shape::Array)
}

// The place, if a string stands there.
#[tactic(auto, unfolding(crate::specs::Spots::as_text))]
pub fn as_text(text: &[u8], spot: Option<usize>) -> Option<usize>
    ensures { result ≡ as_text text.now spot }
{
    spot.filter(|p| is_text(text, *p))
}

// The place, if an array stands there.
#[tactic(auto, unfolding(crate::specs::Spots::as_array))]
pub fn as_array(text: &[u8], spot: Option<usize>) -> Option<usize>
    ensures { result ≡ as_array text.now spot }
{
    spot.filter(|p| is_array(text, *p))
}

// Are all elements of the array at a place strings?
pub fn all_texts(text: &[u8], ends: &[u16], array: usize) -> bool
    requires { Known text.now ends.now }
    ensures { result ≡ all_texts text.now (elements text.now array) }
{
    let mut spot = first_element(text, array);
    while let Some(p) = spot {
        if !is_text(text, p) {
            return false;
        }
        spot = next_element(text, ends, p);
    }
    true
}

// The first of the strings of `aliases`, whose value is at the place; the others are the elements behind it.
pub fn first_alias(text: &[u8], ends: &[u16], spot: Option<usize>) -> Option<usize>
    requires { Known text.now ends.now }
    ensures { elements_at text.now result ≡ aliases_in text.now spot }
{
    let p = as_array(text, spot)?;
    if all_texts(text, ends, p) {
        return first_element(text, p);
    }
    None
}
