// Places in the text, and white space.
ghost use Rattle.std.specs.Prelude.{◌≡◌};
ghost use Rattle.view.specs.Values.{skip_of, value_start};

use super::bytes::is_space;

// Past the white space at `at`.
pub fn skip(text: &[u8], at: usize) -> usize
    ensures { result ≡ skip_of text.now at }
{
    for p in at..text.len() {
        if !is_space(text[p]) {
            return p;
        }
    }
    text.len().max(at)
}

// Where the text's one value starts.
pub fn value_start(text: &[u8]) -> usize
    ensures { result ≡ value_start text.now }
{
    skip(text, 0)
}
