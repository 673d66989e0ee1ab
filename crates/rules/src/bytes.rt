// How long a value is.
ghost use Rattle.view.specs.Known.{Known};

use view::end;

// The bytes of the value at `at`.
pub(crate) fn bytes_at(text: &[u8], ends: &[u16], at: usize) -> usize
    requires { Known text.now ends.now }
{
    end(text, ends, at) - at
}
