// The lines of a text.
ghost use Rattle.std.specs.Prelude.{◌≤◌, length};

// Where the line ends that a place is in.
pub(crate) fn line_end(text: &[u8], at: usize) -> usize
    requires { at ≤ length text.now }
    ensures { (at ≤ result) × (result ≤ length text.now) }
{
    match text[at..].iter().position(|b| *b == b'\n') {
        Some(n) => at + n,
        None => text.len(),
    }
}
