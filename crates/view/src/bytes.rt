// Classes of bytes.
ghost use Rattle.std.specs.Prelude.{◌≡◌};
ghost use Rattle.json_scan.specs.Json.{is_space, is_digit};
ghost use Rattle.view.specs.Ends.{is_delimiter};

pub fn is_space(b: u8) -> bool
    ensures { result ≡ is_space b }
{
    b == b' ' || b == b'\t' || b == b'\n' || b == b'\r'
}

pub fn is_digit(b: u8) -> bool
    ensures { result ≡ is_digit b }
{
    b.is_ascii_digit()
}

// What may stand behind a number or a word.
#[tactic(auto, unfolding(crate::specs::Ends::is_delimiter))]
pub fn is_delimiter(b: u8) -> bool
    ensures { result ≡ is_delimiter b }
{
    b == b',' || b == b']' || b == b'}' || is_space(b)
}
