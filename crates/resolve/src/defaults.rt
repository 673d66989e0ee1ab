// The default that a field keeps: a whole text, with nothing around its value.
ghost use Rattle.std.specs.Prelude.{◌≡◌, not, ◌&&◌, ◌-◌, length};
ghost use Rattle.ground.specs.Bytes.{byte_at};
ghost use Rattle.json_scan.specs.Json.{is_space, scanned};
ghost use Rattle.resolve.specs.Rules.{passes, is_default, good_default};

use json_scan::scan;
use name::Full;
use row::Kind;

// White space between the parts of a text.
#[tactic(auto, unfolding(json_scan::specs::Json::is_space))]
fn is_space(b: u8) -> bool
    ensures { result ≡ is_space b }
{
    matches!(b, b' ' | b'\t' | b'\n' | b'\r')
}

// Has the scan no fault?
#[tactic(auto, unfolding(crate::specs::Rules::passes))]
fn passes(text: &[u8]) -> bool
    ensures { result ≡ passes (scanned text.now) }
{
    scan(text).is_ok()
}

// Is the first byte no white space, and the last none?
#[tactic(auto, using(crate::proofs::DefaultLaws::cut_none), unfolding(ground::specs::Bytes::byte_at))]
fn is_cut(text: &[u8]) -> bool
    ensures { result ≡ (not (is_space (byte_at text.now 0)) && not (is_space (byte_at text.now (length text.now - 1)))) }
{
    text.is_empty() || !is_space(text[0]) && !is_space(text[text.len() - 1])
}

#[tactic(auto, unfolding(crate::specs::Rules::is_default, name::specs::Full::is_short))]
fn is_default(text: &[u8]) -> bool
    ensures { result ≡ is_default text.now }
{
    text.len() <= Full::LONGEST && passes(text) && is_cut(text)
}

// The default of a row of a kind: none, or that of a field.
#[tactic(auto, unfolding(crate::specs::Rules::good_default, crate::specs::Kinds::is_kind, name::specs::Name::is_empty))]
pub fn good_default(kind: Kind, default: &[u8]) -> bool
    ensures { result ≡ good_default kind default.now }
{
    default.is_empty() || kind == Kind::Field && is_default(default)
}
