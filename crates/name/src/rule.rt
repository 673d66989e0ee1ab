// The rule of names, held against a string in one pass.
ghost use Rattle.std.specs.Prelude.{◌≡◌, cond};
ghost use Rattle.name.specs.Name.{is_simple, is_dotted, starts_with_dot, is_name, is_namespace};
ghost use Rattle.name.specs.Rule.{may_stand};

// The rule for one byte: `first` where a simple name must start, `dots` where dots may join several. Letters go first: most bytes are
// letters. (Tried: the letters as an arm of the match; a name takes three times as long.)
#[tactic(auto, unfolding(crate::specs::Rule::may_stand, crate::specs::Name::is_first, crate::specs::Name::is_later, crate::specs::Name::is_letter, crate::specs::Name::is_digit, crate::specs::Name::is_within))]
pub fn may_stand(b: u8, first: bool, dots: bool) -> bool
    ensures { result ≡ may_stand dots first b }
{
    if b.is_ascii_alphabetic() {
        return true;
    }
    match b {
        b'_' => true,
        b'0'..=b'9' => !first,
        b'.' => dots && !first,
        _ => false,
    }
}

// The rule for a string, simple names joined by dots or one alone, and the only place where a string is held against it.
#[tactic(auto, using(crate::proofs::Bytewise::keeps_end, crate::proofs::Bytewise::keeps_not, crate::proofs::Bytewise::keeps_next, crate::proofs::Bytewise::keeps_either))]
fn keeps_rule(s: &[u8], dots: bool) -> bool
    ensures { result ≡ cond dots (is_dotted s.now) (is_simple s.now) }
{
    let mut first = true;
    for b in s {
        if !may_stand(*b, first, dots) {
            return false;
        }
        first = *b == b'.';
    }
    !first
}

// ---- names and namespaces

// A simple name: also what a field, its alias and a symbol must be.
pub fn is_simple(s: &[u8]) -> bool
    ensures { result ≡ is_simple s.now }
{
    keeps_rule(s, false)
}

// Simple names joined by dots: what every full name is.
pub fn is_dotted(s: &[u8]) -> bool
    ensures { result ≡ is_dotted s.now }
{
    keeps_rule(s, true)
}

#[tactic(auto, unfolding(crate::specs::Name::starts_with_dot))]
pub fn starts_with_dot(s: &[u8]) -> bool
    ensures { result ≡ starts_with_dot s.now }
{
    s.starts_with(b".")
}

// A name as it is written in a declaration.
#[tactic(auto, using(crate::proofs::Bytewise::name_tail, crate::proofs::Laws::name_else), unfolding(crate::specs::Name::starts_with_dot))]
pub fn is_name(s: &[u8]) -> bool
    ensures { result ≡ is_name s.now }
{
    match s {
        [b'.', rest @ ..] => is_simple(rest),
        _ => is_dotted(s),
    }
}

// A namespace as it is written: the empty one means none.
#[tactic(auto, using(crate::proofs::Bytewise::namespace_none, crate::proofs::Bytewise::namespace_some))]
pub fn is_namespace(s: &[u8]) -> bool
    ensures { result ≡ is_namespace s.now }
{
    s.is_empty() || is_dotted(s)
}
