// The two halves of a full name: what stands before its last dot, and what stands behind.
ghost use Rattle.std.specs.Prelude.{◌≡◌, false, MatchOption};
ghost use Rattle.name.specs.Name.{has_dot, last_part, namespace_part};
ghost use Rattle.name.specs.Rule.{IsLastDot};

// Where the last dot stands.
fn last_dot(s: &[u8]) -> Option<usize>
    ensures { MatchOption result (has_dot s.now ≡ false) (IsLastDot s.now) }
{
    s.iter().rposition(|b| *b == b'.')
}

// A name with a dot looks at no namespace.
#[tactic(auto, using(crate::proofs::halves::Dots::dot_any))]
pub fn has_dot(s: &[u8]) -> bool
    ensures { result ≡ has_dot s.now }
{
    s.contains(&b'.')
}

// What stands behind the last dot: all where there is none.
#[tactic(auto, using(crate::proofs::halves::Dots::last_behind, crate::proofs::Laws::last_plain))]
pub fn last_part(full: &[u8]) -> &[u8]
    ensures { result.now ≡ last_part full.now }
{
    match last_dot(full) {
        Some(at) => &full[at + 1..],
        None => full,
    }
}

// What stands before the last dot: nothing where there is none.
#[tactic(auto, using(crate::proofs::halves::Dots::namespace_before, crate::proofs::Laws::namespace_plain))]
pub fn namespace_part(full: &[u8]) -> &[u8]
    ensures { result.now ≡ namespace_part full.now }
{
    match last_dot(full) {
        Some(at) => &full[..at],
        None => &full[..0],
    }
}
