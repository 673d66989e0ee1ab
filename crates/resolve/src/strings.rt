// The strings that a row keeps, by its kind.
ghost use Rattle.std.specs.Prelude.{◌≡◌, not, ◌&&◌, ◌<◌, length};
ghost use Rattle.name.specs.Name.{is_reserved};
ghost use Rattle.row.specs.Layout.{row_limit, layout_length};
ghost use Rattle.row.specs.Memory.{entry_at, row_at};
ghost use Rattle.resolve.specs.Rules.{is_full_name, is_own_name, good_text, good_strings};

use crate::defaults::good_default;
use name::{Full, is_dotted, is_reserved, is_simple};
use row::Kind;
use row::read::{default_of, string_of};

#[tactic(auto, unfolding(crate::specs::Rules::is_full_name, name::specs::Full::is_short))]
fn is_full_name(s: &[u8]) -> bool
    ensures { result ≡ is_full_name s.now }
{
    s.len() <= Full::LONGEST && is_dotted(s)
}

#[tactic(auto, unfolding(crate::specs::Rules::is_own_name, name::specs::Full::is_short))]
fn is_own_name(s: &[u8]) -> bool
    ensures { result ≡ is_own_name s.now }
{
    s.len() <= Full::LONGEST && is_simple(s)
}

fn is_free_name(s: &[u8]) -> bool
    ensures { result ≡ (is_full_name s.now && not (is_reserved s.now)) }
{
    is_full_name(s) && !is_reserved(s)
}

#[tactic(auto, unfolding(crate::specs::Rules::good_text, crate::specs::Kinds::is_definition, crate::specs::Kinds::is_kind, name::specs::Name::is_empty))]
fn good_text(kind: Kind, text: &[u8]) -> bool
    ensures { result ≡ good_text kind text.now }
{
    match kind {
        Kind::Record | Kind::Enum | Kind::Fixed | Kind::Alias => is_free_name(text),
        Kind::Reference => is_full_name(text),
        Kind::Field | Kind::FieldAlias | Kind::Symbol => is_own_name(text),
        _ => text.is_empty(),
    }
}

// Row i of a kind.
#[tactic(auto, unfolding(crate::specs::Rules::good_strings))]
pub fn good_strings(mem: &[u8], kind: Kind, i: usize) -> bool
    requires { (length mem.now ≡ layout_length) × (i < row_limit) × (kind ≡ (entry_at mem.now i).kind) }
    ensures { result ≡ good_strings (row_at mem.now i) }
{
    good_default(kind, default_of(mem, i)) && good_text(kind, string_of(mem, i))
}
