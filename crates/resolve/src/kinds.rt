// Which kinds are schemas and definitions, and what may stand under a row of each kind.
ghost use Rattle.std.specs.Prelude.{◌≡◌};
ghost use Rattle.row.specs.Kinds.{kind_number};
ghost use Rattle.row.specs.declared.kind.Kind.{Kind};
ghost use Rattle.resolve.specs.Kinds.{is_kind, is_definition, is_named, is_schema, is_alias_of, has_one, is_part_of};
ghost use Rattle.resolve.specs.Steps.{is_leading, may_end};

use row::Kind;

// Is n the number of a kind?
pub fn is_kind(kind: Kind, n: u8) -> bool
    ensures { (k : Kind) → n ≡ kind_number k → result ≡ is_kind kind k }
{
    n == kind.number()
}

#[tactic(auto, unfolding(crate::specs::Kinds::is_definition, crate::specs::Kinds::is_kind))]
pub fn is_definition(kind: Kind) -> bool
    ensures { result ≡ is_definition kind }
{
    matches!(kind, Kind::Record | Kind::Enum | Kind::Fixed)
}

#[tactic(auto, unfolding(crate::specs::Kinds::is_named, crate::specs::Kinds::is_kind))]
pub fn is_named(kind: Kind) -> bool
    ensures { result ≡ is_named kind }
{
    is_definition(kind) || kind == Kind::Reference
}

#[tactic(auto, unfolding(crate::specs::Kinds::is_schema, crate::specs::Kinds::is_primitive, crate::specs::Kinds::is_named, crate::specs::Kinds::is_definition, crate::specs::Kinds::is_kind))]
pub fn is_schema(kind: Kind) -> bool
    ensures { result ≡ is_schema kind }
{
    !matches!(
        kind,
        Kind::Field | Kind::Symbol | Kind::Alias | Kind::FieldAlias
    )
}

// Is k the kind of an alias of a row of a kind?
#[tactic(auto, unfolding(crate::specs::Kinds::is_alias_of, crate::specs::Kinds::is_definition, crate::specs::Kinds::is_kind))]
fn is_alias_of(kind: Kind, k: Kind) -> bool
    ensures { result ≡ is_alias_of kind k }
{
    match kind {
        Kind::Record | Kind::Enum | Kind::Fixed => k == Kind::Alias,
        Kind::Field => k == Kind::FieldAlias,
        _ => false,
    }
}

#[tactic(auto, unfolding(crate::specs::Kinds::has_one, crate::specs::Kinds::is_kind))]
fn has_one(kind: Kind) -> bool
    ensures { result ≡ has_one kind }
{
    matches!(kind, Kind::Array | Kind::Map | Kind::Field)
}

#[tactic(auto, unfolding(crate::specs::Kinds::is_part_of, crate::specs::Kinds::is_kind))]
pub fn is_part_of(kind: Kind, k: Kind) -> bool
    ensures { result ≡ is_part_of kind k }
{
    match kind {
        Kind::Record => k == Kind::Field,
        Kind::Enum => k == Kind::Symbol,
        Kind::Union => k != Kind::Union && is_schema(k),
        _ => has_one(kind) && is_schema(k),
    }
}

// Is a row of kind k, behind so many parts, one of the aliases that stand before the parts?
#[tactic(auto, unfolding(crate::specs::Steps::is_leading))]
pub fn is_leading(kind: Kind, parts: usize, k: Kind) -> bool
    ensures { result ≡ is_leading kind parts k }
{
    parts == 0 && is_alias_of(kind, k)
}

// May a row of a kind have so many parts?
#[tactic(auto, unfolding(crate::specs::Steps::may_end))]
pub fn may_end(kind: Kind, parts: usize) -> bool
    ensures { result ≡ may_end kind parts }
{
    !has_one(kind) || parts == 1
}
