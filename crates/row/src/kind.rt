// What a row stands for, and the kind's number in memory.
ghost use Rattle.std.specs.Prelude.{◌≡◌};
ghost use Rattle.row.specs.Kinds.{kind_number, kind_of};

#[derive(Clone, Copy, PartialEq, Eq)]
pub enum Kind {
    Null = 1,
    Boolean = 2,
    Int = 3,
    Long = 4,
    Float = 5,
    Double = 6,
    Bytes = 7,
    String = 8,
    Reference = 16,
    Array = 24,
    Map = 25,
    Union = 26,
    Record = 32,
    Enum = 33,
    Fixed = 34,
    Field = 40,
    Symbol = 41,
    Alias = 48,
    FieldAlias = 49,
}

impl Kind {
    pub fn number(self) -> u8
        ensures { result ≡ kind_number self }
    {
        self as u8
    }

    // The kind that has the number; Null where none has.
    #[tactic(auto, unfolding(crate::specs::Kinds::kind_of))]
    pub fn of(number: u8) -> Kind
        ensures { result ≡ kind_of number }
    {
        match number {
            2 => Kind::Boolean,
            3 => Kind::Int,
            4 => Kind::Long,
            5 => Kind::Float,
            6 => Kind::Double,
            7 => Kind::Bytes,
            8 => Kind::String,
            16 => Kind::Reference,
            24 => Kind::Array,
            25 => Kind::Map,
            26 => Kind::Union,
            32 => Kind::Record,
            33 => Kind::Enum,
            34 => Kind::Fixed,
            40 => Kind::Field,
            41 => Kind::Symbol,
            48 => Kind::Alias,
            49 => Kind::FieldAlias,
            _ => Kind::Null,
        }
    }

    // The number of the kind that has this one: the number itself, or that of Null where no kind has it.
    pub fn known(number: u8) -> u8
        ensures { result ≡ kind_number (kind_of number) }
    {
        Kind::of(number).number()
    }
}
