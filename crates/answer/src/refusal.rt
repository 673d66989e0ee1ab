// Refusals: what is wrong, in which declaration, at which byte of its text.
ghost use Rattle.std.specs.Prelude.{◌≡◌};
ghost use Rattle.answer.specs.Numbers.{number_of};
ghost use Rattle.answer.specs.Places.{placed};

// What is wrong. The order and the numbers are those of 01's table "Numbers returned" and of 02's behind it.
#[derive(Clone, Copy, PartialEq, Eq)]
pub enum Why {
    TextTooLong = 1,
    NotJson = 2,
    NestedTooDeep = 3,
    NotASchema = 4,
    TypeMissing = 5,
    NameMissing = 6,
    NotAName = 7,
    Reserved = 8,
    StringTooLong = 9,
    FieldsMissing = 10,
    FieldNameTaken = 11,
    SymbolsMissing = 12,
    SymbolNotAString = 13,
    SymbolTwice = 14,
    DefaultNotAString = 15,
    DefaultNotASymbol = 16,
    SizeMissing = 17,
    NotASize = 18,
    UnionRuleBroken = 19,
    NotWellFormed = 20,
    NoSuchPlace = 21,
    TooManyDeclarations = 22,
    TooManyRows = 23,
    TooManyStringBytes = 24,
    DefinedAlready = 25,
    ReferenceUnknown = 26,
    ItemsMissing = 27,
    ValuesMissing = 28,
    NoRoom = 29,
    MarkerWrong = 40,
    FingerprintUnknown = 41,
    CutShort = 42,
    NumberWrong = 43,
    OutOfRange = 44,
    TooManySteps = 45,
    BytesLeftOver = 46,
    DefaultDoesNotFit = 47,
    DefaultTooLong = 48,
    BlockSizeWrong = 57,
}

impl Why {
    // 01's number.
    pub fn number(self) -> u8
        ensures { result ≡ number_of self }
    {
        self as u8
    }
}

// A refusal: what is wrong, the declaration's place in the set, the byte position in its text.
#[derive(Clone, Copy)]
pub struct Refusal {
    pub why: Why,
    pub place: usize,
    pub at: usize,
}

// What is wrong with a text, and at which byte, while its place is not known.
#[derive(Clone, Copy)]
pub struct Fault {
    pub why: Why,
    pub at: usize,
}

impl Fault {
    // The refusal of the declaration at a place.
    pub fn placed(self, place: usize) -> Refusal
        ensures { result ≡ placed self place }
    {
        Refusal {
            why: self.why,
            place,
            at: self.at,
        }
    }
}
