// What each refusal means, in a sentence.
use answer::Why;

// The sentence of a refusal: here those of the numbers below 20, further down the others.
pub(crate) fn sentence(why: Why) -> &'static [u8] {
    match why {
        Why::TextTooLong => b"The text is longer than 32,768 bytes.",
        Why::NotJson => b"Not JSON: no JSON text goes on like this.",
        Why::NestedTooDeep => b"Brackets are nested more than 64 deep.",
        Why::NotASchema => b"A schema is a string, an object or an array.",
        Why::TypeMissing => b"This object has no `type`.",
        Why::NameMissing => b"This object has no `name` that is a string.",
        Why::NotAName => b"No name, namespace or symbol goes on like this.",
        Why::Reserved => b"This name is reserved.",
        Why::StringTooLong => b"The string to keep is longer than 255 bytes.",
        Why::FieldsMissing => b"This record has no `fields` that are an array.",
        Why::FieldNameTaken => b"An earlier field has this name or alias.",
        Why::SymbolsMissing => b"This enum has no `symbols` that are an array.",
        Why::SymbolNotAString => b"A symbol is a string.",
        Why::SymbolTwice => b"This symbol is given twice.",
        Why::DefaultNotAString => b"The default of an enum is a string.",
        Why::DefaultNotASymbol => b"The default is not one of the symbols.",
        Why::SizeMissing => b"This fixed has no `size`.",
        Why::NotASize => b"A size is digits only, and at most 2^64 - 1.",
        Why::UnionRuleBroken => {
            b"A union has no union as a member, and no two of one unnamed kind or one name."
        }
        _ => sentence_from_20(why),
    }
}

// Of the numbers from 20 to 29.
fn sentence_from_20(why: Why) -> &'static [u8] {
    match why {
        Why::NotWellFormed => b"The memory of the set is not well formed.",
        Why::NoSuchPlace => b"There is no such place, or no such name there.",
        Why::TooManyDeclarations => b"The set has 32 declarations already.",
        Why::TooManyRows => b"The set would have over 1,024 rows.",
        Why::TooManyStringBytes => b"The set would have over 16,384 string bytes.",
        Why::DefinedAlready => b"This full name is defined already.",
        Why::ReferenceUnknown => b"Nothing before this reference defines its name.",
        Why::ItemsMissing => b"This array has no `items`.",
        Why::ValuesMissing => b"This map has no `values`.",
        Why::NoRoom => b"The buffer has no room for the text.",
        _ => sentence_from_40(why),
    }
}

// Of the numbers from 40 on.
fn sentence_from_40(why: Why) -> &'static [u8] {
    match why {
        Why::MarkerWrong => b"This is no summary: it does not begin with the bytes C3 01.",
        Why::FingerprintUnknown => b"No declaration of the set has this fingerprint.",
        Why::CutShort => b"The summary ends too soon.",
        Why::NumberWrong => b"This is no number that fits, or a length below 0.",
        Why::OutOfRange => b"There is no such branch or symbol, or this is no boolean.",
        Why::TooManySteps => b"The datum takes more than 4,096 steps.",
        Why::BytesLeftOver => b"Bytes are left over behind the datum.",
        Why::DefaultDoesNotFit => b"The default does not fit the type of its field.",
        Why::DefaultTooLong => b"The default is longer than 255 bytes.",
        _ => b"The block has another size than it says.",
    }
}
