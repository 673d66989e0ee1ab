// Answers as numbers.
ghost use Rattle.std.specs.Prelude.{◌≡◌};
ghost use Rattle.answer.specs.Answers.{numbers_of_value};
ghost use Rattle.canonical.specs.Calls.{numbers_of_print};
ghost use Rattle.summary.specs.Calls.{numbers_of_offsets};
ghost use Rattle.dhokyurai.specs.Signed.{signed};

use answer::{Answer, Numbers};

// A length, or a place.
pub(crate) fn of_value(a: Answer<usize>) -> Numbers
    ensures { result ≡ numbers_of_value a }
{
    match a {
        Err(r) => Numbers::refused(r),
        Ok(value) => Numbers::accepted(value),
    }
}

pub(crate) fn of_print(a: Answer<i64>) -> Numbers
    ensures { result ≡ (numbers_of_print a).0 }
{
    match a {
        Err(r) => Numbers::refused(r),
        Ok(_) => Numbers::accepted(0),
    }
}

// The fingerprint, 0 where it is refused.
pub(crate) fn value(a: Answer<i64>) -> i64
    ensures { result ≡ signed (numbers_of_print a).1 }
{
    a.unwrap_or(0)
}

// The declaration's place and how many offsets were given.
pub(crate) fn of_offsets(a: Answer<(usize, usize)>) -> Numbers
    ensures { result ≡ numbers_of_offsets a }
{
    match a {
        Err(r) => Numbers::refused(r),
        Ok((place, n)) => Numbers {
            number: 0,
            first: place,
            second: n,
            third: 0,
        },
    }
}
