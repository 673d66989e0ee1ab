// Answers as numbers.
ghost use Rattle.std.specs.Prelude.{◌≡◌};
ghost use Rattle.answer.specs.Answers.{accepted, of_refusal, numbers_of};

use crate::{Answer, Counts, Refusal};

// 0 and what was accepted, or the refusal's number, its declaration's place and the byte position.
#[derive(Clone, Copy)]
pub struct Numbers {
    pub number: u8,
    pub first: usize,
    pub second: usize,
    pub third: usize,
}

impl Numbers {
    // Accepted, and one value.
    pub fn accepted(value: usize) -> Self
        ensures { result ≡ accepted value 0 0 }
    {
        Numbers {
            number: 0,
            first: value,
            second: 0,
            third: 0,
        }
    }

    pub fn refused(r: Refusal) -> Self
        ensures { result ≡ of_refusal r }
    {
        Numbers {
            number: r.why.number(),
            first: r.place,
            second: r.at,
            third: 0,
        }
    }

    pub fn of(a: Answer<Counts>) -> Self
        ensures { result ≡ numbers_of a }
    {
        match a {
            Err(r) => Numbers::refused(r),
            Ok(c) => Numbers {
                number: 0,
                first: c.declarations,
                second: c.rows,
                third: c.string_bytes,
            },
        }
    }
}
