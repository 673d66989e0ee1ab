// The scan of a text: exactly one JSON value (RFC 8259) with white space around it, in UTF-8, of at most 32,768 bytes, with brackets nested at most 64 deep.
#![tactic(auto)]

mod byte;
mod escape;
mod number;
mod step;
mod string;
mod utf8;
mod value;
pub mod verdict;

ghost use Rattle.std.specs.Prelude.{◌≡◌};
ghost use Rattle.json_scan.specs.Json.{scanned, verdict};

use answer::{Fault, Why};
use step::skip;
use value::value;
pub use verdict::Scan;

// The error is the first fault of the text.
pub fn scan(text: &[u8]) -> Result<(), Fault>
    ensures { result ≡ scanned text.now }
{
    if text.len() > Scan::TEXT {
        return Err(Fault {
            why: Why::TextTooLong,
            at: Scan::TEXT,
        });
    }
    read(text)
}

fn read(text: &[u8]) -> Result<(), Fault>
    ensures { result ≡ verdict text.now }
{
    let e = value(text, 0, Scan::NESTING)?;
    let at = skip(text, e);
    if at < text.len() {
        return Err(Fault {
            why: Why::NotJson,
            at,
        });
    }
    Ok(())
}
