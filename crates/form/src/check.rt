// What a check finds: nothing, or the first fault.
ghost use Rattle.std.specs.Prelude.{◌≡◌};
ghost use Rattle.form.specs.Checks.{fault, must};

use answer::{Fault, Why};

pub type Check = Result<(), Fault>;

// What must hold, and the fault where it does not.
pub fn must(holds: bool, why: Why, at: usize) -> Check
    ensures { result ≡ must holds (fault why at) }
{
    if holds {
        return Ok(());
    }
    Err(Fault { why, at })
}
