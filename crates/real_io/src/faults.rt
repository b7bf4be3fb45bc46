ghost use Rattle.std.specs.Prelude.{◌≡◌, Ok, IfOk};
ghost use Rattle.outside_io.specs.Faults.{HasCause};

use outside_io::Failed;
use std::io;

/// The answer of the system; an error counts as a fault.
pub fn counted<T: Drop>(faults: &mut u64, answer: io::Result<T>) -> Result<T, Failed>
    ensures cause { HasCause faults.old faults.new result }
    ensures value { IfOk result (λ x. answer ≡ Ok x) }
{
    match answer {
        Ok(value) => Ok(value),
        Err(_) => {
            *faults = faults.saturating_add(1);
            Err(Failed)
        }
    }
}
