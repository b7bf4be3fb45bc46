ghost use Rattle.std.specs.Prelude.{◌≡◌};
ghost use Rattle.lease_model.specs.declared.fault.StepFault.TheVariants.{NoMemory};

use crate::row::BookRow;
use std::alloc::AllocError;
use wire_core::Act;

/// Why an act isn't taken.
#[derive(Debug, Drop)]
pub enum StepFault {
    /// The act's first condition that fails needs another row than this: `None` where there is no row.
    Illegal { act: Act, kept: Option<BookRow> },
    NoMemory,
}

impl From<AllocError> for StepFault {
    ghost from_gives = { λ _ e. e ≡ NoMemory };

    fn from(_: AllocError) -> Self {
        StepFault::NoMemory
    }
}
