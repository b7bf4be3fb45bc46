ghost use Rattle.std.specs.Prelude.{◌≡◌};
ghost use Rattle.vip_config.specs.declared.broken.Broken.TheVariants.{NoMemory};

use crate::place::Place;
use std::alloc::{AllocError, AllocFailed};

/// Why a rule wasn't found to hold.
#[derive(Debug, Drop)]
pub enum Broken {
    /// The first member that breaks it.
    At(Place),
    NoMemory,
}

impl From<AllocError> for Broken {
    ghost from_gives = { λ _ e. e ≡ NoMemory };

    fn from(_: AllocError) -> Self {
        Broken::NoMemory
    }
}

impl<T: Drop> From<AllocFailed<T>> for Broken {
    ghost from_gives = { λ _ e. e ≡ NoMemory };

    fn from(_: AllocFailed<T>) -> Self {
        Broken::NoMemory
    }
}
