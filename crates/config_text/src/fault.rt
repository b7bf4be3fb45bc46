ghost use Rattle.std.specs.Prelude.{◌≡◌};
ghost use Rattle.config_text.specs.declared.fault.ConfigFault.TheVariants.{NoMemory};

use std::alloc::{AllocError, AllocFailed};

/// Why a configuration wasn't read.
#[derive(Debug, Drop)]
pub enum ConfigFault {
    /// The bytes are no JSON, as `serde_json` reads it.
    Json,
    /// The path of the first fault, such as `agents[0].machines[1].address`.
    Field(String),
    NoMemory,
}

impl From<AllocError> for ConfigFault {
    ghost from_gives = { λ _ e. e ≡ NoMemory };

    fn from(_: AllocError) -> Self {
        ConfigFault::NoMemory
    }
}

impl<T: Drop> From<AllocFailed<T>> for ConfigFault {
    ghost from_gives = { λ _ e. e ≡ NoMemory };

    fn from(_: AllocFailed<T>) -> Self {
        ConfigFault::NoMemory
    }
}
