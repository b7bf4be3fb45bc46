ghost use Rattle.std.specs.Prelude.{◌≡◌};
ghost use Rattle.world_model.specs.Runs.{replay_fault};
ghost use Rattle.world_model.specs.declared.fault.ReplayFault.TheVariants.{NoMemory as no_memory, Write as write};

use outside_io::Failed;
use std::alloc::AllocFailed;
use wire_core::NoMemory;
use world_nodes::WorldFault;

/// Why a run wasn't written to its end.
#[derive(Clone, Copy, Debug, PartialEq, Eq)]
pub enum ReplayFault {
    /// A journal has `length` bytes, and an entry of `body` bytes would pass its bound.
    Full { length: u32, body: u32 },
    /// A call of the sink failed: its count of faults rose.
    Write,
    NoMemory,
}

impl From<WorldFault> for ReplayFault {
    ghost from_gives = { λ f e. e ≡ replay_fault f };

    fn from(fault: WorldFault) -> Self {
        match fault {
            WorldFault::Full { length, body } => ReplayFault::Full { length, body },
            WorldFault::NoMemory => ReplayFault::NoMemory,
        }
    }
}

impl From<Failed> for ReplayFault {
    ghost from_gives = { λ _ e. e ≡ write };

    fn from(_: Failed) -> Self {
        ReplayFault::Write
    }
}

impl From<NoMemory> for ReplayFault {
    ghost from_gives = { λ _ e. e ≡ no_memory };

    fn from(_: NoMemory) -> Self {
        ReplayFault::NoMemory
    }
}
