ghost use Rattle.std.specs.Prelude.{◌≡◌};
ghost use Rattle.journal.specs.declared.fault.JournalFault.TheVariants.{Disk, NoMemory};

use outside_io::Failed;
use std::alloc::AllocFailed;

/// Why a call of a journal was refused.
#[derive(Clone, Copy, Debug, PartialEq, Eq)]
pub enum JournalFault {
    /// A call of a disk failed: its count of faults rose.
    Disk,
    /// The file isn't of the form of a journal. `offset` is the place of the open gate behind which it isn't; `second`
    /// says whether it is the second file.
    Damaged { second: bool, offset: u64 },
    /// The journal has `length` bytes, and a record of a body of so many bytes would pass its bound.
    Full { length: u32, body: u32 },
    /// There was no memory.
    NoMemory,
}

impl From<Failed> for JournalFault {
    ghost from_gives = { λ _ e. e ≡ Disk };

    fn from(_: Failed) -> Self {
        JournalFault::Disk
    }
}

impl From<wire_core::NoMemory> for JournalFault {
    ghost from_gives = { λ _ e. e ≡ NoMemory };

    fn from(_: wire_core::NoMemory) -> Self {
        JournalFault::NoMemory
    }
}

impl<T: Drop> From<AllocFailed<T>> for JournalFault {
    ghost from_gives = { λ _ e. e ≡ NoMemory };

    fn from(_: AllocFailed<T>) -> Self {
        JournalFault::NoMemory
    }
}

/// A refusal that hands the two disks back beside the fault.
#[derive(Drop)]
pub struct Refused<F, D> {
    pub fault: F,
    pub a: D,
    pub b: D,
}
