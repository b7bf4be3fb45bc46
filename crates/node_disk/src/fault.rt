ghost use Rattle.std.specs.Prelude.{◌≡◌};
ghost use Rattle.node_disk.specs.Keeping.{fault_of};
ghost use Rattle.node_disk.specs.declared.fault.NodeFault.TheVariants.{NoMemory};

use journal::JournalFault;
use wire_core::EntryBytes;

/// Why a node isn't opened, or did a step no more. At an opening the first that applies, in this order, with `Disk`
/// wherever a call of a disk failed.
#[derive(Debug, Drop)]
pub enum NodeFault {
    /// A call of a disk failed: its count of faults rose.
    Disk,
    /// A file isn't of the form of a journal, or an entry is of another role. `offset` is the place of the gate before
    /// it in bytes, and `second` says whether it is the second file.
    Damaged { second: bool, offset: u64 },
    /// The journal is another node's: this entry names another version, role or index, or stands before any Boot.
    WrongDisk { entry: EntryBytes },
    /// The greatest boot is the last number that there is.
    Spent { boot: u64 },
    /// The journal has `length` bytes, and an entry of `body` bytes would pass its bound.
    Full { length: u32, body: u32 },
    /// There was no memory.
    NoMemory,
}

impl From<JournalFault> for NodeFault {
    ghost from_gives = { λ f e. e ≡ fault_of f };

    fn from(fault: JournalFault) -> Self {
        match fault {
            JournalFault::Disk => NodeFault::Disk,
            JournalFault::Damaged { second, offset } => NodeFault::Damaged { second, offset },
            JournalFault::Full { length, body } => NodeFault::Full { length, body },
            JournalFault::NoMemory => NodeFault::NoMemory,
        }
    }
}

impl From<wire_core::NoMemory> for NodeFault {
    ghost from_gives = { λ _ e. e ≡ NoMemory };

    fn from(_: wire_core::NoMemory) -> Self {
        NodeFault::NoMemory
    }
}
