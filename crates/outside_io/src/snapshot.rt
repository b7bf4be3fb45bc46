ghost use Rattle.std.specs.Prelude.{◌≡◌, ◌==◌, not, IfOk};

use crate::disk::Disk;
use std::alloc::Global;
use wire_core::NoMemory;

/// What a host in memory asks of its disks beside what a disk is: it tells what each held when it was handed out, and
/// whether a call of it has failed when it came back.
pub trait Snapshot: Disk + Drop {
    /// A copy that tells the same. Takes time and memory in all that the disk tells.
    fn snapshot(&self, alloc: Global) -> Result<Self, NoMemory>
        ensures { IfOk result (λ copy. Self.history copy ≡ Self.history self.now) };

    /// Whether a call of it has failed.
    fn has_failed(&self) -> bool
        ensures { result ≡ not (Self.faults self.now == 0) };
}
