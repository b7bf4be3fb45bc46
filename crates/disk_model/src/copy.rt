// A copy of a disk, for a host in memory.
ghost use Rattle.std.specs.Prelude.{◌≡◌, IfOk};

use crate::fuse::Fuse;
use crate::state::{MemDisk, Replaced, Undo};
use outside_io::Snapshot;
use std::alloc::Global;
use wire_core::{Items, NoMemory};

fn copy_replaced(replaced: &Replaced, alloc: Global) -> Result<Replaced, NoMemory>
    ensures { IfOk result (λ copy. copy ≡ replaced.now) }
{
    match replaced {
        Replaced::Bytes { at, count, old } => Ok(Replaced::Bytes {
            at: *at,
            count: *count,
            old: Items::from_vec(old.as_slice().to_vec(alloc)?),
        }),
        Replaced::Ranges { unsynced } => Ok(Replaced::Ranges {
            unsynced: Items::from_vec(unsynced.as_slice().to_vec(alloc)?),
        }),
    }
}

fn copy_undo(undo: &Undo, alloc: Global) -> Result<Undo, NoMemory>
    ensures { IfOk result (λ copy. copy ≡ undo.now) }
{
    Ok(Undo {
        replaced: copy_replaced(&undo.replaced, alloc)?,
        least: undo.least,
        greatest: undo.greatest,
    })
}

fn copy_undos(undos: &[Undo], alloc: Global) -> Result<Vec<Undo>, NoMemory>
    ensures { IfOk result (λ copies. copies.items ≡ undos.now) }
{
    let mut copies = Vec::new(alloc);
    for undo in undos {
        copies.push(copy_undo(undo, alloc)?)?;
    }
    Ok(copies)
}

impl MemDisk {
    /// Another disk that tells the same, with the same count of faults. Takes time and memory in the file and in all
    /// that was replaced since the disk was made or left by a crash.
    pub fn copy(&self, alloc: Global) -> Result<MemDisk, NoMemory>
        ensures { IfOk result (λ copy. copy ≡ self.now) }
    {
        let undo = copy_undos(&self.undo, alloc)?;
        let buffer = self.buffer.to_vec(alloc)?;
        let unsynced = self.unsynced.to_vec(alloc)?;
        Ok(MemDisk {
            alloc,
            buffer,
            len: self.len,
            unsynced,
            least: self.least,
            undo,
            faults: self.faults,
        })
    }
}

impl Snapshot for MemDisk {
    fn snapshot(&self, alloc: Global) -> Result<MemDisk, NoMemory> {
        self.copy(alloc)
    }

    fn has_failed(&self) -> bool {
        self.faults != 0
    }
}

impl Snapshot for Fuse {
    fn snapshot(&self, alloc: Global) -> Result<Fuse, NoMemory> {
        self.copy(alloc)
    }

    fn has_failed(&self) -> bool {
        self.faults() != 0
    }
}
