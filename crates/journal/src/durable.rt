// A change to a file, and the sync that makes it last.
ghost use Rattle.std.specs.Prelude.{◌≡◌, ◌≤◌, length, take, OnOk};
ghost use Rattle.outside_io.specs.Disk.{Within, LeavesOnly};
ghost use Rattle.outside_io.specs.Faults.{HasCause};
ghost use Rattle.journal.specs.Durable.{Has, IsStill, file_in, over, Torn, Cut};

use outside_io::{Disk, Failed};

/// Writes and syncs.
pub fn write_through<D: Disk>(disk: &mut D, at: u64, bytes: &[u8]) -> Result<(), Failed>
    requires place { Within (D.history disk.old) at }
    requires still { IsStill (D.history disk.old) }
    ensures written { OnOk result (Has (D.history disk.new) (over at bytes.now (file_in (D.history disk.old)))) }
    ensures moments { LeavesOnly (D.history disk.old) (D.history disk.new)
        (Torn at (length bytes.now) (file_in (D.history disk.old))) }
    ensures cause { HasCause (D.faults disk.old) (D.faults disk.new) result }
{
    disk.write_at(at, bytes)?;
    disk.sync()
}

/// Cuts and syncs.
pub fn cut_through<D: Disk>(disk: &mut D, len: u64) -> Result<(), Failed>
    requires place { Within (D.history disk.old) len }
    requires still { IsStill (D.history disk.old) }
    ensures cut { OnOk result (Has (D.history disk.new) (take len (file_in (D.history disk.old)))) }
    ensures moments { LeavesOnly (D.history disk.old) (D.history disk.new) (Cut len (file_in (D.history disk.old))) }
    ensures cause { HasCause (D.faults disk.old) (D.faults disk.new) result }
{
    disk.cut(len)?;
    disk.sync()
}
