// Opens a file that a crash may have left.
ghost use Rattle.std.specs.Prelude.{◌≡◌, ◌≤◌, ◌∷◌, [], length, OnOk, IfOk, IfErr};
ghost use Rattle.outside_io.specs.Disk.{LeavesOnly};
ghost use Rattle.outside_io.specs.Faults.{HasCause};
ghost use Rattle.journal.specs.Durable.{Has, IsStill};
ghost use Rattle.journal.specs.Reading.{Empty, IsShort, LoadFails};
ghost use Rattle.journal.specs.Journal.{IsEmptyFile, OpensOnly, OpensSynced, OpenedAs, Stands, journal_length};

use crate::durable::{cut_through, write_through};
use crate::fault::JournalFault;
use crate::reading::load;
use outside_io::{Disk, Failed};
use std::alloc::Global;
use wire_core::BodyList;

// Cuts an empty file to its first byte: behind a gate that is torn open, what was there would count.
fn cut_to_gate<D: Disk>(disk: &mut D) -> Result<(), Failed>
    requires still { IsStill (D.history disk.old) }
    requires empty { Empty (D.history disk.old) }
    ensures still { OnOk result (IsStill (D.history disk.new)) }
    ensures short { OnOk result (IsShort (D.history disk.new)) }
    ensures moments { LeavesOnly (D.history disk.old) (D.history disk.new) IsEmptyFile }
    ensures cause { HasCause (D.faults disk.old) (D.faults disk.new) result }
{
    if disk.len()? <= 1 {
        return Ok(());
    }
    cut_through(disk, 1)
}

// Makes an empty file a closed gate.
fn shut_empty<D: Disk>(disk: &mut D) -> Result<(), Failed>
    requires still { IsStill (D.history disk.old) }
    requires empty { Empty (D.history disk.old) }
    ensures made { OnOk result (Has (D.history disk.new) (0 ∷ [])) }
    ensures moments { LeavesOnly (D.history disk.old) (D.history disk.new) IsEmptyFile }
    ensures cause { HasCause (D.faults disk.old) (D.faults disk.new) result }
{
    cut_to_gate(disk)?;
    write_through(disk, 0, &[0])
}

/// Syncs a file, reads its bodies, and closes its first gate where it has none. The number is the journal's length.
pub fn open_file<D: Disk>(
    alloc: Global,
    disk: &mut D,
    bound: u32,
    room: &mut [u8],
) -> Result<(BodyList, u32), JournalFault>
    requires room { 65541 ≤ length room.old }
    ensures length { length room.new ≡ length room.old }
    ensures end { IfOk result (λ x. x.1 ≡ journal_length x.0) }
    ensures opened { IfOk result (λ x. OpenedAs bound (D.history disk.old) (D.history disk.new) x.0) }
    ensures stands { IfOk result (λ x. Stands bound x.1 (D.history disk.new)) }
    ensures synced { OnOk result (OpensSynced bound (D.history disk.old) (D.history disk.new)) }
    ensures moments { OpensOnly bound (D.history disk.old) (D.history disk.new) }
    ensures later { D.faults disk.old ≤ D.faults disk.new }
    ensures fault { IfErr result (λ e. LoadFails (D.history disk.old) bound (D.faults disk.old) (D.faults disk.new) e) }
{
    disk.sync()?;
    let (bodies, end) = load(alloc, disk, bound, room)?;
    if !bodies.is_empty() {
        return Ok((bodies, end));
    }
    shut_empty(disk)?;
    Ok((bodies, 1))
}
