ghost use Rattle.std.specs.Prelude.{◌≡◌, ◌≤◌, ◌+◌, true, length, OnOk, IfErr, IfSome};
ghost use Rattle.outside_io.specs.Disk.{LeavesOnly};
ghost use Rattle.journal.specs.Durable.{file_in};
ghost use Rattle.journal.specs.Journal.{Adds, AppendFails, IsBeforeOrAfter, LeavesAdded};
ghost use Rattle.node_spec.specs.Bodies.{IsSpelled};
ghost use Rattle.node_disk.specs.Keeping.{Fits, IsKept, KeepFails, LeavesKept, ReadsKept, length_with};

use crate::fault::NodeFault;
use journal::{Journal, JournalFault};
use outside_io::Disk;
use wire_core::EntryBytes;

// Appends what spells an entry.
fn append<D: Disk>(journal: &mut Journal<D>, body: &[u8]) -> Result<(), JournalFault>
    requires live { journal.old.live ≡ true }
    requires spelled { IsSpelled body.now }
    ensures live { OnOk result (journal.new.live ≡ true) }
    ensures reads { OnOk result (Adds journal.old.bound body.now
        (D.history journal.old.first) (D.history journal.new.first)) }
    ensures kept { OnOk result (LeavesAdded journal.old.bound body.now
        (D.history journal.old.first) (D.history journal.new.first)) }
    ensures length { OnOk result (journal.new.length ≡ journal.old.length + length body.now + 5) }
    ensures fits { OnOk result (journal.old.length + length body.now + 5 ≤ journal.old.bound) }
    ensures moments { LeavesOnly (D.history journal.old.first) (D.history journal.new.first)
        (IsBeforeOrAfter journal.old.bound (file_in (D.history journal.old.first)) body.now) }
    ensures fault { IfErr result (λ e. AppendFails journal.old.bound journal.old.length (length body.now)
        (D.faults journal.old.first) (D.faults journal.new.first) e) }
    ensures later { D.faults journal.old.first ≤ D.faults journal.new.first }
    ensures second { journal.new.second ≡ journal.old.second }
    ensures bound { journal.new.bound ≡ journal.old.bound }
{
    journal.append(body)
}

/// Makes the entry of a step durable, where it has one. At `Ok` it is in each image that a crash leaves; at every
/// moment each image opens to the entries before, with it or without. Takes no memory.
pub fn keep<D: Disk>(journal: &mut Journal<D>, entry: &Option<EntryBytes>) -> Result<(), NodeFault>
    requires live { journal.old.live ≡ true }
    requires spelled { IfSome entry.now IsSpelled }
    ensures live { OnOk result (journal.new.live ≡ true) }
    ensures reads { OnOk result (ReadsKept journal.old.bound entry.now
        (D.history journal.old.first) (D.history journal.new.first)) }
    ensures kept { OnOk result (LeavesKept journal.old.bound entry.now
        (D.history journal.old.first) (D.history journal.new.first)) }
    ensures length { OnOk result (journal.new.length ≡ length_with journal.old.length entry.now) }
    ensures fits { OnOk result (Fits journal.old.bound journal.old.length entry.now) }
    ensures moments { LeavesOnly (D.history journal.old.first) (D.history journal.new.first)
        (IsKept journal.old.bound (file_in (D.history journal.old.first)) entry.now) }
    ensures fault { IfErr result (λ e. KeepFails journal.old.bound journal.old.length
        (D.faults journal.old.first) (D.faults journal.new.first) entry.now e) }
    ensures later { D.faults journal.old.first ≤ D.faults journal.new.first }
    ensures second { journal.new.second ≡ journal.old.second }
    ensures bound { journal.new.bound ≡ journal.old.bound }
{
    match entry {
        None => {
            // A live journal's file opens as it did.
            let _ = journal.is_live();
            Ok(())
        }
        Some(body) => Ok(append(journal, body.as_slice())?),
    }
}
