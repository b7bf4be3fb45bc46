ghost use Rattle.std.specs.Prelude.{◌≡◌, ◌≤◌, ◌<◌, ◌+◌, ◌-◌, [], ◌∷◌, length, true, false, OnOk, IfOk, IfErr, Err};
ghost use Rattle.outside_io.specs.Disk.{LeavesOnly, Within};
ghost use Rattle.outside_io.specs.Faults.{HasCause};
ghost use Rattle.journal.specs.declared.fault.JournalFault.TheVariants.{Full, Disk};
ghost use Rattle.journal.specs.Durable.{Has, IsStill, file_in, over, Torn};
ghost use Rattle.journal.specs.File.{record_bytes, is_entry};
ghost use Rattle.journal.specs.Reading.{LoadFails};
ghost use Rattle.journal.specs.Journal.{Stands, Adds, LeavesAdded, LeavesBodies, IsAsBefore, IsBeforeOrAfter, AppendFails, OpenedAs, OpensSynced, OpensOnly, first_after, second_after, journal_length};

use crate::durable::write_through;
use crate::fault::{JournalFault, Refused};
use crate::opening::open_file;
use crate::record::{RECORD_ROOM, compose};
use outside_io::{Disk, Failed};
use std::alloc::Global;
use std::marker::Model;
use wire_core::{BodyList, NoMemory};

/// A journal that is open, in the first of its two disks. `end` is its length, from the file's start to the end of its
/// ending gate; it is at most `bound`.
#[derive(Drop)]
pub struct Journal<D: Disk> {
    a: D,
    b: D,
    bound: u32,
    end: u32,
    room: Vec<u8>,
    live: bool,
}

impl<D: Disk> Model for Journal<D> {
    ghost use Rattle.std.specs.Prelude.{length};
    ghost use Rattle.journal.specs.State.{JournalState, journal_code};
    ghost use Rattle.journal.specs.Journal.{IsKept};

    ghost Value = { JournalState D };

    ghost coded = { journal_code D.code };

    ghost view = { λ j. record { first = j.a; second = j.b; bound = j.bound; length = j.end; live = j.live } };

    ghost invariant = { λ j. IsKept j.live (length j.room.items) j.bound j.end (D.history j.a) };
}

// Length, body and a closed gate behind the ending gate.
fn stage<D: Disk>(disk: &mut D, end: u64, body: &[u8], room: &mut [u8]) -> Result<(), Failed>
    requires place { Within (D.history disk.old) end }
    requires still { IsStill (D.history disk.old) }
    requires size { length body.now ≤ 65536 }
    requires room { 65541 ≤ length room.old }
    ensures staged { OnOk result (Has (D.history disk.new)
        (over end (record_bytes body.now) (file_in (D.history disk.old)))) }
    ensures moments { LeavesOnly (D.history disk.old) (D.history disk.new)
        (Torn end (length (record_bytes body.now)) (file_in (D.history disk.old))) }
    ensures cause { HasCause (D.faults disk.old) (D.faults disk.new) result }
    ensures length { length room.new ≡ length room.old }
{
    compose(room, body, 0);
    write_through(disk, end, &room[..body.len() + 5])
}

// The two steps of an append.
fn add<D: Disk>(
    disk: &mut D,
    bound: u32,
    end: u64,
    body: &[u8],
    room: &mut [u8],
) -> Result<(), Failed>
    requires file { Stands bound end (D.history disk.old) }
    requires begun { 1 ≤ end }
    requires some { 1 ≤ length body.now }
    requires size { length body.now ≤ 65536 }
    requires entry { is_entry body.now ≡ true }
    requires bounded { end + length body.now + 5 ≤ bound }
    requires room { 65541 ≤ length room.old }
    ensures file { OnOk result (Stands bound (end + (length body.now + 5)) (D.history disk.new)) }
    ensures added { OnOk result (Adds bound body.now (D.history disk.old) (D.history disk.new)) }
    ensures moments { LeavesOnly (D.history disk.old) (D.history disk.new)
        (IsBeforeOrAfter bound (file_in (D.history disk.old)) body.now) }
    ensures cause { HasCause (D.faults disk.old) (D.faults disk.new) result }
    ensures length { length room.new ≡ length room.old }
{
    stage(disk, end, body, room)?;
    write_through(disk, end - 1, &[1])
}

fn zeros(alloc: Global, n: usize) -> Result<Vec<u8>, NoMemory>
    ensures { IfOk result (λ v. length v.items ≡ n) }
{
    vec![in alloc; 0u8; n]
}

impl<D: Disk> Journal<D> {
    /// Opens the journal in `a`, of at most `bound` bytes, and gives its bodies in order. It begins with a sync. A file
    /// without bodies is left as one closed gate. A fault hands the two disks back: `Damaged` comes exactly where the
    /// file isn't of the form, `Disk` only where the count of `a` rose. `b` is left as it is. The room for one record
    /// is taken here.
    pub fn open(
        alloc: Global,
        a: D,
        b: D,
        bound: u32,
    ) -> Result<(Journal<D>, BodyList), Refused<JournalFault, D>>
        ensures live { IfOk result (λ x. x.0.live ≡ true) }
        ensures opened { IfOk result (λ x. OpenedAs bound (D.history a) (D.history x.0.first) x.1) }
        ensures durable { IfOk result (λ x. LeavesBodies bound (D.history x.0.first) x.1) }
        ensures synced { IfOk result (λ x. OpensSynced bound (D.history a) (D.history x.0.first)) }
        ensures length { IfOk result (λ x. x.0.length ≡ journal_length x.1) }
        ensures bound { IfOk result (λ x. x.0.bound ≡ bound) }
        ensures moments { OpensOnly bound (D.history a) (D.history (first_after result)) }
        ensures still { IsStill (D.history a) → LeavesOnly (D.history a) (D.history (first_after result))
            (IsAsBefore bound (file_in (D.history a))) }
        ensures fault { IfErr result (λ e. LoadFails (D.history a) bound (D.faults a) (D.faults e.a) e.fault) }
        ensures later { D.faults a ≤ D.faults (first_after result) }
        ensures other { second_after result ≡ b }
    {
        let mut a = a;
        let mut room = match zeros(alloc, RECORD_ROOM) {
            Ok(room) => room,
            Err(_) => {
                return Err(Refused {
                    fault: JournalFault::NoMemory,
                    a,
                    b,
                });
            }
        };
        match open_file(alloc, &mut a, bound, &mut room) {
            Ok((bodies, end)) => Ok((
                Journal {
                    a,
                    b,
                    bound,
                    end,
                    room,
                    live: true,
                },
                bodies,
            )),
            Err(fault) => Err(Refused { fault, a, b }),
        }
    }

    /// Whether the journal may be appended to: false exactly after a call that answered `Disk`. The file of a live
    /// journal is on the disk, so that each crash now leaves its bodies.
    pub fn is_live(&self) -> bool
        ensures live { result ≡ self.now.live }
        ensures stands { self.now.live ≡ true
            → LeavesOnly (D.history self.now.first) (D.history self.now.first)
            (IsAsBefore self.now.bound (file_in (D.history self.now.first))) }
    {
        self.live
    }

    /// The journal's length in bytes, up to the end of its ending gate: 1 and for each body its length and 5.
    pub fn length(&self) -> u32
        ensures { result ≡ self.now.length }
    {
        self.end
    }

    /// Whether the journal's file is the second one. It is the first one always.
    pub fn second(&self) -> bool
        ensures { result ≡ false }
    {
        false
    }

    /// Lends the disk that the journal's file is on: the first one.
    pub fn disk(&self) -> &D
        ensures { result.now ≡ self.now.first }
    {
        &self.a
    }

    /// Gives the two disks back, the first one first.
    pub fn into_disks(self) -> (D, D)
        ensures { result ≡ (self.first, self.second) }
    {
        let Journal { a, b, .. } = self;
        (a, b)
    }

    /// Adds a body of 1 to 65,536 bytes that spells an entry. At `Ok` each crash leaves a file that has it. `Full`
    /// comes exactly where the length, the body's and 5 exceed the bound, and has changed nothing. `Disk` comes only
    /// where the count of the disk rose, and the journal isn't live afterwards. Takes no memory.
    pub fn append(&mut self, body: &[u8]) -> Result<(), JournalFault>
        requires live { self.old.live ≡ true }
        requires some { 1 ≤ length body.now }
        requires size { length body.now ≤ 65536 }
        requires entry { is_entry body.now ≡ true }
        ensures live { OnOk result (self.new.live ≡ true) }
        ensures added { OnOk result (Adds self.old.bound body.now
            (D.history self.old.first) (D.history self.new.first)) }
        ensures durable { OnOk result (LeavesAdded self.old.bound body.now
            (D.history self.old.first) (D.history self.new.first)) }
        ensures length { OnOk result (self.new.length ≡ self.old.length + length body.now + 5) }
        ensures moments { LeavesOnly (D.history self.old.first) (D.history self.new.first)
            (IsBeforeOrAfter self.old.bound (file_in (D.history self.old.first)) body.now) }
        ensures fault { IfErr result (λ e. AppendFails self.old.bound self.old.length (length body.now)
            (D.faults self.old.first) (D.faults self.new.first) e) }
        ensures full { self.old.bound < self.old.length + length body.now + 5
            → (result ≡ Err (Full self.old.length (length body.now))) × (self.new ≡ self.old) }
        ensures not_live { result ≡ Err Disk → self.new.live ≡ false }
        ensures later { D.faults self.old.first ≤ D.faults self.new.first }
        ensures second { self.new.second ≡ self.old.second }
        ensures bound { self.new.bound ≡ self.old.bound }
    {
        let n = body.len();
        let end = u64::from(self.end);
        if end + n as u64 + 5 > u64::from(self.bound) {
            return Err(JournalFault::Full {
                length: self.end,
                body: n as u32,
            });
        }
        self.live = false;
        add(&mut self.a, self.bound, end, body, &mut self.room)?;
        self.live = true;
        self.end += n as u32 + 5;
        Ok(())
    }
}
