// Reads the records of a journal file.
ghost use Rattle.std.specs.Prelude.{◌≡◌, ◌≤◌, ◌<◌, ◌+◌, ◌^◌, length, take, drop, true, IfOk, OnErr, OnOk, IfSome, IfErr, Err};
ghost use Rattle.outside_io.specs.Faults.{HasCause, Rose};
ghost use Rattle.journal.specs.declared.fault.JournalFault.TheVariants.{Disk};
ghost use Rattle.journal.specs.File.{size};
ghost use Rattle.journal.specs.Reading.{Heads, Bodies, Finds, LoadsAs, LoadFails};
ghost use Rattle.journal.specs.Journal.{journal_length};

use crate::fault::JournalFault;
use crate::record::{MAX_BODY, is_entry, read_size};
use outside_io::{Disk, Failed};
use std::alloc::Global;
use wire_core::{BodyList, EntryBytes};

/// What the first five bytes from a gate on say.
#[derive(Clone, Copy, Debug, PartialEq, Eq)]
pub enum Head {
    /// The gate isn't open, or the file ends here.
    End,
    /// The gate is open, and fewer than four bytes follow.
    Short,
    /// The gate is open, and the body has so many bytes.
    Size(u32),
}

fn read_head<D: Disk>(disk: &mut D, at: u64) -> Result<Head, Failed>
    ensures same { D.history disk.new ≡ D.history disk.old }
    ensures told { Heads (D.history disk.old) at result }
    ensures cause { HasCause (D.faults disk.old) (D.faults disk.new) result }
{
    let mut head = [0u8; 5];
    let got = disk.read(at, &mut head)?;
    if got == 0 || head[0] != 1 {
        return Ok(Head::End);
    }
    if got < 5 {
        return Ok(Head::Short);
    }
    Ok(Head::Size(read_size(&head)))
}

// Whether a body of n bytes, which is an entry, and one byte more stand at a place.
fn read_body<D: Disk>(disk: &mut D, at: u64, n: usize, room: &mut [u8]) -> Result<bool, Failed>
    requires room { n + 1 ≤ length room.old }
    ensures same { D.history disk.new ≡ D.history disk.old }
    ensures length { length room.new ≡ length room.old }
    ensures bytes { Bodies (D.history disk.old) at n room.new result }
    ensures cause { HasCause (D.faults disk.old) (D.faults disk.new) result }
{
    let got = disk.read(at, &mut room[..n + 1])?;
    Ok(got > n && is_entry(&room[..n]))
}

/// What stands at the gate at `at`: the length of a body, which is then at the front of `room`, or the end.
pub fn read_record<D: Disk>(
    disk: &mut D,
    bound: u32,
    at: u32,
    room: &mut [u8],
) -> Result<Option<usize>, JournalFault>
    requires room { 65541 ≤ length room.old }
    ensures same { D.history disk.new ≡ D.history disk.old }
    ensures length { length room.new ≡ length room.old }
    ensures within { IfOk result (λ found. IfSome found (λ n. at + n + 5 < bound)) }
    ensures size { IfOk result (λ found. IfSome found (λ n. n ≤ 65536)) }
    ensures found { Finds (D.history disk.old) bound at room.new result }
    ensures later { D.faults disk.old ≤ D.faults disk.new }
    ensures cause { result ≡ Err Disk → Rose (D.faults disk.old) (D.faults disk.new) }
{
    let damaged = JournalFault::Damaged {
        second: false,
        offset: u64::from(at),
    };
    let n = match read_head(disk, u64::from(at))? {
        Head::End => return Ok(None),
        Head::Short => return Err(damaged),
        Head::Size(n) => n,
    };
    if n == 0 || n > MAX_BODY || u64::from(at) + u64::from(n) + 5 >= u64::from(bound) {
        return Err(damaged);
    }
    if !read_body(disk, u64::from(at) + 5, n as usize, room)? {
        return Err(damaged);
    }
    Ok(Some(n as usize))
}

/// The bodies of a file in order, and its length up to the end of its last gate.
pub fn load<D: Disk>(
    alloc: Global,
    disk: &mut D,
    bound: u32,
    room: &mut [u8],
) -> Result<(BodyList, u32), JournalFault>
    requires room { 65541 ≤ length room.old }
    ensures same { D.history disk.new ≡ D.history disk.old }
    ensures length { length room.new ≡ length room.old }
    ensures end { IfOk result (λ x. x.1 ≡ journal_length x.0) }
    ensures read { IfOk result (λ x. LoadsAs (D.history disk.old) bound x.0 x.1) }
    ensures later { D.faults disk.old ≤ D.faults disk.new }
    ensures fault { IfErr result (λ e. LoadFails (D.history disk.old) bound (D.faults disk.old) (D.faults disk.new) e) }
{
    let mut bodies = BodyList::new(alloc);
    if disk.len()? <= 1 {
        return Ok((bodies, 1));
    }
    let mut at: u32 = 0;
    while let Some(n) = read_record(disk, bound, at, room)? {
        let body = room[..n].to_vec(alloc)?;
        bodies.push(EntryBytes::from_vec(body))?;
        at += n as u32 + 5;
    }
    Ok((bodies, at + 1))
}
