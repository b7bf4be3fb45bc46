// Journals on memory disks, and a stop at each disk call.
ghost use Rattle.std.specs.Prelude.{◌≡◌, true, OnOk};

use crate::record::is_entry;
use crate::{Journal, JournalFault, Refused};
use disk_model::{Fuse, MemDisk};
use outside_io::Disk;
use std::alloc::Global;
use std::test::Fail;
use wire_core::{BodyList, NoMemory};

// Boot 1 of mux 0, and epoch 5.
const BOOT: &[u8] = b"\x01\x01\x02\x00\x00\x00\x00\x00\x00\x00\x00\x00\x01";

const EPOCH: &[u8] = b"\x05\x00\x00\x00\x00\x00\x00\x00\x05";

// The file of a new mux 0.
const FILE: &[u8] = b"\x01\x00\x00\x00\x0d\x01\x01\x02\x00\x00\x00\x00\x00\x00\x00\x00\x00\x01\x00";

// Appends what is an entry.
fn append_entry<D: Disk>(journal: &mut Journal<D>, body: &[u8]) -> Result<(), JournalFault>
    requires { journal.old.live ≡ true }
    ensures { OnOk result (journal.new.live ≡ true) }
{
    if body.is_empty() || body.len() > 65_536 || !is_entry(body) {
        return Err(JournalFault::NoMemory);
    }
    journal.append(body)
}

// A file with these bytes, of which nothing is pending.
fn file(alloc: Global, bytes: &[u8]) -> Result<MemDisk, NoMemory> {
    let mut disk = MemDisk::new(alloc)?;
    if disk.len() == Ok(0) {
        let _written = disk.write_at(0, bytes);
    }
    let _kept = disk.sync();
    Ok(disk)
}

// Whether the file is exactly these bytes.
fn is_file(disk: MemDisk, want: &[u8]) -> bool {
    let mut disk = disk;
    let mut buf = [0u8; 64];
    match disk.read(0, &mut buf) {
        Ok(n) => &buf[..n.min(64)] == want,
        Err(_) => false,
    }
}

fn has_bodies(bodies: &BodyList, want: &[&[u8]]) -> bool {
    let bodies = bodies.as_slice();
    if bodies.len() != want.len() {
        return false;
    }
    for i in 0..bodies.len().min(want.len()) {
        if bodies[i].as_slice() != want[i] {
            return false;
        }
    }
    true
}

// How a file opens: the fault, or whether it has these bodies and the journal this length.
fn opens(alloc: Global, bytes: &[u8], want: &[&[u8]], length: u32) -> Result<bool, JournalFault> {
    match Journal::open(alloc, file(alloc, bytes)?, MemDisk::new(alloc)?, 1000) {
        Ok((journal, bodies)) => {
            Ok(
                has_bodies(&bodies, want)
                    && journal.length() == length
                    && journal.is_live()
                    && !journal.second(),
            )
        }
        Err(refused) => Err(fault_of(refused)),
    }
}

fn fault_of(refused: Refused<JournalFault, MemDisk>) -> JournalFault {
    let Refused { fault, .. } = refused;
    fault
}

#[test]
fn files_open_as_their_bodies(rt: HostRuntime) -> Result<(), Fail> {
    let alloc = rt.alloc();
    let empty: [&[u8]; 4] = [b"", b"\x01", b"\x00\xff\xff", b"\x07\x01"];
    for i in 0..4 {
        assert_eq!(rt; opens(alloc, empty[i], &[], 1), Ok(true), "at {i}");
    }
    let damaged = JournalFault::Damaged {
        second: false,
        offset: 0,
    };
    assert_eq!(rt;
        opens(alloc, b"\x01\x00\x00\x00\x09\x05", &[], 1),
        Err(damaged)
    );
    assert_eq!(rt;
        opens(alloc, b"\x01\x00\x00\x00\x00\x00", &[], 1),
        Err(damaged)
    );
    assert_eq!(rt; opens(alloc, FILE, &[BOOT], 19), Ok(true));
    Ok(())
}

// What is left of two appends to an empty file under a bound, and their answers.
fn two_appends<D: Disk>(
    alloc: Global,
    a: D,
    b: D,
    bound: u32,
) -> (D, D, Option<JournalFault>, bool) {
    match Journal::open(alloc, a, b, bound) {
        Ok((journal, _bodies)) => {
            let mut journal = journal;
            let first = append_entry(&mut journal, BOOT);
            let second = match first {
                Ok(()) => append_entry(&mut journal, EPOCH),
                Err(fault) => Err(fault),
            };
            let live = journal.is_live();
            let (a, b) = journal.into_disks();
            (a, b, second.err(), live)
        }
        Err(refused) => {
            let Refused { fault, a, b } = refused;
            (a, b, Some(fault), false)
        }
    }
}

#[test]
fn an_append_stops_at_the_bound(rt: HostRuntime) -> Result<(), Fail> {
    let alloc = rt.alloc();
    let (a, _b, fault, live) = two_appends(alloc, MemDisk::new(alloc)?, MemDisk::new(alloc)?, 32);
    let full = JournalFault::Full {
        length: 19,
        body: 9,
    };
    assert_eq!(rt; (fault, live), (Some(full), true));
    assert!(rt; is_file(a, FILE));
    let (a, _b, fault, live) = two_appends(alloc, MemDisk::new(alloc)?, MemDisk::new(alloc)?, 33);
    assert_eq!(rt; (fault, live), (None, true));
    let mut whole = FILE.to_vec(alloc)?;
    whole.pop();
    whole.extend_from_slice(b"\x01\x00\x00\x00\x09")?;
    whole.extend_from_slice(EPOCH)?;
    whole.push(0)?;
    assert!(rt; is_file(a, &whole));
    Ok(())
}

// An opening and an append that stop after so many disk calls, and whether the append answered Ok.
fn stopped<D: Disk>(alloc: Global, a: D, b: D) -> (D, D, bool, bool) {
    match Journal::open(alloc, a, b, 1000) {
        Ok((journal, _bodies)) => {
            let mut journal = journal;
            let added = append_entry(&mut journal, EPOCH).is_ok();
            let live = journal.is_live();
            let (a, b) = journal.into_disks();
            (a, b, added, live)
        }
        Err(refused) => {
            let Refused { a, b, .. } = refused;
            (a, b, false, false)
        }
    }
}

// Whether the file opens to the boot alone, or to the boot and the epoch; the second must be there where it was added.
fn is_before_or_after(
    alloc: Global,
    disk: MemDisk,
    before: &[&[u8]],
    after: &[&[u8]],
    added: bool,
) -> Result<bool, NoMemory> {
    match Journal::open(alloc, disk, MemDisk::new(alloc)?, 1000) {
        Ok((_journal, bodies)) => {
            Ok(has_bodies(&bodies, after) || (!added && has_bodies(&bodies, before)))
        }
        Err(_) => Ok(false),
    }
}

#[test]
fn a_stop_at_each_call_leaves_the_bodies_before_or_with_the_new_one(
    rt: HostRuntime,
) -> Result<(), Fail> {
    let alloc = rt.alloc();
    let ones = [1u8; 80];
    let nines = [9u8; 24];
    let picks: [&[u8]; 4] = [b"", b"\x01", &ones, &nines];
    for k in 0..14 {
        for i in 0..4 {
            let fuse = Fuse::new(file(alloc, FILE)?, k);
            let spare = Fuse::new(MemDisk::new(alloc)?, 9);
            let (a, _b, added, live) = stopped(alloc, fuse, spare);
            assert_eq!(rt; added, live);
            let left = a.disk().crash(picks[i]);
            assert!(rt;
                is_before_or_after(alloc, left, &[BOOT], &[BOOT, EPOCH], added)?,
                "call {k}, pick {i}"
            );
            let fuse = Fuse::new(file(alloc, b"\x00\x00\x00\x00\x09\x05\x01")?, k);
            let spare = Fuse::new(MemDisk::new(alloc)?, 9);
            let (a, _b, added, _live) = stopped(alloc, fuse, spare);
            let left = a.disk().crash(picks[i]);
            assert!(rt;
                is_before_or_after(alloc, left, &[], &[EPOCH], added)?,
                "empty, call {k}, pick {i}"
            );
        }
    }
    Ok(())
}
