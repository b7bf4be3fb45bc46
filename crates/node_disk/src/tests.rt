// A journal judged by its bodies, and the entry of a step in a file, byte for byte.
use crate::{NodeFault, boot_bytes, judge, keep};
use disk_model::MemDisk;
use journal::{Journal, Refused};
use outside_io::Disk;
use std::alloc::Global;
use std::test::Fail;
use wire_core::{NoMemory, NodeId};

// In a journal: boots 1 and 2 of mux 0, boot 1 of mux 1 and of replica 0, the greatest boot of mux 0, epoch 5, and a
// promise of 5.
const BOOT_1: &[u8] = b"\x01\x01\x02\x00\x00\x00\x00\x00\x00\x00\x00\x00\x01";

const BOOT_2: &[u8] = b"\x01\x01\x02\x00\x00\x00\x00\x00\x00\x00\x00\x00\x02";

const OTHER_MUX: &[u8] = b"\x01\x01\x02\x00\x01\x00\x00\x00\x00\x00\x00\x00\x01";

const REPLICA: &[u8] = b"\x01\x01\x01\x00\x00\x00\x00\x00\x00\x00\x00\x00\x01";

const LAST_BOOT: &[u8] = b"\x01\x01\x02\x00\x00\xff\xff\xff\xff\xff\xff\xff\xff";

const NEWER: &[u8] = b"\x01\x02\x02\x00\x00\x00\x00\x00\x00\x00\x00\x00\x01";

const EPOCH: &[u8] = b"\x05\x00\x00\x00\x00\x00\x00\x00\x05";

const PROMISE: &[u8] = b"\x02\x00\x00\x00\x00\x00\x00\x00\x05";

// A file with these bodies.
fn file(alloc: Global, bodies: &[&[u8]]) -> Result<MemDisk, NoMemory> {
    let mut bytes = Vec::new(alloc);
    for body in bodies {
        bytes.push(1)?;
        bytes.extend_from_slice(&[0, 0, 0])?;
        bytes.push(u8::try_from(body.len()).unwrap_or(0))?;
        bytes.extend_from_slice(body)?;
    }
    bytes.push(0)?;
    let mut disk = MemDisk::new(alloc)?;
    let _written = disk.write_at(0, &bytes);
    let _kept = disk.sync();
    Ok(disk)
}

// What is judged, in words: the boot of the opening, or the fault with its number or its entry's last byte but one.
#[derive(Clone, Copy, Debug, PartialEq, Eq)]
enum Verdict {
    Boot(u64),
    Damaged(u64),
    WrongDisk([u8; 3]),
    Spent(u64),
    Other,
}

fn in_words(judged: Result<u64, NodeFault>) -> Verdict {
    match judged {
        Ok(boot) => Verdict::Boot(boot),
        Err(NodeFault::Damaged { offset, .. }) => Verdict::Damaged(offset),
        Err(NodeFault::WrongDisk { entry }) => match entry.as_slice() {
            [first, second, third, ..] => Verdict::WrongDisk([*first, *second, *third]),
            _ => Verdict::Other,
        },
        Err(NodeFault::Spent { boot }) => Verdict::Spent(boot),
        Err(_) => Verdict::Other,
    }
}

fn judged(alloc: Global, who: NodeId, bodies: &[&[u8]]) -> Result<Verdict, NoMemory> {
    let first = file(alloc, bodies)?;
    let second = MemDisk::new(alloc)?;
    match Journal::open(alloc, first, second, 4_096) {
        Ok((journal, found)) => Ok(in_words(judge(alloc, who, found.as_slice(), journal.length()))),
        Err(Refused { .. }) => Ok(Verdict::Other),
    }
}

#[test]
fn a_boot_is_one_more_than_the_greatest(rt: HostRuntime) -> Result<(), Fail> {
    let mux = NodeId::Mux(0);
    assert_eq!(rt; judged(rt.alloc(), mux, &[])?, Verdict::Boot(1));
    assert_eq!(rt; judged(rt.alloc(), mux, &[BOOT_1])?, Verdict::Boot(2));
    assert_eq!(rt;
        judged(rt.alloc(), mux, &[BOOT_2, EPOCH, BOOT_1])?,
        Verdict::Boot(3)
    );
    assert_eq!(rt;
        judged(rt.alloc(), mux, &[BOOT_1, LAST_BOOT])?,
        Verdict::Spent(u64::MAX)
    );
    Ok(())
}

#[test]
fn an_entry_of_another_role_is_damage(rt: HostRuntime) -> Result<(), Fail> {
    let mux = NodeId::Mux(0);
    // A gate, four bytes of length and the thirteen of a Boot stand before the second gate.
    assert_eq!(rt;
        judged(rt.alloc(), mux, &[BOOT_1, PROMISE])?,
        Verdict::Damaged(18)
    );
    assert_eq!(rt;
        judged(rt.alloc(), mux, &[PROMISE, OTHER_MUX])?,
        Verdict::Damaged(0)
    );
    assert_eq!(rt;
        judged(rt.alloc(), NodeId::Replica(0), &[REPLICA, PROMISE])?,
        Verdict::Boot(2)
    );
    assert_eq!(rt;
        judged(rt.alloc(), NodeId::Replica(0), &[REPLICA, EPOCH])?,
        Verdict::Damaged(18)
    );
    assert_eq!(rt;
        judged(rt.alloc(), NodeId::Agent(0), &[EPOCH])?,
        Verdict::Damaged(0)
    );
    Ok(())
}

#[test]
fn a_disk_of_another_node_is_wrong(rt: HostRuntime) -> Result<(), Fail> {
    let mux = NodeId::Mux(0);
    assert_eq!(rt;
        judged(rt.alloc(), mux, &[OTHER_MUX])?,
        Verdict::WrongDisk([1, 1, 2])
    );
    assert_eq!(rt;
        judged(rt.alloc(), mux, &[BOOT_1, REPLICA])?,
        Verdict::WrongDisk([1, 1, 1])
    );
    assert_eq!(rt;
        judged(rt.alloc(), mux, &[EPOCH, BOOT_1])?,
        Verdict::WrongDisk([5, 0, 0])
    );
    assert_eq!(rt;
        judged(rt.alloc(), mux, &[NEWER, LAST_BOOT])?,
        Verdict::WrongDisk([1, 2, 2])
    );
    Ok(())
}

// The file of a new mux 0.
const FILE: &[u8] = b"\x01\x00\x00\x00\x0d\x01\x01\x02\x00\x00\x00\x00\x00\x00\x00\x00\x00\x01\x00";

fn holds(disk: MemDisk, want: &[u8]) -> bool {
    let mut disk = disk;
    let mut buf = [0u8; 64];
    match disk.read(0, &mut buf) {
        Ok(count) => &buf[..count.min(64)] == want,
        Err(_) => false,
    }
}

// Whether the first Boot is kept byte for byte, and what a second keeping answers: the length and the body that were
// too much.
fn kept_twice(alloc: Global, bound: u32) -> Result<(bool, Option<(u32, u32)>), NoMemory> {
    let boot = Some(boot_bytes(alloc, NodeId::Mux(0), 1)?);
    let Ok((mut journal, _)) = Journal::open(
        alloc,
        MemDisk::new(alloc)?,
        MemDisk::new(alloc)?,
        bound,
    ) else {
        return Ok((false, None));
    };
    if keep(&mut journal, &boot).is_err() || keep(&mut journal, &None).is_err() {
        return Ok((false, None));
    }
    let full = match keep(&mut journal, &boot) {
        Err(NodeFault::Full { length, body }) => Some((length, body)),
        _ => None,
    };
    let (first, _) = journal.into_disks();
    Ok((full.is_none() || holds(first, FILE), full))
}

#[test]
fn an_entry_is_kept_within_the_bound(rt: HostRuntime) -> Result<(), Fail> {
    assert_eq!(rt; kept_twice(rt.alloc(), 36)?, (true, Some((19, 13))));
    assert_eq!(rt; kept_twice(rt.alloc(), 37)?, (true, None));
    Ok(())
}
