// A mux on a host in memory: its first tick, and the files over which it opens or doesn't.
ghost use Rattle.std.specs.Prelude.{IsSome};
ghost use Rattle.vip_config.specs.Queries.{socket_of};

use crate::Role;
use crate::lives::small;
use crate::stories::{FIVE, HELLO};
use disk_model::MemDisk;
use node_core::Core;
use node_run::{NodeEnding, Served, serve_on};
use outside_io::{Disk, KeptCall, LinkScript, MemClock, MemHost, NamedDisk, SentDatagram};
use std::alloc::{AllocError, Global};
use std::test::Fail;
use vip_config::Config;
use wire_core::{Items, NoMemory, NodeId};

/// The file of a mux that has opened once: its Boot behind an open gate, and a closed one.
const OPENED: &[u8] =
    b"\x01\x00\x00\x00\x0d\x01\x01\x02\x00\x00\x00\x00\x00\x00\x00\x00\x00\x01\x00";

/// An open gate, and an entry that isn't whole.
const DAMAGED: &[u8] = b"\x01\x00\x00\x00\x09\x05";

/// A Boot with role byte 1, and one with the last boot that there is.
const OF_A_REPLICA: &[u8] =
    b"\x01\x00\x00\x00\x0d\x01\x01\x01\x00\x00\x00\x00\x00\x00\x00\x00\x00\x01\x00";

const LAST_BOOT: &[u8] =
    b"\x01\x00\x00\x00\x0d\x01\x01\x02\x00\x00\xff\xff\xff\xff\xff\xff\xff\xff\x00";

/// What a node has said on its link.
#[derive(Clone, Copy, Debug, PartialEq, Eq)]
enum Said {
    Nothing,
    /// A MuxHello of boot 1 and epoch 0 to each replica in order.
    Hellos,
    Others,
}

/// How the run of a node ended, what it has said, and whether its first disk has the file that is wanted.
#[derive(Clone, Copy, Debug, PartialEq, Eq)]
struct Ran {
    ending: NodeEnding,
    said: Said,
    file: bool,
}

fn disk(alloc: Global, file: &[u8]) -> Result<MemDisk, NoMemory> {
    let mut disk = MemDisk::new(alloc)?;
    if disk.write_at(0, file).is_err() {
        return Err(AllocError);
    }
    Ok(disk)
}

fn named(alloc: Global, name: &str, file: &[u8]) -> Result<NamedDisk<MemDisk>, NoMemory> {
    let disk = disk(alloc, file)?;
    let name = Items::from_vec(name.as_bytes().to_vec(alloc)?);
    Ok(NamedDisk { name, disk })
}

/// A host with one link on which nothing comes, and the two disks of mux 0, the first with this file.
fn host(alloc: Global, file: &[u8]) -> Result<MemHost<MemDisk>, NoMemory> {
    let mut disks = Vec::new(alloc);
    disks.push(named(alloc, "mux-0-a", file)?)?;
    disks.push(named(alloc, "mux-0-b", &[])?)?;
    let list = Vec::new(alloc);
    let failing = Vec::new(alloc);
    let mut links = Vec::new(alloc);
    links.push(LinkScript { list, failing })?;
    Ok(MemHost::new(alloc, links, disks, Vec::new(alloc)))
}

/// One turn of a configured node, at time 1000.
fn turn<C: Core>(
    alloc: Global,
    cfg: &Config,
    host: &mut MemHost<MemDisk>,
    who: NodeId,
) -> Result<NodeEnding, NoMemory>
    requires may { C.may_open cfg.now who }
    requires configured { IsSome (socket_of cfg.now who) }
{
    let mut clock = MemClock::new([1000].to_vec(alloc)?);
    Ok(serve_on::<C, MemHost<MemDisk>, MemClock>(alloc, host, &mut clock, cfg, who, 1))
}

fn are_hellos(sent: &[SentDatagram]) -> bool {
    let hello = |next: &SentDatagram| next.bytes.as_slice() == HELLO;
    sent.len() == 5
        && sent.iter().all(hello)
        && sent.iter().zip(FIVE).all(|(next, to)| next.to == *to)
}

fn told_on(calls: &[KeptCall<MemDisk>]) -> Said {
    for call in calls {
        if let KeptCall::LinkBack { link } = call {
            return if are_hellos(link.sent()) {
                Said::Hellos
            } else {
                Said::Others
            };
        }
    }
    Said::Nothing
}

fn holds(disk: &mut MemDisk, want: &[u8]) -> bool {
    let mut buf = [0u8; 64];
    match disk.read(0, &mut buf) {
        Ok(count) => &buf[..count.min(64)] == want,
        Err(_) => false,
    }
}

/// Whether the disk that came back first has this file.
fn is_left(calls: &mut [KeptCall<MemDisk>], want: &[u8]) -> bool {
    for call in calls {
        if let KeptCall::DiskBack { disk } = call {
            return holds(disk, want);
        }
    }
    false
}

fn turn_small(
    alloc: Global,
    host: &mut MemHost<MemDisk>,
    who: NodeId,
) -> Result<Option<NodeEnding>, NoMemory> {
    let cfg = small(alloc)?;
    if cfg.socket(&who).is_none() {
        return Ok(None);
    }
    Ok(Some(turn::<Role>(alloc, &cfg, host, who)?))
}

/// One turn of mux 0 over this file; `want` is the file that it is to leave.
fn run_over(alloc: Global, file: &[u8], want: &[u8]) -> Result<Option<Ran>, NoMemory> {
    let mut host = host(alloc, file)?;
    let Some(ending) = turn_small(alloc, &mut host, NodeId::Mux(0))? else {
        return Ok(None);
    };
    let mut calls = host.into_calls();
    let said = told_on(&calls);
    let file = is_left(&mut calls, want);
    Ok(Some(Ran { ending, said, file }))
}

/// A run of mux 0 that opened and ticked.
const TICKED: Ran = Ran {
    ending: NodeEnding::Done(Served {
        turns: 1,
        sent: 5,
        dropped: 0,
        failed: 0,
    }),
    said: Said::Hellos,
    file: true,
};

/// A run that ended at the opening, with the file as it was.
fn refused(ending: NodeEnding) -> Option<Ran> {
    Some(Ran {
        ending,
        said: Said::Nothing,
        file: true,
    })
}

#[test]
fn a_new_mux_says_hello_to_the_five(rt: HostRuntime) -> Result<(), Fail> {
    assert_eq!(rt; run_over(rt.alloc(), &[], OPENED)?, Some(TICKED));
    Ok(())
}

#[test]
fn a_file_without_an_open_gate_is_empty(rt: HostRuntime) -> Result<(), Fail> {
    assert_eq!(rt; run_over(rt.alloc(), b"\x01", OPENED)?, Some(TICKED));
    assert_eq!(rt;
        run_over(rt.alloc(), b"\x00\xff\xff", OPENED)?,
        Some(TICKED)
    );
    assert_eq!(rt; run_over(rt.alloc(), b"\x07\x01", OPENED)?, Some(TICKED));
    Ok(())
}

#[test]
fn a_node_that_is_not_configured_has_no_socket(rt: HostRuntime) -> Result<(), Fail> {
    let cfg = small(rt.alloc())?;
    let socket = cfg.socket(&NodeId::Mux(1));
    drop(cfg);
    assert_eq!(rt; socket, None);
    Ok(())
}

#[test]
fn a_journal_that_is_not_the_muxs_own_ends_the_run(rt: HostRuntime) -> Result<(), Fail> {
    let place = NodeEnding::Damaged {
        second: false,
        offset: 0,
    };
    assert_eq!(rt; run_over(rt.alloc(), DAMAGED, DAMAGED)?, refused(place));
    assert_eq!(rt;
        run_over(rt.alloc(), OF_A_REPLICA, OF_A_REPLICA)?,
        refused(NodeEnding::WrongDisk)
    );
    assert_eq!(rt;
        run_over(rt.alloc(), LAST_BOOT, LAST_BOOT)?,
        refused(NodeEnding::Spent)
    );
    Ok(())
}
