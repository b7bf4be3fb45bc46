// The run of a mux on a host in memory: how it ends, and which calls the host has seen then.
ghost use Rattle.std.specs.Prelude.{◌≡◌};

use crate::tests::{Dropper, small};
use crate::{NodeEnding, Served, serve_on};
use disk_model::MemDisk;
use outside_io::{Disk, KeptCall, LinkScript, MemAnswer, MemClock, MemHost, NamedDisk};
use std::alloc::{AllocError, Global};
use std::test::Fail;
use vip_config::Config;
use wire_core::{Items, NoMemory, NodeId};

// An entry of no kind, behind an open gate.
const DAMAGED: &[u8] = b"\x01\x00\x00\x00\x01\xff\x00";

// The first Boot of agent 0.
const OF_AN_AGENT: &[u8] =
    b"\x01\x00\x00\x00\x0d\x01\x01\x03\x00\x00\x00\x00\x00\x00\x00\x00\x00\x01\x00";

// The last Boot that mux 0 can have.
const SPENT: &[u8] =
    b"\x01\x00\x00\x00\x0d\x01\x01\x02\x00\x00\xff\xff\xff\xff\xff\xff\xff\xff\x00";

// A disk with this file.
fn disk(alloc: Global, file: &[u8]) -> Result<MemDisk, NoMemory> {
    let mut disk = MemDisk::new(alloc)?;
    if disk.write_at(0, file).is_err() {
        return Err(AllocError);
    }
    Ok(disk)
}

fn named(alloc: Global, name: &[u8], disk: MemDisk) -> Result<NamedDisk<MemDisk>, NoMemory> {
    let name = Items::from_vec(name.to_vec(alloc)?);
    Ok(NamedDisk { name, disk })
}

fn disks(alloc: Global, file: &[u8]) -> Result<Vec<NamedDisk<MemDisk>>, NoMemory> {
    let mut disks = Vec::new(alloc);
    let second = disk(alloc, b"")?;
    disks.push(named(alloc, b"mux-0-b", second)?)?;
    let first = disk(alloc, file)?;
    disks.push(named(alloc, b"mux-0-a", first)?)?;
    Ok(disks)
}

fn links(alloc: Global, answer: MemAnswer) -> Result<Vec<LinkScript>, NoMemory> {
    let mut list = Vec::new(alloc);
    list.push(answer)?;
    let failing = Vec::new(alloc);
    let mut links = Vec::new(alloc);
    links.push(LinkScript { list, failing })?;
    Ok(links)
}

// A host whose first disk has this file, whose link gives this answer, and whose call with this number fails.
fn host(
    alloc: Global,
    file: &[u8],
    answer: MemAnswer,
    failing: u64,
) -> Result<MemHost<MemDisk>, NoMemory> {
    let disks = disks(alloc, file)?;
    let links = links(alloc, answer)?;
    let failing = [failing].to_vec(alloc)?;
    Ok(MemHost::new(alloc, links, disks, failing))
}

// Two turns of mux 0, both at time 0: a tick, and an answer of the link.
fn two_turns(alloc: Global, cfg: &Config, host: &mut MemHost<MemDisk>) -> Option<NodeEnding> {
    let who = NodeId::Mux(0);
    let _ = cfg.socket(&who)?;
    let mut clock = MemClock::new(Vec::new(alloc));
    Some(serve_on::<Dropper, MemHost<MemDisk>, MemClock>(alloc, host, &mut clock, cfg, who, 2))
}

// A letter for each call: bound or not, opened or not, a link or a disk back.
fn letter(call: &KeptCall<MemDisk>) -> u8 {
    match call {
        KeptCall::Bound { given: true, .. } => b'B',
        KeptCall::Bound { given: false, .. } => b'b',
        KeptCall::Opened { .. } => b'O',
        KeptCall::NotOpened { .. } => b'o',
        KeptCall::LinkBack { .. } => b'l',
        KeptCall::DiskBack { .. } => b'd',
    }
}

fn are_calls(calls: &[KeptCall<MemDisk>], want: &[u8]) -> bool {
    calls.len() == want.len()
        && calls
            .iter()
            .zip(want)
            .all(|(call, want)| letter(call) == *want)
}

// How the two turns ended, and whether the host saw these calls.
fn ran(
    alloc: Global,
    file: &[u8],
    answer: MemAnswer,
    failing: u64,
    want: &[u8],
) -> Result<(Option<NodeEnding>, bool), NoMemory> {
    let mut host = host(alloc, file, answer, failing)?;
    let cfg = match small(alloc) {
        Ok(cfg) => cfg,
        Err(_) => return Err(AllocError),
    };
    let ending = two_turns(alloc, &cfg, &mut host);
    let calls = host.into_calls();
    Ok((ending, are_calls(&calls, want)))
}

/// A number that no call has.
const NONE: u64 = 9;

#[test]
fn a_node_is_served_and_all_is_given_back(rt: HostRuntime) -> Result<(), Fail> {
    let served = Served {
        turns: 2,
        sent: 1,
        dropped: 1,
        failed: 0,
    };
    let done = ran(rt.alloc(), b"", MemAnswer::Idle, NONE, b"OOBldd")?;
    assert_eq!(rt; done, (Some(NodeEnding::Done(served)), true));
    Ok(())
}

#[test]
fn what_the_host_has_not_ends_it(rt: HostRuntime) -> Result<(), Fail> {
    let first = ran(rt.alloc(), b"", MemAnswer::Idle, 0, b"o")?;
    assert_eq!(rt; first, (Some(NodeEnding::DiskFault), true));
    let second = ran(rt.alloc(), b"", MemAnswer::Idle, 1, b"Ood")?;
    assert_eq!(rt; second, (Some(NodeEnding::DiskFault), true));
    let link = ran(rt.alloc(), b"", MemAnswer::Idle, 2, b"OObdd")?;
    assert_eq!(rt; link, (Some(NodeEnding::LinkFault), true));
    let next = ran(rt.alloc(), b"", MemAnswer::Fails, NONE, b"OOBldd")?;
    assert_eq!(rt; next, (Some(NodeEnding::LinkFault), true));
    Ok(())
}

#[test]
fn a_journal_that_is_not_the_nodes_own_ends_it(rt: HostRuntime) -> Result<(), Fail> {
    let damaged = ran(rt.alloc(), DAMAGED, MemAnswer::Idle, NONE, b"OOdd")?;
    let place = NodeEnding::Damaged {
        second: false,
        offset: 0,
    };
    assert_eq!(rt; damaged, (Some(place), true));
    let other = ran(rt.alloc(), OF_AN_AGENT, MemAnswer::Idle, NONE, b"OOdd")?;
    assert_eq!(rt; other, (Some(NodeEnding::WrongDisk), true));
    let spent = ran(rt.alloc(), SPENT, MemAnswer::Idle, NONE, b"OOdd")?;
    assert_eq!(rt; spent, (Some(NodeEnding::Spent), true));
    Ok(())
}
