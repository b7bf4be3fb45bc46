//! The ports of a machine, each step with what it is to answer.
use agent_flows::{private_key, public_key};
use agent_ports::{Granting, Opened, Ports};
use agent_spec::Connection;
use std::alloc::Global;
use std::test::Fail;
use wire_core::{FlowKey, Ip4, NoMemory, Proto, Range};

const VIP: Ip4 = Ip4(0xc000_020a);

const MACHINE: Ip4 = Ip4(0x0a01_0004);

/// 198.51.100.7 and 198.51.100.8.
const REMOTE: Ip4 = Ip4(0xc633_6407);

const OTHER: Ip4 = Ip4(0xc633_6408);

/// What is asked of the ports, and what they are to answer.
#[derive(Clone, Copy)]
enum Step {
    /// A Grant, by its number, of the eight ports from this one on, at a time in milliseconds. The range is held from
    /// then on, or the Grant is old, by the greatest number that was held of the range.
    Grant(u64, u16, u64, Granting),
    /// A connection from this port to port 53 of a remote address: the port through which it leaves.
    Leave(u16, Ip4, Option<u16>),
    /// The connection from this port to 198.51.100.7 closes at a time: the port through which it left.
    Close(u16, u64, Option<u16>),
    /// At this time so many ranges are given back, if they were idle for 30,000 milliseconds.
    GiveBack(u64, usize),
    /// The return of this number is answered: whether it was given back.
    Returned(u64, bool),
    /// So many ranges by ascending numbers, the first from port 1024 on.
    GrantEach(u16),
    /// So many connections from the ports from 1 on to 198.51.100.7, which leave through the ports from 1024 on.
    LeaveEach(u16),
}

fn grant(ports: &mut Ports, n: u64, start: u16, now: u64) -> Result<Granting, NoMemory> {
    let range = Range { vip: VIP, start };
    ports.grant(n, &range, MACHINE, now)
}

/// The machine's packets from this port to port 53 of a remote address.
fn key(sport: u16, remote: Ip4) -> FlowKey {
    FlowKey {
        src: MACHINE,
        dst: remote,
        sport,
        dport: 53,
        proto: Proto::Udp,
    }
}

fn connection(key: &FlowKey, n: u64, port: u16) -> Connection {
    Connection {
        vip: VIP,
        proto: key.proto,
        port,
        remote: key.dst,
        rport: key.dport,
        machine: key.src,
        sport: key.sport,
        n,
        last: 0,
        peer: None,
    }
}

/// Opens a connection, unless one of its keys is there.
fn open(ports: &mut Ports, c: Connection) -> Result<bool, NoMemory> {
    if ports.find_private(&private_key(&c)).is_some() {
        return Ok(false);
    }
    if ports.find_public(&public_key(&c)).is_some() {
        return Ok(false);
    }
    Ok(ports.open(c)? == Opened::Yes)
}

/// Opens a connection through the port that is chosen for it. Without a port, or where it isn't opened, `None`; else
/// the port.
fn leave(ports: &mut Ports, sport: u16, remote: Ip4) -> Result<Option<u16>, NoMemory> {
    let key = key(sport, remote);
    let Some((n, port)) = ports.choose_port(&key, VIP) else {
        return Ok(None);
    };
    let opened = open(ports, connection(&key, n, port))?;
    Ok(if opened { Some(port) } else { None })
}

/// Closes the machine's connection from this port.
fn close(ports: &mut Ports, sport: u16, now: u64) -> Option<u16> {
    let c = ports.find_private(&key(sport, REMOTE))?;
    ports.close(&c, now);
    Some(c.port)
}

fn give_back(ports: &mut Ports, now: u64) -> Result<usize, NoMemory> {
    let given = ports.give_back_idle(now, 30_000, |_| false)?;
    Ok(given.len())
}

/// Whether each of so many ranges is held then.
fn grant_each(ports: &mut Ports, count: u16) -> Result<bool, NoMemory> {
    let mut held = true;
    for i in 0..count {
        let start = i.wrapping_mul(8).wrapping_add(1024);
        held = held && grant(ports, u64::from(i) * 16 + 1, start, 0)? == Granting::Held;
    }
    Ok(held)
}

/// Whether each of so many connections leaves through the next port.
fn leave_each(ports: &mut Ports, count: u16) -> Result<bool, NoMemory> {
    let mut next = true;
    for i in 0..count {
        let port = leave(ports, i.wrapping_add(1), REMOTE)?;
        next = next && port == Some(i.wrapping_add(1024));
    }
    Ok(next)
}

/// Whether the step is answered so.
fn play_one(ports: &mut Ports, step: Step) -> Result<bool, NoMemory> {
    match step {
        Step::Grant(n, start, now, wanted) => Ok(grant(ports, n, start, now)? == wanted),
        Step::Leave(sport, remote, wanted) => Ok(leave(ports, sport, remote)? == wanted),
        Step::Close(sport, now, wanted) => Ok(close(ports, sport, now) == wanted),
        Step::GiveBack(now, wanted) => Ok(give_back(ports, now)? == wanted),
        Step::Returned(n, wanted) => Ok(ports.returned(n) == wanted),
        Step::GrantEach(count) => grant_each(ports, count),
        Step::LeaveEach(count) => leave_each(ports, count),
    }
}

/// How many steps are answered otherwise.
fn play_all(ports: &mut Ports, steps: &[Step]) -> Result<u32, NoMemory> {
    let mut otherwise = 0u32;
    for step in steps {
        if !play_one(ports, *step)? {
            otherwise = otherwise.wrapping_add(1);
        }
    }
    Ok(otherwise)
}

fn play(alloc: Global, steps: &[Step]) -> Result<u32, NoMemory> {
    let mut ports = Ports::new(alloc);
    play_all(&mut ports, steps)
}

#[test]
fn a_port_serves_each_remote_end_once(rt: HostRuntime) -> Result<(), Fail> {
    let steps = [
        Step::Grant(1, 1024, 0, Granting::Held),
        Step::Leave(5000, REMOTE, Some(1024)),
        Step::Leave(5000, OTHER, Some(1024)),
        Step::Leave(5001, REMOTE, Some(1025)),
    ];
    assert_eq!(rt; play(rt.alloc(), &steps)?, 0);
    Ok(())
}

/// The range with the greater number came first. The fourth connection closes, and its port is taken again.
#[test]
fn ports_are_taken_by_the_numbers_of_their_ranges(rt: HostRuntime) -> Result<(), Fail> {
    let steps = [
        Step::Grant(17, 1024, 0, Granting::Held),
        Step::Grant(1, 1032, 0, Granting::Held),
        Step::Leave(5000, REMOTE, Some(1032)),
        Step::Leave(5001, REMOTE, Some(1033)),
        Step::Leave(5002, REMOTE, Some(1034)),
        Step::Leave(5003, REMOTE, Some(1035)),
        Step::Leave(5004, REMOTE, Some(1036)),
        Step::Leave(5005, REMOTE, Some(1037)),
        Step::Leave(5006, REMOTE, Some(1038)),
        Step::Leave(5007, REMOTE, Some(1039)),
        Step::Leave(5008, REMOTE, Some(1024)),
        Step::Leave(5009, REMOTE, Some(1025)),
        Step::Leave(5010, REMOTE, Some(1026)),
        Step::Leave(5011, REMOTE, Some(1027)),
        Step::Leave(5012, REMOTE, Some(1028)),
        Step::Leave(5013, REMOTE, Some(1029)),
        Step::Leave(5014, REMOTE, Some(1030)),
        Step::Leave(5015, REMOTE, Some(1031)),
        Step::Leave(5016, REMOTE, None),
        Step::Close(5003, 0, Some(1035)),
        Step::Leave(6000, REMOTE, Some(1035)),
        Step::Leave(6001, REMOTE, None),
    ];
    assert_eq!(rt; play(rt.alloc(), &steps)?, 0);
    Ok(())
}

/// A machine at its limit: 1,024 ranges, with the ports from 1024 to 9215.
#[test]
fn all_8192_ports_go_to_one_remote_end(rt: HostRuntime) -> Result<(), Fail> {
    let steps = [
        Step::GrantEach(1024),
        Step::LeaveEach(8192),
        Step::Leave(60_000, REMOTE, None),
        Step::Leave(60_000, OTHER, Some(1024)),
    ];
    assert_eq!(rt; play(rt.alloc(), &steps)?, 0);
    Ok(())
}

/// The range had a connection until 500, and is given back at 30,500. Its number, a lesser and a greater one are
/// granted: while it returns, and once that is answered.
#[test]
fn a_range_that_was_given_back_comes_again_by_a_greater_number(
    rt: HostRuntime,
) -> Result<(), Fail> {
    let steps = [
        Step::Grant(17, 1024, 0, Granting::Held),
        Step::Leave(5000, REMOTE, Some(1024)),
        Step::Close(5000, 500, Some(1024)),
        Step::GiveBack(30_499, 0),
        Step::GiveBack(30_500, 1),
        Step::Grant(17, 1024, 0, Granting::Old { kept: 17 }),
        Step::Returned(17, true),
        Step::Grant(17, 1024, 0, Granting::Old { kept: 17 }),
        Step::Grant(16, 1024, 0, Granting::Old { kept: 17 }),
        Step::Grant(18, 1024, 0, Granting::Held),
    ];
    assert_eq!(rt; play(rt.alloc(), &steps)?, 0);
    Ok(())
}
