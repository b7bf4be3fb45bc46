use crate::{Flows, Opened, private_key, public_key};
use agent_spec::Connection;
use std::alloc::{AllocError, Global};
use std::test::Fail;
use wire_core::{Ip4, Proto};

/// From this port of 10.1.0.4, through this port of 192.0.2.10, to 198.51.100.7:53; used last at this time.
fn connection(sport: u16, port: u16, last: u64) -> Connection {
    Connection {
        vip: Ip4(0xc000_020a),
        proto: Proto::Udp,
        port,
        remote: Ip4(0xc633_6407),
        rport: 53,
        machine: Ip4(0x0a01_0004),
        sport,
        n: 1,
        last,
        peer: None,
    }
}

/// Opens a connection, unless one of its keys is there.
fn open(flows: &mut Flows, c: Connection) -> Result<Option<Opened>, AllocError> {
    match flows.find_private(&private_key(&c)) {
        Some(_) => Ok(None),
        None => match flows.find_public(&public_key(&c)) {
            Some(_) => Ok(None),
            None => {
                let opened = flows.open(c)?;
                Ok(Some(opened))
            }
        },
    }
}

/// The port of the i-th connection.
fn port(flows: &Flows, i: usize) -> Option<u16> {
    match flows.connection(i) {
        Some(c) => Some(c.port),
        None => None,
    }
}

/// The port of the connection that expires.
fn expired(flows: &mut Flows, now: u64, idle: u64) -> Option<u16> {
    match flows.expire(now, idle) {
        Some(c) => Some(c.port),
        None => None,
    }
}

/// Three connections, last used at 30, 10 and 20.
fn three(alloc: Global) -> Result<Flows, AllocError> {
    let mut flows = Flows::new(alloc);
    open(&mut flows, connection(5000, 1024, 30))?;
    open(&mut flows, connection(5001, 1025, 10))?;
    open(&mut flows, connection(5002, 1026, 20))?;
    Ok(flows)
}

/// The second of three closes, and its port is used again.
fn reopened(alloc: Global) -> Result<[Option<u16>; 4], AllocError> {
    let mut flows = three(alloc)?;
    flows.close(&private_key(&connection(5001, 0, 0)));
    open(&mut flows, connection(5003, 1025, 40))?;
    Ok([
        port(&flows, 0),
        port(&flows, 1),
        port(&flows, 2),
        port(&flows, 3),
    ])
}

/// Which of three expire at 100 that are idle for 75, and which is left.
fn expiry(alloc: Global) -> Result<[Option<u16>; 4], AllocError> {
    let mut flows = three(alloc)?;
    Ok([
        expired(&mut flows, 100, 75),
        expired(&mut flows, 100, 75),
        expired(&mut flows, 100, 75),
        port(&flows, 0),
    ])
}

/// A connection that stays while a thousand others come and go, and what is left.
fn many(alloc: Global) -> Result<(usize, [Option<u16>; 3]), AllocError> {
    let mut flows = Flows::new(alloc);
    open(&mut flows, connection(5000, 1024, 0))?;
    for i in 0..1000u16 {
        open(&mut flows, connection(6000 + i, 2000 + i, 0))?;
        flows.close(&private_key(&connection(6000 + i, 0, 0)));
    }
    open(&mut flows, connection(5001, 1025, 0))?;
    Ok((
        flows.len(),
        [port(&flows, 0), port(&flows, 1), port(&flows, 2)],
    ))
}

#[test]
fn the_order_of_opening_stays(rt: HostRuntime) -> Result<(), Fail> {
    let ports = reopened(rt.alloc())?;
    assert_eq!(rt; ports, [Some(1024), Some(1026), Some(1025), None]);
    Ok(())
}

#[test]
fn the_first_opened_expires_first(rt: HostRuntime) -> Result<(), Fail> {
    let ports = expiry(rt.alloc())?;
    assert_eq!(rt; ports, [Some(1025), Some(1026), None, Some(1024)]);
    Ok(())
}

#[test]
fn places_are_taken_up_again(rt: HostRuntime) -> Result<(), Fail> {
    let left = many(rt.alloc())?;
    assert_eq!(rt; left, (2, [Some(1024), Some(1025), None]));
    Ok(())
}
