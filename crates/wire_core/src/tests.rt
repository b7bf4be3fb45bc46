use crate::fnv::{FNV_OFFSET, fnv_1a_from};
use crate::{
    Command, Entry, FlowKey, Ip4, Items, LeaseRules, MachineRule, MuxBoot, Proto, Range, Value,
    ValueBuilder, ValueFault, VipRule, read_u16, read_u32, read_u64,
};
use std::alloc::{AllocError, Global};
use std::test::Fail;

const VIP: Ip4 = Ip4(0xc000_020a);

/// A VIP with these bounds, and an endpoint on each of these ports.
fn rules(alloc: Global, low: u16, high: u16, taken: &[u16]) -> Result<LeaseRules, AllocError> {
    let mut vips = Items::new(alloc);
    vips.push(VipRule {
        vip: VIP,
        low,
        high,
        taken: Items::from_vec(taken.to_vec(alloc)?),
    })?;
    let machines: Items<MachineRule> = Items::new(alloc);
    Ok(LeaseRules {
        vips,
        machines,
        limit: 16,
    })
}

#[test]
fn ranges_of_ports(rt: HostRuntime) -> Result<(), Fail> {
    assert_eq!(rt;
        Range::of(VIP, 65535),
        Some(Range {
            vip: VIP,
            start: 65528
        })
    );
    assert_eq!(rt;
        Range::of(VIP, 1024),
        Some(Range {
            vip: VIP,
            start: 1024
        })
    );
    assert_eq!(rt; Range::of(VIP, 1023), None);
    Ok(())
}

#[test]
fn leasable_ranges(rt: HostRuntime) -> Result<(), Fail> {
    assert_eq!(rt; rules(rt.alloc(), 65528, 65535, &[])?.count(VIP), 1);
    assert_eq!(rt; rules(rt.alloc(), 1024, 65535, &[])?.count(VIP), 8064);
    let with_endpoint = rules(rt.alloc(), 1024, 65535, &[1026])?;
    assert_eq!(rt; with_endpoint.count(VIP), 8063);
    assert!(rt;
        !with_endpoint.leasable(&Range {
            vip: VIP,
            start: 1024
        })
    );
    assert!(rt;
        with_endpoint.leasable(&Range {
            vip: VIP,
            start: 1032
        })
    );
    assert_eq!(rt; with_endpoint.count(Ip4(1)), 0);
    Ok(())
}

#[test]
fn numbers_in_bytes(rt: HostRuntime) -> Result<(), Fail> {
    let bytes = [1, 2, 3, 4, 5, 6, 7, 8, 9];
    assert_eq!(rt; read_u16(&bytes, 7), Some(0x0809));
    assert_eq!(rt; read_u16(&bytes, 8), None);
    assert_eq!(rt; read_u32(&bytes, 5), Some(0x0607_0809));
    assert_eq!(rt; read_u64(&bytes, 1), Some(0x0203_0405_0607_0809));
    assert_eq!(rt; read_u64(&bytes, 2), None);
    Ok(())
}

/// The value of the worked run in which a lease is granted.
const GRANTED: &[u8] = b"\x01\x02\0\0\0\0\0\0\0\x01\x01\0\0\0\0\0\0\0\0\0\x01";

#[test]
fn values_are_read_and_written(rt: HostRuntime) -> Result<(), Fail> {
    let Ok((value, len)) = Value::read(GRANTED) else {
        return Err(Fail::from("refused"));
    };
    assert_eq!(rt; len, 21);
    assert_eq!(rt; value.len(), 1);
    assert_eq!(rt; value.as_bytes(), GRANTED);
    let mut out = Vec::new(rt.alloc());
    let command = Command::Reserve {
        agent: 0,
        boot: 1,
        machine: Ip4(0x0a01_0004),
        seq: 1,
    };
    command.write(&mut out)?;
    assert_eq!(rt;
        out.as_slice(),
        b"\x01\0\0\0\0\0\0\0\0\0\x01\x0a\x01\0\x04\0\0\0\0\0\0\0\x01".as_slice()
    );
    Ok(())
}

fn fault_of(bytes: &[u8]) -> Option<ValueFault> {
    match Value::read(bytes) {
        Ok(_) => None,
        Err(fault) => Some(fault),
    }
}

#[test]
fn faults_of_values(rt: HostRuntime) -> Result<(), Fail> {
    assert_eq!(rt; fault_of(b""), Some(ValueFault::Short));
    assert_eq!(rt; fault_of(b"\0"), Some(ValueFault::Field(0)));
    assert_eq!(rt; fault_of(b"\x11"), Some(ValueFault::Field(0)));
    assert_eq!(rt; fault_of(b"\x01\x06"), Some(ValueFault::Field(1)));
    assert_eq!(rt; fault_of(b"\x01\x03\0\0\0"), Some(ValueFault::Short));
    assert_eq!(rt;
        fault_of(b"\x01\x02\0\0\0\0\0\0\0\x01\x02\0\x03\0\0\0\0\0\0\0\x01\0\x03"),
        Some(ValueFault::Field(21))
    );
    assert_eq!(rt; fault_of(b"\x01\x03\0\0\0\0\0\0\0\x01\xff"), None);
    Ok(())
}

#[test]
fn entries_are_read_and_written(rt: HostRuntime) -> Result<(), Fail> {
    let boot = b"\x01\x01\x02\0\0\0\0\0\0\0\0\0\x01";
    let Ok(entry) = Entry::read(boot) else {
        return Err(Fail::from("refused"));
    };
    assert!(rt;
        matches!(
            &entry,
            Entry::Boot {
                version: 1,
                role: 2,
                index: 0,
                boot: 1
            }
        )
    );
    let mut out = Vec::new(rt.alloc());
    entry.write(&mut out)?;
    assert_eq!(rt; out.as_slice(), boot.as_slice());
    assert!(rt;
        matches!(
            Entry::read(b"\x05\0\0\0\0\0\0\0\x07\0"),
            Err(ValueFault::Field(9))
        )
    );
    assert!(rt; matches!(Entry::read(b"\x06"), Err(ValueFault::Field(0))));
    assert!(rt; matches!(Entry::read(b"\x02"), Err(ValueFault::Short)));
    Ok(())
}

fn flow(source: u32, sport: u16, destination: u32, dport: u16, proto: Proto) -> FlowKey {
    FlowKey {
        src: Ip4(source),
        dst: Ip4(destination),
        sport,
        dport,
        proto,
    }
}

// The numbers are those of an independent program for FNV-1a.
#[test]
fn hashes_of_flows(rt: HostRuntime) -> Result<(), Fail> {
    let client = 0xc633_6407;
    assert_eq!(rt;
        flow(client, 5000, VIP.0, 80, Proto::Tcp).hash(),
        0x8ed0_6032
    );
    assert_eq!(rt;
        flow(client, 5001, VIP.0, 80, Proto::Tcp).hash(),
        0xd9bf_6477
    );
    assert_eq!(rt;
        flow(client, 5000, VIP.0, 80, Proto::Udp).hash(),
        0x99d0_7183
    );
    assert_eq!(rt;
        flow(0x0a01_0004, 65535, u32::MAX, 1, Proto::Udp).hash(),
        0x67d4_6324
    );
    Ok(())
}

// Known vectors of FNV-1a for 32 bits.
#[test]
fn hashes_of_bytes(rt: HostRuntime) -> Result<(), Fail> {
    assert_eq!(rt; fnv_1a_from(FNV_OFFSET, b""), 0x811c_9dc5);
    assert_eq!(rt; fnv_1a_from(FNV_OFFSET, b"a"), 0xe40c_292c);
    assert_eq!(rt; fnv_1a_from(FNV_OFFSET, b"foobar"), 0xbf9c_f968);
    Ok(())
}

// A Granted of two muxes behind a Release, and the bytes that the table of commands gives them.
#[test]
fn values_are_built(rt: HostRuntime) -> Result<(), Fail> {
    let mut builder = ValueBuilder::new(rt.alloc())?;
    builder.push(&Command::Release { n: 0x0102 })?;
    let muxes = [
        MuxBoot { mux: 0, boot: 1 },
        MuxBoot {
            mux: 3,
            boot: 0x0a0b,
        },
    ];
    builder.push_granted(7, &muxes)?;
    assert_eq!(rt; builder.len(), 2);
    let value = builder.finish();
    let spelled =
        b"\x02\x03\0\0\0\0\0\0\x01\x02\x02\0\0\0\0\0\0\0\x07\x02\0\0\0\0\0\0\0\0\0\x01\0\x03\0\0\0\0\0\0\x0a\x0b";
    assert_eq!(rt; value.as_value().as_bytes(), spelled.as_slice());
    Ok(())
}

// Where the vector has room, nothing is allocated.
#[test]
fn room_is_enough(rt: HostRuntime) -> Result<(), Fail> {
    let mut out = Vec::with_capacity(rt.alloc(), 9)?;
    let room = out.capacity();
    Command::Freed { n: 1 }.write(&mut out)?;
    assert_eq!(rt; out.as_slice(), b"\x04\0\0\0\0\0\0\0\x01".as_slice());
    assert_eq!(rt; out.capacity(), room);
    Ok(())
}
