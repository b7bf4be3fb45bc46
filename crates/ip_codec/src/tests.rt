// A header in use, and the faults that changing it makes.
use crate::{Ip4Header, Ip4View, IpFault, write_header};
use wire_core::Ip4;

/// A UDP packet of 115 bytes from 192.168.0.1 to 192.168.0.199, its payload all zeros.
fn packet() -> [u8; 115] {
    let header = [
        0x45, 0x00, 0x00, 0x73, 0x00, 0x00, 0x40, 0x00, 0x40, 0x11, 0xb8, 0x61, 0xc0, 0xa8, 0x00,
        0x01, 0xc0, 0xa8, 0x00, 0xc7,
    ];
    let mut packet = [0; 115];
    packet[..20].copy_from_slice(&header);
    packet
}

fn fault_of(bytes: &[u8]) -> Option<IpFault> {
    match Ip4View::read(bytes) {
        Ok(_view) => None,
        Err(fault) => Some(fault),
    }
}

#[test]
fn reads_a_packet(rt: HostRuntime) {
    let bytes = packet();
    let view = match Ip4View::read(&bytes) {
        Ok(view) => view,
        Err(_fault) => return assert!(rt; false),
    };
    assert!(rt; view.ttl() == 64 && view.tos() == 0 && view.df() && view.proto_number() == 17);
    assert!(rt; view.src() == Ip4(0xc0a8_0001) && view.dst() == Ip4(0xc0a8_00c7));
    assert!(rt;
        view.header().len() == 20 && view.payload().len() == 95 && view.whole().len() == 115
    );
}

#[test]
fn names_the_first_fault(rt: HostRuntime) {
    let mut bytes = packet();
    assert!(rt; fault_of(&bytes[..19]) == Some(IpFault::Short));
    bytes[3] = 0x74;
    assert!(rt; fault_of(&bytes) == Some(IpFault::TotalLength));
    bytes[3] = 0x73;
    assert!(rt; fault_of(&bytes).is_none());
    bytes[11] = 0x62;
    assert!(rt; fault_of(&bytes) == Some(IpFault::HeaderSum));
    bytes[0] = 0x65;
    assert!(rt; fault_of(&bytes) == Some(IpFault::Version));
    bytes[0] = 0x44;
    assert!(rt; fault_of(&bytes) == Some(IpFault::HeaderLength));
}

#[test]
fn writes_a_header(rt: HostRuntime) {
    let header = Ip4Header {
        tos: 0,
        total: 0x73,
        id: 0,
        df: true,
        ttl: 64,
        proto: 17,
        src: Ip4(0xc0a8_0001),
        dst: Ip4(0xc0a8_00c7),
    };
    let mut out = [0; 20];
    write_header(&header, &mut out);
    assert!(rt; out.as_slice() == &packet()[..20]);
}
