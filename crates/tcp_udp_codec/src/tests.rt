// A UDP datagram and a TCP SYN whose checksums were worked out apart, and the faults that changing them makes.
use crate::{Segment, SegmentFault};
use wire_core::{Ip4, Proto};

const MACHINE: Ip4 = Ip4(0x0a01_0004);

const REMOTE: Ip4 = Ip4(0xc633_6407);

/// From port 5000 to port 53, with the data `hi`.
const DATAGRAM: [u8; 10] = [0x13, 0x88, 0x00, 0x35, 0x00, 0x0a, 0x4f, 0x74, 0x68, 0x69];

/// From port 5000 to port 80: two bytes of padding, an option without a length of 4, and the maximum segment size 1460.
const SYN: [u8; 28] = [
    0x13, 0x88, 0x00, 0x50, 0x00, 0x00, 0x00, 0x01, 0x00, 0x00, 0x00, 0x00, 0x70, 0x02, 0xff, 0xff,
    0x3b, 0x07, 0x00, 0x00, 0x01, 0x01, 0x04, 0x02, 0x02, 0x04, 0x05, 0xb4,
];

fn fault_of(proto: Proto, bytes: &[u8]) -> Option<SegmentFault> {
    if bytes.len() > 65535 {
        return None;
    }
    match Segment::read(proto, MACHINE, REMOTE, bytes) {
        Ok(_segment) => None,
        Err(fault) => Some(fault),
    }
}

#[test]
fn reads_a_datagram(rt: HostRuntime) {
    let segment = match Segment::read(Proto::Udp, MACHINE, REMOTE, &DATAGRAM) {
        Ok(segment) => segment,
        Err(_fault) => return assert!(rt; false),
    };
    assert!(rt; segment.sport() == 5000 && segment.dport() == 53);
    assert!(rt; !segment.syn() && !segment.ack() && !segment.rst() && segment.mss_at().is_none());
}

#[test]
fn reads_a_syn(rt: HostRuntime) {
    let segment = match Segment::read(Proto::Tcp, MACHINE, REMOTE, &SYN) {
        Ok(segment) => segment,
        Err(_fault) => return assert!(rt; false),
    };
    assert!(rt; segment.sport() == 5000 && segment.dport() == 80);
    assert!(rt; segment.syn() && !segment.ack() && !segment.rst());
    assert!(rt; segment.mss_at() == Some(26));
}

#[test]
fn names_the_first_fault_of_a_datagram(rt: HostRuntime) {
    let mut bytes = DATAGRAM;
    assert!(rt; fault_of(Proto::Udp, &bytes[..7]) == Some(SegmentFault::Short));
    assert!(rt; fault_of(Proto::Udp, &bytes[..9]) == Some(SegmentFault::Length));
    bytes[7] = 0x75;
    assert!(rt; fault_of(Proto::Udp, &bytes) == Some(SegmentFault::Sum));
    bytes[6] = 0;
    bytes[7] = 0;
    assert!(rt; fault_of(Proto::Udp, &bytes).is_none());
    bytes[5] = 7;
    assert!(rt; fault_of(Proto::Udp, &bytes) == Some(SegmentFault::Length));
}

#[test]
fn names_the_first_fault_of_a_tcp_segment(rt: HostRuntime) {
    let mut bytes = SYN;
    assert!(rt; fault_of(Proto::Tcp, &bytes[..19]) == Some(SegmentFault::Short));
    assert!(rt; fault_of(Proto::Tcp, &bytes[..27]) == Some(SegmentFault::DataOffset));
    bytes[17] = 0x08;
    assert!(rt; fault_of(Proto::Tcp, &bytes) == Some(SegmentFault::Sum));
    bytes[12] = 0x40;
    assert!(rt; fault_of(Proto::Tcp, &bytes) == Some(SegmentFault::DataOffset));
}
