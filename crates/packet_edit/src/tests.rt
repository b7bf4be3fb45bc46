// Packets whose bytes and checksums were worked out apart from this code.
use crate::{
    IpFault, Packet, PacketFault, SegmentFault, clamp_mss, set_destination, set_source,
    translate_destination, translate_source,
};
use wire_core::{FlowKey, Ip4, Proto};

const MACHINE: Ip4 = Ip4(0x0a01_0004);

const VIP: Ip4 = Ip4(0xc000_020a);

const REMOTE: Ip4 = Ip4(0xc633_6407);

/// UDP from 10.1.0.4:5000 to 198.51.100.7:53 with the data `hi`, and the same from 192.0.2.10:1024.
const QUESTION: [u8; 30] = [
    0x45, 0x00, 0x00, 0x1e, 0x00, 0x01, 0x00, 0x00, 0x40, 0x11, 0x46, 0x8f, 0x0a, 0x01, 0x00, 0x04,
    0xc6, 0x33, 0x64, 0x07, 0x13, 0x88, 0x00, 0x35, 0x00, 0x0a, 0x4f, 0x74, 0x68, 0x69,
];

const QUESTION_OUT: [u8; 30] = [
    0x45, 0x00, 0x00, 0x1e, 0x00, 0x01, 0x00, 0x00, 0x40, 0x11, 0x8e, 0x89, 0xc0, 0x00, 0x02, 0x0a,
    0xc6, 0x33, 0x64, 0x07, 0x04, 0x00, 0x00, 0x35, 0x00, 0x0a, 0xa6, 0xf6, 0x68, 0x69,
];

/// The answer to that with the data `ok`, and the same handed to 10.1.0.4:5000 one hop further.
const ANSWER: [u8; 30] = [
    0x45, 0x00, 0x00, 0x1e, 0x00, 0x02, 0x00, 0x00, 0x38, 0x11, 0x96, 0x88, 0xc6, 0x33, 0x64, 0x07,
    0xc0, 0x00, 0x02, 0x0a, 0x00, 0x35, 0x04, 0x00, 0x00, 0x0a, 0x9f, 0xf4, 0x6f, 0x6b,
];

const ANSWER_IN: [u8; 30] = [
    0x45, 0x00, 0x00, 0x1e, 0x00, 0x02, 0x00, 0x00, 0x37, 0x11, 0x4f, 0x8e, 0xc6, 0x33, 0x64, 0x07,
    0x0a, 0x01, 0x00, 0x04, 0x00, 0x35, 0x13, 0x88, 0x00, 0x0a, 0x48, 0x72, 0x6f, 0x6b,
];

/// A TCP SYN from 10.1.0.4:5000 to 198.51.100.7:80 with the maximum segment size 1460, and the same from
/// 192.0.2.10:1024 with 1440.
const SYN: [u8; 48] = [
    0x45, 0x00, 0x00, 0x30, 0x00, 0x01, 0x00, 0x00, 0x40, 0x06, 0x46, 0x88, 0x0a, 0x01, 0x00, 0x04,
    0xc6, 0x33, 0x64, 0x07, 0x13, 0x88, 0x00, 0x50, 0x00, 0x00, 0x00, 0x01, 0x00, 0x00, 0x00, 0x00,
    0x70, 0x02, 0xff, 0xff, 0x3b, 0x07, 0x00, 0x00, 0x01, 0x01, 0x04, 0x02, 0x02, 0x04, 0x05, 0xb4,
];

const SYN_OUT: [u8; 48] = [
    0x45, 0x00, 0x00, 0x30, 0x00, 0x01, 0x00, 0x00, 0x40, 0x06, 0x8e, 0x82, 0xc0, 0x00, 0x02, 0x0a,
    0xc6, 0x33, 0x64, 0x07, 0x04, 0x00, 0x00, 0x50, 0x00, 0x00, 0x00, 0x01, 0x00, 0x00, 0x00, 0x00,
    0x70, 0x02, 0xff, 0xff, 0x92, 0x9d, 0x00, 0x00, 0x01, 0x01, 0x04, 0x02, 0x02, 0x04, 0x05, 0xa0,
];

fn fault_of(bytes: &[u8]) -> Option<PacketFault> {
    match Packet::read(bytes) {
        Ok(_packet) => None,
        Err(fault) => Some(fault),
    }
}

/// Whether the bytes are a packet whose source, once set to the VIP's port 1024, makes these others.
fn leaves_as(bytes: &mut [u8], out: &[u8]) -> bool {
    if Packet::read(bytes).is_err() {
        return false;
    }
    translate_source(bytes, VIP, 1024);
    &*bytes == out
}

#[test]
fn reads_a_packet(rt: HostRuntime) {
    let packet = match Packet::read(&SYN) {
        Ok(packet) => packet,
        Err(_fault) => return assert!(rt; false),
    };
    let key = FlowKey {
        src: MACHINE,
        dst: REMOTE,
        sport: 5000,
        dport: 80,
        proto: Proto::Tcp,
    };
    assert!(rt; packet.key() == key);
    assert!(rt; packet.syn() && !packet.ack() && !packet.rst());
    assert!(rt; packet.ttl() == 64 && packet.whole().len() == 48);
}

#[test]
fn names_the_first_fault(rt: HostRuntime) {
    let mut bytes = QUESTION;
    assert!(rt; fault_of(&bytes).is_none());
    assert!(rt; fault_of(&bytes[..19]) == Some(PacketFault::Ip(IpFault::Short)));
    bytes[27] = 0x75;
    assert!(rt; fault_of(&bytes) == Some(PacketFault::Segment(SegmentFault::Sum)));
    bytes[9] = 1;
    bytes[11] = 0x9f;
    assert!(rt; fault_of(&bytes) == Some(PacketFault::NotTransport));
}

#[test]
fn translates_what_leaves(rt: HostRuntime) {
    let mut question = QUESTION;
    assert!(rt; leaves_as(&mut question, &QUESTION_OUT));
    let mut syn = SYN;
    assert!(rt; leaves_as(&mut syn, &SYN_OUT));
}

/// Whether the bytes are a packet that makes these others, once it is handed to the machine's port 5000 one hop
/// further.
fn is_handed_as(bytes: &mut [u8], handed: &[u8]) -> bool {
    let (ttl, len) = match Packet::read(bytes) {
        Ok(packet) => (packet.ttl(), packet.len()),
        Err(_fault) => return false,
    };
    if ttl < 1 || bytes.len() < len {
        return false;
    }
    translate_destination(&mut bytes[..len], MACHINE, 5000, 1);
    &bytes[..len] == handed
}

#[test]
fn translates_what_is_handed_on(rt: HostRuntime) {
    let mut answer = ANSWER;
    assert!(rt; is_handed_as(&mut answer, &ANSWER_IN));
    let mut with_more = [0xff; 33];
    with_more[..30].copy_from_slice(&ANSWER);
    assert!(rt; is_handed_as(&mut with_more, &ANSWER_IN));
    assert!(rt; with_more[30] == 0xff && with_more[32] == 0xff);
}

/// The same translation by an edit of one field after the other.
fn leaves_by_steps_as(bytes: &mut [u8], out: &[u8]) -> bool {
    if Packet::read(bytes).is_err() {
        return false;
    }
    set_source(bytes, VIP, 1024);
    if Packet::read(bytes).is_err() {
        return false;
    }
    clamp_mss(bytes);
    &*bytes == out
}

#[test]
fn edits_one_field_after_the_other(rt: HostRuntime) {
    let mut question = QUESTION;
    assert!(rt; leaves_by_steps_as(&mut question, &QUESTION_OUT));
    let mut syn = SYN;
    assert!(rt; leaves_by_steps_as(&mut syn, &SYN_OUT));
}

#[test]
fn a_missing_checksum_stays_missing(rt: HostRuntime) {
    let mut question = QUESTION;
    question[26] = 0;
    question[27] = 0;
    let mut out = QUESTION_OUT;
    out[26] = 0;
    out[27] = 0;
    assert!(rt; leaves_as(&mut question, &out));
}

#[test]
fn sets_a_destination(rt: HostRuntime) {
    let mut question = QUESTION_OUT;
    if Packet::read(&question).is_err() {
        return assert!(rt; false);
    }
    set_destination(&mut question, REMOTE, 53);
    assert!(rt; question == QUESTION_OUT);
}
