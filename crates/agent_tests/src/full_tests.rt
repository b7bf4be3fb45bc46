//! A full queue of a machine's packets.
use crate::agents::{BOOT_1, attach, open, replica};
use crate::lines::write_bytes;
use crate::player::{Play, play_all};
use crate::run_tests::{GRANT, RUN};
use host_agent::Agent;
use std::alloc::Global;
use std::test::Fail;

/// The first packet waits.
const FIRST_LINES: &str = "\
    queued 10.1.0.4 1\n\
    replica 0 01010800000000000000010a0100040000000000000001\n";

/// The last finds no room, and the others leave by one connection.
const FULL_LINES: &str = "\
    drop QueueFull\n\
    act hold 1\n\
    act open udp 192.0.2.10 1024 198.51.100.7 53 10.1.0.4 5000\n";

/// The packet, and the packet as it leaves, for which others differ in the identification and the header's checksum.
const FRAME: [u8; 31] = [
    0x02, 0x45, 0x00, 0x00, 0x1e, 0x00, 0x01, 0x00, 0x00, 0x40, 0x11, 0x46, 0x8f, 0x0a, 0x01, 0x00,
    0x04, 0xc6, 0x33, 0x64, 0x07, 0x13, 0x88, 0x00, 0x35, 0x00, 0x0a, 0x4f, 0x74, 0x68, 0x69,
];

const LEFT_FRAME: [u8; 31] = [
    0x02, 0x45, 0x00, 0x00, 0x1e, 0x00, 0x01, 0x00, 0x00, 0x40, 0x11, 0x8e, 0x89, 0xc0, 0x00, 0x02,
    0x0a, 0xc6, 0x33, 0x64, 0x07, 0x04, 0x00, 0x00, 0x35, 0x00, 0x0a, 0xa6, 0xf6, 0x68, 0x69,
];

/// The checksum's last byte where the identification is 0.
const FRAME_SUM: u8 = 0x90;

const LEFT_SUM: u8 = 0x8a;

/// A frame with another identification.
fn numbered(frame: [u8; 31], sum: u8, k: u8) -> [u8; 31] {
    let mut bytes = frame;
    bytes[6] = k;
    bytes[12] = sum.wrapping_sub(k);
    bytes
}

/// 65 packets of the machine with the identifications 1 to 65, and the Grant.
fn fill(alloc: Global, agent: &mut Agent, out: &mut String) -> Result<(), Fail> {
    for k in 1..66u8 {
        let bytes = numbered(FRAME, FRAME_SUM, k);
        play_all(alloc, agent, out, &[Play::HearBytes(attach(), &bytes)])?;
    }
    play_all(alloc, agent, out, &[Play::Hear(replica(), GRANT)])
}

/// What is written of 65 packets of which 64 are held: the counts with the ask, the full queue, and the packets in
/// order.
fn write_filled(alloc: Global, out: &mut String) -> Result<(), Fail> {
    out.push_str(FIRST_LINES)?;
    for k in 2..65u8 {
        writeln!(out, "queued 10.1.0.4 {k}")?;
    }
    out.push_str(FULL_LINES)?;
    for k in 1..65u8 {
        let bytes = numbered(LEFT_FRAME, LEFT_SUM, k);
        write_bytes(alloc, out, "10.7.0.1:7000", &bytes)?;
    }
    Ok(())
}

fn filled(alloc: Global) -> Result<String, Fail> {
    let mut out = String::new(alloc);
    write_filled(alloc, &mut out)?;
    Ok(out)
}

fn fill_by(alloc: Global, agent: &mut Agent) -> Result<String, Fail> {
    let mut out = String::new(alloc);
    fill(alloc, agent, &mut out)?;
    Ok(out)
}

fn told(alloc: Global) -> Result<String, Fail> {
    let mut agent = open(alloc, RUN, &[BOOT_1])?;
    fill_by(alloc, &mut agent)
}

#[test]
fn sixty_four_packets_wait_and_leave_in_order(rt: HostRuntime) -> Result<(), Fail> {
    let wanted = filled(rt.alloc())?;
    let told = told(rt.alloc())?;
    assert!(rt; told.as_str() == wanted.as_str());
    Ok(())
}
