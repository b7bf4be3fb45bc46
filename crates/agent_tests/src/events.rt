//! One event in an agent and in plain lists.
use crate::agents::{attach, replica};
use crate::plain::{PlainLists, Sent, Told, deny, grant, packet, returned, sent_of, tick};
use host_agent::Agent;
use std::alloc::{AllocError, Global};
use wire_core::{Input, Socket};

/// A UDP packet without data and without a checksum, from 10.1.0.4:5000 to 198.51.100.7:53, in its frame.
const DATAGRAM: [u8; 29] = [
    0x02, 0x45, 0x00, 0x00, 0x1c, 0x00, 0x00, 0x00, 0x00, 0x40, 0x11, 0x46, 0x92, 0x0a, 0x01, 0x00,
    0x04, 0xc6, 0x33, 0x64, 0x07, 0x13, 0x88, 0x00, 0x35, 0x00, 0x08, 0x00, 0x00,
];

/// A TCP segment from 10.1.0.4:5000 to 198.51.100.7:80, and one with RST.
const SEGMENT: [u8; 41] = [
    0x02, 0x45, 0x00, 0x00, 0x28, 0x00, 0x00, 0x00, 0x00, 0x40, 0x06, 0x46, 0x91, 0x0a, 0x01, 0x00,
    0x04, 0xc6, 0x33, 0x64, 0x07, 0x13, 0x88, 0x00, 0x50, 0x00, 0x00, 0x00, 0xbe, 0x00, 0x00, 0x00,
    0x00, 0x50, 0x10, 0x20, 0x00, 0x46, 0xff, 0x00, 0x00,
];

const RESET: [u8; 41] = [
    0x02, 0x45, 0x00, 0x00, 0x28, 0x00, 0x00, 0x00, 0x00, 0x40, 0x06, 0x46, 0x91, 0x0a, 0x01, 0x00,
    0x04, 0xc6, 0x33, 0x64, 0x07, 0x13, 0x88, 0x00, 0x50, 0x00, 0x00, 0x00, 0xca, 0x00, 0x00, 0x00,
    0x00, 0x50, 0x04, 0x20, 0x00, 0x46, 0xff, 0x00, 0x00,
];

/// A Grant of 192.0.2.10:1024, a Denied, and a Returned, with numbers 0.
const GRANT: [u8; 37] = [
    0x01, 0x01, 0x09, 0x00, 0x00, 0x00, 0x00, 0x00, 0x00, 0x00, 0x01, 0x0a, 0x01, 0x00, 0x04, 0x00,
    0x00, 0x00, 0x00, 0x00, 0x00, 0x00, 0x00, 0x00, 0x00, 0x00, 0x00, 0x00, 0x00, 0x00, 0x00, 0xc0,
    0x00, 0x02, 0x0a, 0x04, 0x00,
];

const DENIED: [u8; 32] = [
    0x01, 0x01, 0x0a, 0x00, 0x00, 0x00, 0x00, 0x00, 0x00, 0x00, 0x01, 0x0a, 0x01, 0x00, 0x04, 0x00,
    0x00, 0x00, 0x00, 0x00, 0x00, 0x00, 0x00, 0x01, 0x00, 0x00, 0x00, 0x00, 0x00, 0x00, 0x00, 0x00,
];

const RETURNED: [u8; 19] = [
    0x01, 0x01, 0x0c, 0x00, 0x00, 0x00, 0x00, 0x00, 0x00, 0x00, 0x01, 0x00, 0x00, 0x00, 0x00, 0x00,
    0x00, 0x00, 0x00,
];

/// The frame of a datagram: the checksum of its header falls as the remote address rises.
fn datagram(sent: Sent) -> [u8; 29] {
    let mut bytes = DATAGRAM;
    bytes[12] = bytes[12].wrapping_sub(sent.remote);
    bytes[20] = bytes[20].wrapping_add(sent.remote);
    bytes[22] = bytes[22].wrapping_add(sent.port);
    bytes
}

/// The frame of a segment: both checksums fall as addresses and ports rise.
fn segment(sent: Sent) -> [u8; 41] {
    let mut bytes = if sent.rst { RESET } else { SEGMENT };
    bytes[12] = bytes[12].wrapping_sub(sent.remote);
    bytes[20] = bytes[20].wrapping_add(sent.remote);
    bytes[22] = bytes[22].wrapping_add(sent.port);
    bytes[38] = bytes[38].wrapping_sub(sent.remote).wrapping_sub(sent.port);
    bytes
}

/// A number's last two bytes.
fn ends(n: u64) -> [u8; 2] {
    [(n / 256 % 256) as u8, (n % 256) as u8]
}

fn grant_bytes(seq: u64, n: u64, slot: usize) -> [u8; 37] {
    let mut bytes = GRANT;
    let [high, low] = ends(seq);
    bytes[21] = high;
    bytes[22] = low;
    let [high, low] = ends(n);
    bytes[29] = high;
    bytes[30] = low;
    bytes[36] = (slot % 2 * 8) as u8;
    bytes
}

fn denied_bytes(seq: u64) -> [u8; 32] {
    let mut bytes = DENIED;
    let [high, low] = ends(seq);
    bytes[21] = high;
    bytes[22] = low;
    bytes
}

fn returned_bytes(n: u64) -> [u8; 19] {
    let mut bytes = RETURNED;
    let [high, low] = ends(n);
    bytes[17] = high;
    bytes[18] = low;
    bytes
}

/// What the agent tells of an input.
fn take(alloc: Global, agent: &mut Agent, input: &Input<'_>) -> Result<Told, AllocError> {
    let step = agent.handle(alloc, input)?;
    Ok(Told {
        acts: step.acts.len(),
        notes: step.notes.len(),
        sends: step.sends.len(),
    })
}

fn hear(alloc: Global, agent: &mut Agent, from: Socket, bytes: &[u8]) -> Result<Told, AllocError> {
    take(alloc, agent, &Input::Datagram { from, bytes })
}

fn packet_told(alloc: Global, agent: &mut Agent, sent: Sent) -> Result<Told, AllocError> {
    if sent.tcp {
        hear(alloc, agent, attach(), &segment(sent))
    } else {
        hear(alloc, agent, attach(), &datagram(sent))
    }
}

/// One of the numbers that are given back, or another.
fn some_number(lists: &PlainLists, word: u32) -> u64 {
    match lists.returning.get((word / 64) as usize % 8) {
        Some(n) => *n,
        None => u64::from(word % 1000),
    }
}

/// The number of the last ask, or of the one before.
fn some_ask(lists: &PlainLists, word: u32) -> u64 {
    if word / 2048 % 4 == 0 {
        lists.seq.saturating_sub(1)
    } else {
        lists.seq
    }
}

fn packet_both(
    alloc: Global,
    agent: &mut Agent,
    lists: &mut PlainLists,
    told: &mut Told,
    sent: Sent,
) -> Result<Told, AllocError> {
    packet(lists, told, sent)?;
    packet_told(alloc, agent, sent)
}

fn grant_both(
    alloc: Global,
    agent: &mut Agent,
    lists: &mut PlainLists,
    told: &mut Told,
    word: u32,
) -> Result<Told, AllocError> {
    let seq = some_ask(lists, word);
    let n = lists.time / 16 + u64::from(word % 40);
    let slot = (word / 64) as usize % 2;
    grant(alloc, lists, told, seq, n, slot)?;
    hear(alloc, agent, replica(), &grant_bytes(seq, n, slot))
}

fn deny_both(
    alloc: Global,
    agent: &mut Agent,
    lists: &mut PlainLists,
    told: &mut Told,
    word: u32,
) -> Result<Told, AllocError> {
    let seq = some_ask(lists, word);
    deny(lists, told, seq);
    hear(alloc, agent, replica(), &denied_bytes(seq))
}

fn tick_both(
    alloc: Global,
    agent: &mut Agent,
    lists: &mut PlainLists,
    told: &mut Told,
    word: u32,
) -> Result<Told, AllocError> {
    let now = lists.time.saturating_add(u64::from(word % 16));
    tick(lists, told, now)?;
    take(alloc, agent, &Input::Tick { now })
}

fn returned_both(
    alloc: Global,
    agent: &mut Agent,
    lists: &mut PlainLists,
    told: &mut Told,
    word: u32,
) -> Result<Told, AllocError> {
    let n = some_number(lists, word);
    returned(lists, told, n);
    hear(alloc, agent, replica(), &returned_bytes(n))
}

/// What an event is: where it is quiet, a return that is answered or a tick, so that all becomes idle.
fn kind(word: u32, quiet: bool) -> u32 {
    let kind = word / 0x1000_0000;
    if quiet {
        return 12 + kind % 4;
    }
    kind
}

/// One event in both: what the agent tells. What the plain lists tell is added.
pub fn event(
    alloc: Global,
    agent: &mut Agent,
    lists: &mut PlainLists,
    told: &mut Told,
    word: u32,
    quiet: bool,
) -> Result<Told, AllocError> {
    match kind(word, quiet) {
        0..=8 => packet_both(alloc, agent, lists, told, sent_of(word, false)),
        9 => packet_both(alloc, agent, lists, told, sent_of(word, true)),
        10 => grant_both(alloc, agent, lists, told, word),
        11 => deny_both(alloc, agent, lists, told, word),
        12 => returned_both(alloc, agent, lists, told, word),
        _ => tick_both(alloc, agent, lists, told, word),
    }
}
