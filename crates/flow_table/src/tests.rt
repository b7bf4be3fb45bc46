ghost use Rattle.std.specs.Prelude.{◌≤◌, OnOk};

use crate::FlowTable;
use mux_spec::{Noted, Seen};
use std::alloc::{AllocError, Global};
use std::test::Fail;
use wire_core::{FlowKey, Ip4, Proto};

const MOST_UNTRUSTED: usize = 16_384;

const MOST_TRUSTED: usize = 65_536;

const IDLE: u64 = 60_000;

/// A flow of the plain lists.
#[derive(Clone, Copy, Debug, PartialEq, Eq)]
struct Plain {
    id: u32,
    seen: Seen,
}

/// Plain lists of flows, oldest first.
#[derive(Drop)]
struct PlainLists {
    untrusted: Vec<Plain>,
    trusted: Vec<Plain>,
}

fn find(flows: &[Plain], id: u32) -> Option<Plain> {
    flows.iter().copied().find(|flow| flow.id == id)
}

fn remove(flows: &mut Vec<Plain>, id: u32) {
    flows.retain(|flow| flow.id != id);
}

fn remove_oldest(flows: &mut Vec<Plain>) {
    if let Some(oldest) = flows.first().copied() {
        remove(flows, oldest.id);
    }
}

fn remove_idle(flows: &mut Vec<Plain>, now: u64) {
    flows.retain(|flow| now.saturating_sub(flow.seen.last) < IDLE);
}

/// What is kept of a flow after one packet more.
fn again(seen: Seen, syn: bool, now: u64) -> Seen {
    let count = if syn || seen.count == 0 {
        1
    } else if seen.count == 4 {
        4
    } else {
        seen.count.saturating_add(1)
    };
    Seen {
        machine: seen.machine,
        count,
        last: now,
    }
}

/// A packet, as the plain lists note it.
fn note_plain(
    lists: &mut PlainLists,
    id: u32,
    syn: bool,
    chosen: Ip4,
    now: u64,
) -> Result<Noted, AllocError> {
    let seen;
    if let Some(flow) = find(lists.trusted.as_slice(), id) {
        seen = again(flow.seen, syn, now);
        remove(&mut lists.trusted, id);
        lists.trusted.push(Plain { id, seen })?;
    } else if let Some(flow) = find(lists.untrusted.as_slice(), id) {
        seen = again(flow.seen, syn, now);
        remove(&mut lists.untrusted, id);
        if lists.trusted.len() < MOST_TRUSTED {
            lists.trusted.push(Plain { id, seen })?;
        } else {
            lists.untrusted.push(Plain { id, seen })?;
        }
    } else {
        seen = Seen {
            machine: chosen,
            count: 1,
            last: now,
        };
        if lists.untrusted.len() >= MOST_UNTRUSTED {
            remove_oldest(&mut lists.untrusted);
        }
        lists.untrusted.push(Plain { id, seen })?;
    }
    Ok(Noted {
        machine: seen.machine,
        count: seen.count,
    })
}

/// What the plain lists keep of the flow.
fn look_plain(lists: &PlainLists, id: u32) -> Option<Seen> {
    if let Some(flow) = find(lists.trusted.as_slice(), id) {
        return Some(flow.seen);
    }
    match find(lists.untrusted.as_slice(), id) {
        Some(flow) => Some(flow.seen),
        None => None,
    }
}

/// The key of the flow with this number.
fn key(id: u32) -> FlowKey {
    FlowKey {
        src: Ip4(0xc633_6400u32.wrapping_add(id / 1000)),
        dst: Ip4(0xc000_020a),
        sport: (1024 + id % 1000) as u16,
        dport: 80,
        proto: Proto::Tcp,
    }
}

/// The next word of a linear congruential generator (Numerical Recipes).
fn next_word(word: u32) -> u32 {
    word.wrapping_mul(1_664_525).wrapping_add(1_013_904_223)
}

/// One packet in both, and a look-up in both: how many of the two answers differ.
fn differ(table: &mut FlowTable, lists: &mut PlainLists, word: u32, now: u64) -> Result<u64, Fail>
    requires { table.old.latest ≤ now }
    ensures { OnOk result (table.new.latest ≤ now) }
{
    let id = word / 256 % 30_000;
    let syn = word / 64 % 16 == 0;
    let chosen = Ip4(word);
    let mut differing = 0;
    if word / 1024 % 1000 == 0 {
        table.expire(now, IDLE);
        remove_idle(&mut lists.untrusted, now);
        remove_idle(&mut lists.trusted, now);
    }
    let noted = table.note(&key(id), syn, chosen, now)?;
    if noted != note_plain(lists, id, syn, chosen, now)? {
        differing += 1;
    }
    let other = next_word(word) / 256 % 30_000;
    if table.lookup(&key(other)) != look_plain(lists, other) {
        differing += 1;
    }
    Ok(differing)
}

/// 100,000 packets of 30,000 flows from this seed: how many answers differ.
fn count_differing(alloc: Global, seed: u32) -> Result<u64, Fail> {
    let mut table = FlowTable::new(alloc)?;
    let mut lists = PlainLists {
        untrusted: Vec::new(alloc),
        trusted: Vec::new(alloc),
    };
    let mut word = seed;
    let mut differing = 0u64;
    for now in 0..100_000u64 {
        word = next_word(word);
        differing = differing.saturating_add(differ(&mut table, &mut lists, word, now)?);
    }
    Ok(differing)
}

fn count_of(table: &FlowTable, id: u32) -> Option<u8> {
    match table.lookup(&key(id)) {
        Some(seen) => Some(seen.count),
        None => None,
    }
}

/// Two packets of each of 81,921 flows: 65,536 become trusted, and 16,385 find no room. The counts of the first, of
/// the first two without room, and of the last.
fn full(alloc: Global) -> Result<[Option<u8>; 4], Fail> {
    let mut table = FlowTable::new(alloc)?;
    for id in 0..81_921u32 {
        table.note(&key(id), false, Ip4(1), 0)?;
        table.note(&key(id), false, Ip4(2), 0)?;
    }
    Ok([
        count_of(&table, 0),
        count_of(&table, 65_536),
        count_of(&table, 65_537),
        count_of(&table, 81_920),
    ])
}

#[test]
fn as_plain_lists(rt: HostRuntime) -> Result<(), Fail> {
    assert_eq!(rt; count_differing(rt.alloc(), 7)?, 0);
    Ok(())
}

#[test]
fn a_trusted_flow_is_never_dropped_for_another(rt: HostRuntime) -> Result<(), Fail> {
    assert_eq!(rt; full(rt.alloc())?, [Some(2), None, Some(2), Some(2)]);
    Ok(())
}
