//! An agent of one machine as plain lists, which are walked each time.
use agent_flows::private_key;
use agent_spec::{Asked, Connection, Held};
use std::alloc::{AllocError, Global};
use wire_core::{FlowKey, Ip4, Proto, Range};

const VIP: Ip4 = Ip4(0xc000_020a);

const MACHINE: Ip4 = Ip4(0x0a01_0004);

/// In milliseconds, as configured.
const ASK_RETRY: u64 = 50;

const FLOW_IDLE: u64 = 400;

const RANGE_IDLE: u64 = 200;

/// A packet of the machine: which of ten ports sends it to which of three remote ends, by TCP or UDP, and whether it
/// closes.
#[derive(Clone, Copy, Debug, PartialEq, Eq)]
pub struct Sent {
    pub port: u8,
    pub remote: u8,
    pub tcp: bool,
    pub rst: bool,
}

pub fn sent_of(word: u32, rst: bool) -> Sent {
    Sent {
        port: (word / 4096 % 10) as u8,
        remote: (word / 65536 % 3) as u8,
        tcp: rst || word / 1024 % 2 == 0,
        rst,
    }
}

fn key_of(sent: Sent) -> FlowKey {
    FlowKey {
        src: MACHINE,
        dst: Ip4(0xc633_6407 + u32::from(sent.remote)),
        sport: 5000 + u16::from(sent.port),
        dport: if sent.tcp { 80 } else { 53 },
        proto: if sent.tcp { Proto::Tcp } else { Proto::Udp },
    }
}

/// How many acts, notes and datagrams an input brings.
#[derive(Clone, Copy, Debug, PartialEq, Eq)]
pub struct Told {
    pub acts: usize,
    pub notes: usize,
    pub sends: usize,
}

pub fn nothing() -> Told {
    Told {
        acts: 0,
        notes: 0,
        sends: 0,
    }
}

fn add(to: &mut usize, n: usize) {
    *to = to.saturating_add(n);
}

/// What the plain lists keep: held ranges in no order, the greatest number held of each range, the numbers that are
/// given back, connections as they opened, packets that wait, and the ask.
#[derive(Drop)]
pub struct PlainLists {
    pub held: Vec<Held>,
    kept: [u64; 2],
    pub returning: Vec<u64>,
    pub conns: Vec<Connection>,
    queue: Vec<Sent>,
    pub seq: u64,
    ask: Option<Asked>,
    pub time: u64,
}

fn find(conns: &[Connection], key: &FlowKey) -> Option<Connection> {
    conns.iter().copied().find(|c| private_key(c) == *key)
}

/// Whether a connection goes through this port to the key's remote end.
fn is_used(conns: &[Connection], key: &FlowKey, port: u16) -> bool {
    conns.iter().any(|c| {
        c.port == port && c.remote == key.dst && c.rport == key.dport && c.proto == key.proto
    })
}

fn free_port(conns: &[Connection], key: &FlowKey, start: u16) -> Option<u16> {
    for i in 0..8u16 {
        let port = start.saturating_add(i);
        if !is_used(conns, key, port) {
            return Some(port);
        }
    }
    None
}

/// The range with the least number above this one.
fn next_held(held: &[Held], above: u64) -> Option<Held> {
    let mut next: Option<Held> = None;
    for h in held {
        if h.n > above {
            next = match next {
                Some(best) if best.n < h.n => Some(best),
                _ => Some(*h),
            };
        }
    }
    next
}

/// The i-th range by number.
pub fn nth_held(held: &[Held], i: u32) -> Option<Held> {
    let mut above = 0;
    for _ in 0..i {
        above = next_held(held, above)?.n;
    }
    next_held(held, above)
}

fn choose(lists: &PlainLists, key: &FlowKey) -> Option<(u64, u16)> {
    let mut above = 0;
    for _ in 0..lists.held.len() {
        let h = next_held(&lists.held, above)?;
        if let Some(port) = free_port(&lists.conns, key, h.range.start) {
            return Some((h.n, port));
        }
        above = h.n;
    }
    None
}

fn touch(conns: &mut [Connection], key: &FlowKey, now: u64) {
    for c in conns.iter_mut() {
        if private_key(c) == *key {
            c.last = now;
        }
    }
}

fn count(held: &mut [Held], n: u64) {
    for h in held.iter_mut() {
        if h.n == n {
            h.count = h.count.saturating_add(1);
        }
    }
}

fn discount(held: &mut [Held], n: u64, now: u64) {
    for h in held.iter_mut() {
        if h.n == n {
            h.count = h.count.saturating_sub(1);
            h.idle = now;
        }
    }
}

fn close(lists: &mut PlainLists, key: &FlowKey, n: u64) {
    lists.conns.retain(|c| private_key(c) != *key);
    discount(&mut lists.held, n, lists.time);
}

/// A packet left by the connection with this key and number.
fn left(lists: &mut PlainLists, told: &mut Told, key: &FlowKey, n: u64, rst: bool) {
    add(&mut told.sends, 1);
    if rst {
        add(&mut told.acts, 1);
        close(lists, key, n);
    }
}

/// A packet leaves by a connection, perhaps a new one. False where there is no port for it.
fn leaves(lists: &mut PlainLists, told: &mut Told, sent: Sent) -> Result<bool, AllocError> {
    let key = key_of(sent);
    if let Some(c) = find(&lists.conns, &key) {
        touch(&mut lists.conns, &key, lists.time);
        left(lists, told, &key, c.n, sent.rst);
        return Ok(true);
    }
    let Some((n, port)) = choose(lists, &key) else {
        return Ok(false);
    };
    lists.conns.push(Connection {
        vip: VIP,
        proto: key.proto,
        port,
        remote: key.dst,
        rport: key.dport,
        machine: MACHINE,
        sport: key.sport,
        n,
        last: lists.time,
        peer: None,
    })?;
    count(&mut lists.held, n);
    add(&mut told.acts, 1);
    left(lists, told, &key, n, sent.rst);
    Ok(true)
}

/// A range is asked for, unless an ask is out.
fn ask(lists: &mut PlainLists, told: &mut Told) {
    if lists.ask.is_none() {
        lists.seq = lists.seq.saturating_add(1);
        lists.ask = Some(Asked {
            seq: lists.seq,
            at: lists.time,
        });
        add(&mut told.sends, 1);
    }
}

pub fn packet(lists: &mut PlainLists, told: &mut Told, sent: Sent) -> Result<(), AllocError> {
    if leaves(lists, told, sent)? {
        return Ok(());
    }
    add(&mut told.notes, 1);
    if lists.queue.len() < 64 {
        lists.queue.push(sent)?;
        ask(lists, told);
    }
    Ok(())
}

fn range(slot: usize) -> Range {
    Range {
        vip: VIP,
        start: (1024 + slot % 2 * 8) as u16,
    }
}

fn kept(lists: &PlainLists, slot: usize) -> u64 {
    match lists.kept.get(slot % 2) {
        Some(n) => *n,
        None => 0,
    }
}

fn is_old(lists: &PlainLists, n: u64, slot: usize) -> bool {
    let range = range(slot);
    lists.held.iter().any(|h| h.n == n || h.range == range)
        || lists.returning.iter().any(|m| *m == n)
        || n <= kept(lists, slot)
}

fn is_asking(lists: &PlainLists, seq: u64) -> bool {
    match lists.ask {
        Some(asked) => asked.seq == seq,
        None => false,
    }
}

fn hold(lists: &mut PlainLists, n: u64, slot: usize) -> Result<(), AllocError> {
    lists.held.push(Held {
        n,
        range: range(slot),
        machine: MACHINE,
        idle: lists.time,
        count: 0,
    })?;
    if let Some(kept) = lists.kept.get_mut(slot % 2) {
        *kept = n;
    }
    Ok(())
}

/// The packets that wait leave in order; those without a port still wait.
fn retry(alloc: Global, lists: &mut PlainLists, told: &mut Told) -> Result<(), AllocError> {
    let mut waiting = Vec::new(alloc);
    for i in 0..lists.queue.len() {
        if let Some(sent) = lists.queue.get(i).copied() {
            if !leaves(lists, told, sent)? {
                waiting.push(sent)?;
            }
        }
    }
    lists.queue = waiting;
    Ok(())
}

pub fn grant(
    alloc: Global,
    lists: &mut PlainLists,
    told: &mut Told,
    seq: u64,
    n: u64,
    slot: usize,
) -> Result<(), AllocError> {
    if is_old(lists, n, slot) {
        add(&mut told.notes, 1);
        return Ok(());
    }
    hold(lists, n, slot)?;
    add(&mut told.acts, 1);
    if is_asking(lists, seq) {
        lists.ask = None;
    }
    retry(alloc, lists, told)?;
    if !lists.queue.is_empty() {
        ask(lists, told);
    }
    Ok(())
}

pub fn deny(lists: &mut PlainLists, told: &mut Told, seq: u64) {
    if is_asking(lists, seq) {
        add(&mut told.notes, lists.queue.len());
        lists.queue.clear();
        lists.ask = None;
    } else {
        add(&mut told.notes, 1);
    }
}

/// The first opened of the connections that are idle.
fn idle(lists: &PlainLists) -> Option<Connection> {
    let now = lists.time;
    lists
        .conns
        .iter()
        .copied()
        .find(|c| now.saturating_sub(c.last) >= FLOW_IDLE)
}

fn close_idle(lists: &mut PlainLists, told: &mut Told) {
    for _ in 0..lists.conns.len() {
        if let Some(c) = idle(lists) {
            close(lists, &private_key(&c), c.n);
            add(&mut told.acts, 1);
        }
    }
}

fn is_spare(h: &Held, now: u64) -> bool {
    h.count == 0 && now.saturating_sub(h.idle) >= RANGE_IDLE
}

/// The spare range with the least number.
fn next_spare(lists: &PlainLists) -> Option<u64> {
    let mut next: Option<u64> = None;
    for h in lists.held.as_slice() {
        if is_spare(h, lists.time) {
            next = match next {
                Some(n) if n < h.n => Some(n),
                _ => Some(h.n),
            };
        }
    }
    next
}

/// Ranges without a connection are given back, unless a packet waits.
fn give_back(lists: &mut PlainLists, told: &mut Told) -> Result<(), AllocError> {
    for _ in 0..lists.held.len() {
        if let Some(n) = next_spare(lists) {
            lists.held.retain(|h| h.n != n);
            lists.returning.push(n)?;
            add(&mut told.acts, 1);
        }
    }
    Ok(())
}

/// The ask, where it is out for so long.
fn ask_again(lists: &mut PlainLists, told: &mut Told) {
    if let Some(asked) = lists.ask {
        if lists.time.saturating_sub(asked.at) >= ASK_RETRY {
            add(&mut told.sends, 5);
            lists.ask = Some(Asked {
                seq: asked.seq,
                at: lists.time,
            });
        }
    }
}

pub fn tick(lists: &mut PlainLists, told: &mut Told, now: u64) -> Result<(), AllocError> {
    lists.time = lists.time.max(now);
    close_idle(lists, told);
    if lists.queue.is_empty() {
        give_back(lists, told)?;
    }
    add(&mut told.sends, 5);
    ask_again(lists, told);
    for _ in 0..lists.returning.len().min(64) {
        add(&mut told.sends, 5);
    }
    Ok(())
}

pub fn returned(lists: &mut PlainLists, told: &mut Told, n: u64) {
    if !lists.returning.iter().any(|m| *m == n) {
        add(&mut told.notes, 1);
    }
    lists.returning.retain(|m| *m != n);
}

/// An agent as it opens.
pub fn nothing_kept(alloc: Global) -> PlainLists {
    PlainLists {
        held: Vec::new(alloc),
        kept: [0; 2],
        returning: Vec::new(alloc),
        conns: Vec::new(alloc),
        queue: Vec::new(alloc),
        seq: 0,
        ask: None,
        time: 0,
    }
}
