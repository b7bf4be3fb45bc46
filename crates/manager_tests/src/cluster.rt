//! Five managers, and how a list of steps is played.
use crate::lines::{Record, keep, write_rows};
use hex::decode;
use manager_core::Manager;
use std::alloc::Global;
use std::test::Fail;
use vip_config::Config;
use wire_core::{BodyList, EntryBytes, Input, Ip4, Items, NoMemory, Socket, Step};

/// No list brings more datagrams at once.
const MOST: u16 = 1000;

/// A step of a run.
#[derive(Clone, Copy)]
pub enum Act<'a> {
    /// The clock of a replica, from 0 to 4, in milliseconds.
    Tick(u8, u64),
    /// A node sends bytes, in hexadecimal digits, to a replica. They aren't delivered yet.
    Send(Socket, u8, &'a str),
    /// The datagrams with these numbers are delivered, from the first to the last. Who isn't a replica does nothing.
    Deliver(usize, usize),
    /// The datagrams behind the last one that was delivered, and what these bring, till none is left.
    Settle,
    /// What a replica would be by its journal alone: its rows are written, and what it would make of this datagram.
    Reopen(u8, usize),
    /// A replica's log and lease table are written.
    Rows(u8),
    /// This was written since the last such step, and nothing else.
    Told(&'a str),
    /// What was written since the last such step isn't looked at.
    Unread,
}

fn at(ip: u32) -> Socket {
    let ip = Ip4(ip);
    Socket { ip, port: 7000 }
}

pub fn replica(i: u8) -> Socket {
    at(0x0a00_0001u32.wrapping_add(u32::from(i)))
}

pub fn mux(i: u8) -> Socket {
    at(0x0a09_0001u32.wrapping_add(u32::from(i)))
}

pub fn agent(i: u8) -> Socket {
    at(0x0a08_0001u32.wrapping_add(u32::from(i)))
}

/// A socket that is no node's.
pub fn router() -> Socket {
    at(0x0a07_0001)
}

/// The number of a replica by its socket.
fn replica_at(socket: Socket) -> Option<u8> {
    for i in 0..5u8 {
        if socket.ip.0 == replica(i).ip.0 {
            return Some(i);
        }
    }
    None
}

fn bytes_of(alloc: Global, text: &str) -> Result<Vec<u8>, Fail> {
    match decode(alloc, text) {
        Ok(bytes) => Ok(bytes),
        Err(_) => Err(Fail::new("no hexadecimal digits")),
    }
}

fn send(alloc: Global, record: &mut Record, from: Socket, to: u8, text: &str) -> Result<(), Fail> {
    let bytes = Items::from_vec(bytes_of(alloc, text)?);
    record.post(from, replica(to), bytes)?;
    Ok(())
}

/// What a manager makes of the datagram with this number, if there is one.
fn hear(manager: &mut Manager, record: &Record, k: usize) -> Result<Option<Step>, NoMemory> {
    let Some(mail) = record.get(k) else {
        return Ok(None);
    };
    let input = Input::Datagram {
        from: mail.from,
        bytes: mail.bytes.as_slice(),
    };
    let step = manager.handle(&input)?;
    Ok(Some(step))
}

/// A manager gets the datagram with this number.
fn deliver_to(
    alloc: Global,
    manager: &mut Manager,
    record: &mut Record,
    own: Socket,
    k: usize,
) -> Result<(), Fail> {
    match hear(manager, record, k)? {
        Some(step) => keep(alloc, record, own, step),
        None => Err(Fail::new("no such datagram")),
    }
}

fn deliver(
    alloc: Global,
    managers: &mut [Manager],
    record: &mut Record,
    k: usize,
) -> Result<(), Fail> {
    record.pass(k);
    let Some(i) = receiver(record, k) else {
        return Ok(());
    };
    match managers.get_mut(usize::from(i)) {
        Some(manager) => deliver_to(alloc, manager, record, replica(i), k),
        None => Err(Fail::new("no such replica")),
    }
}

fn deliver_each(
    alloc: Global,
    managers: &mut [Manager],
    record: &mut Record,
    first: usize,
    last: usize,
) -> Result<(), Fail> {
    for k in first..=last {
        deliver(alloc, managers, record, k)?;
    }
    Ok(())
}

fn settle(alloc: Global, managers: &mut [Manager], record: &mut Record) -> Result<(), Fail> {
    for _ in 0..MOST {
        let k = record.next();
        if record.count() < k {
            return Ok(());
        }
        deliver(alloc, managers, record, k)?;
    }
    Err(Fail::new("it never ends"))
}

/// A manager's clock.
fn tick_at(
    alloc: Global,
    manager: &mut Manager,
    record: &mut Record,
    own: Socket,
    now: u64,
) -> Result<(), Fail> {
    let step = manager.handle(&Input::Tick { now })?;
    keep(alloc, record, own, step)
}

fn tick(
    alloc: Global,
    managers: &mut [Manager],
    record: &mut Record,
    i: u8,
    now: u64,
) -> Result<(), Fail> {
    match managers.get_mut(usize::from(i)) {
        Some(manager) => tick_at(alloc, manager, record, replica(i), now),
        None => Err(Fail::new("no such replica")),
    }
}

fn rows(managers: &[Manager], record: &mut Record, i: u8) -> Result<(), Fail> {
    match managers.get(usize::from(i)) {
        Some(manager) => write_rows(record, replica(i), manager),
        None => Err(Fail::new("no such replica")),
    }
}

/// The rows of a manager that was just opened, and the first datagram that it hears.
fn begin(
    alloc: Global,
    manager: &mut Manager,
    record: &mut Record,
    i: u8,
    k: usize,
) -> Result<(), Fail> {
    write_rows(record, replica(i), manager)?;
    deliver_to(alloc, manager, record, replica(i), k)
}

/// What a replica, from 0 to 4, is as it opens on these bodies, and makes of the datagram with this number.
fn reopen_on(
    alloc: Global,
    config: &Config,
    record: &mut Record,
    bodies: &BodyList,
    i: u8,
    k: usize,
) -> Result<(), Fail> {
    let mut manager = Manager::recover(alloc, config, i.min(4), bodies)?;
    begin(alloc, &mut manager, record, i, k)
}

fn reopen(
    alloc: Global,
    config: &Config,
    record: &mut Record,
    i: u8,
    k: usize,
) -> Result<(), Fail> {
    let bodies = journal(alloc, record.entries(), replica(i))?;
    reopen_on(alloc, config, record, &bodies, i, k)
}

fn play_one(
    alloc: Global,
    config: &Config,
    managers: &mut [Manager],
    record: &mut Record,
    act: Act<'_>,
) -> Result<(), Fail> {
    match act {
        Act::Tick(i, now) => tick(alloc, managers, record, i, now),
        Act::Send(from, to, text) => send(alloc, record, from, to, text),
        Act::Deliver(first, last) => deliver_each(alloc, managers, record, first, last),
        Act::Settle => settle(alloc, managers, record),
        Act::Reopen(i, k) => reopen(alloc, config, record, i, k),
        Act::Rows(i) => rows(managers, record, i),
        Act::Told(text) => told(record, text),
        Act::Unread => {
            record.begin();
            Ok(())
        }
    }
}

fn play_all(
    alloc: Global,
    config: &Config,
    managers: &mut [Manager],
    record: &mut Record,
    acts: &[Act<'_>],
) -> Result<(), Fail> {
    for act in acts {
        play_one(alloc, config, managers, record, *act)?;
    }
    Ok(())
}

/// The replica that a datagram goes to.
fn receiver(record: &Record, k: usize) -> Option<u8> {
    match record.get(k) {
        Some(mail) => replica_at(mail.to),
        None => None,
    }
}

fn copied(alloc: Global, bytes: &[u8]) -> Result<EntryBytes, NoMemory> {
    let mut copy = Vec::new(alloc);
    copy.extend_from_slice(bytes)?;
    Ok(Items::from_vec(copy))
}

/// The entries that a replica wrote, in their order.
fn journal(
    alloc: Global,
    entries: &[(Socket, EntryBytes)],
    own: Socket,
) -> Result<BodyList, NoMemory> {
    let mut bodies: BodyList = Items::new(alloc);
    for (of, entry) in entries {
        if of.ip.0 == own.ip.0 {
            bodies.push(copied(alloc, entry.as_slice())?)?;
        }
    }
    Ok(bodies)
}

/// Whether this was written, and nothing else. What was written is the failure's text.
fn told(record: &mut Record, wanted: &str) -> Result<(), Fail> {
    if record.text() != wanted {
        return Err(Fail::new(record.text()));
    }
    record.begin();
    Ok(())
}

/// Five managers with empty journals.
fn open(alloc: Global, config: &Config) -> Result<Vec<Manager>, NoMemory> {
    let bodies: BodyList = Items::new(alloc);
    let mut managers = Vec::new(alloc);
    for index in 0..5u8 {
        managers.push(Manager::recover(alloc, config, index, &bodies)?)?;
    }
    Ok(managers)
}

/// How many datagrams were sent in all.
fn play_with(
    alloc: Global,
    config: &Config,
    managers: &mut [Manager],
    acts: &[Act<'_>],
) -> Result<usize, Fail> {
    let mut record = Record::new(alloc);
    play_all(alloc, config, managers, &mut record, acts)?;
    Ok(record.count())
}

fn play_by(alloc: Global, config: &Config, acts: &[Act<'_>]) -> Result<usize, Fail> {
    let mut managers = open(alloc, config)?;
    play_with(alloc, config, &mut managers, acts)
}

/// Plays a run from its beginning, and answers how many datagrams were sent in it.
pub fn play(alloc: Global, config: &str, acts: &[Act<'_>]) -> Result<usize, Fail> {
    match Config::read(alloc, config.as_bytes()) {
        Ok(config) => play_by(alloc, &config, acts),
        Err(_) => Err(Fail::new("no configuration")),
    }
}
