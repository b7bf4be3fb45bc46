//! What an agent does as lines of text.
use agent_flows::conn_of;
use hex::encode;
use host_agent::Agent;
use packet_spec::cause_name;
use std::alloc::Global;
use std::test::Fail;
use wire_core::{Act, Conn, DropCause, Ip4, Note, Proto, Socket, Step};

/// The addresses of the run.
fn ip_name(ip: Ip4) -> &'static str {
    match ip.0 {
        0xc000_020a => "192.0.2.10",
        0xc633_6407 => "198.51.100.7",
        0xc633_6408 => "198.51.100.8",
        0x0a01_0004 => "10.1.0.4",
        _ => "another",
    }
}

/// Whose socket it is: a replica's, or an outside one.
fn socket_name(to: Socket) -> &'static str {
    match to.ip.0 {
        0x0a00_0001 => "replica 0",
        0x0a00_0002 => "replica 1",
        0x0a00_0003 => "replica 2",
        0x0a00_0004 => "replica 3",
        0x0a00_0005 => "replica 4",
        0x0a07_0001 => "10.7.0.1:7000",
        0x0a01_0004 => "10.1.0.4:9000",
        _ => "another",
    }
}

fn proto_name(proto: Proto) -> &'static str {
    match proto {
        Proto::Tcp => "tcp",
        Proto::Udp => "udp",
    }
}

/// One line: what it is of, and bytes.
pub fn write_bytes(alloc: Global, out: &mut String, name: &str, bytes: &[u8]) -> Result<(), Fail> {
    let text = encode(alloc, bytes)?;
    writeln!(out, "{name} {text}")?;
    Ok(())
}

/// One line: what becomes of a connection.
fn write_conn(out: &mut String, name: &str, c: &Conn) -> Result<(), Fail> {
    let proto = proto_name(c.proto);
    let vip = ip_name(c.vip);
    write!(out, "{name} {proto} {vip} {} ", c.port)?;
    let remote = ip_name(c.remote);
    let machine = ip_name(c.machine);
    writeln!(out, "{remote} {} {machine} {}", c.rport, c.sport)?;
    Ok(())
}

fn write_hand(alloc: Global, out: &mut String, machine: Ip4, bytes: &[u8]) -> Result<(), Fail> {
    let machine = ip_name(machine);
    write!(out, "act hand ")?;
    write_bytes(alloc, out, machine, bytes)
}

fn write_act(alloc: Global, out: &mut String, act: &Act) -> Result<(), Fail> {
    match act {
        Act::Hold { n } => writeln!(out, "act hold {n}")?,
        Act::Drop { n } => writeln!(out, "act drop {n}")?,
        Act::Open { c } => write_conn(out, "act open", c)?,
        Act::Close { c } => write_conn(out, "act close", c)?,
        Act::Hand { machine, bytes } => write_hand(alloc, out, *machine, bytes.as_slice())?,
        _ => writeln!(out, "another act")?,
    }
    Ok(())
}

/// One line: the cause, and the number that it carries.
fn write_drop(out: &mut String, cause: DropCause) -> Result<(), Fail> {
    let name = cause_name(cause);
    match cause {
        DropCause::WrongBoot(n) | DropCause::OldGrant(n) => writeln!(out, "drop {name} {n}")?,
        _ => writeln!(out, "drop {name}")?,
    }
    Ok(())
}

fn write_note(out: &mut String, note: Note) -> Result<(), Fail> {
    match note {
        Note::Queued { machine, count } => {
            let machine = ip_name(machine);
            writeln!(out, "queued {machine} {count}")?;
            Ok(())
        }
        Note::Dropped { cause } => write_drop(out, cause),
    }
}

/// The acts, the notes and the datagrams, each on a line.
pub fn write_step(alloc: Global, out: &mut String, step: &Step) -> Result<(), Fail> {
    for act in step.acts.as_slice() {
        write_act(alloc, out, act)?;
    }
    for note in step.notes.as_slice() {
        write_note(out, *note)?;
    }
    for send in step.sends.as_slice() {
        write_bytes(alloc, out, socket_name(send.to), send.bytes.as_slice())?;
    }
    Ok(())
}

/// The i-th held range.
pub fn write_held(agent: &Agent, out: &mut String, i: usize) -> Result<(), Fail> {
    match agent.held(i) {
        Some((n, range, machine)) => {
            let machine = ip_name(machine);
            writeln!(out, "held {n} {} {machine}", range.start)?;
        }
        None => writeln!(out, "held none")?,
    }
    Ok(())
}

/// The i-th connection.
pub fn write_connection(agent: &Agent, out: &mut String, i: usize) -> Result<(), Fail> {
    match agent.connection(i) {
        Some(c) => write_conn(out, "connection", &conn_of(&c)),
        None => {
            writeln!(out, "connection none")?;
            Ok(())
        }
    }
}
