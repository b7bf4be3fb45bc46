ghost use Rattle.std.specs.Prelude.{◌≡◌, ◌≤◌, ◌++◌, None, IfOk, OnOk, IfErr, MatchResult, length, take, string_bytes};
ghost use Rattle.address_text.specs.Addresses.{address_text};
ghost use Rattle.packet_spec.specs.Headers.{ttl_of};
ghost use Rattle.packet_spec.specs.Packets.{packet_fault, read_packet};
ghost use Rattle.plain_schedule.specs.FullLeases.{plain};
ghost use Rattle.plain_schedule.specs.Kept.{IsKept};
ghost use Rattle.plain_schedule.specs.Packets.{drop_text, machine_text, public_text, replied, sent};

use crate::choice::{incoming, outgoing};
use crate::connections::{Connection, Connections};
use crate::full_leases::FullLeases;
use address_text::write_address;
use hex::encode;
use packet_edit::{Packet, translate_destination, translate_source};
use packet_spec::{cause_name, packet_cause};
use port_leases::Table;
use std::alloc::Global;
use wire_core::{DropCause, Ip4, NoMemory};

/// Prints that a packet was dropped.
fn print_drop(out: &mut String, cause: DropCause) -> Result<(), NoMemory>
    ensures { OnOk result (string_bytes out.new ≡ string_bytes out.old ++ drop_text cause) }
{
    let name = cause_name(cause);
    writeln!(out, "drop {name}")
}

/// Prints a packet as it leaves.
fn print_public(
    alloc: Global,
    out: &mut String,
    p: &mut [u8],
    taken: Result<Connection, DropCause>,
) -> Result<(), NoMemory>
    requires { packet_fault p.old ≡ None }
    ensures { OnOk result (string_bytes out.new ≡ string_bytes out.old ++ public_text p.old taken) }
{
    match taken {
        Err(cause) => print_drop(out, cause),
        Ok(connection) => {
            let end = connection.public;
            translate_source(p, end.src, end.sport);
            let digits = encode(alloc, &*p)?;
            writeln!(out, "public {digits}")
        }
    }
}

fn spelled(alloc: Global, ip: Ip4) -> Result<String, NoMemory>
    ensures { IfOk result (λ text. string_bytes text ≡ address_text ip) }
{
    let mut text = String::new(alloc);
    write_address(&mut text, ip)?;
    Ok(text)
}

/// Prints a packet as the machine gets it.
fn print_machine(
    alloc: Global,
    out: &mut String,
    p: &mut [u8],
    taken: Result<Connection, DropCause>,
) -> Result<(), NoMemory>
    requires fine { packet_fault p.old ≡ None }
    requires hops { OnOk taken (1 ≤ ttl_of p.old) }
    ensures { OnOk result (string_bytes out.new ≡ string_bytes out.old ++ machine_text p.old taken) }
{
    match taken {
        Err(cause) => print_drop(out, cause),
        Ok(connection) => {
            let end = connection.private;
            translate_destination(p, end.src, end.sport, 1);
            let digits = encode(alloc, &*p)?;
            let address = spelled(alloc, end.src)?;
            writeln!(out, "machine {address} {digits}")
        }
    }
}

/// A packet of a machine: it leaves through its connection, or is dropped.
pub fn send(
    alloc: Global,
    table: &Table,
    opened: &mut Connections,
    full: &mut FullLeases,
    out: &mut String,
    bytes: &mut [u8],
) -> Result<(), NoMemory>
    requires { IsKept (plain table.now opened.old) full.old }
    ensures opened { OnOk result (opened.new ≡ (sent table.now opened.old (read_packet bytes.old)).0) }
    ensures text { OnOk result (string_bytes out.new
        ≡ string_bytes out.old ++ (sent table.now opened.old (read_packet bytes.old)).1) }
    ensures kept { IsKept (plain table.now opened.new) full.new }
{
    let (key, len) = match Packet::read(bytes) {
        Err(fault) => return print_drop(out, packet_cause(fault)),
        Ok(p) => (p.key(), p.len()),
    };
    let taken = outgoing(table, opened, full, &key)?;
    print_public(alloc, out, &mut bytes[..len], taken)
}

/// A reply: its machine gets it, or it is dropped.
pub fn answer(
    alloc: Global,
    table: &Table,
    opened: &Connections,
    out: &mut String,
    bytes: &mut [u8],
) -> Result<(), NoMemory>
    ensures { OnOk result (string_bytes out.new
        ≡ string_bytes out.old ++ replied table.now opened.now (read_packet bytes.old)) }
{
    let (ttl, key, len) = match Packet::read(bytes) {
        Err(fault) => return print_drop(out, packet_cause(fault)),
        Ok(p) => (p.ttl(), p.key(), p.len()),
    };
    let taken = incoming(table, opened, ttl, &key);
    print_machine(alloc, out, &mut bytes[..len], taken)
}
