ghost use Rattle.std.specs.Prelude.{◌≡◌, ◌++◌, OnOk, codes, string_bytes};
ghost use Rattle.hex.specs.Hex.{encode_lower};
ghost use Rattle.address_text.specs.Addresses.{socket_text};
ghost use Rattle.schedule_text.specs.Texts.{event_text, kept_text, node_text, single_text};

use crate::event::{Event, Single};
use address_text::write_address;
use hex::encode;
use std::alloc::Global;
use wire_core::{NoMemory, NodeId, Socket};

/// Appends a node's role and number.
pub fn write_node(out: &mut String, node: &NodeId) -> Result<(), NoMemory>
    ensures { OnOk result (string_bytes out.new ≡ string_bytes out.old ++ node_text node.now) }
{
    match *node {
        NodeId::Replica(i) => write!(out, "replica {i}"),
        NodeId::Mux(i) => write!(out, "mux {i}"),
        NodeId::Agent(i) => write!(out, "agent {i}"),
    }
}

/// Appends an address and a port.
pub fn write_socket(out: &mut String, socket: &Socket) -> Result<(), NoMemory>
    ensures { OnOk result (string_bytes out.new ≡ string_bytes out.old ++ socket_text socket.now) }
{
    write_address(out, socket.ip)?;
    let port = socket.port;
    write!(out, ":{port}")
}

/// Appends bytes in hexadecimal, in lower case.
pub fn write_hex(alloc: Global, out: &mut String, bytes: &[u8]) -> Result<(), NoMemory>
    ensures { OnOk result (string_bytes out.new ≡ string_bytes out.old ++ encode_lower bytes.now) }
{
    let digits = encode(alloc, bytes)?;
    write!(out, "{digits}")
}

fn write_from(alloc: Global, out: &mut String, from: &Socket, bytes: &[u8]) -> Result<(), NoMemory>
    ensures { OnOk result (string_bytes out.new
        ≡ string_bytes out.old ++ (codes " " ++ (socket_text from.now ++ (codes " " ++ encode_lower bytes.now)))) }
{
    let digits = encode(alloc, bytes)?;
    out.push_str(" ")?;
    write_socket(out, from)?;
    write!(out, " {digits}")
}

fn write_single(alloc: Global, out: &mut String, single: &Single) -> Result<(), NoMemory>
    ensures { OnOk result (string_bytes out.new ≡ string_bytes out.old ++ single_text single.now) }
{
    match single {
        Single::Deliver { k } => write!(out, "deliver {k}"),
        Single::Inject { node, from, bytes } => {
            out.push_str("inject ")?;
            write_node(out, node)?;
            write_from(alloc, out, from, bytes.as_slice())
        }
        Single::Tick { node, now } => {
            out.push_str("tick ")?;
            write_node(out, node)?;
            write!(out, " {now}")
        }
        Single::Restart { node } => {
            out.push_str("restart ")?;
            write_node(out, node)
        }
    }
}

fn write_kept(out: &mut String, keep: bool) -> Result<(), NoMemory>
    ensures { OnOk result (string_bytes out.new ≡ string_bytes out.old ++ kept_text keep) }
{
    let word = if keep { " keep" } else { " lose" };
    write!(out, "{word}")
}

/// Appends an event as its line says it, without an end.
pub fn write_event(alloc: Global, out: &mut String, event: &Event) -> Result<(), NoMemory>
    ensures { OnOk result (string_bytes out.new ≡ string_bytes out.old ++ event_text event.now) }
{
    match event {
        Event::Single(single) => write_single(alloc, out, single),
        Event::Settle { n } => write!(out, "settle {n}"),
        Event::Crash { node } => {
            out.push_str("crash ")?;
            write_node(out, node)
        }
        Event::During { node, e, keep } => {
            out.push_str("crash ")?;
            write_node(out, node)?;
            out.push_str(" during ")?;
            write_single(alloc, out, e)?;
            write_kept(out, *keep)
        }
    }
}
