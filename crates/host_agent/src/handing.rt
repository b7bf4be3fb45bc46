// Packets that are handed to a machine, and inbound entries.
ghost use Rattle.std.specs.Prelude.{◌≡◌, ◌∷◌, None, IfOk, OnOk};
ghost use Rattle.agent_spec.specs.Traffic.{restored};
ghost use Rattle.host_agent.specs.Transfers.{handed};
ghost use Rattle.packet_spec.specs.Packets.{packet_fault};

use crate::bytes::copied;
use agent_spec::Connection;
use packet_edit::translate_destination;
use std::alloc::Global;
use vip_config::Config;
use wire_core::{Act, Items, NoMemory, Outgoing, Step};

/// The first byte of a datagram that holds a packet.
const PACKET_FRAME: u8 = 2;

/// The datagram of a packet that is handed to a machine, translated in the one buffer that is sent.
#[tactic(auto, unfolding(node_spec::specs::Steps::datagram))]
fn handed_frame(alloc: Global, c: &Connection, packet: &[u8]) -> Result<Vec<u8>, NoMemory>
    requires { packet_fault packet.now ≡ None }
    ensures { IfOk result (λ bytes. bytes.items ≡ 2 ∷ restored c.now packet.now) }
{
    let mut bytes = Vec::new(alloc);
    bytes.push(PACKET_FRAME)?;
    bytes.extend_from_slice(packet)?;
    translate_destination(&mut bytes[1..], c.machine, c.sport, 0);
    Ok(bytes)
}

/// Hands a packet to the connection's machine: as an act, and to the machine's socket.
#[tactic(auto, unfolding(node_spec::specs::Steps::outgoing, node_spec::specs::Steps::datagram))]
pub(crate) fn hand(
    alloc: Global,
    cfg: &Config,
    step: &mut Step,
    c: &Connection,
    packet: &[u8],
) -> Result<(), NoMemory>
    requires { packet_fault packet.now ≡ None }
    ensures { OnOk result (step.new ≡ handed cfg.now step.old c.now packet.now) }
{
    let bytes = handed_frame(alloc, c, packet)?;
    let machine = c.machine;
    let act = Items::from_vec(copied(alloc, &bytes[1..])?);
    step.act(Act::Hand {
        machine,
        bytes: act,
    })?;
    let Some(to) = cfg.attach_of(machine) else {
        return Ok(());
    };
    let bytes = Items::from_vec(bytes);
    step.send(Outgoing { to, bytes })?;
    Ok(())
}
