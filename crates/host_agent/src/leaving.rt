// Packets that leave.
ghost use Rattle.std.specs.Prelude.{◌≡◌, ◌≤◌, ℕ, List, ◌∷◌, [], ◌++◌, length, drop, take, None, Some, IfOk, OnOk, MatchResult};
ghost use Rattle.std.specs.List.{flat_map};
ghost use Rattle.agent_spec.specs.Traffic.{leaving};
ghost use Rattle.host_agent.specs.Leaving.{leaves_by, sent_or_dropped, to_peer};
ghost use Rattle.ipip.specs.Wrapping.{wrap_fault, wrapped};
ghost use Rattle.node_spec.specs.Sends.{Carries, ToRouter, carry, to_agent};
ghost use Rattle.node_spec.specs.Steps.{datagram, outgoing, with_sends};
ghost use Rattle.packet_spec.specs.Headers.{IsWhole};
ghost use Rattle.packet_spec.specs.Packets.{packet_fault};
ghost use Rattle.vip_config.specs.Serving.{agent_with};

use agent_spec::Connection;
use ipip::{WrapFault, wrap_cause, wrap_in_place};
use packet_edit::{Packet, translate_source};
use std::alloc::Global;
use vip_config::Config;
use wire_core::{Ip4, Items, NoMemory, NodeId, Note, Outgoing, Step};

/// The first byte of a datagram that holds a packet.
const PACKET_FRAME: u8 = 2;

/// The length of what stands before a wrapped packet: the first byte, and an outer header.
const FRONT: usize = 21;

/// Translates a packet for the network where it lies.
fn translate(packet: &mut [u8], c: &Connection)
    requires fine { packet_fault packet.old ≡ None }
    ensures packet { packet.new ≡ leaving c.now packet.old }
    ensures whole { IsWhole packet.old → IsWhole packet.new }
{
    translate_source(packet, c.vip, c.port);
}

/// The datagram of a packet that leaves by a connection, translated in the one buffer that is sent.
#[tactic(auto, unfolding(node_spec::specs::Steps::datagram))]
fn leaving_frame(alloc: Global, c: &Connection, packet: &[u8]) -> Result<Vec<u8>, NoMemory>
    requires { packet_fault packet.now ≡ None }
    ensures { IfOk result (λ bytes. bytes.items ≡ datagram (Carries (leaving c.now packet.now))) }
{
    let mut bytes = Vec::new(alloc);
    bytes.push(PACKET_FRAME)?;
    bytes.extend_from_slice(packet)?;
    translate(&mut bytes[1..], c);
    Ok(bytes)
}

/// Sends a datagram to the machine's agent, if it has one.
#[tactic(auto, unfolding(node_spec::specs::Steps::outgoing))]
fn to_agent_of(cfg: &Config, step: &mut Step, machine: Ip4, bytes: Vec<u8>) -> Result<(), NoMemory>
    ensures { (packet : List ℕ) → bytes.items ≡ datagram (Carries packet) → OnOk result
        (step.new ≡ with_sends (flat_map (outgoing cfg.now) (to_agent (agent_with cfg.now machine) (Carries packet))) step.old) }
{
    let Some(agent) = cfg.agent_of(machine) else {
        return Ok(());
    };
    let Some(to) = cfg.socket(&NodeId::Agent(agent)) else {
        return Ok(());
    };
    let bytes = Items::from_vec(bytes);
    step.send(Outgoing { to, bytes })?;
    Ok(())
}

/// The packet leaves by the connection, to the router.
#[tactic(auto, unfolding(node_spec::specs::Steps::outgoing))]
fn to_router(
    alloc: Global,
    cfg: &Config,
    step: &mut Step,
    c: &Connection,
    packet: &[u8],
) -> Result<(), NoMemory>
    requires { packet_fault packet.now ≡ None }
    ensures { OnOk result
        (step.new ≡ with_sends (outgoing cfg.now (carry ToRouter (leaving c.now packet.now))) step.old) }
{
    let bytes = Items::from_vec(leaving_frame(alloc, c, packet)?);
    step.send(Outgoing {
        to: cfg.router(),
        bytes,
    })?;
    Ok(())
}

/// The bytes of a packet that leaves by a connection, behind room for a frame byte and an outer header.
fn peer_frame(alloc: Global, c: &Connection, packet: &Packet<'_>) -> Result<Vec<u8>, NoMemory>
    requires { packet_fault packet.now ≡ None }
    ensures long { IfOk result (λ bytes. 21 ≤ length bytes.items) }
    ensures first { IfOk result (λ bytes. take 1 bytes.items ≡ 2 ∷ []) }
    ensures packet { IfOk result (λ bytes. drop 21 bytes.items ≡ leaving c.now packet.now) }
    ensures whole { OnOk result (IsWhole (leaving c.now packet.now)) }
{
    let mut bytes = Vec::new(alloc);
    bytes.push(PACKET_FRAME)?;
    bytes.extend_from_slice(&[0; 20])?;
    bytes.extend_from_slice(packet.ip().whole())?;
    translate(&mut bytes[FRONT..], c);
    Ok(bytes)
}

/// Wraps the packet behind the first 21 bytes where it lies.
fn wrap_frame(bytes: &mut Vec<u8>, src: Ip4, dst: Ip4) -> Result<(), WrapFault>
    requires long { 21 ≤ length bytes.old.items }
    requires whole { IsWhole (drop 21 bytes.old.items) }
    ensures cause { MatchResult result (λ _. wrap_fault 0 (drop 21 bytes.old.items) ≡ None)
        (λ fault. wrap_fault 0 (drop 21 bytes.old.items) ≡ Some fault) }
    ensures ok { OnOk result
        (bytes.new.items ≡ take 1 bytes.old.items ++ wrapped 0 src dst (drop 21 bytes.old.items)) }
{
    wrap_in_place(src, dst, &mut bytes[1..])
}

/// The packet leaves by the connection, wrapped to the peer.
fn leave_to_peer(
    alloc: Global,
    cfg: &Config,
    step: &mut Step,
    c: &Connection,
    peer: Ip4,
    packet: &Packet<'_>,
) -> Result<bool, NoMemory>
    requires { packet_fault packet.now ≡ None }
    ensures { IfOk result (λ left. (step.new, left)
        ≡ sent_or_dropped cfg.now step.old
        (to_peer cfg.now c.now peer (leaving c.now packet.now) (wrap_fault 0 (leaving c.now packet.now)))) }
{
    let mut bytes = peer_frame(alloc, c, packet)?;
    match wrap_frame(&mut bytes, c.machine, peer) {
        Ok(()) => {
            to_agent_of(cfg, step, peer, bytes)?;
            Ok(true)
        }
        Err(fault) => {
            let cause = wrap_cause(fault);
            step.note(Note::Dropped { cause })?;
            Ok(false)
        }
    }
}

/// The packet leaves by the connection, to its peer or to the router. False where it is dropped.
pub(crate) fn leave(
    alloc: Global,
    cfg: &Config,
    step: &mut Step,
    c: &Connection,
    packet: &Packet<'_>,
) -> Result<bool, NoMemory>
    requires { packet_fault packet.now ≡ None }
    ensures { IfOk result (λ left. (step.new, left)
        ≡ sent_or_dropped cfg.now step.old (leaves_by cfg.now c.now (leaving c.now packet.now) c.now.peer)) }
{
    match c.peer {
        Some(peer) => leave_to_peer(alloc, cfg, step, c, peer, packet),
        None => {
            to_router(alloc, cfg, step, c, packet.whole())?;
            Ok(true)
        }
    }
}
