// Wrapped packets from muxes and agents.
ghost use Rattle.std.specs.Prelude.{◌≡◌, None, OnOk};
ghost use Rattle.agent_spec.specs.Connections.{by_public, public_key};
ghost use Rattle.agent_spec.specs.Keys.{EntriesApart, IsServed};
ghost use Rattle.agent_spec.specs.Wrapped.{by_reply, clears_peer, delivered, enters, enters_or_meets, inner_as, may_wrap};
ghost use Rattle.agent_spec.specs.Wrapped.{new_entry, reply, to_member, to_server};
ghost use Rattle.host_agent.specs.Seen.{as_is};
ghost use Rattle.node_spec.specs.Steps.{turned};
ghost use Rattle.packet_spec.specs.Packets.{packet_fault, read_packet};

use crate::handing::hand;
use crate::notes::drop_for;
use crate::traffic::Traffic;
use crate::using::close_after;
use agent_flows::{private_key, public_key};
use agent_spec::Connection;
use packet_edit::Packet;
use packet_spec::packet_cause;
use std::alloc::Global;
use vip_config::{Config, Who};
use wire_core::{DropCause, FlowKey, Ip4, NoMemory, Step};

/// The most inbound entries.
const MOST: usize = 65_536;

/// Whether the sender may wrap a packet with this outer source: a mux may with its own address.
pub(crate) fn may_wrap(cfg: &Config, sender: Who, src: Ip4) -> bool
    ensures { result ≡ may_wrap cfg.now sender src }
{
    let Who::Mux(i) = sender else {
        return false;
    };
    match cfg.muxes().get(usize::from(i)) {
        Some(socket) => socket.ip == src,
        None => false,
    }
}

/// The reply to an own connection is handed. A TCP RST closes it.
#[tactic(auto, using(node_spec::proofs::Turning::drop_turned), unfolding(agent_spec::specs::Wrapped::reply))]
fn reply(
    alloc: Global,
    cfg: &Config,
    traffic: &mut Traffic,
    step: &mut Step,
    machine: Ip4,
    packet: &Packet<'_>,
    c: &Connection,
) -> Result<(), NoMemory>
    requires { packet_fault packet.now ≡ None }
    ensures { OnOk result ((traffic.new, step.new)
        ≡ turned as_is cfg.now step.old (reply traffic.old machine packet.now c.now)) }
{
    if c.machine != machine {
        return drop_for(step, DropCause::WrongMachine);
    }
    traffic.touch(c);
    hand(alloc, cfg, step, c, packet.whole())?;
    close_after(cfg, traffic, step, c, packet.rst())?;
    Ok(())
}

/// The inbound entry of packets with this key to a machine's port.
fn new_entry(now: u64, key: &FlowKey, machine: Ip4, port: u16) -> Connection
    ensures { result ≡ new_entry now key.now machine port }
{
    Connection {
        vip: key.dst,
        proto: key.proto,
        port: key.dport,
        remote: key.src,
        rport: key.sport,
        machine,
        sport: port,
        n: 0,
        last: now,
        peer: None,
    }
}

/// Whether the packet clears an entry's peer: a SYN without ACK through a mux does.
fn clears_peer(sender: Who, packet: &Packet<'_>) -> bool
    ensures { result ≡ clears_peer sender packet.now }
{
    matches!(sender, Who::Mux(_)) && packet.syn() && !packet.ack()
}

/// An inbound entry is made where there is room, and the packet is handed. None has its public key.
#[tactic(auto, using(node_spec::proofs::Turning::drop_turned, crate::proofs::Handed::hand_turned), unfolding(agent_spec::specs::Wrapped::enters))]
fn enter(
    alloc: Global,
    cfg: &Config,
    traffic: &mut Traffic,
    step: &mut Step,
    packet: &Packet<'_>,
    made: &Connection,
) -> Result<(), NoMemory>
    requires fine { packet_fault packet.now ≡ None }
    requires apart { EntriesApart cfg.now traffic.old.inbound }
    requires served { IsServed cfg.now.vips made.now }
    requires free { by_public (public_key made.now) traffic.old.inbound ≡ None }
    ensures { OnOk result ((traffic.new, step.new)
        ≡ turned as_is cfg.now step.old (enters traffic.old packet.now made.now)) }
{
    if traffic.inbound.len() >= MOST {
        return drop_for(step, DropCause::TableFull);
    }
    cfg.keeps_rules();
    traffic.enter(made)?;
    hand(alloc, cfg, step, made, packet.whole())?;
    Ok(())
}

/// The inbound entry with the public key is used; that of another machine leaves.
#[tactic(auto, using(crate::proofs::Handed::hand_turned))]
fn enter_or_meet(
    alloc: Global,
    cfg: &Config,
    traffic: &mut Traffic,
    step: &mut Step,
    sender: Who,
    packet: &Packet<'_>,
    made: &Connection,
) -> Result<(), NoMemory>
    requires fine { packet_fault packet.now ≡ None }
    requires apart { EntriesApart cfg.now traffic.old.inbound }
    requires served { IsServed cfg.now.vips made.now }
    ensures { OnOk result ((traffic.new, step.new)
        ≡ turned as_is cfg.now step.old
        (enters_or_meets traffic.old sender packet.now made.now
        (by_public (public_key made.now) traffic.old.inbound))) }
{
    let Some(found) = traffic.inbound.find_public(&public_key(made)) else {
        enter(alloc, cfg, traffic, step, packet, made)?;
        return Ok(());
    };
    if found.machine != made.machine {
        traffic.forget(&found);
        enter(alloc, cfg, traffic, step, packet, made)?;
        return Ok(());
    }
    traffic.meet_again(&found, clears_peer(sender, packet));
    hand(alloc, cfg, step, &found, packet.whole())?;
    Ok(())
}

/// A packet to an endpoint's machine: none of its connections may have the entry's packets.
#[tactic(auto, using(node_spec::proofs::Turning::drop_turned), unfolding(agent_spec::specs::Wrapped::to_server))]
fn to_server(
    alloc: Global,
    cfg: &Config,
    traffic: &mut Traffic,
    step: &mut Step,
    sender: Who,
    packet: &Packet<'_>,
    made: &Connection,
) -> Result<(), NoMemory>
    requires fine { packet_fault packet.now ≡ None }
    requires apart { EntriesApart cfg.now traffic.old.inbound }
    requires served { IsServed cfg.now.vips made.now }
    ensures { OnOk result ((traffic.new, step.new)
        ≡ turned as_is cfg.now step.old (to_server traffic.old sender packet.now made.now)) }
{
    if traffic.ports.find_private(&private_key(made)).is_some() {
        return drop_for(step, DropCause::KeyInUse);
    }
    enter_or_meet(alloc, cfg, traffic, step, sender, packet, made)?;
    Ok(())
}

/// A packet without fault for a machine: a connection's reply, an endpoint's packet, or neither.
#[tactic(auto, using(node_spec::proofs::Turning::drop_turned), unfolding(agent_spec::specs::Wrapped::delivered))]
fn deliver(
    alloc: Global,
    cfg: &Config,
    traffic: &mut Traffic,
    step: &mut Step,
    sender: Who,
    machine: Ip4,
    packet: &Packet<'_>,
) -> Result<(), NoMemory>
    requires fine { packet_fault packet.now ≡ None }
    requires apart { EntriesApart cfg.now traffic.old.inbound }
    ensures { OnOk result ((traffic.new, step.new)
        ≡ turned as_is cfg.now step.old (delivered cfg.now traffic.old sender machine packet.now)) }
{
    let key = packet.key();
    if let Some(c) = traffic.ports.find_public(&key.reverse()) {
        reply(alloc, cfg, traffic, step, machine, packet, &c)?;
        return Ok(());
    }
    let Some(member) = cfg.member_at(&key, machine) else {
        return drop_for(step, DropCause::NoConnection);
    };
    let made = new_entry(traffic.time, &key, machine, member.port);
    to_server(alloc, cfg, traffic, step, sender, packet, &made)?;
    Ok(())
}

/// What a wrapped packet carries.
#[tactic(auto, using(node_spec::proofs::Turning::drop_turned))]
pub(crate) fn take_inner(
    alloc: Global,
    cfg: &Config,
    traffic: &mut Traffic,
    step: &mut Step,
    sender: Who,
    machine: Ip4,
    bytes: &[u8],
) -> Result<(), NoMemory>
    requires apart { EntriesApart cfg.now traffic.old.inbound }
    ensures { OnOk result ((traffic.new, step.new)
        ≡ turned as_is cfg.now step.old (inner_as cfg.now traffic.old sender machine (read_packet bytes.now))) }
{
    match Packet::read(bytes) {
        Ok(packet) => {
            deliver(alloc, cfg, traffic, step, sender, machine, &packet)?;
            Ok(())
        }
        Err(fault) => drop_for(step, packet_cause(fault)),
    }
}
