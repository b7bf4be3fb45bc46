// A machine's packet leaves, or there is no port for it.
ghost use Rattle.std.specs.Prelude.{◌≡◌, None, Some, IfOk, nat_le, length, false};
ghost use Rattle.agent_spec.specs.Connections.{by_private, most};
ghost use Rattle.agent_spec.specs.Packets.{by_inbound, is_used, new_conn, new_connection, try_packet, with_port};
ghost use Rattle.agent_spec.specs.Ranges.{first_unused, ports_of};
ghost use Rattle.host_agent.specs.Seen.{as_is};
ghost use Rattle.node_spec.specs.Steps.{tried};
ghost use Rattle.packet_spec.specs.Packets.{key_of, packet_fault};

use crate::traffic::Traffic;
use crate::using::{use_conn, use_inbound};
use agent_spec::Connection;
use packet_edit::Packet;
use std::alloc::Global;
use vip_config::Config;
use wire_core::{DropCause, FlowKey, Ip4, NoMemory, Note, Step};

/// The most connections.
const MOST: usize = 65_536;

/// The connection of a machine's packets with this key, through a port of a lease.
fn new_connection(now: u64, key: &FlowKey, vip: Ip4, n: u64, port: u16) -> Connection
    ensures { result ≡ new_connection now key.now vip (n, port) }
{
    Connection {
        vip,
        proto: key.proto,
        port,
        remote: key.dst,
        rport: key.dport,
        machine: key.src,
        sport: key.sport,
        n,
        last: now,
        peer: None,
    }
}

/// A connection opens through the port that was chosen, and the packet leaves by it.
#[tactic(auto, unfolding(node_spec::specs::Steps::tried))]
fn open_at(
    alloc: Global,
    cfg: &Config,
    traffic: &mut Traffic,
    step: &mut Step,
    vip: Ip4,
    packet: &Packet<'_>,
    chosen: Option<(u64, u16)>,
) -> Result<bool, NoMemory>
    requires fine { packet_fault packet.now ≡ None }
    requires private { by_private (key_of packet.now) traffic.old.conns ≡ None }
    requires room { nat_le most (length traffic.old.conns) ≡ false }
    requires unused { chosen
        ≡ first_unused (is_used traffic.old.conns (key_of packet.now) vip)
        (ports_of traffic.old.ranges.held (key_of packet.now).src) }
    ensures { IfOk result (λ left. (traffic.new, (step.new, left))
        ≡ tried as_is cfg.now step.old traffic.old (with_port cfg.now traffic.old vip packet.now chosen)) }
{
    let Some((n, port)) = chosen else {
        return Ok(false);
    };
    let c = new_connection(traffic.time, &packet.key(), vip, n, port);
    traffic.open(cfg, step, &c)?;
    use_conn(alloc, cfg, traffic, step, &c, packet)?;
    Ok(true)
}

/// A packet that neither a connection nor an inbound entry has.
#[tactic(auto, using(crate::proofs::Tries::drop_tried), unfolding(agent_spec::specs::Packets::new_conn))]
fn new_conn(
    alloc: Global,
    cfg: &Config,
    traffic: &mut Traffic,
    step: &mut Step,
    vip: Option<Ip4>,
    packet: &Packet<'_>,
) -> Result<bool, NoMemory>
    requires fine { packet_fault packet.now ≡ None }
    requires private { by_private (key_of packet.now) traffic.old.conns ≡ None }
    ensures { IfOk result (λ left. (traffic.new, (step.new, left))
        ≡ tried as_is cfg.now step.old traffic.old (new_conn cfg.now traffic.old packet.now vip)) }
{
    let Some(vip) = vip else {
        let cause = DropCause::NoSnat;
        step.note(Note::Dropped { cause })?;
        return Ok(true);
    };
    if traffic.ports.len() >= MOST {
        let cause = DropCause::TableFull;
        step.note(Note::Dropped { cause })?;
        return Ok(true);
    }
    let chosen = traffic.ports.choose_port(&packet.key(), vip);
    open_at(alloc, cfg, traffic, step, vip, packet, chosen)
}

/// A packet that no connection has.
fn by_inbound(
    alloc: Global,
    cfg: &Config,
    traffic: &mut Traffic,
    step: &mut Step,
    packet: &Packet<'_>,
) -> Result<bool, NoMemory>
    requires fine { packet_fault packet.now ≡ None }
    requires private { by_private (key_of packet.now) traffic.old.conns ≡ None }
    ensures { IfOk result (λ left. (traffic.new, (step.new, left))
        ≡ tried as_is cfg.now step.old traffic.old
        (by_inbound cfg.now traffic.old packet.now (by_private (key_of packet.now) traffic.old.inbound))) }
{
    let key = packet.key();
    let Some(c) = traffic.inbound.find_private(&key) else {
        let vip = cfg.snat_vip(key.src);
        return new_conn(alloc, cfg, traffic, step, vip, packet);
    };
    use_inbound(alloc, cfg, traffic, step, &c, packet)?;
    Ok(true)
}

/// A packet of a machine's, without fault, leaves by its connection, by its inbound entry, or by a new connection
/// through a port of the machine's ranges. False, and nothing has changed, where there is no port for it.
#[tactic(auto, unfolding(agent_spec::specs::Packets::try_packet))]
pub(crate) fn try_packet(
    alloc: Global,
    cfg: &Config,
    traffic: &mut Traffic,
    step: &mut Step,
    packet: &Packet<'_>,
) -> Result<bool, NoMemory>
    requires fine { packet_fault packet.now ≡ None }
    ensures { IfOk result (λ left. (traffic.new, (step.new, left))
        ≡ tried as_is cfg.now step.old traffic.old (try_packet cfg.now traffic.old packet.now)) }
{
    let Some(c) = traffic.ports.find_private(&packet.key()) else {
        return by_inbound(alloc, cfg, traffic, step, packet);
    };
    use_conn(alloc, cfg, traffic, step, &c, packet)?;
    Ok(true)
}
