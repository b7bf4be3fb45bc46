// Packets that leave by a connection or by an inbound entry.
ghost use Rattle.std.specs.Prelude.{◌≡◌, None, IfOk, OnOk};
ghost use Rattle.agent_spec.specs.Traffic.{closes, leaving, use_conn, use_inbound};
ghost use Rattle.host_agent.specs.Leaving.{leaves_by, sent_or_dropped};
ghost use Rattle.host_agent.specs.Seen.{as_is};
ghost use Rattle.node_spec.specs.Steps.{turned};
ghost use Rattle.packet_spec.specs.Packets.{packet_fault};

use crate::leaving::leave;
use crate::traffic::Traffic;
use agent_spec::Connection;
use packet_edit::Packet;
use std::alloc::Global;
use vip_config::Config;
use wire_core::{NoMemory, Step};

/// A connection closes where its packet has RST.
#[tactic(auto, using(node_spec::proofs::Turning::quiet_turned))]
pub(crate) fn close_after(
    cfg: &Config,
    traffic: &mut Traffic,
    step: &mut Step,
    c: &Connection,
    rst: bool,
) -> Result<(), NoMemory>
    ensures { OnOk result ((traffic.new, step.new) ≡ turned as_is cfg.now step.old (closes rst c.now traffic.old)) }
{
    if rst {
        traffic.close(cfg, step, c)?;
    }
    Ok(())
}

/// A packet leaves by its connection. A TCP RST that left closes it.
#[tactic(auto, unfolding(agent_spec::specs::Traffic::use_conn))]
pub(crate) fn use_conn(
    alloc: Global,
    cfg: &Config,
    traffic: &mut Traffic,
    step: &mut Step,
    c: &Connection,
    packet: &Packet<'_>,
) -> Result<(), NoMemory>
    requires { packet_fault packet.now ≡ None }
    ensures { OnOk result
        ((traffic.new, step.new) ≡ turned as_is cfg.now step.old (use_conn cfg.now traffic.old c.now packet.now)) }
{
    traffic.touch(c);
    let left = leave(alloc, cfg, step, c, packet)?;
    if left {
        close_after(cfg, traffic, step, c, packet.rst())?;
    }
    Ok(())
}

/// A packet of a server leaves by its inbound entry.
#[tactic(auto, unfolding(agent_spec::specs::Traffic::use_inbound))]
pub(crate) fn use_inbound(
    alloc: Global,
    cfg: &Config,
    traffic: &mut Traffic,
    step: &mut Step,
    c: &Connection,
    packet: &Packet<'_>,
) -> Result<(), NoMemory>
    requires { packet_fault packet.now ≡ None }
    ensures { OnOk result
        ((traffic.new, step.new) ≡ turned as_is cfg.now step.old (use_inbound cfg.now traffic.old c.now packet.now)) }
{
    traffic.touch_inbound(c);
    leave(alloc, cfg, step, c, packet)?;
    Ok(())
}
