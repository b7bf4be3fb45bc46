ghost use Rattle.std.specs.Prelude.{◌≡◌, map, filter, OnOk};
ghost use Rattle.std.specs.List.{flat_map};
ghost use Rattle.manager_spec.specs.Known.{has_boot};
ghost use Rattle.manager_spec.specs.Orders.{grant_of, known};
ghost use Rattle.manager_spec.specs.Orders.{program, unprogram};
ghost use Rattle.node_spec.specs.Sends.{tell};
ghost use Rattle.node_spec.specs.Steps.{outgoing, with_sends};
ghost use Rattle.wire_core.specs.declared.node.NodeId.TheVariants.{Agent, Mux};

use control_msg::Message;
use manager_spec::Peer;
use node_spec::say;
use port_leases::Row;
use std::alloc::Global;
use vip_config::Config;
use wire_core::{NoMemory, NodeId, Step};

/// The muxes with a known boot are told that packets to the row's range go to its machine.
pub fn program_all(
    alloc: Global,
    cfg: &Config,
    out: &mut Step,
    epoch: u64,
    peers: &[Peer],
    row: Row,
) -> Result<(), NoMemory>
    ensures { OnOk result (out.new ≡ with_sends
        (flat_map (outgoing cfg.now) (map (program epoch row) (filter has_boot peers.now))) out.old) }
{
    for peer in peers {
        if peer.boot > 0 {
            say(
                alloc,
                cfg,
                out,
                NodeId::Mux(peer.mux),
                &program(epoch, &row, peer),
            )?;
        }
    }
    Ok(())
}

/// The muxes with a known boot are told that they go to no machine.
pub fn unprogram_all(
    alloc: Global,
    cfg: &Config,
    out: &mut Step,
    epoch: u64,
    peers: &[Peer],
    row: Row,
) -> Result<(), NoMemory>
    ensures { OnOk result (out.new ≡ with_sends
        (flat_map (outgoing cfg.now) (map (unprogram epoch row) (filter has_boot peers.now))) out.old) }
{
    for peer in peers {
        if peer.boot > 0 {
            say(
                alloc,
                cfg,
                out,
                NodeId::Mux(peer.mux),
                &unprogram(epoch, &row, peer),
            )?;
        }
    }
    Ok(())
}

/// Packets to the row's range go to its machine.
pub fn program(epoch: u64, row: &Row, peer: &Peer) -> Message<'static>
    ensures { tell (Mux peer.now.mux) result ≡ program epoch row.now peer.now }
{
    Message::Program {
        epoch,
        boot: peer.boot,
        n: row.n,
        vip: row.range.vip,
        start: row.range.start,
        machine: row.machine,
    }
}

/// They go to no machine.
pub fn unprogram(epoch: u64, row: &Row, peer: &Peer) -> Message<'static>
    ensures { tell (Mux peer.now.mux) result ≡ unprogram epoch row.now peer.now }
{
    Message::Unprogram {
        epoch,
        boot: peer.boot,
        n: row.n,
        vip: row.range.vip,
        start: row.range.start,
    }
}

/// The row is Leased.
pub fn grant(row: &Row) -> Message<'static>
    ensures { tell (Agent row.now.agent) result ≡ grant_of row.now }
{
    Message::Grant {
        boot: row.boot,
        machine: row.machine,
        seq: row.seq,
        n: row.n,
        vip: row.range.vip,
        start: row.range.start,
    }
}
