// Packets of a machine's own.
ghost use Rattle.std.specs.Prelude.{◌≡◌, None, OnOk};
ghost use Rattle.agent_spec.specs.Packets.{from_machine, machine_packet, read_as};
ghost use Rattle.host_agent.specs.Seen.{as_is, site, with_lists};
ghost use Rattle.node_spec.specs.Steps.{turned};
ghost use Rattle.packet_spec.specs.Packets.{packet_fault, read_packet};

use crate::host::{Host, Origin};
use crate::notes::drop_for;
use crate::state::State;
use crate::traffic::Traffic;
use crate::trying::try_packet;
use packet_edit::Packet;
use packet_spec::packet_cause;
use std::alloc::Global;
use vip_config::Config;
use wire_core::{DropCause, Ip4, NoMemory, Note, Step};

/// A packet without fault from the machine's socket: it is the machine's own, and leaves or is held.
#[tactic(auto, using(node_spec::proofs::Turning::drop_turned), unfolding(agent_spec::specs::Packets::machine_packet))]
fn machine_packet(
    alloc: Global,
    cfg: &Config,
    origin: &Origin,
    traffic: &mut Traffic,
    host: &mut Host,
    step: &mut Step,
    packet: &Packet<'_>,
) -> Result<(), NoMemory>
    requires { packet_fault packet.now ≡ None }
    ensures turn { OnOk result ((site traffic.new host.new, step.new)
        ≡ turned as_is cfg.now step.old
        (machine_packet cfg.now origin.now.boot origin.now.hint (site traffic.old host.old) packet.now)) }
    ensures machine { host.new.machine ≡ host.old.machine }
{
    if packet.key().src != host.machine() {
        let cause = DropCause::BadSource;
        step.note(Note::Dropped { cause })?;
        return Ok(());
    }
    let left = try_packet(alloc, cfg, traffic, step, packet)?;
    if left {
        return Ok(());
    }
    host.hold(alloc, cfg, step, origin, traffic.time, packet.whole())?;
    Ok(())
}

/// What came from the machine's socket as a packet.
#[tactic(auto, using(node_spec::proofs::Turning::drop_turned))]
pub(crate) fn read_machine_packet(
    alloc: Global,
    cfg: &Config,
    origin: &Origin,
    traffic: &mut Traffic,
    host: &mut Host,
    step: &mut Step,
    bytes: &[u8],
) -> Result<(), NoMemory>
    ensures turn { OnOk result ((site traffic.new host.new, step.new)
        ≡ turned as_is cfg.now step.old
        (read_as cfg.now origin.now.boot origin.now.hint (site traffic.old host.old) (read_packet bytes.now))) }
    ensures machine { host.new.machine ≡ host.old.machine }
{
    match Packet::read(bytes) {
        Ok(packet) => {
            machine_packet(alloc, cfg, origin, traffic, host, step, &packet)?;
            Ok(())
        }
        Err(fault) => {
            let cause = packet_cause(fault);
            step.note(Note::Dropped { cause })?;
            Ok(())
        }
    }
}

impl State {
    /// A packet from a machine's socket.
    #[tactic(auto, using(node_spec::proofs::Turning::drop_turned), unfolding(agent_spec::specs::Packets::from_machine))]
    pub(crate) fn from_machine(
        &mut self,
        alloc: Global,
        step: &mut Step,
        machine: Ip4,
        bytes: &[u8],
    ) -> Result<(), NoMemory>
        ensures { OnOk result ((self.new, step.new)
            ≡ turned (with_lists self.old) self.old.config step.old
            (from_machine self.old.config self.old.lists machine bytes.now)) }
    {
        let own = self.hosts.packet(
            alloc,
            &self.cfg,
            &self.origin,
            &mut self.traffic,
            step,
            machine,
            bytes,
        )?;
        if own {
            return Ok(());
        }
        drop_for(step, DropCause::NotMine)?;
        Ok(())
    }
}
