ghost use Rattle.std.specs.Prelude.{◌≡◌, OnOk};
ghost use Rattle.std.specs.List.{flat_map};
ghost use Rattle.node_spec.specs.Sends.{Carries, to_agent};
ghost use Rattle.node_spec.specs.Steps.{outgoing, with_sends};

use std::alloc::Global;
use vip_config::Config;
use wire_core::{Items, NoMemory, NodeId, Outgoing, Step};

/// A packet, in a packet frame, goes to the agent, if there is one and it is configured.
#[tactic(auto, unfolding(node_spec::specs::Steps::outgoing, node_spec::specs::Steps::datagram))]
pub(crate) fn send_packet(
    alloc: Global,
    cfg: &Config,
    step: &mut Step,
    agent: Option<u16>,
    packet: &[u8],
) -> Result<(), NoMemory>
    ensures { OnOk result (step.new
        ≡ with_sends (flat_map (outgoing cfg.now) (to_agent agent (Carries packet.now))) step.old) }
{
    let Some(agent) = agent else {
        return Ok(());
    };
    let Some(socket) = cfg.socket(&NodeId::Agent(agent)) else {
        return Ok(());
    };
    let mut bytes = Vec::new(alloc);
    bytes.push(2)?;
    bytes.extend_from_slice(packet)?;
    step.sends.push(Outgoing {
        to: socket,
        bytes: Items::from_vec(bytes),
    })?;
    Ok(())
}
