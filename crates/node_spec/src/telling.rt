ghost use Rattle.std.specs.Prelude.{◌≡◌, IfOk, OnOk};
ghost use Rattle.std.specs.List.{flat_map};
ghost use Rattle.node_spec.specs.Sends.{tell, tell_each};
ghost use Rattle.node_spec.specs.Steps.{body_of, outgoing, with_sends};

use control_msg::{Message, encode};
use std::alloc::Global;
use vip_config::Config;
use wire_core::{Entry, EntryBytes, Items, NoMemory, NodeId, Outgoing, Step};

/// Adds a message to a node, in a control frame. To a node that isn't configured nothing goes.
#[tactic(auto, unfolding(crate::specs::Steps::outgoing, crate::specs::Steps::datagram))]
pub fn say(
    alloc: Global,
    cfg: &Config,
    step: &mut Step,
    to: NodeId,
    m: &Message,
) -> Result<(), NoMemory>
    ensures { OnOk result (step.new ≡ with_sends (outgoing cfg.now (tell to m.now)) step.old) }
{
    let Some(socket) = cfg.socket(&to) else {
        return Ok(());
    };
    let mut bytes = Vec::new(alloc);
    bytes.push(1)?;
    encode(m, &mut bytes)?;
    step.sends.push(Outgoing {
        to: socket,
        bytes: Items::from_vec(bytes),
    })?;
    Ok(())
}

/// Adds the same message to each of these replicas, in this order.
pub fn say_each(
    alloc: Global,
    cfg: &Config,
    step: &mut Step,
    targets: &[u8],
    m: &Message,
) -> Result<(), NoMemory>
    ensures { OnOk result
        (step.new ≡ with_sends (flat_map (outgoing cfg.now) (tell_each targets.now m.now)) step.old) }
{
    for target in targets {
        say(alloc, cfg, step, NodeId::Replica(*target), m)?;
    }
    Ok(())
}

/// The bytes of an entry, for a step.
#[tactic(auto, unfolding(crate::specs::Steps::body_of))]
pub fn entry_bytes(alloc: Global, entry: &Entry) -> Result<EntryBytes, NoMemory>
    ensures { IfOk result (λ bytes. bytes ≡ body_of entry.now) }
{
    let mut bytes = Vec::new(alloc);
    entry.write(&mut bytes)?;
    Ok(EntryBytes::from_vec(bytes))
}
