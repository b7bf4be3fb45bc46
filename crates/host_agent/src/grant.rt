// A range is granted, and held packets leave through it.
ghost use Rattle.std.specs.Prelude.{◌≡◌, ◌≤◌, ◌<◌, ◌+◌, List, ℕ, take, length, None, Ok, IfOk, IfSome, OnOk, is_none};
ghost use Rattle.agent_spec.specs.Answers.{ask_left, retry, take_grant};
ghost use Rattle.host_agent.specs.Seen.{as_is, site};
ghost use Rattle.host_agent.specs.Retries.{may_leave};
ghost use Rattle.node_spec.specs.Steps.{tried, turned};
ghost use Rattle.node_spec.specs.Turns.{each};
ghost use Rattle.packet_spec.specs.Packets.{read_packet};

use crate::host::{Host, Origin};
use crate::traffic::Traffic;
use crate::trying::try_packet;
use hold_queue::HoldQueue;
use packet_edit::Packet;
use std::alloc::Global;
use vip_config::Config;
use wire_core::{Act, NoMemory, Step};

/// Tries a held packet again, now that there is another range. It is read again; a fault, which none has, drops it.
/// Where there is no port for it still, its length.
#[tactic(auto, using(crate::proofs::Tries::quiet_tried))]
fn leaves(
    alloc: Global,
    cfg: &Config,
    traffic: &mut Traffic,
    step: &mut Step,
    bytes: &[u8],
) -> Result<Option<usize>, NoMemory>
    ensures turn { IfOk result (λ stays. (traffic.new, (step.new, is_none stays))
        ≡ tried as_is cfg.now step.old traffic.old (may_leave cfg.now traffic.old (read_packet bytes.now))) }
    ensures packet { IfOk result (λ stays. IfSome stays (λ n. read_packet bytes.now ≡ Ok (take n bytes.now))) }
{
    let packet = match Packet::read(bytes) {
        Ok(packet) => packet,
        Err(_) => return Ok(None),
    };
    let left = try_packet(alloc, cfg, traffic, step, &packet)?;
    if left {
        return Ok(None);
    }
    Ok(Some(packet.len()))
}

/// A held packet runs through the rows again. Without a port it stays held.
#[tactic(auto, unfolding(agent_spec::specs::Answers::retry))]
fn retry(
    alloc: Global,
    cfg: &Config,
    traffic: &mut Traffic,
    host: &mut Host,
    step: &mut Step,
    mut bytes: Vec<u8>,
) -> Result<(), NoMemory>
    requires room { length host.old.queue < 64 }
    ensures turn { OnOk result ((site traffic.new host.new, step.new)
        ≡ turned as_is cfg.now step.old (retry cfg.now bytes.items (site traffic.old host.old))) }
    ensures few { length host.new.queue ≤ length host.old.queue + 1 }
    ensures machine { host.new.machine ≡ host.old.machine }
{
    let Some(len) = leaves(alloc, cfg, traffic, step, &bytes)? else {
        return Ok(());
    };
    bytes.truncate(len);
    host.keep(bytes);
    Ok(())
}

/// The packets that waited run through the rows again, in their order.
fn retry_each(
    alloc: Global,
    cfg: &Config,
    traffic: &mut Traffic,
    host: &mut Host,
    step: &mut Step,
    mut waiting: HoldQueue,
) -> Result<(), NoMemory>
    requires room { length host.old.queue + length waiting ≤ 64 }
    ensures turn { OnOk result ((site traffic.new host.new, step.new)
        ≡ turned as_is cfg.now step.old (each (retry cfg.now) waiting (site traffic.old host.old))) }
    ensures machine { host.new.machine ≡ host.old.machine }
{
    while let Some(bytes) = waiting.take() {
        retry(alloc, cfg, traffic, host, step, bytes)?;
    }
    Ok(())
}

/// Where packets are left, a range is asked for again.
#[tactic(auto, using(node_spec::proofs::Turning::quiet_turned, crate::proofs::Sites::host_turned))]
fn ask_left(
    alloc: Global,
    cfg: &Config,
    origin: &Origin,
    traffic: &Traffic,
    host: &mut Host,
    step: &mut Step,
) -> Result<(), NoMemory>
    ensures turn { OnOk result ((site traffic.now host.new, step.new)
        ≡ turned as_is cfg.now step.old (ask_left origin.now.boot origin.now.hint (site traffic.now host.old))) }
    ensures machine { host.new.machine ≡ host.old.machine }
{
    if host.holds_packet() {
        host.ask_for(alloc, cfg, step, origin, traffic.time)?;
    }
    Ok(())
}

/// A range is held from now on, and the held packets go through the rows in their order.
pub(crate) fn take_grant(
    alloc: Global,
    cfg: &Config,
    origin: &Origin,
    traffic: &mut Traffic,
    host: &mut Host,
    step: &mut Step,
    seq: u64,
    n: u64,
) -> Result<(), NoMemory>
    ensures turn { OnOk result ((site traffic.new host.new, step.new)
        ≡ turned as_is cfg.now step.old
        (take_grant cfg.now origin.now.boot origin.now.hint (site traffic.old host.old) seq n)) }
    ensures machine { host.new.machine ≡ host.old.machine }
{
    let waiting = host.begin(alloc, seq)?;
    step.act(Act::Hold { n })?;
    retry_each(alloc, cfg, traffic, host, step, waiting)?;
    ask_left(alloc, cfg, origin, traffic, host, step)?;
    Ok(())
}
