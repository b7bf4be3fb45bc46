ghost use Rattle.std.specs.Prelude.{◌≡◌, ◌≤◌, ◌<◌, ◌++◌, ◌∷◌, [], length, nat_le, None, IfOk, OnOk};
ghost use Rattle.agent_spec.specs.Packets.{ask_for, enqueued, stays, with_packet};
ghost use Rattle.agent_spec.specs.Agent.{new_host};
ghost use Rattle.agent_spec.specs.Answers.{is_ask};
ghost use Rattle.agent_spec.specs.Clock.{ask_again, is_due, renewed};
ghost use Rattle.node_spec.specs.Steps.{outgoing, with_sends};
ghost use Rattle.std.specs.List.{flat_map};
ghost use Rattle.host_agent.specs.Retries.{with_denials, without_ask};
ghost use Rattle.host_agent.specs.Seen.{as_is};
ghost use Rattle.node_spec.specs.Steps.{turned};

use crate::bytes::copied;
use crate::telling::say_all;
use agent_spec::Asked;
use control_msg::Message;
use hold_queue::HoldQueue;
use node_spec::say;
use std::alloc::Global;
use std::marker::Model;
use std::mem;
use vip_config::Config;
use wire_core::{DropCause, Ip4, NoMemory, NodeId, Note, Step};

/// Who asks, and whom: the agent's boot, and the replica that is asked.
#[derive(Clone, Copy, Debug, PartialEq, Eq)]
pub struct Origin {
    pub boot: u64,
    /// A replica's index.
    pub hint: u8,
}

/// A machine of the agent's own: its held packets, and its asks for ranges.
#[derive(Drop)]
pub struct Host {
    machine: Ip4,
    queue: HoldQueue,
    /// The number of the last ask, at first 0.
    seq: u64,
    ask: Option<Asked>,
}

impl Model for Host {
    ghost use Rattle.agent_spec.specs.Agent.{Host};

    ghost Value = { Host };

    ghost view = { λ h. record { machine = h.machine; queue = h.queue; seq = h.seq; ask = h.ask } };
}

/// One packet more in the queue, and how many are held then. `None` where it is full.
fn enqueue(queue: &mut HoldQueue, packet: Vec<u8>) -> Option<usize>
    ensures { (queue.new, result) ≡ enqueued queue.old packet.items }
{
    match queue.hold(packet) {
        Ok(count) => Some(count),
        Err(_) => None,
    }
}

/// Whether the ask with this number is out.
pub(crate) fn is_ask(seq: u64, ask: &Option<Asked>) -> bool
    ensures { result ≡ is_ask seq ask.now }
{
    match ask {
        Some(asked) => asked.seq == seq,
        None => false,
    }
}

/// Drops each of the held packets.
fn deny_each(queue: &mut HoldQueue, step: &mut Step) -> Result<(), NoMemory>
    ensures left { OnOk result (queue.new ≡ []) }
    ensures notes { OnOk result (step.new ≡ with_denials queue.old step.old) }
{
    while let Some(packet) = queue.take() {
        let cause = DropCause::Denied;
        step.note(Note::Dropped { cause })?;
    }
    Ok(())
}

/// Whether the ask is out for so long.
fn is_due(now: u64, retry: u64, asked: &Asked) -> bool
    ensures { result ≡ is_due now retry asked.now }
{
    now.saturating_sub(asked.at) >= retry
}

impl Host {
    /// A machine without packets.
    pub(crate) fn new(alloc: Global, machine: Ip4) -> Result<Host, NoMemory>
        ensures { IfOk result (λ h. h ≡ new_host machine) }
    {
        let queue = HoldQueue::new(alloc)?;
        Ok(Host {
            machine,
            queue,
            seq: 0,
            ask: None,
        })
    }

    /// Whether the ask with this number is out.
    pub(crate) fn is_asking(&self, seq: u64) -> bool
        ensures { result ≡ is_ask seq self.now.ask }
    {
        is_ask(seq, &self.ask)
    }

    /// The ask is over, and each held packet is dropped.
    pub(crate) fn refuse(&mut self, step: &mut Step) -> Result<(), NoMemory>
        ensures left { OnOk result (self.new ≡ record self.old { queue = []; ask = None }) }
        ensures notes { OnOk result (step.new ≡ with_denials self.old.queue step.old) }
        ensures machine { self.new.machine ≡ self.old.machine }
    {
        deny_each(&mut self.queue, step)?;
        self.ask = None;
        Ok(())
    }

    pub(crate) fn machine(&self) -> Ip4
        ensures { result ≡ self.now.machine }
    {
        self.machine
    }

    /// An Ask to the replica that is asked, where none is out and the number isn't the greatest.
    #[tactic(auto, using(node_spec::proofs::Turning::send_turned, node_spec::proofs::Turning::quiet_turned), unfolding(agent_spec::specs::Packets::ask_for))]
    pub(crate) fn ask_for(
        &mut self,
        alloc: Global,
        cfg: &Config,
        step: &mut Step,
        origin: &Origin,
        now: u64,
    ) -> Result<(), NoMemory>
        ensures turn { OnOk result
            ((self.new, step.new) ≡ turned as_is cfg.now step.old (ask_for origin.now.boot origin.now.hint now self.old)) }
        ensures machine { self.new.machine ≡ self.old.machine }
    {
        if self.ask.is_some() || self.seq == u64::MAX {
            return Ok(());
        }
        let seq = self.seq + 1;
        let ask = Message::Ask {
            boot: origin.boot,
            machine: self.machine,
            seq,
        };
        say(alloc, cfg, step, NodeId::Replica(origin.hint), &ask)?;
        self.seq = seq;
        self.ask = Some(Asked { seq, at: now });
        Ok(())
    }

    /// A packet for which there is no port is held, and a range is asked for.
    #[tactic(auto, using(node_spec::proofs::Turning::drop_turned), unfolding(agent_spec::specs::Packets::stays))]
    pub(crate) fn hold(
        &mut self,
        alloc: Global,
        cfg: &Config,
        step: &mut Step,
        origin: &Origin,
        now: u64,
        packet: &[u8],
    ) -> Result<(), NoMemory>
        ensures turn { OnOk result
            ((self.new, step.new)
            ≡ turned as_is cfg.now step.old (stays origin.now.boot origin.now.hint now self.old packet.now)) }
        ensures machine { self.new.machine ≡ self.old.machine }
    {
        let bytes = copied(alloc, packet)?;
        let Some(count) = enqueue(&mut self.queue, bytes) else {
            let cause = DropCause::QueueFull;
            step.note(Note::Dropped { cause })?;
            return Ok(());
        };
        let machine = self.machine;
        let count = count as u64;
        step.note(Note::Queued { machine, count })?;
        self.ask_for(alloc, cfg, step, origin, now)?;
        Ok(())
    }

    /// Whether a packet is held.
    pub(crate) fn holds_packet(&self) -> bool
        ensures { result ≡ nat_le 1 (length self.now.queue) }
    {
        self.queue.len() >= 1
    }

    /// Holds a packet again, for which there is room.
    pub(crate) fn keep(&mut self, packet: Vec<u8>)
        requires { length self.old.queue < 64 }
        ensures { self.new ≡ with_packet self.old packet.items }
    {
        let _ = self.queue.hold(packet);
    }

    /// The ask with this number is over, and the held packets are taken.
    pub(crate) fn begin(&mut self, alloc: Global, seq: u64) -> Result<HoldQueue, NoMemory>
        ensures taken { IfOk result (λ waiting. waiting ≡ self.old.queue) }
        ensures few { IfOk result (λ waiting. length waiting ≤ 64) }
        ensures left { OnOk result (self.new ≡ without_ask seq self.old) }
        ensures machine { self.new.machine ≡ self.old.machine }
    {
        let fresh = HoldQueue::new(alloc)?;
        if is_ask(seq, &self.ask) {
            self.ask = None;
        }
        Ok(mem::replace(&mut self.queue, fresh))
    }

    /// The ask, to all five, where it is out for so long.
    pub(crate) fn ask_again(
        &self,
        alloc: Global,
        cfg: &Config,
        step: &mut Step,
        boot: u64,
        now: u64,
        retry: u64,
    ) -> Result<(), NoMemory>
        ensures { OnOk result (step.new ≡ with_sends (flat_map (outgoing cfg.now)
            (ask_again boot now retry self.now.machine self.now.ask)) step.old) }
    {
        let Some(asked) = self.ask else {
            return Ok(());
        };
        if !is_due(now, retry, &asked) {
            return Ok(());
        }
        let ask = Message::Ask {
            boot,
            machine: self.machine,
            seq: asked.seq,
        };
        say_all(alloc, cfg, step, &ask)?;
        Ok(())
    }

    /// Its time is renewed where it was said again.
    pub(crate) fn renew(&mut self, now: u64, retry: u64)
        ensures { self.new ≡ renewed now retry self.old }
    {
        if let Some(asked) = self.ask {
            if is_due(now, retry, &asked) {
                self.ask = Some(Asked { at: now, ..asked });
            }
        }
    }
}
