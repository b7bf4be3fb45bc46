ghost use Rattle.std.specs.Prelude.{◌≡◌, ◌<◌, [], option_map, slice_get, IfOk, OnErr, OnOk};
ghost use Rattle.paxos_acceptor.specs.Seen.{pair_of};
ghost use Rattle.paxos_log.specs.Sites.{entries_of};
ghost use Rattle.paxos_log.specs.World.{new_replica, on_mail, stepped};
ghost use Rattle.paxos_spec.specs.Acceptor.{state_of};
ghost use Rattle.paxos_spec.specs.Events.{or_quiet};
ghost use Rattle.paxos_spec.specs.Replica.{new_memory, on_campaign, on_offer};

use paxos_replica::{OwnedEntry, Replica, ReplicaStep};
use paxos_spec::Mail;
use std::alloc::Global;
use std::marker::Model;
use wire_core::{NoMemory, Value};

/// A replica with all entries that it ever made, from which it opens again.
#[derive(Debug, Drop)]
pub struct Site {
    entries: Vec<OwnedEntry>,
    replica: Replica,
}

impl Model for Site {
    ghost use Rattle.paxos_log.specs.World.{Replica as ReplicaState};

    ghost Value = { ReplicaState };

    ghost use Rattle.std.specs.Prelude.{◌≡◌};
    ghost use Rattle.paxos_log.specs.Sites.{entries_of};
    ghost use Rattle.paxos_spec.specs.Acceptor.{state_of};

    ghost view = { λ s. record { entries = entries_of s.entries.items; memory = s.replica.memory } };

    ghost invariant = { λ s. s.replica.acceptor ≡ state_of (entries_of s.entries.items) };
}

/// The replica that these entries make.
#[tactic(auto, using(crate::proofs::Journaling::state_none, crate::proofs::Journaling::state_next))]
fn recovered(alloc: Global, entries: &[OwnedEntry]) -> Result<Replica, NoMemory>
    ensures acceptor { IfOk result (λ replica. replica.acceptor ≡ state_of (entries_of entries.now)) }
    ensures memory { IfOk result (λ replica. replica.memory ≡ new_memory) }
{
    let mut replica = Replica::new(alloc);
    for entry in entries {
        replica.recover(&entry.as_entry())?;
    }
    Ok(replica)
}

impl Site {
    /// A replica that has done nothing.
    #[tactic(auto, using(crate::proofs::Journaling::state_none))]
    pub fn new(alloc: Global) -> Site
        ensures { result ≡ new_replica }
    {
        Site {
            entries: Vec::new(alloc),
            replica: Replica::new(alloc),
        }
    }

    /// What it learned at this slot. `None` exactly from its log's length on.
    pub fn learned(&self, slot: u64) -> Option<(u64, Value<'_>)>
        ensures { result ≡ option_map pair_of (slice_get (state_of self.now.entries).log slot) }
    {
        self.replica.learned(slot)
    }

    /// Its step where it runs for election. `None` is the step that changes nothing, here and below.
    #[tactic(auto, using(paxos_replica::proofs::PassedOver::campaign_steps))]
    pub fn campaign(&self, me: u8) -> Result<Option<ReplicaStep>, NoMemory>
        requires { me < 5 }
        ensures { IfOk result (λ step.
            or_quiet self.now.memory step ≡ on_campaign me (state_of self.now.entries) self.now.memory) }
    {
        self.replica.campaign(me)
    }

    /// Its step where a value is offered.
    #[tactic(auto, using(paxos_replica::proofs::PassedOver::offer_steps))]
    pub fn offer(&self, me: u8, value: &Value) -> Result<Option<ReplicaStep>, NoMemory>
        ensures { IfOk result (λ step.
            or_quiet self.now.memory step ≡ on_offer me (state_of self.now.entries) self.now.memory value.now) }
    {
        self.replica.offer(me, value)
    }

    /// Its step where a message comes. One of no replica is passed over.
    #[tactic(auto, using(paxos_replica::proofs::PassedOver::message_steps))]
    pub fn on_mail(&self, me: u8, mail: &Mail) -> Result<Option<ReplicaStep>, NoMemory>
        ensures { IfOk result (λ step. or_quiet self.now.memory step ≡ on_mail me self.now mail.now) }
    {
        if mail.sender < 5 {
            self.replica.on_message(me, mail.sender, &mail.body)
        } else {
            Ok(None)
        }
    }

    /// It takes a step, and the entry is kept. Without memory nothing changed.
    #[tactic(auto, using(crate::proofs::Journaling::state_more))]
    pub fn take(&mut self, alloc: Global, step: ReplicaStep) -> Result<(), NoMemory>
        ensures ok { OnOk result (self.new ≡ stepped self.old step) }
        ensures err { OnErr result (self.new ≡ self.old) }
    {
        let entry = step.copy_of_entry(alloc)?;
        self.entries.reserve(1)?;
        self.replica.take(step)?;
        if let Some(entry) = entry {
            self.entries.push(entry).unwrap();
        }
        Ok(())
    }

    /// It goes down and opens again from its entries. Costs a step for each. Without memory nothing changed.
    pub fn reopen(&mut self, alloc: Global) -> Result<(), NoMemory>
        ensures ok { OnOk result (self.new ≡ record { entries = self.old.entries; memory = new_memory }) }
        ensures err { OnErr result (self.new ≡ self.old) }
    {
        self.replica = recovered(alloc, &self.entries)?;
        Ok(())
    }

    /// It goes down in this step and opens again: of the step its entry alone is kept. Costs a step for each entry.
    /// Without memory nothing changed.
    #[tactic(auto, using(crate::proofs::Journaling::state_more))]
    pub fn fall(&mut self, alloc: Global, step: ReplicaStep) -> Result<(), NoMemory>
        ensures ok { OnOk result (self.new ≡ stepped self.old (record {
          entry = step.entry;
          memory = new_memory;
          sends = [];
        })) }
        ensures err { OnErr result (self.new ≡ self.old) }
    {
        let mut replica = recovered(alloc, &self.entries)?;
        self.entries.reserve(1)?;
        if let Some(entry) = step.into_entry() {
            replica.recover(&entry.as_entry())?;
            self.entries.push(entry).unwrap();
        }
        self.replica = replica;
        Ok(())
    }
}
