ghost use Rattle.std.specs.Prelude.{◌≡◌, IfOk, OnErr, OnOk, option_map, slice_get};
ghost use Rattle.paxos_acceptor.specs.Seen.{pair_of};
ghost use Rattle.paxos_spec.specs.Acceptor.{follow, reach};
ghost use Rattle.paxos_spec.specs.Events.{after_step, new_replica, on_epoch};
ghost use Rattle.paxos_spec.specs.Leader.{is_idle, value_out};
ghost use Rattle.paxos_spec.specs.Replica.{down};

use crate::memory::Memory;
use crate::step::ReplicaStep;
use paxos_acceptor::Acceptor;
use paxos_spec::Stage;
use std::alloc::Global;
use std::marker::Model;
use wire_core::{Entry, NoMemory, Value};

/// A replica's part in agreement: an acceptor, a leader, and what it heard of.
#[derive(Debug, Drop)]
pub struct Replica {
    pub(crate) alloc: Global,
    pub(crate) acceptor: Acceptor,
    pub(crate) memory: Memory,
}

impl Model for Replica {
    ghost use Rattle.paxos_spec.specs.Events.{Replica};

    ghost Value = { Replica };

    ghost view = { λ r. record { acceptor = r.acceptor.state; memory = r.memory } };
}

impl Replica {
    /// A replica that made no entry and remembers nothing.
    pub fn new(alloc: Global) -> Replica
        ensures { result ≡ new_replica }
    {
        Replica {
            alloc,
            acceptor: Acceptor::new(alloc),
            memory: Memory::new(alloc),
        }
    }

    /// Folds in an entry of its journal; the memory stays. Without memory nothing changed.
    pub fn recover(&mut self, entry: &Entry) -> Result<(), NoMemory>
        ensures ok { OnOk result (self.new ≡ record {
          acceptor = follow self.old.acceptor entry.now;
          memory = self.old.memory;
        }) }
        ensures err { OnErr result (self.new ≡ self.old) }
    {
        self.acceptor.recover(entry)
    }

    /// It takes a step: the entry is folded in, and the memory is that of the step. The step is to be one that this
    /// replica was asked for since it last changed. Without memory nothing changed.
    pub fn take(&mut self, step: ReplicaStep) -> Result<(), NoMemory>
        ensures ok { OnOk result (self.new ≡ after_step self.old step) }
        ensures err { OnErr result (self.new ≡ self.old) }
    {
        if let Some(entry) = step.entry() {
            self.acceptor.recover(&entry)?;
        }
        self.memory = step.into_memory();
        Ok(())
    }

    /// It steps down: of its leading it remembers the ballot alone.
    pub fn step_down(&mut self)
        ensures { self.new ≡ record { acceptor = self.old.acceptor; memory = down self.old.memory } }
    {
        self.memory.leader.step_down();
    }

    /// This epoch was heard of. Where the replica leads or wants to at a lower ballot, it steps down.
    pub fn on_epoch(&mut self, epoch: u64)
        ensures { self.new ≡ record { acceptor = self.old.acceptor; memory = on_epoch self.old.memory epoch } }
    {
        let leader = &self.memory.leader;
        if leader.stage() != Stage::Follower && leader.ballot() < epoch {
            self.memory.leader.step_down();
        }
        self.memory.seen = self.memory.seen.max(epoch);
    }

    /// How far it is on the way to leading.
    pub fn stage(&self) -> Stage
        ensures { result ≡ self.now.memory.leader.stage }
    {
        self.memory.leader.stage()
    }

    /// The ballot of its last candidacy, at first 0.
    pub fn ballot(&self) -> u64
        ensures { result ≡ self.now.memory.leader.ballot }
    {
        self.memory.leader.ballot()
    }

    /// Whether nothing is outstanding.
    pub fn is_idle(&self) -> bool
        ensures { result ≡ is_idle self.now.memory.leader.out }
    {
        self.memory.leader.is_idle()
    }

    /// The value that stands outstanding. `None` exactly where none does.
    pub fn outstanding(&self) -> Option<Value<'_>>
        ensures { result ≡ value_out self.now.memory.leader.out }
    {
        self.memory.leader.outstanding()
    }

    /// The greatest ballot or epoch that it heard of in a Refuse, of a leader or by [`Replica::on_epoch`], at first 0.
    pub fn seen(&self) -> u64
        ensures { result ≡ self.now.memory.seen }
    {
        self.memory.seen
    }

    /// The greatest length that it heard of last, at first 0: what its log lacks up to there is fetched.
    pub fn goal(&self) -> u64
        ensures { result ≡ self.now.memory.goal }
    {
        self.memory.goal
    }

    /// The ballot below which nothing is followed, at first 0.
    pub fn promised(&self) -> u64
        ensures { result ≡ self.now.acceptor.promise }
    {
        self.acceptor.promised()
    }

    /// The number of slots that were learned.
    pub fn length(&self) -> u64
        ensures { result ≡ reach self.now.acceptor }
    {
        self.acceptor.length()
    }

    /// The ballot and value that were learned at this slot. `None` exactly from the length on.
    pub fn learned(&self, slot: u64) -> Option<(u64, Value<'_>)>
        ensures { result ≡ option_map pair_of (slice_get self.now.acceptor.log slot) }
    {
        self.acceptor.entry(slot)
    }
}
