ghost use Rattle.std.specs.Prelude.{◌≡◌, true, IfOk, OnOk};
ghost use Rattle.manager_log.specs.Log.{Fits, HasRoom};
ghost use Rattle.manager_core.specs.Rows.{counted, counted_heard};
ghost use Rattle.manager_core.specs.Seen.{halved, stepped, taken, with_lists};
ghost use Rattle.manager_spec.specs.Manager.{agrees, effects_of, hears, leases, rested};
ghost use Rattle.manager_spec.specs.Proposal.{stops};
ghost use Rattle.node_spec.specs.Steps.{turned};
ghost use Rattle.node_spec.specs.Turns.{drop_turn};
ghost use Rattle.paxos_spec.specs.Acceptor.{reach};
ghost use Rattle.paxos_spec.specs.Leader.{is_primary};
ghost use Rattle.port_leases.specs.TableState.{row_above};
ghost use Rattle.vip_config.specs.Leases.{lease_rules_of};

use crate::half::{Half, stops};
use manager_log::{LeaseLog, Pending, Queue, add_acts, spell};
use manager_spec::{Marks, Peer};
use paxos_replica::ReplicaStep;
use paxos_spec::Stage;
use port_leases::{EffectList, Row};
use std::alloc::Global;
use std::collections::BTreeMap;
use std::marker::Model;
use vip_config::Config;
use wire_core::{DropCause, NoMemory, Note, Step};

/// A replica of the managers.
#[derive(Drop)]
pub struct Manager {
    pub(crate) alloc: Global,
    pub(crate) cfg: Config,
    /// Its number, from 0 to 4.
    pub(crate) index: u8,
    pub(crate) log: LeaseLog,
    /// By a row's number, which muxes acknowledged it.
    pub(crate) acks: BTreeMap<u64, Marks>,
    /// Which rows a push needn't look at.
    pub(crate) pending: Pending,
    pub(crate) queue: Queue,
    /// What is known of each configured mux, by its number.
    pub(crate) muxes: Vec<Peer>,
    /// In milliseconds.
    pub(crate) time: u64,
    /// When it last heard of a leader.
    pub(crate) heard: u64,
}

impl Model for Manager {
    ghost use Rattle.std.specs.Prelude.{◌≡◌, ◌<◌, ◌≤◌, length, true};
    ghost use Rattle.vip_config.specs.Leases.{lease_rules_of};
    ghost use Rattle.manager_log.specs.Pending.{IsCurrent};
    ghost use Rattle.manager_log.specs.Parts.{NumberedFrom};
    ghost use Rattle.manager_core.specs.Seen.{Core};

    ghost Value = { Core };

    ghost view = { λ m. record {
      config = m.cfg;
      lists = record {
        index = m.index;
        acceptor = m.log.replica.acceptor;
        memory = m.log.replica.memory;
        acks = m.acks.entries;
        queue = m.queue;
        muxes = m.muxes.items;
        time = m.time;
        heard = m.heard;
      };
      sound = m.log.sound;
    } };

    ghost invariant = { λ m. (m.log.rules ≡ lease_rules_of m.cfg) × (m.index < 5)
        × NumberedFrom 0 m.muxes.items × (length m.muxes.items ≤ 16)
        × (m.log.sound ≡ true
        → IsCurrent m.pending (lease_rules_of m.cfg) m.log.replica.acceptor m.acks.entries m.muxes.items) };
}

impl Manager {
    /// The number of slots that its log has.
    pub fn length(&self) -> u64
        ensures { result ≡ reach self.now.lists.acceptor }
    {
        self.log.replica().length()
    }

    /// The row with the least number above this one. `None` exactly where there is none, as long as no call of
    /// [`Manager::handle`] failed. Costs a binary search, and a look at places of rows that left, of which there are no
    /// more than of rows.
    pub fn next_row(&self, above: u64) -> Option<Row>
        ensures { self.now.sound ≡ true → result ≡ row_above (leases self.now.config self.now.lists).rows above }
    {
        if self.log.is_sound() {
            self.log.next_row(above)
        } else {
            None
        }
    }

    /// A follower has no acknowledgements and no queue.
    #[tactic(auto, using(manager_log::proofs::PendingLaws::current_new))]
    pub(crate) fn rest(&mut self)
        ensures { self.new ≡ with_lists self.old (rested self.old.lists) }
    {
        if self.log.replica().stage() == Stage::Follower {
            self.acks.clear();
            self.pending.clear();
            self.queue.clear();
        }
    }

    /// Whether it is primary.
    pub(crate) fn is_primary(&self) -> bool
        ensures { result ≡ is_primary self.now.lists.memory.leader.stage }
    {
        self.log.replica().stage() == Stage::Primary
    }

    /// The step of a dropped datagram.
    #[tactic(auto, unfolding(node_spec::specs::Steps::onto, node_spec::specs::Steps::turned))]
    pub(crate) fn drops(&self, cause: DropCause) -> Result<Step, NoMemory>
        ensures { IfOk result (λ step. (self.now, step) ≡ taken self.now (drop_turn self.now.lists cause)) }
    {
        let mut step = Step::new(self.alloc);
        step.note(Note::Dropped { cause })?;
        Ok(step)
    }

    /// A row that only drops its datagram.
    #[tactic(auto, unfolding(crate::specs::Seen::halved, node_spec::specs::Steps::onto, node_spec::specs::Steps::turned))]
    pub(crate) fn refuses(&self, cause: DropCause) -> Result<Half, NoMemory>
        ensures { IfOk result (λ half. (self.now, half) ≡ halved self.now (stops (drop_turn self.now.lists cause))) }
    {
        let step = self.drops(cause)?;
        Ok(stops(step))
    }

    /// The log takes a step. Answered is what was done by what was learned.
    fn learn(&mut self, step: ReplicaStep) -> Result<EffectList, NoMemory>
        requires sound { self.old.sound ≡ true }
        requires room { HasRoom (reach self.old.lists.acceptor) step.entry }
        ensures lists { OnOk result (self.new ≡ with_lists self.old (stepped self.old.lists step)) }
        ensures effects { IfOk result (λ effects.
            effects ≡ effects_of (lease_rules_of self.old.config) self.old.lists.acceptor step.entry) }
    {
        self.log.take(step)
    }

    /// It takes a step of the agreement: the entry, the messages and the acts of what was learned are added. Answered
    /// is what was done by what was learned.
    #[tactic(auto, unfolding(manager_spec::specs::Manager::agrees, node_spec::specs::Steps::onto, node_spec::specs::Steps::turned))]
    pub(crate) fn take(&mut self, out: &mut Step, step: ReplicaStep) -> Result<EffectList, NoMemory>
        requires sound { self.old.sound ≡ true }
        requires room { HasRoom (reach self.old.lists.acceptor) step.entry }
        ensures turned { OnOk result ((self.new, out.new)
            ≡ turned (with_lists self.old) self.old.config out.old (agrees self.old.config self.old.lists step)) }
        ensures effects { IfOk result (λ effects.
            effects ≡ effects_of (lease_rules_of self.old.config) self.old.lists.acceptor step.entry) }
    {
        spell(self.alloc, &self.cfg, out, &step)?;
        let effects = self.learn(step)?;
        add_acts(out, effects.as_slice())?;
        self.rest();
        Ok(effects)
    }

    /// The step of a row that is a step of the agreement.
    pub(crate) fn agree(&mut self, step: ReplicaStep) -> Result<Step, NoMemory>
        requires sound { self.old.sound ≡ true }
        requires room { HasRoom (reach self.old.lists.acceptor) step.entry }
        ensures { IfOk result (λ out. (self.new, out) ≡ taken self.old (agrees self.old.config self.old.lists step)) }
    {
        let mut out = Step::new(self.alloc);
        self.take(&mut out, step)?;
        Ok(out)
    }

    /// The same, where an entry tells that a leader was heard.
    #[tactic(auto, unfolding(manager_spec::specs::Manager::agrees, node_spec::specs::Steps::onto, node_spec::specs::Steps::turned))]
    pub(crate) fn agree_heard(&mut self, step: ReplicaStep) -> Result<Step, NoMemory>
        requires sound { self.old.sound ≡ true }
        requires room { HasRoom (reach self.old.lists.acceptor) step.entry }
        ensures { IfOk result (λ out.
            (self.new, out) ≡ taken self.old (hears (agrees self.old.config self.old.lists step))) }
    {
        let is_heard = step.entry().is_some();
        let out = self.agree(step)?;
        if is_heard {
            self.heard = self.time;
        }
        Ok(out)
    }

    /// The step of an event that may not count; then it is dropped as late.
    #[tactic(auto, unfolding(crate::specs::Rows::counted, manager_log::specs::Log::Fits))]
    pub(crate) fn counted(&mut self, step: Option<ReplicaStep>) -> Result<Step, NoMemory>
        requires sound { self.old.sound ≡ true }
        requires fits { Fits self.old.lists.acceptor step }
        ensures { IfOk result (λ out. (self.new, out) ≡ taken self.old (counted self.old.config self.old.lists step)) }
    {
        match step {
            None => self.drops(DropCause::Late),
            Some(step) => self.agree(step),
        }
    }

    /// The same, where an entry tells that a leader was heard.
    #[tactic(auto, unfolding(crate::specs::Rows::counted_heard, manager_log::specs::Log::Fits))]
    pub(crate) fn counted_heard(&mut self, step: Option<ReplicaStep>) -> Result<Step, NoMemory>
        requires sound { self.old.sound ≡ true }
        requires fits { Fits self.old.lists.acceptor step }
        ensures { IfOk result (λ out.
            (self.new, out) ≡ taken self.old (counted_heard self.old.config self.old.lists step)) }
    {
        match step {
            None => self.drops(DropCause::Late),
            Some(step) => self.agree_heard(step),
        }
    }
}
